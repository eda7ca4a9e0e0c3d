// Why a source has no chunk.
ghost use Rattle.std.specs.Prelude.{◌≡◌};
ghost use Rattle.code_builder.specs.declared.fault.CodeFault.TheVariants.{OutOfMemory};

use std::alloc::{AllocError, AllocFailed};
use std::error::Error;
use std::fmt;

/// Why a source has no chunk: a limit that one of its functions does not keep, with the function's first line (0 for the main
/// chunk) and the number that it reaches, or want of memory.
#[derive(Clone, Copy, Debug, PartialEq, Eq)]
pub enum CodeFault {
    /// A function takes this many registers, which is above 250.
    TooManyRegisters { line: u32, reached: usize },
    /// A function has this many constants, which is above 262,144.
    TooManyConstants { line: u32, reached: usize },
    /// A jump of a function is this far, which is above 131,071.
    JumpTooFar { line: u32, reached: usize },
    /// This many functions stand directly in a function, which is above 262,144.
    TooManyFunctions { line: u32, reached: usize },
    OutOfMemory,
}

impl fmt::Display for CodeFault {
    ghost use Rattle.std.specs.Prelude.{Some};
    ghost use Rattle.code_builder.specs.Texts.{fault_text};

    ghost output = { λ fault. Some (fault_text fault) };

    fn fmt<W: fmt::Write>(&self, f: &mut fmt::Formatter<W>) -> fmt::Result {
        match *self {
            CodeFault::TooManyRegisters { line, .. } => write!(
                f,
                "TooManyRegisters at line {line}"
            ),
            CodeFault::TooManyConstants { line, .. } => write!(
                f,
                "TooManyConstants at line {line}"
            ),
            CodeFault::JumpTooFar { line, .. } => write!(f, "JumpTooFar at line {line}"),
            CodeFault::TooManyFunctions { line, .. } => write!(
                f,
                "TooManyFunctions at line {line}"
            ),
            CodeFault::OutOfMemory => write!(f, "out of memory"),
        }
    }
}

impl Error for CodeFault {}

impl From<AllocError> for CodeFault {
    ghost from_gives = { λ _ fault. fault ≡ OutOfMemory };

    fn from(_error: AllocError) -> Self {
        CodeFault::OutOfMemory
    }
}

impl<T: Drop> From<AllocFailed<T>> for CodeFault {
    ghost from_gives = { λ _ fault. fault ≡ OutOfMemory };

    fn from(_error: AllocFailed<T>) -> Self {
        CodeFault::OutOfMemory
    }
}

// Why a tree breaks the rules of scoping.
ghost use Rattle.std.specs.Prelude.{◌≡◌};
ghost use Rattle.scopes.specs.declared.fault.ScopeFault.TheVariants.{OutOfMemory};

use std::alloc::AllocError;
use std::error::Error;
use std::fmt;

/// The first place where a tree breaks a rule of scoping, in the order of its spelling, by its line.
/// (Manual 2.4.4, 2.5.9 and 2.6; at most 200 active locals and 60 upvalues a function.)
#[derive(Clone, Copy, Debug, PartialEq, Eq)]
pub enum ScopeFault {
    /// A `break` with no loop around it in its function.
    NoLoop { line: u32 },
    /// `...` in a function that takes no extra arguments.
    NoVararg { line: u32 },
    /// A declaration by which a function's active locals reach 201.
    TooManyLocals { line: u32, reached: usize },
    /// A name by which a function's upvalues reach 61.
    TooManyUpvalues { line: u32, reached: usize },
    OutOfMemory,
}

impl fmt::Display for ScopeFault {
    ghost use Rattle.std.specs.Prelude.{Some};
    ghost use Rattle.scopes.specs.Texts.{fault_text};

    ghost output = { λ fault. Some (fault_text fault) };

    fn fmt<W: fmt::Write>(&self, f: &mut fmt::Formatter<W>) -> fmt::Result {
        match *self {
            ScopeFault::NoLoop { line } => write!(f, "NoLoop at line {line}"),
            ScopeFault::NoVararg { line } => write!(f, "NoVararg at line {line}"),
            ScopeFault::TooManyLocals { line, .. } => write!(f, "TooManyLocals at line {line}"),
            ScopeFault::TooManyUpvalues { line, .. } => write!(f, "TooManyUpvalues at line {line}"),
            ScopeFault::OutOfMemory => write!(f, "out of memory"),
        }
    }
}

impl Error for ScopeFault {}

impl From<AllocError> for ScopeFault {
    ghost from_gives = { λ _ fault. fault ≡ OutOfMemory };

    fn from(_error: AllocError) -> Self {
        ScopeFault::OutOfMemory
    }
}

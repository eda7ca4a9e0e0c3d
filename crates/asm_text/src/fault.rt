// Why a text is no listing.

use std::alloc::AllocError;
use std::error::Error;
use std::fmt;

/// The first line by which a text is no listing, counted from 1.
#[derive(Clone, Copy, Debug, PartialEq, Eq, Drop)]
pub enum ListFault {
    /// The line has not the form of what is due there, or is missing, or is one too many.
    BadLine { line: usize },
    /// A function at nesting 201 begins.
    TooDeep { line: usize },
    /// All lines have their forms, and this one differs from the listing of the chunk that they give.
    Differs { line: usize },
    OutOfMemory,
}

impl fmt::Display for ListFault {
    ghost use Rattle.std.specs.Prelude.{Some};
    ghost use Rattle.asm_text.specs.Texts.{fault_text};

    ghost output = { λ fault. Some (fault_text fault) };

    fn fmt<W: fmt::Write>(&self, f: &mut fmt::Formatter<W>) -> fmt::Result {
        match *self {
            ListFault::BadLine { line } => write!(f, "BadLine at line {line}"),
            ListFault::TooDeep { line } => write!(f, "TooDeep at line {line}"),
            ListFault::Differs { line } => write!(f, "Differs at line {line}"),
            ListFault::OutOfMemory => write!(f, "out of memory"),
        }
    }
}

impl Error for ListFault {}

impl From<AllocError> for ListFault {
    ghost use Rattle.std.specs.Prelude.{◌≡◌};
    ghost use Rattle.asm_text.specs.declared.fault.ListFault.TheVariants.{OutOfMemory};

    ghost from_gives = { λ _ fault. fault ≡ OutOfMemory };

    fn from(_error: AllocError) -> ListFault {
        ListFault::OutOfMemory
    }
}

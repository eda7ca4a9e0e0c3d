// Why a source has no tokens.

ghost use Rattle.std.specs.Prelude.{◌≡◌};
ghost use Rattle.lexer.specs.declared.fault.LexFault.TheVariants.{OutOfMemory};

use std::alloc::AllocError;
use std::error::Error;
use std::fmt;

/// Why a source has no tokens: the first fault from the left, with the offset at which it stands.
/// (Manual 2.1, with whole numbers of 64 bits.)
#[derive(Clone, Copy, Debug, PartialEq, Eq)]
pub enum LexFault {
    /// A byte that begins no token, white space or comment.
    BadByte { at: usize },
    /// A short string that meets a line end that is not escaped, or the end; the offset is its quote's.
    UnfinishedString { at: usize },
    /// A long string or comment with no closing; the offset is its first `[`.
    UnfinishedLong { at: usize },
    /// `[` and one or more `=` that open nothing; the offset is that of `[`.
    BadLongOpen { at: usize },
    /// Decimal digits above 255 after a backslash; the offset is the backslash's.
    EscapeTooLarge { at: usize },
    /// A run that begins like a numeral and is none; the offset is its first byte's.
    BadNumber { at: usize },
    OutOfMemory,
}

impl fmt::Display for LexFault {
    ghost use Rattle.std.specs.Prelude.{Some};
    ghost use Rattle.lexer.specs.Texts.{fault_text};

    ghost output = { λ fault. Some (fault_text fault) };

    fn fmt<W: fmt::Write>(&self, f: &mut fmt::Formatter<W>) -> fmt::Result {
        match *self {
            LexFault::BadByte { at } => write!(f, "BadByte at offset {at}"),
            LexFault::UnfinishedString { at } => write!(f, "UnfinishedString at offset {at}"),
            LexFault::UnfinishedLong { at } => write!(f, "UnfinishedLong at offset {at}"),
            LexFault::BadLongOpen { at } => write!(f, "BadLongOpen at offset {at}"),
            LexFault::EscapeTooLarge { at } => write!(f, "EscapeTooLarge at offset {at}"),
            LexFault::BadNumber { at } => write!(f, "BadNumber at offset {at}"),
            LexFault::OutOfMemory => write!(f, "out of memory"),
        }
    }
}

impl Error for LexFault {}

impl From<AllocError> for LexFault {
    ghost from_gives = { λ _ fault. fault ≡ OutOfMemory };

    fn from(_error: AllocError) -> Self {
        LexFault::OutOfMemory
    }
}

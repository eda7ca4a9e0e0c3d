// What a text does not give, seen from its front.
ghost use Rattle.std.specs.Prelude.{◌≡◌};
ghost use Rattle.asm_text.specs.declared.miss.Miss.{Miss as OneMiss};
ghost use Rattle.asm_text.specs.declared.miss.ReadError.TheVariants.{Memory, Miss as Missed};
ghost use Rattle.asm_text.specs.declared.miss.Unread.TheVariants as unread;
ghost use Rattle.asm_text.specs.Reading.{missed_at};

use std::alloc::{AllocError, AllocFailed};

/// The first line that is missed; the number is how many bytes are left where it begins.
#[derive(Clone, Copy, Debug, PartialEq, Eq)]
pub enum Miss {
    BadLine(usize),
    TooDeep(usize),
}

/// Why lines are not read.
#[derive(Debug, Drop)]
pub enum ReadError {
    Memory,
    Miss(Miss),
}

/// Why a part of a line is not read.
#[derive(Clone, Copy, Debug, PartialEq, Eq, Drop)]
pub enum Unread {
    Memory,
    BadForm,
}

impl Unread {
    /// The same of the line, with so many bytes left where it begins.
    pub fn at(self, left: usize) -> ReadError
        ensures { result ≡ missed_at self left }
    {
        match self {
            Unread::Memory => ReadError::Memory,
            Unread::BadForm => ReadError::Miss(Miss::BadLine(left)),
        }
    }
}

impl From<AllocError> for ReadError {
    ghost from_gives = { λ _ error. error ≡ Memory };

    fn from(_error: AllocError) -> ReadError {
        ReadError::Memory
    }
}

impl<T: Drop> From<AllocFailed<T>> for ReadError {
    ghost from_gives = { λ _ error. error ≡ Memory };

    fn from(_error: AllocFailed<T>) -> ReadError {
        ReadError::Memory
    }
}

impl From<AllocError> for Unread {
    ghost from_gives = { λ _ error. error ≡ unread.Memory };

    fn from(_error: AllocError) -> Unread {
        Unread::Memory
    }
}

impl<T: Drop> From<AllocFailed<T>> for Unread {
    ghost from_gives = { λ _ error. error ≡ unread.Memory };

    fn from(_error: AllocFailed<T>) -> Unread {
        Unread::Memory
    }
}

// What bytes do not give, seen from the left.
ghost use Rattle.std.specs.Prelude.{◌≡◌};
ghost use Rattle.chunk_io.specs.declared.miss.ReadError.TheVariants.{Memory};

use std::alloc::{AllocError, AllocFailed};

/// The first item, from the left, that the bytes do not give; the numbers are how many bytes are left there.
#[derive(Clone, Copy, Debug, PartialEq, Eq)]
pub enum Miss {
    Header(usize),
    Integral,
    Truncated,
    BadTag(usize),
    BadString(usize),
    BadCount(usize),
    TooDeep,
    Trailing(usize),
}

/// Why a part is not read.
#[derive(Debug, Drop)]
pub enum ReadError {
    Memory,
    Miss(Miss),
}

impl From<AllocError> for ReadError {
    ghost from_gives = { λ _ error. error ≡ Memory };

    fn from(_error: AllocError) -> ReadError {
        ReadError::Memory
    }
}

impl<T: Drop> From<AllocFailed<T>> for ReadError {
    ghost from_gives = { λ _ error. error ≡ Memory };

    fn from(_error: AllocFailed<T>) -> ReadError {
        ReadError::Memory
    }
}

// Why bytes are no chunk.

use std::alloc::AllocError;
use std::error::Error;
use std::fmt;

/// The first item, from the left, that the bytes do not give, with its offset, counted from 0.
#[derive(Clone, Copy, Debug, PartialEq, Eq, Drop)]
pub enum ChunkFault {
    /// A byte of the header is wrong.
    Header { at: usize },
    /// The header is right but for the flag that numbers are whole, which is 0.
    Integral,
    /// Bytes are wanted past the end; `at` is the input's length.
    Truncated { at: usize },
    /// A constant's tag is none of 0, 1, 3 and 4, or a boolean is not 0 or 1.
    BadTag { at: usize },
    /// A string's last byte is not 0, or a string that must be there has size 0.
    BadString { at: usize },
    /// An int is 2^31 or more.
    BadCount { at: usize },
    /// A function at nesting 201 begins.
    TooDeep,
    /// A byte follows the main function.
    Trailing { at: usize },
    OutOfMemory,
}

impl fmt::Display for ChunkFault {
    ghost use Rattle.std.specs.Prelude.{Some};
    ghost use Rattle.chunk_io.specs.Texts.{fault_text};

    ghost output = { λ fault. Some (fault_text fault) };

    fn fmt<W: fmt::Write>(&self, f: &mut fmt::Formatter<W>) -> fmt::Result {
        match *self {
            ChunkFault::Header { at } => write!(f, "Header at offset {at}"),
            ChunkFault::Integral => write!(f, "Integral"),
            ChunkFault::Truncated { at } => write!(f, "Truncated at offset {at}"),
            ChunkFault::BadTag { at } => write!(f, "BadTag at offset {at}"),
            ChunkFault::BadString { at } => write!(f, "BadString at offset {at}"),
            ChunkFault::BadCount { at } => write!(f, "BadCount at offset {at}"),
            ChunkFault::TooDeep => write!(f, "TooDeep"),
            ChunkFault::Trailing { at } => write!(f, "Trailing at offset {at}"),
            ChunkFault::OutOfMemory => write!(f, "out of memory"),
        }
    }
}

impl Error for ChunkFault {}

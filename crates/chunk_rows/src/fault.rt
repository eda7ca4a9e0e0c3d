// Why a row has no answer of its own.
use chunk_io::ChunkFault;
use proto::ConstantFault;
use std::alloc::AllocError;

/// The fault of a chunk or of a constant is the row's answer. Want of memory ends the program.
#[derive(Debug, Drop)]
pub enum RowFault {
    Chunk(ChunkFault),
    Constant(ConstantFault),
    OutOfMemory,
}

impl From<AllocError> for RowFault {
    fn from(_error: AllocError) -> Self {
        RowFault::OutOfMemory
    }
}

impl From<ChunkFault> for RowFault {
    fn from(fault: ChunkFault) -> Self {
        match fault {
            ChunkFault::OutOfMemory => RowFault::OutOfMemory,
            other => RowFault::Chunk(other),
        }
    }
}

impl From<ConstantFault> for RowFault {
    fn from(fault: ConstantFault) -> Self {
        match fault {
            ConstantFault::OutOfMemory => RowFault::OutOfMemory,
            ConstantFault::TooMany => RowFault::Constant(fault),
        }
    }
}

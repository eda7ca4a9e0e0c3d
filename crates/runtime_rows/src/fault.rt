// Why a row has no answers.
use lua_table::SetFault;
use std::alloc::AllocError;
use thiserror::Error;

/// A row that cannot be read has an answer that says so. Want of memory ends the program.
#[derive(Clone, Copy, Debug, PartialEq, Eq, Error, Drop)]
pub enum RowFault {
    #[error("bad row")]
    Unreadable,
    #[error("out of memory")]
    OutOfMemory,
}

impl From<AllocError> for RowFault {
    fn from(_error: AllocError) -> Self {
        RowFault::OutOfMemory
    }
}

impl From<SetFault> for RowFault {
    fn from(fault: SetFault) -> Self {
        match fault {
            SetFault::NilKey => RowFault::Unreadable,
            SetFault::OutOfMemory => RowFault::OutOfMemory,
        }
    }
}

// Why a table refuses.
ghost use Rattle.std.specs.Prelude.{◌≡◌};
ghost use Rattle.lua_table.specs.declared.fault.SetFault.TheVariants.{OutOfMemory};

use crate::rest::{Listed, Mapped};
use lua_model::Value;
use std::alloc::AllocFailed;
use thiserror::Error;

/// Why a key gets no value.
#[derive(Clone, Copy, Debug, PartialEq, Eq, Error, Drop)]
pub enum SetFault {
    #[error("table index is nil")]
    NilKey,
    #[error("out of memory")]
    OutOfMemory,
}

/// Why no pair comes after a key.
#[derive(Clone, Copy, Debug, PartialEq, Eq, Error, Drop)]
pub enum NextFault {
    /// The key has no place in the table.
    #[error("invalid key to 'next'")]
    UnknownKey,
}

impl From<AllocFailed<Value>> for SetFault {
    ghost from_gives = { λ _ fault. fault ≡ OutOfMemory };

    fn from(_error: AllocFailed<Value>) -> Self {
        SetFault::OutOfMemory
    }
}

impl From<AllocFailed<(Value, Value)>> for SetFault {
    ghost from_gives = { λ _ fault. fault ≡ OutOfMemory };

    fn from(_error: AllocFailed<(Value, Value)>) -> Self {
        SetFault::OutOfMemory
    }
}

impl From<AllocFailed<Listed>> for SetFault {
    ghost from_gives = { λ _ fault. fault ≡ OutOfMemory };

    fn from(_error: AllocFailed<Listed>) -> Self {
        SetFault::OutOfMemory
    }
}

impl From<AllocFailed<Mapped>> for SetFault {
    ghost from_gives = { λ _ fault. fault ≡ OutOfMemory };

    fn from(_error: AllocFailed<Mapped>) -> Self {
        SetFault::OutOfMemory
    }
}

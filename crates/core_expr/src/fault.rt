// Why a value cannot be made or written.

use crate::scope::Written;
use std::alloc::{AllocError, AllocFailed};

/// Why a value cannot be made or written.
#[derive(Clone, Copy, Debug, PartialEq, Eq)]
pub enum CoreFault {
    /// No source has it: it is deeper than any tree, or what it names is not there.
    NotScheme,
    OutOfMemory,
}

impl From<AllocError> for CoreFault {
    ghost use Rattle.std.specs.Prelude.{◌≡◌};
    ghost use Rattle.core_expr.specs.declared.fault.CoreFault.TheVariants.{OutOfMemory};

    ghost from_gives = { λ _ fault. fault ≡ OutOfMemory };

    fn from(_error: AllocError) -> Self {
        CoreFault::OutOfMemory
    }
}

impl From<AllocFailed<Written>> for CoreFault {
    ghost use Rattle.std.specs.Prelude.{◌≡◌};
    ghost use Rattle.core_expr.specs.declared.fault.CoreFault.TheVariants.{OutOfMemory};

    ghost from_gives = { λ _ fault. fault ≡ OutOfMemory };

    fn from(_error: AllocFailed<Written>) -> Self {
        CoreFault::OutOfMemory
    }
}

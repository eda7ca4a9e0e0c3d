// Why words are no step, where nothing more is to be told than a pc.
ghost use Rattle.std.specs.Prelude.{◌≡◌, ◌≤◌, ◌^◌, true, false, Ok, Err, IfOk, IfErr, OnOk};
ghost use Rattle.core_expr.specs.declared.fault.CoreFault.{CoreFault};
ghost use Rattle.recover_expr.specs.Entries.{IsLostOnlyWhere};
ghost use Rattle.recover_expr.specs.Faults.{IsFree, IsSameFault};
ghost use Rattle.recover_expr.specs.declared.lost.Lost.TheVariants.{OutOfMemory};

use crate::fault::{Fault, Reason};
use core_expr::CoreFault;
use std::alloc::{AllocError, AllocFailed};

/// Why words are no step, where nothing more is to be told than a pc.
#[derive(Clone, Copy)]
pub enum Lost {
    NotScheme { pc: u32 },
    OutOfMemory,
}

impl Lost {
    /// The fault that it is.
    pub fn fault(self) -> Fault
        ensures free { IsFree result }
        ensures same { IsSameFault self result }
    {
        match self {
            Lost::NotScheme { pc } => Fault::At {
                pc,
                reason: Reason::NotScheme,
            },
            Lost::OutOfMemory => Fault::OutOfMemory,
        }
    }
}

/// What was made or written of the words at a pc.
pub fn made_at<T>(pc: u32, made: Result<T, CoreFault>) -> Result<T, Lost>
    ensures ok { IfOk result (λ value. made ≡ Ok value) }
    ensures lost { IfErr result (IsLostOnlyWhere (made ≡ Err CoreFault.NotScheme)) }
{
    match made {
        Ok(value) => Ok(value),
        Err(CoreFault::NotScheme) => Err(Lost::NotScheme { pc }),
        Err(CoreFault::OutOfMemory) => Err(Lost::OutOfMemory),
    }
}

/// The words at a pc are those of a source only where this holds.
pub fn check(holds: bool, pc: u32) -> Result<(), Lost>
    ensures ok { OnOk result (holds ≡ true) }
    ensures lost { IfErr result (IsLostOnlyWhere (holds ≡ false)) }
{
    if holds {
        Ok(())
    } else {
        Err(Lost::NotScheme { pc })
    }
}

/// A number that a step holds.
pub fn number_at(pc: u32, number: usize) -> Result<u32, Lost>
    ensures ok { IfOk result (λ n. n ≡ number) }
    ensures lost { IfErr result (IsLostOnlyWhere (2 ^ 32 ≤ number)) }
{
    match u32::try_from(number) {
        Ok(number) => Ok(number),
        Err(_) => Err(Lost::NotScheme { pc }),
    }
}

impl From<AllocError> for Lost {
    ghost from_gives = { λ _ lost. lost ≡ OutOfMemory };

    fn from(_error: AllocError) -> Self {
        Lost::OutOfMemory
    }
}

impl<T: Drop> From<AllocFailed<T>> for Lost {
    ghost from_gives = { λ _ lost. lost ≡ OutOfMemory };

    fn from(_error: AllocFailed<T>) -> Self {
        Lost::OutOfMemory
    }
}

impl From<Lost> for Fault {
    ghost from_gives = { λ _ fault. IsFree fault };

    fn from(lost: Lost) -> Self {
        lost.fault()
    }
}

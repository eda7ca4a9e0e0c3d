// Why the words of a function are no source.

use core_expr::CoreFault;
use std::alloc::AllocError;

/// What is wrong with a word.
#[derive(Clone, Copy, Debug, PartialEq, Eq)]
pub enum Reason {
    /// The words are those of no source, or of one that is not found.
    NotScheme,
    /// A value of `and`, `or` or a comparison, outside a condition.
    ValueLogic,
    /// A listed local that no declaration has.
    Locals,
    /// A global or an upvalue whose name is no name.
    BadName,
}

/// Why the words of a function are no source, and the pc at which that shows.
#[derive(Clone, Copy, Debug, PartialEq, Eq)]
pub enum Fault {
    At { pc: u32, reason: Reason },
    OutOfMemory,
}

impl From<AllocError> for Fault {
    ghost use Rattle.std.specs.Prelude.{◌≡◌};
    ghost use Rattle.recover_expr.specs.declared.fault.Fault.TheVariants.{OutOfMemory};

    ghost from_gives = { λ _ fault. fault ≡ OutOfMemory };

    fn from(_error: AllocError) -> Self {
        Fault::OutOfMemory
    }
}

// Why no source of a chunk is recovered.

use proto::Path;
use recover_expr::Reason;
use std::alloc::AllocError;

/// Why no source of a chunk is recovered: the path of the function, and of a word its pc and what is wrong with it.
#[derive(Debug, Drop)]
pub enum Lost {
    /// The main function has no source name, or a function has not a line for each word or not a name for each upvalue; the first such.
    NoDebug { path: Path },
    At { path: Path, pc: u32, reason: Reason },
    OutOfMemory,
}

impl From<AllocError> for Lost {
    ghost use Rattle.std.specs.Prelude.{◌≡◌};
    ghost use Rattle.recover_flow.specs.declared.lost.Lost.TheVariants.{OutOfMemory};

    ghost from_gives = { λ _ lost. lost ≡ OutOfMemory };

    fn from(_error: AllocError) -> Self {
        Lost::OutOfMemory
    }
}

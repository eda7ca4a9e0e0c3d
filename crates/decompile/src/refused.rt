// Why a chunk is given no source.
ghost use Rattle.std.specs.Prelude.{◌≡◌};
ghost use Rattle.decompile.specs.Texts.{reason_name, refusal_text};

use chunk_difference::Difference;
use lua_num::ByteText;
use proto::Path;
use recover_expr::Reason;
use recover_flow::Lost;
use std::alloc::AllocError;
use std::error::Error;
use std::fmt;

/// Why a chunk is given no source.
#[derive(Debug, Drop)]
pub enum Refused {
    /// The main function has no source name, or a function has not a line for each word or not a name for each upvalue; the first such.
    NoDebug {
        path: Path,
    },
    /// The words of a function are no source, which shows at this pc.
    At {
        path: Path,
        pc: u32,
        reason: Reason,
    },
    /// The source that was found, and where its chunk differs first from the one handed in.
    Differs {
        text: ByteText,
        difference: Difference,
    },
    OutOfMemory,
}

impl fmt::Display for Refused {
    ghost use Rattle.std.specs.Prelude.{Some};

    ghost output = { λ refused. Some (refusal_text refused) };

    fn fmt<W: fmt::Write>(&self, f: &mut fmt::Formatter<W>) -> fmt::Result {
        match self {
            Refused::NoDebug { path } => write!(f, "NoDebug in function {path}"),
            Refused::At { path, pc, reason } => {
                let name = name_of(*reason);
                write!(f, "{name} in function {path} pc {pc}")
            }
            Refused::Differs { difference, .. } => {
                let path = &difference.path;
                write!(f, "Differs in function {path}")
            }
            Refused::OutOfMemory => write!(f, "out of memory"),
        }
    }
}

impl Error for Refused {}

fn name_of(reason: Reason) -> &'static str
    ensures { result.now ≡ reason_name reason }
{
    match reason {
        Reason::NotScheme => "NotScheme",
        Reason::ValueLogic => "ValueLogic",
        Reason::Locals => "Locals",
        Reason::BadName => "BadName",
    }
}

impl From<Lost> for Refused {
    ghost use Rattle.std.specs.Prelude.{◌≡◌};
    ghost use Rattle.decompile.specs.Refusals.{refused_by};

    ghost from_gives = { λ lost refused. refused ≡ refused_by lost };

    fn from(lost: Lost) -> Self {
        match lost {
            Lost::NoDebug { path } => Refused::NoDebug { path },
            Lost::At { path, pc, reason } => Refused::At { path, pc, reason },
            Lost::OutOfMemory => Refused::OutOfMemory,
        }
    }
}

impl From<AllocError> for Refused {
    ghost use Rattle.std.specs.Prelude.{◌≡◌};
    ghost use Rattle.decompile.specs.declared.refused.Refused.TheVariants.{OutOfMemory};

    ghost from_gives = { λ _ refused. refused ≡ OutOfMemory };

    fn from(_error: AllocError) -> Self {
        Refused::OutOfMemory
    }
}

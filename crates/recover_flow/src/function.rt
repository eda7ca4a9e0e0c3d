// A function, whose functions' bodies are given.
ghost use Rattle.std.specs.Prelude.{◌≡◌, IfErr, IfOk, Some, true};
ghost use Rattle.core_expr.specs.Values.{view_bodies, view_recovered};
ghost use Rattle.proto.specs.Chunk.{own};
ghost use Rattle.proto.specs.Short.{HasShortLists};
ghost use Rattle.proto.specs.View.{view_proto};
ghost use Rattle.recover_flow.specs.Held.{BodyFound, IsFewest};
ghost use Rattle.recover_flow.specs.Recovering.{IsFunctionFound, IsRefusedOnlyWhere};
ghost use Rattle.recover_flow.specs.Searching.{Answers, BodyAnswer, IsReady, steps_of, store_of, whole_body};
ghost use Rattle.recover_flow.specs.Stops.{StopsBy};

use crate::building::Builder;
use crate::parts::{Parts, Unbuilt};
use crate::plan::Found;
use crate::search::Search;
use core_expr::{Bodies, Recovered};
use lua_tree::Body;
use proto::Proto;
use recover_expr::{Fault, Reading, Reason, read_steps};
use std::alloc::{AllocError, Global};

/// How deep a tree may be.
pub const LIMIT: u32 = 200;

/// Why a function is not recovered: of a word its pc and what is wrong with it.
#[derive(Clone, Copy, Debug, PartialEq, Eq)]
pub enum Stop {
    At { pc: u32, reason: Reason },
    OutOfMemory,
}

impl From<AllocError> for Stop {
    ghost use Rattle.std.specs.Prelude.{◌≡◌};
    ghost use Rattle.recover_flow.specs.declared.function.Stop.TheVariants.{OutOfMemory};

    ghost from_gives = { λ _ stop. stop ≡ OutOfMemory };

    fn from(_error: AllocError) -> Self {
        Stop::OutOfMemory
    }
}

impl From<Unbuilt> for Stop {
    ghost use Rattle.recover_flow.specs.Stops.{TellsUnbuilt};

    ghost from_gives = { λ unbuilt stop. TellsUnbuilt unbuilt stop };

    fn from(error: Unbuilt) -> Self {
        match error {
            Unbuilt::Gone => Stop::At {
                pc: 0,
                reason: Reason::NotScheme,
            },
            Unbuilt::OutOfMemory => Stop::OutOfMemory,
        }
    }
}

impl From<Fault> for Stop {
    ghost use Rattle.recover_flow.specs.Stops.{TellsFault};

    ghost from_gives = { λ fault stop. TellsFault fault stop };

    fn from(error: Fault) -> Self {
        match error {
            Fault::At { pc, reason } => Stop::At { pc, reason },
            Fault::OutOfMemory => Stop::OutOfMemory,
        }
    }
}

/// The source of a function, and how many levels its statements need: the fewest, where it is to be short.
pub fn recover_function(
    alloc: Global,
    proto: &Proto,
    bodies: Bodies,
    short: bool,
) -> Result<Recovered, Stop>
    requires lists { HasShortLists (own (view_proto proto.now)) }
    ensures found { IfOk result (λ found. IsFunctionFound (view_proto proto.now) (view_bodies bodies) short (view_recovered found)) }
    ensures refused { IfErr result (IsRefusedOnlyWhere (view_proto proto.now) (view_bodies bodies) short) }
    ensures stopped { IfErr result (StopsBy (own (view_proto proto.now))) }
{
    let Reading {
        params,
        steps,
        parts,
    } = read_steps(alloc, proto, bodies, short)?;
    let mut search = Search::new(alloc, &steps)?;
    let Some(found) = search.whole(LIMIT)? else {
        return Err(Stop::At {
            pc: search.furthest_pc(),
            reason: Reason::NotScheme,
        });
    };
    let found = fitting(&mut search, found, short)?;
    let mut builder = Builder::new(alloc, &search.memory, Parts::new(parts));
    let block = builder.block(found.number, LIMIT)?;
    Ok(Recovered {
        body: Body {
            params,
            vararg: proto.vararg != 0,
            block,
            first_line: 1,
            last_line: 1,
        },
        levels: found.levels,
    })
}

// A body that was found, or one of the fewest levels where it is to be short.
fn fitting(search: &mut Search, found: Found, short: bool) -> Result<Found, AllocError>
    requires ready { IsReady search.old }
    requires found { BodyFound (steps_of search.old) (store_of search.old) (whole_body (steps_of search.old)) found }
    ensures answers { IfOk result (λ best. Answers search.old search.new (BodyAnswer (whole_body (steps_of search.old)) found.levels (Some best))) }
    ensures fewest { IfOk result (λ best. short ≡ true → IsFewest (steps_of search.old) (whole_body (steps_of search.old)) best.levels) }
{
    if !short {
        return Ok(found);
    }
    let best = least(search, found)?;
    Ok(best)
}

// The body of the fewest levels, where this one is found.
fn least(search: &mut Search, found: Found) -> Result<Found, AllocError>
    requires ready { IsReady search.old }
    requires found { BodyFound (steps_of search.old) (store_of search.old) (whole_body (steps_of search.old)) found }
    ensures answers { IfOk result (λ best. Answers search.old search.new (BodyAnswer (whole_body (steps_of search.old)) found.levels (Some best))) }
    ensures fewest { IfOk result (λ best. IsFewest (steps_of search.old) (whole_body (steps_of search.old)) best.levels) }
{
    let mut best = found;
    let mut low = 0;
    let mut high = found.levels;
    while high.saturating_sub(low) > 1 {
        let middle = low + (high - low) / 2;
        match search.whole(middle)? {
            Some(found) => {
                best = found;
                high = middle.min(found.levels);
            }
            None => low = middle,
        }
    }
    Ok(best)
}

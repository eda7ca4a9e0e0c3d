// Running a chunk.
ghost use Rattle.std.specs.Prelude.{◌≡◌, ◌≤◌};
ghost use Rattle.suite_io.specs.Taken.{Rises};
ghost use Rattle.proto.specs.View.{view_proto};
ghost use Rattle.rules.specs.Sound.{Sound};
ghost use Rattle.host.specs.Views.{set_told};
ghost use Rattle.machine.specs.At.{Runs, surroundings};

use crate::machine::{Machine, StepEnd, go_on, step_on};
use hash_seed::Seed;
use host::HostSet;
use lua_num::ByteText;
use std::alloc::Global;
use suite_io::Sink;
use verifier::Verified;

/// How a run ended.
#[derive(Debug, Drop)]
pub enum RunEnd {
    Done,
    /// The run failed with this text.
    Failed(ByteText),
    /// The run is going after its steps.
    Unfinished,
    OutFault,
    /// Also where a host found no memory.
    OutOfMemory,
}

/// Runs a chunk with these hosts for at most this many steps. That the chunk is sound is a clause of `Verified::proto`.
pub fn run<S: Sink>(
    alloc: Global,
    chunk: &Verified,
    steps: u64,
    out: &mut S,
    hosts: &mut HostSet,
    seed: Seed,
) -> RunEnd
    requires sound { Sound (view_proto chunk.now) }
    ensures { Runs (view_proto chunk.now) steps (surroundings (set_told heard hosts.old) (S.taken out.old) (S.faults out.old)) (surroundings (set_told heard hosts.new) (S.taken out.new) (S.faults out.new)) result }
{
    // Called for its clause that the chunk is sound.
    let _ = chunk.proto();
    let Ok(mut machine) = Machine::new(alloc, chunk, hosts, seed) else {
        return RunEnd::OutOfMemory;
    };
    let mut left = steps;
    while left > 0 {
        let Ok(done) = go_on(alloc, &mut machine, chunk, left) else {
            return RunEnd::OutOfMemory;
        };
        left -= done;
        if left == 0 {
            return RunEnd::Unfinished;
        }
        match step_on(alloc, &mut machine, chunk, out, hosts) {
            StepEnd::Going => left -= 1,
            StepEnd::Done => return RunEnd::Done,
            StepEnd::Failed(text) => return RunEnd::Failed(text),
            StepEnd::OutFault => return RunEnd::OutFault,
            StepEnd::OutOfMemory => return RunEnd::OutOfMemory,
        }
    }
    RunEnd::Unfinished
}

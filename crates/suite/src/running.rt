// Running a file.
ghost use Rattle.std.specs.Prelude.{ℕ, List, Option};
ghost use Rattle.std.specs.String.{string_bytes};
ghost use Rattle.lua_num.specs.Bytes.{Text};
ghost use Rattle.proto.specs.View.{view_proto};
ghost use Rattle.suite_io.specs.declared.calls.FileCall.{FileCall};
ghost use Rattle.suite_io.specs.Contents.{Contents};
ghost use Rattle.host.specs.Views.{set_told};
ghost use Rattle.suite.specs.Words.{run_file};
ghost use Rattle.suite.specs.Seen.{outside};
ghost use Rattle.suite.specs.Worlds.{world};
ghost use Rattle.suite.specs.Jobs.{HasChunk};
ghost use Rattle.suite.specs.Work.{Does};

use crate::chunk::{chunk_of, verified};
use crate::outcome::Outcome;
use hash_seed::Seed;
use host::HostSet;
use machine::{RunEnd, run};
use std::alloc::Global;
use suite_io::{Sink, Word};
use verifier::Verified;

/// Verifies the chunk of a file, the one that its bytes spell or that of the source, and runs it with these hosts for at most this many steps.
pub fn run_bytes<O: Sink>(
    alloc: Global,
    bytes: &[u8],
    file: &Word,
    steps: u64,
    out: &mut O,
    hosts: &mut HostSet,
    seed: Seed,
) -> Outcome
    ensures { (contents : Option Contents) (calls : List FileCall) → Does (run_file (string_bytes file.now) steps) bytes.now (world (set_told heard hosts.old) (set_told heard hosts.new)) result (outside contents calls (O.taken out.old) (O.faults out.old)) (outside contents calls (O.taken out.new) (O.faults out.new)) }
{
    // Laws: the chunk of a source is sound, so that it is never rejected.
    front::compiled_is_sound();
    rules::never_both();
    let proto = match chunk_of(alloc, bytes, file) {
        Ok(proto) => proto,
        Err(outcome) => return outcome,
    };
    match verified(alloc, proto) {
        Ok(chunk) => run_chunk(alloc, &chunk, steps, out, hosts, seed),
        Err(outcome) => outcome,
    }
}

fn run_chunk<O: Sink>(
    alloc: Global,
    chunk: &Verified,
    steps: u64,
    out: &mut O,
    hosts: &mut HostSet,
    seed: Seed,
) -> Outcome
    ensures { (file : Text) (bytes : List ℕ) → HasChunk file bytes (view_proto chunk.now) → (contents : Option Contents) (calls : List FileCall) → Does (run_file file steps) bytes (world (set_told heard hosts.old) (set_told heard hosts.new)) result (outside contents calls (O.taken out.old) (O.faults out.old)) (outside contents calls (O.taken out.new) (O.faults out.new)) }
{
    // Called for its clause that the chunk is sound.
    let _ = chunk.proto();
    match run(alloc, chunk, steps, out, hosts, seed) {
        RunEnd::Done => Outcome::Done,
        RunEnd::Failed(why) => Outcome::ScriptFailed(why),
        RunEnd::Unfinished => Outcome::Unfinished(steps),
        RunEnd::OutFault => Outcome::WriteFault,
        RunEnd::OutOfMemory => Outcome::OutOfMemory,
    }
}

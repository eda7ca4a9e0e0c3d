// Trying the suite on a made source.
ghost use Rattle.std.specs.Prelude.{◌≡◌, ℕ, List, Option, IfOk, codes};
ghost use Rattle.std.specs.String.{string_bytes};
ghost use Rattle.proto.specs.Short.{IsShort};
ghost use Rattle.proto.specs.View.{view_proto};
ghost use Rattle.suite_io.specs.declared.calls.FileCall.{FileCall};
ghost use Rattle.suite_io.specs.Contents.{Contents};
ghost use Rattle.host.specs.Views.{set_told};
ghost use Rattle.suite.specs.Words.{make_source, made_name as the_made_name};
ghost use Rattle.suite.specs.Seen.{outside};
ghost use Rattle.suite.specs.Worlds.{world};
ghost use Rattle.suite.specs.Jobs.{HasChunk};
ghost use Rattle.suite.specs.Trying.{IsTried};
ghost use Rattle.suite.specs.Work.{Does};

use crate::chunk::{chunk_of, verified};
use crate::outcome::Outcome;
use crate::words::{DEFAULT_STEPS, MADE_NAME};
use decompile::{Refused, decompile};
use hash_seed::Seed;
use host::HostSet;
use machine::{RunEnd, run};
use made_source::account;
use proto::Proto;
use std::alloc::{AllocError, Global};
use suite_io::{Sink, SinkFault, Word, put_all};
use verifier::Verified;

/// Compiles the bytes of a made source, verifies the chunk, runs it with these hosts, finds a source of it again, and puts an account behind the run's output.
pub fn try_source<O: Sink>(
    alloc: Global,
    bytes: &[u8],
    out: &mut O,
    hosts: &mut HostSet,
    seed: Seed,
) -> Outcome
    ensures { (count : ℕ) (contents : Option Contents) (calls : List FileCall) → Does (make_source count) bytes.now (world (set_told heard hosts.old) (set_told heard hosts.new)) result (outside contents calls (O.taken out.old) (O.faults out.old)) (outside contents calls (O.taken out.new) (O.faults out.new)) }
{
    // Laws: the chunk of a source is sound, so that it is never rejected.
    front::compiled_is_sound();
    rules::never_both();
    let Ok(name) = made_name(alloc) else {
        return Outcome::OutOfMemory;
    };
    let proto = match chunk_of(alloc, bytes, &name) {
        Ok(proto) => proto,
        Err(outcome) => return outcome,
    };
    match verified(alloc, proto) {
        Ok(chunk) => run_and_tell(alloc, bytes, &chunk, out, hosts, seed),
        Err(outcome) => outcome,
    }
}

// The name of a made source.
fn made_name(alloc: Global) -> Result<Word, AllocError>
    ensures { IfOk result (λ name. string_bytes name ≡ the_made_name) }
{
    MADE_NAME.to_string(alloc)
}

// Runs the chunk of a made source, and tells of it where the run ended.
fn run_and_tell<O: Sink>(
    alloc: Global,
    bytes: &[u8],
    chunk: &Verified,
    out: &mut O,
    hosts: &mut HostSet,
    seed: Seed,
) -> Outcome
    requires short { IsShort (view_proto chunk.now) }
    ensures { HasChunk the_made_name bytes.now (view_proto chunk.now) → (count : ℕ) (contents : Option Contents) (calls : List FileCall) → Does (make_source count) bytes.now (world (set_told heard hosts.old) (set_told heard hosts.new)) result (outside contents calls (O.taken out.old) (O.faults out.old)) (outside contents calls (O.taken out.new) (O.faults out.new)) }
{
    let proto = chunk.proto();
    match run(alloc, chunk, DEFAULT_STEPS, out, hosts, seed) {
        RunEnd::Done => tell(alloc, bytes, proto, out),
        RunEnd::Failed(why) => Outcome::ScriptFailed(why),
        RunEnd::Unfinished => Outcome::Unfinished(DEFAULT_STEPS),
        RunEnd::OutFault => Outcome::WriteFault,
        RunEnd::OutOfMemory => Outcome::OutOfMemory,
    }
}

// Finds a source of the chunk, and puts the account.
fn tell<O: Sink>(alloc: Global, bytes: &[u8], proto: &Proto, out: &mut O) -> Outcome
    requires short { IsShort (view_proto proto.now) }
    ensures { IsTried bytes.now (view_proto proto.now) result (O.taken out.old) (O.taken out.new) (O.faults out.old) (O.faults out.new) }
{
    match decompile(alloc, proto) {
        Ok(_) => {}
        Err(Refused::OutOfMemory) => return Outcome::OutOfMemory,
        Err(refused) => return Outcome::NotDecompiled(refused),
    }
    let Ok(text) = account(alloc, bytes, proto) else {
        return Outcome::OutOfMemory;
    };
    match put_all(out, text.bytes()) {
        Ok(()) => Outcome::Done,
        Err(SinkFault::Failed) => Outcome::WriteFault,
        Err(SinkFault::OutOfMemory) => Outcome::OutOfMemory,
    }
}

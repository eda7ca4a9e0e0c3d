// A machine and its steps.
ghost use Rattle.std.specs.Prelude.{◌≡◌, ◌<◌, ◌≤◌, ◌+◌, ℕ, List, [], Ok, IfOk, OnOk, OnErr, IsErrOf};
ghost use Rattle.std.specs.List.{concat};
ghost use Rattle.suite_io.specs.Taken.{Takes, Rises};
ghost use Rattle.suite_io.specs.Parts.{TakesPart};
ghost use Rattle.proto.specs.View.{view_proto};
ghost use Rattle.lua_model.specs.Store.{Event, Host};
ghost use Rattle.host.specs.Hosts.{HostSetState};
ghost use Rattle.host.specs.Views.{set_told};
ghost use Rattle.machine.specs.At.{IsAt, Stepped, surroundings};
ghost use Rattle.machine.specs.Closing.{SteppedClosing};
ghost use Rattle.machine.specs.Memory.{IsBeforeSuch};
ghost use Rattle.machine.specs.Outside.{hosts_of};
ghost use Rattle.machine.specs.Ready.{IsOtherNext};

use crate::beginning::{first_heap, first_running};
use crate::function::Function;
use crate::load::load;
use crate::row::do_row;
use crate::running::Running;
use crate::settling::Settled;
use crate::stepping::turn;
use hash_seed::Seed;
use host::HostSet;
use lua_num::ByteText;
use std::alloc::{AllocError, Global};
use suite_io::{Sink, SinkFault, put_all};
use verifier::Verified;

/// How a step ended. After another end than `Going` the machine is only dropped.
#[derive(Debug, Drop)]
pub enum StepEnd {
    Going,
    Done,
    /// The run failed with this text.
    Failed(ByteText),
    OutFault,
    /// Also where a host found no memory.
    OutOfMemory,
}

/// A machine that runs a chunk.
#[derive(Drop)]
pub struct Machine {
    running: Running,
    functions: Vec<Function>,
}

impl Machine {
    /// The machine of a chunk at the beginning of its run. Text constants are interned. In time linear in the chunk. The seed says how
    /// the heap hashes, and nothing else.
    pub fn new(
        alloc: Global,
        chunk: &Verified,
        hosts: &HostSet,
        seed: Seed,
    ) -> Result<Self, AllocError>
        ensures { IfOk result (λ machine. IsAt (view_proto chunk.now) (hosts_of (set_told heard hosts.now)) [] 0 (set_told heard hosts.now) machine) }
    {
        let mut heap = first_heap(alloc, hosts, seed)?;
        let functions = load(alloc, &mut heap, chunk.proto())?;
        let running = first_running(alloc, heap, functions.as_slice())?;
        Ok(Self { running, functions })
    }

    /// Does one step of the rules, and puts what it printed. The chunk is the one that the machine was made for, and the hosts are as
    /// they were after `new` or after the last step, which did not end the run.
    pub fn step<S: Sink>(
        &mut self,
        alloc: Global,
        chunk: &Verified,
        out: &mut S,
        hosts: &mut HostSet,
    ) -> StepEnd
        requires { (hosts_then : List Host) × (events : List Event) × (n : ℕ) × IsAt (view_proto chunk.now) hosts_then events n (set_told heard hosts.old) self.old }
        ensures steps { (hosts_then : List Host) (events : List Event) (n : ℕ) → IsAt (view_proto chunk.now) hosts_then events n (set_told heard hosts.old) self.old
            → Stepped (view_proto chunk.now) hosts_then events n (surroundings (set_told heard hosts.old) (S.taken out.old) (S.faults out.old)) (surroundings (set_told heard hosts.new) (S.taken out.new) (S.faults out.new)) self.new result }
        ensures memory { (hosts_then : List Host) (events : List Event) (n : ℕ) → IsAt (view_proto chunk.now) hosts_then events n (set_told heard hosts.old) self.old → IsBeforeSuch (view_proto chunk.now) hosts_then events n → result ≡ StepEnd.OutOfMemory → ⊥ }
    {
        // Called for its clause that the chunk is sound.
        let _ = chunk.proto();
        match go_on(alloc, self, chunk, 1) {
            Ok(0) => step_on(alloc, self, chunk, out, hosts),
            Ok(_) => StepEnd::Going,
            Err(_) => StepEnd::OutOfMemory,
        }
    }
}

/// Does one step, of a word that is not done in place, and puts what it printed.
pub fn step_on<S: Sink>(
    alloc: Global,
    machine: &mut Machine,
    chunk: &Verified,
    out: &mut S,
    hosts: &mut HostSet,
) -> StepEnd
    requires at { (hosts_then : List Host) × (events : List Event) × (n : ℕ) × IsAt (view_proto chunk.now) hosts_then events n (set_told heard hosts.old) machine.old }
    requires other { IsOtherNext machine.old.functions.items machine.old.running }
    ensures steps { (hosts_then : List Host) (events : List Event) (n : ℕ) → IsAt (view_proto chunk.now) hosts_then events n (set_told heard hosts.old) machine.old
        → Stepped (view_proto chunk.now) hosts_then events n (surroundings (set_told heard hosts.old) (S.taken out.old) (S.faults out.old)) (surroundings (set_told heard hosts.new) (S.taken out.new) (S.faults out.new)) machine.new result }
    ensures closes { (hosts_then : List Host) (events : List Event) (n : ℕ) → IsAt (view_proto chunk.now) hosts_then events n (set_told heard hosts.old) machine.old → result ≡ StepEnd.Going
        → SteppedClosing (view_proto chunk.now) hosts_then events n (surroundings (set_told heard hosts.old) (S.taken out.old) (S.faults out.old)) (surroundings (set_told heard hosts.new) (S.taken out.new) (S.faults out.new)) machine.new }
{
    // Called for its clause that the chunk is sound.
    let _ = chunk.proto();
    let running = &mut machine.running;
    let Ok(settled) = turn(alloc, running, machine.functions.as_slice(), hosts) else {
        return StepEnd::OutOfMemory;
    };
    match put_pieces(&mut running.pieces, out) {
        Ok(()) => {}
        Err(SinkFault::Failed) => return StepEnd::OutFault,
        Err(SinkFault::OutOfMemory) => return StepEnd::OutOfMemory,
    }
    match settled {
        Settled::Going => StepEnd::Going,
        Settled::Done => StepEnd::Done,
        Settled::Failed(text) => StepEnd::Failed(text),
    }
}

/// Does steps in place, as far as no word asks for more, at most so many; answers how many it did. Where memory runs out the machine is only dropped.
pub fn go_on(
    alloc: Global,
    machine: &mut Machine,
    chunk: &Verified,
    steps: u64,
) -> Result<u64, AllocError>
    requires { (hosts : List Host) × (events : List Event) × (n : ℕ) × (now : HostSetState) × IsAt (view_proto chunk.now) hosts events n now machine.old }
    ensures went { IfOk result (λ done. (hosts : List Host) (events : List Event) (n : ℕ) (now : HostSetState) → IsAt (view_proto chunk.now) hosts events n now machine.old → IsAt (view_proto chunk.now) hosts events (n + done) now machine.new) }
    ensures no_more { IfOk result (λ done. done ≤ steps) }
    ensures other { IfOk result (λ done. done < steps → IsOtherNext machine.new.functions.items machine.new.running) }
    ensures in_place { steps ≡ 1 → (hosts : List Host) (events : List Event) (n : ℕ) (now : HostSetState) → IsAt (view_proto chunk.now) hosts events n now machine.old → IsBeforeSuch (view_proto chunk.now) hosts events n → result ≡ Ok 1 }
{
    // Called for its clause that the chunk is sound.
    let _ = chunk.proto();
    do_row(
        alloc,
        &mut machine.running,
        machine.functions.as_slice(),
        steps,
    )
}

/// Puts the pieces, in order; there are none behind it. At an error a first part of them was put.
fn put_pieces<S: Sink>(pieces: &mut Vec<ByteText>, out: &mut S) -> Result<(), SinkFault>
    ensures whole { OnOk result (Takes (S.taken out.old) (S.taken out.new) (concat pieces.old.items)) }
    ensures part { OnErr result (TakesPart (S.taken out.old) (S.taken out.new) (concat pieces.old.items)) }
    ensures none { OnOk result (pieces.new.items ≡ []) }
    ensures never_falls { S.faults out.old ≤ S.faults out.new }
    ensures risen { IsErrOf result SinkFault.Failed → Rises (S.faults out.old) (S.faults out.new) }
{
    for piece in pieces.as_slice() {
        put_all(out, piece.bytes())?;
    }
    pieces.clear();
    Ok(())
}

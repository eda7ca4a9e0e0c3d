// What is left of a step when its word was done: calls, landings and failures.
ghost use Rattle.std.specs.Prelude.{◌≡◌, ◌*◌, ◌<◌, slice_get, length, Some, IfOk, OnErr};
ghost use Rattle.opcode.specs.declared.op.Op.TheVariants as op;
ghost use Rattle.lua_heap.specs.State.{datum, IsOf, AreOf};
ghost use Rattle.lua_model.specs.Builtins.{failure_text as failure_text_of};
ghost use Rattle.host.specs.Views.{set_told};
ghost use Rattle.rules.specs.Calls.{call as call_of};
ghost use Rattle.rules.specs.Step.{effect};
ghost use Rattle.upvalue.specs.State.{top};
ghost use Rattle.machine.specs.declared.did.Did.{Did as TheDid};
ghost use Rattle.machine.specs.declared.did.Did.TheVariants as done;
ghost use Rattle.machine.specs.declared.function.Function.{Function as TheFunction};
ghost use Rattle.machine.specs.Begun.{BeginsSeen, BeginsSettling, BrokeOff};
ghost use Rattle.machine.specs.Fits.{FitsFrame};
ghost use Rattle.machine.specs.Frames.{data_of, landing_of};
ghost use Rattle.machine.specs.Outside.{AreNamed};
ghost use Rattle.machine.specs.Seen.{cells_in};
ghost use Rattle.machine.specs.Settled.{IsAwaitedIn, DoesOutside, Descends, Settles, to_do};
ghost use Rattle.machine.specs.Whole.{IsWaiting, IsSafe};
ghost use Rattle.machine.specs.Words.{IsDidOf};

use crate::calling::{Called, broke, invoke};
use crate::did::{Did, Landing, OpenResults};
use crate::entering::{push, replace};
use crate::function::Function;
use crate::leaving::{give, leave};
use crate::running::Running;
use crate::topmost::land_top;
use crate::words::{count_of, listed};
use host::HostSet;
use lua_heap::{Heap, ValueList, text_of};
use lua_model::Value;
use lua_num::ByteText;
use opcode::Instr;
use std::alloc::{AllocError, Global};

/// What a step comes to.
#[derive(Debug, Drop)]
pub enum Settled {
    Going,
    Done,
    /// The run failed with this text.
    Failed(ByteText),
}

/// Calls a value from the topmost frame, where its results land.
pub fn call(
    alloc: Global,
    running: &mut Running,
    functions: &[Function],
    hosts: &mut HostSet,
    landing: Landing,
    callee: Value,
    args: ValueList,
) -> Result<Did, AllocError>
    requires safe { IsSafe functions.now running.old }
    requires callee { IsOf running.old.heap callee }
    requires args { AreOf running.old.heap args }
    requires waiting { IsWaiting functions.now landing running.old.top (top running.old.stack.frames) }
    requires named { AreNamed running.old.heap (set_told heard hosts.old) }
    ensures does { IfOk result (DoesOutside functions.now (λ m. call_of (landing_of landing) m (datum running.old.heap callee) (data_of running.old.heap args)) running.old running.new (set_told heard hosts.old) (set_told heard hosts.new)) }
    ensures falls { IfOk result (λ did. to_do (length running.new.below.items) did < to_do (length running.old.below.items) (done.Calls landing callee args)) }
    ensures broke_off { OnErr result (BrokeOff (BeginsSeen functions.now (λ m. call_of (landing_of landing) m (datum running.old.heap callee) (data_of running.old.heap args)) running.old (set_told heard hosts.old)) (set_told heard hosts.old) (set_told heard hosts.new)) }
{
    let heap = &mut running.heap;
    match invoke(alloc, heap, &mut running.pieces, hosts, callee, args)? {
        Called::Results(values) => land_top(alloc, running, functions, landing, values),
        Called::Fails(value) => Ok(Did::Fails(value)),
        Called::Enters {
            closure,
            args,
            protections,
        } => push(
            alloc,
            running,
            functions,
            landing,
            closure,
            args.items(),
            protections,
        ),
    }
}

/// TAILCALL.
pub fn tail_call(
    alloc: Global,
    running: &mut Running,
    functions: &[Function],
    hosts: &mut HostSet,
    i: Instr,
) -> Result<Did, AllocError>
    requires safe { IsSafe functions.now running.old }
    requires fits { (f : TheFunction) → slice_get functions.now running.old.top.function ≡ Some f → FitsFrame op.TailCall f (top running.old.stack.frames) running.old.top.results (length (cells_in running.old.heap running.old.top.closure)) running.old.top.pc i }
    requires named { AreNamed running.old.heap (set_told heard hosts.old) }
    ensures does { IfOk result (DoesOutside functions.now (λ m. effect op.TailCall m i) running.old running.new (set_told heard hosts.old) (set_told heard hosts.new)) }
    ensures broke_off { OnErr result (BrokeOff (BeginsSeen functions.now (λ m. effect op.TailCall m i) running.old (set_told heard hosts.old)) (set_told heard hosts.old) (set_told heard hosts.new)) }
{
    let callee = running.stack.read(i.a as usize);
    let registers = running.stack.registers();
    let args = listed(
        alloc,
        registers,
        &mut running.top.results,
        i.a + 1,
        count_of(i.b),
    )?;
    let heap = &mut running.heap;
    match invoke(alloc, heap, &mut running.pieces, hosts, callee, args)? {
        Called::Results(values) => Ok(Did::Opens(OpenResults { first: i.a, values })),
        Called::Fails(value) => Ok(Did::Fails(value)),
        Called::Enters {
            closure,
            args,
            protections: 0,
        } => {
            replace(alloc, running, functions, closure, args.items())?;
            Ok(Did::Next)
        }
        Called::Enters {
            closure,
            args,
            protections,
        } => {
            let landing = Landing::Open { a: i.a };
            push(
                alloc,
                running,
                functions,
                landing,
                closure,
                args.items(),
                protections,
            )
        }
    }
}

/// A failure goes down one frame: the topmost frame is left, and where protected calls stand around its call the failure lands, as false and
/// the value, in the frame below. `None` where no frame is left that could take it.
pub fn fail(
    alloc: Global,
    running: &mut Running,
    functions: &[Function],
    value: Value,
) -> Result<Option<Did>, AllocError>
    requires safe { IsSafe functions.now running.old }
    requires value { IsOf running.old.heap value }
    ensures does { IfOk result (Descends functions.now value running.old running.new) }
    ensures falls { IfOk result (λ outcome. (did : TheDid) → outcome ≡ Some did → to_do (length running.new.below.items) did < to_do (length running.old.below.items) (done.Fails value)) }
{
    if running.top.protections > 0 {
        let values = broke(alloc, running.top.protections - 1, value)?;
        return Ok(Some(give(alloc, running, functions, values)?));
    }
    if running.below.is_empty() {
        return Ok(None);
    }
    leave(running);
    Ok(Some(Did::Fails(value)))
}

/// Does what a word, or a landing, left to be done: calls whose results land at once, and failures that go down the frames.
pub fn settle(
    alloc: Global,
    running: &mut Running,
    functions: &[Function],
    hosts: &mut HostSet,
    did: Did,
) -> Result<Settled, AllocError>
    requires safe { IsSafe functions.now running.old }
    requires known { IsDidOf running.old.heap did }
    requires awaited { IsAwaitedIn functions.now running.old did }
    requires named { AreNamed running.old.heap (set_told heard hosts.old) }
    ensures settles { IfOk result (Settles functions.now did running.old running.new (set_told heard hosts.old) (set_told heard hosts.new)) }
    ensures broke_off { OnErr result (BrokeOff (BeginsSettling functions.now did running.old (set_told heard hosts.old)) (set_told heard hosts.old) (set_told heard hosts.new)) }
{
    let mut did = did;
    loop {
        did = match did {
            Did::Next => return Ok(Settled::Going),
            Did::Jumps(pc) => {
                running.top.pc = pc;
                return Ok(Settled::Going);
            }
            Did::Opens(results) => {
                running.top.results = Some(results);
                return Ok(Settled::Going);
            }
            Did::Ends => return Ok(Settled::Done),
            Did::Calls {
                landing,
                callee,
                args,
            } => call(alloc, running, functions, hosts, landing, callee, args)?,
            Did::Fails(value) => match fail(alloc, running, functions, value)? {
                Some(next) => next,
                None => return Ok(Settled::Failed(failure_text(alloc, &running.heap, value)?)),
            },
        }
    }
}

/// The text of a failure: that of a string or a number, else one that says that the value is neither.
fn failure_text(alloc: Global, heap: &Heap, value: Value) -> Result<ByteText, AllocError>
    requires { IsOf heap.now value }
    ensures { IfOk result (λ text. text ≡ failure_text_of (datum heap.now value)) }
{
    match text_of(alloc, heap, value)? {
        Some(text) => Ok(text),
        None => ByteText::from_slice(alloc, b"(error object is not a string)"),
    }
}

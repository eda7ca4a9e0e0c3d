// Calls with the handlers of called tables, and protected calls (manual 2.8 and 5.1).
ghost use Rattle.std.specs.Prelude.{◌≡◌, ◌≤◌, true, false, [], ◌∷◌, IfOk, OnErr};
ghost use Rattle.lua_model.specs.declared.Value.TheVariants.{Bool as Boolean};
ghost use Rattle.lua_heap.specs.State.{IsOf, AreOf};
ghost use Rattle.host.specs.Views.{set_told};
ghost use Rattle.machine.specs.Outside.{AreNamed};
ghost use Rattle.machine.specs.Called.{Invokes, worked_values, failed_with, GoesTo, turn_of, Turns};
ghost use Rattle.machine.specs.Begun.{BeginsTurn, BeginsCall, BrokeOff};

use crate::calling::{Applied, Called, apply};
use crate::words::joined;
use host::HostSet;
use lua_heap::{Heap, ValueList, text_value};
use lua_model::Value;
use lua_num::ByteText;
use meta_ops::{Callee, callee};
use std::alloc::{AllocError, Global};

/// How many protected calls may stand directly around a call.
const PROTECTION_LIMIT: u32 = 200;

/// What a call goes to: a function with its arguments, or a failure with a value.
#[derive(Drop)]
enum Target {
    Calls { f: Value, args: ValueList },
    Fails(Value),
}

/// What one turn of a call comes to: it is done, or goes on as a protected call of a value.
#[derive(Drop)]
enum Turn {
    Done(Called),
    Again { f: Value, args: ValueList },
}

/// Calls a value with arguments, through its handler where it is no function, and through protected calls, of which at most 200 stand
/// directly around one. Where memory runs out, or a host finds none, all is only dropped.
pub fn invoke(
    alloc: Global,
    heap: &mut Heap,
    pieces: &mut Vec<ByteText>,
    hosts: &mut HostSet,
    f: Value,
    args: ValueList,
) -> Result<Called, AllocError>
    requires f { IsOf heap.old f }
    requires args { AreOf heap.old args }
    requires named { AreNamed heap.old (set_told heard hosts.old) }
    ensures invokes { IfOk result (Invokes f args heap.old heap.new pieces.old.items pieces.new.items (set_told heard hosts.old) (set_told heard hosts.new)) }
    ensures broke_off { OnErr result (BrokeOff (BeginsCall f args heap.old (set_told heard hosts.old)) (set_told heard hosts.old) (set_told heard hosts.new)) }
{
    let mut f = f;
    let mut args = args;
    for protections in 0..=PROTECTION_LIMIT {
        match call_once(alloc, heap, pieces, hosts, f, args, protections)? {
            Turn::Done(called) => return Ok(called),
            Turn::Again {
                f: protected,
                args: protected_args,
            } => {
                f = protected;
                args = protected_args;
            }
        }
    }
    let overflow = text_value(alloc, heap, b"stack overflow")?;
    fail_in(alloc, PROTECTION_LIMIT, overflow)
}

/// One turn of a call within so many protected calls.
fn call_once(
    alloc: Global,
    heap: &mut Heap,
    pieces: &mut Vec<ByteText>,
    hosts: &mut HostSet,
    f: Value,
    args: ValueList,
    protections: u32,
) -> Result<Turn, AllocError>
    requires f { IsOf heap.old f }
    requires args { AreOf heap.old args }
    requires named { AreNamed heap.old (set_told heard hosts.old) }
    requires protections { protections ≤ 200 }
    ensures turns { IfOk result (Turns f args protections heap.old heap.new pieces.old.items pieces.new.items (set_told heard hosts.old) (set_told heard hosts.new)) }
    ensures broke_off { OnErr result (BrokeOff (BeginsTurn f args protections heap.old (set_told heard hosts.old)) (set_told heard hosts.old) (set_told heard hosts.new)) }
{
    match target_of(alloc, heap, f, args)? {
        Target::Calls { f, args } => {
            let applied = apply(alloc, heap, pieces, hosts, f, args.items())?;
            turn_within(alloc, protections, args, applied)
        }
        Target::Fails(v) => Ok(Turn::Done(fail_in(alloc, protections, v)?)),
    }
}

/// What a call goes to: the value itself, or its handler with the value put before the arguments.
fn target_of(
    alloc: Global,
    heap: &mut Heap,
    f: Value,
    args: ValueList,
) -> Result<Target, AllocError>
    requires f { IsOf heap.old f }
    requires args { AreOf heap.old args }
    ensures { IfOk result (GoesTo f args heap.old heap.new) }
{
    match callee(alloc, heap, f)? {
        Callee::Plain(f) => Ok(Target::Calls { f, args }),
        Callee::Through(handler) => Ok(Target::Calls {
            f: handler,
            args: with_called(alloc, f, args)?,
        }),
        Callee::Fail(v) => Ok(Target::Fails(v)),
    }
}

/// The arguments of a handler: the called value is put before them.
fn with_called(alloc: Global, f: Value, args: ValueList) -> Result<ValueList, AllocError>
    ensures { IfOk result (λ all. all ≡ f ∷ args) }
{
    joined(alloc, &[f], args)
}

/// What a turn comes to within so many protected calls, from what its function came to with these arguments.
fn turn_within(
    alloc: Global,
    protections: u32,
    args: ValueList,
    applied: Applied,
) -> Result<Turn, AllocError>
    ensures { IfOk result (λ turn. turn ≡ turn_of protections args applied) }
{
    match applied {
        Applied::Results(values) => {
            let results = worked(alloc, protections, values)?;
            Ok(Turn::Done(Called::Results(results)))
        }
        Applied::Enters(closure) => Ok(Turn::Done(Called::Enters {
            closure,
            args,
            protections,
        })),
        Applied::Fails(v) => Ok(Turn::Done(fail_in(alloc, protections, v)?)),
        Applied::Protects { f, args } => Ok(Turn::Again { f, args }),
    }
}

/// A failure within so many protected calls, the innermost of which takes it.
fn fail_in(alloc: Global, protections: u32, v: Value) -> Result<Called, AllocError>
    ensures { IfOk result (λ called. called ≡ failed_with protections v) }
{
    if protections == 0 {
        return Ok(Called::Fails(v));
    }
    Ok(Called::Results(broke(alloc, protections - 1, v)?))
}

/// The results of a protected call that failed with a value, within so many others.
pub fn broke(alloc: Global, protections: u32, v: Value) -> Result<ValueList, AllocError>
    ensures { IfOk result (λ all. all ≡ worked_values protections (Boolean false ∷ v ∷ [])) }
{
    let failure = ValueList::from_slice(alloc, &[Value::Bool(false), v])?;
    worked(alloc, protections, failure)
}

/// The results of so many protected calls that worked. In constant time where there are none.
pub fn worked(alloc: Global, protections: u32, values: ValueList) -> Result<ValueList, AllocError>
    ensures { IfOk result (λ all. all ≡ worked_values protections values) }
{
    let mut trues = ValueList::new(alloc);
    for _ in 0..protections {
        trues.push(Value::Bool(true))?;
    }
    joined(alloc, trues.items(), values)
}

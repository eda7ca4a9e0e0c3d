// Calls of one function (manual 2.5.8 and 5.1).
ghost use Rattle.std.specs.Prelude.{◌≡◌, ◌<◌, List, true, length, map, IfOk, OnErr};
ghost use Rattle.lua_num.specs.Bytes.{Text as Bytes};
ghost use Rattle.lua_model.specs.declared.Value.{Value as TheValue};
ghost use Rattle.lua_model.specs.Datum.{is_function};
ghost use Rattle.lua_model.specs.Store.{as_datum};
ghost use Rattle.lua_model.specs.Builtins.{builtin_names};
ghost use Rattle.lua_heap.specs.State.{HeapState, datum, IsOf, AreOf};
ghost use Rattle.lua_heap.specs.Grown.{Grown};
ghost use Rattle.host.specs.Hosts.{is_live_at};
ghost use Rattle.host.specs.Views.{set_told};
ghost use Rattle.natives.specs.declared.hosts.HostAct.{HostAct as TheHostAct};
ghost use Rattle.natives.specs.HostAnswers.{HostAnswers};
ghost use Rattle.machine.specs.Frames.{data_of};
ghost use Rattle.machine.specs.Outside.{AreNamed};
ghost use Rattle.machine.specs.Called.{Applies, Closes};
ghost use Rattle.machine.specs.Begun.{BeginsApply, BrokeOff};

use crate::calling::Applied;
use host::HostSet;
use lua_heap::{Heap, ValueList, text_value};
use lua_model::{Plain, PlainList, Reply, Value};
use lua_num::ByteText;
use natives::{HostAct, NativeAct, host_call, native};
use std::alloc::{AllocError, Global};

/// Calls a function with arguments: a built-in function or a host answers, with at most one piece printed, one host asked or one
/// closed; the frame of a Lua function is left to be made. Where memory runs out, or a host finds none, all is only dropped.
pub fn apply(
    alloc: Global,
    heap: &mut Heap,
    pieces: &mut Vec<ByteText>,
    hosts: &mut HostSet,
    f: Value,
    args: &[Value],
) -> Result<Applied, AllocError>
    requires f { IsOf heap.old f }
    requires function { is_function (datum heap.old f) ≡ true }
    requires args { AreOf heap.old args.now }
    requires named { AreNamed heap.old (set_told heard hosts.old) }
    ensures applies { IfOk result (Applies f args.now heap.old heap.new pieces.old.items pieces.new.items (set_told heard hosts.old) (set_told heard hosts.new)) }
    ensures broke_off { OnErr result (BrokeOff (BeginsApply f args.now heap.old (set_told heard hosts.old)) (set_told heard hosts.old) (set_told heard hosts.new)) }
{
    match f {
        Value::Closure(id) => Ok(Applied::Enters(id)),
        Value::Native(id) => apply_native(alloc, heap, pieces, hosts, id, args),
        Value::Host(host) => apply_host(alloc, heap, hosts, host, args),
        _ => unreachable!(),
    }
}

/// Calls a built-in function.
fn apply_native(
    alloc: Global,
    heap: &mut Heap,
    pieces: &mut Vec<ByteText>,
    hosts: &mut HostSet,
    id: u8,
    args: &[Value],
) -> Result<Applied, AllocError>
    requires id { id < length builtin_names }
    requires args { AreOf heap.old args.now }
    requires named { AreNamed heap.old (set_told heard hosts.old) }
    ensures applies { IfOk result (Applies (TheValue.Native id) args.now heap.old heap.new pieces.old.items pieces.new.items (set_told heard hosts.old) (set_told heard hosts.new)) }
    ensures broke_off { OnErr result (BrokeOff (BeginsApply (TheValue.Native id) args.now heap.old (set_told heard hosts.old)) (set_told heard hosts.old) (set_told heard hosts.new)) }
{
    let act = native(alloc, heap, id, args)?;
    match act {
        NativeAct::Values(values) => Ok(Applied::Results(values)),
        NativeAct::Print(piece) => {
            pieces.push(piece)?;
            Ok(Applied::Results(ValueList::new(alloc)))
        }
        NativeAct::Fail(value) => Ok(Applied::Fails(value)),
        NativeAct::Protect { f, args } => Ok(Applied::Protects { f, args }),
        NativeAct::CloseHost(name) => {
            let was_live = close_host(hosts, name.bytes());
            let results = ValueList::from_slice(alloc, &[Value::Bool(was_live)])?;
            Ok(Applied::Results(results))
        }
    }
}

/// Closes the live host of a name, and says whether there was one.
fn close_host(hosts: &mut HostSet, name: &[u8]) -> bool
    ensures { Closes name.now (set_told heard hosts.old) (set_told heard hosts.new) result }
{
    match hosts.find(name) {
        Some(host) => hosts.close(host),
        None => false,
    }
}

/// Calls a host, which is asked where it is live and the arguments are plain.
fn apply_host(
    alloc: Global,
    heap: &mut Heap,
    hosts: &mut HostSet,
    host: usize,
    args: &[Value],
) -> Result<Applied, AllocError>
    requires host { host < length heap.old.host_names }
    requires args { AreOf heap.old args.now }
    requires named { AreNamed heap.old (set_told heard hosts.old) }
    ensures applies { IfOk result (λ applied. (pieces : List Bytes) → Applies (TheValue.Host host) args.now heap.old heap.new pieces pieces (set_told heard hosts.old) (set_told heard hosts.new) applied) }
    ensures broke_off { OnErr result (BrokeOff (BeginsApply (TheValue.Host host) args.now heap.old (set_told heard hosts.old)) (set_told heard hosts.old) (set_told heard hosts.new)) }
{
    let live = hosts.is_live(host);
    let act = host_call(alloc, heap, host, live, args)?;
    match act {
        HostAct::Ask(plain) => ask(alloc, heap, hosts, host, plain),
        HostAct::Fail(value) => Ok(Applied::Fails(value)),
    }
}

/// Asks a live host. Its reply comes to results or a failure.
fn ask(
    alloc: Global,
    heap: &mut Heap,
    hosts: &mut HostSet,
    host: usize,
    args: PlainList,
) -> Result<Applied, AllocError>
    requires in_range { host < length (set_told heard hosts.old).hosts }
    requires live { is_live_at (set_told heard hosts.old).hosts host ≡ true }
    ensures applies { IfOk result (λ applied. (before : HeapState) (given : List TheValue) (pieces : List Bytes) → AreNamed before (set_told heard hosts.old) → HostAnswers before heap.old host true given (TheHostAct.Ask args) → Grown before heap.old → Applies (TheValue.Host host) given before heap.new pieces pieces (set_told heard hosts.old) (set_told heard hosts.new) applied) }
    ensures broke_off { OnErr result ((before : HeapState) (given : List TheValue) → AreNamed before (set_told heard hosts.old) → HostAnswers before heap.old host true given (TheHostAct.Ask args) → BrokeOff (BeginsApply (TheValue.Host host) given before (set_told heard hosts.old)) (set_told heard hosts.old) (set_told heard hosts.new)) }
{
    hosts.call(alloc, host, args)?;
    match hosts.last_reply() {
        Reply::Values(values) => {
            let results = reply_values(alloc, heap, values.items())?;
            Ok(Applied::Results(results))
        }
        Reply::Fail(text) => {
            let failure = text_value(alloc, heap, text.bytes())?;
            Ok(Applied::Fails(failure))
        }
        Reply::OutOfMemory => Err(AllocError),
    }
}

/// Plain values as values of the heap.
fn reply_values(alloc: Global, heap: &mut Heap, plain: &[Plain]) -> Result<ValueList, AllocError>
    ensures values { IfOk result (λ values. map as_datum plain.now ≡ data_of heap.new values) }
    ensures known { IfOk result (λ values. AreOf heap.new values) }
    ensures grown { Grown heap.old heap.new }
{
    let mut values = ValueList::new(alloc);
    for item in plain {
        let value = reply_value(alloc, heap, item)?;
        values.push(value)?;
    }
    Ok(values)
}

/// A plain value as a value of the heap.
fn reply_value(alloc: Global, heap: &mut Heap, plain: &Plain) -> Result<Value, AllocError>
    ensures value { IfOk result (λ value. as_datum plain.now ≡ datum heap.new value) }
    ensures known { IfOk result (IsOf heap.new) }
    ensures grown { Grown heap.old heap.new }
{
    match plain {
        Plain::Nil => Ok(Value::Nil),
        Plain::Bool(b) => Ok(Value::Bool(*b)),
        Plain::Number(n) => Ok(Value::Number(*n)),
        Plain::Text(text) => text_value(alloc, heap, text.bytes()),
    }
}

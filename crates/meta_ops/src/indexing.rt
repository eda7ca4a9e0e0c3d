// Indexing with its handlers (manual 2.8, "index" and "newindex").
ghost use Rattle.std.specs.Prelude.{◌≡◌, ◌<◌, false, length, IfOk, OnOk, OnErr};
ghost use Rattle.lua_model.specs.Datum.{is_nil as is_nil_datum};
ghost use Rattle.lua_model.specs.Store.{raw_set};
ghost use Rattle.lua_model.specs.Operators.{index as index_in, set_index as set_index_in, index_fault};
ghost use Rattle.lua_heap.specs.State.{datum, IsOf, own_store, with_store, Keeps, OnlyTexts, OnlyTables};
ghost use Rattle.meta_ops.specs.Acts.{act_of, found_of, IsActOf, IsFoundOf};
ghost use Rattle.lua_heap.specs.Grown.{Grown};
ghost use Rattle.meta_ops.specs.Steps.{IsRead, IsWritten};

use crate::act::{Act, Then};
use crate::failures::kind_failure;
use crate::handlers::{call_with, handler, is_function};
use lua_heap::{Heap, is_nil, text_value};
use lua_model::{TableId, Value};
use std::alloc::{AllocError, Global};
use std::ops::ControlFlow;

/// How many values an index may try.
const CHAIN_LIMIT: usize = 100;

/// What a read finds: a value, a function that is asked for the entry of a table, a value on the way that is no table, or
/// that there is no end to the tables.
#[derive(Clone, Copy, PartialEq, Eq, Debug)]
pub enum Found {
    Value(Value),
    Handler { handler: Value, table: Value },
    NoTable(Value),
    NoEnd,
}

/// `on[key]`: the entry of a table, or what its handler gives, which is asked where it is a function and is read in turn
/// where it is not. At most 100 values are read, each in constant time on average. Where memory runs out only texts of the
/// heap changed.
pub fn index(alloc: Global, heap: &mut Heap, on: Value, key: Value) -> Result<Act, AllocError>
    requires on { IsOf heap.old on }
    requires key { IsOf heap.old key }
    ensures act { IfOk result (λ r. act_of heap.new r ≡ index_in (own_store heap.old) (datum heap.old on) (datum heap.old key)) }
    ensures known { IfOk result (IsActOf heap.new) }
    ensures only_texts { OnlyTexts heap.old heap.new }
    ensures keeps { Keeps heap.old heap.new }
{
    match look_up(heap, on, key) {
        Found::Value(value) => Ok(Act::Value(value)),
        Found::Handler { handler, table } => call_with(alloc, handler, &[table, key], Then::Take),
        Found::NoTable(v) => Ok(Act::Fail(index_failure(alloc, heap, v)?)),
        Found::NoEnd => Ok(Act::Fail(text_value(alloc, heap, b"loop in gettable")?)),
    }
}

/// What is found for `on[key]`, with no function asked. Takes no memory; the time is that of `index`.
pub fn look_up(heap: &Heap, on: Value, key: Value) -> Found
    requires on { IsOf heap.now on }
    requires key { IsOf heap.now key }
    ensures found { found_of heap.now (datum heap.now key) result ≡ index_in (own_store heap.now) (datum heap.now on) (datum heap.now key) }
    ensures known { IsFoundOf heap.now result }
{
    let mut at = on;
    for _ in 0..CHAIN_LIMIT {
        match read_step(heap, at, key) {
            ControlFlow::Break(found) => return found,
            ControlFlow::Continue(next) => at = next,
        }
    }
    Found::NoEnd
}

/// One try of a read: it is done, or goes on at a handler that is no function.
fn read_step(heap: &Heap, on: Value, key: Value) -> ControlFlow<Found, Value>
    requires on { IsOf heap.now on }
    requires key { IsOf heap.now key }
    ensures { IsRead heap.now on key result }
{
    let Value::Table(table) = on else {
        return ControlFlow::Break(Found::NoTable(on));
    };
    let entry = heap.raw_get(table, key);
    if !is_nil(entry) {
        return ControlFlow::Break(Found::Value(entry));
    }
    let handler = handler(heap, on, b"__index");
    if is_nil(handler) {
        ControlFlow::Break(Found::Value(Value::Nil))
    } else if is_function(handler) {
        ControlFlow::Break(Found::Handler { handler, table: on })
    } else {
        ControlFlow::Continue(handler)
    }
}

/// Sets `on[key]`: the entry of a table, or what its handler makes of it, which is asked where it is a function and is
/// written in turn where it is not, but only where there is no entry. At most 100 values are tried, each in constant time
/// on average. Where memory runs out only texts of the heap changed.
pub fn set_index(
    alloc: Global,
    heap: &mut Heap,
    on: Value,
    key: Value,
    value: Value,
) -> Result<Act, AllocError>
    requires on { IsOf heap.old on }
    requires key { IsOf heap.old key }
    requires value { IsOf heap.old value }
    ensures act { IfOk result (λ r. (act_of heap.new r, own_store heap.new) ≡ set_index_in (own_store heap.old) (datum heap.old on) (datum heap.old key) (datum heap.old value)) }
    ensures known { IfOk result (IsActOf heap.new) }
    ensures only_tables { OnlyTables heap.old heap.new }
    ensures err { OnErr result (OnlyTexts heap.old heap.new) }
    ensures keeps { Keeps heap.old heap.new }
{
    let mut at = on;
    for _ in 0..CHAIN_LIMIT {
        match write_step(alloc, heap, at, key, value)? {
            ControlFlow::Break(act) => return Ok(act),
            ControlFlow::Continue(next) => at = next,
        }
    }
    Ok(Act::Fail(text_value(alloc, heap, b"loop in settable")?))
}

/// One try of a write: it is done, or goes on at a handler that is no function.
fn write_step(
    alloc: Global,
    heap: &mut Heap,
    on: Value,
    key: Value,
    value: Value,
) -> Result<ControlFlow<Act, Value>, AllocError>
    requires on { IsOf heap.old on }
    requires key { IsOf heap.old key }
    requires value { IsOf heap.old value }
    ensures step { IfOk result (IsWritten heap.old heap.new on key value) }
    ensures only_tables { OnlyTables heap.old heap.new }
    ensures err { OnErr result (OnlyTexts heap.old heap.new) }
    ensures keeps { Keeps heap.old heap.new }
{
    let Value::Table(table) = on else {
        let failure = index_failure(alloc, heap, on)?;
        return Ok(ControlFlow::Break(Act::Fail(failure)));
    };
    if is_nil(key) {
        let failure = text_value(alloc, heap, b"table index is nil")?;
        return Ok(ControlFlow::Break(Act::Fail(failure)));
    }
    if !is_nil(heap.raw_get(table, key)) {
        set_entry(heap, table, key, value)?;
        return Ok(ControlFlow::Break(Act::Value(Value::Nil)));
    }
    let handler = handler(heap, on, b"__newindex");
    if is_nil(handler) {
        set_entry(heap, table, key, value)?;
        Ok(ControlFlow::Break(Act::Value(Value::Nil)))
    } else if is_function(handler) {
        let call = call_with(alloc, handler, &[on, key, value], Then::Discard)?;
        Ok(ControlFlow::Break(call))
    } else {
        Ok(ControlFlow::Continue(handler))
    }
}

/// Sets the entry of a key that is not nil, which fails only where memory runs out; the heap is then as it was.
fn set_entry(heap: &mut Heap, table: TableId, key: Value, value: Value) -> Result<(), AllocError>
    requires table { table.index < length heap.old.tables }
    requires key { IsOf heap.old key }
    requires value { IsOf heap.old value }
    requires not_nil { is_nil_datum (datum heap.old key) ≡ false }
    ensures state { OnOk result (heap.new ≡ with_store heap.old (raw_set (own_store heap.old) table.index (datum heap.old key) (datum heap.old value))) }
    ensures keeps { Keeps heap.old heap.new }
    ensures err { OnErr result (heap.new ≡ heap.old) }
{
    heap.raw_set(table, key, value).map_err(|_| AllocError)
}

/// The failure of a read or a write at a value that is no table. Where memory runs out only texts of the heap changed.
pub fn index_failure(alloc: Global, heap: &mut Heap, v: Value) -> Result<Value, AllocError>
    requires { IsOf heap.old v }
    ensures value { IfOk result (λ r. datum heap.new r ≡ index_fault (datum heap.old v)) }
    ensures known { IfOk result (IsOf heap.new) }
    ensures grown { Grown heap.old heap.new }
{
    kind_failure(alloc, heap, b"attempt to index a ", v, b" value")
}

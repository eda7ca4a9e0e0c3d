// Built-in functions on metatables (manual 5.1).
ghost use Rattle.std.specs.Prelude.{◌≡◌, ℕ, map, IfOk};
ghost use Rattle.std.specs.Result.{OnErr, IfErr};
ghost use Rattle.lua_model.specs.Store.{Store};
ghost use Rattle.lua_model.specs.Builtins.{argument as argument_of, setmetatable as setmetatable_in, getmetatable as getmetatable_in, set_metatable_to, change_metatable, protection as protection_in, metatable_of as metatable_of_datum, table_or_nil as table_or_nil_datum};
ghost use Rattle.lua_heap.specs.State.{HeapState, datum, IsOf, own_store, Keeps, meta_of, IsMetaOf, AreOf, OnlyTexts, OnlyTables};
ghost use Rattle.natives.specs.Answers.{ChangesAs};
ghost use Rattle.natives.specs.Refusals.{Gives, Refuses};

use crate::arguments::{a_table, any_value, argument};
use crate::native_act::NativeAct;
use crate::refusal::Refusal;
use crate::results::results;
use lua_heap::{Heap, is_nil};
use lua_model::{TableId, Value};
use std::alloc::{AllocError, Global};

// The answer is made first, so that a table is changed only where there is one.
pub fn setmetatable(alloc: Global, heap: &mut Heap, args: &[Value]) -> Result<NativeAct, Refusal>
    requires { AreOf heap.old args.now }
    ensures act { Gives setmetatable_in heap.old heap.new args.now result }
    ensures changes { IfOk result (ChangesAs heap.old heap.new) }
    ensures only_tables { OnlyTables heap.old heap.new }
    ensures err { OnErr result (OnlyTexts heap.old heap.new) }
    ensures keeps { Keeps heap.old heap.new }
{
    let table = a_table(args, 1, b"setmetatable")?;
    let metatable = new_metatable(args)?;
    let present = heap.metatable(table);
    let guard = protection(heap, present);
    if !is_nil(guard) {
        return Err(Refusal::Text(b"cannot change a protected metatable"));
    }
    let answer = results(alloc, &[Value::Table(table)])?;
    heap.set_metatable(table, metatable);
    Ok(answer)
}

pub fn getmetatable(alloc: Global, heap: &Heap, args: &[Value]) -> Result<NativeAct, Refusal>
    requires { AreOf heap.now args.now }
    ensures { Gives getmetatable_in heap.now heap.now args.now result }
{
    let v = any_value(args, 1, b"getmetatable")?;
    let metatable = metatable_of(heap, v);
    let guard = protection(heap, metatable);
    if is_nil(guard) {
        return Ok(results(alloc, &[table_or_nil(metatable)])?);
    }
    Ok(results(alloc, &[guard])?)
}

/// The metatable that the second argument of `setmetatable` is, nil for none.
fn new_metatable(args: &[Value]) -> Result<Option<TableId>, Refusal>
    ensures change { IfOk result (λ m. (h : HeapState) (s : Store) (t : ℕ) → set_metatable_to s t (argument_of 2 (map (datum h) args.now)) ≡ change_metatable s t (meta_of m)) }
    ensures known { IfOk result (λ m. (h : HeapState) → AreOf h args.now → IsMetaOf h m) }
    ensures refused { IfErr result (λ r. (h : HeapState) (s : Store) (t : ℕ) → Refuses (set_metatable_to s t (argument_of 2 (map (datum h) args.now))) (map (datum h) args.now) r) }
{
    match argument(args, 2) {
        Some(Value::Nil) => Ok(None),
        Some(Value::Table(metatable)) => Ok(Some(metatable)),
        _ => Err(Refusal::BadArgument {
            position: 2,
            function: b"setmetatable",
            what: b"nil or table expected",
        }),
    }
}

/// The raw field `__metatable` of a metatable, nil where there is none.
fn protection(heap: &Heap, metatable: Option<TableId>) -> Value
    requires { IsMetaOf heap.now metatable }
    ensures value { datum heap.now result ≡ protection_in (own_store heap.now) (meta_of metatable) }
    ensures known { IsOf heap.now result }
{
    match metatable {
        Some(metatable) => heap.field(metatable, b"__metatable"),
        None => Value::Nil,
    }
}

fn metatable_of(heap: &Heap, v: Value) -> Option<TableId>
    requires { IsOf heap.now v }
    ensures meta { meta_of result ≡ metatable_of_datum (own_store heap.now) (datum heap.now v) }
    ensures known { IsMetaOf heap.now result }
{
    match v {
        Value::Table(table) => heap.metatable(table),
        _ => None,
    }
}

fn table_or_nil(metatable: Option<TableId>) -> Value
    ensures value { (h : HeapState) → datum h result ≡ table_or_nil_datum (meta_of metatable) }
    ensures known { (h : HeapState) → IsMetaOf h metatable → IsOf h result }
{
    match metatable {
        Some(table) => Value::Table(table),
        None => Value::Nil,
    }
}

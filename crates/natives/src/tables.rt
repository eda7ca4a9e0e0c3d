// Built-in functions on the entries of tables (manual 5.1).
ghost use Rattle.std.specs.Prelude.{◌≡◌, pos, ◌<◌, ◌+ℤ◌, ◌-ℤ◌, ◌<ℤ◌, ◌≤ℤ◌, ◌^◌, length, map, IfOk, MatchOption};
ghost use Rattle.std.specs.Result.{OnErr};
ghost use Rattle.lua_model.specs.Builtins.{rawget as rawget_in, rawset as rawset_in, next as next_in, pairs as pairs_in, ipairs as ipairs_in, ipairs_next as ipairs_next_in, unpack as unpack_in, entries as entries_of, natural};
ghost use Rattle.lua_heap.specs.State.{HeapState, datum, own_store, Keeps, AreOf, OnlyTables};
ghost use Rattle.natives.specs.Answers.{ChangesAs};
ghost use Rattle.natives.specs.Refusals.{Gives};

use crate::arguments::{a_number, a_table, any_value, argument_or_nil, number_or};
use crate::native_act::NativeAct;
use crate::refusal::Refusal;
use crate::results::results;
use lua_heap::{Heap, ValueList, is_nil};
use lua_model::{TableId, Value};
use lua_num::add;
use lua_table::{NextFault, SetFault};
use std::alloc::{AllocError, Global};

/// The number of `next`.
const NEXT: u8 = 10;

/// The number of `ipairs_next`.
const IPAIRS_NEXT: u8 = 16;

/// The most results of `unpack`.
const MOST_RESULTS: u64 = 8_000;

pub fn rawget(alloc: Global, heap: &Heap, args: &[Value]) -> Result<NativeAct, Refusal>
    requires { AreOf heap.now args.now }
    ensures { Gives rawget_in heap.now heap.now args.now result }
{
    let table = a_table(args, 1, b"rawget")?;
    let key = any_value(args, 2, b"rawget")?;
    Ok(results(alloc, &[heap.raw_get(table, key)])?)
}

// The answer is made first, so that a table is changed only where there is one.
pub fn rawset(alloc: Global, heap: &mut Heap, args: &[Value]) -> Result<NativeAct, Refusal>
    requires { AreOf heap.old args.now }
    ensures act { Gives rawset_in heap.old heap.new args.now result }
    ensures changes { IfOk result (ChangesAs heap.old heap.new) }
    ensures only_tables { OnlyTables heap.old heap.new }
    ensures err { OnErr result (heap.new ≡ heap.old) }
    ensures keeps { Keeps heap.old heap.new }
{
    let table = a_table(args, 1, b"rawset")?;
    let key = any_value(args, 2, b"rawset")?;
    let value = any_value(args, 3, b"rawset")?;
    let answer = results(alloc, &[Value::Table(table)])?;
    match heap.raw_set(table, key, value) {
        Ok(()) => Ok(answer),
        Err(SetFault::NilKey) => Err(Refusal::Text(b"table index is nil")),
        Err(SetFault::OutOfMemory) => Err(Refusal::OutOfMemory),
    }
}

pub fn next(alloc: Global, heap: &Heap, args: &[Value]) -> Result<NativeAct, Refusal>
    requires { AreOf heap.now args.now }
    ensures { Gives next_in heap.now heap.now args.now result }
{
    let table = a_table(args, 1, b"next")?;
    let key = argument_or_nil(args, 2);
    match heap.next(table, key) {
        Ok(Some((key, value))) => Ok(results(alloc, &[key, value])?),
        Ok(None) => Ok(results(alloc, &[Value::Nil])?),
        Err(NextFault::UnknownKey) => Err(Refusal::Text(b"invalid key to 'next'")),
    }
}

pub fn pairs(alloc: Global, args: &[Value]) -> Result<NativeAct, Refusal>
    ensures { (h : HeapState) → AreOf h args.now → Gives pairs_in h h args.now result }
{
    let table = a_table(args, 1, b"pairs")?;
    let triple = [Value::Native(NEXT), Value::Table(table), Value::Nil];
    Ok(results(alloc, &triple)?)
}

pub fn ipairs(alloc: Global, args: &[Value]) -> Result<NativeAct, Refusal>
    ensures { (h : HeapState) → AreOf h args.now → Gives ipairs_in h h args.now result }
{
    let table = a_table(args, 1, b"ipairs")?;
    let triple = [
        Value::Native(IPAIRS_NEXT),
        Value::Table(table),
        Value::Number(0),
    ];
    Ok(results(alloc, &triple)?)
}

pub fn ipairs_next(alloc: Global, heap: &Heap, args: &[Value]) -> Result<NativeAct, Refusal>
    requires { AreOf heap.now args.now }
    ensures { Gives ipairs_next_in heap.now heap.now args.now result }
{
    let table = a_table(args, 1, b"ipairs_next")?;
    let place = a_number(heap, args, 2, b"ipairs_next")?;
    let place = add(place, 1);
    let value = heap.raw_get(table, Value::Number(place));
    if is_nil(value) {
        return Ok(results(alloc, &[Value::Nil])?);
    }
    Ok(results(alloc, &[Value::Number(place), value])?)
}

pub fn unpack(alloc: Global, heap: &Heap, args: &[Value]) -> Result<NativeAct, Refusal>
    requires { AreOf heap.now args.now }
    ensures { Gives unpack_in heap.now heap.now args.now result }
{
    let table = a_table(args, 1, b"unpack")?;
    let first = number_or(heap, args, 2, b"unpack", 1)?;
    let last = number_or(heap, args, 3, b"unpack", heap.border(table))?;
    let Some(count) = count_between(first, last) else {
        return Err(Refusal::Text(b"too many results to unpack"));
    };
    let values = entries(alloc, heap, table, first, count)?;
    Ok(NativeAct::Values(values))
}

/// How many numbers there are from the first to the last: `None` where that is more than there may be results.
fn count_between(first: i64, last: i64) -> Option<u16>
    ensures count { MatchOption result (pos 8000 <ℤ (last -ℤ first +ℤ pos 1)) (λ n. ((last -ℤ first +ℤ pos 1) ≤ℤ pos 8000) × (n ≡ natural (last -ℤ first +ℤ pos 1))) }
{
    if last < first {
        return Some(0);
    }
    let distance = last.abs_diff(first);
    if distance < MOST_RESULTS {
        Some(distance as u16 + 1)
    } else {
        None
    }
}

/// So many raw entries of a table, from the first number on.
fn entries(
    alloc: Global,
    heap: &Heap,
    table: TableId,
    first: i64,
    count: u16,
) -> Result<ValueList, AllocError>
    requires table { table.index < length heap.now.tables }
    requires last { (first +ℤ pos count) ≤ℤ pos (2 ^ 63) }
    ensures values { IfOk result (λ vs. map (datum heap.now) vs ≡ entries_of (own_store heap.now) table.index first count) }
    ensures known { IfOk result (AreOf heap.now) }
{
    let mut values = ValueList::new(alloc);
    for offset in 0..count {
        let key = first + i64::from(offset);
        values.push(heap.raw_get(table, Value::Number(key)))?;
    }
    Ok(values)
}

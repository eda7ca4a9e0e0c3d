// The arguments of a call (manual 5.1).
ghost use Rattle.std.specs.Prelude.{◌≡◌, ℕ, ℤ, ◌-◌, map, drop, slice_get, unwrap_or, Some, IfOk};
ghost use Rattle.std.specs.Result.{IfErr};
ghost use Rattle.lua_num.specs.Bytes.{Text as Bytes};
ghost use Rattle.lua_model.specs.Datum.{Datum, nil, first_of, to_number as to_number_of, to_text};
ghost use Rattle.lua_model.specs.Acts as model;
ghost use Rattle.lua_model.specs.Builtins.{argument as argument_of, as_table, any_value as any_value_in, a_table as a_table_in, a_number as a_number_in, a_string as a_string_in, number_or as number_or_in};
ghost use Rattle.lua_heap.specs.State.{HeapState, datum, IsOf, AreOf};
ghost use Rattle.natives.specs.Refusals.{Refuses};

use crate::refusal::Refusal;
use lua_heap::{Heap, is_nil, number_of, text_of};
use lua_model::{TableId, Value};
use lua_num::ByteText;
use std::alloc::Global;

/// The argument at this position, from 1, where there is one.
pub fn argument(args: &[Value], position: u8) -> Option<Value>
    ensures { result ≡ slice_get args.now (position - 1) }
{
    args.get(usize::from(position).saturating_sub(1)).copied()
}

/// The argument at this position, nil where there is none.
pub fn argument_or_nil(args: &[Value], position: u8) -> Value
    ensures value { (h : HeapState) → datum h result ≡ unwrap_or (argument_of position (map (datum h) args.now)) nil }
    ensures known { (h : HeapState) → AreOf h args.now → IsOf h result }
{
    match argument(args, position) {
        Some(v) => v,
        None => Value::Nil,
    }
}

/// The first argument, nil where there is none.
pub fn first(args: &[Value]) -> Value
    ensures value { (h : HeapState) → datum h result ≡ first_of (map (datum h) args.now) }
    ensures known { (h : HeapState) → AreOf h args.now → IsOf h result }
{
    match args {
        [] => Value::Nil,
        [v, ..] => *v,
    }
}

/// The arguments behind the first one.
pub fn rest(args: &[Value]) -> &[Value]
    ensures { result.now ≡ drop 1 args.now }
{
    match args {
        [] => args,
        [_, rest @ ..] => rest,
    }
}

/// The argument at this position, which may be any value.
pub fn any_value(args: &[Value], position: u8, function: &'static [u8]) -> Result<Value, Refusal>
    ensures value { IfOk result (λ v. (h : HeapState) → argument_of position (map (datum h) args.now) ≡ Some (datum h v)) }
    ensures known { IfOk result (λ v. (h : HeapState) → AreOf h args.now → IsOf h v) }
    ensures refused { IfErr result (λ r. (h : HeapState) (k : Datum → model.NativeAct) → Refuses (any_value_in position function.entry.now (map (datum h) args.now) k) (map (datum h) args.now) r) }
{
    match argument(args, position) {
        Some(v) => Ok(v),
        None => Err(Refusal::BadArgument {
            position,
            function,
            what: b"value expected",
        }),
    }
}

/// The argument at this position, which is to be a table.
pub fn a_table(args: &[Value], position: u8, function: &'static [u8]) -> Result<TableId, Refusal>
    ensures table { IfOk result (λ t. (h : HeapState) → as_table (argument_of position (map (datum h) args.now)) ≡ Some t.index) }
    ensures known { IfOk result (λ t. (h : HeapState) → AreOf h args.now → IsOf h (Value.Table t)) }
    ensures refused { IfErr result (λ r. (h : HeapState) (k : ℕ → model.NativeAct) → Refuses (a_table_in position function.entry.now (map (datum h) args.now) k) (map (datum h) args.now) r) }
{
    match argument(args, position) {
        Some(Value::Table(table)) => Ok(table),
        _ => Err(Refusal::WrongArgument {
            position,
            function,
            wanted: b"table",
        }),
    }
}

/// The argument at this position, which is to be a number, or a string that is one.
pub fn a_number(
    heap: &Heap,
    args: &[Value],
    position: u8,
    function: &'static [u8],
) -> Result<i64, Refusal>
    requires { AreOf heap.now args.now }
    ensures number { IfOk result (λ n. to_number_of (unwrap_or (argument_of position (map (datum heap.now) args.now)) nil) ≡ Some n) }
    ensures refused { IfErr result (λ r. (k : ℤ → model.NativeAct) → Refuses (a_number_in position function.entry.now (map (datum heap.now) args.now) k) (map (datum heap.now) args.now) r) }
{
    let argument = argument_or_nil(args, position);
    match number_of(heap, argument) {
        Some(n) => Ok(n),
        None => Err(Refusal::WrongArgument {
            position,
            function,
            wanted: b"number",
        }),
    }
}

/// The argument at this position, which is to be a number, or a string that is one; for nil and no argument another
/// number.
pub fn number_or(
    heap: &Heap,
    args: &[Value],
    position: u8,
    function: &'static [u8],
    other: i64,
) -> Result<i64, Refusal>
    requires { AreOf heap.now args.now }
    ensures number { IfOk result (λ n. (k : ℤ → model.NativeAct) → number_or_in other position function.entry.now (map (datum heap.now) args.now) k ≡ k n) }
    ensures refused { IfErr result (λ r. (k : ℤ → model.NativeAct) → Refuses (number_or_in other position function.entry.now (map (datum heap.now) args.now) k) (map (datum heap.now) args.now) r) }
{
    if is_nil(argument_or_nil(args, position)) {
        return Ok(other);
    }
    let number = a_number(heap, args, position, function)?;
    Ok(number)
}

/// The argument at this position, which is to be a string, or a number as its text.
pub fn a_string(
    alloc: Global,
    heap: &Heap,
    args: &[Value],
    position: u8,
    function: &'static [u8],
) -> Result<ByteText, Refusal>
    requires { AreOf heap.now args.now }
    ensures string { IfOk result (λ t. to_text (unwrap_or (argument_of position (map (datum heap.now) args.now)) nil) ≡ Some t) }
    ensures refused { IfErr result (λ r. (k : Bytes → model.NativeAct) → Refuses (a_string_in position function.entry.now (map (datum heap.now) args.now) k) (map (datum heap.now) args.now) r) }
{
    let argument = argument_or_nil(args, position);
    match text_of(alloc, heap, argument)? {
        Some(text) => Ok(text),
        None => Err(Refusal::WrongArgument {
            position,
            function,
            wanted: b"string",
        }),
    }
}

// Operations on values of a heap.
ghost use Rattle.std.specs.Prelude.{◌<◌, IfOk};
ghost use Rattle.lua_heap.specs.State.{IsOf, Keeps, AreOf};
ghost use Rattle.meta_ops.specs.Acts.{IsActOf};

use crate::answers::{act_text, callee_text, native_act_text, value_text};
use crate::fault::RowFault;
use lua_heap::Heap;
use lua_model::Value;
use lua_num::{ArithOp, CompareOp};
use lua_table::SetFault;
use meta_ops::{Act, arith, callee, compare, concat2, index, length, negate, set_index};
use natives::{BUILTIN_COUNT, native};
use std::alloc::Global;

/// What the operation of a verb answers: none where it has no answer.
pub(crate) fn operate(
    alloc: Global,
    heap: &mut Heap,
    verb: &str,
    operands: &[Value],
) -> Result<Option<String>, RowFault>
    requires { AreOf heap.old operands.now }
    ensures { Keeps heap.old heap.new }
{
    match operands {
        [a] => on_one(alloc, heap, verb, *a),
        [a, b] => on_two(alloc, heap, verb, *a, *b),
        [a, b, c] => on_three(alloc, heap, verb, *a, *b, *c),
        _ => Err(RowFault::Unreadable),
    }
}

fn on_one(alloc: Global, heap: &mut Heap, verb: &str, a: Value) -> Result<Option<String>, RowFault>
    requires { IsOf heap.old a }
    ensures { Keeps heap.old heap.new }
{
    match (verb, a) {
        ("neg", a) => {
            let act = negate(alloc, heap, a)?;
            Ok(Some(act_text(alloc, heap, &act)?))
        }
        ("len", a) => {
            let act = length(alloc, heap, a)?;
            Ok(Some(act_text(alloc, heap, &act)?))
        }
        ("callee", a) => {
            let callee = callee(alloc, heap, a)?;
            Ok(Some(callee_text(alloc, heap, callee)?))
        }
        ("border", Value::Table(table)) => {
            let border = heap.border(table);
            Ok(Some(format!(in alloc; "{border}")?))
        }
        _ => Err(RowFault::Unreadable),
    }
}

fn on_two(
    alloc: Global,
    heap: &mut Heap,
    verb: &str,
    a: Value,
    b: Value,
) -> Result<Option<String>, RowFault>
    requires a { IsOf heap.old a }
    requires b { IsOf heap.old b }
    ensures { Keeps heap.old heap.new }
{
    match (verb, a, b) {
        ("raw", Value::Table(table), key) => {
            let entry = heap.raw_get(table, key);
            Ok(Some(value_text(alloc, heap, entry)?))
        }
        ("meta", Value::Table(table), Value::Table(metatable)) => {
            heap.set_metatable(table, Some(metatable));
            Ok(None)
        }
        ("meta", Value::Table(table), Value::Nil) => {
            heap.set_metatable(table, None);
            Ok(None)
        }
        (verb, a, b) => {
            let act = operator(alloc, heap, verb, a, b)?;
            Ok(Some(act_text(alloc, heap, &act)?))
        }
    }
}

/// What an operator of two operands answers.
fn operator(alloc: Global, heap: &mut Heap, verb: &str, a: Value, b: Value) -> Result<Act, RowFault>
    requires a { IsOf heap.old a }
    requires b { IsOf heap.old b }
    ensures known { IfOk result (IsActOf heap.new) }
    ensures keeps { Keeps heap.old heap.new }
{
    match verb {
        "add" => Ok(arith(alloc, heap, ArithOp::Add, a, b)?),
        "sub" => Ok(arith(alloc, heap, ArithOp::Sub, a, b)?),
        "mul" => Ok(arith(alloc, heap, ArithOp::Mul, a, b)?),
        "div" => Ok(arith(alloc, heap, ArithOp::Div, a, b)?),
        "mod" => Ok(arith(alloc, heap, ArithOp::Rem, a, b)?),
        "pow" => Ok(arith(alloc, heap, ArithOp::Pow, a, b)?),
        "eq" => Ok(compare(alloc, heap, CompareOp::Eq, a, b)?),
        "lt" => Ok(compare(alloc, heap, CompareOp::Lt, a, b)?),
        "le" => Ok(compare(alloc, heap, CompareOp::Le, a, b)?),
        "cat" => Ok(concat2(alloc, heap, a, b)?),
        "get" => Ok(index(alloc, heap, a, b)?),
        _ => Err(RowFault::Unreadable),
    }
}

fn on_three(
    alloc: Global,
    heap: &mut Heap,
    verb: &str,
    a: Value,
    b: Value,
    c: Value,
) -> Result<Option<String>, RowFault>
    requires a { IsOf heap.old a }
    requires b { IsOf heap.old b }
    requires c { IsOf heap.old c }
    ensures { Keeps heap.old heap.new }
{
    match (verb, a) {
        ("put", on) => {
            let act = set_index(alloc, heap, on, b, c)?;
            Ok(Some(act_text(alloc, heap, &act)?))
        }
        ("set", Value::Table(table)) => match heap.raw_set(table, b, c) {
            Ok(()) => Ok(None),
            Err(SetFault::NilKey) => Ok(Some(String::from_str(alloc, "refused")?)),
            Err(SetFault::OutOfMemory) => Err(RowFault::OutOfMemory),
        },
        _ => Err(RowFault::Unreadable),
    }
}

/// What the built-in function of this number answers.
pub(crate) fn call(
    alloc: Global,
    heap: &mut Heap,
    id: u8,
    args: &[Value],
) -> Result<String, RowFault>
    requires id { id < BUILTIN_COUNT }
    requires args { AreOf heap.old args.now }
    ensures { Keeps heap.old heap.new }
{
    let act = native(alloc, heap, id, args)?;
    Ok(native_act_text(alloc, heap, &act)?)
}

// Arithmetic with its handlers (manual 2.5.1 and 2.8).
ghost use Rattle.std.specs.Prelude.{◌≡◌, ℤ, [], ◌∷◌, Ok, IfOk, IsOk};
ghost use Rattle.lua_num.specs.Arith.{outcome as outcome_of};
ghost use Rattle.lua_model.specs.Operators.{arith as arith_in, negate as negate_in, event_of as event_text, fault_text as fault_of, of_numbers, ask_or, either_handler as either_handler_of, no_arithmetic};
ghost use Rattle.lua_model.specs.Acts.{take};
ghost use Rattle.lua_heap.specs.State.{datum, IsOf, own_store, Keeps, OnlyTexts};
ghost use Rattle.meta_ops.specs.Acts.{act_of, IsActOf};
ghost use Rattle.lua_heap.specs.Grown.{Grown};

use crate::act::{Act, Then};
use crate::failures::kind_failure;
use crate::handlers::{call_with, either_handler, handler};
use lua_heap::{Heap, is_nil, number_of, text_value};
use lua_model::Value;
use lua_num::{ArithOp, NumFault, add, div, mul, neg, pow, rem, sub};
use std::alloc::{AllocError, Global};

/// `a OP b`. Numbers, and strings that are numbers, are taken as numbers; else a handler is asked.
/// On two numbers whose outcome is a number it takes no memory. Where memory runs out only texts of the heap changed.
pub fn arith(
    alloc: Global,
    heap: &mut Heap,
    op: ArithOp,
    a: Value,
    b: Value,
) -> Result<Act, AllocError>
    requires a { IsOf heap.old a }
    requires b { IsOf heap.old b }
    ensures act { IfOk result (λ r. act_of heap.new r ≡ arith_in (own_store heap.old) op (datum heap.old a) (datum heap.old b)) }
    ensures known { IfOk result (IsActOf heap.new) }
    ensures memory { (x y n : ℤ) → a ≡ Value.Number x → b ≡ Value.Number y → outcome_of op x y ≡ Ok n → IsOk result }
    ensures only_texts { OnlyTexts heap.old heap.new }
    ensures keeps { Keeps heap.old heap.new }
{
    match (number_of(heap, a), number_of(heap, b)) {
        (Some(x), Some(y)) => arith_numbers(alloc, heap, op, x, y),
        (None, _) => ask_arith(alloc, heap, op, a, b, a),
        (Some(_), None) => ask_arith(alloc, heap, op, a, b, b),
    }
}

/// `-a`. Its handler is given the operand twice. On a number it takes no memory. Where memory runs out only texts of
/// the heap changed.
pub fn negate(alloc: Global, heap: &mut Heap, a: Value) -> Result<Act, AllocError>
    requires { IsOf heap.old a }
    ensures act { IfOk result (λ r. act_of heap.new r ≡ negate_in (own_store heap.old) (datum heap.old a)) }
    ensures known { IfOk result (IsActOf heap.new) }
    ensures memory { (x : ℤ) → a ≡ Value.Number x → IsOk result }
    ensures only_texts { OnlyTexts heap.old heap.new }
    ensures keeps { Keeps heap.old heap.new }
{
    if let Some(x) = number_of(heap, a) {
        return Ok(Act::Value(Value::Number(neg(x))));
    }
    let handler = handler(heap, a, b"__unm");
    if is_nil(handler) {
        Ok(Act::Fail(arithmetic_failure(alloc, heap, a)?))
    } else {
        call_with(alloc, handler, &[a, a], Then::Take)
    }
}

/// What an operator gives for two numbers.
fn outcome(op: ArithOp, a: i64, b: i64) -> Result<i64, NumFault>
    ensures { result ≡ outcome_of op a b }
{
    match op {
        ArithOp::Add => Ok(add(a, b)),
        ArithOp::Sub => Ok(sub(a, b)),
        ArithOp::Mul => Ok(mul(a, b)),
        ArithOp::Div => div(a, b),
        ArithOp::Rem => rem(a, b),
        ArithOp::Pow => pow(a, b),
    }
}

fn fault_text(fault: NumFault) -> &'static [u8]
    ensures { result.now ≡ fault_of fault }
{
    match fault {
        NumFault::DivideByZero => b"attempt to divide by zero",
        NumFault::NegativeExponent => b"negative exponent",
    }
}

/// The name of an operator's handler.
fn event_of(op: ArithOp) -> &'static [u8]
    ensures { result.now ≡ event_text op }
{
    match op {
        ArithOp::Add => b"__add",
        ArithOp::Sub => b"__sub",
        ArithOp::Mul => b"__mul",
        ArithOp::Div => b"__div",
        ArithOp::Rem => b"__mod",
        ArithOp::Pow => b"__pow",
    }
}

fn arith_numbers(
    alloc: Global,
    heap: &mut Heap,
    op: ArithOp,
    a: i64,
    b: i64,
) -> Result<Act, AllocError>
    ensures act { IfOk result (λ r. act_of heap.new r ≡ of_numbers (outcome_of op a b)) }
    ensures known { IfOk result (IsActOf heap.new) }
    ensures memory { (n : ℤ) → outcome_of op a b ≡ Ok n → IsOk result }
    ensures grown { Grown heap.old heap.new }
{
    match outcome(op, a, b) {
        Ok(n) => Ok(Act::Value(Value::Number(n))),
        Err(fault) => Ok(Act::Fail(text_value(alloc, heap, fault_text(fault))?)),
    }
}

/// Asks a handler of two operands of which one is no number, or else fails for that one.
fn ask_arith(
    alloc: Global,
    heap: &mut Heap,
    op: ArithOp,
    a: Value,
    b: Value,
    culprit: Value,
) -> Result<Act, AllocError>
    requires a { IsOf heap.old a }
    requires b { IsOf heap.old b }
    requires culprit { IsOf heap.old culprit }
    ensures act { IfOk result (λ r. act_of heap.new r ≡ ask_or (either_handler_of (own_store heap.old) (datum heap.old a) (datum heap.old b) (event_text op)) (datum heap.old a ∷ datum heap.old b ∷ []) take (no_arithmetic (datum heap.old culprit))) }
    ensures known { IfOk result (IsActOf heap.new) }
    ensures grown { Grown heap.old heap.new }
{
    let handler = either_handler(heap, a, b, event_of(op));
    if is_nil(handler) {
        Ok(Act::Fail(arithmetic_failure(alloc, heap, culprit)?))
    } else {
        call_with(alloc, handler, &[a, b], Then::Take)
    }
}

fn arithmetic_failure(alloc: Global, heap: &mut Heap, v: Value) -> Result<Value, AllocError>
    requires { IsOf heap.old v }
    ensures failure { IfOk result (λ r. act_of heap.new (Act.Fail r) ≡ no_arithmetic (datum heap.old v)) }
    ensures known { IfOk result (IsOf heap.new) }
    ensures grown { Grown heap.old heap.new }
{
    kind_failure(
        alloc,
        heap,
        b"attempt to perform arithmetic on a ",
        v,
        b" value",
    )
}

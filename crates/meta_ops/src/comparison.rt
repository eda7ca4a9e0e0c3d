// Comparison with its handlers (manual 2.5.2 and 2.8).
ghost use Rattle.std.specs.Prelude.{◌≡◌, ℤ, [], ◌∷◌, IfOk, IsOk, codes};
ghost use Rattle.lua_model.specs.Operators.{compare as compare_in, equal as equal_in, less as less_in, at_most as at_most_in, incomparable as incomparable_of, text_less as is_text_less, ask_or, common_handler as common_handler_of};
ghost use Rattle.lua_model.specs.Acts.{truth, negated};
ghost use Rattle.lua_heap.specs.State.{HeapState, datum, IsOf, own_store, Keeps, OnlyTexts};
ghost use Rattle.meta_ops.specs.Acts.{act_of, IsActOf};
ghost use Rattle.lua_heap.specs.Grown.{Grown};
ghost use Rattle.meta_ops.specs.Orders.{less_of, at_most_of, are_both_tables};

use crate::act::{Act, Then};
use crate::failures::kind_failure;
use crate::handlers::{call_with, common_handler};
use lua_heap::{Heap, is_nil, kind_name, text_value};
use lua_model::Value;
use lua_num::{ByteText, CompareOp};
use std::alloc::{AllocError, Global};

/// `a == b`, `a < b` or `a <= b`. Two numbers and two strings are ordered; else a handler is asked that both operands
/// have. On two numbers it takes no memory. Where memory runs out only texts of the heap changed.
pub fn compare(
    alloc: Global,
    heap: &mut Heap,
    op: CompareOp,
    a: Value,
    b: Value,
) -> Result<Act, AllocError>
    requires a { IsOf heap.old a }
    requires b { IsOf heap.old b }
    ensures act { IfOk result (λ r. act_of heap.new r ≡ compare_in (own_store heap.old) op (datum heap.old a) (datum heap.old b)) }
    ensures known { IfOk result (IsActOf heap.new) }
    ensures memory { (x y : ℤ) → a ≡ Value.Number x → b ≡ Value.Number y → IsOk result }
    ensures only_texts { OnlyTexts heap.old heap.new }
    ensures keeps { Keeps heap.old heap.new }
{
    match op {
        CompareOp::Eq => equal(alloc, heap, a, b),
        CompareOp::Lt => less(alloc, heap, a, b),
        CompareOp::Le => at_most(alloc, heap, a, b),
    }
}

fn equal(alloc: Global, heap: &mut Heap, a: Value, b: Value) -> Result<Act, AllocError>
    requires a { IsOf heap.old a }
    requires b { IsOf heap.old b }
    ensures act { IfOk result (λ r. act_of heap.new r ≡ equal_in (own_store heap.old) (datum heap.old a) (datum heap.old b)) }
    ensures known { IfOk result (IsActOf heap.new) }
    ensures memory { (x y : ℤ) → a ≡ Value.Number x → b ≡ Value.Number y → IsOk result }
    ensures grown { Grown heap.old heap.new }
{
    if heap.raw_equal(a, b) {
        return Ok(Act::Value(Value::Bool(true)));
    }
    if !are_tables(a, b) {
        return Ok(Act::Value(Value::Bool(false)));
    }
    let handler = common_handler(heap, a, b, b"__eq");
    if is_nil(handler) {
        Ok(Act::Value(Value::Bool(false)))
    } else {
        call_with(alloc, handler, &[a, b], Then::Truth)
    }
}

fn less(alloc: Global, heap: &mut Heap, a: Value, b: Value) -> Result<Act, AllocError>
    requires a { IsOf heap.old a }
    requires b { IsOf heap.old b }
    ensures act { IfOk result (λ r. act_of heap.new r ≡ less_in (own_store heap.old) (datum heap.old a) (datum heap.old b)) }
    ensures known { IfOk result (IsActOf heap.new) }
    ensures memory { (x y : ℤ) → a ≡ Value.Number x → b ≡ Value.Number y → IsOk result }
    ensures grown { Grown heap.old heap.new }
{
    if let Some(is_less) = plain_less(heap, a, b) {
        return Ok(Act::Value(Value::Bool(is_less)));
    }
    ask_less(alloc, heap, a, b)
}

fn at_most(alloc: Global, heap: &mut Heap, a: Value, b: Value) -> Result<Act, AllocError>
    requires a { IsOf heap.old a }
    requires b { IsOf heap.old b }
    ensures act { IfOk result (λ r. act_of heap.new r ≡ at_most_in (own_store heap.old) (datum heap.old a) (datum heap.old b)) }
    ensures known { IfOk result (IsActOf heap.new) }
    ensures memory { (x y : ℤ) → a ≡ Value.Number x → b ≡ Value.Number y → IsOk result }
    ensures grown { Grown heap.old heap.new }
{
    if let Some(is_at_most) = plain_at_most(heap, a, b) {
        return Ok(Act::Value(Value::Bool(is_at_most)));
    }
    let handler = common_handler(heap, a, b, b"__le");
    if is_nil(handler) {
        ask_not_greater(alloc, heap, a, b)
    } else {
        call_with(alloc, handler, &[a, b], Then::Truth)
    }
}

/// Asks the handler `__lt` of both operands, or else fails.
fn ask_less(alloc: Global, heap: &mut Heap, a: Value, b: Value) -> Result<Act, AllocError>
    requires a { IsOf heap.old a }
    requires b { IsOf heap.old b }
    ensures act { IfOk result (λ r. act_of heap.new r ≡ ask_or (common_handler_of (own_store heap.old) (datum heap.old a) (datum heap.old b) (codes "__lt")) (datum heap.old a ∷ datum heap.old b ∷ []) truth (incomparable_of (datum heap.old a) (datum heap.old b))) }
    ensures known { IfOk result (IsActOf heap.new) }
    ensures grown { Grown heap.old heap.new }
{
    let handler = common_handler(heap, a, b, b"__lt");
    if is_nil(handler) {
        incomparable(alloc, heap, a, b)
    } else {
        call_with(alloc, handler, &[a, b], Then::Truth)
    }
}

/// Asks the handler `__lt` of both operands for `a <= b`, with the operands swapped, or else fails.
fn ask_not_greater(alloc: Global, heap: &mut Heap, a: Value, b: Value) -> Result<Act, AllocError>
    requires a { IsOf heap.old a }
    requires b { IsOf heap.old b }
    ensures act { IfOk result (λ r. act_of heap.new r ≡ ask_or (common_handler_of (own_store heap.old) (datum heap.old a) (datum heap.old b) (codes "__lt")) (datum heap.old b ∷ datum heap.old a ∷ []) negated (incomparable_of (datum heap.old a) (datum heap.old b))) }
    ensures known { IfOk result (IsActOf heap.new) }
    ensures grown { Grown heap.old heap.new }
{
    let handler = common_handler(heap, a, b, b"__lt");
    if is_nil(handler) {
        incomparable(alloc, heap, a, b)
    } else {
        call_with(alloc, handler, &[b, a], Then::Negate)
    }
}

/// Whether a number or string is less than another one: `None` where the operands are no such two.
fn plain_less(heap: &Heap, a: Value, b: Value) -> Option<bool>
    requires a { IsOf heap.now a }
    requires b { IsOf heap.now b }
    ensures { result ≡ less_of (datum heap.now a) (datum heap.now b) }
{
    match (a, b) {
        (Value::Number(x), Value::Number(y)) => Some(x < y),
        (Value::Text(x), Value::Text(y)) => {
            let texts = heap.pool();
            Some(text_less(texts.bytes(x), texts.bytes(y)))
        }
        _ => None,
    }
}

/// Whether a number or string is at most another one: `None` where the operands are no such two.
fn plain_at_most(heap: &Heap, a: Value, b: Value) -> Option<bool>
    requires a { IsOf heap.now a }
    requires b { IsOf heap.now b }
    ensures { result ≡ at_most_of (datum heap.now a) (datum heap.now b) }
{
    match (a, b) {
        (Value::Number(x), Value::Number(y)) => Some(x <= y),
        (Value::Text(x), Value::Text(y)) => {
            let texts = heap.pool();
            Some(!text_less(texts.bytes(y), texts.bytes(x)))
        }
        _ => None,
    }
}

fn text_less(a: &[u8], b: &[u8]) -> bool
    ensures { result ≡ is_text_less a.now b.now }
{
    a < b
}

fn are_tables(a: Value, b: Value) -> bool
    ensures { (h : HeapState) → result ≡ are_both_tables (datum h a) (datum h b) }
{
    matches!((a, b), (Value::Table(_), Value::Table(_)))
}

/// The failure of an order of two operands.
fn incomparable(alloc: Global, heap: &mut Heap, a: Value, b: Value) -> Result<Act, AllocError>
    ensures act { IfOk result (λ r. act_of heap.new r ≡ incomparable_of (datum heap.old a) (datum heap.old b)) }
    ensures known { IfOk result (IsActOf heap.new) }
    ensures grown { Grown heap.old heap.new }
{
    if kind_name(a) == kind_name(b) {
        let failure = kind_failure(alloc, heap, b"attempt to compare two ", a, b" values")?;
        return Ok(Act::Fail(failure));
    }
    let mut message = ByteText::from_slice(alloc, b"attempt to compare ")?;
    message.extend(kind_name(a))?;
    message.extend(b" with ")?;
    message.extend(kind_name(b))?;
    Ok(Act::Fail(text_value(alloc, heap, message.bytes())?))
}

// CONCAT (manual 2.5.4).
ghost use Rattle.std.specs.Prelude.{◌≡◌, ℕ, suc, ◌+◌, ◌<◌, ◌≤◌, ◌&&◌, true, false, is_some, length, IfOk, IfSome};
ghost use Rattle.opcode.specs.declared.op.Op.TheVariants as op;
ghost use Rattle.lua_model.specs.Datum.{text as text_datum, to_text};
ghost use Rattle.lua_heap.specs.State.{HeapState, IsOf, AreOf, datum};
ghost use Rattle.rules.specs.State.{State};
ghost use Rattle.rules.specs.Calls.{join as join_of};
ghost use Rattle.rules.specs.Step.{effect};
ghost use Rattle.machine.specs.declared.function.Function.{Function as TheFunction};
ghost use Rattle.machine.specs.Frames.{showing};
ghost use Rattle.machine.specs.Joining.{IsJoining, text_at};
ghost use Rattle.machine.specs.Words.{Does, calls_left};

use crate::did::{Did, Landing};
use crate::operands::register;
use lua_heap::{Heap, text_of, text_value};
use lua_model::Value;
use lua_num::ByteText;
use meta_ops::{Act, concat2};
use opcode::Instr;
use std::alloc::{AllocError, Global};

/// Whether a value is taken as a text.
fn is_text(value: Value) -> bool
    ensures { (h : HeapState) → result ≡ is_some (to_text (datum h value)) }
{
    matches!(value, Value::Text(_) | Value::Number(_))
}

/// From which register on, counted from the first, the registers and a running value are all taken as texts.
fn texts_begin(registers: &[Value], first: u32, count: u32, value: Value) -> u32
    requires there { first + count ≤ length registers.now }
    requires room { first + count < 1024 }
    ensures bound { result ≤ count }
    ensures texts { (h : HeapState) (place : ℕ) → result ≤ place → place < count → is_some (text_at h registers.now (first + place)) ≡ true }
    ensures before { (h : HeapState) (place : ℕ) → result ≡ suc place → (is_some (to_text (datum h value)) && is_some (text_at h registers.now (first + place))) ≡ false }
{
    if !is_text(value) {
        return count;
    }
    let mut left = count;
    while left > 0 {
        let last = register(registers, first + left - 1);
        if !is_text(last) {
            return left;
        }
        left -= 1;
    }
    left
}

/// The texts of the registers from one on, in order, and of a running value behind them, as one text; none where one of
/// them is not taken as a text. In linear time in it.
fn text_from(
    alloc: Global,
    heap: &Heap,
    registers: &[Value],
    first: u32,
    left: u32,
    count: u32,
    value: Value,
) -> Result<Option<ByteText>, AllocError>
    requires known { AreOf heap.now registers.now }
    requires value { IsOf heap.now value }
    requires there { first + count ≤ length registers.now }
    requires room { first + count < 1024 }
    requires some { left < count }
    ensures { IfOk result (λ whole. IfSome whole (λ whole. (m : State) (a : ℕ) → join_of (showing m heap.now registers.now) a first count (datum heap.now value) ≡ join_of (showing m heap.now registers.now) a first left (text_datum whole))) }
{
    let Some(mut whole) = text_of(alloc, heap, register(registers, first + left))? else {
        return Ok(None);
    };
    for place in left + 1..count {
        let Some(text) = text_of(alloc, heap, register(registers, first + place))? else {
            return Ok(None);
        };
        whole.extend(text.bytes())?;
    }
    let Some(text) = text_of(alloc, heap, value)? else {
        return Ok(None);
    };
    whole.extend(text.bytes())?;
    Ok(Some(whole))
}

/// Joins registers to a running value, from the last one down as far as they are taken as texts, like this value. Their
/// bytes are put together once, and no text between is made. Gives how many registers are left, and the value then.
fn join_texts(
    alloc: Global,
    heap: &mut Heap,
    registers: &[Value],
    first: u32,
    count: u32,
    value: Value,
) -> Result<(u32, Value), AllocError>
    requires known { AreOf heap.old registers.now }
    requires value { IsOf heap.old value }
    requires there { first + count ≤ length registers.now }
    requires room { first + count < 1024 }
    ensures { IfOk result (λ joined. (a : ℕ) → IsJoining heap.old heap.new registers.now a first count joined.0 value joined.1) }
{
    let left = texts_begin(registers, first, count, value);
    if left == count {
        return Ok((count, value));
    }
    match text_from(alloc, heap, registers, first, left, count, value)? {
        Some(text) => {
            let joined = text_value(alloc, heap, text.bytes())?;
            Ok((left, joined))
        }
        None => Ok((count, value)),
    }
}

/// Joins so many registers from the first on to a running value, from the last one down, and puts the outcome into a
/// register. Where a handler is asked, the pairs that are left stand in its landing. Of texts in a row the heap gets
/// the whole alone.
pub fn join(
    alloc: Global,
    heap: &mut Heap,
    registers: &mut [Value],
    a: u32,
    first: u32,
    count: u32,
    value: Value,
) -> Result<Did, AllocError>
    requires known { AreOf heap.old registers.old }
    requires value { IsOf heap.old value }
    requires a { a < length registers.old }
    requires there { first + count ≤ length registers.old }
    requires room { first + count < 1024 }
    ensures does { IfOk result (λ did. (f : TheFunction) (pc : ℕ) → Does (λ m. join_of m a first count (datum heap.old value)) heap.old heap.new f registers.old registers.new pc did) }
    ensures falls { IfOk result (λ did. calls_left did < suc (suc count)) }
{
    let (mut left, mut value) = join_texts(alloc, heap, registers, first, count, value)?;
    while left > 0 {
        left -= 1;
        match concat2(alloc, heap, register(registers, first + left), value)? {
            Act::Value(joined) => value = joined,
            Act::Call { handler, args, .. } => {
                return Ok(Did::Calls {
                    landing: Landing::Pairs {
                        a,
                        first,
                        count: left,
                    },
                    callee: handler,
                    args,
                });
            }
            Act::Fail(failure) => return Ok(Did::Fails(failure)),
        }
    }
    registers[a as usize] = value;
    Ok(Did::Next)
}

/// CONCAT.
pub fn concat(
    alloc: Global,
    heap: &mut Heap,
    registers: &mut [Value],
    i: Instr,
) -> Result<Did, AllocError>
    requires known { AreOf heap.old registers.old }
    requires a { i.a < length registers.old }
    requires order { i.b < i.c }
    requires c { i.c < length registers.old }
    requires field { i.c < 512 }
    ensures { IfOk result (λ did. (f : TheFunction) (pc : ℕ) → Does (λ m. effect op.Concat m i) heap.old heap.new f registers.old registers.new pc did) }
{
    let last = register(registers, i.c);
    join(alloc, heap, registers, i.a, i.b, i.c - i.b, last)
}

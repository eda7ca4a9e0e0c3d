// The words of the numeric `for` (manual 2.4.5).
ghost use Rattle.std.specs.Prelude.{◌≡◌, ℕ, ◌<◌, ◌+◌, ◌^◌, ◌+ℤ◌, pos, length, slice_set, None, Some, IfOk, IfSome, IfNone, MatchResult};
ghost use Rattle.opcode.specs.declared.op.Op.TheVariants as op;
ghost use Rattle.lua_model.specs.Operators.{goes_on as goes_on_of, counts, no_count};
ghost use Rattle.lua_heap.specs.State.{HeapState, AreOf};
ghost use Rattle.rules.specs.Places.{as_pc};
ghost use Rattle.rules.specs.Step.{effect};
ghost use Rattle.rules.specs.State.{State};
ghost use Rattle.machine.specs.declared.function.Function.{Function as TheFunction};
ghost use Rattle.machine.specs.declared.did.Did.{Did as TheDid};
ghost use Rattle.machine.specs.Frames.{showing};
ghost use Rattle.machine.specs.Memory.{AreLoopNumbers};
ghost use Rattle.machine.specs.Words.{IsNumber, number_of as number_of_value, number_at, loop_numbers_in, Does, IsStep};

use crate::did::Did;
use crate::operands::register;
use crate::words::jumps::jump;
use lua_heap::{Heap, number_of, text_value};
use lua_model::Value;
use lua_num::{add, sub};
use opcode::Instr;
use std::alloc::{AllocError, Global};

pub fn number(v: Value) -> Option<i64>
    ensures { result ≡ number_of_value v }
{
    match v {
        Value::Number(n) => Some(n),
        _ => None,
    }
}

/// The number in a register that holds one.
fn loop_number(registers: &[Value], r: u32) -> i64
    requires number { IsNumber registers.now r }
    ensures { number_at registers.now r ≡ Some result }
{
    let Some(n) = number(register(registers, r)) else {
        unreachable!();
    };
    n
}

/// Puts a number into a register.
fn put_number(registers: &mut [Value], r: u32, n: i64)
    requires there { r < length registers.old }
    ensures { registers.new ≡ slice_set registers.old r (Value.Number n) }
{
    registers[r as usize] = Value::Number(n);
}

fn goes_on(now: i64, limit: i64, step: i64) -> bool
    ensures { result ≡ goes_on_of now limit step }
{
    if step > 0 { now <= limit } else { limit <= now }
}

/// FORLOOP.
pub fn for_loop(registers: &mut [Value], pc: usize, i: Instr) -> Did
    requires field { i.a < 256 }
    requires first { IsNumber registers.old i.a }
    requires limit { IsNumber registers.old (i.a + 1) }
    requires step { IsNumber registers.old (i.a + 2) }
    requires variable { i.a + 3 < length registers.old }
    requires goes { as_pc (pos pc +ℤ i.sbx) ≡ None → ⊥ }
    requires room { pc < 2 ^ 33 }
    ensures does { (h : HeapState) (f : TheFunction) → AreOf h registers.old → Does (λ m. effect op.ForLoop m i) h h f registers.old registers.new pc result }
    ensures step { IsStep result }
{
    let first = loop_number(registers, i.a);
    let limit = loop_number(registers, i.a + 1);
    let step = loop_number(registers, i.a + 2);
    let now = add(first, step);
    put_number(registers, i.a, now);
    if goes_on(now, limit, step) {
        put_number(registers, i.a + 3, now);
        Did::Jumps(jump(pc, i.sbx))
    } else {
        Did::Next
    }
}

/// FORPREP. Where memory runs out only texts of the heap changed.
pub fn for_prepare(
    alloc: Global,
    heap: &mut Heap,
    registers: &mut [Value],
    pc: usize,
    i: Instr,
) -> Result<Did, AllocError>
    requires known { AreOf heap.old registers.old }
    requires field { i.a < 256 }
    requires there { i.a + 2 < length registers.old }
    requires goes { as_pc (pos pc +ℤ i.sbx) ≡ None → ⊥ }
    requires room { pc < 2 ^ 33 }
    ensures { IfOk result (λ did. (f : TheFunction) → Does (λ m. effect op.ForPrep m i) heap.old heap.new f registers.old registers.new pc did) }
{
    match loop_numbers(heap, registers, i.a) {
        Ok((first, limit, step)) => Ok(Did::Jumps(begin_loop(
            registers, pc, i, first, limit, step,
        ))),
        Err(why) => Ok(Did::Fails(text_value(alloc, heap, why)?)),
    }
}

/// FORPREP in place: `None` where a number of the loop is none; then nothing is done.
pub fn quick_prepare(heap: &Heap, registers: &mut [Value], pc: usize, i: Instr) -> Option<usize>
    requires known { AreOf heap.now registers.old }
    requires field { i.a < 256 }
    requires there { i.a + 2 < length registers.old }
    requires goes { as_pc (pos pc +ℤ i.sbx) ≡ None → ⊥ }
    requires room { pc < 2 ^ 33 }
    ensures some { IfSome result (λ next. (f : TheFunction) → Does (λ m. effect op.ForPrep m i) heap.now heap.now f registers.old registers.new pc (TheDid.Jumps next)) }
    ensures none { IfNone result (registers.new ≡ registers.old) }
    ensures taken { IfNone result ((m : State) → AreLoopNumbers (showing m heap.now registers.old) i → ⊥) }
{
    let Ok((first, limit, step)) = loop_numbers(heap, registers, i.a) else {
        return None;
    };
    Some(begin_loop(registers, pc, i, first, limit, step))
}

/// Begins a loop of these numbers, and answers the pc of its FORLOOP.
fn begin_loop(
    registers: &mut [Value],
    pc: usize,
    i: Instr,
    first: i64,
    limit: i64,
    step: i64,
) -> usize
    requires field { i.a < 256 }
    requires there { i.a + 2 < length registers.old }
    requires goes { as_pc (pos pc +ℤ i.sbx) ≡ None → ⊥ }
    requires room { pc < 2 ^ 33 }
    ensures { (h : HeapState) (f : TheFunction) → AreOf h registers.old → loop_numbers_in h registers.old i.a ≡ counts first limit step → Does (λ m. effect op.ForPrep m i) h h f registers.old registers.new pc (TheDid.Jumps result) }
{
    put_number(registers, i.a, sub(first, step));
    put_number(registers, i.a + 1, limit);
    put_number(registers, i.a + 2, step);
    jump(pc, i.sbx)
}

/// The initial value, the limit and the step as numbers, or the text of a failure.
fn loop_numbers(heap: &Heap, registers: &[Value], a: u32) -> Result<(i64, i64, i64), &'static [u8]>
    requires known { AreOf heap.now registers.now }
    requires field { a < 256 }
    requires there { a + 2 < length registers.now }
    ensures { MatchResult result (λ numbers. loop_numbers_in heap.now registers.now a ≡ counts numbers.0 numbers.1 numbers.2) (λ why. loop_numbers_in heap.now registers.now a ≡ no_count why.now) }
{
    let Some(first) = number_of(heap, register(registers, a)) else {
        return Err(b"'for' initial value must be a number");
    };
    let Some(limit) = number_of(heap, register(registers, a + 1)) else {
        return Err(b"'for' limit must be a number");
    };
    let Some(step) = number_of(heap, register(registers, a + 2)) else {
        return Err(b"'for' step must be a number");
    };
    Ok((first, limit, step))
}

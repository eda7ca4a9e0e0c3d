// Common words, done in place: they ask for no call.
ghost use Rattle.std.specs.Prelude.{◌≡◌, ◌<◌, ℤ, length, Ok, IfSome, IfNone};
ghost use Rattle.lua_num.specs.Arith.{outcome};
ghost use Rattle.lua_model.specs.Store.{Store};
ghost use Rattle.lua_model.specs.Datum.{boolean, number as a_number};
ghost use Rattle.lua_model.specs.Acts.{value};
ghost use Rattle.lua_model.specs.Operators.{compare};
ghost use Rattle.lua_heap.specs.State.{HeapState};
ghost use Rattle.rules.specs.State.{State};
ghost use Rattle.rules.specs.Step.{effect, do_arith as do_arith_of, do_compare as do_compare_of};
ghost use Rattle.machine.specs.declared.did.Did.{Did as TheDid};
ghost use Rattle.machine.specs.Decoded.{instr_in};
ghost use Rattle.machine.specs.Fits.{Fits, IsInner, IsOther};
ghost use Rattle.machine.specs.Frames.{showing};
ghost use Rattle.machine.specs.Memory.{NeedsNone, Computes, Compares};
ghost use Rattle.machine.specs.Words.{AreKnown, Does, Runs, IsOperand, IsTest, IsStep, pc_of};

use crate::did::Did;
use crate::function::Function;
use crate::operands::operand;
use crate::word::Word;
use crate::words::arithmetic::do_not;
use crate::words::entries::{get_entry, get_method_entry, set_entry};
use crate::words::jumps::{branch, jump};
use crate::words::loops::{for_loop, number, quick_prepare};
use crate::words::rows::{load_bool, load_nil};
use crate::words::straight::{copy, load_constant};
use crate::words::tables::get_global;
use crate::words::tests::{test, test_set};
use lua_heap::Heap;
use lua_model::Value;
use lua_num::{ArithOp, CompareOp, add, div, mul, pow, rem, sub};
use opcode::{Instr, Op};

/// Does a word in place, where it is a common one that asks for no call, and answers the pc that it goes on to. Else nothing is done. It takes memory
/// only for a new entry of a table.
pub fn quick(
    heap: &mut Heap,
    registers: &mut [Value],
    function: &Function,
    pc: usize,
    word: Word,
) -> Option<usize>
    requires known { AreKnown heap.old function.now registers.old }
    requires inner { IsInner word.op }
    requires fits { Fits word.op function.now registers.old pc (instr_in word) }
    ensures some { IfSome result (λ next. Does (λ m. effect word.op m (instr_in word)) heap.old heap.new function.now registers.old registers.new pc (TheDid.Jumps next)) }
    ensures none { IfNone result ((registers.new ≡ registers.old) × (heap.new ≡ heap.old)) }
    ensures other { IfNone result (IsOther word.op) }
    ensures taken { IfNone result ((m : State) → Runs m heap.old function.now pc → NeedsNone word.op (showing m heap.old registers.old) (instr_in word) → ⊥) }
{
    match word.op {
        Op::Move => Some(pc_behind(copy(registers, word.abc()), pc)),
        Op::LoadK => Some(pc_behind(load_constant(registers, function, word.abx()), pc)),
        Op::LoadBool => Some(pc_behind(load_bool(registers, pc, word.abc()), pc)),
        Op::LoadNil => Some(pc_behind(load_nil(registers, word.abc()), pc)),
        Op::GetGlobal => Some(pc_behind(get_global(heap, registers, function, word.abx()), pc)),
        Op::Not => Some(pc_behind(do_not(registers, word.abc()), pc)),
        Op::Jmp => Some(jump(pc, word.asbx().sbx)),
        Op::Test => Some(pc_behind(test(registers, function, pc, word.abc()), pc)),
        Op::TestSet => Some(pc_behind(test_set(registers, function, pc, word.abc()), pc)),
        Op::ForLoop => Some(pc_behind(for_loop(registers, pc, word.asbx()), pc)),
        Op::ForPrep => quick_prepare(heap, registers, pc, word.asbx()),
        Op::GetTable => get_entry(heap, registers, function, pc, word.abc()),
        Op::SetTable => set_entry(heap, registers, function, pc, word.abc()),
        Op::Self_ => get_method_entry(heap, registers, function, pc, word.abc()),
        Op::Add => quick_arith(registers, function, pc, ArithOp::Add, word.abc()),
        Op::Sub => quick_arith(registers, function, pc, ArithOp::Sub, word.abc()),
        Op::Mul => quick_arith(registers, function, pc, ArithOp::Mul, word.abc()),
        Op::Div => quick_arith(registers, function, pc, ArithOp::Div, word.abc()),
        Op::Mod => quick_arith(registers, function, pc, ArithOp::Rem, word.abc()),
        Op::Pow => quick_arith(registers, function, pc, ArithOp::Pow, word.abc()),
        Op::Eq => quick_compare(registers, function, pc, CompareOp::Eq, word.abc()),
        Op::Lt => quick_compare(registers, function, pc, CompareOp::Lt, word.abc()),
        Op::Le => quick_compare(registers, function, pc, CompareOp::Le, word.abc()),
        _ => None,
    }
}

// The pc behind a word that goes on within its frame.
fn pc_behind(did: Did, pc: usize) -> usize
    requires { IsStep did }
    ensures { result ≡ pc_of did pc }
{
    match did {
        Did::Next => pc,
        Did::Jumps(next) => next,
        _ => unreachable!(),
    }
}

// ADD, SUB, MUL, DIV, MOD or POW of two numbers, where it does not fail.
#[inline(always)]
fn quick_arith(
    registers: &mut [Value],
    function: &Function,
    pc: usize,
    op: ArithOp,
    i: Instr,
) -> Option<usize>
    requires a { i.a < length registers.old }
    requires b { IsOperand function.now registers.old i.b }
    requires c { IsOperand function.now registers.old i.c }
    ensures some { IfSome result (λ next. (h : HeapState) → AreKnown h function.now registers.old → Does (λ m. do_arith_of op m i) h h function.now registers.old registers.new pc (TheDid.Jumps next)) }
    ensures none { IfNone result (registers.new ≡ registers.old) }
    ensures taken { IfNone result ((h : HeapState) (m : State) → Runs m h function.now pc → Computes op (showing m h registers.old) i → ⊥) }
{
    let Some(x) = number(operand(function, registers, i.b)) else {
        return None;
    };
    let Some(y) = number(operand(function, registers, i.c)) else {
        return None;
    };
    let n = computed(op, x, y)?;
    registers[i.a as usize] = Value::Number(n);
    Some(pc)
}

// What an operation gives, where it does not fail.
fn computed(op: ArithOp, x: i64, y: i64) -> Option<i64>
    ensures some { IfSome result (λ n. outcome op x y ≡ Ok n) }
    ensures none { IfNone result ((n : ℤ) → outcome op x y ≡ Ok n → ⊥) }
{
    match op {
        ArithOp::Add => Some(add(x, y)),
        ArithOp::Sub => Some(sub(x, y)),
        ArithOp::Mul => Some(mul(x, y)),
        ArithOp::Div => div(x, y).ok(),
        ArithOp::Rem => rem(x, y).ok(),
        ArithOp::Pow => pow(x, y).ok(),
    }
}

// EQ, LT or LE of two numbers.
#[inline(always)]
fn quick_compare(
    registers: &[Value],
    function: &Function,
    pc: usize,
    op: CompareOp,
    i: Instr,
) -> Option<usize>
    requires b { IsOperand function.now registers.now i.b }
    requires c { IsOperand function.now registers.now i.c }
    requires jmp { IsTest function.now pc }
    ensures some { IfSome result (λ next. (h : HeapState) → AreKnown h function.now registers.now → Does (λ m. do_compare_of op m i) h h function.now registers.now registers.now pc (TheDid.Jumps next)) }
    ensures taken { IfNone result ((h : HeapState) (m : State) → Runs m h function.now pc → Compares (showing m h registers.now) i → ⊥) }
{
    let Some(x) = number(operand(function, registers, i.b)) else {
        return None;
    };
    let Some(y) = number(operand(function, registers, i.c)) else {
        return None;
    };
    let holds = compared(op, x, y);
    Some(pc_behind(branch(function, pc, u32::from(holds) == i.a), pc))
}

fn compared(op: CompareOp, x: i64, y: i64) -> bool
    ensures { (s : Store) → compare s op (a_number x) (a_number y) ≡ value (boolean result) }
{
    match op {
        CompareOp::Eq => x == y,
        CompareOp::Lt => x < y,
        CompareOp::Le => x <= y,
    }
}

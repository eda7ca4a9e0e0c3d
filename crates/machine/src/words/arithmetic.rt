// Words that compute (manual 2.5.1, 2.5.3 and 2.5.5).
ghost use Rattle.std.specs.Prelude.{◌≡◌, ℕ, ◌<◌, length, IfOk};
ghost use Rattle.opcode.specs.declared.op.Op.TheVariants as op;
ghost use Rattle.lua_heap.specs.State.{HeapState, AreOf};
ghost use Rattle.rules.specs.Step.{effect, do_arith as do_arith_of};
ghost use Rattle.machine.specs.declared.function.Function.{Function as TheFunction};
ghost use Rattle.machine.specs.Words.{AreKnown, IsOperand, Does, IsStep};

use crate::did::Did;
use crate::function::Function;
use crate::operands::{operand, register};
use crate::words::giving::give;
use lua_heap::Heap;
use lua_model::Value;
use lua_num::ArithOp;
use opcode::Instr;
use std::alloc::{AllocError, Global};

/// ADD, SUB, MUL, DIV, MOD or POW.
pub fn do_arith(
    alloc: Global,
    heap: &mut Heap,
    registers: &mut [Value],
    function: &Function,
    op: ArithOp,
    i: Instr,
) -> Result<Did, AllocError>
    requires known { AreKnown heap.old function.now registers.old }
    requires a { i.a < length registers.old }
    requires b { IsOperand function.now registers.old i.b }
    requires c { IsOperand function.now registers.old i.c }
    ensures { IfOk result (λ did. (pc : ℕ) → Does (λ m. do_arith_of op m i) heap.old heap.new function.now registers.old registers.new pc did) }
{
    let x = operand(function, registers, i.b);
    let y = operand(function, registers, i.c);
    let act = meta_ops::arith(alloc, heap, op, x, y)?;
    Ok(give(registers, i.a, act))
}

/// UNM.
pub fn do_negate(
    alloc: Global,
    heap: &mut Heap,
    registers: &mut [Value],
    i: Instr,
) -> Result<Did, AllocError>
    requires a { i.a < length registers.old }
    requires b { i.b < length registers.old }
    requires known { AreOf heap.old registers.old }
    ensures { IfOk result (λ did. (f : TheFunction) (pc : ℕ) → Does (λ m. effect op.Unm m i) heap.old heap.new f registers.old registers.new pc did) }
{
    let x = register(registers, i.b);
    let act = meta_ops::negate(alloc, heap, x)?;
    Ok(give(registers, i.a, act))
}

/// LEN.
pub fn do_length(
    alloc: Global,
    heap: &mut Heap,
    registers: &mut [Value],
    i: Instr,
) -> Result<Did, AllocError>
    requires a { i.a < length registers.old }
    requires b { i.b < length registers.old }
    requires known { AreOf heap.old registers.old }
    ensures { IfOk result (λ did. (f : TheFunction) (pc : ℕ) → Does (λ m. effect op.Len m i) heap.old heap.new f registers.old registers.new pc did) }
{
    let x = register(registers, i.b);
    let act = meta_ops::length(alloc, heap, x)?;
    Ok(give(registers, i.a, act))
}

/// NOT.
pub fn do_not(registers: &mut [Value], i: Instr) -> Did
    requires a { i.a < length registers.old }
    requires b { i.b < length registers.old }
    ensures does { (h : HeapState) (f : TheFunction) (pc : ℕ) → AreOf h registers.old → Does (λ m. effect op.Not m i) h h f registers.old registers.new pc result }
    ensures step { IsStep result }
{
    let x = register(registers, i.b);
    registers[i.a as usize] = Value::Bool(!x.is_true());
    Did::Next
}

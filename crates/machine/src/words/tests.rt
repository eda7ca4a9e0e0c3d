// Words that test (manual 2.5.2 and 2.5.3).
ghost use Rattle.std.specs.Prelude.{◌≡◌, ◌<◌, not, length, IfOk};
ghost use Rattle.opcode.specs.declared.op.Op.TheVariants as op;
ghost use Rattle.opcode.specs.Word.{truth_field};
ghost use Rattle.lua_model.specs.Datum.{is_true};
ghost use Rattle.lua_heap.specs.State.{HeapState, AreOf, datum};
ghost use Rattle.rules.specs.Step.{effect, do_compare as do_compare_of};
ghost use Rattle.machine.specs.Words.{AreKnown, IsOperand, IsTest, Does, IsStep};

use crate::did::Did;
use crate::function::Function;
use crate::operands::{operand, register};
use crate::words::giving::give_test;
use crate::words::jumps::branch;
use lua_heap::Heap;
use lua_model::Value;
use lua_num::CompareOp;
use opcode::Instr;
use std::alloc::{AllocError, Global};

/// EQ, LT or LE.
pub fn do_compare(
    alloc: Global,
    heap: &mut Heap,
    registers: &[Value],
    function: &Function,
    pc: usize,
    op: CompareOp,
    i: Instr,
) -> Result<Did, AllocError>
    requires known { AreKnown heap.old function.now registers.now }
    requires b { IsOperand function.now registers.now i.b }
    requires c { IsOperand function.now registers.now i.c }
    requires jmp { IsTest function.now pc }
    ensures { IfOk result (λ did. Does (λ m. do_compare_of op m i) heap.old heap.new function.now registers.now registers.now pc did) }
{
    let x = operand(function, registers, i.b);
    let y = operand(function, registers, i.c);
    let act = meta_ops::compare(alloc, heap, op, x, y)?;
    Ok(give_test(function, pc, i.a, act))
}

/// Whether a value is false, as a field.
fn false_field(v: Value) -> u32
    ensures { (h : HeapState) → result ≡ truth_field (not (is_true (datum h v))) }
{
    u32::from(!v.is_true())
}

/// TEST.
pub fn test(registers: &[Value], function: &Function, pc: usize, i: Instr) -> Did
    requires a { i.a < length registers.now }
    requires jmp { IsTest function.now pc }
    ensures does { (h : HeapState) → AreOf h registers.now → Does (λ m. effect op.Test m i) h h function.now registers.now registers.now pc result }
    ensures step { IsStep result }
{
    let is_c = false_field(register(registers, i.a)) == i.c;
    branch(function, pc, !is_c)
}

/// TESTSET.
pub fn test_set(registers: &mut [Value], function: &Function, pc: usize, i: Instr) -> Did
    requires a { i.a < length registers.old }
    requires b { i.b < length registers.old }
    requires jmp { IsTest function.now pc }
    ensures does { (h : HeapState) → AreOf h registers.old → Does (λ m. effect op.TestSet m i) h h function.now registers.old registers.new pc result }
    ensures step { IsStep result }
{
    let v = register(registers, i.b);
    if false_field(v) == i.c {
        return branch(function, pc, false);
    }
    registers[i.a as usize] = v;
    branch(function, pc, true)
}

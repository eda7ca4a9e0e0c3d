// Doing a word that works on nothing but the registers of its frame, its function and the heap.
ghost use Rattle.std.specs.Prelude.{IfOk};
ghost use Rattle.lua_heap.specs.State.{HeapState};
ghost use Rattle.rules.specs.Step.{effect};
ghost use Rattle.machine.specs.Fits.{Fits, IsPlain, IsOther};
ghost use Rattle.machine.specs.Words.{AreKnown, Does};

use crate::did::Did;
use crate::function::Function;
use crate::words::arithmetic::{do_arith, do_length, do_negate};
use crate::words::calls::call_iterator;
use crate::words::joining::concat;
use crate::words::loops::for_prepare;
use crate::words::tables::{get_method, get_table, new_table, set_global, set_table};
use crate::words::tests::do_compare;
use lua_heap::Heap;
use lua_model::Value;
use lua_num::{ArithOp, CompareOp};
use opcode::{Instr, Op};
use std::alloc::{AllocError, Global};

/// Does a word that was not done in place. Where memory runs out the heap is only dropped.
pub fn perform(
    alloc: Global,
    heap: &mut Heap,
    registers: &mut [Value],
    function: &Function,
    pc: usize,
    i: Instr,
) -> Result<Did, AllocError>
    requires known { AreKnown heap.old function.now registers.old }
    requires plain { IsPlain i.op }
    requires other { IsOther i.op }
    requires fits { Fits i.op function.now registers.old pc i }
    ensures { IfOk result (Does (λ m. effect i.op m i) heap.old heap.new function.now registers.old registers.new pc) }
{
    match i.op {
        Op::GetTable => get_table(alloc, heap, registers, function, i),
        Op::SetGlobal => set_global(heap, registers, function, i),
        Op::SetTable => set_table(alloc, heap, registers, function, i),
        Op::NewTable => new_table(alloc, heap, registers, i),
        Op::Self_ => get_method(alloc, heap, registers, function, i),
        Op::Add => do_arith(alloc, heap, registers, function, ArithOp::Add, i),
        Op::Sub => do_arith(alloc, heap, registers, function, ArithOp::Sub, i),
        Op::Mul => do_arith(alloc, heap, registers, function, ArithOp::Mul, i),
        Op::Div => do_arith(alloc, heap, registers, function, ArithOp::Div, i),
        Op::Mod => do_arith(alloc, heap, registers, function, ArithOp::Rem, i),
        Op::Pow => do_arith(alloc, heap, registers, function, ArithOp::Pow, i),
        Op::Unm => do_negate(alloc, heap, registers, i),
        Op::Len => do_length(alloc, heap, registers, i),
        Op::Concat => concat(alloc, heap, registers, i),
        Op::Eq => do_compare(alloc, heap, registers, function, pc, CompareOp::Eq, i),
        Op::Lt => do_compare(alloc, heap, registers, function, pc, CompareOp::Lt, i),
        Op::Le => do_compare(alloc, heap, registers, function, pc, CompareOp::Le, i),
        Op::ForPrep => for_prepare(alloc, heap, registers, pc, i),
        Op::TForLoop => call_iterator(alloc, registers, function, pc, i),
        Op::Move
        | Op::LoadK
        | Op::LoadBool
        | Op::LoadNil
        | Op::GetUpval
        | Op::SetUpval
        | Op::GetGlobal
        | Op::Not
        | Op::Jmp
        | Op::Test
        | Op::TestSet
        | Op::ForLoop
        | Op::Call
        | Op::TailCall
        | Op::Return
        | Op::SetList
        | Op::Close
        | Op::Closure
        | Op::Vararg => unreachable!(),
    }
}

// CLOSURE (manual 2.5.9 and 2.6).
ghost use Rattle.std.specs.Prelude.{◌≡◌, ◌+◌, ◌<◌, ◌^◌, ◌∷◌, [], ℕ, slice_get, length, take, drop, Some, IfOk, OnOk};
ghost use Rattle.opcode.specs.Reading.{instr_of};
ghost use Rattle.opcode.specs.declared.op.Op.TheVariants as op;
ghost use Rattle.rules.specs.Step.{effect};
ghost use Rattle.upvalue.specs.Shared.{Shares};
ghost use Rattle.upvalue.specs.State.{top};
ghost use Rattle.machine.specs.declared.function.Function.{Function as TheFunction};
ghost use Rattle.machine.specs.declared.did.Did.TheVariants.{Next};
ghost use Rattle.machine.specs.Captures.{TakesCells};
ghost use Rattle.machine.specs.Fits.{FitsFrame, IsCapture, AreCaptures};
ghost use Rattle.machine.specs.Seen.{cells_in};
ghost use Rattle.machine.specs.Whole.{IsClosureOf, IsSafe, DoesSeen};

use crate::function::Function;
use crate::running::Running;
use crate::upvalues::upvalue;
use lua_heap::CellId;
use lua_model::Value;
use opcode::{Instr, Op, decode};
use std::alloc::{AllocError, Global};

/// CLOSURE: a closure of an inner function, with a cell for each of its upvalues, which the further words behind it name: MOVE a register
/// of this frame, GETUPVAL an upvalue of its function.
pub fn make_closure(
    alloc: Global,
    running: &mut Running,
    functions: &[Function],
    i: Instr,
) -> Result<(), AllocError>
    requires safe { IsSafe functions.now running.old }
    requires fits { (f : TheFunction) → slice_get functions.now running.old.top.function ≡ Some f → FitsFrame op.Closure f (top running.old.stack.frames) running.old.top.results (length (cells_in running.old.heap running.old.top.closure)) running.old.top.pc i }
    requires captures { (f g : TheFunction) (n : ℕ) → slice_get functions.now running.old.top.function ≡ Some f → slice_get f.inner.items i.bx ≡ Some n → slice_get functions.now n ≡ Some g → AreCaptures f (length (top running.old.stack.frames)) (length (cells_in running.old.heap running.old.top.closure)) running.old.top.pc g.upvalues }
    requires inner { (f : TheFunction) (n : ℕ) → slice_get functions.now running.old.top.function ≡ Some f → slice_get f.inner.items i.bx ≡ Some n → n < length functions.now }
    ensures does { OnOk result (DoesSeen functions.now (λ m. effect op.Closure m i) running.old running.new Next) }
{
    let function = &functions[running.top.function];
    let number = function.inner[i.bx as usize];
    let count = functions[number].upvalues as usize;
    let pc = running.top.pc;
    let cells = cells_for(alloc, running, function, pc, count)?;
    running.top.pc = pc + count;
    let closure = running.heap.new_closure(alloc, number, cells.as_slice())?;
    running.stack.write(i.a as usize, Value::Closure(closure));
    Ok(())
}

/// The cells that so many words from a pc on name.
fn cells_for(
    alloc: Global,
    running: &mut Running,
    function: &Function,
    pc: usize,
    count: usize,
) -> Result<Vec<CellId>, AllocError>
    requires shares { Shares running.old.stack running.old.heap }
    requires closure { IsClosureOf running.old.heap running.old.top.closure }
    requires captures { AreCaptures function.now (length (top running.old.stack.frames)) (length (cells_in running.old.heap running.old.top.closure)) pc count }
    ensures room { OnOk result (pc + count < 2 ^ 64) }
    ensures cells { IfOk result (λ cells. TakesCells (take count (drop pc function.now.code.items)) running.old running.new cells.items) }
{
    let mut cells = Vec::with_capacity(alloc, count)?;
    for k in 0..count {
        let cell = cell_for(running, function.code[pc + k])?;
        cells.push(cell)?;
    }
    Ok(cells)
}

/// The cell that a word names.
fn cell_for(running: &mut Running, word: u32) -> Result<CellId, AllocError>
    requires shares { Shares running.old.stack running.old.heap }
    requires closure { IsClosureOf running.old.heap running.old.top.closure }
    requires capture { IsCapture (length (top running.old.stack.frames)) (length (cells_in running.old.heap running.old.top.closure)) (instr_of word) }
    ensures { IfOk result (λ cell. TakesCells (word ∷ []) running.old running.new (cell ∷ [])) }
{
    let Some(i) = decode(word) else {
        unreachable!();
    };
    match i.op {
        Op::Move => running.stack.capture(&mut running.heap, i.b as usize),
        Op::GetUpval => Ok(upvalue(running, i.b)),
        _ => unreachable!(),
    }
}

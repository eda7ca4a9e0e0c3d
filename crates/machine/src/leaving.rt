// Frames that are left.
ghost use Rattle.std.specs.Prelude.{◌≡◌, ◌*◌, ◌<◌, ◌≤◌, ◌∷◌, suc, List, length, slice_get, Some, IfOk};
ghost use Rattle.opcode.specs.declared.op.Op.TheVariants as op;
ghost use Rattle.proto.specs.Chunk.{Chunk};
ghost use Rattle.rules.specs.State.{Frame as FrameOfRules};
ghost use Rattle.rules.specs.Cells.{close_from};
ghost use Rattle.rules.specs.Calls.{give_to};
ghost use Rattle.rules.specs.Step.{effect};
ghost use Rattle.lua_heap.specs.State.{AreOf, Keeps};
ghost use Rattle.upvalue.specs.State.{top};
ghost use Rattle.upvalue.specs.Shared.{Shares};
ghost use Rattle.machine.specs.declared.function.Function.{Function as TheFunction};
ghost use Rattle.machine.specs.Fits.{FitsFrame};
ghost use Rattle.machine.specs.Frames.{data_of};
ghost use Rattle.machine.specs.Seen.{Around, seen, cells_in};
ghost use Rattle.machine.specs.Settled.{to_do};
ghost use Rattle.machine.specs.Whole.{IsWaiting, IsSafe, DoesSeen};

use crate::calling::worked;
use crate::did::{Did, Landing};
use crate::function::Function;
use crate::running::Running;
use crate::topmost::land_top;
use crate::words::{count_of, listed};
use lua_heap::ValueList;
use opcode::Instr;
use std::alloc::{AllocError, Global};

/// Takes the topmost frame off, where it is not the main frame; the cells of its registers are closed. Answers its landing and its protections. It takes no memory.
pub fn leave(running: &mut Running) -> (Landing, u32)
    requires shares { Shares running.old.stack running.old.heap }
    requires frame { 0 < length running.old.below.items }
    requires depth { length running.old.stack.frames ≡ suc (length running.old.below.items) }
    ensures landing { result.0 ≡ running.old.top.landing }
    ensures protections { result.1 ≡ running.old.top.protections }
    ensures left { (c : Chunk) (a : Around) (fs : List TheFunction) → IsSafe fs running.old → (x : FrameOfRules) (rest : List FrameOfRules) → (seen c a running.old).below ≡ x ∷ rest → seen c a running.new ≡ record (close_from (seen c a running.old) 0) { top = x; below = rest } }
    ensures safe { (fs : List TheFunction) → IsSafe fs running.old → IsSafe fs running.new }
    ensures waiting { (fs : List TheFunction) → IsSafe fs running.old → IsWaiting fs result.0 running.new.top (top running.new.stack.frames) }
    ensures heap { running.new.heap ≡ record running.old.heap { cells = running.new.heap.cells } }
    ensures keeps { Keeps running.old.heap running.new.heap }
    ensures fewer { suc (length running.new.below.items) ≡ length running.old.below.items }
    ensures pieces { running.new.pieces ≡ running.old.pieces }
{
    let landing = running.top.landing;
    let protections = running.top.protections;
    running.stack.pop_frame(&mut running.heap);
    match running.below.pop() {
        Some(frame) => running.top = frame,
        None => unreachable!(),
    }
    (landing, protections)
}

/// Leaves the topmost frame with results, which land in the frame below it. The end of the main frame is that of the run.
pub fn give(
    alloc: Global,
    running: &mut Running,
    functions: &[Function],
    values: ValueList,
) -> Result<Did, AllocError>
    requires safe { IsSafe functions.now running.old }
    requires values { AreOf running.old.heap values }
    ensures does { IfOk result (DoesSeen functions.now (λ m. give_to m.below (close_from m 0) m.top.landing (data_of running.old.heap values)) running.old running.new) }
    ensures fewer { IfOk result (λ did. to_do (length running.new.below.items) did ≤ 2048 * length running.old.below.items) }
{
    if running.below.is_empty() {
        running.stack.close_from(&mut running.heap, 0);
        return Ok(Did::Ends);
    }
    let (landing, _) = leave(running);
    land_top(alloc, running, functions, landing, values)
}

/// RETURN.
pub fn return_word(
    alloc: Global,
    running: &mut Running,
    functions: &[Function],
    i: Instr,
) -> Result<Did, AllocError>
    requires safe { IsSafe functions.now running.old }
    requires fits { (f : TheFunction) → slice_get functions.now running.old.top.function ≡ Some f → FitsFrame op.Return f (top running.old.stack.frames) running.old.top.results (length (cells_in running.old.heap running.old.top.closure)) running.old.top.pc i }
    ensures does { IfOk result (DoesSeen functions.now (λ m. effect op.Return m i) running.old running.new) }
{
    let registers = running.stack.registers();
    let values = listed(
        alloc,
        registers,
        &mut running.top.results,
        i.a,
        count_of(i.b),
    )?;
    let values = worked(alloc, running.top.protections, values)?;
    give(alloc, running, functions, values)
}

// Words in the topmost frame.
ghost use Rattle.std.specs.Prelude.{◌≡◌, ◌<◌, slice_get, Some, IfOk, OnOk, IfSome, IfNone, OnSome};
ghost use Rattle.lua_heap.specs.State.{AreOf};
ghost use Rattle.rules.specs.State.{State};
ghost use Rattle.rules.specs.Calls.{land as land_in};
ghost use Rattle.rules.specs.Step.{effect};
ghost use Rattle.upvalue.specs.State.{top, with_top};
ghost use Rattle.upvalue.specs.Shared.{Shares};
ghost use Rattle.machine.specs.declared.function.Function.{Function as TheFunction};
ghost use Rattle.machine.specs.declared.did.Did.{Did as TheDid};
ghost use Rattle.machine.specs.Decoded.{instr_in};
ghost use Rattle.machine.specs.Fits.{Fits, IsPlain, IsInner, IsOther};
ghost use Rattle.machine.specs.Frames.{data_of, landing_of, showing};
ghost use Rattle.machine.specs.Memory.{NeedsNone};
ghost use Rattle.machine.specs.Whole.{IsWaiting, IsSafe, DoesSeen};
ghost use Rattle.machine.specs.Words.{Does, Runs, calls_of, calls_left};

use crate::did::{Did, Landing};
use crate::function::Function;
use crate::running::Running;
use crate::word::Word;
use crate::words::{land, perform, quick};
use lua_heap::ValueList;
use opcode::Instr;
use std::alloc::{AllocError, Global};

/// Does a word that works on nothing but the registers of the topmost frame, its function and the heap. The pc of the frame is that behind
/// the word.
pub fn perform_plain(
    alloc: Global,
    running: &mut Running,
    functions: &[Function],
    i: Instr,
) -> Result<Did, AllocError>
    requires safe { IsSafe functions.now running.old }
    requires plain { IsPlain i.op }
    requires other { IsOther i.op }
    requires fits { (f : TheFunction) → slice_get functions.now running.old.top.function ≡ Some f → Fits i.op f (top running.old.stack.frames) running.old.top.pc i }
    ensures does { IfOk result (DoesSeen functions.now (λ m. effect i.op m i) running.old running.new) }
    ensures below { running.new.below ≡ running.old.below }
{
    perform_top(alloc, running, &functions[running.top.function], i)
}

/// Does a word of the topmost frame in place that works on no cells, where it is a common one, and answers the pc that it goes on to; where it is
/// not, nothing is done. The pc is that behind the word, whatever the pc of the frame.
pub fn quick_at(running: &mut Running, function: &Function, pc: usize, word: Word) -> Option<usize>
    requires shares { Shares running.old.stack running.old.heap }
    requires constants { AreOf running.old.heap function.now.constants.items }
    requires inner { IsInner word.op }
    requires fits { Fits word.op function.now (top running.old.stack.frames) pc (instr_in word) }
    ensures some { IfSome result (λ next. Does (λ m. effect word.op m (instr_in word)) running.old.heap running.new.heap function.now (top running.old.stack.frames) (top running.new.stack.frames) pc (TheDid.Jumps next)) }
    ensures frames { OnSome result (running.new.stack.frames ≡ with_top running.old.stack.frames (top running.new.stack.frames)) }
    ensures shares { OnSome result (Shares running.new.stack running.new.heap) }
    ensures rest { running.new ≡ record running.old { heap = running.new.heap; stack = running.new.stack } }
    ensures none { IfNone result (running.new ≡ running.old) }
    ensures other { IfNone result (IsOther word.op) }
    ensures taken { IfNone result ((m : State) → Runs m running.old.heap function.now pc → NeedsNone word.op (showing m running.old.heap (top running.old.stack.frames)) (instr_in word) → ⊥) }
{
    let base = running.stack.base();
    let registers = &mut running.stack.all_registers()[base..];
    quick(&mut running.heap, registers, function, pc, word)
}

/// Results to where a landing of the topmost frame says.
pub fn land_top(
    alloc: Global,
    running: &mut Running,
    functions: &[Function],
    landing: Landing,
    values: ValueList,
) -> Result<Did, AllocError>
    requires safe { IsSafe functions.now running.old }
    requires values { AreOf running.old.heap values }
    requires waiting { IsWaiting functions.now landing running.old.top (top running.old.stack.frames) }
    ensures does { IfOk result (DoesSeen functions.now (λ m. land_in (landing_of landing) m (data_of running.old.heap values)) running.old running.new) }
    ensures below { running.new.below ≡ running.old.below }
    ensures falls { IfOk result (λ did. calls_left did < calls_of landing) }
{
    let function = &functions[running.top.function];
    let base = running.stack.base();
    let pc = running.top.pc;
    let registers = &mut running.stack.all_registers()[base..];
    land(
        alloc,
        &mut running.heap,
        registers,
        function,
        pc,
        landing,
        values,
    )
}

fn perform_top(
    alloc: Global,
    running: &mut Running,
    function: &Function,
    i: Instr,
) -> Result<Did, AllocError>
    requires shares { Shares running.old.stack running.old.heap }
    requires constants { AreOf running.old.heap function.now.constants.items }
    requires plain { IsPlain i.op }
    requires other { IsOther i.op }
    requires fits { Fits i.op function.now (top running.old.stack.frames) running.old.top.pc i }
    ensures did { IfOk result (Does (λ m. effect i.op m i) running.old.heap running.new.heap function.now (top running.old.stack.frames) (top running.new.stack.frames) running.old.top.pc) }
    ensures frames { OnOk result (running.new.stack.frames ≡ with_top running.old.stack.frames (top running.new.stack.frames)) }
    ensures shares { OnOk result (Shares running.new.stack running.new.heap) }
    ensures rest { running.new ≡ record running.old { heap = running.new.heap; stack = running.new.stack } }
{
    let base = running.stack.base();
    let pc = running.top.pc;
    let registers = &mut running.stack.all_registers()[base..];
    perform(alloc, &mut running.heap, registers, function, pc, i)
}

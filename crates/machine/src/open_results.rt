// Words that take or leave open results: CALL, SETLIST and VARARG (manual 2.5.7, 2.5.8 and 2.5.9).
ghost use Rattle.std.specs.Prelude.{◌≡◌, ◌+◌, ◌<◌, List, slice_get, length, Some, IfOk};
ghost use Rattle.opcode.specs.declared.op.Op.TheVariants as op;
ghost use Rattle.rules.specs.Step.{effect, list_of, do_setlist};
ghost use Rattle.upvalue.specs.State.{top};
ghost use Rattle.upvalue.specs.Shared.{Shares};
ghost use Rattle.machine.specs.declared.function.Function.{Function as TheFunction};
ghost use Rattle.machine.specs.Fits.{FitsFrame};
ghost use Rattle.machine.specs.Seen.{cells_in};
ghost use Rattle.machine.specs.Whole.{IsSafe, DoesSeen};
ghost use Rattle.machine.specs.Words.{IsListed, AreResultsOf};

use crate::did::{Did, OpenResults};
use crate::function::Function;
use crate::running::Running;
use crate::words::{call, count_of, put_all, set_list};
use lua_heap::ValueList;
use opcode::Instr;
use std::alloc::{AllocError, Global};

/// CALL.
pub fn call_word(
    alloc: Global,
    running: &mut Running,
    functions: &[Function],
    i: Instr,
) -> Result<Did, AllocError>
    requires safe { IsSafe functions.now running.old }
    requires fits { (f : TheFunction) → slice_get functions.now running.old.top.function ≡ Some f → FitsFrame op.Call f (top running.old.stack.frames) running.old.top.results (length (cells_in running.old.heap running.old.top.closure)) running.old.top.pc i }
    ensures does { IfOk result (DoesSeen functions.now (λ m. effect op.Call m i) running.old running.new) }
{
    call(
        alloc,
        running.stack.registers(),
        &mut running.top.results,
        i,
    )
}

/// SETLIST, with the block number behind it where its C is 0.
pub fn set_list_word(
    alloc: Global,
    running: &mut Running,
    functions: &[Function],
    i: Instr,
) -> Result<Did, AllocError>
    requires safe { IsSafe functions.now running.old }
    requires fits { (f : TheFunction) → slice_get functions.now running.old.top.function ≡ Some f → FitsFrame op.SetList f (top running.old.stack.frames) running.old.top.results (length (cells_in running.old.heap running.old.top.closure)) running.old.top.pc i }
    ensures does { IfOk result (DoesSeen functions.now (λ m. effect op.SetList m i) running.old running.new) }
{
    if i.c != 0 {
        return set_list_block(alloc, running, i, i.c);
    }
    let block = functions[running.top.function].code[running.top.pc];
    running.top.pc += 1;
    set_list_block(alloc, running, i, block)
}

/// SETLIST with this block number.
fn set_list_block(
    alloc: Global,
    running: &mut Running,
    i: Instr,
    block: u32,
) -> Result<Did, AllocError>
    requires shares { Shares running.old.stack running.old.heap }
    requires results { AreResultsOf running.old.heap running.old.top.results }
    requires a { i.a < length (top running.old.stack.frames) }
    requires field { i.a < 256 }
    requires block { 0 < block }
    requires there { IsListed (top running.old.stack.frames) running.old.top.results (i.a + 1) (list_of i.b) }
    ensures { IfOk result (λ did. (functions : List TheFunction) (f : TheFunction) → slice_get functions running.old.top.function ≡ Some f → DoesSeen functions (λ m. do_setlist m i block) running.old running.new did) }
{
    set_list(
        alloc,
        &mut running.heap,
        running.stack.registers(),
        &mut running.top.results,
        i,
        block,
    )
}

/// VARARG: so many of the further arguments to registers, or all as open results.
pub fn vararg(
    alloc: Global,
    running: &mut Running,
    functions: &[Function],
    i: Instr,
) -> Result<Did, AllocError>
    requires safe { IsSafe functions.now running.old }
    requires fits { (f : TheFunction) → slice_get functions.now running.old.top.function ≡ Some f → FitsFrame op.Vararg f (top running.old.stack.frames) running.old.top.results (length (cells_in running.old.heap running.old.top.closure)) running.old.top.pc i }
    ensures does { IfOk result (DoesSeen functions.now (λ m. effect op.Vararg m i) running.old running.new) }
{
    match count_of(i.b) {
        Some(count) => {
            let base = running.stack.base();
            let registers = &mut running.stack.all_registers()[base..];
            put_all(
                registers,
                i.a as usize,
                count as usize,
                running.top.extra.items(),
            );
            Ok(Did::Next)
        }
        None => {
            let values = ValueList::from_slice(alloc, running.top.extra.items())?;
            Ok(Did::Opens(OpenResults { first: i.a, values }))
        }
    }
}

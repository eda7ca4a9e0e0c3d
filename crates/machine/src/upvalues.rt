// Words of upvalues (manual 2.6).
ghost use Rattle.std.specs.Prelude.{◌≡◌, ◌<◌, ℕ, List, length, get_or};
ghost use Rattle.opcode.specs.declared.op.Op.TheVariants as op;
ghost use Rattle.rules.specs.Step.{effect};
ghost use Rattle.upvalue.specs.State.{top};
ghost use Rattle.upvalue.specs.Shared.{Shares};
ghost use Rattle.machine.specs.declared.function.Function.{Function};
ghost use Rattle.machine.specs.declared.did.Did.TheVariants.{Next};
ghost use Rattle.machine.specs.Ready.{with_pc};
ghost use Rattle.machine.specs.Seen.{cells_in};
ghost use Rattle.machine.specs.Whole.{IsClosureOf, DoesSeen};

use crate::running::Running;
use lua_heap::CellId;
use opcode::Instr;

/// The cell of an upvalue of the running function.
pub fn upvalue(running: &Running, slot: u32) -> CellId
    requires closure { IsClosureOf running.now.heap running.now.top.closure }
    requires slot { slot < length (cells_in running.now.heap running.now.top.closure) }
    ensures cell { result.index ≡ get_or (cells_in running.now.heap running.now.top.closure) slot 0 }
    ensures there { result.index < length running.now.heap.cells }
{
    match running.top.closure {
        Some(closure) => running.heap.closure_cell(closure, slot as usize),
        None => unreachable!(),
    }
}

/// GETUPVAL.
pub fn get_upvalue(running: &mut Running, i: Instr)
    requires shares { Shares running.old.stack running.old.heap }
    requires closure { IsClosureOf running.old.heap running.old.top.closure }
    requires a { i.a < length (top running.old.stack.frames) }
    requires b { i.b < length (cells_in running.old.heap running.old.top.closure) }
    ensures does { (functions : List Function) (pc : ℕ) → DoesSeen functions (λ m. effect op.GetUpval m i) (with_pc running.old pc) (with_pc running.new pc) Next }
    ensures top { running.new.top ≡ running.old.top }
{
    let cell = upvalue(running, i.b);
    let value = running.stack.read_cell(&running.heap, cell);
    running.stack.write(i.a as usize, value);
}

/// SETUPVAL.
pub fn set_upvalue(running: &mut Running, i: Instr)
    requires shares { Shares running.old.stack running.old.heap }
    requires closure { IsClosureOf running.old.heap running.old.top.closure }
    requires a { i.a < length (top running.old.stack.frames) }
    requires b { i.b < length (cells_in running.old.heap running.old.top.closure) }
    ensures does { (functions : List Function) (pc : ℕ) → DoesSeen functions (λ m. effect op.SetUpval m i) (with_pc running.old pc) (with_pc running.new pc) Next }
    ensures top { running.new.top ≡ running.old.top }
{
    let cell = upvalue(running, i.b);
    let value = running.stack.read(i.a as usize);
    running.stack.write_cell(&mut running.heap, cell, value);
}

/// CLOSE.
pub fn close(running: &mut Running, i: Instr)
    requires shares { Shares running.old.stack running.old.heap }
    requires a { i.a < length (top running.old.stack.frames) }
    ensures does { (functions : List Function) (pc : ℕ) → DoesSeen functions (λ m. effect op.Close m i) (with_pc running.old pc) (with_pc running.new pc) Next }
    ensures top { running.new.top ≡ running.old.top }
{
    running.stack.close_from(&mut running.heap, i.a as usize);
}

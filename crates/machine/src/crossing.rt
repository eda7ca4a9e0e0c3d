// Common calls and returns between Lua functions, done in place: no list is made of their values.
ghost use Rattle.std.specs.Prelude.{◌≡◌, ◌+◌, ◌<◌, suc, slice_get, length, take, drop, Some, IfOk, OnOk, IsTrue, IsFalse};
ghost use Rattle.opcode.specs.declared.op.Op.TheVariants as op;
ghost use Rattle.lua_model.specs.declared.Value.{Value as TheValue};
ghost use Rattle.lua_model.specs.Operators.{depth_limit};
ghost use Rattle.lua_heap.specs.State.{AreOf};
ghost use Rattle.rules.specs.State.{fixed};
ghost use Rattle.rules.specs.Cells.{close_from};
ghost use Rattle.rules.specs.Calls.{give_to, land as land_in};
ghost use Rattle.rules.specs.Step.{effect};
ghost use Rattle.upvalue.specs.State.{top};
ghost use Rattle.machine.specs.declared.did.Did.TheVariants.{Next};
ghost use Rattle.machine.specs.declared.did.Landing.{Landing as TheLanding};
ghost use Rattle.machine.specs.declared.function.Function.{Function as TheFunction};
ghost use Rattle.machine.specs.Decoded.{instr_in};
ghost use Rattle.machine.specs.Fits.{FitsFrame};
ghost use Rattle.machine.specs.Frames.{data_of};
ghost use Rattle.machine.specs.Ready.{FitsHere, GoesOn};
ghost use Rattle.machine.specs.Seen.{cells_in};
ghost use Rattle.machine.specs.Whole.{IsClosureOf, IsSafe, DoesSeen};
ghost use Rattle.machine.specs.Words.{AreThere};

use crate::did::Landing;
use crate::entering::{DEPTH_LIMIT, enter};
use crate::function::Function;
use crate::leaving::leave;
use crate::running::Running;
use crate::word::Word;
use crate::words::{count_of, put_all, results_to};
use lua_model::{ClosureId, Value};
use opcode::{Instr, Op};
use std::alloc::{AllocError, Global};

/// Does a common CALL or RETURN, and goes on in the frame that is then the topmost one; the pc of the frame is that behind the word. `false` where
/// it is another word, or asks for more: then nothing is done. Where memory runs out the machine is only dropped.
pub fn cross(
    alloc: Global,
    running: &mut Running,
    functions: &[Function],
    word: Word,
) -> Result<bool, AllocError>
    requires safe { IsSafe functions.now running.old }
    requires fits { (f : TheFunction) → slice_get functions.now running.old.top.function ≡ Some f → FitsHere functions.now f running.old (instr_in word) }
    ensures done { IfOk result (λ done. IsTrue done → GoesOn functions.now (instr_in word) running.old running.new) }
    ensures not_done { IfOk result (λ done. IsFalse done → running.new ≡ running.old) }
{
    match word.op {
        Op::Call => call_in_place(alloc, running, functions, word.abc()),
        Op::Return => Ok(return_in_place(running, functions, word.abc())),
        _ => Ok(false),
    }
}

/// CALL of a Lua function with at most three arguments: its frame is made. `false` where it is another call, or where no frame may be
/// above; then nothing is done. Where memory runs out the machine is only dropped.
fn call_in_place(
    alloc: Global,
    running: &mut Running,
    functions: &[Function],
    i: Instr,
) -> Result<bool, AllocError>
    requires safe { IsSafe functions.now running.old }
    requires fits { (f : TheFunction) → slice_get functions.now running.old.top.function ≡ Some f → FitsFrame op.Call f (top running.old.stack.frames) running.old.top.results (length (cells_in running.old.heap running.old.top.closure)) running.old.top.pc i }
    ensures done { IfOk result (λ done. IsTrue done → DoesSeen functions.now (λ m. effect op.Call m i) running.old running.new Next) }
    ensures not_done { IfOk result (λ done. IsFalse done → running.new ≡ running.old) }
{
    let Value::Closure(closure) = running.stack.read(i.a as usize) else {
        return Ok(false);
    };
    if running.below.len() >= DEPTH_LIMIT {
        return Ok(false);
    }
    let first = i.a as usize + 1;
    match i.b {
        1 => call_with(alloc, running, functions, i, closure, &[])?,
        2 => {
            let x = running.stack.read(first);
            call_with(alloc, running, functions, i, closure, &[x])?
        }
        3 => {
            let x = running.stack.read(first);
            let y = running.stack.read(first + 1);
            call_with(alloc, running, functions, i, closure, &[x, y])?
        }
        4 => {
            let x = running.stack.read(first);
            let y = running.stack.read(first + 1);
            let z = running.stack.read(first + 2);
            call_with(alloc, running, functions, i, closure, &[x, y, z])?
        }
        _ => return Ok(false),
    }
    Ok(true)
}

/// CALL of this closure with these arguments, which stand in the registers behind it. What makes a frame is inlined here, once for all numbers of arguments.
#[inline(never)]
fn call_with(
    alloc: Global,
    running: &mut Running,
    functions: &[Function],
    i: Instr,
    closure: ClosureId,
    args: &[Value],
) -> Result<(), AllocError>
    requires safe { IsSafe functions.now running.old }
    requires fits { (f : TheFunction) → slice_get functions.now running.old.top.function ≡ Some f → FitsFrame op.Call f (top running.old.stack.frames) running.old.top.results (length (cells_in running.old.heap running.old.top.closure)) running.old.top.pc i }
    requires depth { length running.old.below.items < depth_limit }
    requires callee { slice_get (top running.old.stack.frames) i.a ≡ Some (TheValue.Closure closure) }
    requires closure { IsClosureOf running.old.heap (Some closure) }
    requires count { i.b ≡ suc (length args.now) }
    requires args { args.now ≡ take (length args.now) (drop (i.a + 1) (top running.old.stack.frames)) }
    ensures { OnOk result (DoesSeen functions.now (λ m. effect op.Call m i) running.old running.new Next) }
{
    let number = running.heap.closure_function(closure);
    let landing = results_to(i.a, count_of(i.c));
    enter(alloc, running, functions, number, closure, args, landing, 0)?;
    Ok(())
}

/// RETURN of at most one value, from a function in no protected call, to registers of the function that called it: the frame is left. `false`
/// where it is another return; then nothing is done. It takes no memory.
fn return_in_place(running: &mut Running, functions: &[Function], i: Instr) -> bool
    requires safe { IsSafe functions.now running.old }
    requires fits { (f : TheFunction) → slice_get functions.now running.old.top.function ≡ Some f → FitsFrame op.Return f (top running.old.stack.frames) running.old.top.results (length (cells_in running.old.heap running.old.top.closure)) running.old.top.pc i }
    ensures done { IsTrue result → DoesSeen functions.now (λ m. effect op.Return m i) running.old running.new Next }
    ensures not_done { IsFalse result → running.new ≡ running.old }
{
    if running.top.protections > 0 || running.below.is_empty() {
        return false;
    }
    let Landing::Fixed { a, count } = running.top.landing else {
        return false;
    };
    match i.b {
        1 => {
            give_fixed(running, functions, a, count, &[]);
            true
        }
        2 => {
            let value = running.stack.read(i.a as usize);
            give_fixed(running, functions, a, count, &[value]);
            true
        }
        _ => false,
    }
}

/// Leaves the topmost frame with values, of which so many go to the registers of the frame below from one on.
fn give_fixed(running: &mut Running, functions: &[Function], a: u32, count: u32, values: &[Value])
    requires safe { IsSafe functions.now running.old }
    requires frame { 0 < length running.old.below.items }
    requires landing { running.old.top.landing ≡ TheLanding.Fixed a count }
    requires values { AreOf running.old.heap values.now }
    ensures { DoesSeen functions.now (λ m. give_to m.below (close_from m 0) m.top.landing (data_of running.old.heap values.now)) running.old running.new Next }
{
    leave(running);
    put_fixed(running, functions, a, count, values);
}

/// So many of these values to the registers of the topmost frame from one on, nil where there are fewer.
fn put_fixed(running: &mut Running, functions: &[Function], a: u32, count: u32, values: &[Value])
    requires safe { IsSafe functions.now running.old }
    requires there { AreThere (top running.old.stack.frames) a count }
    requires values { AreOf running.old.heap values.now }
    ensures { DoesSeen functions.now (λ m. land_in (fixed a count) m (data_of running.old.heap values.now)) running.old running.new Next }
{
    let base = running.stack.base();
    let registers = &mut running.stack.all_registers()[base..];
    put_all(registers, a as usize, count as usize, values);
}

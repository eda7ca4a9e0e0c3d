// Words that move values.
ghost use Rattle.std.specs.Prelude.{◌≡◌, ℕ, ◌<◌, length};
ghost use Rattle.opcode.specs.declared.op.Op.TheVariants as op;
ghost use Rattle.lua_heap.specs.State.{HeapState, AreOf};
ghost use Rattle.rules.specs.Step.{effect};
ghost use Rattle.machine.specs.declared.function.Function.{Function as TheFunction};
ghost use Rattle.machine.specs.Words.{AreKnown, Does, IsStep};

use crate::did::Did;
use crate::function::Function;
use crate::operands::{constant, register};
use lua_model::Value;
use opcode::Instr;

/// MOVE.
pub fn copy(registers: &mut [Value], i: Instr) -> Did
    requires a { i.a < length registers.old }
    requires b { i.b < length registers.old }
    ensures does { (h : HeapState) (f : TheFunction) (pc : ℕ) → AreOf h registers.old → Does (λ m. effect op.Move m i) h h f registers.old registers.new pc result }
    ensures step { IsStep result }
{
    registers[i.a as usize] = register(registers, i.b);
    Did::Next
}

/// LOADK.
pub fn load_constant(registers: &mut [Value], function: &Function, i: Instr) -> Did
    requires a { i.a < length registers.old }
    requires bx { i.bx < length function.now.constants.items }
    ensures does { (h : HeapState) (pc : ℕ) → AreKnown h function.now registers.old → Does (λ m. effect op.LoadK m i) h h function.now registers.old registers.new pc result }
    ensures step { IsStep result }
{
    registers[i.a as usize] = constant(function, i.bx);
    Did::Next
}

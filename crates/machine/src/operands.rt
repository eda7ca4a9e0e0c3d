// Operands of words.
ghost use Rattle.std.specs.Prelude.{◌≡◌, ◌<◌, ℕ, length, slice_get, Some};
ghost use Rattle.lua_heap.specs.State.{HeapState, IsOf, AreOf, datum};
ghost use Rattle.rules.specs.State.{State, register as register_of, operand as operand_of, constant as constant_of};
ghost use Rattle.machine.specs.Frames.{data_of, showing};
ghost use Rattle.machine.specs.Words.{Runs, AreKnown, IsOperand};

use crate::function::Function;
use lua_model::Value;

/// The value of a register.
pub fn register(registers: &[Value], r: u32) -> Value
    requires there { r < length registers.now }
    ensures at { slice_get registers.now r ≡ Some result }
    ensures value { (h : HeapState) → slice_get (data_of h registers.now) r ≡ Some (datum h result) }
    ensures known { (h : HeapState) → AreOf h registers.now → IsOf h result }
{
    registers[r as usize]
}

/// The value of a constant.
pub fn constant(function: &Function, k: u32) -> Value
    requires there { k < length function.now.constants.items }
    ensures at { slice_get function.now.constants.items k ≡ Some result }
    ensures value { (h : HeapState) (m : State) (pc : ℕ) → Runs m h function.now pc → constant_of m k ≡ Some (datum h result) }
    ensures known { (h : HeapState) → AreOf h function.now.constants.items → IsOf h result }
{
    function.constants[k as usize]
}

/// The value of a register, below 256, or of a constant.
pub fn operand(function: &Function, registers: &[Value], x: u32) -> Value
    requires there { IsOperand function.now registers.now x }
    ensures value { (h : HeapState) (m : State) (pc : ℕ) → Runs m h function.now pc → operand_of (showing m h registers.now) x ≡ Some (datum h result) }
    ensures known { (h : HeapState) → AreKnown h function.now registers.now → IsOf h result }
{
    if x < 256 {
        register(registers, x)
    } else {
        constant(function, x - 256)
    }
}

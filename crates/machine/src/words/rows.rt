// Words that fill registers in a row.
ghost use Rattle.std.specs.Prelude.{◌≡◌, ℕ, ◌-◌, ◌<◌, ◌^◌, suc, length, get_or};
ghost use Rattle.opcode.specs.declared.op.Op.TheVariants as op;
ghost use Rattle.lua_model.specs.declared.Value.TheVariants.{Nil};
ghost use Rattle.lua_model.specs.Datum.{adjusted};
ghost use Rattle.lua_heap.specs.State.{HeapState, AreOf};
ghost use Rattle.rules.specs.State.{State, Goes, set_all, spliced};
ghost use Rattle.rules.specs.Step.{effect};
ghost use Rattle.machine.specs.declared.function.Function.{Function as TheFunction};
ghost use Rattle.machine.specs.Frames.{data_of, showing};
ghost use Rattle.machine.specs.Words.{AreThere, Does, IsStep};

use crate::did::Did;
use lua_model::Value;
use opcode::Instr;

/// The value at a place, nil where there is none.
fn value_or_nil(values: &[Value], k: usize) -> Value
    ensures { result ≡ get_or values.now k Nil }
{
    match values.get(k) {
        Some(v) => *v,
        None => Value::Nil,
    }
}

/// So many of these values to the registers from one on, nil where there are fewer. In time linear in the registers.
pub fn put_all(registers: &mut [Value], first: usize, count: usize, values: &[Value])
    requires there { AreThere registers.old first count }
    ensures put { (h : HeapState) (m : State) → set_all (showing m h registers.old) first (adjusted count (data_of h values.now)) ≡ Goes (showing m h registers.new) }
    ensures spliced { (h : HeapState) → data_of h registers.new ≡ spliced (data_of h registers.old) first (adjusted count (data_of h values.now)) }
    ensures known { (h : HeapState) → AreOf h registers.old → AreOf h values.now → AreOf h registers.new }
    ensures length_is { length registers.new ≡ length registers.old }
{
    for k in 0..count {
        registers[first + k] = value_or_nil(values, k);
    }
}

/// LOADNIL.
pub fn load_nil(registers: &mut [Value], i: Instr) -> Did
    requires field { i.b < 512 }
    requires there { AreThere registers.old i.a (suc i.b - i.a) }
    ensures does { (h : HeapState) (f : TheFunction) (pc : ℕ) → AreOf h registers.old → Does (λ m. effect op.LoadNil m i) h h f registers.old registers.new pc result }
    ensures step { IsStep result }
{
    let count = (i.b + 1).saturating_sub(i.a);
    put_all(registers, i.a as usize, count as usize, &[]);
    Did::Next
}

/// LOADBOOL.
pub fn load_bool(registers: &mut [Value], pc: usize, i: Instr) -> Did
    requires a { i.a < length registers.old }
    requires room { pc < 2 ^ 33 }
    ensures does { (h : HeapState) (f : TheFunction) → AreOf h registers.old → Does (λ m. effect op.LoadBool m i) h h f registers.old registers.new pc result }
    ensures step { IsStep result }
{
    registers[i.a as usize] = Value::Bool(i.b != 0);
    if i.c == 0 {
        Did::Next
    } else {
        Did::Jumps(pc + 1)
    }
}

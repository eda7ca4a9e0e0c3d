// Words of tables and globals (manual 2.2, 2.3 and 2.5.7).
ghost use Rattle.std.specs.Prelude.{◌≡◌, ℕ, ◌<◌, suc, length, Some, IfOk};
ghost use Rattle.opcode.specs.declared.op.Op.TheVariants as op;
ghost use Rattle.lua_heap.specs.State.{HeapState, AreOf};
ghost use Rattle.rules.specs.Step.{effect};
ghost use Rattle.machine.specs.declared.function.Function.{Function as TheFunction};
ghost use Rattle.machine.specs.Words.{AreKnown, IsOperand, IsName, text_of as text_of_value, text_at, Does, IsStep};

use crate::did::Did;
use crate::function::Function;
use crate::operands::{constant, operand, register};
use crate::words::giving::{give, give_nowhere};
use lua_heap::Heap;
use lua_model::{TextId, Value};
use opcode::Instr;
use std::alloc::{AllocError, Global};

/// GETTABLE.
pub fn get_table(
    alloc: Global,
    heap: &mut Heap,
    registers: &mut [Value],
    function: &Function,
    i: Instr,
) -> Result<Did, AllocError>
    requires known { AreKnown heap.old function.now registers.old }
    requires a { i.a < length registers.old }
    requires b { i.b < length registers.old }
    requires c { IsOperand function.now registers.old i.c }
    ensures { IfOk result (λ did. (pc : ℕ) → Does (λ m. effect op.GetTable m i) heap.old heap.new function.now registers.old registers.new pc did) }
{
    let on = register(registers, i.b);
    let key = operand(function, registers, i.c);
    let act = meta_ops::index(alloc, heap, on, key)?;
    Ok(give(registers, i.a, act))
}

/// SELF.
pub fn get_method(
    alloc: Global,
    heap: &mut Heap,
    registers: &mut [Value],
    function: &Function,
    i: Instr,
) -> Result<Did, AllocError>
    requires known { AreKnown heap.old function.now registers.old }
    requires a { suc i.a < length registers.old }
    requires b { i.b < length registers.old }
    requires c { IsOperand function.now registers.old i.c }
    ensures { IfOk result (λ did. (pc : ℕ) → Does (λ m. effect op.Self_ m i) heap.old heap.new function.now registers.old registers.new pc did) }
{
    let on = register(registers, i.b);
    registers[i.a as usize + 1] = on;
    let key = operand(function, registers, i.c);
    let act = meta_ops::index(alloc, heap, on, key)?;
    Ok(give(registers, i.a, act))
}

/// SETTABLE.
pub fn set_table(
    alloc: Global,
    heap: &mut Heap,
    registers: &[Value],
    function: &Function,
    i: Instr,
) -> Result<Did, AllocError>
    requires known { AreKnown heap.old function.now registers.now }
    requires a { i.a < length registers.now }
    requires b { IsOperand function.now registers.now i.b }
    requires c { IsOperand function.now registers.now i.c }
    ensures { IfOk result (λ did. (pc : ℕ) → Does (λ m. effect op.SetTable m i) heap.old heap.new function.now registers.now registers.now pc did) }
{
    let on = register(registers, i.a);
    let key = operand(function, registers, i.b);
    let value = operand(function, registers, i.c);
    let act = meta_ops::set_index(alloc, heap, on, key, value)?;
    Ok(give_nowhere(act))
}

/// NEWTABLE.
pub fn new_table(
    alloc: Global,
    heap: &mut Heap,
    registers: &mut [Value],
    i: Instr,
) -> Result<Did, AllocError>
    requires a { i.a < length registers.old }
    requires known { AreOf heap.old registers.old }
    ensures { IfOk result (λ did. (f : TheFunction) (pc : ℕ) → Does (λ m. effect op.NewTable m i) heap.old heap.new f registers.old registers.new pc did) }
{
    let table = heap.new_table(alloc)?;
    registers[i.a as usize] = Value::Table(table);
    Ok(Did::Next)
}

fn text_of(v: Value) -> Option<TextId>
    ensures { result ≡ text_of_value v }
{
    match v {
        Value::Text(text) => Some(text),
        _ => None,
    }
}

/// The text of a constant that is one.
fn name(function: &Function, k: u32) -> TextId
    requires text { IsName function.now k }
    ensures { text_at function.now k ≡ Some result }
{
    let Some(name) = text_of(constant(function, k)) else {
        unreachable!();
    };
    name
}

/// GETGLOBAL.
pub fn get_global(heap: &Heap, registers: &mut [Value], function: &Function, i: Instr) -> Did
    requires known { AreKnown heap.now function.now registers.old }
    requires a { i.a < length registers.old }
    requires bx { IsName function.now i.bx }
    ensures does { (pc : ℕ) → Does (λ m. effect op.GetGlobal m i) heap.now heap.now function.now registers.old registers.new pc result }
    ensures step { IsStep result }
{
    registers[i.a as usize] = heap.global(name(function, i.bx));
    Did::Next
}

/// SETGLOBAL.
pub fn set_global(
    heap: &mut Heap,
    registers: &[Value],
    function: &Function,
    i: Instr,
) -> Result<Did, AllocError>
    requires known { AreKnown heap.old function.now registers.now }
    requires a { i.a < length registers.now }
    requires bx { IsName function.now i.bx }
    ensures { IfOk result (λ did. (pc : ℕ) → Does (λ m. effect op.SetGlobal m i) heap.old heap.new function.now registers.now registers.now pc did) }
{
    heap.set_global(name(function, i.bx), register(registers, i.a))?;
    Ok(Did::Next)
}

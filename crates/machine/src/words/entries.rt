// Words of tables, done in place where no function is asked.
ghost use Rattle.std.specs.Prelude.{◌≡◌, ◌<◌, ◌≤◌, true, suc, length, IfSome, IfNone, IsTrue, IsFalse};
ghost use Rattle.opcode.specs.declared.op.Op.TheVariants as op;
ghost use Rattle.lua_model.specs.Datum.{Datum, is_nil as is_nil_datum};
ghost use Rattle.lua_model.specs.Acts.{value as value_of_act};
ghost use Rattle.lua_model.specs.Operators.{index as index_in};
ghost use Rattle.lua_heap.specs.State.{datum, own_store, IsOf};
ghost use Rattle.rules.specs.Step.{effect};
ghost use Rattle.machine.specs.declared.did.Did.{Did as TheDid};
ghost use Rattle.rules.specs.State.{State};
ghost use Rattle.machine.specs.Frames.{showing};
ghost use Rattle.machine.specs.Memory.{Reads, Rewrites};
ghost use Rattle.machine.specs.Words.{AreKnown, AsksNone, Does, IsOperand, Runs};

use crate::function::Function;
use crate::operands::{constant, operand, register};
use lua_heap::{Heap, is_nil};
use lua_model::{TableId, Value};
use meta_ops::{Found, look_up};
use opcode::Instr;

/// GETTABLE, where no function is asked and it does not fail. It takes no memory.
pub fn get_entry(
    heap: &Heap,
    registers: &mut [Value],
    function: &Function,
    pc: usize,
    i: Instr,
) -> Option<usize>
    requires known { AreKnown heap.now function.now registers.old }
    requires a { i.a < length registers.old }
    requires b { i.b < length registers.old }
    requires c { IsOperand function.now registers.old i.c }
    ensures some { IfSome result (λ next. Does (λ m. effect op.GetTable m i) heap.now heap.now function.now registers.old registers.new pc (TheDid.Jumps next)) }
    ensures none { IfNone result (registers.new ≡ registers.old) }
    ensures taken { IfNone result ((m : State) → Runs m heap.now function.now pc → Reads (showing m heap.now registers.old) i → ⊥) }
{
    let on = register(registers, i.b);
    let key = operand(function, registers, i.c);
    let found = entry(heap, on, key)?;
    registers[i.a as usize] = found;
    Some(pc)
}

/// SETTABLE of a table, where no handler is asked. It takes memory only for a new entry; where that is not there nothing is done.
pub fn set_entry(
    heap: &mut Heap,
    registers: &[Value],
    function: &Function,
    pc: usize,
    i: Instr,
) -> Option<usize>
    requires known { AreKnown heap.old function.now registers.now }
    requires a { i.a < length registers.now }
    requires b { IsOperand function.now registers.now i.b }
    requires c { IsOperand function.now registers.now i.c }
    ensures some { IfSome result (λ next. Does (λ m. effect op.SetTable m i) heap.old heap.new function.now registers.now registers.now pc (TheDid.Jumps next)) }
    ensures none { IfNone result (heap.new ≡ heap.old) }
    ensures taken { IfNone result ((m : State) → Runs m heap.old function.now pc → Rewrites (showing m heap.old registers.now) i → ⊥) }
{
    let Value::Table(table) = register(registers, i.a) else {
        return None;
    };
    let key = operand(function, registers, i.b);
    if is_nil(key) || !asks_none(heap, table, heap.raw_get(table, key)) {
        return None;
    }
    let value = operand(function, registers, i.c);
    // What the heap refuses leaves it as it was.
    match heap.raw_set(table, key, value) {
        Ok(()) => Some(pc),
        Err(_) => None,
    }
}

/// SELF under a constant, where no function is asked and it does not fail. It takes no memory.
pub fn get_method_entry(
    heap: &Heap,
    registers: &mut [Value],
    function: &Function,
    pc: usize,
    i: Instr,
) -> Option<usize>
    requires known { AreKnown heap.now function.now registers.old }
    requires a { suc i.a < length registers.old }
    requires b { i.b < length registers.old }
    requires c { IsOperand function.now registers.old i.c }
    ensures some { IfSome result (λ next. Does (λ m. effect op.Self_ m i) heap.now heap.now function.now registers.old registers.new pc (TheDid.Jumps next)) }
    ensures none { IfNone result (registers.new ≡ registers.old) }
    ensures taken { IfNone result ((m : State) → Runs m heap.now function.now pc → 256 ≤ i.c → Reads (showing m heap.now registers.old) i → ⊥) }
{
    // A key in a register might be the one that the object goes to.
    if i.c < 256 {
        return None;
    }
    let on = register(registers, i.b);
    let key = constant(function, i.c - 256);
    let found = entry(heap, on, key)?;
    registers[i.a as usize + 1] = on;
    registers[i.a as usize] = found;
    Some(pc)
}

/// What is read, where no function is asked for it and nothing fails.
fn entry(heap: &Heap, on: Value, key: Value) -> Option<Value>
    requires on { IsOf heap.now on }
    requires key { IsOf heap.now key }
    ensures value { IfSome result (λ v. index_in (own_store heap.now) (datum heap.now on) (datum heap.now key) ≡ value_of_act (datum heap.now v)) }
    ensures known { IfSome result (λ v. IsOf heap.now v) }
    ensures none { IfNone result ((v : Datum) → index_in (own_store heap.now) (datum heap.now on) (datum heap.now key) ≡ value_of_act v → ⊥) }
{
    // Most reads find an entry at once.
    if let Value::Table(table) = on {
        let found = heap.raw_get(table, key);
        if !is_nil(found) {
            return Some(found);
        }
    }
    match look_up(heap, on, key) {
        Found::Value(value) => Some(value),
        Found::Handler { .. } | Found::NoTable(_) | Found::NoEnd => None,
    }
}

/// Whether no handler is asked for a write to an entry of a table: it is not nil, or the table has no such handler.
fn asks_none(heap: &Heap, table: TableId, entry: Value) -> bool
    requires { table.index < length heap.now.tables }
    ensures none { IsTrue result → AsksNone (own_store heap.now) table.index (datum heap.now entry) }
    ensures asked { IsFalse result → is_nil_datum (datum heap.now entry) ≡ true }
{
    if !is_nil(entry) {
        return true;
    }
    match heap.metatable(table) {
        Some(metatable) => is_nil(heap.field(metatable, b"__newindex")),
        None => true,
    }
}

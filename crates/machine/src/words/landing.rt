// Where the results of calls land (manual 2.5.8).
ghost use Rattle.std.specs.Prelude.{◌≡◌, ℕ, List, ◌+◌, ◌<◌, ◌≤◌, nat_eq, length, IfOk};
ghost use Rattle.opcode.specs.Word.{truth_field};
ghost use Rattle.lua_model.specs.Datum.{adjusted, first_of, is_true};
ghost use Rattle.lua_heap.specs.State.{HeapState, AreOf, IsOf, datum};
ghost use Rattle.rules.specs.State.{State};
ghost use Rattle.rules.specs.Calls.{branch as branch_of, negated_as, land as land_in, turned as turned_of};
ghost use Rattle.lua_model.specs.declared.Value.{Value as TheValue};
ghost use Rattle.machine.specs.declared.function.Function.{Function as TheFunction};
ghost use Rattle.machine.specs.Frames.{data_of, landing_of, effect_of};
ghost use Rattle.machine.specs.Words.{Runs, IsTest, IsLanding, IsDidOf, IsAwaited, Does, calls_of, calls_left};

use crate::did::{Did, Landing, OpenResults};
use crate::function::Function;
use crate::words::joining::join;
use crate::words::jumps::branch;
use crate::words::rows::put_all;
use lua_heap::{Heap, ValueList, is_nil};
use lua_model::Value;
use std::alloc::{AllocError, Global};

/// The first value, nil where there is none.
fn first(values: &ValueList) -> Value
    ensures value { (h : HeapState) → datum h result ≡ first_of (data_of h values.now) }
    ensures known { (h : HeapState) → AreOf h values.now → IsOf h result }
{
    match values.items() {
        [] => Value::Nil,
        [v, ..] => *v,
    }
}

/// The first result of a handler, as a test with this A: negated or not.
fn land_test(function: &Function, pc: usize, a: u32, negated: bool, value: Value) -> Did
    requires jmp { IsTest function.now pc }
    ensures did { (h : HeapState) (m : State) → Runs m h function.now pc → branch_of m (nat_eq (truth_field (negated_as negated (is_true (datum h value)))) a) ≡ effect_of h result m }
    ensures known { (h : HeapState) → IsDidOf h result }
    ensures awaited { (f : TheFunction) (values : List TheValue) (pc : ℕ) → IsAwaited f values pc result }
    ensures no_calls { calls_left result ≡ 0 }
{
    let truth = value.is_true() != negated;
    branch(function, pc, u32::from(truth) == a)
}

/// The results of a TFORLOOP, its test and its JMP.
fn land_turn(
    registers: &mut [Value],
    function: &Function,
    pc: usize,
    a: u32,
    count: u32,
    values: &[Value],
) -> Did
    requires jmp { IsTest function.now pc }
    requires field { a < 256 }
    requires there { a + 3 + count ≤ length registers.old }
    requires first { a + 3 < length registers.old }
    ensures no_calls { calls_left result ≡ 0 }
    ensures does { (h : HeapState) → AreOf h registers.old → AreOf h values.now → Does (λ m. turned_of m a (adjusted count (data_of h values.now))) h h function.now registers.old registers.new pc result }
{
    let at = a as usize;
    put_all(registers, at + 3, count as usize, values);
    let control = registers[at + 3];
    if is_nil(control) {
        return branch(function, pc, false);
    }
    registers[at + 2] = control;
    branch(function, pc, true)
}

/// Results to where a landing says.
pub fn land(
    alloc: Global,
    heap: &mut Heap,
    registers: &mut [Value],
    function: &Function,
    pc: usize,
    landing: Landing,
    values: ValueList,
) -> Result<Did, AllocError>
    requires known { AreOf heap.old registers.old }
    requires values { AreOf heap.old values }
    requires landing { IsLanding function.now registers.old pc landing }
    ensures does { IfOk result (λ did. Does (λ m. land_in (landing_of landing) m (data_of heap.old values)) heap.old heap.new function.now registers.old registers.new pc did) }
    ensures falls { IfOk result (λ did. calls_left did < calls_of landing) }
{
    match landing {
        Landing::Into { a } => {
            registers[a as usize] = first(&values);
            Ok(Did::Next)
        }
        Landing::Test { a, negated } => {
            let value = first(&values);
            Ok(land_test(function, pc, a, negated, value))
        }
        Landing::Pairs {
            a,
            first: low,
            count,
        } => {
            let value = first(&values);
            join(alloc, heap, registers, a, low, count, value)
        }
        Landing::Fixed { a, count } => {
            put_all(registers, a as usize, count as usize, values.items());
            Ok(Did::Next)
        }
        Landing::Open { a } => Ok(Did::Opens(OpenResults { first: a, values })),
        Landing::Turn { a, count } => Ok(land_turn(
            registers,
            function,
            pc,
            a,
            count,
            values.items(),
        )),
        Landing::Nowhere => Ok(Did::Next),
    }
}

// Where the answers of operators go.
ghost use Rattle.std.specs.Prelude.{◌≡◌, ℕ, List, ◌<◌, length};
ghost use Rattle.lua_model.specs.declared.Value.{Value as TheValue};
ghost use Rattle.lua_heap.specs.State.{HeapState, AreOf, IsOf};
ghost use Rattle.meta_ops.specs.Acts.{use_of, act_of, IsActOf};
ghost use Rattle.rules.specs.State.{State};
ghost use Rattle.rules.specs.Step.{give as give_of, give_test as give_test_of, give_nowhere as give_nowhere_of, is_negated as is_negated_of};
ghost use Rattle.machine.specs.declared.function.Function.{Function as TheFunction};
ghost use Rattle.machine.specs.Frames.{showing, effect_of};
ghost use Rattle.machine.specs.Words.{Runs, IsTest, IsDidOf, IsAwaited};

use crate::did::{Did, Landing};
use crate::function::Function;
use crate::words::jumps::branch;
use lua_model::Value;
use meta_ops::{Act, Then};

/// An answer to a register.
pub fn give(registers: &mut [Value], a: u32, act: Act) -> Did
    requires a { a < length registers.old }
    ensures did { (h : HeapState) (m : State) → give_of (showing m h registers.old) a (act_of h act) ≡ effect_of h result (showing m h registers.new) }
    ensures known { (h : HeapState) → IsActOf h act → IsDidOf h result }
    ensures awaited { (f : TheFunction) (pc : ℕ) → IsAwaited f registers.new pc result }
    ensures registers { (h : HeapState) → IsActOf h act → AreOf h registers.old → AreOf h registers.new }
    ensures length_is { length registers.new ≡ length registers.old }
{
    match act {
        Act::Value(value) => {
            registers[a as usize] = value;
            Did::Next
        }
        Act::Call { handler, args, .. } => Did::Calls {
            landing: Landing::Into { a },
            callee: handler,
            args,
        },
        Act::Fail(value) => Did::Fails(value),
    }
}

/// An answer that goes nowhere.
pub fn give_nowhere(act: Act) -> Did
    ensures did { (h : HeapState) (m : State) → give_nowhere_of m (act_of h act) ≡ effect_of h result m }
    ensures known { (h : HeapState) → IsActOf h act → IsDidOf h result }
    ensures awaited { (f : TheFunction) (values : List TheValue) (pc : ℕ) → IsAwaited f values pc result }
{
    match act {
        Act::Value(_) => Did::Next,
        Act::Call { handler, args, .. } => Did::Calls {
            landing: Landing::Nowhere,
            callee: handler,
            args,
        },
        Act::Fail(value) => Did::Fails(value),
    }
}

/// An answer to a test with this A.
pub fn give_test(function: &Function, pc: usize, a: u32, act: Act) -> Did
    requires jmp { IsTest function.now pc }
    ensures did { (h : HeapState) (m : State) → Runs m h function.now pc → give_test_of m a (act_of h act) ≡ effect_of h result m }
    ensures known { (h : HeapState) → IsActOf h act → IsDidOf h result }
    ensures awaited { (values : List TheValue) → IsAwaited function.now values pc result }
{
    match act {
        Act::Value(value) => branch(function, pc, u32::from(value.is_true()) == a),
        Act::Call {
            handler,
            args,
            then,
        } => Did::Calls {
            landing: Landing::Test {
                a,
                negated: is_negated(then),
            },
            callee: handler,
            args,
        },
        Act::Fail(value) => Did::Fails(value),
    }
}

fn is_negated(then: Then) -> bool
    ensures { result ≡ is_negated_of (use_of then) }
{
    match then {
        Then::Negate => true,
        Then::Take | Then::Truth | Then::Discard => false,
    }
}

// Jumps of words.
ghost use Rattle.std.specs.Prelude.{◌≡◌, ℕ, List, ◌<◌, ◌^◌, ◌+ℤ◌, pos, suc, None, Some, slice_get, option_and_then};
ghost use Rattle.opcode.specs.Reading.{instr_of};
ghost use Rattle.lua_heap.specs.State.{HeapState};
ghost use Rattle.rules.specs.State.{State};
ghost use Rattle.rules.specs.Places.{jmp_of, as_pc};
ghost use Rattle.rules.specs.Calls.{branch as branch_of};
ghost use Rattle.lua_model.specs.declared.Value.{Value as TheValue};
ghost use Rattle.machine.specs.declared.function.Function.{Function as TheFunction};
ghost use Rattle.machine.specs.Frames.{effect_of};
ghost use Rattle.machine.specs.Words.{Runs, IsTest, IsDidOf, IsAwaited, calls_left, IsStep};

use crate::did::Did;
use crate::function::Function;
use crate::word::sbx_of;

/// The distance of the JMP at this pc.
fn distance(function: &Function, pc: usize) -> i32
    requires jmp { IsTest function.now pc }
    ensures { jmp_of (option_and_then instr_of (slice_get function.now.code.items pc)) ≡ Some result }
{
    let bits = function.code[pc];
    sbx_of(bits)
}

/// The pc that a jump by this distance goes to, from the pc after its word.
pub fn jump(pc: usize, s: i32) -> usize
    requires goes { as_pc (pos pc +ℤ s) ≡ None → ⊥ }
    requires room { pc < 2 ^ 33 }
    ensures { as_pc (pos pc +ℤ s) ≡ Some result }
{
    (pc as i64 + i64::from(s)) as usize
}

/// The next JMP is done, or skipped.
pub fn branch(function: &Function, pc: usize, takes: bool) -> Did
    requires jmp { IsTest function.now pc }
    ensures did { (h : HeapState) (m : State) → Runs m h function.now pc → branch_of m takes ≡ effect_of h result m }
    ensures known { (h : HeapState) → IsDidOf h result }
    ensures awaited { (f : TheFunction) (values : List TheValue) (pc : ℕ) → IsAwaited f values pc result }
    ensures no_calls { calls_left result ≡ 0 }
    ensures step { IsStep result }
{
    let behind = pc + 1;
    if takes {
        Did::Jumps(jump(behind, distance(function, pc)))
    } else {
        Did::Jumps(behind)
    }
}

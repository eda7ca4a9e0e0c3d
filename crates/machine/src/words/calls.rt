// Words that call, and that take the arguments of the running function (manual 2.5.8 and 2.5.9).
ghost use Rattle.std.specs.Prelude.{◌≡◌, ℕ, ◌+◌, ◌<◌, ◌≤◌, List, length, IfOk};
ghost use Rattle.lua_model.specs.declared.Value.{Value as TheValue};
ghost use Rattle.opcode.specs.declared.op.Op.TheVariants as op;
ghost use Rattle.lua_heap.specs.State.{HeapState, AreOf};
ghost use Rattle.rules.specs.Step.{effect, count_of as count_in, landing_of as landing_in};
ghost use Rattle.machine.specs.declared.function.Function.{Function as TheFunction};
ghost use Rattle.machine.specs.Frames.{data_of, landing_of};
ghost use Rattle.machine.specs.Words.{IsTest, IsListed, IsLanding, AreResultsOf, AreResultsThere, Does, DoesWith};

use crate::did::{Did, Landing, OpenResults};
use crate::function::Function;
use crate::operands::register;
use crate::words::lists::listed;
use crate::words::rows::put_all;
use lua_heap::ValueList;
use lua_model::Value;
use opcode::Instr;
use std::alloc::{AllocError, Global};

/// A count that stands with one added to it: `None` where it is open.
pub fn count_of(field: u32) -> Option<u32>
    ensures { result ≡ count_in field }
{
    field.checked_sub(1)
}

/// Where the results of a CALL go: so many to the registers from one on, or all as open results.
pub fn results_to(a: u32, count: Option<u32>) -> Landing
    ensures landing { landing_of result ≡ landing_in a count }
    ensures awaited { (f : TheFunction) (registers : List TheValue) (pc : ℕ) → AreResultsThere registers a count → IsLanding f registers pc result }
{
    match count {
        Some(count) => Landing::Fixed { a, count },
        None => Landing::Open { a },
    }
}

/// CALL.
pub fn call(
    alloc: Global,
    registers: &[Value],
    results: &mut Option<OpenResults>,
    i: Instr,
) -> Result<Did, AllocError>
    requires a { i.a < length registers.now }
    requires field { i.a < 256 }
    requires there { IsListed registers.now results.old (i.a + 1) (count_in i.b) }
    requires results { AreResultsThere registers.now i.a (count_in i.c) }
    ensures { IfOk result (λ did. (h : HeapState) (f : TheFunction) (pc : ℕ) → AreOf h registers.now → AreResultsOf h results.old → DoesWith (λ m. effect op.Call m i) h h f registers.now registers.now results.old results.new pc did) }
{
    let callee = register(registers, i.a);
    let args = listed(alloc, registers, results, i.a + 1, count_of(i.b))?;
    Ok(Did::Calls {
        landing: results_to(i.a, count_of(i.c)),
        callee,
        args,
    })
}

/// TFORLOOP.
pub fn call_iterator(
    alloc: Global,
    registers: &[Value],
    function: &Function,
    pc: usize,
    i: Instr,
) -> Result<Did, AllocError>
    requires first { i.a + 3 < length registers.now }
    requires there { i.a + 3 + i.c ≤ length registers.now }
    requires field { i.a < 256 }
    requires jmp { IsTest function.now pc }
    ensures { IfOk result (λ did. (h : HeapState) → AreOf h registers.now → Does (λ m. effect op.TForLoop m i) h h function.now registers.now registers.now pc did) }
{
    let callee = register(registers, i.a);
    let state = register(registers, i.a + 1);
    let control = register(registers, i.a + 2);
    let args = ValueList::from_slice(alloc, &[state, control])?;
    Ok(Did::Calls {
        landing: Landing::Turn { a: i.a, count: i.c },
        callee,
        args,
    })
}

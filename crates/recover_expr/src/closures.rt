// CLOSURE and what it captures.
ghost use Rattle.std.specs.Prelude.{◌≡◌, ◌-◌, false, Some, None, IfOk, IfErr};
ghost use Rattle.recover_expr.specs.Closures.{behind_closure, capture_register, capture_by, captures, closure};
ghost use Rattle.recover_expr.specs.Drafts.{view_read};
ghost use Rattle.recover_expr.specs.Entries.{IsLostOnlyWhere};
ghost use Rattle.recover_expr.specs.Situation.{view_function, view_state};

use crate::function::{Function, Word};
use crate::lost::Lost;
use crate::state::State;
use crate::words::Read;
use core_expr::Core;
use opcode::Op;

/// CLOSURE, with the further words that say what it captures.
pub fn closure(function: &Function, state: &mut State, word: Word) -> Result<Read, Lost>
    ensures read { IfOk result (λ read. Some (view_read read, view_state state.new) ≡ closure (view_function function.now) word (view_state state.old)) }
    ensures lost { IfErr result (IsLostOnlyWhere (closure (view_function function.now) word (view_state state.old) ≡ None)) }
{
    let next = behind_closure(function, word).ok_or(word.lost())?;
    let captures_itself = captures(function, state, word, next)?;
    let core = Core::Function {
        number: word.instr.bx,
        captures_itself,
    };
    Ok(Read::Value { core, next })
}

// The pc behind a CLOSURE and its further words, where these are in the code.
fn behind_closure(function: &Function, word: Word) -> Option<u32>
    ensures { result ≡ behind_closure (view_function function.now) word }
{
    let upvalues = function.upvalues_of(word.instr.bx)?;
    let last = function.last;
    let next = word.next.checked_add(u32::from(upvalues))?;
    (next <= last).then_some(next)
}

// Whether one of the further words up to a pc captures the register that their closure goes to. The locals that they capture are marked.
fn captures(function: &Function, state: &mut State, closure: Word, next: u32) -> Result<bool, Lost>
    ensures captured { IfOk result (λ itself. Some (itself, view_state state.new) ≡ captures (view_function function.now) closure (next - closure.next) closure.next false (view_state state.old)) }
    ensures lost { IfErr result (IsLostOnlyWhere (captures (view_function function.now) closure (next - closure.next) closure.next false (view_state state.old) ≡ None)) }
{
    let mut itself = false;
    for pc in closure.next..next {
        let own = captures_own(function, state, closure, pc)?;
        itself = own || itself;
    }
    Ok(itself)
}

// Whether the further word at a pc captures the register that its closure goes to. A local that it captures is marked.
fn captures_own(
    function: &Function,
    state: &mut State,
    closure: Word,
    pc: u32,
) -> Result<bool, Lost>
    ensures captured { IfOk result (λ itself. Some (itself, view_state state.new) ≡ capture_by (view_function function.now) closure pc (view_state state.old)) }
    ensures lost { IfErr result (IsLostOnlyWhere (capture_by (view_function function.now) closure pc (view_state state.old) ≡ None)) }
{
    let further = function.instr(pc).ok_or(closure.lost())?;
    match further.op {
        Op::GetUpval => Ok(false),
        Op::Move => captures_register(state, closure, further.b),
        _ => Err(closure.lost()),
    }
}

// Whether a register is that which a closure goes to, and no local.
fn captures_register(state: &mut State, closure: Word, register: u32) -> Result<bool, Lost>
    ensures captured { IfOk result (λ itself. Some (itself, view_state state.new) ≡ capture_register closure register (view_state state.old)) }
    ensures lost { IfErr result (IsLostOnlyWhere (capture_register closure register (view_state state.old) ≡ None)) }
{
    if state.locals.capture(register) {
        return Ok(false);
    }
    let own = register == closure.instr.a && register == state.stack.base;
    closure.check(own && state.stack.is_empty())?;
    Ok(true)
}

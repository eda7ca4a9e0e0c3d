// Calls and returns.
ghost use Rattle.std.specs.Prelude.{◌≡◌, ◌<◌, ◌^◌, Some, None, IfOk, IfErr};
ghost use Rattle.core_expr.specs.Values.{view_core};
ghost use Rattle.recover_expr.specs.Drafts.{view_draft, view_read};
ghost use Rattle.recover_expr.specs.Entries.{IsLostOnlyWhere, view_listed};
ghost use Rattle.recover_expr.specs.Situation.{view_function, view_state};
ghost use Rattle.recover_expr.specs.Words.{made_call_of, plain_call, method_call, call, call_written, tail_call, returned_values, returned};

use crate::draft::{Draft, DraftKind};
use crate::function::{Function, Word, is_return};
use crate::lost::{Lost, made_at};
use crate::stack::{Entry, Values};
use crate::state::State;
use crate::steps::StepPart;
use crate::words::Read;
use crate::writing::{written, written_list};
use core_expr::{Core, Cores};
use lua_tree::StatKind;

// The call of the function or the method in the register A, with the arguments behind it.
fn made_call(function: &Function, state: &mut State, word: Word) -> Result<Core, Lost>
    ensures made { IfOk result (λ core. Some (view_core core, view_state state.new) ≡ made_call_of word (view_state state.old)) }
    ensures lost { IfErr result (IsLostOnlyWhere (made_call_of word (view_state state.old) ≡ None)) }
{
    let place = state.stack.place(word.instr.a).ok_or(word.lost())?;
    if state.stack.is_method(place) {
        method_call(function, state, word, place)
    } else {
        plain_call(function, state, word, place)
    }
}

fn plain_call(
    function: &Function,
    state: &mut State,
    word: Word,
    place: usize,
) -> Result<Core, Lost>
    requires { place < 2 ^ 32 }
    ensures made { IfOk result (λ core. Some (view_core core, view_state state.new) ≡ plain_call word place (view_state state.old)) }
    ensures lost { IfErr result (IsLostOnlyWhere (plain_call word place (view_state state.old) ≡ None)) }
{
    let Word { pc, instr, .. } = word;
    let first = place + 1;
    let args = state.stack.pop_list(function.alloc, first, instr.b, pc)?;
    let on = state.stack.pop_at(place, pc)?;
    let call = made_at(pc, Core::call(function.alloc, on, args.cores, args.open))?;
    Ok(call)
}

// A field of a method call counts the value of the method too.
fn method_call(
    function: &Function,
    state: &mut State,
    word: Word,
    place: usize,
) -> Result<Core, Lost>
    requires { place < 2 ^ 32 }
    ensures made { IfOk result (λ core. Some (view_core core, view_state state.new) ≡ method_call word place (view_state state.old)) }
    ensures lost { IfErr result (IsLostOnlyWhere (method_call word place (view_state state.old) ≡ None)) }
{
    let Word { pc, instr, .. } = word;
    word.check(instr.b != 1)?;
    let first = place + 2;
    let field = instr.b.saturating_sub(1);
    let args = state.stack.pop_list(function.alloc, first, field, pc)?;
    let (on, name) = state.stack.pop_method(place, pc)?;
    let call = Core::method(function.alloc, on, name, args.cores, args.open);
    let call = made_at(pc, call)?;
    Ok(call)
}

/// CALL: a statement, or one value, so many, or all.
pub fn call(function: &Function, state: &mut State, word: Word) -> Result<Read, Lost>
    ensures read { IfOk result (λ read. Some (view_read read, view_state state.new) ≡ call (view_function function.now) word (view_state state.old)) }
    ensures lost { IfErr result (IsLostOnlyWhere (call (view_function function.now) word (view_state state.old) ≡ None)) }
{
    let Word { pc, instr, .. } = word;
    let core = made_call(function, state, word)?;
    match instr.c {
        0 => state.stack.push_to(instr.a, Entry::Open(core), pc)?,
        1 => return Ok(Read::Step(call_statement(function, state, word, core)?)),
        count => {
            state.stack.push_to(instr.a, Entry::Value(core), pc)?;
            state.stack.push_more(count.saturating_sub(2))?;
        }
    }
    Ok(Read::Next(word.next))
}

fn call_statement(
    function: &Function,
    state: &mut State,
    word: Word,
    core: Core,
) -> Result<Draft, Lost>
    ensures draft { IfOk result (λ draft. Some (view_draft draft, view_state state.new) ≡ call_written (view_function function.now) word (view_core core, view_state state.old)) }
    ensures lost { IfErr result (IsLostOnlyWhere (call_written (view_function function.now) word (view_core core, view_state state.old) ≡ None)) }
{
    word.check(state.stack.is_empty())?;
    let mut taken = state.taken;
    let call = written(function, state, core, &mut taken)?;
    let levels = call.levels.saturating_add(1);
    let part = StepPart::Statement(StatKind::Call(Box::into_inner(call.exp)));
    Ok(state.draft(DraftKind::Act, word.next, levels, part))
}

/// TAILCALL, with the RETURN behind it.
pub fn tail_call(function: &Function, state: &mut State, word: Word) -> Result<Draft, Lost>
    ensures draft { IfOk result (λ draft. Some (view_draft draft, view_state state.new) ≡ tail_call (view_function function.now) word (view_state state.old)) }
    ensures lost { IfErr result (IsLostOnlyWhere (tail_call (view_function function.now) word (view_state state.old) ≡ None)) }
{
    let core = made_call(function, state, word)?;
    let behind = function.word(word.next)?;
    word.check(word.next < function.last && is_return(behind.instr, word.instr.a, 0))?;
    word.check(state.stack.is_empty() && word.instr.c == 0)?;
    let mut cores = Cores::new(function.alloc);
    cores.push(core)?;
    returned_values(function, state, Values { cores, open: true }, behind.next)
}

fn returned_values(
    function: &Function,
    state: &mut State,
    values: Values,
    next: u32,
) -> Result<Draft, Lost>
    ensures draft { IfOk result (λ draft. Some (view_draft draft, view_state state.new) ≡ returned_values (view_function function.now) next (view_listed values) (view_state state.old)) }
    ensures lost { IfErr result (IsLostOnlyWhere (returned_values (view_function function.now) next (view_listed values) (view_state state.old) ≡ None)) }
{
    let mut taken = state.taken;
    let list = written_list(function, state, values.cores, values.open, &mut taken)?;
    let levels = list.levels.saturating_add(1);
    Ok(state.draft(DraftKind::Return, next, levels, StepPart::Values(list.exps)))
}

/// RETURN of no value, of one in any register, or of several from the next free register on.
pub fn returned(function: &Function, state: &mut State, word: Word) -> Result<Draft, Lost>
    ensures draft { IfOk result (λ draft. Some (view_draft draft, view_state state.new) ≡ returned (view_function function.now) word (view_state state.old)) }
    ensures lost { IfErr result (IsLostOnlyWhere (returned (view_function function.now) word (view_state state.old) ≡ None)) }
{
    let Word { pc, instr, .. } = word;
    let mut cores = Cores::new(function.alloc);
    let values = match instr.b {
        1 => {
            word.check(instr.a == 0)?;
            Values { cores, open: false }
        }
        2 => {
            cores.push(state.pop(function, instr.a, pc)?)?;
            Values { cores, open: false }
        }
        field => {
            word.check(instr.a == state.stack.base)?;
            state.stack.pop_list(function.alloc, 0, field, pc)?
        }
    };
    word.check(state.stack.is_empty())?;
    returned_values(function, state, values, word.next)
}

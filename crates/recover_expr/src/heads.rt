// Heads of loops.
#![tactic(auto, using(crate::proofs::Blames::free_fits))]

ghost use Rattle.std.specs.Prelude.{◌≡◌, ◌+◌, ◌-◌, ◌<◌, true, false, length, take, Some, None, IfSome, IfNone, IfOk, IfErr};
ghost use Rattle.lua_tree.specs.TreeLists.{expressions_of};
ghost use Rattle.lua_tree.specs.View.{view_exp};
ghost use Rattle.core_expr.specs.Writing.{view_written_list};
ghost use Rattle.recover_expr.specs.Declaring.{are_named, head_of, slice_of, head_at, is_one, head_list, head_values, with_head_values, variables_declared, fits_variables, without_step_one, fits_head, head_checked, loop_head};
ghost use Rattle.recover_expr.specs.Drafts.{view_draft};
ghost use Rattle.recover_expr.specs.Entries.{IsLostOnlyWhere};
ghost use Rattle.recover_expr.specs.Faults.{IsFaultOf};
ghost use Rattle.recover_expr.specs.Locals.{IsFaultOnlyWhere};
ghost use Rattle.recover_expr.specs.Situation.{view_function, view_state};

use crate::blame::{bad_local, locals_of, not_scheme};
use crate::draft::{Draft, DraftKind};
use crate::fault::Fault;
use crate::function::{Function, Word};
use crate::lists::adjusted;
use crate::locals::{HIDDEN, own_names};
use crate::lost::Lost;
use crate::state::State;
use crate::steps::StepPart;
use core_expr::WrittenList;
use lua_tree::{Exp, ExpKind, Exps};
use opcode::Op;
use proto::LocVar;

// Whether these are the three hidden locals of a loop.
fn are_named(locals: &[LocVar], first: &[u8], second: &[u8], third: &[u8]) -> bool
    ensures { result ≡ are_named locals.now first.now second.now third.now }
{
    match locals {
        [a, b, c] => {
            a.name.bytes() == first && b.name.bytes() == second && c.name.bytes() == third
        }
        _ => false,
    }
}

// Whether a word behind the values of a loop is that of a loop over numbers, by the locals that start there.
fn head_of(op: Op, locals: &[LocVar]) -> Option<bool>
    ensures { result ≡ head_of op locals.now }
{
    match op {
        Op::ForPrep => {
            are_named(locals, b"(for index)", b"(for limit)", b"(for step)").then_some(true)
        }
        Op::Jmp => are_named(
            locals,
            b"(for generator)",
            b"(for state)",
            b"(for control)",
        ).then_some(false),
        _ => None,
    }
}

// The word at a pc behind the values of a loop, and whether it is that of a loop over numbers. So many locals start there, from one of the list on.
fn head_at(function: &Function, first: usize, count: usize, at: u32) -> Option<(Word, bool)>
    ensures { result ≡ head_at (view_function function.now) first count at }
{
    let locals = slice_of(locals_of(function.proto), first, count)?;
    let word = function.word(at).ok()?;
    let numeric = head_of(word.instr.op, locals)?;
    Some((word, numeric))
}

// So many from one of the list on.
fn slice_of(locals: &[LocVar], first: usize, count: usize) -> Option<&[LocVar]>
    ensures some { IfSome result (λ found. found.now ≡ slice_of locals.now first count) }
    ensures all { IfSome result (λ found. length found.now ≡ count) }
    ensures none { IfNone result (length locals.now < first + count) }
{
    let end = first.checked_add(count)?;
    locals.get(first..end)
}

fn is_one(exp: &Exp) -> bool
    ensures { result ≡ is_one (view_exp exp.now) }
{
    matches!(exp.kind, ExpKind::Number(1))
}

// The values of a loop over numbers. A step of 1 is left out.
fn without_step_one(values: WrittenList) -> WrittenList
    ensures { view_written_list result ≡ head_list true (view_written_list values) }
{
    let WrittenList { exps, levels } = values;
    let exps = Exps::from_vec(without_last_one(exps.into_vec()));
    WrittenList { exps, levels }
}

fn without_last_one(mut exps: Vec<Exp>) -> Vec<Exp>
    ensures { expressions_of result.items ≡ without_step_one (expressions_of exps.items) }
{
    if ends_with_one(exps.as_slice()) {
        let _ = exps.pop();
    }
    exps
}

fn ends_with_one(exps: &[Exp]) -> bool
    ensures one { result ≡ true → expressions_of (take (length exps.now - 1) exps.now) ≡ without_step_one (expressions_of exps.now) }
    ensures other { result ≡ false → expressions_of exps.now ≡ without_step_one (expressions_of exps.now) }
{
    match exps.last() {
        Some(last) => is_one(last),
        None => false,
    }
}

// The three values of a loop.
#[tactic(auto, using(crate::proofs::Declarations::view_length))]
fn head_values(
    function: &Function,
    state: &mut State,
    word: Word,
    numeric: bool,
) -> Result<WrittenList, Lost>
    ensures values { IfOk result (λ values. Some (view_written_list values, view_state state.new) ≡ head_values (view_function function.now) word numeric (view_state state.old)) }
    ensures lost { IfErr result (IsLostOnlyWhere (head_values (view_function function.now) word numeric (view_state state.old) ≡ None)) }
{
    let entries = state.stack.take_from(0, word.pc)?;
    let total = entries.len();
    let mut taken = state.taken;
    let values = adjusted(function, state, entries, HIDDEN, false, word.pc, &mut taken)?;
    head_checked(state, word, total, numeric, values)
}

// The values of a loop from so many entries, where they fit it.
fn head_checked(
    state: &State,
    word: Word,
    total: usize,
    numeric: bool,
    values: WrittenList,
) -> Result<WrittenList, Lost>
    ensures values { IfOk result (λ checked. Some (view_written_list checked, view_state state.now) ≡ head_checked word total numeric (view_written_list values, 0, view_state state.now)) }
    ensures lost { IfErr result (IsLostOnlyWhere (head_checked word total numeric (view_written_list values, 0, view_state state.now) ≡ None)) }
{
    word.check(fits_head(state, word, total, numeric, &values))?;
    Ok(head_list(numeric, values))
}

// Those of a loop over numbers are three single ones from the next free register on.
#[tactic(auto, using(crate::proofs::Declarations::count_is))]
fn fits_head(state: &State, word: Word, total: usize, numeric: bool, values: &WrittenList) -> bool
    ensures { result ≡ fits_head word total numeric (view_written_list values.now, 0, view_state state.now) }
{
    if !numeric {
        return true;
    }
    total == HIDDEN && values.exps.items().len() == HIDDEN && word.instr.a == state.stack.base
}

fn head_list(numeric: bool, values: WrittenList) -> WrittenList
    ensures { view_written_list result ≡ head_list numeric (view_written_list values) }
{
    if numeric {
        without_step_one(values)
    } else {
        values
    }
}

/// The head of a loop, where so many locals start at a pc.
pub fn loop_head(
    function: &Function,
    state: &mut State,
    at: u32,
    count: usize,
) -> Result<Draft, Fault>
    ensures fault { IfErr result (IsFaultOf function.now.proto.now) }
    ensures draft { IfOk result (λ draft. Some (view_draft draft, view_state state.new) ≡ loop_head (view_function function.now) at count (view_state state.old)) }
    ensures refused { IfErr result (IsFaultOnlyWhere (loop_head (view_function function.now) at count (view_state state.old) ≡ None)) }
{
    let first = state.locals.next();
    let Some((word, numeric)) = head_at(function, first, count, at) else {
        return Err(bad_local(function.proto, at));
    };
    let values = head_values(function, state, word, numeric).map_err(Lost::fault)?;
    loop_of(function, state, at, first, word, numeric, values)
}

// The head of a loop with these values: its hidden locals are declared, from one of the list on, and then its variables.
fn loop_of(
    function: &Function,
    state: &mut State,
    at: u32,
    first: usize,
    word: Word,
    numeric: bool,
    values: WrittenList,
) -> Result<Draft, Fault>
    ensures fault { IfErr result (IsFaultOf function.now.proto.now) }
    ensures draft { IfOk result (λ draft. Some (view_draft draft, view_state state.new) ≡ with_head_values (view_function function.now) at first word numeric (view_written_list values, view_state state.old)) }
    ensures refused { IfErr result (IsFaultOnlyWhere (with_head_values (view_function function.now) at first word numeric (view_written_list values, view_state state.old) ≡ None)) }
{
    let step = Some(state.step);
    state.locals.declare(function.proto, HIDDEN, at, step)?;
    variables_declared(function, state, first, word, numeric, values)
}

// The head of a loop whose hidden locals are declared: its variables are declared too.
fn variables_declared(
    function: &Function,
    state: &mut State,
    first: usize,
    word: Word,
    numeric: bool,
    values: WrittenList,
) -> Result<Draft, Fault>
    ensures fault { IfErr result (IsFaultOf function.now.proto.now) }
    ensures draft { IfOk result (λ draft. Some (view_draft draft, view_state state.new) ≡ variables_declared (view_function function.now) word numeric first (view_written_list values) (view_state state.old) (view_state state.old).scope) }
    ensures refused { IfErr result (IsFaultOnlyWhere (variables_declared (view_function function.now) word numeric first (view_written_list values) (view_state state.old) (view_state state.old).scope ≡ None)) }
{
    let variables = state.locals.starting(function.proto, word.next);
    if !fits_variables(numeric, variables) {
        return Err(not_scheme(word.pc));
    }
    let first_variable = state.locals.next();
    let step = Some(state.step);
    state
        .locals
        .declare(function.proto, variables, word.next, step)?;
    let names = own_names(
        function.alloc,
        function.proto,
        first_variable,
        variables,
        word.next,
    )?;
    let kind = DraftKind::Head {
        numeric,
        foot: function.target(word)?,
        first,
        variables,
    };
    let WrittenList { exps, levels } = values;
    let part = StepPart::Head {
        values: exps,
        names,
    };
    Ok(state.draft(kind, word.next, levels.saturating_add(1), part))
}

// A loop over numbers has one variable, and any other one at least.
fn fits_variables(numeric: bool, variables: usize) -> bool
    ensures { result ≡ fits_variables numeric variables }
{
    if numeric {
        variables == 1
    } else {
        variables > 0
    }
}

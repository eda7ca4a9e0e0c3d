// Declarations of locals, and heads of loops.
#![tactic(auto, using(crate::proofs::Blames::free_fits))]

ghost use Rattle.std.specs.Prelude.{◌≡◌, false, Some, None, map, IfOk, IfErr};
ghost use Rattle.lua_tree.specs.View.{view_statement};
ghost use Rattle.recover_expr.specs.Declaring.{declaration, locals_declared, declared_by, and_captured, captures_itself, is_own_function, only_function, only_name, has_last_nil, ends_with_nil, is_nil_entry, is_one_value, local_function_made, statement_made, without_nil};
ghost use Rattle.recover_expr.specs.Drafts.{view_draft};
ghost use Rattle.recover_expr.specs.Entries.{view_entry, IsLostOnlyWhere};
ghost use Rattle.recover_expr.specs.Faults.{IsFaultOf};
ghost use Rattle.recover_expr.specs.Locals.{IsFaultOnlyWhere, view_locals};
ghost use Rattle.recover_expr.specs.Situation.{view_function, view_state};

use crate::blame::bad_local;
use crate::draft::{Draft, DraftKind};
use crate::fault::Fault;
use crate::function::Function;
use crate::heads::loop_head;
use crate::lists::adjusted;
use crate::locals::{Locals, is_hidden, own_names};
use crate::lost::Lost;
use crate::stack::Entry;
use crate::state::State;
use crate::steps::StepPart;
use core_expr::Core;
use lua_num::{ByteText, Names};
use lua_tree::StatKind;
use std::alloc::AllocError;

/// A statement, and how many levels it needs.
#[derive(Drop)]
struct Made {
    statement: StatKind,
    levels: u32,
}

/// The step that declares so many locals, which start at a pc.
pub fn declaration(
    function: &Function,
    state: &mut State,
    at: u32,
    count: usize,
) -> Result<Draft, Fault>
    ensures fault { IfErr result (IsFaultOf function.now.proto.now) }
    ensures draft { IfOk result (λ draft. Some (view_draft draft, view_state state.new) ≡ declaration (view_function function.now) at count (view_state state.old)) }
    ensures refused { IfErr result (IsFaultOnlyWhere (declaration (view_function function.now) at count (view_state state.old) ≡ None)) }
{
    if is_hidden(function.proto, state.locals.next()) {
        return loop_head(function, state, at, count);
    }
    if count > state.stack.len() {
        return Err(bad_local(function.proto, at));
    }
    locals_declared(function, state, at, count)
}

// The declaration of so many locals by a statement.
fn locals_declared(
    function: &Function,
    state: &mut State,
    at: u32,
    count: usize,
) -> Result<Draft, Fault>
    ensures fault { IfErr result (IsFaultOf function.now.proto.now) }
    ensures draft { IfOk result (λ draft. Some (view_draft draft, view_state state.new) ≡ locals_declared (view_function function.now) at count (view_state state.old)) }
    ensures refused { IfErr result (IsFaultOnlyWhere (locals_declared (view_function function.now) at count (view_state state.old) ≡ None)) }
{
    let first = state.locals.next();
    let names = own_names(function.alloc, function.proto, first, count, at)?;
    let itself = captures_itself(state.stack.entries());
    let made = statement_made(function, state, names, count, itself, at).map_err(Lost::fault)?;
    declared_by(function, state, made, first, count, itself, at)
}

// The statement that declares locals of these names.
fn statement_made(
    function: &Function,
    state: &mut State,
    names: Names,
    count: usize,
    itself: bool,
    at: u32,
) -> Result<Made, Lost>
    ensures made { IfOk result (λ made. Some ((view_statement made.statement, made.levels), view_state state.new) ≡ statement_made (view_function function.now) count (view_state state.old) itself names) }
    ensures lost { IfErr result (IsLostOnlyWhere (statement_made (view_function function.now) count (view_state state.old) itself names ≡ None)) }
{
    if itself {
        local_function(state, names, at)
    } else {
        local(function, state, names, count, at)
    }
}

// The step of a statement that declares so many locals from one of the list on.
fn declared_by(
    function: &Function,
    state: &mut State,
    made: Made,
    first: usize,
    count: usize,
    itself: bool,
    at: u32,
) -> Result<Draft, Fault>
    ensures fault { IfErr result (IsFaultOf function.now.proto.now) }
    ensures draft { IfOk result (λ draft. Some (view_draft draft, view_state state.new) ≡ declared_by (view_function function.now) at count first itself ((view_statement made.statement, made.levels), view_state state.old)) }
    ensures refused { IfErr result (IsFaultOnlyWhere (declared_by (view_function function.now) at count first itself ((view_statement made.statement, made.levels), view_state state.old) ≡ None)) }
{
    let Made { statement, levels } = made;
    let kind = DraftKind::Declaration { first, count };
    let draft = state.draft(kind, at, levels, StepPart::Statement(statement));
    let step = Some(state.step);
    state.locals.declare(function.proto, count, at, step)?;
    capture_own(&mut state.locals, first, itself);
    Ok(draft)
}

// A function that captures the register that it goes to captures its own local.
fn capture_own(locals: &mut Locals, first: usize, itself: bool)
    ensures { view_locals locals.new ≡ and_captured first itself (view_locals locals.old) }
{
    if itself {
        locals.capture_entry(first);
    }
}

fn is_own_function(entry: &Entry) -> bool
    ensures { result ≡ is_own_function (view_entry entry.now) }
{
    matches!(
        entry,
        Entry::Value(Core::Function {
            captures_itself: true,
            ..
        })
    )
}

// Whether one of these is a function that captures the register that it goes to.
fn captures_itself(entries: &[Entry]) -> bool
    ensures { result ≡ captures_itself (map view_entry entries.now) }
{
    entries.iter().any(|entry| is_own_function(entry))
}

// The one name and the one function of a `local function`.
fn local_function(state: &mut State, names: Names, at: u32) -> Result<Made, Lost>
    ensures made { IfOk result (λ made. Some ((view_statement made.statement, made.levels), view_state state.new) ≡ local_function_made names (view_state state.old)) }
    ensures lost { IfErr result (IsLostOnlyWhere (local_function_made names (view_state state.old) ≡ None)) }
{
    let number = only_function(state.stack.entries()).ok_or(Lost::NotScheme { pc: at })?;
    let name = only_name(names).ok_or(Lost::NotScheme { pc: at })?;
    let recovered = state.take_body(number)?;
    let body = recovered.body;
    Ok(Made {
        statement: StatKind::LocalFunction { name, body },
        levels: recovered.levels.saturating_add(2),
    })
}

fn only_name(names: Names) -> Option<ByteText>
    ensures { result ≡ only_name names }
{
    let mut names = names.into_vec();
    let name = names.pop()?;
    names.is_empty().then_some(name)
}

fn only_function(entries: &[Entry]) -> Option<u32>
    ensures { result ≡ only_function (map view_entry entries.now) }
{
    match entries {
        [Entry::Value(Core::Function { number, .. })] => Some(*number),
        _ => None,
    }
}

// Whether the last of the values of so many locals is a nil that can be left out with the same words.
#[tactic(auto, using(crate::proofs::Declarations::view_length))]
fn has_last_nil(entries: &[Entry], count: usize) -> bool
    ensures { result ≡ has_last_nil (map view_entry entries.now) count }
{
    entries.len() == count && ends_with_nil(entries)
}

#[tactic(auto, using(crate::proofs::Declarations::two_last, crate::proofs::Declarations::one_last, crate::proofs::Declarations::none_last))]
fn ends_with_nil(entries: &[Entry]) -> bool
    ensures { result ≡ ends_with_nil (map view_entry entries.now) }
{
    match entries {
        [] => false,
        [last] => is_nil(last),
        [.., before, last] => is_nil(last) && is_one_value(before),
    }
}

fn is_nil(entry: &Entry) -> bool
    ensures { result ≡ is_nil_entry (view_entry entry.now) }
{
    matches!(entry, Entry::Value(Core::Nil))
}

// Whether an entry cannot give several values.
fn is_one_value(entry: &Entry) -> bool
    ensures { result ≡ is_one_value (view_entry entry.now) }
{
    match entry {
        Entry::Value(core) => !core.is_multiple(),
        _ => true,
    }
}

fn local(
    function: &Function,
    state: &mut State,
    names: Names,
    count: usize,
    at: u32,
) -> Result<Made, Lost>
    ensures made { IfOk result (λ made. Some ((view_statement made.statement, made.levels), view_state state.new) ≡ statement_made (view_function function.now) count (view_state state.old) false names) }
    ensures lost { IfErr result (IsLostOnlyWhere (statement_made (view_function function.now) count (view_state state.old) false names ≡ None)) }
{
    let entries = state.stack.take_from(0, at)?;
    let entries = without_nil(entries, count)?;
    let mut taken = state.taken;
    let values = adjusted(function, state, entries, count, true, at, &mut taken)?;
    let exps = values.exps;
    Ok(Made {
        statement: StatKind::Local { names, exps },
        levels: values.levels.saturating_add(1),
    })
}

// The values of so many locals, where a last nil that can be left out is missing.
#[tactic(auto, using(crate::proofs::Declarations::without_last, crate::proofs::Declarations::view_length))]
fn without_nil(mut entries: Vec<Entry>, count: usize) -> Result<Vec<Entry>, AllocError>
    ensures { IfOk result (λ left. map view_entry left.items ≡ without_nil count (map view_entry entries.items)) }
{
    if has_last_nil(entries.as_slice(), count) {
        let _ = entries.pop();
        entries.push(Entry::Missing)?;
    }
    Ok(entries)
}

// Statements of functions.
ghost use Rattle.std.specs.Prelude.{◌≡◌, Some, None, map, option_map, IfOk, IfErr};
ghost use Rattle.lua_tree.specs.Syntax.{function_statement};
ghost use Rattle.lua_tree.specs.View.{view_body, view_statement};
ghost use Rattle.core_expr.specs.Targets.{view_target};
ghost use Rattle.core_expr.specs.Values.{view_core};
ghost use Rattle.recover_expr.specs.Assigning.{view_named, function_number, stored_function, named_function, function_step, function_as, names_before_last, last_name, takes_self, is_self, without_self, all_but_first};
ghost use Rattle.recover_expr.specs.Drafts.{view_draft};
ghost use Rattle.recover_expr.specs.Entries.{view_entry, IsLostOnlyWhere};
ghost use Rattle.recover_expr.specs.Lists.{view_straight};
ghost use Rattle.recover_expr.specs.Situation.{view_function, view_state};

use crate::draft::{Draft, DraftKind};
use crate::function::Function;
use crate::lists::Straight;
use crate::lost::Lost;
use crate::stack::Entry;
use crate::state::State;
use crate::steps::StepPart;
use crate::writing::function_path_of;
use core_expr::{Core, Target};
use lua_num::{ByteText, Names};
use lua_tree::{Body, StatKind};

/// The names that a function gets, and its number.
#[derive(Drop)]
pub struct Named {
    pub path: Names,
    pub number: u32,
}

// The number of a function that does not capture the register that it goes to.
fn function_number(core: &Core) -> Option<u32>
    ensures { result ≡ function_number (view_core core.now) }
{
    match core {
        Core::Function {
            number,
            captures_itself: false,
        } => Some(*number),
        _ => None,
    }
}

// The number of the only function that is stored, where one is.
fn stored_function(straight: &Option<Straight>, values: &[Entry]) -> Option<u32>
    ensures { result ≡ stored_function (option_map view_straight straight.now) (map view_entry values.now) }
{
    match (straight, values) {
        (Some(Straight::Value(core)), _) => function_number(core),
        (None, [Entry::Value(core)]) => function_number(core),
        _ => None,
    }
}

/// What a function statement says, where one can say the assignment of these values to these targets.
pub fn named_function(
    function: &Function,
    state: &State,
    targets: &[Target],
    values: &[Entry],
    straight: &Option<Straight>,
) -> Result<Option<Named>, Lost>
    ensures named { IfOk result (λ named. Some (option_map view_named named) ≡ named_function (view_function function.now) (view_state state.now) (map view_target targets.now) (map view_entry values.now) (option_map view_straight straight.now)) }
    ensures lost { IfErr result (IsLostOnlyWhere (named_function (view_function function.now) (view_state state.now) (map view_target targets.now) (map view_entry values.now) (option_map view_straight straight.now) ≡ None)) }
{
    let ([target], Some(number)) = (targets, stored_function(straight, values)) else {
        return Ok(None);
    };
    let path = function_path_of(function, state, target)?;
    Ok(path.map(|path| Named { path, number }))
}

/// A function statement.
pub fn function_statement(
    state: &mut State,
    path: Names,
    number: u32,
    next: u32,
) -> Result<Draft, Lost>
    ensures draft { IfOk result (λ draft. Some (view_draft draft, view_state state.new) ≡ function_step next (view_state state.old) (path, number)) }
    ensures lost { IfErr result (IsLostOnlyWhere (function_step next (view_state state.old) (path, number) ≡ None)) }
{
    let recovered = state.take_body(number)?;
    let levels = recovered.levels.saturating_add(2);
    let part = StepPart::Statement(function_kind(path, recovered.body));
    Ok(state.draft(DraftKind::Act, next, levels, part))
}

// A function whose first parameter is `self`, in a field, is a method.
fn function_kind(path: Names, body: Body) -> StatKind
    ensures { view_statement result ≡ function_as path (view_body body) }
{
    if path.items().len() > 1 && takes_self(&body) {
        method_kind(path, without_self(body))
    } else {
        StatKind::Function {
            path,
            method: None,
            body,
        }
    }
}

// The last name is that of a method.
fn method_kind(path: Names, body: Body) -> StatKind
    ensures { view_statement result ≡ function_statement (names_before_last path) (last_name path) (view_body body) }
{
    let mut path = path.into_vec();
    let method = path.pop();
    StatKind::Function {
        path: Names::from_vec(path),
        method,
        body,
    }
}

fn takes_self(body: &Body) -> bool
    ensures { result ≡ takes_self (view_body body.now) }
{
    is_self(body.params.items())
}

fn is_self(params: &[ByteText]) -> bool
    ensures { result ≡ is_self params.now }
{
    match params.first() {
        Some(first) => first.bytes() == b"self".as_slice(),
        None => false,
    }
}

// The body without its first parameter.
fn without_self(body: Body) -> Body
    ensures { view_body result ≡ without_self (view_body body) }
{
    let Body {
        params,
        vararg,
        block,
        first_line,
        last_line,
    } = body;
    Body {
        params: all_but_first(params),
        vararg,
        block,
        first_line,
        last_line,
    }
}

fn all_but_first(params: Names) -> Names
    ensures { result ≡ all_but_first params }
{
    let mut params = params.into_vec();
    if !params.is_empty() {
        let _ = params.remove(0);
    }
    Names::from_vec(params)
}

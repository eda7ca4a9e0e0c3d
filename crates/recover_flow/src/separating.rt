// Semicolons before statements that begin with a parenthesis.

ghost use Rattle.std.specs.Prelude.{◌≡◌, OnOk};
ghost use Rattle.lua_tree.specs.TreeLists.{statements_of};
ghost use Rattle.lua_tree.specs.View.{view_exp, view_statement};
ghost use Rattle.recover_flow.specs.Parts.{is_open, begins_open, separated, appended};

use lua_tree::{Exp, ExpKind, Stat, StatKind};
use std::alloc::AllocError;

/// Appends a statement, behind a semicolon where it begins with a parenthesis.
pub fn append(statements: &mut Vec<Stat>, kind: StatKind) -> Result<(), AllocError>
    ensures { OnOk result (statements_of statements.new.items ≡ appended (statements_of statements.old.items) (view_statement kind)) }
{
    if begins_open(&kind) {
        separate(statements);
    }
    statements.push(Stat {
        line: 1,
        semi: false,
        kind,
    })?;
    Ok(())
}

// Puts a semicolon behind the last statement.
fn separate(statements: &mut Vec<Stat>)
    ensures { statements_of statements.new.items ≡ separated (statements_of statements.old.items) }
{
    if let Some(last) = statements.last_mut() {
        last.semi = true;
    }
}

// Whether a statement begins with a parenthesis.
fn begins_open(kind: &StatKind) -> bool
    ensures { result ≡ begins_open (view_statement kind.now) }
{
    match kind {
        StatKind::Assign { targets, .. } => match targets.items() {
            [first, ..] => is_open(first),
            [] => false,
        },
        StatKind::Call(call) => is_open(call),
        _ => false,
    }
}

// Whether an expression begins with a parenthesis.
fn is_open(exp: &Exp) -> bool
    ensures { result ≡ is_open (view_exp exp.now) }
{
    match &exp.kind {
        ExpKind::Paren(_) => true,
        ExpKind::Index { on, .. }
        | ExpKind::Field { on, .. }
        | ExpKind::Call { on, .. }
        | ExpKind::Method { on, .. } => is_open(on),
        _ => false,
    }
}

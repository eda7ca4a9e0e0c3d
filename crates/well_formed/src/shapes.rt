// What may stand where.
ghost use Rattle.std.specs.Prelude.{◌≡◌};
ghost use Rattle.lua_tree.specs.Names.{are_names, are_some_names};
ghost use Rattle.lua_tree.specs.TreeLists.{statements_of, fields_of};
ghost use Rattle.lua_tree.specs.View.{view_exp, view_exps, view_statement, view_args, view_arms};
ghost use Rattle.lua_tree.specs.WellFormed.{is_target, is_call, is_prefix, are_targets, has_expressions, has_branches, ends_item, is_optional_name, on_its_line, begins_with_paren, takes_arguments, statement_begins_with_paren, last_takes_arguments, statement_takes_arguments, ends_block, may_follow};

use lua_num::{ByteText, Names};
use lua_tree::{Args, Arms, Exp, ExpKind, Exps, Item, Separator, Stat, StatKind, is_name};

// What may be assigned to.
fn is_target(exp: &Exp) -> bool
    ensures { result ≡ is_target (view_exp exp.now) }
{
    matches!(
        &exp.kind,
        ExpKind::Name(_) | ExpKind::Index { .. } | ExpKind::Field { .. }
    )
}

pub fn is_call(exp: &Exp) -> bool
    ensures { result ≡ is_call (view_exp exp.now) }
{
    matches!(&exp.kind, ExpKind::Call { .. } | ExpKind::Method { .. })
}

/// Whether an expression may be indexed or called.
pub fn is_prefix(exp: &Exp) -> bool
    ensures { result ≡ is_prefix (view_exp exp.now) }
{
    matches!(&exp.kind, ExpKind::Paren(_)) || is_target(exp) || is_call(exp)
}

pub fn are_targets(exps: &Exps) -> bool
    ensures { result ≡ are_targets (view_exps exps.now) }
{
    for exp in exps.items() {
        if !is_target(exp) {
            return false;
        }
    }
    true
}

pub fn has_expressions(exps: &Exps) -> bool
    ensures { result ≡ has_expressions (view_exps exps.now) }
{
    !exps.items().is_empty()
}

pub fn has_arms(arms: &Arms) -> bool
    ensures { result ≡ has_branches (view_arms arms.now) }
{
    !arms.items().is_empty()
}

pub fn are_names(names: &Names) -> bool
    ensures { result ≡ are_names names.now }
{
    names.items().iter().all(|name| is_name(name.bytes()))
}

/// One name or more.
pub fn are_some_names(names: &Names) -> bool
    ensures { result ≡ are_some_names names.now }
{
    !names.items().is_empty() && are_names(names)
}

pub fn is_optional_name(name: &Option<ByteText>) -> bool
    ensures { result ≡ is_optional_name name.now }
{
    match name {
        Some(name) => is_name(name.bytes()),
        None => true,
    }
}

/// The `(` of arguments stands on the line of the token before it.
pub fn on_its_line(args: &Args, line: u32, on_line: u32) -> bool
    ensures { result ≡ on_its_line (view_args args.now) line on_line }
{
    match args {
        Args::List(_) => line == on_line,
        Args::Text(_) | Args::Table(_) => true,
    }
}

/// An item may have no separator only at the end.
pub fn ends_item(separator: Separator, behind: &[Item]) -> bool
    ensures { result ≡ ends_item separator (fields_of behind.now) }
{
    match separator {
        Separator::Missing => behind.is_empty(),
        Separator::Comma | Separator::Semicolon => true,
    }
}

// Whether the first token of an expression is `(`.
fn begins_with_paren(exp: &Exp) -> bool
    ensures { result ≡ begins_with_paren (view_exp exp.now) }
{
    match &exp.kind {
        ExpKind::Paren(_) => true,
        ExpKind::Index { on, .. } => begins_with_paren(on),
        ExpKind::Field { on, .. } => begins_with_paren(on),
        ExpKind::Call { on, .. } => begins_with_paren(on),
        ExpKind::Method { on, .. } => begins_with_paren(on),
        _ => false,
    }
}

// Whether the first token of a statement is `(`.
fn statement_begins_with_paren(kind: &StatKind) -> bool
    ensures { result ≡ statement_begins_with_paren (view_statement kind.now) }
{
    match kind {
        StatKind::Assign { targets, .. } => match targets.items().first() {
            Some(first) => begins_with_paren(first),
            None => false,
        },
        StatKind::Call(call) => begins_with_paren(call),
        _ => false,
    }
}

// Whether an expression could take arguments behind it.
fn takes_arguments(exp: &Exp) -> bool
    ensures { result ≡ takes_arguments (view_exp exp.now) }
{
    match &exp.kind {
        ExpKind::Binary { right, .. } => takes_arguments(right),
        ExpKind::And(_, right) => takes_arguments(right),
        ExpKind::Or(_, right) => takes_arguments(right),
        ExpKind::Unary { of, .. } => takes_arguments(of),
        _ => is_prefix(exp),
    }
}

fn last_takes_arguments(exps: &Exps) -> bool
    ensures { result ≡ last_takes_arguments (view_exps exps.now) }
{
    match exps.items().last() {
        Some(last) => takes_arguments(last),
        None => false,
    }
}

fn statement_takes_arguments(kind: &StatKind) -> bool
    ensures { result ≡ statement_takes_arguments (view_statement kind.now) }
{
    match kind {
        StatKind::Assign { exps, .. } => last_takes_arguments(exps),
        StatKind::Call(_) => true,
        StatKind::Repeat { cond, .. } => takes_arguments(cond),
        StatKind::Local { exps, .. } => last_takes_arguments(exps),
        _ => false,
    }
}

// `return` and `break` are the last of their block.
fn ends_block(kind: &StatKind) -> bool
    ensures { result ≡ ends_block (view_statement kind.now) }
{
    matches!(kind, StatKind::Return(_) | StatKind::Break)
}

/// Whether these statements may stand behind one.
pub fn may_follow(statement: &Stat, behind: &[Stat]) -> bool
    ensures { result ≡ may_follow (view_statement statement.now.kind) statement.now.semi (statements_of behind.now) }
{
    let Some(next) = behind.first() else {
        return true;
    };
    if ends_block(&statement.kind) {
        return false;
    }
    statement.semi
        || !(statement_takes_arguments(&statement.kind) && statement_begins_with_paren(&next.kind))
}

// Whether a tree is well formed.
ghost use Rattle.std.specs.Prelude.{◌≡◌, ◌-◌, ◌&&◌, IsTrue, ◌↔◌};
ghost use Rattle.lua_tree.specs.TreeLists.{statements_of, branches_of, fields_of};
ghost use Rattle.lua_tree.specs.View.{view_tree, view_block, view_statement, view_arms, view_body, view_exps, view_exp, view_args, view_items};
ghost use Rattle.lua_tree.specs.WellFormed.{WellFormed, may_follow, ends_item};
ghost use Rattle.well_formed.specs.Within.{below, statements_within, statement_within, branches_within, body_within, expressions_within, expression_within, inside_within, arguments_within, fields_within};
ghost use Rattle.well_formed.specs.Held.{arm_within, item_within, last_within, step_is_within};

use crate::binding::{UNARY_LEVEL, is_right_associative, left_binds, level_of_op, right_binds};
use crate::shapes::{
    are_names, are_some_names, are_targets, ends_item, has_arms, has_expressions, is_call,
    is_optional_name, is_prefix, may_follow, on_its_line,
};
use lua_tree::{
    Args, Arm, Arms, Block, Body, Exp, ExpKind, Exps, ItemKind, Items, StatKind, Tree, is_name,
};

// How deep a tree may be.
const DEEPEST: usize = 200;

// How strongly `or` and `and` bind.
const OR_LEVEL: u32 = 1;

const AND_LEVEL: u32 = 2;

/// Whether a tree is well formed: the tokens that it spells are read as it. The time is linear in the tree.
pub fn is_well_formed(tree: &Tree) -> bool
    ensures { IsTrue result ↔ WellFormed (view_tree tree.now) }
{
    are_statements(DEEPEST, &tree.body)
}

// Each of the following: whether a part is well formed, and lies at most so many levels deep.

#[cycle(checking)]
fn are_statements(levels: usize, block: &Block) -> bool
    ensures { result ≡ statements_within levels (view_block block.now) }
{
    let all = block.items();
    for (number, statement) in all.iter().enumerate() {
        if !is_statement(levels, &statement.kind) {
            return false;
        }
        if !may_follow(statement, &all[number + 1..]) {
            return false;
        }
    }
    true
}

#[cycle(checking)]
fn is_statement(levels: usize, kind: &StatKind) -> bool
    ensures { result ≡ below levels (statement_within (levels - 1) (view_statement kind.now)) }
{
    levels > 0 && holds_well(levels - 1, kind)
}

// What a statement holds.
#[cycle(checking)]
fn holds_well(levels: usize, kind: &StatKind) -> bool
    ensures { result ≡ statement_within levels (view_statement kind.now) }
{
    match kind {
        StatKind::Assign { targets, exps } => {
            has_expressions(targets)
                && are_targets(targets)
                && are_expressions(levels, targets)
                && has_expressions(exps)
                && are_expressions(levels, exps)
        }
        StatKind::Call(call) => is_call(call) && is_expression(levels, call),
        StatKind::Do(body) => are_statements(levels, body),
        StatKind::While { cond, body } => {
            is_expression(levels, cond) && are_statements(levels, body)
        }
        StatKind::Repeat { body, cond } => {
            are_statements(levels, body) && is_expression(levels, cond)
        }
        StatKind::If { arms, last } => {
            has_arms(arms) && are_arms(levels, arms) && is_last(levels, last)
        }
        StatKind::NumFor {
            name,
            from,
            to,
            step,
            body,
        } => {
            is_name(name.bytes())
                && is_expression(levels, from)
                && is_expression(levels, to)
                && is_step(levels, step)
                && are_statements(levels, body)
        }
        StatKind::GenFor { names, exps, body } => {
            are_some_names(names)
                && has_expressions(exps)
                && are_expressions(levels, exps)
                && are_statements(levels, body)
        }
        StatKind::Function { path, method, body } => {
            are_some_names(path) && is_optional_name(method) && is_function(levels, body)
        }
        StatKind::LocalFunction { name, body } => {
            is_name(name.bytes()) && is_function(levels, body)
        }
        StatKind::Local { names, exps } => are_some_names(names) && are_expressions(levels, exps),
        StatKind::Return(exps) => are_expressions(levels, exps),
        StatKind::Break => true,
    }
}

#[cycle(checking)]
fn are_arms(levels: usize, arms: &Arms) -> bool
    ensures { result ≡ branches_within levels (view_arms arms.now) }
{
    for arm in arms.items() {
        if !is_arm(levels, arm) {
            return false;
        }
    }
    true
}

#[cycle(checking)]
fn is_arm(levels: usize, arm: &Arm) -> bool
    ensures { result ≡ arm_within levels arm.now }
{
    is_expression(levels, &arm.cond) && are_statements(levels, &arm.body)
}

#[cycle(checking)]
fn is_last(levels: usize, last: &Option<Block>) -> bool
    ensures { result ≡ last_within levels last.now }
{
    match last {
        Some(body) => are_statements(levels, body),
        None => true,
    }
}

#[cycle(checking)]
fn is_step(levels: usize, step: &Option<Exp>) -> bool
    ensures { result ≡ step_is_within levels step.now }
{
    match step {
        Some(exp) => is_expression(levels, exp),
        None => true,
    }
}

// A function that lies one level deeper.
#[cycle(checking)]
fn is_function(levels: usize, body: &Body) -> bool
    ensures { result ≡ below levels (body_within (levels - 1) (view_body body.now)) }
{
    levels > 0 && is_body(levels - 1, body)
}

#[cycle(checking)]
fn is_body(levels: usize, body: &Body) -> bool
    ensures { result ≡ body_within levels (view_body body.now) }
{
    are_names(&body.params) && are_statements(levels, &body.block)
}

#[cycle(checking)]
fn are_expressions(levels: usize, exps: &Exps) -> bool
    ensures { result ≡ expressions_within levels (view_exps exps.now) }
{
    for exp in exps.items() {
        if !is_expression(levels, exp) {
            return false;
        }
    }
    true
}

#[cycle(checking)]
fn is_expression(levels: usize, exp: &Exp) -> bool
    ensures { result ≡ expression_within levels (view_exp exp.now) }
{
    levels > 0 && contains_well(levels - 1, exp)
}

// What an expression holds.
#[cycle(checking)]
fn contains_well(levels: usize, exp: &Exp) -> bool
    ensures { result ≡ inside_within levels (view_exp exp.now) }
{
    match &exp.kind {
        ExpKind::Nil | ExpKind::True | ExpKind::False | ExpKind::Vararg | ExpKind::Text(_) => true,
        ExpKind::Number(value) => *value >= 0,
        ExpKind::Name(name) => is_name(name.bytes()),
        ExpKind::Function(body) => is_body(levels, body),
        ExpKind::Index { on, key } => {
            is_prefix(on) && is_expression(levels, on) && is_expression(levels, key)
        }
        ExpKind::Field { on, name } => {
            is_prefix(on) && is_expression(levels, on) && is_name(name.bytes())
        }
        ExpKind::Call { on, args, on_line } => {
            is_prefix(on)
                && is_expression(levels, on)
                && on_its_line(args, exp.line, *on_line)
                && are_arguments(levels, args)
        }
        ExpKind::Method {
            on,
            name,
            args,
            on_line,
        } => {
            is_prefix(on)
                && is_expression(levels, on)
                && is_name(name.bytes())
                && on_its_line(args, exp.line, *on_line)
                && are_arguments(levels, args)
        }
        ExpKind::And(left, right) => {
            left_binds(AND_LEVEL, false, left)
                && right_binds(AND_LEVEL, false, right)
                && is_expression(levels, left)
                && is_expression(levels, right)
        }
        ExpKind::Or(left, right) => {
            left_binds(OR_LEVEL, false, left)
                && right_binds(OR_LEVEL, false, right)
                && is_expression(levels, left)
                && is_expression(levels, right)
        }
        ExpKind::Binary { op, left, right } => {
            left_binds(level_of_op(*op), is_right_associative(*op), left)
                && right_binds(level_of_op(*op), is_right_associative(*op), right)
                && is_expression(levels, left)
                && is_expression(levels, right)
        }
        ExpKind::Unary { of, .. } => {
            left_binds(UNARY_LEVEL, false, of) && is_expression(levels, of)
        }
        ExpKind::Table(items) => are_items(levels, items),
        ExpKind::Paren(inner) => is_expression(levels, inner),
    }
}

#[cycle(checking)]
fn are_arguments(levels: usize, args: &Args) -> bool
    ensures { result ≡ arguments_within levels (view_args args.now) }
{
    match args {
        Args::List(exps) => are_expressions(levels, exps),
        Args::Text(_) => true,
        Args::Table(items) => are_items(levels, items),
    }
}

#[cycle(checking)]
fn are_items(levels: usize, items: &Items) -> bool
    ensures { result ≡ fields_within levels (view_items items.now) }
{
    let all = items.items();
    for (number, item) in all.iter().enumerate() {
        if !ends_item(item.sep, &all[number + 1..]) {
            return false;
        }
        if !is_item(levels, &item.kind) {
            return false;
        }
    }
    true
}

#[cycle(checking)]
fn is_item(levels: usize, kind: &ItemKind) -> bool
    ensures { result ≡ item_within levels kind.now }
{
    match kind {
        ItemKind::Positional(value) => is_expression(levels, value),
        ItemKind::Named(name, value) => is_name(name.bytes()) && is_expression(levels, value),
        ItemKind::Keyed(key, value) => is_expression(levels, key) && is_expression(levels, value),
    }
}

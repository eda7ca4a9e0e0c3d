// The tokens of a tree.
ghost use Rattle.std.specs.Prelude.{◌≡◌, [], ◌∷◌, ◌++◌, OnOk, IfOk};
ghost use Rattle.lua_tree.specs.View.{view_tree, view_block, view_statement, view_arms, view_body, view_exps, view_exp, view_args, view_items};
ghost use Rattle.lua_tree.specs.Spelling.{spell_source, spell_statements, spell_statement, spell_arms, spell_loop, spell_body, spell_values, spell_expressions, spell_expression, spell_arguments, spell_fields};
ghost use Rattle.lua_tree.specs.TreeLists.{unplaced, spell_else_of, spell_step_of};

mod parts;
mod spelled;

use crate::token::{TokenKind, Tokens};
use crate::tree::{Args, Arms, Block, Body, Exp, ExpKind, Exps, ItemKind, Items, StatKind, Tree};
use parts::{
    Mark, binary_kind, put_for, put_method, put_names, put_params, put_semicolon, put_separator,
    unary_kind,
};
use spelled::Spelled;
use std::alloc::{AllocError, Global};

/// The tokens that a tree spells: their kinds, in order, with `at` and `line` 0. The time is linear
/// in the tree.
pub fn spell(alloc: Global, tree: &Tree) -> Result<Tokens, AllocError>
    ensures { IfOk result (λ tokens. tokens ≡ unplaced (spell_source (view_tree tree.now))) }
{
    let mut out = Spelled::new(alloc);
    put_block(alloc, &mut out, &tree.body)?;
    Ok(out.into_tokens())
}

#[cycle(spell)]
fn put_block(alloc: Global, out: &mut Spelled, block: &Block) -> Result<(), AllocError>
    ensures { OnOk result (out.new ≡ out.old ++ spell_statements (view_block block.now)) }
{
    for statement in block.items() {
        put_statement(alloc, out, &statement.kind)?;
        put_semicolon(out, statement.semi)?;
    }
    Ok(())
}

#[cycle(spell)]
fn put_statement(alloc: Global, out: &mut Spelled, kind: &StatKind) -> Result<(), AllocError>
    ensures { OnOk result (out.new ≡ out.old ++ spell_statement (view_statement kind.now)) }
{
    match kind {
        StatKind::Assign { targets, exps } => {
            put_expressions(alloc, out, targets)?;
            out.put(TokenKind::Equal)?;
            put_expressions(alloc, out, exps)
        }
        StatKind::Call(call) => put_expression(alloc, out, call),
        StatKind::Do(body) => put_loop(alloc, out, body),
        StatKind::While { cond, body } => {
            put_behind(alloc, out, TokenKind::While, cond)?;
            put_loop(alloc, out, body)
        }
        StatKind::Repeat { body, cond } => {
            out.put(TokenKind::Repeat)?;
            put_block(alloc, out, body)?;
            put_behind(alloc, out, TokenKind::Until, cond)
        }
        StatKind::If { arms, last } => {
            put_arms(alloc, out, arms)?;
            put_else(alloc, out, last)?;
            out.put(TokenKind::End)
        }
        StatKind::NumFor {
            name,
            from,
            to,
            step,
            body,
        } => {
            put_for(alloc, out, name)?;
            put_expression(alloc, out, from)?;
            put_behind(alloc, out, TokenKind::Comma, to)?;
            put_step(alloc, out, step)?;
            put_loop(alloc, out, body)
        }
        StatKind::GenFor { names, exps, body } => {
            out.put(TokenKind::For)?;
            put_names(alloc, out, Mark::Comma, names)?;
            out.put(TokenKind::In)?;
            put_expressions(alloc, out, exps)?;
            put_loop(alloc, out, body)
        }
        StatKind::Function { path, method, body } => {
            out.put(TokenKind::Function)?;
            put_names(alloc, out, Mark::Dot, path)?;
            put_method(alloc, out, method)?;
            put_body(alloc, out, body)
        }
        StatKind::LocalFunction { name, body } => {
            out.put(TokenKind::Local)?;
            out.put_name_behind(alloc, TokenKind::Function, name)?;
            put_body(alloc, out, body)
        }
        StatKind::Local { names, exps } => {
            out.put(TokenKind::Local)?;
            put_names(alloc, out, Mark::Comma, names)?;
            put_values(alloc, out, exps)
        }
        StatKind::Return(exps) => {
            out.put(TokenKind::Return)?;
            put_expressions(alloc, out, exps)
        }
        StatKind::Break => out.put(TokenKind::Break),
    }
}

#[cycle(spell)]
fn put_arms(alloc: Global, out: &mut Spelled, arms: &Arms) -> Result<(), AllocError>
    ensures { OnOk result (out.new ≡ out.old ++ spell_arms (view_arms arms.now) TokenKind.If) }
{
    let mut word = TokenKind::If;
    for arm in arms.items() {
        put_behind(alloc, out, word, &arm.cond)?;
        out.put(TokenKind::Then)?;
        put_block(alloc, out, &arm.body)?;
        word = TokenKind::Elseif;
    }
    Ok(())
}

#[cycle(spell)]
fn put_else(alloc: Global, out: &mut Spelled, last: &Option<Block>) -> Result<(), AllocError>
    ensures { OnOk result (out.new ≡ out.old ++ spell_else_of last.now) }
{
    if let Some(block) = last {
        out.put(TokenKind::Else)?;
        put_block(alloc, out, block)?;
    }
    Ok(())
}

#[cycle(spell)]
fn put_step(alloc: Global, out: &mut Spelled, step: &Option<Exp>) -> Result<(), AllocError>
    ensures { OnOk result (out.new ≡ out.old ++ spell_step_of step.now) }
{
    if let Some(expression) = step {
        put_behind(alloc, out, TokenKind::Comma, expression)?;
    }
    Ok(())
}

/// A block between `do` and `end`.
#[cycle(spell)]
fn put_loop(alloc: Global, out: &mut Spelled, block: &Block) -> Result<(), AllocError>
    ensures { OnOk result (out.new ≡ out.old ++ spell_loop (spell_statements (view_block block.now))) }
{
    out.put(TokenKind::Do)?;
    put_block(alloc, out, block)?;
    out.put(TokenKind::End)
}

#[cycle(spell)]
fn put_body(alloc: Global, out: &mut Spelled, body: &Body) -> Result<(), AllocError>
    ensures { OnOk result (out.new ≡ out.old ++ spell_body (view_body body.now)) }
{
    out.put(TokenKind::OpenParen)?;
    put_params(alloc, out, &body.params, body.vararg)?;
    out.put(TokenKind::CloseParen)?;
    put_block(alloc, out, &body.block)?;
    out.put(TokenKind::End)
}

/// The right side of a `local` statement, which may be missing.
#[cycle(spell)]
fn put_values(alloc: Global, out: &mut Spelled, exps: &Exps) -> Result<(), AllocError>
    ensures { OnOk result (out.new ≡ out.old ++ spell_values (view_exps exps.now)) }
{
    if exps.items().is_empty() {
        return Ok(());
    }
    out.put(TokenKind::Equal)?;
    put_expressions(alloc, out, exps)
}

#[cycle(spell)]
fn put_expressions(alloc: Global, out: &mut Spelled, exps: &Exps) -> Result<(), AllocError>
    ensures { OnOk result (out.new ≡ out.old ++ spell_expressions (view_exps exps.now)) }
{
    let [first, rest @ ..] = exps.items() else {
        return Ok(());
    };
    put_expression(alloc, out, first)?;
    for expression in rest {
        put_behind(alloc, out, TokenKind::Comma, expression)?;
    }
    Ok(())
}

/// An expression behind a token.
#[cycle(spell)]
fn put_behind(
    alloc: Global,
    out: &mut Spelled,
    kind: TokenKind,
    expression: &Exp,
) -> Result<(), AllocError>
    ensures { OnOk result (out.new ≡ out.old ++ kind ∷ spell_expression (view_exp expression.now)) }
{
    out.put(kind)?;
    put_expression(alloc, out, expression)
}

#[cycle(spell)]
fn put_expression(alloc: Global, out: &mut Spelled, expression: &Exp) -> Result<(), AllocError>
    ensures { OnOk result (out.new ≡ out.old ++ spell_expression (view_exp expression.now)) }
{
    match &expression.kind {
        ExpKind::Nil => out.put(TokenKind::Nil),
        ExpKind::True => out.put(TokenKind::True),
        ExpKind::False => out.put(TokenKind::False),
        ExpKind::Number(number) => out.put(TokenKind::Number(*number)),
        ExpKind::Text(text) => out.put_text(alloc, text),
        ExpKind::Vararg => out.put(TokenKind::DotDotDot),
        ExpKind::Function(body) => {
            out.put(TokenKind::Function)?;
            put_body(alloc, out, body)
        }
        ExpKind::Name(name) => out.put_name(alloc, name),
        ExpKind::Index { on, key } => {
            put_expression(alloc, out, on)?;
            put_behind(alloc, out, TokenKind::OpenBracket, key)?;
            out.put(TokenKind::CloseBracket)
        }
        ExpKind::Field { on, name } => {
            put_expression(alloc, out, on)?;
            out.put_name_behind(alloc, TokenKind::Dot, name)
        }
        ExpKind::Call { on, args, .. } => {
            put_expression(alloc, out, on)?;
            put_arguments(alloc, out, args)
        }
        ExpKind::Method { on, name, args, .. } => {
            put_expression(alloc, out, on)?;
            out.put_name_behind(alloc, TokenKind::Colon, name)?;
            put_arguments(alloc, out, args)
        }
        ExpKind::And(left, right) => {
            put_expression(alloc, out, left)?;
            put_behind(alloc, out, TokenKind::And, right)
        }
        ExpKind::Or(left, right) => {
            put_expression(alloc, out, left)?;
            put_behind(alloc, out, TokenKind::Or, right)
        }
        ExpKind::Binary { op, left, right } => {
            put_expression(alloc, out, left)?;
            put_behind(alloc, out, binary_kind(*op), right)
        }
        ExpKind::Unary { op, of } => put_behind(alloc, out, unary_kind(*op), of),
        ExpKind::Table(items) => put_table(alloc, out, items),
        ExpKind::Paren(inner) => {
            put_behind(alloc, out, TokenKind::OpenParen, inner)?;
            out.put(TokenKind::CloseParen)
        }
    }
}

#[cycle(spell)]
fn put_arguments(alloc: Global, out: &mut Spelled, args: &Args) -> Result<(), AllocError>
    ensures { OnOk result (out.new ≡ out.old ++ spell_arguments (view_args args.now)) }
{
    match args {
        Args::List(exps) => {
            out.put(TokenKind::OpenParen)?;
            put_expressions(alloc, out, exps)?;
            out.put(TokenKind::CloseParen)
        }
        Args::Text(text) => out.put_text(alloc, text),
        Args::Table(items) => put_table(alloc, out, items),
    }
}

#[cycle(spell)]
fn put_table(alloc: Global, out: &mut Spelled, items: &Items) -> Result<(), AllocError>
    ensures { OnOk result (out.new ≡ out.old ++ TokenKind.OpenBrace ∷ spell_fields (view_items items.now) ++ TokenKind.CloseBrace ∷ []) }
{
    out.put(TokenKind::OpenBrace)?;
    put_fields(alloc, out, items)?;
    out.put(TokenKind::CloseBrace)
}

#[cycle(spell)]
fn put_fields(alloc: Global, out: &mut Spelled, items: &Items) -> Result<(), AllocError>
    ensures { OnOk result (out.new ≡ out.old ++ spell_fields (view_items items.now)) }
{
    for item in items.items() {
        match &item.kind {
            ItemKind::Positional(value) => put_expression(alloc, out, value)?,
            ItemKind::Named(name, value) => {
                out.put_name(alloc, name)?;
                put_behind(alloc, out, TokenKind::Equal, value)?;
            }
            ItemKind::Keyed(key, value) => {
                put_behind(alloc, out, TokenKind::OpenBracket, key)?;
                out.put(TokenKind::CloseBracket)?;
                put_behind(alloc, out, TokenKind::Equal, value)?;
            }
        }
        put_separator(out, item.sep)?;
    }
    Ok(())
}

// From a tree to its text.
#![tactic(auto, using(crate::proofs::SheetLemmas::put_pieces_append))]

ghost use Rattle.std.specs.Prelude.{◌≡◌, suc, [], ◌∷◌, ◌++◌, Some, IfOk, OnOk};
ghost use Rattle.lua_tree.specs.View.{view_tree, view_block, view_statement, view_arms, view_body, view_exps, view_exp, view_args, view_items};
ghost use Rattle.lua_tree.specs.WellFormed.{WellFormed};
ghost use Rattle.lua_tree.specs.declared.token.TokenKind.{TokenKind};
ghost use Rattle.printer.specs.Layout.{token, loop_pieces, statements_pieces, statement_pieces, branches_pieces, body_pieces, values_pieces, expressions_pieces, expression_pieces, arguments_pieces, fields_pieces, printed};
ghost use Rattle.printer.specs.Sheets.{put_pieces, arm_pieces, else_pieces_of, step_pieces_of, item_pieces};
ghost use Rattle.printer.specs.Texts.{IsTextOf};

mod page;
mod parts;
mod spacing;
mod words;

use lua_num::ByteText;
use lua_tree::{
    Args, Arm, Arms, Block, Body, Exp, ExpKind, Exps, ItemKind, Items, StatKind, TokenKind, Tree,
};
use page::Page;
use parts::{
    binary_kind, deeper, put_end, put_for, put_for_names, put_names, put_params, put_path,
    put_semicolon, put_separator, unary_kind,
};
use std::alloc::{AllocError, Global};

/// The printed source of a tree. Tokens stand one space apart, but close to brackets, points, commas and colons, and each statement on a line of its own, two spaces further in for each block around. That of a
/// well-formed tree is read as that tree, lines aside. The time is linear in the tree.
pub fn print_tree(alloc: Global, tree: &Tree) -> Result<ByteText, AllocError>
    ensures text { IfOk result (λ text. text ≡ printed (view_tree tree.now)) }
    ensures read { WellFormed (view_tree tree.now) → IfOk result (IsTextOf (view_tree tree.now)) }
{
    let mut page = Page::new(alloc);
    put_block(&mut page, 0, &tree.body)?;
    page.finish()
}

#[cycle(print)]
fn put_block(out: &mut Page, blocks: usize, block: &Block) -> Result<(), AllocError>
    ensures { OnOk result (Some out.new ≡ put_pieces (statements_pieces blocks (view_block block.now)) (Some out.old)) }
{
    for statement in block.items() {
        out.start_line(blocks)?;
        put_statement(out, blocks, &statement.kind)?;
        put_semicolon(out, statement.semi)?;
    }
    Ok(())
}

#[cycle(print)]
fn put_statement(out: &mut Page, blocks: usize, kind: &StatKind) -> Result<(), AllocError>
    ensures { OnOk result (Some out.new ≡ put_pieces (statement_pieces blocks (view_statement kind.now)) (Some out.old)) }
{
    match kind {
        StatKind::Assign { targets, exps } => {
            put_expressions(out, blocks, targets)?;
            out.put(&TokenKind::Equal)?;
            put_expressions(out, blocks, exps)
        }
        StatKind::Call(call) => put_expression(out, blocks, call),
        StatKind::Do(body) => put_loop(out, blocks, body),
        StatKind::While { cond, body } => {
            put_behind(out, blocks, &TokenKind::While, cond)?;
            put_loop(out, blocks, body)
        }
        StatKind::Repeat { body, cond } => {
            out.put(&TokenKind::Repeat)?;
            put_block(out, deeper(blocks)?, body)?;
            out.start_line(blocks)?;
            put_behind(out, blocks, &TokenKind::Until, cond)
        }
        StatKind::If { arms, last } => {
            put_arms(out, blocks, arms)?;
            put_else(out, blocks, last)?;
            put_end(out, blocks)
        }
        StatKind::NumFor {
            name,
            from,
            to,
            step,
            body,
        } => {
            put_for(out, name)?;
            put_expression(out, blocks, from)?;
            put_behind(out, blocks, &TokenKind::Comma, to)?;
            put_step(out, blocks, step)?;
            put_loop(out, blocks, body)
        }
        StatKind::GenFor { names, exps, body } => {
            put_for_names(out, names)?;
            put_expressions(out, blocks, exps)?;
            put_loop(out, blocks, body)
        }
        StatKind::Function { path, method, body } => {
            put_path(out, path, method)?;
            put_body(out, blocks, body)
        }
        StatKind::LocalFunction { name, body } => {
            out.put(&TokenKind::Local)?;
            out.put_name_behind(&TokenKind::Function, name)?;
            put_body(out, blocks, body)
        }
        StatKind::Local { names, exps } => {
            out.put(&TokenKind::Local)?;
            put_names(out, &TokenKind::Comma, names)?;
            put_values(out, blocks, exps)
        }
        StatKind::Return(exps) => {
            out.put(&TokenKind::Return)?;
            put_expressions(out, blocks, exps)
        }
        StatKind::Break => out.put(&TokenKind::Break),
    }
}

#[cycle(print)]
fn put_arms(out: &mut Page, blocks: usize, arms: &Arms) -> Result<(), AllocError>
    ensures { OnOk result (Some out.new ≡ put_pieces (branches_pieces blocks (view_arms arms.now)) (Some out.old)) }
{
    let [first, rest @ ..] = arms.items() else {
        return Ok(());
    };
    put_arm(out, blocks, &TokenKind::If, first)?;
    for arm in rest {
        out.start_line(blocks)?;
        put_arm(out, blocks, &TokenKind::Elseif, arm)?;
    }
    Ok(())
}

// An arm behind its word.
#[cycle(print)]
fn put_arm(out: &mut Page, blocks: usize, word: &TokenKind, arm: &Arm) -> Result<(), AllocError>
    ensures { OnOk result (Some out.new ≡ put_pieces (arm_pieces blocks word.now arm.now) (Some out.old)) }
{
    put_behind(out, blocks, word, &arm.cond)?;
    out.put(&TokenKind::Then)?;
    put_block(out, deeper(blocks)?, &arm.body)
}

#[cycle(print)]
fn put_else(out: &mut Page, blocks: usize, last: &Option<Block>) -> Result<(), AllocError>
    ensures { OnOk result (Some out.new ≡ put_pieces (else_pieces_of blocks last.now) (Some out.old)) }
{
    if let Some(block) = last {
        out.start_line(blocks)?;
        out.put(&TokenKind::Else)?;
        put_block(out, deeper(blocks)?, block)?;
    }
    Ok(())
}

#[cycle(print)]
fn put_step(out: &mut Page, blocks: usize, step: &Option<Exp>) -> Result<(), AllocError>
    ensures { OnOk result (Some out.new ≡ put_pieces (step_pieces_of blocks step.now) (Some out.old)) }
{
    if let Some(expression) = step {
        put_behind(out, blocks, &TokenKind::Comma, expression)?;
    }
    Ok(())
}

// A block between `do` and `end`.
#[cycle(print)]
fn put_loop(out: &mut Page, blocks: usize, block: &Block) -> Result<(), AllocError>
    ensures { OnOk result (Some out.new ≡ put_pieces (loop_pieces blocks (statements_pieces (suc blocks) (view_block block.now))) (Some out.old)) }
{
    out.put(&TokenKind::Do)?;
    put_block(out, deeper(blocks)?, block)?;
    put_end(out, blocks)
}

#[cycle(print)]
fn put_body(out: &mut Page, blocks: usize, body: &Body) -> Result<(), AllocError>
    ensures { OnOk result (Some out.new ≡ put_pieces (body_pieces blocks (view_body body.now)) (Some out.old)) }
{
    put_params(out, &body.params, body.vararg)?;
    put_block(out, deeper(blocks)?, &body.block)?;
    put_end(out, blocks)
}

// The right side of a `local` statement, which may be missing.
#[cycle(print)]
fn put_values(out: &mut Page, blocks: usize, exps: &Exps) -> Result<(), AllocError>
    ensures { OnOk result (Some out.new ≡ put_pieces (values_pieces blocks (view_exps exps.now)) (Some out.old)) }
{
    if exps.items().is_empty() {
        return Ok(());
    }
    out.put(&TokenKind::Equal)?;
    put_expressions(out, blocks, exps)
}

#[cycle(print)]
fn put_expressions(out: &mut Page, blocks: usize, exps: &Exps) -> Result<(), AllocError>
    ensures { OnOk result (Some out.new ≡ put_pieces (expressions_pieces blocks (view_exps exps.now)) (Some out.old)) }
{
    let [first, rest @ ..] = exps.items() else {
        return Ok(());
    };
    put_expression(out, blocks, first)?;
    for expression in rest {
        put_behind(out, blocks, &TokenKind::Comma, expression)?;
    }
    Ok(())
}

// An expression behind a token.
#[cycle(print)]
fn put_behind(
    out: &mut Page,
    blocks: usize,
    kind: &TokenKind,
    expression: &Exp,
) -> Result<(), AllocError>
    ensures { OnOk result (Some out.new ≡ put_pieces (token kind.now ∷ expression_pieces blocks (view_exp expression.now)) (Some out.old)) }
{
    out.put(kind)?;
    put_expression(out, blocks, expression)
}

#[cycle(print)]
fn put_expression(out: &mut Page, blocks: usize, expression: &Exp) -> Result<(), AllocError>
    ensures { OnOk result (Some out.new ≡ put_pieces (expression_pieces blocks (view_exp expression.now)) (Some out.old)) }
{
    match &expression.kind {
        ExpKind::Nil => out.put(&TokenKind::Nil),
        ExpKind::True => out.put(&TokenKind::True),
        ExpKind::False => out.put(&TokenKind::False),
        ExpKind::Number(number) => out.put_number(*number),
        ExpKind::Text(text) => out.put_text(text.bytes()),
        ExpKind::Vararg => out.put(&TokenKind::DotDotDot),
        ExpKind::Function(body) => {
            out.put(&TokenKind::Function)?;
            put_body(out, blocks, body)
        }
        ExpKind::Name(name) => out.put_name(name),
        ExpKind::Index { on, key } => {
            put_expression(out, blocks, on)?;
            put_behind(out, blocks, &TokenKind::OpenBracket, key)?;
            out.put(&TokenKind::CloseBracket)
        }
        ExpKind::Field { on, name } => {
            put_expression(out, blocks, on)?;
            out.put_name_behind(&TokenKind::Dot, name)
        }
        ExpKind::Call { on, args, .. } => {
            put_expression(out, blocks, on)?;
            put_arguments(out, blocks, args)
        }
        ExpKind::Method { on, name, args, .. } => {
            put_expression(out, blocks, on)?;
            out.put_name_behind(&TokenKind::Colon, name)?;
            put_arguments(out, blocks, args)
        }
        ExpKind::And(left, right) => {
            put_expression(out, blocks, left)?;
            put_behind(out, blocks, &TokenKind::And, right)
        }
        ExpKind::Or(left, right) => {
            put_expression(out, blocks, left)?;
            put_behind(out, blocks, &TokenKind::Or, right)
        }
        ExpKind::Binary { op, left, right } => {
            put_expression(out, blocks, left)?;
            put_behind(out, blocks, &binary_kind(*op), right)
        }
        ExpKind::Unary { op, of } => put_behind(out, blocks, &unary_kind(*op), of),
        ExpKind::Table(items) => put_table(out, blocks, items),
        ExpKind::Paren(inner) => {
            put_behind(out, blocks, &TokenKind::OpenParen, inner)?;
            out.put(&TokenKind::CloseParen)
        }
    }
}

#[cycle(print)]
fn put_arguments(out: &mut Page, blocks: usize, args: &Args) -> Result<(), AllocError>
    ensures { OnOk result (Some out.new ≡ put_pieces (arguments_pieces blocks (view_args args.now)) (Some out.old)) }
{
    match args {
        Args::List(exps) => {
            out.put(&TokenKind::OpenParen)?;
            put_expressions(out, blocks, exps)?;
            out.put(&TokenKind::CloseParen)
        }
        Args::Text(text) => out.put_text(text.bytes()),
        Args::Table(items) => put_table(out, blocks, items),
    }
}

#[cycle(print)]
fn put_table(out: &mut Page, blocks: usize, items: &Items) -> Result<(), AllocError>
    ensures { OnOk result (Some out.new ≡ put_pieces (token TokenKind.OpenBrace ∷ fields_pieces blocks (view_items items.now) ++ token TokenKind.CloseBrace ∷ []) (Some out.old)) }
{
    out.put(&TokenKind::OpenBrace)?;
    put_fields(out, blocks, items)?;
    out.put(&TokenKind::CloseBrace)
}

#[cycle(print)]
fn put_fields(out: &mut Page, blocks: usize, items: &Items) -> Result<(), AllocError>
    ensures { OnOk result (Some out.new ≡ put_pieces (fields_pieces blocks (view_items items.now)) (Some out.old)) }
{
    for item in items.items() {
        put_item(out, blocks, &item.kind)?;
        put_separator(out, item.sep)?;
    }
    Ok(())
}

#[cycle(print)]
fn put_item(out: &mut Page, blocks: usize, kind: &ItemKind) -> Result<(), AllocError>
    ensures { OnOk result (Some out.new ≡ put_pieces (item_pieces blocks kind.now) (Some out.old)) }
{
    match kind {
        ItemKind::Positional(value) => put_expression(out, blocks, value),
        ItemKind::Named(name, value) => {
            out.put_name(name)?;
            put_behind(out, blocks, &TokenKind::Equal, value)
        }
        ItemKind::Keyed(key, value) => {
            put_behind(out, blocks, &TokenKind::OpenBracket, key)?;
            out.put(&TokenKind::CloseBracket)?;
            put_behind(out, blocks, &TokenKind::Equal, value)
        }
    }
}

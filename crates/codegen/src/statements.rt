// Statements, and blocks of them.
ghost use Rattle.std.specs.Prelude.{◌≡◌, OnOk, IfOk, ◌+◌, ◌<◌, ◌≤◌, false, true, Some};
ghost use Rattle.lua_tree.specs.View.{view_block, view_statement, view_body, view_exp, view_arms};
ghost use Rattle.lua_tree.specs.TreeLists.{expressions_of, branches_of};
ghost use Rattle.scheme.specs.Statements as parts;
ghost use Rattle.scheme.specs.Scheme.{coded, all_coded, statements_made, statement_made, branches_made, inner};
ghost use Rattle.code_builder.specs.Made.{maker_of};
ghost use Rattle.codegen.specs.Loops.{loop_of, last_made, arm_made};

use crate::assignments::{assign, assign_function};
use crate::calls::{adjust, multi, open_list};
use crate::conditions::jump_if;
use crate::expressions::{next_reg, operand};
use crate::functions::closure;
use crate::kinds::{is_call, is_vararg};
use crate::locals::{Around, end_block, leave_loop};
use crate::loops::{Turn, generic_loop, numeric_loop, repeat_loop, step_part, while_loop};
use crate::words::{count_field, jump_to, put_abc};
use code_builder::Builder;
use lua_num::ByteText;
use lua_tree::{Arm, Block, Body, Exp, Stat, StatKind};
use opcode::Op;
use std::alloc::{AllocError, Global};

/// The statements of a block, whose locals stay active.
#[cycle(source)]
pub fn statements(
    alloc: Global,
    builder: &mut Builder,
    block: &Block,
    around: Option<Around>,
) -> Result<(), AllocError>
    ensures { OnOk result (maker_of builder.new ≡ statements_made (view_block block.now) (loop_of around) (maker_of builder.old)) }
{
    for statement in block.items() {
        one_statement(alloc, builder, statement, around)?;
        builder.settle()?;
    }
    Ok(())
}

/// A block, whose locals end with it.
#[cycle(source)]
pub fn block_part(
    alloc: Global,
    builder: &mut Builder,
    line: u32,
    block: &Block,
    around: Option<Around>,
) -> Result<(), AllocError>
    ensures { OnOk result (maker_of builder.new ≡ parts.block_part line (statements_made (view_block block.now) (loop_of around)) (maker_of builder.old)) }
{
    let n = builder.active_count()?;
    statements(alloc, builder, block, around)?;
    end_block(builder, line, n)
}

#[cycle(source)]
fn one_statement(
    alloc: Global,
    builder: &mut Builder,
    s: &Stat,
    around: Option<Around>,
) -> Result<(), AllocError>
    ensures { OnOk result (maker_of builder.new ≡ statement_made (view_statement s.now.kind) s.now.line (loop_of around) (maker_of builder.old)) }
{
    match &s.kind {
        StatKind::Assign { targets, exps } => { assign(alloc, builder, s.line, targets, exps) }
        StatKind::Call(call) => multi(alloc, builder, call, Op::Call, Some(0)),
        StatKind::Do(block) => block_part(alloc, builder, s.line, block, around),
        StatKind::While { cond, body } => while_loop(alloc, builder, s.line, cond, body),
        StatKind::Repeat { body, cond } => repeat_loop(alloc, builder, s.line, body, cond),
        StatKind::If { arms, last } => {
            let end = builder.new_label()?;
            all_arms(
                alloc,
                builder,
                s.line,
                arms.items(),
                last.is_some(),
                end,
                around,
            )?;
            last_block(alloc, builder, s.line, last, around)?;
            builder.place(end);
            Ok(())
        }
        StatKind::NumFor {
            name,
            from,
            to,
            step,
            body,
        } => {
            let variables = builder.declare(alloc, std::slice::from_ref(name))?;
            let before = builder.active_count()?;
            let base = builder.free;
            next_reg(alloc, builder, from)?;
            next_reg(alloc, builder, to)?;
            step_part(alloc, builder, s.line, step)?;
            numeric_loop(
                alloc,
                builder,
                s.line,
                Turn {
                    base,
                    before,
                    variables,
                },
                body,
            )
        }
        StatKind::GenFor { names, exps, body } => {
            let variables = builder.declare(alloc, names.items())?;
            let before = builder.active_count()?;
            let base = builder.free;
            adjust(alloc, builder, s.line, exps.items(), 3)?;
            generic_loop(
                alloc,
                builder,
                s.line,
                Turn {
                    base,
                    before,
                    variables,
                },
                body,
            )
        }
        StatKind::Function { path, method, body } => {
            assign_function(alloc, builder, s.line, path.items(), method, body)
        }
        StatKind::LocalFunction { name, body } => {
            local_function(alloc, builder, s.line, name, body)
        }
        StatKind::Local { names, exps } => {
            local(alloc, builder, s.line, names.items(), exps.items())
        }
        StatKind::Return(exps) => return_values(alloc, builder, s.line, exps.items()),
        StatKind::Break => leave_loop(builder, s.line, around),
    }
}

// The block behind `else`.
#[cycle(source)]
fn last_block(
    alloc: Global,
    builder: &mut Builder,
    line: u32,
    last: &Option<Block>,
    around: Option<Around>,
) -> Result<(), AllocError>
    ensures { OnOk result (maker_of builder.new ≡ last_made last.now line (loop_of around) (maker_of builder.old)) }
{
    match last {
        Some(block) => block_part(alloc, builder, line, block, around),
        None => Ok(()),
    }
}

// Whether something follows an arm: another one, or what stands behind them all.
fn is_followed(i: usize, count: usize, more: bool) -> bool
    requires { i < count }
    ensures next { i + 1 < count → result ≡ true }
    ensures last { count ≤ i + 1 → result ≡ more }
{
    i + 1 < count || more
}

// The arms of an `if`, each with a jump to the end where something follows.
#[cycle(source)]
fn all_arms(
    alloc: Global,
    builder: &mut Builder,
    line: u32,
    arms: &[Arm],
    more: bool,
    end: usize,
    around: Option<Around>,
) -> Result<(), AllocError>
    ensures { OnOk result (maker_of builder.new ≡ branches_made (branches_of arms.now) line (loop_of around) end more (maker_of builder.old)) }
{
    for (i, arm) in arms.iter().enumerate() {
        let followed = is_followed(i, arms.len(), more);
        one_arm(alloc, builder, line, arm, followed, end, around)?;
    }
    Ok(())
}

#[cycle(source)]
fn one_arm(
    alloc: Global,
    builder: &mut Builder,
    line: u32,
    arm: &Arm,
    followed: bool,
    end: usize,
    around: Option<Around>,
) -> Result<(), AllocError>
    ensures { OnOk result (maker_of builder.new ≡ arm_made line end followed arm.now (loop_of around) (maker_of builder.old)) }
{
    let next = builder.new_label()?;
    jump_if(alloc, builder, &arm.cond, false, next)?;
    block_part(alloc, builder, line, &arm.body, around)?;
    if followed {
        jump_to(builder, line, end)?;
    }
    builder.place(next);
    Ok(())
}

// Declares locals with their values.
#[cycle(source)]
fn local(
    alloc: Global,
    builder: &mut Builder,
    line: u32,
    names: &[ByteText],
    list: &[Exp],
) -> Result<(), AllocError>
    ensures { OnOk result (maker_of builder.new ≡ parts.local_part line names.now (all_coded (expressions_of list.now)) (maker_of builder.old)) }
{
    let locals = builder.declare(alloc, names)?;
    adjust(alloc, builder, line, list, names.len())?;
    builder.activate(alloc, locals)
}

// Declares a local, which is active in its own function.
#[cycle(source)]
fn local_function(
    alloc: Global,
    builder: &mut Builder,
    line: u32,
    name: &ByteText,
    body: &Body,
) -> Result<(), AllocError>
    ensures { OnOk result (maker_of builder.new ≡ parts.local_function_part line name.now (inner (view_body body.now) false) (maker_of builder.old)) }
{
    let locals = builder.declare(alloc, std::slice::from_ref(name))?;
    let register = builder.free;
    let listed = builder.locals.len();
    builder.take_registers(1)?;
    builder.activate(alloc, locals)?;
    closure(alloc, builder, line, body, false, register)?;
    builder.starts_here(listed)
}

// A `return`.
#[cycle(source)]
fn return_values(
    alloc: Global,
    builder: &mut Builder,
    line: u32,
    list: &[Exp],
) -> Result<(), AllocError>
    ensures { OnOk result (maker_of builder.new ≡ parts.return_part line (all_coded (expressions_of list.now)) (maker_of builder.old)) }
{
    match list {
        [] => put_abc(builder, line, Op::Return, 0, 1, 0),
        [e] if is_call(e) => return_call(alloc, builder, line, e),
        [e] if is_vararg(e) => return_list(alloc, builder, line, list),
        [e] => return_operand(alloc, builder, line, e),
        [_, _, ..] => return_list(alloc, builder, line, list),
    }
}

// A tail call.
#[cycle(source)]
fn return_call(
    alloc: Global,
    builder: &mut Builder,
    line: u32,
    call: &Exp,
) -> Result<(), AllocError>
    ensures { OnOk result (maker_of builder.new ≡ parts.return_call line (coded (view_exp call.now)) (maker_of builder.old)) }
{
    let base = builder.free;
    multi(alloc, builder, call, Op::TailCall, None)?;
    put_abc(builder, line, Op::Return, base, 0, 0)
}

#[cycle(source)]
fn return_operand(
    alloc: Global,
    builder: &mut Builder,
    line: u32,
    e: &Exp,
) -> Result<(), AllocError>
    ensures { OnOk result (maker_of builder.new ≡ parts.return_operand line (coded (view_exp e.now)) (maker_of builder.old)) }
{
    let x = operand(alloc, builder, e)?;
    put_abc(builder, line, Op::Return, x, 2, 0)
}

#[cycle(source)]
fn return_list(
    alloc: Global,
    builder: &mut Builder,
    line: u32,
    list: &[Exp],
) -> Result<(), AllocError>
    ensures { OnOk result (maker_of builder.new ≡ parts.return_list line (all_coded (expressions_of list.now)) (maker_of builder.old)) }
{
    let base = builder.free;
    let count = open_list(alloc, builder, list)?;
    put_abc(builder, line, Op::Return, base, count_field(1, count)?, 0)
}

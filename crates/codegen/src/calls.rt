// Calls, and lists of expressions.
ghost use Rattle.std.specs.Prelude.{◌≡◌, OnOk, IfOk};
ghost use Rattle.lua_tree.specs.View.{view_exp, view_args};
ghost use Rattle.lua_tree.specs.TreeLists.{expressions_of};
ghost use Rattle.scheme.specs.Lists as lists;
ghost use Rattle.scheme.specs.Scheme.{coded, all_coded, given};
ghost use Rattle.code_builder.specs.Made.{maker_of};

use crate::constructors::table_at;
use crate::expressions::{next_reg, operand};
use crate::lists::ends_open;
use crate::words::{
    Want, count_field, next_text, nils, plus, put_abc, results_at, rk_text, vararg_at,
};
use code_builder::{Builder, field};
use lua_tree::{Args, Exp, ExpKind};
use opcode::Op;
use std::alloc::{AllocError, Global};

/// So many values of an expression that can give several, by the word for its call; nothing of any other expression.
#[cycle(source)]
pub fn multi(
    alloc: Global,
    builder: &mut Builder,
    e: &Exp,
    op: Op,
    want: Want,
) -> Result<(), AllocError>
    ensures { OnOk result (maker_of builder.new ≡ (coded (view_exp e.now)).multi op want (maker_of builder.old)) }
{
    match &e.kind {
        ExpKind::Call { on, args, .. } => call_at(alloc, builder, e.line, on, args, op, want),
        ExpKind::Method { on, name, args, .. } => {
            method_at(alloc, builder, e.line, on, name.bytes(), args, op, want)
        }
        ExpKind::Vararg => vararg_at(builder, e.line, want),
        _ => Ok(()),
    }
}

// A call of a function.
#[cycle(source)]
fn call_at(
    alloc: Global,
    builder: &mut Builder,
    line: u32,
    on: &Exp,
    args: &Args,
    op: Op,
    want: Want,
) -> Result<(), AllocError>
    ensures { OnOk result (maker_of builder.new ≡ lists.call_at line (coded (view_exp on.now)) (given (view_args args.now) line) op want (maker_of builder.old)) }
{
    let base = builder.free;
    next_reg(alloc, builder, on)?;
    let count = arguments(alloc, builder, line, args)?;
    put_abc(
        builder,
        line,
        op,
        base,
        count_field(1, count)?,
        count_field(1, want)?,
    )?;
    results_at(builder, base, want)
}

// A call of a method.
#[cycle(source)]
fn method_at(
    alloc: Global,
    builder: &mut Builder,
    line: u32,
    on: &Exp,
    name: &[u8],
    args: &Args,
    op: Op,
    want: Want,
) -> Result<(), AllocError>
    ensures { OnOk result (maker_of builder.new ≡ lists.method_at line (coded (view_exp on.now)) name.now (given (view_args args.now) line) op want (maker_of builder.old)) }
{
    let base = builder.free;
    let x = operand(alloc, builder, on)?;
    builder.free_from(base);
    builder.take_registers(2)?;
    let y = rk_text(alloc, builder, line, name)?;
    put_abc(builder, line, Op::Self_, base, x, y)?;
    builder.free_from(plus(base, 2)?);
    let count = arguments(alloc, builder, line, args)?;
    put_abc(
        builder,
        line,
        op,
        base,
        count_field(2, count)?,
        count_field(1, want)?,
    )?;
    results_at(builder, base, want)
}

// The arguments of a call, and how many they are.
#[cycle(source)]
fn arguments(
    alloc: Global,
    builder: &mut Builder,
    line: u32,
    args: &Args,
) -> Result<Want, AllocError>
    ensures count { IfOk result (λ count. count ≡ (given (view_args args.now) line).count) }
    ensures made { OnOk result (maker_of builder.new ≡ (given (view_args args.now) line).part (maker_of builder.old)) }
{
    match args {
        Args::List(list) => open_list(alloc, builder, list.items()),
        Args::Text(text) => {
            next_text(alloc, builder, line, text.bytes())?;
            Ok(Some(1))
        }
        Args::Table(items) => {
            table_at(alloc, builder, line, items)?;
            Ok(Some(1))
        }
    }
}

/// Each value in the next register, a last one that can give several open; and how many they are.
#[cycle(source)]
pub fn open_list(alloc: Global, builder: &mut Builder, list: &[Exp]) -> Result<Want, AllocError>
    ensures count { IfOk result (λ count. count ≡ lists.list_count (all_coded (expressions_of list.now))) }
    ensures made { OnOk result (maker_of builder.new ≡ lists.open_list (all_coded (expressions_of list.now)) (maker_of builder.old)) }
{
    if ends_open(list) {
        all_multi(alloc, builder, None, list)?;
        return Ok(None);
    }
    all_next(alloc, builder, list)?;
    Ok(Some(field(list.len())?))
}

/// Each value in the next register.
#[cycle(source)]
pub fn all_next(alloc: Global, builder: &mut Builder, list: &[Exp]) -> Result<(), AllocError>
    ensures { OnOk result (maker_of builder.new ≡ lists.all_next (all_coded (expressions_of list.now)) (maker_of builder.old)) }
{
    for e in list {
        next_reg(alloc, builder, e)?;
    }
    Ok(())
}

// Each value in the next register, but the last expression gives so many.
#[cycle(source)]
fn all_multi(
    alloc: Global,
    builder: &mut Builder,
    want: Want,
    list: &[Exp],
) -> Result<(), AllocError>
    ensures { OnOk result (maker_of builder.new ≡ lists.all_multi Op.Call want (all_coded (expressions_of list.now)) (maker_of builder.old)) }
{
    for (i, e) in list.iter().enumerate() {
        if i + 1 == list.len() {
            multi(alloc, builder, e, Op::Call, want)?;
        } else {
            next_reg(alloc, builder, e)?;
        }
    }
    Ok(())
}

/// So many values from the next register on, whatever the number of expressions.
#[cycle(source)]
pub fn adjust(
    alloc: Global,
    builder: &mut Builder,
    line: u32,
    list: &[Exp],
    n: usize,
) -> Result<(), AllocError>
    ensures { OnOk result (maker_of builder.new ≡ lists.adjust line (all_coded (expressions_of list.now)) n (maker_of builder.old)) }
{
    if list.len() < n {
        return filled(alloc, builder, line, list, n - list.len());
    }
    let first = builder.free;
    all_next(alloc, builder, list)?;
    builder.free_from(plus(first, field(n)?)?);
    Ok(())
}

// A list with so many values more than it has expressions.
#[cycle(source)]
fn filled(
    alloc: Global,
    builder: &mut Builder,
    line: u32,
    list: &[Exp],
    missing: usize,
) -> Result<(), AllocError>
    ensures { OnOk result (maker_of builder.new ≡ lists.filled line (all_coded (expressions_of list.now)) missing (maker_of builder.old)) }
{
    let missing = field(missing)?;
    if ends_open(list) {
        return all_multi(alloc, builder, Some(plus(missing, 1)?), list);
    }
    all_next(alloc, builder, list)?;
    nils(builder, line, missing)
}

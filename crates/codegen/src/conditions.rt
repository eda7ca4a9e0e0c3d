// Conditions: jumps by the truth of an expression.
ghost use Rattle.std.specs.Prelude.{◌≡◌, OnOk, IfOk, not};
ghost use Rattle.lua_tree.specs.View.{view_exp};
ghost use Rattle.scheme.specs.Making as making;
ghost use Rattle.scheme.specs.Expressions as parts;
ghost use Rattle.scheme.specs.Scheme.{coded};
ghost use Rattle.code_builder.specs.Made.{maker_of};

use crate::expressions::{operand, rk, to_reg};
use crate::folding::literal;
use crate::kinds::is_comparison;
use crate::words::{comparison, jump_literal, jump_to, local_register, put_abc, truth_field};
use code_builder::{Builder, field};
use lua_tree::{BinaryOp, Exp, ExpKind, UnaryOp};
use opcode::Op;
use std::alloc::{AllocError, Global};

// A test of a value.
#[cycle(source)]
fn test(
    alloc: Global,
    builder: &mut Builder,
    e: &Exp,
    truth: bool,
    label: usize,
) -> Result<(), AllocError>
    ensures { OnOk result (maker_of builder.new ≡ making.freeing (parts.test e.now.line (coded (view_exp e.now)) truth label) (maker_of builder.old)) }
{
    let free = builder.free;
    let x = operand(alloc, builder, e)?;
    put_abc(builder, e.line, Op::Test, x, 0, truth_field(truth))?;
    jump_to(builder, e.line, label)?;
    builder.free_from(free);
    Ok(())
}

// A test of a value, or of a literal.
#[cycle(source)]
fn test_value(
    alloc: Global,
    builder: &mut Builder,
    e: &Exp,
    truth: bool,
    label: usize,
) -> Result<(), AllocError>
    ensures { OnOk result (maker_of builder.new ≡ parts.test_by (parts.literal (view_exp e.now)) e.now.line (coded (view_exp e.now)) truth label (maker_of builder.old)) }
{
    match literal(alloc, e)? {
        Some(k) => jump_literal(builder, e.line, &k, truth, label),
        None => test(alloc, builder, e, truth, label),
    }
}

/// A comparison, and its jump where it has this truth.
#[cycle(source)]
pub fn compare(
    alloc: Global,
    builder: &mut Builder,
    line: u32,
    op: BinaryOp,
    left: &Exp,
    right: &Exp,
    truth: bool,
    label: usize,
) -> Result<(), AllocError>
    ensures { OnOk result (maker_of builder.new ≡ parts.compare line op (coded (view_exp left.now)) (coded (view_exp right.now)) truth label (maker_of builder.old)) }
{
    let x = rk(alloc, builder, left)?;
    let y = rk(alloc, builder, right)?;
    builder.put(line, comparison(op, truth, x, y))?;
    jump_to(builder, line, label)
}

/// Jumps to a label where an expression has this truth, and else goes on.
#[cycle(source)]
pub fn jump_if(
    alloc: Global,
    builder: &mut Builder,
    e: &Exp,
    truth: bool,
    label: usize,
) -> Result<(), AllocError>
    ensures { OnOk result (maker_of builder.new ≡ (coded (view_exp e.now)).jump_if truth label (maker_of builder.old)) }
{
    match &e.kind {
        ExpKind::Paren(inner) => jump_if(alloc, builder, inner, truth, label),
        ExpKind::Unary {
            op: UnaryOp::Not,
            of,
        } => jump_if(alloc, builder, of, !truth, label),
        ExpKind::And(left, right) => jump_both(alloc, builder, false, left, right, truth, label),
        ExpKind::Or(left, right) => jump_both(alloc, builder, true, left, right, truth, label),
        ExpKind::Binary { op, left, right } if is_comparison(*op) => {
            let free = builder.free;
            compare(alloc, builder, e.line, *op, left, right, truth, label)?;
            builder.free_from(free);
            Ok(())
        }
        _ => test_value(alloc, builder, e, truth, label),
    }
}

// The jumps of `and` and `or`, whose left value decides where it has one truth.
#[cycle(source)]
fn jump_both(
    alloc: Global,
    builder: &mut Builder,
    decides: bool,
    left: &Exp,
    right: &Exp,
    truth: bool,
    label: usize,
) -> Result<(), AllocError>
    ensures { OnOk result (maker_of builder.new ≡ parts.logic_jump decides (coded (view_exp left.now)) (coded (view_exp right.now)) truth label (maker_of builder.old)) }
{
    if decides == truth {
        jump_if(alloc, builder, left, truth, label)?;
        return jump_if(alloc, builder, right, truth, label);
    }
    let over = builder.new_label()?;
    jump_if(alloc, builder, left, !truth, over)?;
    jump_if(alloc, builder, right, truth, label)?;
    builder.place(over);
    Ok(())
}

/// The value of `and` or `or` in a register, whose left value decides where it has one truth.
#[cycle(source)]
pub fn logic_here(
    alloc: Global,
    builder: &mut Builder,
    line: u32,
    decides: bool,
    left: &Exp,
    right: &Exp,
    r: u32,
) -> Result<(), AllocError>
    ensures { OnOk result (maker_of builder.new ≡ parts.logic_here line decides (coded (view_exp left.now)) (coded (view_exp right.now)) r (maker_of builder.old)) }
{
    decide(alloc, builder, line, decides, left, r)?;
    let label = builder.new_label()?;
    jump_to(builder, line, label)?;
    to_reg(alloc, builder, right, r)?;
    builder.place(label);
    Ok(())
}

// The left value of `and` or `or` in a register, and its test.
#[cycle(source)]
fn decide(
    alloc: Global,
    builder: &mut Builder,
    line: u32,
    decides: bool,
    left: &Exp,
    r: u32,
) -> Result<(), AllocError>
    ensures { OnOk result (maker_of builder.new ≡ parts.decide line decides (coded (view_exp left.now)) r (parts.local_register (view_exp left.now) (maker_of builder.old)) (maker_of builder.old)) }
{
    match local_register(builder, left) {
        Some(x) => {
            builder.pass_name();
            put_abc(
                builder,
                line,
                Op::TestSet,
                r,
                field(x)?,
                truth_field(decides),
            )
        }
        None => {
            to_reg(alloc, builder, left, r)?;
            put_abc(builder, line, Op::Test, r, 0, truth_field(decides))
        }
    }
}

// Values of expressions: in a register, and as operands.
ghost use Rattle.std.specs.Prelude.{◌≡◌, false, true, IfOk, OnOk};
ghost use Rattle.lua_tree.specs.View.{view_exp, view_items};
ghost use Rattle.scheme.specs.Making as making;
ghost use Rattle.scheme.specs.Expressions as parts;
ghost use Rattle.scheme.specs.Lists as lists;
ghost use Rattle.scheme.specs.Scheme.{coded, entries};
ghost use Rattle.code_builder.specs.Made.{maker_of};

use crate::calls::multi;
use crate::conditions::{compare, logic_here};
use crate::constructors::table_at;
use crate::folding::{arith_word, literal, numeral};
use crate::functions::closure;
use crate::kinds::unary_word;
use crate::words::{
    load, local_register, moved, name_value, put_abc, rk_text, small_constant, text_constant,
};
use code_builder::{Builder, field};
use lua_tree::{BinaryOp, Exp, ExpKind, Items, UnaryOp};
use opcode::Op;
use std::alloc::{AllocError, Global};

/// The value of an expression in the next free register, which is taken.
#[cycle(source)]
pub fn next_reg(alloc: Global, builder: &mut Builder, e: &Exp) -> Result<(), AllocError>
    ensures { OnOk result (maker_of builder.new ≡ parts.next_reg (coded (view_exp e.now)) (maker_of builder.old)) }
{
    let r = builder.free;
    to_reg(alloc, builder, e, r)?;
    builder.take_registers(1)
}

/// The register of an expression that is a local; any other expression goes to the next free register.
#[cycle(source)]
pub fn operand(alloc: Global, builder: &mut Builder, e: &Exp) -> Result<u32, AllocError>
    ensures value { IfOk result (λ x. x ≡ (parts.operand (coded (view_exp e.now)) (maker_of builder.old)).value) }
    ensures made { OnOk result (maker_of builder.new ≡ (parts.operand (coded (view_exp e.now)) (maker_of builder.old)).after) }
{
    match local_register(builder, e) {
        Some(x) => {
            let x = field(x)?;
            builder.pass_name();
            Ok(x)
        }
        None => {
            let x = builder.free;
            next_reg(alloc, builder, e)?;
            Ok(x)
        }
    }
}

/// A constant, where an expression is a literal whose number is small; else an operand.
#[cycle(source)]
pub fn rk(alloc: Global, builder: &mut Builder, e: &Exp) -> Result<u32, AllocError>
    ensures value { IfOk result (λ x. x ≡ (parts.rk (coded (view_exp e.now)) (maker_of builder.old)).value) }
    ensures made { OnOk result (maker_of builder.new ≡ (parts.rk (coded (view_exp e.now)) (maker_of builder.old)).after) }
{
    match literal(alloc, e)? {
        Some(k) => {
            if builder.is_small(&k) {
                small_constant(builder, k)
            } else {
                operand(alloc, builder, e)
            }
        }
        None => operand(alloc, builder, e),
    }
}

/// The value of an expression in a register.
#[cycle(source)]
pub fn to_reg(alloc: Global, builder: &mut Builder, e: &Exp, r: u32) -> Result<(), AllocError>
    ensures { OnOk result (maker_of builder.new ≡ (coded (view_exp e.now)).to_reg r (maker_of builder.old)) }
{
    match &e.kind {
        ExpKind::Nil => put_abc(builder, e.line, Op::LoadNil, r, r, 0),
        ExpKind::True => put_abc(builder, e.line, Op::LoadBool, r, 1, 0),
        ExpKind::False => put_abc(builder, e.line, Op::LoadBool, r, 0, 0),
        ExpKind::Vararg => put_abc(builder, e.line, Op::Vararg, r, 2, 0),
        ExpKind::Number(_) => match numeral(e) {
            Some(k) => load(builder, e.line, r, k),
            None => Ok(()),
        },
        ExpKind::Text(text) => {
            let k = text_constant(alloc, text.bytes())?;
            load(builder, e.line, r, k)
        }
        ExpKind::Function(body) => {
            let free = builder.free;
            closure(alloc, builder, e.line, body, false, r)?;
            builder.free_from(free);
            Ok(())
        }
        ExpKind::Name(name) => name_value(alloc, builder, e.line, name.bytes(), r),
        ExpKind::Index { on, key } => index_value(alloc, builder, e.line, on, key, r),
        ExpKind::Field { on, name } => field_value(alloc, builder, e.line, on, name.bytes(), r),
        ExpKind::Call { .. } | ExpKind::Method { .. } => call_value(alloc, builder, e, r),
        ExpKind::And(left, right) => { logic_value(alloc, builder, e.line, false, left, right, r) }
        ExpKind::Or(left, right) => { logic_value(alloc, builder, e.line, true, left, right, r) }
        ExpKind::Binary { op, left, right } => match numeral(e) {
            Some(k) => load(builder, e.line, r, k),
            None => binary_value(alloc, builder, e.line, *op, left, right, r),
        },
        ExpKind::Unary { op, of } => match numeral(e) {
            Some(k) => load(builder, e.line, r, k),
            None => unary_value(alloc, builder, e.line, *op, of, r),
        },
        ExpKind::Table(items) => table_value(alloc, builder, e.line, items, r),
        ExpKind::Paren(inner) => to_reg(alloc, builder, inner, r),
    }
}

// The value of an indexed expression.
#[cycle(source)]
fn index_value(
    alloc: Global,
    builder: &mut Builder,
    line: u32,
    on: &Exp,
    key: &Exp,
    r: u32,
) -> Result<(), AllocError>
    ensures { OnOk result (maker_of builder.new ≡ making.freeing (parts.indexed_value line (coded (view_exp on.now)) (parts.rk (coded (view_exp key.now))) r) (maker_of builder.old)) }
{
    let free = builder.free;
    let t = operand(alloc, builder, on)?;
    let k = rk(alloc, builder, key)?;
    put_abc(builder, line, Op::GetTable, r, t, k)?;
    builder.free_from(free);
    Ok(())
}

// The value of a field.
#[cycle(source)]
fn field_value(
    alloc: Global,
    builder: &mut Builder,
    line: u32,
    on: &Exp,
    name: &[u8],
    r: u32,
) -> Result<(), AllocError>
    ensures { OnOk result (maker_of builder.new ≡ making.freeing (parts.indexed_value line (coded (view_exp on.now)) (parts.rk_text line name.now) r) (maker_of builder.old)) }
{
    let free = builder.free;
    let t = operand(alloc, builder, on)?;
    let k = rk_text(alloc, builder, line, name)?;
    put_abc(builder, line, Op::GetTable, r, t, k)?;
    builder.free_from(free);
    Ok(())
}

// The first value of a call.
#[cycle(source)]
fn call_value(alloc: Global, builder: &mut Builder, e: &Exp, r: u32) -> Result<(), AllocError>
    ensures { OnOk result (maker_of builder.new ≡ making.freeing (lists.by_base e.now.line ((coded (view_exp e.now)).multi Op.Call (Some 1)) r) (maker_of builder.old)) }
{
    let base = builder.free;
    multi(alloc, builder, e, Op::Call, Some(1))?;
    moved(builder, e.line, base, r)?;
    builder.free_from(base);
    Ok(())
}

// A new table.
#[cycle(source)]
fn table_value(
    alloc: Global,
    builder: &mut Builder,
    line: u32,
    items: &Items,
    r: u32,
) -> Result<(), AllocError>
    ensures { OnOk result (maker_of builder.new ≡ making.freeing (lists.by_base line (lists.table_at line (entries (view_items items.now))) r) (maker_of builder.old)) }
{
    let base = builder.free;
    table_at(alloc, builder, line, items)?;
    moved(builder, line, base, r)?;
    builder.free_from(base);
    Ok(())
}

// The value of a unary operator that is not folded.
#[cycle(source)]
fn unary_value(
    alloc: Global,
    builder: &mut Builder,
    line: u32,
    op: UnaryOp,
    of: &Exp,
    r: u32,
) -> Result<(), AllocError>
    ensures { OnOk result (maker_of builder.new ≡ making.freeing (parts.unary_value line op (coded (view_exp of.now)) r) (maker_of builder.old)) }
{
    let free = builder.free;
    let x = operand(alloc, builder, of)?;
    put_abc(builder, line, unary_word(op), r, x, 0)?;
    builder.free_from(free);
    Ok(())
}

// The value of a binary operator that is not folded.
#[cycle(source)]
fn binary_value(
    alloc: Global,
    builder: &mut Builder,
    line: u32,
    op: BinaryOp,
    left: &Exp,
    right: &Exp,
    r: u32,
) -> Result<(), AllocError>
    ensures { OnOk result (maker_of builder.new ≡ making.freeing (parts.binary_value line op (coded (view_exp left.now)) (coded (view_exp right.now)) r) (maker_of builder.old)) }
{
    match arith_word(op) {
        Some(word) => arithmetic(alloc, builder, line, word, left, right, r),
        None => {
            if op == BinaryOp::Concat {
                concat(alloc, builder, line, left, right, r)
            } else {
                truth_value(alloc, builder, line, op, left, right, r)
            }
        }
    }
}

// The value of an operator of arithmetic.
#[cycle(source)]
fn arithmetic(
    alloc: Global,
    builder: &mut Builder,
    line: u32,
    word: Op,
    left: &Exp,
    right: &Exp,
    r: u32,
) -> Result<(), AllocError>
    ensures { OnOk result (maker_of builder.new ≡ making.freeing (parts.arithmetic line word (coded (view_exp left.now)) (coded (view_exp right.now)) r) (maker_of builder.old)) }
{
    let free = builder.free;
    let x = rk(alloc, builder, left)?;
    let y = rk(alloc, builder, right)?;
    put_abc(builder, line, word, r, x, y)?;
    builder.free_from(free);
    Ok(())
}

// The value of `..`, whose operands go to registers along the right spine.
#[cycle(source)]
fn concat(
    alloc: Global,
    builder: &mut Builder,
    line: u32,
    left: &Exp,
    right: &Exp,
    r: u32,
) -> Result<(), AllocError>
    ensures { OnOk result (maker_of builder.new ≡ making.freeing (parts.concat line (coded (view_exp left.now)) (coded (view_exp right.now)) r) (maker_of builder.old)) }
{
    let first = builder.free;
    next_reg(alloc, builder, left)?;
    spine(alloc, builder, right)?;
    let last = builder.free.saturating_sub(1);
    put_abc(builder, line, Op::Concat, r, first, last)?;
    builder.free_from(first);
    Ok(())
}

// The operands of `..` along the right spine, each in the next register.
#[cycle(source)]
fn spine(alloc: Global, builder: &mut Builder, e: &Exp) -> Result<(), AllocError>
    ensures { OnOk result (maker_of builder.new ≡ (coded (view_exp e.now)).spine (maker_of builder.old)) }
{
    match &e.kind {
        ExpKind::Binary {
            op: BinaryOp::Concat,
            left,
            right,
        } => {
            next_reg(alloc, builder, left)?;
            spine(alloc, builder, right)
        }
        _ => next_reg(alloc, builder, e),
    }
}

// The truth of a comparison.
#[cycle(source)]
fn truth_value(
    alloc: Global,
    builder: &mut Builder,
    line: u32,
    op: BinaryOp,
    left: &Exp,
    right: &Exp,
    r: u32,
) -> Result<(), AllocError>
    ensures { OnOk result (maker_of builder.new ≡ making.freeing (parts.truth_value line op (coded (view_exp left.now)) (coded (view_exp right.now)) r) (maker_of builder.old)) }
{
    let free = builder.free;
    let label = builder.new_label()?;
    compare(alloc, builder, line, op, left, right, true, label)?;
    put_abc(builder, line, Op::LoadBool, r, 0, 1)?;
    builder.place(label);
    put_abc(builder, line, Op::LoadBool, r, 1, 0)?;
    builder.free_from(free);
    Ok(())
}

// The value of `and` or `or`, which goes by the next free register where it is to go elsewhere.
#[cycle(source)]
fn logic_value(
    alloc: Global,
    builder: &mut Builder,
    line: u32,
    decides: bool,
    left: &Exp,
    right: &Exp,
    r: u32,
) -> Result<(), AllocError>
    ensures { OnOk result (maker_of builder.new ≡ making.freeing (parts.logic_value line decides (coded (view_exp left.now)) (coded (view_exp right.now)) r) (maker_of builder.old)) }
{
    let free = builder.free;
    logic_here(alloc, builder, line, decides, left, right, free)?;
    if r != free {
        builder.take_registers(1)?;
        put_abc(builder, line, Op::Move, r, free, 0)?;
    }
    builder.free_from(free);
    Ok(())
}

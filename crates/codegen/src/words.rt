// Words of expressions.
ghost use Rattle.std.specs.Prelude.{◌≡◌, ◌+◌, ◌-◌, IfOk, OnOk};
ghost use Rattle.opcode.specs.Word.{truth_field as the_truth_field};
ghost use Rattle.lua_tree.specs.View.{view_exp};
ghost use Rattle.scheme.specs.Making as making;
ghost use Rattle.scheme.specs.Expressions as parts;
ghost use Rattle.scheme.specs.Lists as lists;
ghost use Rattle.code_builder.specs.Made.{maker_of};
ghost use Rattle.code_builder.specs.Places.{place_of};

use crate::folding::is_true;
use crate::kinds::is_name;
use code_builder::{Builder, Place, field};
use lua_num::ByteText;
use lua_tree::{BinaryOp, Exp};
use opcode::Op;
use proto::Constant;
use scheme::Piece;
use std::alloc::{AllocError, Global};

/// So many values, or open results.
pub type Want = Option<u32>;

/// A sum, where it is a `u32`.
pub fn plus(a: u32, b: u32) -> Result<u32, AllocError>
    ensures { IfOk result (λ sum. sum ≡ a + b) }
{
    a.checked_add(b).ok_or(AllocError)
}

/// A field that counts values: 0 stands for open ones.
pub fn count_field(more: u32, want: Want) -> Result<u32, AllocError>
    ensures { IfOk result (λ x. x ≡ parts.count_field more want) }
{
    match want {
        None => Ok(0),
        Some(n) => plus(n, more),
    }
}

/// A truth as a field.
pub fn truth_field(truth: bool) -> u32
    ensures { result ≡ the_truth_field truth }
{
    u32::from(truth)
}

/// Appends a word with three fields.
pub fn put_abc(
    builder: &mut Builder,
    line: u32,
    op: Op,
    a: u32,
    b: u32,
    c: u32,
) -> Result<(), AllocError>
    ensures { OnOk result (maker_of builder.new ≡ making.put line (Piece.Abc op a b c) (maker_of builder.old)) }
{
    builder.put(line, Piece::Abc { op, a, b, c })
}

/// Appends a word with a field and a large one.
pub fn put_abx(builder: &mut Builder, line: u32, op: Op, a: u32, bx: u32) -> Result<(), AllocError>
    ensures { OnOk result (maker_of builder.new ≡ making.put line (Piece.Abx op a bx) (maker_of builder.old)) }
{
    builder.put(line, Piece::Abx { op, a, bx })
}

/// Appends a word with a field that jumps to a label.
pub fn put_jump(
    builder: &mut Builder,
    line: u32,
    op: Op,
    a: u32,
    label: usize,
) -> Result<(), AllocError>
    ensures { OnOk result (maker_of builder.new ≡ making.put line (Piece.Jump op a label) (maker_of builder.old)) }
{
    builder.put(line, Piece::Jump { op, a, label })
}

/// Appends a jump to a label.
pub fn jump_to(builder: &mut Builder, line: u32, label: usize) -> Result<(), AllocError>
    ensures { OnOk result (maker_of builder.new ≡ making.jump_to line label (maker_of builder.old)) }
{
    put_jump(builder, line, Op::Jmp, 0, label)
}

/// Loads a constant.
pub fn load(builder: &mut Builder, line: u32, r: u32, k: Constant) -> Result<(), AllocError>
    ensures { OnOk result (maker_of builder.new ≡ parts.load line r k (maker_of builder.old)) }
{
    let number = builder.constant(k)?;
    put_abx(builder, line, Op::LoadK, r, number)
}

/// A constant as an operand.
pub fn small_constant(builder: &mut Builder, k: Constant) -> Result<u32, AllocError>
    ensures value { IfOk result (λ x. x ≡ (parts.small_constant k (maker_of builder.old)).value) }
    ensures made { OnOk result (maker_of builder.new ≡ (parts.small_constant k (maker_of builder.old)).after) }
{
    let number = builder.constant(k)?;
    plus(number, 256)
}

/// A copy of a text as a constant.
pub fn text_constant(alloc: Global, text: &[u8]) -> Result<Constant, AllocError>
    ensures { IfOk result (λ k. k ≡ Constant.Text text.now) }
{
    Ok(Constant::Text(ByteText::from_slice(alloc, text)?))
}

/// A string that is no expression of its own, in the next free register.
pub fn next_text(
    alloc: Global,
    builder: &mut Builder,
    line: u32,
    text: &[u8],
) -> Result<(), AllocError>
    ensures { OnOk result (maker_of builder.new ≡ parts.next_text line text.now (maker_of builder.old)) }
{
    let k = text_constant(alloc, text)?;
    load(builder, line, builder.free, k)?;
    builder.take_registers(1)
}

/// Such a string as an operand.
pub fn rk_text(
    alloc: Global,
    builder: &mut Builder,
    line: u32,
    text: &[u8],
) -> Result<u32, AllocError>
    ensures value { IfOk result (λ x. x ≡ (parts.rk_text line text.now (maker_of builder.old)).value) }
    ensures made { OnOk result (maker_of builder.new ≡ (parts.rk_text line text.now (maker_of builder.old)).after) }
{
    let k = text_constant(alloc, text)?;
    if builder.is_small(&k) {
        return small_constant(builder, k);
    }
    let r = builder.free;
    load(builder, line, r, k)?;
    builder.take_registers(1)?;
    Ok(r)
}

// The value of what is in this place.
fn read_place(
    alloc: Global,
    builder: &mut Builder,
    line: u32,
    r: u32,
    name: &[u8],
    place: Place,
) -> Result<(), AllocError>
    ensures { OnOk result (maker_of builder.new ≡ parts.read_where line r name.now (place_of place) (maker_of builder.old)) }
{
    match place {
        Place::Register(x) => put_abc(builder, line, Op::Move, r, field(x)?, 0),
        Place::Upvalue(slot) => put_abc(builder, line, Op::GetUpval, r, field(slot)?, 0),
        Place::Global => {
            let k = text_constant(alloc, name)?;
            let number = builder.constant(k)?;
            put_abx(builder, line, Op::GetGlobal, r, number)
        }
    }
}

/// The value of a name.
pub fn name_value(
    alloc: Global,
    builder: &mut Builder,
    line: u32,
    name: &[u8],
    r: u32,
) -> Result<(), AllocError>
    ensures { OnOk result (maker_of builder.new ≡ making.freeing (parts.name_value line name.now r) (maker_of builder.old)) }
{
    let free = builder.free;
    let place = builder.next_name();
    builder.pass_name();
    read_place(alloc, builder, line, r, name, place)?;
    builder.free_from(free);
    Ok(())
}

/// The register of an expression that is a local, in parentheses or not.
pub fn local_register(builder: &Builder, e: &Exp) -> Option<usize>
    ensures { result ≡ parts.local_register (view_exp e.now) (maker_of builder.now) }
{
    if !is_name(e) {
        return None;
    }
    match builder.next_name() {
        Place::Register(x) => Some(x),
        _ => None,
    }
}

/// The word of a comparison, which does its jump where the comparison has this truth.
pub fn comparison(op: BinaryOp, truth: bool, x: u32, y: u32) -> Piece
    ensures { result ≡ parts.comparison_word op truth x y }
{
    let (op, a, b, c) = match op {
        BinaryOp::Ne => (Op::Eq, truth_field(!truth), x, y),
        BinaryOp::Lt => (Op::Lt, truth_field(truth), x, y),
        BinaryOp::Le => (Op::Le, truth_field(truth), x, y),
        BinaryOp::Gt => (Op::Lt, truth_field(truth), y, x),
        BinaryOp::Ge => (Op::Le, truth_field(truth), y, x),
        _ => (Op::Eq, truth_field(truth), x, y),
    };
    Piece::Abc { op, a, b, c }
}

/// A jump where a literal has this truth.
pub fn jump_literal(
    builder: &mut Builder,
    line: u32,
    k: &Constant,
    truth: bool,
    label: usize,
) -> Result<(), AllocError>
    ensures { OnOk result (maker_of builder.new ≡ parts.jump_literal line k.now truth label (maker_of builder.old)) }
{
    if is_true(k) == truth {
        jump_to(builder, line, label)?;
    }
    Ok(())
}

/// A value that came in one register goes to another.
pub fn moved(builder: &mut Builder, line: u32, base: u32, r: u32) -> Result<(), AllocError>
    ensures { OnOk result (maker_of builder.new ≡ lists.moved line base r (maker_of builder.old)) }
{
    if base != r {
        put_abc(builder, line, Op::Move, r, base, 0)?;
    }
    Ok(())
}

/// The results of a call stand from this register on.
pub fn results_at(builder: &mut Builder, base: u32, want: Want) -> Result<(), AllocError>
    ensures { OnOk result (maker_of builder.new ≡ lists.results_at base want (maker_of builder.old)) }
{
    builder.free_from(base);
    match want {
        None => {
            builder.used(plus(base, 1)?);
            Ok(())
        }
        Some(n) => builder.take_registers(n),
    }
}

/// The word of `...`, which gives so many values.
pub fn vararg_at(builder: &mut Builder, line: u32, want: Want) -> Result<(), AllocError>
    ensures { OnOk result (maker_of builder.new ≡ lists.vararg_at line Op.Call want (maker_of builder.old)) }
{
    let base = builder.free;
    put_abc(builder, line, Op::Vararg, base, count_field(1, want)?, 0)?;
    results_at(builder, base, want)
}

/// Nil in so many registers from the next free one on.
pub fn nils(builder: &mut Builder, line: u32, n: u32) -> Result<(), AllocError>
    ensures { OnOk result (maker_of builder.new ≡ lists.nils line n (maker_of builder.old)) }
{
    let first = builder.free;
    builder.take_registers(n)?;
    let last = plus(first, n)?.saturating_sub(1);
    put_abc(builder, line, Op::LoadNil, first, last, 0)
}

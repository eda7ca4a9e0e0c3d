// One instruction as a listing shows it.
ghost use Rattle.std.specs.Prelude.{◌≡◌, ◌+ℤ◌, ◌-◌, suc, pos, ◌++◌, ◌∷◌, OnOk, Some, None, slice_get, codes, if◌then◌else◌};
ghost use Rattle.lua_num.specs.Numeral.{decimal_text};
ghost use Rattle.lister.specs.Listing.{digits, instruction_text, is_constant, field_text, fields_text, comment, constant_or};
ghost use Rattle.lister.specs.Shapes.{meant, operand_text, operands_comment};

use crate::shape::{Shape, op_name, shape_of};
use crate::text::{put_constant, put_number};
use lua_num::{ByteText, decimal};
use opcode::Instr;
use proto::Constant;
use std::alloc::{AllocError, Global};

/// The first field that is a constant where it may be one.
const FIRST_CONSTANT: u32 = 256;

/// Appends an instruction: its name, A, its other fields, and a comment.
pub fn put_instruction(
    alloc: Global,
    out: &mut ByteText,
    constants: &[Constant],
    pc: usize,
    instr: Instr,
) -> Result<(), AllocError>
    ensures { OnOk result (out.new ≡ out.old ++ instruction_text constants.now pc instr) }
{
    let shape = shape_of(instr.op);
    out.extend(op_name(instr.op).as_bytes())?;
    put_number_behind(alloc, out, b" ", instr.a)?;
    put_fields(alloc, out, shape, instr)?;
    put_comment(alloc, out, constants, pc, shape, instr)
}

/// Appends a number behind a text.
fn put_number_behind(
    alloc: Global,
    out: &mut ByteText,
    text: &[u8],
    number: u32,
) -> Result<(), AllocError>
    ensures { OnOk result (out.new ≡ out.old ++ (text.now ++ digits number)) }
{
    out.extend(text)?;
    put_number(alloc, out, number as usize)
}

fn put_fields(
    alloc: Global,
    out: &mut ByteText,
    shape: Shape,
    instr: Instr,
) -> Result<(), AllocError>
    ensures { OnOk result (out.new ≡ out.old ++ fields_text (meant shape) instr) }
{
    match shape {
        Shape::Constant => put_number_behind(alloc, out, b" k", instr.bx),
        Shape::Function => put_number_behind(alloc, out, b" f", instr.bx),
        Shape::Jump => {
            out.push(b' ')?;
            out.extend(decimal(alloc, i64::from(instr.sbx))?.bytes())
        }
        Shape::Two {
            b_may_be_constant,
            c_may_be_constant,
        } => {
            put_field(alloc, out, b_may_be_constant, instr.b)?;
            put_field(alloc, out, c_may_be_constant, instr.c)
        }
    }
}

fn put_field(
    alloc: Global,
    out: &mut ByteText,
    may_be_constant: bool,
    field: u32,
) -> Result<(), AllocError>
    ensures { OnOk result (out.new ≡ out.old ++ field_text may_be_constant field) }
{
    match constant_of(may_be_constant, field) {
        Some(number) => put_number_behind(alloc, out, b" k", number),
        None => put_number_behind(alloc, out, b" ", field),
    }
}

/// The number of the constant that a field is, where it is one.
fn constant_of(may_be_constant: bool, field: u32) -> Option<u32>
    ensures { result ≡ (if is_constant may_be_constant field then Some (field - 256) else None) }
{
    if may_be_constant && field >= FIRST_CONSTANT {
        Some(field - FIRST_CONSTANT)
    } else {
        None
    }
}

/// Appends the constants that an instruction shows, or where it jumps.
fn put_comment(
    alloc: Global,
    out: &mut ByteText,
    constants: &[Constant],
    pc: usize,
    shape: Shape,
    instr: Instr,
) -> Result<(), AllocError>
    ensures { OnOk result (out.new ≡ out.old ++ comment constants.now pc (meant shape) instr) }
{
    match shape {
        Shape::Constant => put_operands(alloc, out, constants, Some(instr.bx), None),
        Shape::Function => Ok(()),
        Shape::Jump => {
            out.extend(b" ; to ")?;
            put_target(alloc, out, pc, instr.sbx)
        }
        Shape::Two {
            b_may_be_constant,
            c_may_be_constant,
        } => {
            let b = constant_of(b_may_be_constant, instr.b);
            let c = constant_of(c_may_be_constant, instr.c);
            put_operands(alloc, out, constants, b, c)
        }
    }
}

/// Appends the pc that a jump goes to, which is below 0 where the chunk is wrong.
fn put_target(alloc: Global, out: &mut ByteText, pc: usize, sbx: i32) -> Result<(), AllocError>
    ensures { OnOk result (out.new ≡ out.old ++ decimal_text (pos (suc pc) +ℤ sbx)) }
{
    let target = pc as i128 + 1 + i128::from(sbx);
    out.extend(target.to_string(alloc)?.as_bytes())
}

/// Appends a comment of the constants of two operands, and nothing where neither is a constant.
fn put_operands(
    alloc: Global,
    out: &mut ByteText,
    constants: &[Constant],
    first: Option<u32>,
    second: Option<u32>,
) -> Result<(), AllocError>
    ensures { OnOk result (out.new ≡ out.old ++ operands_comment constants.now first second) }
{
    if first.is_some() || second.is_some() {
        out.extend(b" ;")?;
    }
    put_operand(alloc, out, constants, first)?;
    put_operand(alloc, out, constants, second)
}

fn put_operand(
    alloc: Global,
    out: &mut ByteText,
    constants: &[Constant],
    operand: Option<u32>,
) -> Result<(), AllocError>
    ensures { OnOk result (out.new ≡ out.old ++ operand_text constants.now operand) }
{
    let Some(number) = operand else {
        return Ok(());
    };
    match constants.get(number as usize) {
        Some(constant) => {
            out.push(b' ')?;
            put_constant(alloc, out, constant)
        }
        None => out.extend(b" ?"),
    }
}

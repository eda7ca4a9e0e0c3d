// Reading one instruction.
ghost use Rattle.std.specs.Prelude.{◌≡◌};
ghost use Rattle.lister.specs.Listing.{shape_of as shape_in, is_constant as is_constant_in};
ghost use Rattle.asm_text.specs.Lines.{names_something};
ghost use Rattle.asm_text.specs.Reading.{Cuts, meant, field_at, fields_at, instr_at, ends_line as ends_line_in};

use crate::cuts::{after, behind, cut};
use crate::miss::Unread;
use crate::numbers::{number, signed};
use crate::ops::op_of;
use crate::shape::{Shape, shape_of};
use opcode::{Instr, Op};

/// The first field that is a constant where it may be one.
const FIRST_CONSTANT: u64 = 256;

/// What B and C are below, what Bx is below, and between which sBx lies.
const FIELD_LIMIT: u64 = 512;

const BX_LIMIT: u64 = 262_144;

const SBX_LOW: u64 = 131_072;

const SBX_HIGH: u64 = 131_073;

/// An instruction without its comment, and what is left.
#[tactic(auto, unfolding(crate::specs::Reading::instr_at))]
pub fn instr_of(text: &[u8]) -> Result<(Instr, &[u8]), Unread>
    ensures { Cuts (λ x. (x.0, x.1.now)) result (instr_at text.now) }
{
    let (name, rest) = cut(b' ', text)?;
    let Some(op) = op_of(name) else {
        return Err(Unread::BadForm);
    };
    let (a, rest) = number(256, rest)?;
    fields_of(shape_of(op), op, a as u32, rest)
}

#[tactic(auto, unfolding(crate::specs::Reading::fields_at))]
fn fields_of(shape: Shape, op: Op, a: u32, text: &[u8]) -> Result<(Instr, &[u8]), Unread>
    ensures { Cuts (λ x. (x.0, x.1.now)) result (fields_at (meant shape) op a text.now) }
{
    let bare = Instr {
        op,
        a,
        b: 0,
        c: 0,
        bx: 0,
        sbx: 0,
    };
    match shape {
        Shape::Constant => {
            let rest = behind(b" k", text)?;
            let (bx, rest) = number(BX_LIMIT, rest)?;
            Ok((
                Instr {
                    bx: bx as u32,
                    ..bare
                },
                rest,
            ))
        }
        Shape::Function => {
            let rest = behind(b" f", text)?;
            let (bx, rest) = number(BX_LIMIT, rest)?;
            Ok((
                Instr {
                    bx: bx as u32,
                    ..bare
                },
                rest,
            ))
        }
        Shape::Jump => {
            let rest = behind(b" ", text)?;
            let (sbx, rest) = signed(SBX_LOW, SBX_HIGH, rest)?;
            Ok((
                Instr {
                    sbx: sbx as i32,
                    ..bare
                },
                rest,
            ))
        }
        Shape::Two {
            b_may_be_constant,
            c_may_be_constant,
        } => {
            let (b, rest) = field_of(b_may_be_constant, text)?;
            let (c, rest) = field_of(c_may_be_constant, rest)?;
            Ok((Instr { b, c, ..bare }, rest))
        }
    }
}

/// A field behind a space. One that may be a constant is one from 256 on, and then has its number behind `k`.
#[tactic(auto, unfolding(crate::specs::Reading::field_at))]
fn field_of(may_be_constant: bool, text: &[u8]) -> Result<(u32, &[u8]), Unread>
    ensures { Cuts (λ x. (x.0, x.1.now)) result (field_at may_be_constant text.now) }
{
    let text = behind(b" ", text)?;
    match after(b"k", text) {
        Some(rest) => {
            if !may_be_constant {
                return Err(Unread::BadForm);
            }
            let (number, rest) = number(FIRST_CONSTANT, rest)?;
            Ok(((number + FIRST_CONSTANT) as u32, rest))
        }
        None => {
            let limit = if may_be_constant {
                FIRST_CONSTANT
            } else {
                FIELD_LIMIT
            };
            let (number, rest) = number(limit, text)?;
            Ok((number as u32, rest))
        }
    }
}

/// Whether an instruction has a comment: a jump has, and what names a constant.
pub fn has_comment(instr: Instr) -> bool
    ensures { result ≡ names_something (shape_in instr.op) instr }
{
    match shape_of(instr.op) {
        Shape::Constant | Shape::Jump => true,
        Shape::Function => false,
        Shape::Two {
            b_may_be_constant,
            c_may_be_constant,
        } => is_constant(b_may_be_constant, instr.b) || is_constant(c_may_be_constant, instr.c),
    }
}

fn is_constant(may_be_constant: bool, field: u32) -> bool
    ensures { result ≡ is_constant_in may_be_constant field }
{
    may_be_constant && u64::from(field) >= FIRST_CONSTANT
}

/// Whether a text is a comment where one is due, and else empty.
pub fn ends_line(commented: bool, text: &[u8]) -> bool
    ensures { result ≡ ends_line_in commented text.now }
{
    if commented {
        after(b" ; ", text).is_some()
    } else {
        text.is_empty()
    }
}

// The registers, constants and upvalues that an instruction names.
ghost use Rattle.proto.specs.View.{view_proto};
ghost use Rattle.std.specs.Prelude.{◌^◌, ◌≡◌, ◌<◌, ◌-◌, filter, map, nat_lt, nat_le};
ghost use Rattle.rules.specs.Breaks.{reaches, names, operands as operands_of, has_order, breaks_register as breaks_register_of, breaks_constant as breaks_constant_of, breaks_function as breaks_function_of, breaks_upvalue as breaks_upvalue_of, breaks_name as breaks_name_of};
ghost use Rattle.rules.specs.Places.{named_by, named_by_all, named_further, words_of};
ghost use Rattle.opcode.specs.Word.{InRange};
ghost use Rattle.opcode.specs.Reading.{instr_of};
ghost use Rattle.verifier.specs.Rules.{all_of, listed};

use crate::words::Function;
use opcode::{Instr, Op, decode};
use proto::Constant;

/// The fields that are a register below 256 and a constant from 256 on.
#[derive(Clone, Copy, Debug, PartialEq, Eq)]
struct Operands {
    b: Option<u32>,
    c: Option<u32>,
}

// From this one on an operand is a constant.
const FIRST_CONSTANT: u32 = 256;

fn fields(instr: Instr) -> Operands
    ensures { all_of result ≡ operands_of instr.op instr }
{
    let Instr { b, c, .. } = instr;
    match instr.op {
        Op::GetTable | Op::Self_ => Operands {
            b: None,
            c: Some(c),
        },
        Op::SetTable
        | Op::Add
        | Op::Sub
        | Op::Mul
        | Op::Div
        | Op::Mod
        | Op::Pow
        | Op::Eq
        | Op::Lt
        | Op::Le => Operands {
            b: Some(b),
            c: Some(c),
        },
        _ => Operands { b: None, c: None },
    }
}

/// Whether an instruction's fields name registers in order.
fn in_order(instr: Instr) -> bool
    ensures { result ≡ has_order instr.op instr }
{
    match instr.op {
        Op::LoadNil => instr.a <= instr.b,
        Op::Concat => instr.b < instr.c,
        Op::TForLoop => instr.c > 0,
        _ => true,
    }
}

/// Whether a register that an instruction names beside its operands is not below the count.
fn names_past(instr: Instr, count: u32) -> bool
    requires fields { InRange instr }
    ensures { result ≡ reaches count (names instr.op instr) }
{
    let Instr { a, b, c, .. } = instr;
    match instr.op {
        Op::Jmp | Op::Eq | Op::Lt | Op::Le => false,
        Op::Move | Op::LoadNil | Op::GetTable | Op::Unm | Op::Not | Op::Len | Op::TestSet => a
            >= count
            || b >= count,
        Op::Self_ => a + 1 >= count || b >= count,
        Op::Concat => a >= count || b >= count || c >= count,
        Op::Call => a + b.saturating_sub(1) >= count || a + c.saturating_sub(2) >= count,
        Op::TailCall => a + b.saturating_sub(1) >= count,
        Op::Return => a + b.saturating_sub(2) >= count,
        Op::ForLoop => a + 3 >= count,
        Op::ForPrep => a + 2 >= count,
        Op::TForLoop => a + 5 >= count || a + 2 + c >= count,
        Op::SetList => a + b >= count,
        Op::Vararg => b != 1 && a + b.saturating_sub(2) >= count,
        _ => a >= count,
    }
}

fn register_past(operand: Option<u32>, count: u32) -> bool
    ensures { result ≡ reaches count (filter (λ x. nat_lt x 256) (listed operand)) }
{
    operand.is_some_and(|x| x < FIRST_CONSTANT && x >= count)
}

fn constant_past(operand: Option<u32>, count: usize) -> bool
    ensures { result ≡ reaches count (map (λ x. x - 256) (filter (λ x. nat_le 256 x) (listed operand))) }
{
    operand.is_some_and(|x| x >= FIRST_CONSTANT && (x - FIRST_CONSTANT) as usize >= count)
}

/// What a further word names by an instruction of this opcode.
fn named(by: Op, word: u32) -> Option<u32>
    ensures { listed result ≡ named_by by (instr_of word) }
{
    let Instr { op, b, .. } = decode(word)?;
    match (by, op) {
        (Op::Move, Op::Move) | (Op::GetUpval, Op::GetUpval) => Some(b),
        _ => None,
    }
}

fn named_past(by: Op, word: u32, count: u32) -> bool
    ensures { result ≡ reaches count (named_by by (instr_of word)) }
{
    named(by, word).is_some_and(|x| x >= count)
}

fn any_named_past(by: Op, words: &[u32], count: u32) -> bool
    ensures { result ≡ reaches count (named_by_all by words.now) }
{
    for word in words {
        if named_past(by, *word, count) {
            return true;
        }
    }
    false
}

/// Whether a register that the word at a pc names is not there, or its fields name none.
pub fn breaks_register(function: &Function<'_>, pc: usize, instr: Instr) -> bool
    requires small { pc < 2 ^ 32 }
    requires fields { InRange instr }
    ensures { result ≡ breaks_register_of (view_proto function.now) pc instr }
{
    let count = function.registers();
    let Operands { b, c } = fields(instr);
    !in_order(instr)
        || names_past(instr, count)
        || register_past(b, count)
        || register_past(c, count)
        || further_named_past(function, Op::Move, pc, instr, count)
}

fn further_named_past(function: &Function<'_>, by: Op, pc: usize, instr: Instr, count: u32) -> bool
    requires small { pc < 2 ^ 32 }
    ensures { result ≡ reaches count (named_further by instr.op (words_of (view_proto function.now) pc instr)) }
{
    instr.op == Op::Closure && any_named_past(by, function.words(pc, instr), count)
}

/// Whether the number of a constant is past the list.
pub fn breaks_constant(function: &Function<'_>, instr: Instr) -> bool
    ensures { result ≡ breaks_constant_of (view_proto function.now) instr }
{
    let count = function.constants().len();
    match instr.op {
        Op::LoadK | Op::GetGlobal | Op::SetGlobal => instr.bx as usize >= count,
        _ => {
            let Operands { b, c } = fields(instr);
            constant_past(b, count) || constant_past(c, count)
        }
    }
}

/// Whether the function of a CLOSURE is past the list.
pub fn breaks_function(function: &Function<'_>, instr: Instr) -> bool
    ensures { result ≡ breaks_function_of (view_proto function.now) instr.op instr }
{
    instr.op == Op::Closure && !function.has_function(instr.bx)
}

/// Whether the number of an upvalue is not below the count.
pub fn breaks_upvalue(function: &Function<'_>, pc: usize, instr: Instr) -> bool
    requires small { pc < 2 ^ 32 }
    ensures { result ≡ breaks_upvalue_of (view_proto function.now) pc instr }
{
    let count = function.upvalues();
    let own = matches!(instr.op, Op::GetUpval | Op::SetUpval) && instr.b >= count;
    own || further_named_past(function, Op::GetUpval, pc, instr, count)
}

/// Whether the name of a global is there and no text.
pub fn breaks_name(function: &Function<'_>, instr: Instr) -> bool
    ensures { result ≡ breaks_name_of (view_proto function.now) instr.op instr }
{
    match instr.op {
        Op::GetGlobal | Op::SetGlobal => match function.constants().get(instr.bx as usize) {
            None | Some(Constant::Text(_)) => false,
            Some(_) => true,
        },
        _ => false,
    }
}

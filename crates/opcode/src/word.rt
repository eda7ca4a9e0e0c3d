// Words and their fields.
ghost use Rattle.std.specs.Prelude.{◌≡◌, ℕ, ◌<◌, ◌≤◌, ◌/◌, ◌%◌, ◌^◌, IfSome, None, Some};
ghost use Rattle.opcode.specs.declared.word.Instr.{Instr as Fields};
ghost use Rattle.opcode.specs.Reading.{instr_of};
ghost use Rattle.opcode.specs.Word.{InRange, word_of};

use crate::op::{Format, Op};

// The widths of the fields, in bits.
const OP_WIDTH: u32 = 6;

const A_WIDTH: u32 = 8;

const C_WIDTH: u32 = 9;

const B_WIDTH: u32 = 9;

const BX_WIDTH: u32 = 18;

// The lowest bit of each field above the opcode.
const A_LOW: u32 = OP_WIDTH;

const C_LOW: u32 = A_LOW + A_WIDTH;

const B_LOW: u32 = C_LOW + C_WIDTH;

const BX_LOW: u32 = C_LOW;

// What is added to sBx to make it a Bx.
const SBX_EXCESS: i32 = 131_071;

/// An instruction: the fields of its opcode's format, and 0 for the others. A is below 256, B and C
/// are below 512, Bx is below 262,144, and sBx is from -131,071 to 131,072.
#[derive(Clone, Copy, Debug, PartialEq, Eq)]
pub struct Instr {
    pub op: Op,
    pub a: u32,
    pub b: u32,
    pub c: u32,
    pub bx: u32,
    pub sbx: i32,
}

/// The `width` bits of a word from the bit `low` on.
fn bits(word: u32, low: u32, width: u32) -> u32
    requires low { low < 32 }
    requires width { width < 32 }
    ensures { result ≡ word / 2 ^ low % 2 ^ width }
{
    word >> low & ((1 << width) - 1)
}

/// The instruction of a word; `None` exactly where its low six bits, the opcode, are 38 or more.
pub fn decode(word: u32) -> Option<Instr>
    ensures reading { result ≡ instr_of word }
    ensures read_back { (i : Fields) → InRange i → word ≡ word_of i → result ≡ Some i }
{
    let op = Op::from_number(bits(word, 0, OP_WIDTH))?;
    let with_a = Instr {
        op,
        a: bits(word, A_LOW, A_WIDTH),
        b: 0,
        c: 0,
        bx: 0,
        sbx: 0,
    };
    let instr = match op.format() {
        Format::Abc => Instr {
            b: bits(word, B_LOW, B_WIDTH),
            c: bits(word, C_LOW, C_WIDTH),
            ..with_a
        },
        Format::Abx => Instr {
            bx: bits(word, BX_LOW, BX_WIDTH),
            ..with_a
        },
        Format::Asbx => Instr {
            sbx: bits(word, BX_LOW, BX_WIDTH) as i32 - SBX_EXCESS,
            ..with_a
        },
    };
    Some(instr)
}

/// The word of an instruction whose fields are in range.
pub fn encode(instr: Instr) -> u32
    requires { InRange instr }
    ensures { result ≡ word_of instr }
{
    let operands = match instr.op.format() {
        Format::Abc => (instr.c << C_LOW) + (instr.b << B_LOW),
        Format::Abx => instr.bx << BX_LOW,
        Format::Asbx => ((instr.sbx + SBX_EXCESS) as u32) << BX_LOW,
    };
    instr.op.number() + (instr.a << A_LOW) + operands
}

/// Two instructions with fields in range that have one word are one. A law, with nothing to run.
pub fn words_are_one()
    ensures { (i j : Fields) → InRange i → InRange j → word_of i ≡ word_of j → i ≡ j }
{}

/// The word of an instruction whose fields are in range is read as that instruction, and what a word
/// of 32 bits is read as has its fields in range and that word; a word is read as none exactly where
/// its low six bits are 38 or more. A law, with nothing to run.
pub fn words_are_read()
    ensures some { (i : Fields) → InRange i → instr_of (word_of i) ≡ Some i }
    ensures none { (w : ℕ) → 38 ≤ w % 64 → instr_of w ≡ None }
    ensures back { (w : ℕ) → w < 2 ^ 32 → IfSome (instr_of w) (λ i. InRange i × (word_of i ≡ w)) }
    ensures refused { (w : ℕ) → instr_of w ≡ None → 38 ≤ w % 64 }
{}

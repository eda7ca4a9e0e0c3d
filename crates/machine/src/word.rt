// Words of a function, decoded.
ghost use Rattle.std.specs.Prelude.{◌≡◌};
ghost use Rattle.opcode.specs.declared.op.Format.{Format as TheFormat};
ghost use Rattle.opcode.specs.Word.{format_of};
ghost use Rattle.machine.specs.Decoded.{decoded_of, instr_in, op_in, sbx_in};

use opcode::{Format, Instr, Op, decode};

/// A word of a function with its opcode and its A at hand; the other fields are in its bits.
#[derive(Clone, Copy, Debug)]
pub struct Word {
    pub op: Op,
    pub a: u8,
    pub bits: u32,
}

impl Word {
    /// The word of these bits.
    pub fn new(bits: u32) -> Self
        ensures { result ≡ decoded_of bits }
    {
        Self {
            op: op_of(bits),
            a: (bits / 64 % 256) as u8,
            bits,
        }
    }

    /// The instruction of a word with A, B and C.
    #[inline(always)]
    pub fn abc(self) -> Instr
        requires { format_of self.op ≡ TheFormat.Abc }
        ensures { result ≡ instr_in self }
    {
        Instr {
            op: self.op,
            a: u32::from(self.a),
            b: self.bits / 8_388_608,
            c: self.bits / 16_384 % 512,
            bx: 0,
            sbx: 0,
        }
    }

    /// The instruction of a word with A and Bx.
    #[inline(always)]
    pub fn abx(self) -> Instr
        requires { format_of self.op ≡ TheFormat.Abx }
        ensures { result ≡ instr_in self }
    {
        Instr {
            op: self.op,
            a: u32::from(self.a),
            b: 0,
            c: 0,
            bx: self.bits / 16_384,
            sbx: 0,
        }
    }

    /// The instruction of a word with A and sBx.
    #[inline(always)]
    pub fn asbx(self) -> Instr
        requires { format_of self.op ≡ TheFormat.Asbx }
        ensures { result ≡ instr_in self }
    {
        Instr {
            op: self.op,
            a: u32::from(self.a),
            b: 0,
            c: 0,
            bx: 0,
            sbx: sbx_of(self.bits),
        }
    }

    /// The instruction.
    pub fn instr(self) -> Instr
        ensures { result ≡ instr_in self }
    {
        match self.op.format() {
            Format::Abc => self.abc(),
            Format::Abx => self.abx(),
            Format::Asbx => self.asbx(),
        }
    }
}

/// sBx in a word.
#[inline(always)]
pub fn sbx_of(bits: u32) -> i32
    ensures { result ≡ sbx_in TheFormat.Asbx bits }
{
    (bits / 16_384) as i32 - 131_071
}

// The opcode of a word; of a further word that is no instruction some opcode, which is not looked at.
fn op_of(bits: u32) -> Op
    ensures { result ≡ op_in bits }
{
    match decode(bits) {
        Some(i) => i.op,
        None => Op::Move,
    }
}

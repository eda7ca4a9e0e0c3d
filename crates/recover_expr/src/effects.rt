// The registers that instructions read and write.
ghost use Rattle.std.specs.Prelude.{◌≡◌};
ghost use Rattle.recover_expr.specs.Effects.{is_from, reads_from, makes_value};
ghost use Rattle.recover_expr.specs.Situation.{has_operands};

use crate::function::FIRST_CONSTANT;
use opcode::{Instr, Op};

// Whether an operand is a register from a base on.
fn is_from(operand: u32, base: u32) -> bool
    ensures { result ≡ is_from operand base }
{
    base <= operand && operand < FIRST_CONSTANT
}

/// Whether the fields B and C of instructions of this opcode are operands: registers or constants.
pub fn has_operands(op: Op) -> bool
    ensures { result ≡ has_operands op }
{
    match op {
        Op::SetTable | Op::Eq | Op::Lt | Op::Le => true,
        Op::Add | Op::Sub | Op::Mul | Op::Div | Op::Mod | Op::Pow => true,
        _ => false,
    }
}

/// Whether an instruction reads a register from a base on.
pub fn reads_from(instr: Instr, base: u32) -> bool
    ensures { result ≡ reads_from instr base }
{
    let Instr { op, a, b, c, .. } = instr;
    match op {
        Op::Move | Op::Unm | Op::Not | Op::Len | Op::TestSet => b >= base,
        Op::GetTable | Op::Self_ => b >= base || is_from(c, base),
        Op::SetGlobal | Op::SetUpval | Op::SetList | Op::Test | Op::Call | Op::TailCall => a
            >= base,
        Op::ForLoop | Op::ForPrep | Op::TForLoop => a >= base,
        Op::Concat => c >= base,
        Op::Return => b != 1 && a >= base,
        Op::SetTable if a >= base => true,
        _ => has_operands(op) && (is_from(b, base) || is_from(c, base)),
    }
}

/// Whether instructions of this opcode make a value for the register A, and do nothing else.
pub fn makes_value(op: Op) -> bool
    ensures { result ≡ makes_value op }
{
    match op {
        Op::SetGlobal | Op::SetUpval | Op::SetTable | Op::SetList => false,
        Op::Jmp | Op::Eq | Op::Lt | Op::Le | Op::Test | Op::Close => false,
        Op::Call | Op::TailCall | Op::Return | Op::ForLoop | Op::ForPrep | Op::TForLoop => false,
        _ => true,
    }
}

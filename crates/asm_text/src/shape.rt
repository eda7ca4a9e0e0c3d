// Which fields each opcode shows.
ghost use Rattle.std.specs.Prelude.{◌≡◌};
ghost use Rattle.lister.specs.Listing.{shape_of as shape_in};
ghost use Rattle.asm_text.specs.Reading.{meant};

use opcode::Op;

/// The fields that an instruction shows beside A.
#[derive(Clone, Copy)]
pub enum Shape {
    /// Bx, the number of a constant.
    Constant,
    /// Bx, the number of a function.
    Function,
    /// sBx, a jump.
    Jump,
    /// B and C. One that may be a constant is one from 256 on.
    Two {
        b_may_be_constant: bool,
        c_may_be_constant: bool,
    },
}

pub fn shape_of(op: Op) -> Shape
    ensures { meant result ≡ shape_in op }
{
    match op {
        Op::LoadK | Op::GetGlobal | Op::SetGlobal => Shape::Constant,
        Op::Closure => Shape::Function,
        Op::Jmp | Op::ForLoop | Op::ForPrep => Shape::Jump,
        Op::GetTable | Op::Self_ => Shape::Two {
            b_may_be_constant: false,
            c_may_be_constant: true,
        },
        Op::SetTable
        | Op::Add
        | Op::Sub
        | Op::Mul
        | Op::Div
        | Op::Mod
        | Op::Pow
        | Op::Eq
        | Op::Lt
        | Op::Le => Shape::Two {
            b_may_be_constant: true,
            c_may_be_constant: true,
        },
        _ => Shape::Two {
            b_may_be_constant: false,
            c_may_be_constant: false,
        },
    }
}

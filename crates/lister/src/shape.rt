// What a listing shows of each opcode: its name, and its shape.
ghost use Rattle.std.specs.Prelude.{◌≡◌};
ghost use Rattle.lister.specs.Listing.{op_name as name_in, shape_of as shape_in};
ghost use Rattle.lister.specs.Shapes.{meant};

use opcode::Op;

/// Which fields an instruction shows beside A.
#[derive(Clone, Copy)]
pub enum Shape {
    /// Bx, the number of a constant.
    Constant,
    /// Bx, the number of a function.
    Function,
    /// sBx, a jump.
    Jump,
    /// B and C. One that may be a constant is one from 256 on.
    Two {
        b_may_be_constant: bool,
        c_may_be_constant: bool,
    },
}

pub fn shape_of(op: Op) -> Shape
    ensures { meant result ≡ shape_in op }
{
    match op {
        Op::LoadK | Op::GetGlobal | Op::SetGlobal => Shape::Constant,
        Op::Closure => Shape::Function,
        Op::Jmp | Op::ForLoop | Op::ForPrep => Shape::Jump,
        Op::GetTable | Op::Self_ => Shape::Two {
            b_may_be_constant: false,
            c_may_be_constant: true,
        },
        Op::SetTable
        | Op::Add
        | Op::Sub
        | Op::Mul
        | Op::Div
        | Op::Mod
        | Op::Pow
        | Op::Eq
        | Op::Lt
        | Op::Le => Shape::Two {
            b_may_be_constant: true,
            c_may_be_constant: true,
        },
        _ => Shape::Two {
            b_may_be_constant: false,
            c_may_be_constant: false,
        },
    }
}

pub fn op_name(op: Op) -> &'static str
    ensures { result.now ≡ name_in op }
{
    match op {
        Op::Move => "MOVE",
        Op::LoadK => "LOADK",
        Op::LoadBool => "LOADBOOL",
        Op::LoadNil => "LOADNIL",
        Op::GetUpval => "GETUPVAL",
        Op::GetGlobal => "GETGLOBAL",
        Op::GetTable => "GETTABLE",
        Op::SetGlobal => "SETGLOBAL",
        Op::SetUpval => "SETUPVAL",
        Op::SetTable => "SETTABLE",
        Op::NewTable => "NEWTABLE",
        Op::Self_ => "SELF",
        Op::Add => "ADD",
        Op::Sub => "SUB",
        Op::Mul => "MUL",
        Op::Div => "DIV",
        Op::Mod => "MOD",
        Op::Pow => "POW",
        Op::Unm => "UNM",
        Op::Not => "NOT",
        Op::Len => "LEN",
        Op::Concat => "CONCAT",
        Op::Jmp => "JMP",
        Op::Eq => "EQ",
        Op::Lt => "LT",
        Op::Le => "LE",
        Op::Test => "TEST",
        Op::TestSet => "TESTSET",
        Op::Call => "CALL",
        Op::TailCall => "TAILCALL",
        Op::Return => "RETURN",
        Op::ForLoop => "FORLOOP",
        Op::ForPrep => "FORPREP",
        Op::TForLoop => "TFORLOOP",
        Op::SetList => "SETLIST",
        Op::Close => "CLOSE",
        Op::Closure => "CLOSURE",
        Op::Vararg => "VARARG",
    }
}

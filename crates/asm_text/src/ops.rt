// The names of opcodes.
ghost use Rattle.std.specs.Prelude.{◌≡◌};
ghost use Rattle.lister.specs.Listing.{op_name as name_in};
ghost use Rattle.asm_text.specs.Reading.{op_at};

use opcode::Op;

/// What the numbers of opcodes are below.
const OPCODES: u32 = 38;

/// The opcode of a name.
pub fn op_of(name: &[u8]) -> Option<Op>
    ensures { result ≡ op_at name.now }
{
    for number in 0..OPCODES {
        let op = Op::from_number(number)?;
        if name == op_name(op).as_bytes() {
            return Some(op);
        }
    }
    None
}

fn op_name(op: Op) -> &'static str
    ensures { result.now ≡ name_in op }
{
    match op {
        Op::Move => "MOVE",
        Op::LoadK => "LOADK",
        Op::LoadBool => "LOADBOOL",
        Op::LoadNil => "LOADNIL",
        Op::GetUpval => "GETUPVAL",
        Op::GetGlobal => "GETGLOBAL",
        Op::GetTable => "GETTABLE",
        Op::SetGlobal => "SETGLOBAL",
        Op::SetUpval => "SETUPVAL",
        Op::SetTable => "SETTABLE",
        Op::NewTable => "NEWTABLE",
        Op::Self_ => "SELF",
        Op::Add => "ADD",
        Op::Sub => "SUB",
        Op::Mul => "MUL",
        Op::Div => "DIV",
        Op::Mod => "MOD",
        Op::Pow => "POW",
        Op::Unm => "UNM",
        Op::Not => "NOT",
        Op::Len => "LEN",
        Op::Concat => "CONCAT",
        Op::Jmp => "JMP",
        Op::Eq => "EQ",
        Op::Lt => "LT",
        Op::Le => "LE",
        Op::Test => "TEST",
        Op::TestSet => "TESTSET",
        Op::Call => "CALL",
        Op::TailCall => "TAILCALL",
        Op::Return => "RETURN",
        Op::ForLoop => "FORLOOP",
        Op::ForPrep => "FORPREP",
        Op::TForLoop => "TFORLOOP",
        Op::SetList => "SETLIST",
        Op::Close => "CLOSE",
        Op::Closure => "CLOSURE",
        Op::Vararg => "VARARG",
    }
}

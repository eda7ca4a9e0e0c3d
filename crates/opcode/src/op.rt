// Opcodes, and the formats of their words.
ghost use Rattle.std.specs.Prelude.{◌≡◌, ◌≤◌, IfSome, IfNone};
ghost use Rattle.opcode.specs.Word.{op_number, format_of};

/// The fields that a word has beside its opcode.
#[derive(Clone, Copy, Debug, PartialEq, Eq)]
pub enum Format {
    /// A, B and C.
    Abc,
    /// A and Bx.
    Abx,
    /// A and sBx.
    Asbx,
}

/// An opcode. Its number is the low six bits of a word.
#[derive(Clone, Copy, Debug, PartialEq, Eq)]
pub enum Op {
    Move = 0,
    LoadK = 1,
    LoadBool = 2,
    LoadNil = 3,
    GetUpval = 4,
    GetGlobal = 5,
    GetTable = 6,
    SetGlobal = 7,
    SetUpval = 8,
    SetTable = 9,
    NewTable = 10,
    Self_ = 11,
    Add = 12,
    Sub = 13,
    Mul = 14,
    Div = 15,
    Mod = 16,
    Pow = 17,
    Unm = 18,
    Not = 19,
    Len = 20,
    Concat = 21,
    Jmp = 22,
    Eq = 23,
    Lt = 24,
    Le = 25,
    Test = 26,
    TestSet = 27,
    Call = 28,
    TailCall = 29,
    Return = 30,
    ForLoop = 31,
    ForPrep = 32,
    TForLoop = 33,
    SetList = 34,
    Close = 35,
    Closure = 36,
    Vararg = 37,
}

impl Op {
    /// The opcode of a number; `None` for 38 and above.
    pub fn from_number(number: u32) -> Option<Op>
        ensures op { IfSome result (λ op. op_number op ≡ number) }
        ensures none { IfNone result (38 ≤ number) }
    {
        let op = match number {
            0 => Op::Move,
            1 => Op::LoadK,
            2 => Op::LoadBool,
            3 => Op::LoadNil,
            4 => Op::GetUpval,
            5 => Op::GetGlobal,
            6 => Op::GetTable,
            7 => Op::SetGlobal,
            8 => Op::SetUpval,
            9 => Op::SetTable,
            10 => Op::NewTable,
            11 => Op::Self_,
            12 => Op::Add,
            13 => Op::Sub,
            14 => Op::Mul,
            15 => Op::Div,
            16 => Op::Mod,
            17 => Op::Pow,
            18 => Op::Unm,
            19 => Op::Not,
            20 => Op::Len,
            21 => Op::Concat,
            22 => Op::Jmp,
            23 => Op::Eq,
            24 => Op::Lt,
            25 => Op::Le,
            26 => Op::Test,
            27 => Op::TestSet,
            28 => Op::Call,
            29 => Op::TailCall,
            30 => Op::Return,
            31 => Op::ForLoop,
            32 => Op::ForPrep,
            33 => Op::TForLoop,
            34 => Op::SetList,
            35 => Op::Close,
            36 => Op::Closure,
            37 => Op::Vararg,
            _ => return None,
        };
        Some(op)
    }

    /// The number, below 38.
    pub fn number(self) -> u32
        ensures { result ≡ op_number self }
    {
        self as u32
    }

    /// The fields of its words: A and Bx for LOADK, GETGLOBAL, SETGLOBAL and CLOSURE, A and sBx for
    /// JMP, FORLOOP and FORPREP, and A, B and C for all others.
    pub fn format(self) -> Format
        ensures { result ≡ format_of self }
    {
        match self {
            Op::LoadK | Op::GetGlobal | Op::SetGlobal | Op::Closure => Format::Abx,
            Op::Jmp | Op::ForLoop | Op::ForPrep => Format::Asbx,
            _ => Format::Abc,
        }
    }
}

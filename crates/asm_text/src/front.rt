// What stands in front of a function's code, and behind the count of the functions in it.

use lua_num::{ByteText, Names};
use proto::{Code, ConstantList, Lines, LocVars};

/// The source, the lines and the shape of a function.
#[derive(Drop)]
pub struct Front {
    pub source: Option<ByteText>,
    pub line_defined: u32,
    pub last_line: u32,
    pub upvalues: u8,
    pub params: u8,
    pub vararg: u8,
    pub registers: u8,
}

/// The lines, the locals and the names of upvalues of a function.
#[derive(Drop)]
pub struct Debug {
    pub lines: Lines,
    pub locals: LocVars,
    pub names: Names,
}

/// What a function has beside the functions in it, and how many those are.
#[derive(Drop)]
pub struct Parts {
    pub front: Front,
    pub code: Code,
    pub constants: ConstantList,
    pub functions: u32,
    pub debug: Debug,
}

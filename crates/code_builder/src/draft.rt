// A function as it was made, before its jumps are known.

use lua_num::{ByteText, Names};
use proto::{ConstantList, LocVar};
use scheme::Item;

/// What a function is said to be.
#[derive(Drop)]
pub struct Heading {
    /// `None` is the source of the function around it.
    pub source: Option<ByteText>,
    pub first_line: u32,
    pub last_line: u32,
    pub params: usize,
    pub vararg: bool,
}

/// What a function as it was made has beside the functions in it.
#[derive(Drop)]
pub struct OwnDraft {
    pub heading: Heading,
    pub items: Vec<Item>,
    /// The pc of each label, by its number.
    pub labels: Vec<usize>,
    pub constants: ConstantList,
    /// The highest number of registers in use.
    pub high: u32,
    pub locals: Vec<LocVar>,
    pub upvalue_names: Names,
}

/// A function as it was made, with the functions in it: its words have labels yet, and no limit was asked for.
#[derive(Drop)]
pub struct Draft {
    pub own: OwnDraft,
    pub functions: Vec<Draft>,
}

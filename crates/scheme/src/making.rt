// What a function is made of before its words stand.

use lua_num::ByteText;
use opcode::Op;

/// A word that is being made: its fields, or the label to which it jumps; or a bare number.
#[derive(Clone, Copy, Debug, PartialEq, Eq)]
pub enum Piece {
    Abc { op: Op, a: u32, b: u32, c: u32 },
    Abx { op: Op, a: u32, bx: u32 },
    Jump { op: Op, a: u32, label: usize },
    Bare(u32),
}

/// A word that is being made, and its line.
#[derive(Clone, Copy, Debug, PartialEq, Eq)]
pub struct Item {
    pub line: u32,
    pub piece: Piece,
}

/// A declared local; a hidden one has no number.
#[derive(Debug, Drop)]
pub struct Local {
    pub name: ByteText,
    pub declaration: Option<usize>,
    pub captured: bool,
}

/// An active local, and its place in the list of locals. Its register is its place among the active ones.
#[derive(Debug, Drop)]
pub struct Active {
    pub local: Local,
    pub listed: usize,
}

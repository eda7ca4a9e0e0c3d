// Cells, which closures share.
use lua_model::Value;

/// A cell, by its place in the order of creation, from 0.
#[derive(Clone, Copy, PartialEq, Eq, Debug)]
pub struct CellId {
    pub index: usize,
}

/// Where the value of a cell is: at a place of the stack, or in the cell.
#[derive(Clone, Copy, PartialEq, Eq, Debug)]
pub enum Cell {
    InStack(usize),
    Held(Value),
}

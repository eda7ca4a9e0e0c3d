//! The registers of the frames, in one list of values, and the cells by which closures share them.
#![tactic(auto)]

mod shared;
mod stack;

pub use shared::OpenCell;
pub use stack::ValueStack;

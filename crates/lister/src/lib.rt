//! The listing of a chunk.
#![tactic(auto)]

mod code;
mod function;
mod instruction;
mod lists;
mod shape;
mod text;

pub use function::list;
pub use text::put_quoted;

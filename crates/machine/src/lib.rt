//! The machine: it runs verified chunks, word by word.
#![tactic(auto)]

mod beginning;
mod calling;
mod closures;
mod crossing;
mod did;
mod entering;
mod frame;
mod function;
mod leaving;
mod load;
mod machine;
mod open_results;
mod operands;
mod row;
mod running;
mod runs;
mod settling;
mod stepping;
mod topmost;
mod upvalues;
mod word;
mod words;

pub use machine::{Machine, StepEnd};
pub use runs::{RunEnd, run};

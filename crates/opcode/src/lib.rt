// Instruction words of Lua 5.1 and their fields.
#![tactic(auto)]

mod op;
mod word;

pub use op::{Format, Op};
pub use word::{Instr, decode, encode, words_are_one, words_are_read};

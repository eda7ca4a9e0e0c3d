// From the bytes of a source to its tokens.
#![tactic(auto)]

mod brackets;
mod classes;
mod fault;
mod lines;
mod marks;
mod piece;
mod runs;
mod strings;
mod tokenize;
mod words;

pub use fault::LexFault;
pub use tokenize::{check, lex, tokens_or_fault};

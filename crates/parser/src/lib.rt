// From tokens to a tree.
#![tactic(auto)]

mod classes;
mod control;
mod cursor;
mod expressions;
mod fault;
mod fields;
mod functions;
mod laws;
mod lists;
mod mark;
mod nodes;
mod operator;
mod parsing;
mod prefixes;
mod statements;
mod tall;

pub use fault::SyntaxFault;
pub use laws::{faults_are_one, never_both, trees_are_one};
pub use parsing::parse;

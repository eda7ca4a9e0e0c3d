//! The compiler: from a tree to the chunk that the code scheme has for it.
#![tactic(auto)]

mod assignments;
mod calls;
mod compiling;
mod conditions;
mod constructors;
mod expressions;
mod folding;
mod functions;
mod kinds;
mod lists;
mod locals;
mod loops;
mod paths;
mod statements;
mod stores;
mod tables;
mod words;

pub use compiling::compile;

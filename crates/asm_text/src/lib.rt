//! Listings read back to chunks.
#![tactic(auto)]

mod assembling;
mod code;
mod cuts;
mod fault;
mod front;
mod function;
mod instruction;
mod laws;
mod lines;
mod lists;
mod miss;
mod numbers;
mod ops;
mod quoted;
mod shape;

pub use assembling::assemble;
pub use fault::ListFault;
pub use laws::{chunks_are_one, faults_are_one, listing_or_fault, never_both};

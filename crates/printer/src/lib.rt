//! From a tree to its printed source.
#![tactic(auto)]

mod printing;

pub use printing::print_tree;

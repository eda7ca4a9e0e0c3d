//! From a chunk back to the tree of a source.
#![tactic(auto)]

mod acts;
mod branches;
mod building;
mod conditions;
mod cuts;
mod debug;
mod expressions;
mod forms;
mod function;
mod loops;
mod lost;
mod lying;
mod memory;
mod parts;
mod plan;
mod recovering;
mod regions;
mod search;
mod separating;
mod tables;

pub use acts::acts_are_found;
pub use lost::Lost;
pub use lying::{conditions_are_found, flow_comes_apart, flow_is_found, what_stands_lies};
pub use recovering::recover;

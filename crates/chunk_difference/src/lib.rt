//! The first difference of two chunks.
#![tactic(auto)]

mod difference;
mod finding;
mod lists;
mod parts;

pub use difference::{Difference, Part};
pub use finding::first_difference;

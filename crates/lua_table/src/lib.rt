//! Tables: a row of values under the keys from 1, and the other pairs in a short list or a map, behind one list of pairs.
#![tactic(auto)]

mod fault;
mod few;
mod hashed;
mod keys;
mod laws;
mod rest;
mod rowed;
mod table;

pub use fault::{NextFault, SetFault};
pub use laws::{
    keys_stay_apart, next_walks, one_border, same_value_is_equality, set_keeps_sound, set_then_get,
};
pub use table::Table;

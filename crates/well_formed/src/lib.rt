//! Whether a tree is well formed, and how tightly its expressions bind.
#![tactic(auto)]

mod binding;
mod checking;
mod shapes;

pub use binding::{UNARY_LEVEL, is_right_associative, is_unary, level_of, level_of_op};
pub use checking::is_well_formed;
pub use shapes::is_prefix;

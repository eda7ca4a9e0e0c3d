//! The code scheme: which chunk a source has.
#![tactic(auto)]

mod making;

pub use making::{Active, Item, Local, Piece};

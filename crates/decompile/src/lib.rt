//! From a chunk back to the text of a source that has it.
#![tactic(auto)]

mod decompiling;
mod refused;

pub use decompiling::decompile;
pub use refused::Refused;

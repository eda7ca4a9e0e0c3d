//! From the bytes of a source to its chunk, or its fault.
#![tactic(auto)]

mod compiling;
mod fault;
mod laws;
mod reading;

pub use compiling::{compiled_chunk, source_chunk};
pub use fault::{Fault, SourceFault};
pub use laws::{chunks_are_one, compiled_does, compiled_is_sound, never_both, sources_are_one};

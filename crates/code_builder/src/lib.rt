//! A function that is being made by the compiler: its words with labels, its constants, registers and locals; and its
//! finishing as a function of a chunk.
#![tactic(auto)]

mod ahead;
mod builder;
mod draft;
mod encoding;
mod fault;
mod functions;
mod locals;
mod names;
mod words;

pub use ahead::Ahead;
pub use builder::{Builder, field, sum};
pub use draft::{Draft, Heading, OwnDraft};
pub use encoding::encode;
pub use fault::CodeFault;
pub use locals::hidden;
pub use names::Place;

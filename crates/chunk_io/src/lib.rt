//! Chunks as bytes.
#![tactic(auto)]

mod dumping;
mod fault;
mod fitting;
mod front;
mod function;
mod heading;
mod laws;
mod layout;
mod lists;
mod miss;
mod reading;
mod undumping;
mod writing;

pub use dumping::{dump, dump_as};
pub use fault::ChunkFault;
pub use fitting::fits;
pub use heading::is_chunk;
pub use laws::{
    chunk_or_fault, chunks_are_one, faults_are_one, fitting_is_short, layouts_are_one, never_both,
};
pub use layout::Layout;
pub use undumping::{read_layout, undump};

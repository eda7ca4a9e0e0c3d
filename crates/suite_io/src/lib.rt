// What the suite has of the outside: files by name, and sinks of bytes.
#![tactic(auto)]

mod calls;
mod files;
mod memory_files;
mod memory_sink;
mod putting;
mod real;
mod replacing;
mod sink;

pub use calls::{FileCall, FileCalls};
pub use files::{FileFault, Files, Word};
pub use memory_files::MemoryFiles;
pub use memory_sink::{MemorySink, NeverFails};
pub use putting::put_all;
pub use real::{MAX_FILE_BYTES, RealFiles, RealSink};
pub use sink::{Sink, SinkFault};

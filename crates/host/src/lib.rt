//! Functions of the outside that a Lua program may call: hosts, sets of hosts with a log of the calls, a host of lines,
//! and a host of replies that are given in turn.
#![tactic(auto)]

mod copies;
mod host;
mod lines;
mod log;
mod reader;
mod script;
mod set;
mod slot;

pub use host::Host;
pub use lines::{LineHost, MAX_LINE_BYTES};
pub use log::{HostLog, LogEntry};
pub use reader::{CountedReader, LineReader, ReadFault};
pub use script::ScriptHost;
pub use set::HostSet;

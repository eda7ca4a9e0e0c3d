// The top call of the suite.
#![tactic(auto)]

mod chunk;
mod command;
mod making;
mod outcome;
mod output;
mod product;
mod rejection;
mod report;
mod running;
mod status;
mod top;
mod trying;
mod words;

pub use status::Status;
pub use top::suite;

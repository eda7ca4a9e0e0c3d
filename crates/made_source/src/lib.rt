//! A large source that is made, and an account of its chunk.
#![tactic(auto)]

mod accounts;
mod source;

pub use accounts::account;
pub use source::made;

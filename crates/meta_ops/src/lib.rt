//! The operators of Lua with their handlers, and what a call goes to.
#![tactic(auto)]

mod act;
mod arithmetic;
mod calls;
mod comparison;
mod failures;
mod handlers;
mod indexing;
mod texts;

pub use act::{Act, Callee, Then};
pub use arithmetic::{arith, negate};
pub use calls::callee;
pub use comparison::compare;
pub use indexing::{Found, index, index_failure, look_up, set_index};
pub use texts::{concat2, length};

//! The verifier: a chunk that it accepts never leaves its frames, constants, functions, upvalues or code.
#![tactic(auto)]

mod fixed_point;
mod flow;
mod judging;
mod jumps;
mod note;
mod operands;
mod registers;
mod scan;
mod words;

pub use judging::{Refusal, Verified, sound_or_rejected, verify};

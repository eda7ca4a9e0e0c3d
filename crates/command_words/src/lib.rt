//! Reads the words behind a command's name by a `clap` command of the command's form.
#![tactic(auto)]

mod reading;

pub use reading::{Form, Found, read_arguments};

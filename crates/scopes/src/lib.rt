// What each name of a tree means, and the first place where a tree breaks a rule of scoping.
#![tactic(auto)]

mod fault;
mod resolver;
mod resolving;
mod uses;
mod walk;

pub use fault::ScopeFault;
pub use resolving::resolve;
pub use uses::{NameUse, Scopes, Source};

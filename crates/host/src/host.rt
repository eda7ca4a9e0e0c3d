// Hosts.
ghost use Rattle.std.specs.Prelude.{◌≡◌, List, [], ◌∷◌, ◌++◌, Option, option_map};
ghost use Rattle.host.specs.Heard.{Exchange, heard_after};

use lua_model::{Plain, Reply};
use std::alloc::Global;

/// A function of the outside.
pub trait Host: Drop {
    /// The calls so far with their replies, where they are told. A call that was answered by `OutOfMemory` is not
    /// among them.
    ghost heard: { Self → Option (List Exchange) };

    /// What is so of a host that answered these calls, in order, with these replies, all of them counted; by default
    /// nothing is. Of a boxed host no contract knows what this is, so that it is shown only by handing each call to it
    /// once and keeping its reply.
    ghost hears: { Self → List Exchange → Type 0 } = { λ _ _. Unit {0} };

    /// Answers a call. What it takes of memory and time is the host's own matter.
    fn call(&mut self, alloc: Global, args: &[Plain]) -> Reply
        ensures once { (before : List Exchange) → hears self.old before → hears self.new (before ++ record { args = args.now; reply = result } ∷ []) }
        ensures heard { heard self.new ≡ option_map (λ h. heard_after h args.now result) (heard self.old) };
}

//! What is built of a plan stands on the steps on which the plan lies; and what stands there lies.
#![tactic(auto)]

ghost use Rattle.built_flow.specs.BuiltLaid.{BuiltAreLaid};
ghost use Rattle.built_flow.specs.BuiltWhole.{BuiltIsFormed, BuiltIsShallow, LyingIsBuilt, StandingIsFormed};
ghost use Rattle.built_flow.specs.LaidLie.{LaidLie};

/// Law: the block that is built of a plan which lies on the steps of a function stands on these steps, where they tell of its locals, their parts are plain, what they test with `==` is on line 1, and registers are numbers of 32 bits.
pub fn what_is_built_stands()
    ensures { BuiltAreLaid }
{}

/// Law: a block that stands on the steps of a function lies there, as the statements of a source do, where CLOSEs name the steps that declare their first locals and registers are numbers of 32 bits. Where no step needs more levels than what it has of the source takes, it needs no more than the room that it takes.
pub fn what_is_laid_lies()
    ensures { LaidLie }
{}

/// Law: a plan that lies on the steps of a function, each of which has a part of its kind, is built; it keeps the rules of form where the parts do, and only the last statements of blocks end them, as in each plan that stands; and it is no deeper than the plan where the steps have levels enough for their parts.
pub fn what_lies_is_built()
    ensures built { LyingIsBuilt }
    ensures formed { BuiltIsFormed }
    ensures standing { StandingIsFormed }
    ensures shallow { BuiltIsShallow }
{}

//! Where the statements of a function stand among its steps, and that nothing else matters of them.
#![tactic(auto)]

ghost use Rattle.same_flow.specs.Alike.{LaidOnLikeSteps, MarksOnLikeParts, SameOnLikeParts};
ghost use Rattle.same_flow.specs.Blocks.{PlainBlocksAreLaid};
ghost use Rattle.same_flow.specs.Listed.{LocalsAreListed};
ghost use Rattle.same_flow.specs.SameFlow.{SameFlow};
ghost use Rattle.same_flow.specs.SameMarks.{BreaksSayNothing, SameMarks};
ghost use Rattle.same_flow.specs.Told.{LaidAreTold};

/// Law: blocks whose statements stand on the same steps make the same function: the same words, constants, functions, locals and limits.
pub fn same_steps_make_the_same()
    ensures { SameFlow }
{}

/// Law: they declare and mention the same names in the same order, but for breaks; and breaks that stand in a loop say nothing of what names mean, and break no rule.
pub fn same_steps_say_the_same()
    ensures marks { SameMarks }
    ensures breaks { BreaksSayNothing }
{}

/// Law: the steps on which the statements of a function stand tell which locals are active and captured before each, and each has a part of its kind.
pub fn steps_tell_of_locals()
    ensures { LaidAreTold }
{}

/// Law: each plain block on one line, whose breaks stand in loops, stands on some steps, which have its own parts.
pub fn plain_blocks_have_steps()
    ensures { PlainBlocksAreLaid }
{}

/// Law: how many levels the steps need does not matter for what stands on them; and where their parts make the same and say the same, blocks on them make the same function, and declare and mention the same names in the same order, but for breaks.
pub fn like_steps_make_the_same()
    ensures steps { LaidOnLikeSteps }
    ensures makes { SameOnLikeParts }
    ensures says { MarksOnLikeParts }
{}

/// Law: the list of the locals of a function whose statements stand on steps, by the steps that bring them into scope and those where they end; and so before each step.
pub fn steps_list_the_locals()
    ensures { LocalsAreListed }
{}

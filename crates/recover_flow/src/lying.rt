// What holds of what stands among the steps, and of what lies there.

ghost use Rattle.recover_flow.specs.Flow.{FlowComesApart, FlowIsFound};
ghost use Rattle.recover_flow.specs.Logic.{LogicIsFound};
ghost use Rattle.recover_flow.specs.Lying.{WhatStandsLies};

/// A plan that stands as the body of a function lies on all its steps: the code of its statements is these steps, as the scheme has it, one after the other. A law, with nothing to run.
pub fn what_stands_lies()
    ensures { WhatStandsLies }
{}

/// Where a condition lies on at most 100 steps and goes to no place among them, one is found there, with at most two levels more for each `and`, `or` and `not`. A law, with nothing to run.
pub fn conditions_are_found()
    ensures { LogicIsFound }
{}

/// The statements of a function that lie on its steps, as a source has them, come apart into pieces where the search cuts; and their locals end behind their declarations. A law, with nothing to run.
pub fn flow_comes_apart()
    ensures { FlowComesApart }
{}

/// The statements of a function that lie on its steps, as a source has them, are found: a plan stands there that is no deeper than they are, where a condition counts two levels more for each of its operators, a `return` one, and a further arm of an `if` whose condition never fails one; where they need at most 200. A law, with nothing to run.
pub fn flow_is_found()
    ensures { FlowIsFound }
{}

// Laws of the grammar, with nothing to run.
ghost use Rattle.parser.specs.Laws.{TreesAreOne, FaultsAreOne, NeverBoth};

/// Law: at most one well-formed tree is spelled by given tokens, with their lines.
pub fn trees_are_one()
    ensures { TreesAreOne }
{}

/// Law: tokens have one fault at most, at one place.
pub fn faults_are_one()
    ensures { FaultsAreOne }
{}

/// Law: tokens that spell a well-formed tree have no fault.
pub fn never_both()
    ensures { NeverBoth }
{}

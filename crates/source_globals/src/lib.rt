//! The globals that the chunk of a source uses are those that the source names.
#![tactic(auto)]

ghost use Rattle.source_globals.specs.Named.{GlobalsOfSource};

/// Law: the chunk of an accepted source gets and sets each global as often as the source does.
pub fn globals_of_source()
    ensures { GlobalsOfSource }
{}

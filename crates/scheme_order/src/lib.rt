//! That a comparison of a local makes the same the other way round.
#![tactic(auto)]

ghost use Rattle.scheme_order.specs.Turned.{TurnedAreAlike};

/// Law: a plain source in which `>` and `>=` of locals are written the other way round keeps the rules of form, and those of scoping where the source does, and has the same chunk.
pub fn turned_sources_are_alike()
    ensures { TurnedAreAlike }
{}

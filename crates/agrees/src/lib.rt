//! That the chunk of a source does what the source means.
#![tactic(auto)]

ghost use Rattle.std.specs.Prelude.{ℕ, List};
ghost use Rattle.lua_num.specs.Bytes.{Text};
ghost use Rattle.lua_tree.specs.Syntax.{Source};
ghost use Rattle.lua_tree.specs.WellFormed.{WellFormed};
ghost use Rattle.lua_tree.specs.Scoping.{Scoped};
ghost use Rattle.lua_model.specs.Store.{Host, Reply};
ghost use Rattle.scheme.specs.Scheme.{scheme, Fits};
ghost use Rattle.scheme.specs.Accepts.{Accepts};
ghost use Rattle.agrees.specs.Agrees.{Agrees};
ghost use Rattle.agrees.specs.Doing.{DoesSo};

/// The chunk of a well-formed source that keeps the rules of scoping and the limits does what the source means, with all
/// hosts and replies. A law, with nothing to run.
pub fn compiled_source_agrees()
    ensures { (source : Source) (name : Text) → WellFormed source → Scoped source → Fits source → Agrees source (scheme source name) }
{
    scheme_stands::names_stand();
}

/// What follows for the bytes of an accepted source: how the run of its chunk is after any number of steps, with all hosts and
/// replies. A law, with nothing to run.
pub fn accepted_source_does()
    ensures { (bytes : List ℕ) (source : Source) → Accepts bytes source → (name : Text) (hosts : List Host) (replies : List Reply) (steps : ℕ) → DoesSo source (scheme source name) hosts replies steps }
{
    compiled_source_agrees();
    scheme_sound::accepted_source_is_sound();
}

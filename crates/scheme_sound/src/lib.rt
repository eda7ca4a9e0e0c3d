//! Compiled source is sound: the chunk that the scheme makes of a source keeps the verifier's rules.
#![tactic(auto)]

ghost use Rattle.std.specs.Prelude.{ℕ, List};
ghost use Rattle.lua_num.specs.Bytes.{Text};
ghost use Rattle.lua_tree.specs.Syntax.{Source};
ghost use Rattle.lua_tree.specs.WellFormed.{WellFormed};
ghost use Rattle.lua_tree.specs.Scoping.{Scoped};
ghost use Rattle.lua_model.specs.Store.{Host, Reply};
ghost use Rattle.rules.specs.Sound.{Sound, Rejected};
ghost use Rattle.rules.specs.Run.{IsNotStuck, ran};
ghost use Rattle.rules.specs.declared.rule.Rule.{Rule};
ghost use Rattle.scheme.specs.Scheme.{scheme, Fits};
ghost use Rattle.scheme.specs.Accepts.{Accepts};

/// Law: the chunk of every well-formed source that keeps the rules of scoping and the limits is sound: it, and each function in it,
/// has notes under which no rule of the verifier is broken.
pub fn compiled_source_is_sound()
    ensures { (source : Source) (name : Text) → WellFormed source → Scoped source → Fits source → Sound (scheme source name) }
{}

/// Law: the chunk of accepted source is sound. So it is rejected nowhere in it, at no pc and by no rule, and with all hosts and
/// replies no step of its run is stuck.
pub fn accepted_source_is_sound()
    ensures sound { (bytes : List ℕ) (source : Source) → Accepts bytes source → (name : Text) → Sound (scheme source name) }
    ensures rejected { (bytes : List ℕ) (source : Source) → Accepts bytes source → (name : Text) (path : List ℕ) (pc : ℕ) (rule : Rule) → Rejected (scheme source name) path pc rule → ⊥ }
    ensures runs { (bytes : List ℕ) (source : Source) → Accepts bytes source → (name : Text) (hosts : List Host) (replies : List Reply) (n : ℕ) → IsNotStuck (ran (scheme source name) hosts replies n) }
{}

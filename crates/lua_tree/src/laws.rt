// Laws of the definitions, with nothing to run.
ghost use Rattle.std.specs.Prelude.{◌≡◌, ℕ, List};
ghost use Rattle.lua_tree.specs.Lines.{IsLineOf};
ghost use Rattle.lua_tree.specs.SpelledLaws.{SpelledAsSpelling, SpellingIsSpelled};
ghost use Rattle.lua_tree.specs.Tiling.{Cause, Lexes, Stops};
ghost use Rattle.lua_tree.specs.declared.token.Token.{Token as OneToken};

/// A text ends on one line: however it is cut into line ends and other bytes, their number is one.
pub fn lines_are_one()
    ensures { (text : List ℕ) (a b : ℕ) → IsLineOf text a → IsLineOf text b → a ≡ b }
{}

/// A text has one list of tokens at most.
pub fn tokens_are_one()
    ensures { (bytes : List ℕ) (tokens others : List OneToken) → Lexes bytes tokens → Lexes bytes others → tokens ≡ others }
{}

/// A text has one fault at most, at one offset.
pub fn faults_are_one()
    ensures { (bytes : List ℕ) (cause other : Cause) (a b : ℕ) → Stops bytes cause a → Stops bytes other b → (cause ≡ other) × (a ≡ b) }
{}

/// A text that has tokens has no fault.
pub fn never_both()
    ensures { (bytes : List ℕ) (tokens : List OneToken) (cause : Cause) (at : ℕ) → Lexes bytes tokens → Stops bytes cause at → ⊥ }
{}

/// Law: tokens that spell a source, with their lines, have the kinds of its spelling.
pub fn spelled_as_spelling()
    ensures { SpelledAsSpelling }
{}

/// Law: tokens that have the kinds of a source's spelling spell the source, with all on one line.
pub fn spelling_is_spelled()
    ensures { SpellingIsSpelled }
{}

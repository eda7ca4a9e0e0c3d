//! The code scheme as a relation, and that the chunk of a source stands as it says.
#![tactic(auto)]

ghost use Rattle.std.specs.Prelude.{◌≡◌, ℕ, Bool, true, List, [], Option, None, Some};
ghost use Rattle.lua_num.specs.Bytes.{Text};
ghost use Rattle.lua_tree.specs.Outline.{Mark, Place, mentions, body_part, statements_part};
ghost use Rattle.lua_tree.specs.Scoping.{Scoped, upvalues_of};
ghost use Rattle.lua_tree.specs.Syntax.{Source, Statements, FunctionBody};
ghost use Rattle.lua_tree.specs.WellFormed.{WellFormed, formed_statements};
ghost use Rattle.scheme.specs.Making.{head_or};
ghost use Rattle.scheme.specs.Scheme.{scheme, Fits};
ghost use Rattle.scheme.specs.declared.making.Active.{Active};
ghost use Rattle.scheme_stands.specs.Words.{Fn, Spot, meaning, Names};
ghost use Rattle.scheme_stands.specs.Statements.{LoopAt};
ghost use Rattle.scheme_stands.specs.Relation.{StatementsAt, MainAt};
ghost use Rattle.scheme_stands.specs.Places.{StepMoves, ActiveAt, Here, NameIs, CapturesAre};

/// Law: the words of the chunk of a source, and those of each function in it, stand as the relation says of their trees.
pub fn scheme_stands()
    ensures { (source : Source) (name : Text) → Fits source → MainAt None source (scheme source name) }
{}

/// Law: the words of a well-formed block pass the marks of its part of the source.
pub fn words_pass_marks()
    ensures { (all : List Mark) (f : Fn) (loop : Option LoopAt) (block : Statements) → formed_statements block ≡ true → StepMoves all (statements_part block) (StatementsAt f loop block) }
{}

/// Law: a name that is mentioned means a local of the running function, by its register, an upvalue or a global.
pub fn names_are_known()
    ensures { (all : List Mark) (line : ℕ) (name : Text) (place : Place) (rest : List Mark) (active : List Active) (p : Spot)
        → ActiveAt place active → Here all (mentions line name) place rest p → NameIs all place name active (meaning active p) }
{}

/// Law: the further words of a closure capture the upvalues of its function, in order.
pub fn captures_are_known()
    ensures { (all : List Mark) (method : Bool) (body : FunctionBody) (place : Place) (rest : List Mark) (active : List Active) (p : Spot)
        → ActiveAt place active → Here all (body_part method body) place rest p → CapturesAre all place active (upvalues_of place.functions all) (head_or [] p.ahead.sources) }
{}

/// Law: with the law asked: each word is read as its instruction, and each name and each closure has what the scope at its place finds.
pub fn names_stand()
    ensures { (source : Source) (name : Text) → WellFormed source → Scoped source → Fits source → MainAt (Some (record { around = []; upvalues = [] })) source (scheme source name) }
{}

//! The rules by which a chunk runs, and those that the verifier asks of it.
#![tactic(auto)]

ghost use Rattle.std.specs.Prelude.{ℕ, List, []};
ghost use Rattle.proto.specs.Chunk.{Chunk};
ghost use Rattle.lua_model.specs.Store.{Host, Reply};
ghost use Rattle.rules.specs.Notes.{Notes, Consistent};
ghost use Rattle.rules.specs.Common.{HaveLeast, BreaksMore};
ghost use Rattle.rules.specs.Sound.{Sound, Rejected};
ghost use Rattle.rules.specs.Refused.{bad_word, bad_register, bad_constant, bad_function, bad_upvalue, bad_jump, bad_name, no_open_results, no_loop_numbers, captured_loop, bad_further_word, no_jump, bad_shape, falls_off, jump_to_further, bad_flags, no_room_for_arg};
ghost use Rattle.rules.specs.Run.{IsNotStuck, ran};

mod rule;

pub use rule::Rule;

/// What two consistent sets of notes of a function have in common is consistent too, and asks less
/// than both. A law, with nothing to run.
pub fn notes_have_least()
    ensures { (f : Chunk) → (a b : Notes) → Consistent f a → Consistent f b → HaveLeast f a b }
{}

/// A rule that notes break at a place is broken there by all notes that ask more. A law, with
/// nothing to run.
pub fn more_notes_break_more()
    ensures { (f : Chunk) → (a b : Notes) → BreaksMore f a b }
{}

/// No chunk is both sound and rejected. A law, with nothing to run; that each is one or the other is the verifier's.
pub fn never_both()
    ensures { (chunk : Chunk) (path : List ℕ) (pc : ℕ) (rule : Rule) → Sound chunk → Rejected chunk path pc rule → ⊥ }
{}

/// For all hosts and replies, no step of the run of a sound chunk is stuck. A law, with nothing to
/// run.
pub fn sound_is_never_stuck()
    ensures { (chunk : Chunk) → Sound chunk → (hosts : List Host) (replies : List Reply) (n : ℕ) → IsNotStuck (ran chunk hosts replies n) }
{}

/// Each rule refuses a chunk that breaks it alone, and at its place.
pub fn rules_refuse()
    ensures bad_word { Rejected bad_word [] 0 Rule.BadWord }
    ensures bad_register { Rejected bad_register [] 0 Rule.Register }
    ensures bad_constant { Rejected bad_constant [] 0 Rule.Constant }
    ensures bad_function { Rejected bad_function [] 0 Rule.Function }
    ensures bad_upvalue { Rejected bad_upvalue [] 0 Rule.Upvalue }
    ensures bad_jump { Rejected bad_jump [] 0 Rule.JumpTarget }
    ensures bad_name { Rejected bad_name [] 0 Rule.NameConstant }
    ensures no_open_results { Rejected no_open_results [] 0 Rule.OpenResults }
    ensures no_loop_numbers { Rejected no_loop_numbers [] 0 Rule.LoopNumbers }
    ensures captured_loop { Rejected captured_loop [] 5 Rule.LoopCaptured }
    ensures bad_further_word { Rejected bad_further_word [] 0 Rule.FurtherWord }
    ensures no_jump { Rejected no_jump [] 0 Rule.NoJump }
    ensures bad_shape { Rejected bad_shape [] 0 Rule.Shape }
    ensures falls_off { Rejected falls_off [] 0 Rule.FallsOff }
    ensures jump_to_further { Rejected jump_to_further [] 2 Rule.JumpTarget }
    ensures bad_flags { Rejected bad_flags [] 0 Rule.Shape }
    ensures no_room_for_arg { Rejected no_room_for_arg [] 0 Rule.Shape }
{}

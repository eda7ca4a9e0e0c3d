// What a word does to a note, and where it goes.
ghost use Rattle.proto.specs.View.{view_proto};
ghost use Rattle.std.specs.Prelude.{◌^◌, ◌≡◌, ℕ, ◌<◌, ◌-◌, ◌&&◌, ◌||◌, Some, length, IfSome};
ghost use Rattle.proto.specs.Chunk.{own};
ghost use Rattle.std.specs.List.{list_any};
ghost use Rattle.opcode.specs.declared.op.Op.{Op as TheOp};
ghost use Rattle.opcode.specs.Word.{InRange};
ghost use Rattle.opcode.specs.Reading.{instr_of};
ghost use Rattle.rules.specs.Places.{is_pc, is_place, test_ways as test_ways_of, plain_ways as plain_ways_of, named_by, named_by_all, named_further, words_of};
ghost use Rattle.rules.specs.Notes.{after as after_word, closes, prepares};
ghost use Rattle.verifier.specs.Registers.{Alike, AreEdges, capturing_all, capturing_each, letting_go, preparing, meant};
ghost use Rattle.verifier.specs.Flow.{AreWays, Writes};

use crate::jumps::is_test;
use crate::note::Note;
use crate::words::{Function, decoded, jump};
use opcode::{Instr, Op};

/// Where the word at a pc goes: to at most two places.
#[derive(Clone, Copy, Debug, PartialEq, Eq)]
pub struct Ways {
    pub first: Option<usize>,
    pub second: Option<usize>,
}

/// The registers that an instruction writes: from the first on, below the end.
fn written(instr: Instr) -> (u32, u32)
    requires fields { InRange instr }
    ensures { Writes instr result.0 result.1 }
{
    let Instr { a, b, c, .. } = instr;
    match instr.op {
        Op::SetGlobal
        | Op::SetUpval
        | Op::SetTable
        | Op::Jmp
        | Op::Eq
        | Op::Lt
        | Op::Le
        | Op::Test
        | Op::TailCall
        | Op::Return
        | Op::SetList
        | Op::Close => (0, 0),
        Op::LoadNil => (a, b + 1),
        Op::Self_ => (a, a + 2),
        Op::Call => (a, (a + c).saturating_sub(1)),
        Op::Vararg => (a, (a + b).saturating_sub(1)),
        Op::ForLoop => (a + 3, a + 4),
        Op::ForPrep => (a, a + 3),
        Op::TForLoop => (a + 2, a + 3 + c),
        _ => (a, a + 1),
    }
}

/// The note where a further word captured the register that it names.
fn captured_one(note: Note, word: u32) -> Note
    ensures { Alike (meant result) (capturing_each (named_by TheOp.Move (instr_of word)) (meant note)) }
{
    match decoded(word) {
        Some(
            Instr {
                op: Op::Move,
                b,
                ..
            },
        ) => note.captured(b),
        _ => note,
    }
}

/// The note where further words captured the registers that they name.
fn captured(note: Note, words: &[u32]) -> Note
    ensures { Alike (meant result) (capturing_all words.now (meant note)) }
{
    let mut note = note;
    for word in words {
        note = captured_one(note, *word);
    }
    note
}

/// The note where an instruction let registers go.
fn let_go_by(instr: Instr, note: Note) -> Note
    ensures { Alike (meant result) (letting_go (closes instr.op instr) (meant note)) }
{
    match instr.op {
        Op::Close => note.let_go(instr.a),
        _ => note,
    }
}

/// The note where an instruction prepared a loop.
fn prepared_by(instr: Instr, note: Note) -> Note
    requires fields { InRange instr }
    ensures { Alike (meant result) (preparing (prepares instr.op instr) (meant note)) }
{
    match instr.op {
        Op::ForPrep => note.prepared(instr.a),
        _ => note,
    }
}

/// The further words of the CLOSURE at a pc; of another instruction none.
fn closure_words<'a>(function: &'a Function<'_>, pc: usize, instr: Instr) -> &'a [u32]
    requires small { pc < 2 ^ 32 }
    ensures { named_further TheOp.Move instr.op (words_of (view_proto function.now) pc instr) ≡ named_by_all TheOp.Move result.now }
{
    match instr.op {
        Op::Closure => function.words(pc, instr),
        _ => &[],
    }
}

/// What holds after the word at a pc, where the note holds before it.
pub fn after(function: &Function<'_>, pc: usize, instr: Instr, note: Note) -> Note
    requires small { pc < 2 ^ 32 }
    requires fields { InRange instr }
    ensures { Alike (meant result) (after_word (view_proto function.now) pc instr (meant note)) }
{
    let (first, end) = written(instr);
    let note = let_go_by(instr, note.hit(first, end));
    let note = captured(note, closure_words(function, pc, instr));
    prepared_by(instr, note)
}

fn test_ways(pc: usize, distance: Option<i32>) -> Ways
    requires small { pc < 2 ^ 32 - 1 }
    ensures { (t : ℕ) → list_any (is_pc t) (test_ways_of pc distance) ≡ (is_pc t result.first || is_pc t result.second) }
{
    match distance {
        Some(distance) => Ways {
            first: jump(pc + 1, distance),
            second: Some(pc + 2),
        },
        None => Ways {
            first: None,
            second: None,
        },
    }
}

/// Where the word at a pc goes that is no test.
fn plain_ways(function: &Function<'_>, pc: usize, instr: Instr) -> Ways
    requires small { pc < 2 ^ 32 }
    ensures { (t : ℕ) → list_any (is_pc t) (plain_ways_of (view_proto function.now) pc instr.op instr) ≡ (is_pc t result.first || is_pc t result.second) }
{
    let (first, second) = match instr.op {
        Op::Jmp | Op::ForPrep => (jump(pc, instr.sbx), None),
        Op::ForLoop => (jump(pc, instr.sbx), Some(pc + 1)),
        Op::LoadBool if instr.c == 0 => (Some(pc + 1), None),
        Op::LoadBool => (Some(pc + 2), None),
        Op::Return => (None, None),
        _ => (Some(function.next_pc(pc, instr)), None),
    };
    Ways { first, second }
}

/// Where the word at a pc goes, in the code or not.
fn all_ways(function: &Function<'_>, pc: usize, instr: Instr) -> Ways
    requires small { pc < 2 ^ 32 - 1 }
    ensures { AreWays (view_proto function.now) pc instr result }
{
    if is_test(instr.op) {
        test_ways(pc, function.jmp(pc + 1))
    } else {
        plain_ways(function, pc, instr)
    }
}

/// The way to a pc, where that is in the code and its word belongs to none before it.
fn place(function: &Function<'_>, way: Option<usize>) -> Option<usize>
    ensures place { (t : ℕ) → is_pc t result ≡ (is_place (view_proto function.now) (Some t) && is_pc t way) }
    ensures there { IfSome result (λ t. t < length (own (view_proto function.now)).code) }
{
    match way {
        Some(t) if function.is_place(t) => Some(t),
        _ => None,
    }
}

/// Where the word at a pc goes in the code.
pub fn edges(function: &Function<'_>, pc: usize, instr: Instr) -> Ways
    requires small { pc < 2 ^ 32 - 1 }
    ensures edges { AreEdges (view_proto function.now) pc instr result.first result.second }
    ensures first { IfSome result.first (λ t. t < length (own (view_proto function.now)).code) }
    ensures second { IfSome result.second (λ t. t < length (own (view_proto function.now)).code) }
{
    let ways = all_ways(function, pc, instr);
    Ways {
        first: place(function, ways.first),
        second: place(function, ways.second),
    }
}

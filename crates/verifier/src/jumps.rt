// Jumps, open results and the ends of a function.
ghost use Rattle.proto.specs.View.{view_proto};
ghost use Rattle.std.specs.Prelude.{◌^◌, ◌≡◌, ◌<◌, [], ◌∷◌, None, option_and_then, if◌then◌else◌};
ghost use Rattle.opcode.specs.Word.{InRange};
ghost use Rattle.rules.specs.Breaks.{jumps, wants as wants_of, leaves as leaves_of, wanted_at as wanted_at_of, left_before as left_before_of, is_unmet as is_unmet_of, breaks_jump as breaks_jump_of, breaks_results as breaks_results_of, breaks_no_jump as breaks_no_jump_of, breaks_end as breaks_end_of, breaks_further as breaks_further_of, is_bad_word_of as is_bad_word_by, wants_at as wants_at_of};
ghost use Rattle.rules.specs.Words.{instr_at, is_test as is_test_of};
ghost use Rattle.rules.specs.Places.{is_further, target};
ghost use Rattle.std.specs.List.{list_any};
ghost use Rattle.verifier.specs.Rules.{gone_to};

use crate::words::{Function, jump};
use opcode::{Instr, Op, decode};

/// Where a word jumps or skips to.
#[derive(Clone, Copy, Debug, PartialEq, Eq)]
enum Jump {
    Nowhere,
    /// Below pc 0.
    Before,
    To(usize),
}

/// Whether a JMP must follow.
pub fn is_test(op: Op) -> bool
    ensures { result ≡ is_test_of op }
{
    matches!(
        op,
        Op::Eq | Op::Lt | Op::Le | Op::Test | Op::TestSet | Op::TForLoop
    )
}

fn jump_by(pc: usize, distance: i32) -> Jump
    requires small { pc < 2 ^ 32 }
    ensures { gone_to result ≡ target pc distance ∷ [] }
{
    match jump(pc, distance) {
        Some(t) => Jump::To(t),
        None => Jump::Before,
    }
}

fn jump_of(pc: usize, instr: Instr) -> Jump
    requires small { pc < 2 ^ 32 }
    ensures { gone_to result ≡ jumps pc instr }
{
    match instr.op {
        Op::Jmp | Op::ForPrep | Op::ForLoop => jump_by(pc, instr.sbx),
        Op::LoadBool if instr.c != 0 => Jump::To(pc + 2),
        op if is_test(op) => Jump::To(pc + 2),
        _ => Jump::Nowhere,
    }
}

/// Whether a jump or skip goes outside the code or to a further word.
pub fn breaks_jump(function: &Function<'_>, pc: usize, instr: Instr) -> bool
    requires small { pc < 2 ^ 32 }
    ensures { result ≡ breaks_jump_of (view_proto function.now) pc instr }
{
    match jump_of(pc, instr) {
        Jump::Nowhere => false,
        Jump::Before => true,
        Jump::To(t) => !function.is_place(t),
    }
}

/// The first register of the list of an instruction that takes open results.
fn wants(instr: Instr) -> Option<u32>
    requires fields { InRange instr }
    ensures { result ≡ wants_of instr.op instr }
{
    match instr.op {
        Op::Call | Op::TailCall | Op::SetList if instr.b == 0 => Some(instr.a + 1),
        Op::Return if instr.b == 0 => Some(instr.a),
        _ => None,
    }
}

/// The first register of the open results that an instruction leaves.
fn leaves(instr: Instr) -> Option<u32>
    ensures { result ≡ leaves_of instr.op instr }
{
    match instr.op {
        Op::Call if instr.c == 0 => Some(instr.a),
        Op::TailCall => Some(instr.a),
        Op::Vararg if instr.b == 0 => Some(instr.a),
        _ => None,
    }
}

fn wanted_at(function: &Function<'_>, pc: usize) -> Option<u32>
    ensures { result ≡ wanted_at_of (view_proto function.now) pc }
{
    match function.instr(pc) {
        Some(instr) => wants(instr),
        None => None,
    }
}

fn left_at(function: &Function<'_>, pc: usize) -> Option<u32>
    ensures { result ≡ (if is_further (view_proto function.now) pc then None else option_and_then (λ i. leaves_of i.op i) (instr_at (view_proto function.now) pc)) }
{
    if function.is_further(pc) {
        return None;
    }
    match function.instr(pc) {
        Some(instr) => leaves(instr),
        None => None,
    }
}

fn left_before(function: &Function<'_>, pc: usize) -> Option<u32>
    ensures { result ≡ left_before_of (view_proto function.now) pc }
{
    match pc.checked_sub(1) {
        Some(before) => left_at(function, before),
        None => None,
    }
}

fn is_unmet(wanted: Option<u32>, left: Option<u32>) -> bool
    ensures { result ≡ is_unmet_of wanted left }
{
    match (wanted, left) {
        (None, _) => false,
        (Some(_), None) => true,
        (Some(start), Some(first)) => first < start,
    }
}

fn jumps_to_wanting(function: &Function<'_>, pc: usize, instr: Instr) -> bool
    requires small { pc < 2 ^ 32 }
    ensures { result ≡ list_any (wants_at_of (view_proto function.now)) (jumps pc instr) }
{
    match jump_of(pc, instr) {
        Jump::Nowhere | Jump::Before => false,
        Jump::To(t) => wanted_at(function, t).is_some(),
    }
}

/// Whether open results that the word at a pc wants are not left for it, or those that it leaves are not taken, or it jumps to
/// a word that takes them.
pub fn breaks_results(function: &Function<'_>, pc: usize, instr: Instr) -> bool
    requires small { pc < 2 ^ 32 }
    requires fields { InRange instr }
    ensures { result ≡ breaks_results_of (view_proto function.now) pc instr }
{
    is_unmet(wants(instr), left_before(function, pc))
        || leaves(instr).is_some() && wanted_at(function, pc + 1).is_none()
        || jumps_to_wanting(function, pc, instr)
}

fn is_bad_further(op: Op, word: u32) -> bool
    ensures { result ≡ is_bad_word_by op word }
{
    if op == Op::Closure {
        !matches!(
            decode(word),
            Some(Instr {
                op: Op::Move | Op::GetUpval,
                ..
            })
        )
    } else {
        word == 0
    }
}

fn any_bad_further(op: Op, words: &[u32]) -> bool
    ensures { result ≡ list_any (is_bad_word_by op) words.now }
{
    for word in words {
        if is_bad_further(op, *word) {
            return true;
        }
    }
    false
}

/// Whether a word that belongs to the one at a pc is missing, or is none that may stand there.
pub fn breaks_further(function: &Function<'_>, pc: usize, instr: Instr) -> bool
    requires small { pc < 2 ^ 32 }
    ensures { result ≡ breaks_further_of (view_proto function.now) pc instr }
{
    let words = function.words(pc, instr);
    words.len() < function.belonging(instr) || any_bad_further(instr.op, words)
}

/// Whether a test is not followed by a JMP.
pub fn breaks_no_jump(function: &Function<'_>, pc: usize, instr: Instr) -> bool
    requires small { pc < 2 ^ 32 }
    ensures { result ≡ breaks_no_jump_of (view_proto function.now) pc instr }
{
    is_test(instr.op) && function.jmp(pc + 1).is_none()
}

/// Whether a word that ends the code can go on past the end.
pub fn breaks_end(function: &Function<'_>, pc: usize, instr: Instr) -> bool
    requires small { pc < 2 ^ 32 }
    ensures { result ≡ breaks_end_of (view_proto function.now) pc instr }
{
    let stays = matches!(instr.op, Op::Return | Op::Jmp | Op::ForPrep) || is_test(instr.op);
    function.next_pc(pc, instr) >= function.len() && !stays
}

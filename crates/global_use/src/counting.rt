// How often the words of one function get and set the globals that its constants name.
ghost use Rattle.std.specs.Prelude.{◌≡◌, ◌+◌, ◌<◌, [], true, length, map, option_map, IfOk, OnOk, IsTrue, ◌↔◌, None, Some};
ghost use Rattle.opcode.specs.Reading.{instr_of};
ghost use Rattle.proto.specs.Chunk.{own, functions, functions_of, function_at};
ghost use Rattle.proto.specs.View.{view_proto};
ghost use Rattle.rules.specs.Places.{belonging};
ghost use Rattle.global_use.specs.Counts.{no_counts, counts_sum, counts_of as counts_in, with_more, with_instr, with_word, left_behind as left_behind_in, AreCounted};

use opcode::{Instr, Op, decode};
use proto::{Constant, Proto};
use std::alloc::{AllocError, Global};

/// How many words get a global, and how many set it.
#[derive(Clone, Copy)]
pub struct Counts {
    pub gets: usize,
    pub sets: usize,
}

impl Counts {
    pub const NONE: Counts = Counts { gets: 0, sets: 0 };

    /// The sums of two counts of words. One that does not fit is told as memory that runs out: no memory has so many words.
    pub fn with(self, more: Counts) -> Result<Counts, AllocError>
        ensures { IfOk result (λ sum. sum ≡ counts_sum self more) }
    {
        Ok(Counts {
            gets: sum_of(self.gets, more.gets)?,
            sets: sum_of(self.sets, more.sets)?,
        })
    }

    pub fn is_none(self) -> bool
        ensures { IsTrue result ↔ (self.gets + self.sets ≡ 0) }
    {
        self.gets == 0 && self.sets == 0
    }
}

fn sum_of(count: usize, more: usize) -> Result<usize, AllocError>
    ensures { IfOk result (λ sum. sum ≡ count + more) }
{
    count.checked_add(more).ok_or(AllocError)
}

/// What one word with this opcode does with the global that it names.
fn counts_of(op: Op) -> Counts
    ensures { result ≡ counts_in op }
{
    match op {
        Op::GetGlobal => Counts { gets: 1, sets: 0 },
        Op::SetGlobal => Counts { gets: 0, sets: 1 },
        _ => Counts::NONE,
    }
}

/// Adds counts to those at a place, where there are some.
fn add_at(counts: &mut [Counts], place: usize, more: Counts) -> Result<(), AllocError>
    ensures { OnOk result (counts.new ≡ with_more counts.old place more) }
{
    if place < counts.len() {
        counts[place] = counts[place].with(more)?;
    }
    Ok(())
}

/// Counts an instruction beside the constant that it names, where it gets or sets a global.
fn count_instr(counts: &mut [Counts], instr: Instr) -> Result<(), AllocError>
    ensures { OnOk result (counts.new ≡ with_instr counts.old (Some instr)) }
{
    let one = counts_of(instr.op);
    if one.is_none() {
        return Ok(());
    }
    add_at(counts, instr.bx as usize, one)
}

/// Counts a word, where so many further words were left to come before it.
fn count_word(counts: &mut [Counts], left: usize, word: u32) -> Result<(), AllocError>
    ensures { OnOk result (counts.new ≡ with_word counts.old left word) }
{
    if left > 0 {
        return Ok(());
    }
    match decode(word) {
        Some(instr) => count_instr(counts, instr),
        None => Ok(()),
    }
}

/// How often the words of a function get and set the global that each of its constants names, in the order of the constants.
/// Further words and raw block numbers count nothing. The time is linear in the words and the constants.
pub fn counted(alloc: Global, proto: &Proto) -> Result<Vec<Counts>, AllocError>
    ensures { IfOk result (λ counts. AreCounted (view_proto proto.now) counts.items) }
{
    let constants = constants_of(proto);
    let words = code_of(proto);
    let mut counts = vec![in alloc; Counts::NONE; constants.len()]?;
    let mut left = 0;
    for word in words {
        count_word(counts.as_mut_slice(), left, *word)?;
        left = left_behind(proto, left, *word);
    }
    Ok(counts)
}

/// How many further words are left to come behind a word, where so many were before it.
fn left_behind(proto: &Proto, left: usize, word: u32) -> usize
    ensures { result ≡ left_behind_in (functions (view_proto proto.now)) left word }
{
    match left.checked_sub(1) {
        Some(less) => less,
        None => belonging_of(proto, decode(word)),
    }
}

/// How many further words belong to an instruction, whether or not they are there.
fn belonging_of(proto: &Proto, instr: Option<Instr>) -> usize
    ensures { result ≡ belonging (functions (view_proto proto.now)) instr }
{
    match instr {
        Some(
            Instr {
                op: Op::Closure,
                bx,
                ..
            },
        ) => match inner_upvalues(proto, bx) {
            Some(upvalues) => usize::from(upvalues),
            None => 0,
        },
        Some(
            Instr {
                op: Op::SetList,
                c: 0,
                ..
            },
        ) => 1,
        _ => 0,
    }
}

/// How many upvalues a function in one has, where there is one of that number.
fn inner_upvalues(proto: &Proto, number: u32) -> Option<u8>
    ensures { result ≡ option_map (λ f. (own f).upvalues) (function_at (functions (view_proto proto.now)) number) }
{
    match functions_in(proto).get(number as usize) {
        Some(inner) => Some(upvalues_of(inner)),
        None => None,
    }
}

/// The functions that stand directly in one.
fn functions_in(proto: &Proto) -> &[Proto]
    ensures { functions (view_proto proto.now) ≡ functions_of (map view_proto result.now) }
{
    proto.functions.items()
}

fn upvalues_of(proto: &Proto) -> u8
    ensures { result ≡ (own (view_proto proto.now)).upvalues }
{
    proto.upvalues
}

fn code_of(proto: &Proto) -> &[u32]
    ensures { result.now ≡ (own (view_proto proto.now)).code }
{
    proto.code.items()
}

/// The constants of a function.
pub fn constants_of(proto: &Proto) -> &[Constant]
    ensures { result.now ≡ (own (view_proto proto.now)).constants }
{
    proto.constants.items()
}

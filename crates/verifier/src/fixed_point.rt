// The least notes of a function.
ghost use Rattle.proto.specs.View.{view_proto};
ghost use Rattle.std.specs.Prelude.{◌≡◌, ◌+◌, ◌<◌, ◌≤◌, [], ◌∷◌, get_or, length, None, IfSome, IfOk, OnOk};
ghost use Rattle.proto.specs.Chunk.{Chunk, own};
ghost use Rattle.verifier.specs.Registers.{Followed, notes_of, rooms};
ghost use Rattle.verifier.specs.Least.{AreLeast, Flowing};

use crate::flow::{after, edges};
use crate::note::Note;
use crate::words::Function;
use std::alloc::{AllocError, Global};
use std::collections::BTreeSet;

/// Joins a note along a way into the one where it goes, and makes that place work where its note
/// asks more than before.
fn follow(
    notes: &mut [Option<Note>],
    work: &mut BTreeSet<usize>,
    way: Option<usize>,
    new: Note,
) -> Result<(), AllocError>
    requires here { IfSome way (λ t. t < length notes.now) }
    ensures followed { OnOk result (Followed notes.old notes.new work.old.keys work.new.keys way new) }
    ensures size { length notes.new ≡ length notes.old }
{
    let Some(t) = way else { return Ok(()) };
    if let Some(joined) = Note::met(notes[t], new) {
        notes[t] = Some(joined);
        work.insert(t)?;
    }
    Ok(())
}

/// The note of a pc, where there is one.
pub fn note_at(notes: &[Option<Note>], pc: usize) -> Option<Note>
    ensures { result ≡ get_or notes.now pc None }
{
    match notes.get(pc) {
        Some(note) => *note,
        None => None,
    }
}

/// Follows the word at a pc wherever it goes.
fn visit(
    function: &Function<'_>,
    notes: &mut [Option<Note>],
    work: &mut BTreeSet<usize>,
    pc: usize,
) -> Result<(), AllocError>
    requires size { length (own (view_proto function.now)).code ≤ length notes.old }
    ensures flows { OnOk result (Flowing (view_proto function.now) (notes_of notes.old) (pc ∷ work.old.keys) → Flowing (view_proto function.now) (notes_of notes.new) work.new.keys) }
    ensures size { length notes.new ≡ length notes.old }
    ensures less { OnOk result (rooms notes.new + length work.new.keys ≤ rooms notes.old + length work.old.keys) }
{
    let Some(instr) = function.instr(pc) else {
        return Ok(());
    };
    let Some(note) = note_at(notes, pc) else {
        return Ok(());
    };
    let note = after(function, pc, instr, note);
    let ways = edges(function, pc, instr);
    follow(notes, work, ways.first, note)?;
    follow(notes, work, ways.second, note)?;
    Ok(())
}

/// Follows words until none is work, always the one at the lowest pc.
fn spread(
    function: &Function<'_>,
    notes: &mut [Option<Note>],
    work: &mut BTreeSet<usize>,
) -> Result<(), AllocError>
    requires size { length (own (view_proto function.now)).code ≤ length notes.old }
    requires flows { Flowing (view_proto function.now) (notes_of notes.old) work.old.keys }
    ensures least { OnOk result (AreLeast (view_proto function.now) (notes_of notes.new)) }
    ensures size { length notes.new ≡ length notes.old }
{
    while let Some(pc) = work.pop_first() {
        visit(function, notes, work, pc)?;
    }
    Ok(())
}

/// A table of so many places, with a note before the first word alone.
fn begin(alloc: Global, places: usize) -> Result<Vec<Option<Note>>, AllocError>
    requires some { 0 < places }
    ensures begins { IfOk result (λ notes. (f : Chunk) → Flowing f (notes_of notes.items) (0 ∷ [])) }
    ensures size { IfOk result (λ notes. length notes.items ≡ places) }
{
    let start = Note::start();
    let mut notes = Vec::with_capacity(alloc, places)?;
    notes.push(Some(start))?;
    for _place in 1..places {
        notes.push(None)?;
    }
    Ok(notes)
}

/// The least consistent notes of a function, by pc. Of the words whose notes came to ask more, the one at the lowest pc is
/// done next. So where all jumps go forward each word is done once; else once for each time that its note comes to ask
/// more, which is at most 769 times: where it is first reached, and for each of 512 registers and 256 loops. Doing a word
/// takes linear time in the words that belong to it, and logarithmic time in those that wait.
pub fn least_notes(alloc: Global, function: &Function<'_>) -> Result<Vec<Option<Note>>, AllocError>
    ensures { IfOk result (λ notes. AreLeast (view_proto function.now) (notes_of notes.items)) }
{
    let mut notes = begin(alloc, function.len().max(1))?;
    let mut work = BTreeSet::new(alloc);
    work.insert(0)?;
    spread(function, &mut notes, &mut work)?;
    Ok(notes)
}

// The top call.
ghost use Rattle.host.specs.Views.{set_told};
ghost use Rattle.suite.specs.Seen.{seen};
ghost use Rattle.suite.specs.Promises.{Promises};

use crate::command::do_command;
use crate::outcome::Outcome;
use crate::report::report;
use crate::status::Status;
use crate::words::read_words;
use hash_seed::Seed;
use host::HostSet;
use std::alloc::Global;
use suite_io::{Files, Sink, Word};

/// Carries out the command that the words say: `run FILE [--steps N]` runs the chunk that the file spells or that the compiler makes of its source, where it
/// is sound, with these hosts and for at most N steps, `list FILE` puts the listing of that chunk, `verify FILE` puts `ok` where it is sound, `globals FILE` a line for each
/// global that it names, `compile SRC OUT [--strip] [--layout L]` stores the chunk of a source as OUT, `decompile CHUNK OUT` the text of a source of a chunk, `assemble IN OUT` the chunk of a
/// listing, and `make-source N` makes a source with N functions, runs its chunk, finds a source of it again, and puts an account. Every other list of words is refused. The work goes in the order words,
/// fetch, reading (of source: tokens, tree, scopes, chunk), verification, run or listing or store, and the line for `err` that every status
/// but `Done` has; the first refusal gives the status. What was put to `out` before a refusal stays. Want of memory is a free answer. The seed says how a run hashes its
/// texts and keys, and nothing else.
///
/// What it promises of that is one record, `specs/Promises`, over what is seen before and behind.
pub fn suite<F: Files, O: Sink, E: Sink>(
    alloc: Global,
    words: &[Word],
    files: &mut F,
    out: &mut O,
    err: &mut E,
    hosts: &mut HostSet,
    seed: Seed,
) -> Status
    ensures { Promises words.now
        (seen (F.contents files.old) (F.calls files.old) (O.taken out.old) (O.faults out.old) (E.taken err.old) (E.faults err.old) (set_told heard hosts.old))
        (seen (F.contents files.new) (F.calls files.new) (O.taken out.new) (O.faults out.new) (E.taken err.new) (E.faults err.new) (set_told heard hosts.new)) result }
{
    // Laws: a file has one chunk or one kind of fault, and a chunk is not sound and rejected.
    front::chunks_are_one();
    front::never_both();
    chunk_io::chunks_are_one();
    chunk_io::never_both();
    rules::never_both();
    // A law: a chunk has one text of its globals.
    global_use::texts_are_one();
    // Laws: a text is the listing of one chunk, or has a fault.
    asm_text::chunks_are_one();
    asm_text::never_both();
    // A law: the chunk of a source does what the source means.
    front::compiled_does();
    // A law: it gets and sets each global as often as the source does.
    source_globals::globals_of_source();
    let asked = match read_words(alloc, words) {
        Ok(asked) => asked,
        Err(_) => return report(alloc, err, Outcome::OutOfMemory, ""),
    };
    match asked {
        Some(command) => {
            let outcome = do_command(alloc, &command, files, out, hosts, seed);
            report(alloc, err, outcome, command.name())
        }
        None => report(alloc, err, Outcome::BadWords, ""),
    }
}

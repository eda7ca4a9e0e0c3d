// Putting and storing texts.
ghost use Rattle.std.specs.Prelude.{List, ℕ, Option};
ghost use Rattle.std.specs.String.{string_bytes};
ghost use Rattle.suite_io.specs.declared.calls.FileCall.{FileCall};
ghost use Rattle.suite_io.specs.Contents.{Contents};
ghost use Rattle.suite.specs.Seen.{outside};
ghost use Rattle.suite.specs.Work.{PutsText, StoresText};

use crate::outcome::Outcome;
use std::alloc::Global;
use suite_io::{FileFault, Files, Sink, SinkFault, Word, put_all};

/// Puts a text, and answers what the work comes to by that.
pub fn put_text<S: Sink>(sink: &mut S, text: &[u8]) -> Outcome
    ensures { (contents : Option Contents) (calls : List FileCall) → PutsText text.now result (outside contents calls (S.taken sink.old) (S.faults sink.old)) (outside contents calls (S.taken sink.new) (S.faults sink.new)) }
{
    match put_all(sink, text) {
        Ok(()) => Outcome::Done,
        Err(SinkFault::Failed) => Outcome::WriteFault,
        Err(SinkFault::OutOfMemory) => Outcome::OutOfMemory,
    }
}

/// Stores a text, and answers what the work comes to by that.
pub fn store_text<F: Files>(alloc: Global, files: &mut F, out: &Word, text: &[u8]) -> Outcome
    ensures { (taken : Option (List ℕ)) (faults : ℕ) → StoresText (string_bytes out.now) text.now result (outside (F.contents files.old) (F.calls files.old) taken faults) (outside (F.contents files.new) (F.calls files.new) taken faults) }
{
    match files.store(alloc, out, text) {
        Ok(()) => Outcome::Done,
        Err(FileFault::Failed) => Outcome::WriteFault,
        Err(FileFault::OutOfMemory) => Outcome::OutOfMemory,
    }
}

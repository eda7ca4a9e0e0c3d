// The line that says why a call did not succeed.
ghost use Rattle.std.specs.Prelude.{◌≡◌, ◌≤◌, ℕ, IfOk, OnOk, OnErr, IsErrOf};
ghost use Rattle.std.specs.String.{string_bytes};
ghost use Rattle.suite_io.specs.Parts.{TakesPart};
ghost use Rattle.suite_io.specs.Taken.{Takes, Rises};
ghost use Rattle.suite.specs.Lines.{Reported, IsPut, Refused, line_of, line_with};

use crate::outcome::Outcome;
use crate::status::Status;
use std::alloc::{AllocError, Global};
use suite_io::{Sink, SinkFault, put_all};

/// Puts the line of what the work came to, which speaks of a file of this name, and answers what
/// becomes of the status.
pub fn report<E: Sink>(alloc: Global, err: &mut E, outcome: Outcome, name: &str) -> Status
    ensures { Reported outcome name.now result (E.taken err.old) (E.taken err.new) (E.faults err.old) (E.faults err.new) }
{
    let status = outcome.status();
    match outcome {
        Outcome::Done => status,
        Outcome::ScriptFailed(why) => put_line(err, status, "", why.bytes()),
        Outcome::BadWords => put_line(err, status, "", b"bad words"),
        Outcome::Unfinished(steps) => {
            let text = format!(in alloc; "unfinished after {steps} steps");
            put_made_line(err, status, "", text)
        }
        Outcome::BadSource(fault) => {
            let text = format!(in alloc; ": {fault}");
            put_made_line(err, status, name, text)
        }
        Outcome::BadChunk(fault) => {
            let text = format!(in alloc; ": {fault}");
            put_made_line(err, status, name, text)
        }
        Outcome::Rejected(rejection) => {
            let text = format!(in alloc; ": {rejection}");
            put_made_line(err, status, name, text)
        }
        Outcome::NotDecompiled(refused) => {
            let text = format!(in alloc; ": {refused}");
            put_made_line(err, status, name, text)
        }
        Outcome::BadListing(fault) => {
            let text = format!(in alloc; ": {fault}");
            put_made_line(err, status, name, text)
        }
        Outcome::ReadFault => put_line(err, status, name, b": read failed"),
        Outcome::WriteFault => put_line(err, status, "", b"write failed"),
        Outcome::OutOfMemory => put_line(err, status, "", b"out of memory"),
    }
}

// Puts the line of a status whose text was made. Where there was no memory for it, the line is that of want of memory.
fn put_made_line<E: Sink>(
    err: &mut E,
    status: Status,
    name: &str,
    text: Result<String, AllocError>,
) -> Status
    ensures made { IfOk text (λ text. IsPut status (line_with name.now (string_bytes text)) result (E.taken err.old) (E.taken err.new) (E.faults err.old) (E.faults err.new)) }
    ensures wanting { OnErr text (IsPut Status.OutOfMemory (line_of Outcome.OutOfMemory name.now) result (E.taken err.old) (E.taken err.new) (E.faults err.old) (E.faults err.new)) }
{
    match text {
        Ok(text) => put_line(err, status, name, text.as_bytes()),
        Err(_) => put_line(err, Status::OutOfMemory, "", b"out of memory"),
    }
}

// Puts the line of a status, and answers what becomes of it.
fn put_line<E: Sink>(err: &mut E, status: Status, name: &str, text: &[u8]) -> Status
    ensures { IsPut status (line_with name.now text.now) result (E.taken err.old) (E.taken err.new) (E.faults err.old) (E.faults err.new) }
{
    match put_pieces(err, name, text) {
        Ok(()) => status,
        Err(fault) => after_refusal(status, fault),
    }
}

// A fault of writing and want of memory stay; every other status gives way to the fault.
fn after_refusal(status: Status, fault: SinkFault) -> Status
    ensures { (old new : ℕ) → (fault ≡ SinkFault.Failed → Rises old new) → Refused status result old new }
{
    match (status, fault) {
        (Status::WriteFault | Status::OutOfMemory, _) => status,
        (_, SinkFault::Failed) => Status::WriteFault,
        (_, SinkFault::OutOfMemory) => Status::OutOfMemory,
    }
}

// Puts `luasuite: `, a name, a text and a line end.
fn put_pieces<E: Sink>(err: &mut E, name: &str, text: &[u8]) -> Result<(), SinkFault>
    ensures whole { OnOk result (Takes (E.taken err.old) (E.taken err.new) (line_with name.now text.now)) }
    ensures part { OnErr result (TakesPart (E.taken err.old) (E.taken err.new) (line_with name.now text.now)) }
    ensures never_falls { E.faults err.old ≤ E.faults err.new }
    ensures risen { IsErrOf result SinkFault.Failed → Rises (E.faults err.old) (E.faults err.new) }
{
    put_all(err, b"luasuite: ")?;
    put_all(err, name.as_bytes())?;
    put_all(err, text)?;
    put_all(err, b"\n")
}

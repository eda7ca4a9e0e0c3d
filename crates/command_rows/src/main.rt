// Reads rows such as `run a.lua: print(3)`: words, and what the file `a.lua` holds. Prints behind each row what the suite comes to
// over files and sinks in memory: the status, what each sink took, the calls of files, and what the file `b` then holds, where it is
// there, and last the calls of hosts. The words of several calls, as in `compile a.lua b; run b: print(3)`, stand before one source:
// the files stay from call to call, and sinks and hosts are new. The host `ask`, number 0, replies true and 5, and the host
// `readline` replies `x`, and then fails with `closed pipe`. A row may begin with a put that fails or finds no memory, as
// `out fails 3: ` or `err full 2: `, with a call of files that fails, as `files fails 2: `, with how many bytes a put takes, as
// `limit 1: `, or with a text, as `lines WORD: `: of what `out` took, only the lines that hold it are then printed. `each failing: ` goes
// over each call of files and each put that can fail, and `each changed: ` over each change of a byte of the file `b` that the first call stores.
// A row with no `: ` is a heading.
#![tactic(auto)]

mod every;
mod full_sink;
mod hosts;
mod row;

use full_sink::FullSink;
use hash_seed::Seed;
use host::{Host, HostSet, ScriptHost};
use hosts::{ask_replies, calls_text, line_replies};
use row::{Ending, Row, Scope, read_row};
use std::alloc::{AllocError, Global};
use std::io;
use suite::{Status, suite};
use suite_io::{FileCall, MemoryFiles, MemorySink, Sink, Word};

fn main(rt: HostRuntime) -> io::Result<()> {
    for line in rt.lines(rt.alloc()) {
        let text = line?;
        match read_row(rt.alloc(), text.as_str())? {
            Some(row) => println!(rt; "{text}  =>  {}", answer_of(rt.alloc(), &row)?)?,
            None => println!(rt; "{text}")?,
        }
    }
    Ok(())
}

fn answer_of(alloc: Global, row: &Row) -> Result<String, AllocError> {
    match row.scope {
        Scope::Once => answer(alloc, row),
        Scope::EachFailing => every::failing(alloc, row),
        Scope::EachChanged => every::changed(alloc, row),
    }
}

fn answer(alloc: Global, row: &Row) -> Result<String, AllocError> {
    let mut files = MemoryFiles::new(alloc, &[row.files_end])?;
    files.set(alloc, &String::from_str(alloc, "a.lua")?, &row.source)?;
    let mut text = String::new(alloc);
    let mut asked = String::new(alloc);
    for (at, words) in row.calls.iter().enumerate() {
        if at > 0 {
            text.push_str("; ")?;
        }
        let (ended, of_hosts) = match row.ending {
            Ending::Full => over_full_sinks(alloc, row, words, &mut files)?,
            Ending::Fails => over_memory(alloc, row, words, &mut files)?,
            Ending::Limit => over_narrow_sinks(alloc, row, words, &mut files)?,
        };
        text.push_str(ended.as_str())?;
        asked.push_str(of_hosts.as_str())?;
    }
    if let Some(stored) = files.get(&String::from_str(alloc, "b")?) {
        let shown = stored.escape_ascii();
        text.push_str(format!(in alloc; ", b <{shown}>")?.as_str())?;
    }
    text.push_str(asked.as_str())?;
    Ok(text)
}

fn over_memory(
    alloc: Global,
    row: &Row,
    words: &[Word],
    files: &mut MemoryFiles,
) -> Result<(String, String), AllocError> {
    let mut out = MemorySink::new(alloc, &[row.out_ends])?;
    let mut err = MemorySink::new(alloc, &[row.err_ends])?;
    over_sinks(alloc, row, words, files, &mut out, &mut err)
}

fn over_narrow_sinks(
    alloc: Global,
    row: &Row,
    words: &[Word],
    files: &mut MemoryFiles,
) -> Result<(String, String), AllocError> {
    let limit = row.limit.max(1);
    let mut out = MemorySink::with_limit(alloc, limit)?;
    let mut err = MemorySink::with_limit(alloc, limit)?;
    over_sinks(alloc, row, words, files, &mut out, &mut err)
}

fn over_sinks(
    alloc: Global,
    row: &Row,
    words: &[Word],
    files: &mut MemoryFiles,
    out: &mut MemorySink,
    err: &mut MemorySink,
) -> Result<(String, String), AllocError> {
    let earlier = files.calls().len();
    let (status, asked) = called(alloc, words, files, out, err)?;
    let shown = lines_with(alloc, out.taken(), row.shown.as_str())?;
    let text = outcome(alloc, status, shown.as_slice(), err.taken())?;
    Ok((with_calls(alloc, text, files.calls(), earlier)?, asked))
}

fn over_full_sinks(
    alloc: Global,
    row: &Row,
    words: &[Word],
    files: &mut MemoryFiles,
) -> Result<(String, String), AllocError> {
    let earlier = files.calls().len();
    let mut out = FullSink::new(alloc, row.out_ends);
    let mut err = FullSink::new(alloc, row.err_ends);
    let (status, asked) = called(alloc, words, files, &mut out, &mut err)?;
    let text = outcome(alloc, status, out.taken(), err.taken())?;
    Ok((with_calls(alloc, text, files.calls(), earlier)?, asked))
}

// The lines of `taken` that hold this text; all, where it is empty.
fn lines_with(alloc: Global, taken: &[u8], shown: &str) -> Result<Vec<u8>, AllocError> {
    let mut lines = Vec::new(alloc);
    for line in taken.split_inclusive(|byte| *byte == b'\n') {
        if shown.is_empty() || str::from_utf8(line).is_ok_and(|line| line.contains(shown)) {
            lines.extend_from_slice(line)?;
        }
    }
    Ok(lines)
}

// Calls the suite with the hosts of the rows. Answers the status, and what was asked of the hosts.
pub(crate) fn called<O: Sink, E: Sink>(
    alloc: Global,
    words: &[Word],
    files: &mut MemoryFiles,
    out: &mut O,
    err: &mut E,
) -> Result<(Status, String), AllocError> {
    let ask: Box<dyn Host> = Box::new(alloc, ScriptHost::new(alloc, ask_replies(alloc)?))?;
    let lines: Box<dyn Host> = Box::new(alloc, ScriptHost::new(alloc, line_replies(alloc)?))?;
    let mut hosts = HostSet::new(alloc);
    hosts.add(alloc, b"ask", ask).map_err(|(_, error)| error)?;
    if !hosts.has(b"readline") {
        hosts
            .add(alloc, b"readline", lines)
            .map_err(|(_, error)| error)?;
    }
    let status = suite(alloc, words, files, out, err, &mut hosts, Seed::fixed());
    Ok((status, calls_text(alloc, hosts.log())?))
}

fn outcome(alloc: Global, status: Status, out: &[u8], err: &[u8]) -> Result<String, AllocError> {
    let number = status.number();
    let (out, err) = (out.escape_ascii(), err.escape_ascii());
    format!(in alloc; "{status:?} {number}, out <{out}>, err <{err}>")
}

// Behind the text the calls of files but for the earlier ones.
fn with_calls(
    alloc: Global,
    mut text: String,
    calls: &[FileCall],
    earlier: usize,
) -> Result<String, AllocError> {
    for call in calls.iter().skip(earlier) {
        text.push_str(call_text(alloc, call)?.as_str())?;
    }
    Ok(text)
}

fn call_text(alloc: Global, call: &FileCall) -> Result<String, AllocError> {
    let name = call.name.bytes().escape_ascii();
    let end = if call.failed { " failed" } else { "" };
    if call.store {
        format!(in alloc; ", store {name}{end}")
    } else {
        format!(in alloc; ", fetch {name}{end}")
    }
}

// Calls of the suite over files and sinks that fail at each call of theirs in turn, and over each change of a chunk.
use crate::called;
use crate::row::Row;
use std::alloc::{AllocError, Global};
use suite::Status;
use suite_io::{MemoryFiles, MemorySink, Word};

/// What a call of the suite came to.
#[derive(Drop)]
struct CameTo {
    status: Status,
    out: Vec<u8>,
    err: Vec<u8>,
}

/// Which sinks fail.
#[derive(Clone, Copy)]
enum FailingSinks {
    Out,
    Err,
    Both,
}

impl FailingSinks {
    /// The numbers of the puts to `out` and to `err` that fail, at the turn of this number; 0 is none.
    fn numbers(self, turn: u64) -> (u64, u64) {
        match self {
            FailingSinks::Out => (turn, 0),
            FailingSinks::Err => (0, turn),
            FailingSinks::Both => (turn, 1),
        }
    }

    /// How many turns there are at most: where a line is put, `err` fails at each turn of both.
    fn turns(self) -> u64 {
        match self {
            FailingSinks::Out | FailingSinks::Err => u64::MAX,
            FailingSinks::Both => 1,
        }
    }
}

/// Whether each of the calls ends as it should where one of its calls of files fails, or one of its puts: with the status of that fault, with a
/// first part of what it puts else, and with the files as they were. Where both sinks fail it is a write fault too.
pub(crate) fn failing(alloc: Global, row: &Row) -> Result<String, AllocError> {
    let mut failed = 0u32;
    for (at, words) in row.calls.iter().enumerate() {
        let Some(of_files) = failing_files(alloc, row, at, words)? else {
            return Ok(format!(in alloc; "not the files of call {at}")?);
        };
        failed = failed.saturating_add(of_files);
        for which in [FailingSinks::Out, FailingSinks::Err, FailingSinks::Both] {
            let Some(of_puts) = failing_puts(alloc, row, at, words, which)? else {
                return Ok(format!(in alloc; "not the puts of call {at}")?);
            };
            failed = failed.saturating_add(of_puts);
        }
    }
    format!(in alloc; "{failed} failing calls, all hold")
}

// How many calls of files of a call of the suite failed in turn; none where it did not end as it should.
fn failing_files(
    alloc: Global,
    row: &Row,
    at: usize,
    words: &[Word],
) -> Result<Option<u32>, AllocError> {
    let before = files_before(alloc, row, at, 0)?;
    let earlier = before.calls().len() as u64;
    let mut failed = 0u32;
    for (number, status) in [(1, Status::ReadFault), (2, Status::WriteFault)] {
        let mut files = files_before(alloc, row, at, earlier.saturating_add(number))?;
        let ended = ended(alloc, words, &mut files, (0, 0))?;
        if !files.calls().iter().any(|call| call.failed) {
            continue;
        }
        if ended.status != status || !ended.out.is_empty() || !are_alike(row, &files, &before) {
            return Ok(None);
        }
        failed = failed.saturating_add(1);
    }
    Ok(Some(failed))
}

// How many puts of a call failed in turn; none where it did not end as it should.
fn failing_puts(
    alloc: Global,
    row: &Row,
    at: usize,
    words: &[Word],
    which: FailingSinks,
) -> Result<Option<u32>, AllocError> {
    let whole = ended(alloc, words, &mut files_before(alloc, row, at, 0)?, (0, 0))?;
    let mut failed = 0u32;
    for turn in 1..=which.turns() {
        let mut files = files_before(alloc, row, at, 0)?;
        let ended = ended(alloc, words, &mut files, which.numbers(turn))?;
        if ended.status == whole.status && ended.out == whole.out && ended.err == whole.err {
            break;
        }
        if ended.status != Status::WriteFault || !whole.out.starts_with(&ended.out) {
            return Ok(None);
        }
        failed = failed.saturating_add(1);
    }
    Ok(Some(failed))
}

// The files before the call of this number, of which the call of files with this number fails.
fn files_before(
    alloc: Global,
    row: &Row,
    at: usize,
    fails: u64,
) -> Result<MemoryFiles, AllocError> {
    let mut files = MemoryFiles::new(alloc, &[fails])?;
    files.set(alloc, &String::from_str(alloc, "a.lua")?, &row.source)?;
    for words in row.calls.iter().take(at) {
        ended(alloc, words, &mut files, (0, 0))?;
    }
    Ok(files)
}

fn ended(
    alloc: Global,
    words: &[Word],
    files: &mut MemoryFiles,
    fails: (u64, u64),
) -> Result<CameTo, AllocError> {
    let mut out = MemorySink::new(alloc, &[fails.0])?;
    let mut err = MemorySink::new(alloc, &[fails.1])?;
    let (status, _) = called(alloc, words, files, &mut out, &mut err)?;
    Ok(CameTo {
        status,
        out: out.taken().to_vec(alloc)?,
        err: err.taken().to_vec(alloc)?,
    })
}

// Whether the files that the words of the row name are the same.
fn are_alike(row: &Row, files: &MemoryFiles, others: &MemoryFiles) -> bool {
    row.calls
        .iter()
        .flatten()
        .all(|word| files.get(word) == others.get(word))
}

/// Whether the calls behind the first, over each change of one byte of the file `b` that the first one stores, all end, and none
/// of them by a fault of files or sinks.
pub(crate) fn changed(alloc: Global, row: &Row) -> Result<String, AllocError> {
    let name = String::from_str(alloc, "b")?;
    let first = files_before(alloc, row, 1, 0)?;
    let chunk = first.get(&name).unwrap_or(&[]).to_vec(alloc)?;
    let mut ends = 0u32;
    for at in 0..chunk.len() {
        for value in 0..=u8::MAX {
            if value == chunk[at] {
                continue;
            }
            let mut bytes = chunk.clone()?;
            bytes[at] = value;
            for words in row.calls.iter().skip(1) {
                let mut files = MemoryFiles::new(alloc, &[])?;
                files.set(alloc, &name, &bytes)?;
                if !is_usual(ended(alloc, words, &mut files, (0, 0))?.status) {
                    return Ok(format!(in alloc; "not {value} at {at}")?);
                }
                ends = ends.saturating_add(1);
            }
        }
    }
    format!(in alloc; "{ends} calls, all end")
}

// What a call over a chunk that was changed may come to.
fn is_usual(status: Status) -> bool {
    matches!(
        status,
        Status::Done
            | Status::ScriptFailed
            | Status::Unfinished
            | Status::BadSource
            | Status::BadChunk
            | Status::Rejected
            | Status::NotDecompiled
    )
}

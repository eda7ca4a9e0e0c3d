// Rows: the words of each call, the source of `a.lua`, what is shown, and which puts and calls of files do not go well.
use row_source::read_source;
use std::alloc::{AllocError, Global};
use suite_io::Word;

/// How a put ends that does not go well, or takes no more than so many bytes.
#[derive(Clone, Copy)]
pub enum Ending {
    Fails,
    Full,
    Limit,
}

/// Over what the calls go.
#[derive(Clone, Copy)]
pub enum Scope {
    Once,
    /// Each call of files and each put that can fail, one after the other.
    EachFailing,
    /// Each change of a byte of the file that the first call stores.
    EachChanged,
}

/// Calls of the suite, one after the other over the same files. The puts of these numbers end as `ending` says, and the call of
/// files fails; no put or call has the number 0. Of what `out` took, the lines that hold the text `shown` are shown.
#[derive(Drop)]
pub struct Row {
    pub calls: Vec<Vec<Word>>,
    pub source: Vec<u8>,
    pub shown: String,
    pub scope: Scope,
    pub ending: Ending,
    pub limit: usize,
    pub out_ends: u64,
    pub err_ends: u64,
    pub files_end: u64,
}

/// The row of a text; none where it has no `: `.
pub(crate) fn read_row(alloc: Global, text: &str) -> Result<Option<Row>, AllocError> {
    let Some((front, rest)) = text.split_once(": ") else {
        return Ok(None);
    };
    match rest.split_once(": ") {
        Some((words, source)) => read_parts(alloc, front, words, source),
        None => read_parts(alloc, "", front, rest),
    }
}

fn read_parts(
    alloc: Global,
    front: &str,
    words: &str,
    source: &str,
) -> Result<Option<Row>, AllocError> {
    let (sink, end) = front.split_once(' ').unwrap_or(("", ""));
    let (kind, number) = end.split_once(' ').unwrap_or(("", ""));
    let number = number.parse::<u64>().unwrap_or(0);
    Ok(Some(Row {
        calls: read_calls(alloc, words)?,
        source: read_source(alloc, source)?,
        shown: String::from_str(alloc, if sink == "lines" { end } else { "" })?,
        scope: scope_of(front),
        ending: match (sink, kind) {
            ("limit", _) => Ending::Limit,
            (_, "full") => Ending::Full,
            _ => Ending::Fails,
        },
        limit: end.parse::<usize>().unwrap_or(0),
        out_ends: if sink == "out" { number } else { 0 },
        err_ends: if sink == "err" { number } else { 0 },
        files_end: if sink == "files" { number } else { 0 },
    }))
}

fn scope_of(front: &str) -> Scope {
    match front {
        "each failing" => Scope::EachFailing,
        "each changed" => Scope::EachChanged,
        _ => Scope::Once,
    }
}

fn read_calls(alloc: Global, text: &str) -> Result<Vec<Vec<Word>>, AllocError> {
    let mut calls = Vec::new(alloc);
    for words in text.split("; ") {
        calls.push(read_words(alloc, words)?)?;
    }
    Ok(calls)
}

fn read_words(alloc: Global, text: &str) -> Result<Vec<Word>, AllocError> {
    let mut words = Vec::new(alloc);
    for word in text.split_ascii_whitespace() {
        words.push(String::from_str(alloc, word)?)?;
    }
    Ok(words)
}

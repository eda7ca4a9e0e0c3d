// Readers of lines.
ghost use Rattle.std.specs.Prelude.{◌≡◌, ◌≢◌, ◌-◌, ◌<◌, ◌≤◌, ℕ, List, Option, Ok, true, false, All, take, length, OnOk, OnErr, OnSome, IsErrOf};
ghost use Rattle.std.specs.Io.{StartsWith, StopsAt, IsEmptyOrEndsWith, appended_bytes};
ghost use Rattle.std.specs.Io.KnownBytes.{Consumes, IsAtEnd};
ghost use Rattle.host.specs.Lines.{Rises, counted};

use std::io::{self, BufRead, ErrorKind};
use std::marker::Model;

/// Why a reader did not give bytes.
#[derive(Clone, Copy, Debug, PartialEq, Eq)]
pub enum ReadFault {
    /// Reading failed.
    Failed,
    OutOfMemory,
}

/// A reader of which a host reads lines. Its counts stand still at 2^64 - 1.
pub trait LineReader {
    /// The bytes that are left, where those are known.
    ghost remaining: { Self → Option (List ℕ) };

    /// How many bytes it gave so far.
    ghost given: { Self → ℕ };

    /// How often reading failed. It never falls, and at 2^64 - 1 it counts as risen.
    ghost faults: { Self → ℕ };

    /// Appends bytes to a line, up to and including the first line end, a byte 10, and at most `most`. Says whether it met a
    /// line end or the end of the reader; if it did not, there is at least one byte. `Failed` comes only where the count of
    /// faults rose.
    fn append_part(&mut self, most: usize, line: &mut Vec<u8>) -> Result<bool, ReadFault>
        ensures appends { StartsWith line.new.items line.old.items }
        ensures within { length (appended_bytes line.old.items line.new.items) ≤ most }
        ensures stops { StopsAt (appended_bytes line.old.items line.new.items) 10 }
        ensures bytes { Consumes (remaining self.old) (remaining self.new) (appended_bytes line.old.items line.new.items) }
        ensures end { result ≡ Ok true → 0 < most → length (appended_bytes line.old.items line.new.items) ≡ 0
            → OnSome (remaining self.old) (IsAtEnd (remaining self.new)) }
        ensures unfinished { result ≢ Ok true → All (λ x. x ≢ 10) (appended_bytes line.old.items line.new.items) }
        ensures done { result ≡ Ok true → IsEmptyOrEndsWith (appended_bytes line.old.items line.new.items) 10 }
        ensures some { result ≡ Ok false → 0 < length (appended_bytes line.old.items line.new.items) }
        ensures counts { given self.new ≡ counted (given self.old) (length (appended_bytes line.old.items line.new.items)) }
        ensures never_falls { faults self.old ≤ faults self.new }
        ensures quiet { OnOk result (faults self.new ≡ faults self.old) }
        ensures risen { IsErrOf result ReadFault.Failed → Rises (faults self.old) (faults self.new) }
        ensures no_memory { IsErrOf result ReadFault.OutOfMemory → faults self.new ≡ faults self.old };
}

/// A reader with a count of the bytes that it gave, and of the times that reading failed. A read that was interrupted is
/// tried again.
#[derive(Drop)]
pub struct CountedReader<R: BufRead + Drop> {
    reader: R,
    given: u64,
    faults: u64,
}

impl<R: BufRead + Drop> Model for CountedReader<R> {
    ghost use Rattle.host.specs.Lines.{ReaderState};

    ghost Value = { ReaderState };

    ghost view = { λ c. record { left = R.remaining c.reader; given = c.given; faults = c.faults } };
}

impl<R: BufRead + Drop> CountedReader<R> {
    /// A reader that gave nothing so far.
    pub fn new(reader: R) -> Self
        ensures { result ≡ record { left = R.remaining reader; given = 0; faults = 0 } }
    {
        Self {
            reader,
            given: 0,
            faults: 0,
        }
    }
}

impl<R: BufRead + Drop> LineReader for CountedReader<R> {
    ghost remaining = { λ c. c.left };

    ghost given = { λ c. c.given };

    ghost faults = { λ c. c.faults };

    /// One read that is not interrupted. An error of it is a fault, if it is not want of memory.
    fn append_part(&mut self, most: usize, line: &mut Vec<u8>) -> Result<bool, ReadFault> {
        let before = line.len();
        let answer = append_some(&mut self.reader, most, line);
        self.given = self.given.saturating_add((line.len() - before) as u64);
        if answer == Err(ReadFault::Failed) {
            self.faults = self.faults.saturating_add(1);
        }
        answer
    }
}

// The length up to and including the first line end, or the whole length, at most `most`.
fn len_through(bytes: &[u8], most: usize) -> usize
    ensures bound { result ≤ length bytes.now }
    ensures within { result ≤ most }
    ensures some { 0 < length bytes.now → 0 < most → 0 < result }
    ensures before { All (λ x. x ≢ 10) (take (result - 1) bytes.now) }
{
    let end = bytes.len().min(most);
    let mut i = 0;
    while i < end {
        if bytes[i] == b'\n' {
            return i + 1;
        }
        i += 1;
    }
    i
}

// Appends the bytes that the reader has at hand, up to and including the first line end and at most `most`. Says whether
// it met a line end or the end of the reader.
fn append_ready<R: BufRead>(reader: &mut R, most: usize, line: &mut Vec<u8>) -> io::Result<bool>
    ensures appends { StartsWith line.new.items line.old.items }
    ensures within { length (appended_bytes line.old.items line.new.items) ≤ most }
    ensures stops { StopsAt (appended_bytes line.old.items line.new.items) 10 }
    ensures bytes { Consumes (R.remaining reader.old) (R.remaining reader.new) (appended_bytes line.old.items line.new.items) }
    ensures end { result ≡ Ok true → 0 < most → length (appended_bytes line.old.items line.new.items) ≡ 0
        → OnSome (R.remaining reader.old) (IsAtEnd (R.remaining reader.new)) }
    ensures unfinished { result ≢ Ok true → All (λ x. x ≢ 10) (appended_bytes line.old.items line.new.items) }
    ensures done { result ≡ Ok true → IsEmptyOrEndsWith (appended_bytes line.old.items line.new.items) 10 }
    ensures some { result ≡ Ok false → 0 < length (appended_bytes line.old.items line.new.items) }
    ensures nothing { OnErr result (line.new.items ≡ line.old.items) }
{
    let available = match reader.fill_buf() {
        Ok(available) => available,
        Err(error) => return Err(error),
    };
    let end = len_through(available, most);
    line.extend_from_slice(&available[..end])?;
    let is_done = end == 0 || available[end - 1] == b'\n';
    reader.consume(end);
    Ok(is_done)
}

// The same by a read that is not interrupted.
fn append_some<R: BufRead>(
    reader: &mut R,
    most: usize,
    line: &mut Vec<u8>,
) -> Result<bool, ReadFault>
    ensures appends { StartsWith line.new.items line.old.items }
    ensures within { length (appended_bytes line.old.items line.new.items) ≤ most }
    ensures stops { StopsAt (appended_bytes line.old.items line.new.items) 10 }
    ensures bytes { Consumes (R.remaining reader.old) (R.remaining reader.new) (appended_bytes line.old.items line.new.items) }
    ensures end { result ≡ Ok true → 0 < most → length (appended_bytes line.old.items line.new.items) ≡ 0
        → OnSome (R.remaining reader.old) (IsAtEnd (R.remaining reader.new)) }
    ensures unfinished { result ≢ Ok true → All (λ x. x ≢ 10) (appended_bytes line.old.items line.new.items) }
    ensures done { result ≡ Ok true → IsEmptyOrEndsWith (appended_bytes line.old.items line.new.items) 10 }
    ensures some { result ≡ Ok false → 0 < length (appended_bytes line.old.items line.new.items) }
{
    for _ in 0..u64::MAX {
        match append_ready(reader, most, line) {
            Ok(is_done) => return Ok(is_done),
            Err(error) if error.kind() == ErrorKind::Interrupted => {}
            Err(error) if error.kind() == ErrorKind::OutOfMemory => {
                return Err(ReadFault::OutOfMemory);
            }
            Err(_) => return Err(ReadFault::Failed),
        }
    }
    Err(ReadFault::Failed)
}

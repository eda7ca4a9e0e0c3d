// The files and the output of the system, which tell nothing of their content.
ghost use Rattle.std.specs.Prelude.{◌≡◌, true, false, ◌<◌, ◌≤◌, ◌^◌, [], List, Option, Some, None, ◌↔◌, length, IfOk, IfSome, OnOk, OnErr, IsErrOf};
ghost use Rattle.std.specs.String.{string_bytes};
ghost use Rattle.std.specs.FinMap as map;
ghost use Rattle.std.specs.IoError.{error_kind};
ghost use Rattle.suite_io.specs.Contents.{Contents, Stores, OthersStay};
ghost use Rattle.suite_io.specs.Calls.{calls_after};
ghost use Rattle.suite_io.specs.Held.{one_more};
ghost use Rattle.suite_io.specs.Taken.{Rises};

use crate::calls::{FileCall, FileCalls};
use crate::files::{FileFault, Files, Word};
use crate::replacing::write_file;
use crate::sink::{Sink, SinkFault};
use lua_num::ByteText;
use std::alloc::Global;
use std::io::{self, ErrorKind, Read, Write};
use std::marker::Model;
use std::{fs, rt};

/// A file past this many bytes is not read.
pub const MAX_FILE_BYTES: u64 = 67_108_864;

/// The files of the system.
#[derive(Drop)]
pub struct RealFiles<'a, R: rt::Files> {
    system: &'a R,
    calls: FileCalls,
}

impl<'a, R: rt::Files> Model for RealFiles<'a, R> {
    ghost use Rattle.std.specs.Prelude.{List};
    ghost use Rattle.suite_io.specs.declared.calls.FileCall.{FileCall};

    ghost Value = { List FileCall };

    ghost view = { λ f. f.calls };
}

impl<'a, R: rt::Files> RealFiles<'a, R> {
    /// The files of this system, with no calls so far. Takes no memory.
    pub fn new(alloc: Global, system: &'a R) -> Self
        ensures { result ≡ [] }
    {
        Self {
            system,
            calls: FileCalls::new(alloc),
        }
    }

    /// The calls so far.
    pub fn calls(&self) -> &[FileCall]
        ensures { result.now ≡ self.now }
    {
        self.calls.items()
    }
}

// The bytes of a file, where there are at most `MAX_FILE_BYTES`.
fn read_file<R: rt::Files>(alloc: Global, system: &R, name: &str) -> Result<ByteText, FileFault>
    ensures { IfOk result (λ bytes. length bytes ≤ MAX_FILE_BYTES) }
{
    let file = fs::open(system, name)?;
    let mut bytes = Vec::new(alloc);
    file.take(MAX_FILE_BYTES + 1).read_to_end(&mut bytes)?;
    if bytes.len() as u64 > MAX_FILE_BYTES {
        return Err(FileFault::Failed);
    }
    Ok(ByteText::from_vec(bytes))
}

// Writes a file, where there are at most `MAX_FILE_BYTES`.
fn write_short<R: rt::Files>(
    alloc: Global,
    system: &R,
    name: &str,
    bytes: &[u8],
) -> Result<(), FileFault> {
    if bytes.len() as u64 > MAX_FILE_BYTES {
        return Err(FileFault::Failed);
    }
    write_file(alloc, system, name, bytes)
}

impl From<io::Error> for FileFault {
    ghost use Rattle.suite_io.specs.declared.files.FileFault.{FileFault};
    ghost use Rattle.std.specs.declared.io.ErrorKind.{ErrorKind};

    ghost from_gives = { λ error fault. (fault ≡ FileFault.OutOfMemory) ↔ (error_kind error ≡ ErrorKind.OutOfMemory) };

    fn from(error: io::Error) -> Self {
        match error.kind() {
            ErrorKind::OutOfMemory => FileFault::OutOfMemory,
            _ => FileFault::Failed,
        }
    }
}

impl<R: rt::Files> Files for RealFiles<'_, R> {
    ghost contents = { λ _. None };

    ghost calls = { λ f. f };

    /// Also fails where the file passes `MAX_FILE_BYTES` bytes, of which it reads no more than one
    /// beyond.
    fn fetch(&mut self, alloc: Global, name: &Word) -> Result<ByteText, FileFault>
        ensures told { IfOk result (λ bytes. IfSome None (λ (held : Contents). map.get held (string_bytes name.now) ≡ Some bytes)) }
        ensures short { IfOk result (λ bytes. length bytes < 2 ^ 28) }
        ensures listed { self.new ≡ calls_after self.old false (string_bytes name.now) result }
        ensures within { IfOk result (λ bytes. length bytes ≤ 67108864) }
    {
        self.calls.push_call(alloc, false, name, false)?;
        let answer = read_file(alloc, self.system, name.as_str());
        match answer {
            Ok(_) => {}
            Err(FileFault::Failed) => self.calls.settle(true),
            Err(FileFault::OutOfMemory) => self.calls.take_back(),
        }
        answer
    }

    /// Also fails where there are more than `MAX_FILE_BYTES` bytes, which `fetch` would not give back. A plain file
    /// keeps what it had where this fails, and a missing one stays missing; a link, a device or a pipe is
    /// written as it is. Finds no memory only before the system is asked to write.
    fn store(&mut self, alloc: Global, name: &Word, bytes: &[u8]) -> Result<(), FileFault>
        ensures stored { IfOk result (λ _. Stores None None (string_bytes name.now) bytes.now) }
        ensures others { OthersStay None None (string_bytes name.now) }
        ensures listed { self.new ≡ calls_after self.old true (string_bytes name.now) result }
        ensures not_begun { IsErrOf result FileFault.OutOfMemory → self.new ≡ self.old }
    {
        self.calls.push_call(alloc, true, name, false)?;
        let answer = write_short(alloc, self.system, name.as_str(), bytes);
        match answer {
            Ok(()) => {}
            Err(FileFault::Failed) => self.calls.settle(true),
            Err(FileFault::OutOfMemory) => self.calls.take_back(),
        }
        answer
    }
}

/// A writer of the system, as standard output.
#[derive(Drop)]
pub struct RealSink<W: Write + Drop> {
    writer: W,
    faults: u64,
}

impl<W: Write + Drop> Model for RealSink<W> {
    ghost use Rattle.std.specs.Prelude.{ℕ};

    ghost Value = { ℕ };

    ghost view = { λ s. s.faults };
}

impl<W: Write + Drop> RealSink<W> {
    /// A sink that writes to this writer, with no faults so far.
    pub fn new(writer: W) -> Self
        ensures { result ≡ 0 }
    {
        Self { writer, faults: 0 }
    }
}

// One write that was neither put off nor interrupted.
fn write_some<W: Write>(writer: &mut W, piece: &[u8]) -> io::Result<usize>
    ensures { IfOk result (λ n. n ≤ length piece.now) }
{
    for _turn in 0..u64::MAX {
        match writer.write(piece) {
            Err(error) if is_put_off(error.kind()) => {}
            answer => return answer,
        }
    }
    Ok(0)
}

fn is_put_off(kind: ErrorKind) -> bool {
    matches!(kind, ErrorKind::WouldBlock | ErrorKind::Interrupted)
}

impl<W: Write + Drop> Sink for RealSink<W> {
    ghost taken = { λ _. None };

    ghost faults = { λ s. s };

    /// One `write`, again and again while the system says that it would block or was interrupted. Any other error of
    /// it, and an answer that it took nothing, are faults.
    fn put(&mut self, piece: &[u8]) -> Result<usize, SinkFault>
        requires { 0 < length piece.now }
        ensures some { IfOk result (λ n. 0 < n) }
        ensures within { IfOk result (λ n. n ≤ length piece.now) }
        ensures ok { OnOk result (self.new ≡ self.old) }
        ensures never_falls { self.old ≤ self.new }
        ensures risen { IsErrOf result SinkFault.Failed → Rises self.old self.new }
        ensures risen_by_one { IsErrOf result SinkFault.Failed → self.new ≡ one_more self.old }
        ensures failed_only { OnErr result (IsErrOf result SinkFault.Failed) }
    {
        match write_some(&mut self.writer, piece) {
            Ok(count) if count > 0 => Ok(count),
            _ => {
                self.faults = self.faults.saturating_add(1);
                Err(SinkFault::Failed)
            }
        }
    }
}

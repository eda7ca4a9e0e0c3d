// A host that reads lines.
ghost use Rattle.std.specs.Prelude.{◌≡◌, ◌<◌, ◌∷◌, ◌⊎◌, [], length, None, IfOk, IfSome, IsErrOf, OnOk, MatchOption};
ghost use Rattle.std.specs.Io.BufRead.{take_through, strip_last, DropsThrough};
ghost use Rattle.lua_model.specs.declared.plain.Plain.TheVariants.{Nil, Text};
ghost use Rattle.lua_model.specs.declared.plain.Reply.TheVariants.{Values};
ghost use Rattle.host.specs.Lines.{line_reply, read_failed, Rises, IsTooLong, Fails, LineAnswers, LineLeaves, LineCause};

use crate::host::Host;
use crate::reader::{CountedReader, LineReader, ReadFault};
use lua_model::{Plain, PlainList, Reply};
use lua_num::ByteText;
use std::alloc::{AllocError, Global};
use std::io::BufRead;
use std::marker::Model;

/// No line of this many bytes or more is read.
pub const MAX_LINE_BYTES: u64 = 67_108_864;

// The bytes up to and including the first line end, or to the end of the reader.
fn read_line<R: LineReader>(reader: &mut R, alloc: Global) -> Result<Vec<u8>, ReadFault>
    ensures bytes { IfOk result (λ line. IfSome (R.remaining reader.old) (λ bytes. line.items ≡ take_through 10 bytes)) }
    ensures short { IfOk result (λ line. length (strip_last 10 line.items) < 67108864) }
    ensures rest { OnOk result (DropsThrough (R.remaining reader.old) (R.remaining reader.new) 10) }
    ensures quiet { OnOk result (R.faults reader.new ≡ R.faults reader.old) }
    ensures failed { IsErrOf result ReadFault.Failed → Rises (R.faults reader.old) (R.faults reader.new)
        ⊎ IsTooLong (R.remaining reader.old) (R.given reader.old) (R.given reader.new) }
{
    let most = MAX_LINE_BYTES as usize;
    let mut line = Vec::new(alloc);
    while line.len() < most {
        let room = most - line.len();
        match reader.append_part(room, &mut line) {
            Ok(true) => return Ok(line),
            Ok(false) => {}
            Err(fault) => return Err(fault),
        }
    }
    Err(ReadFault::Failed)
}

// Removes a line end from the end.
fn drop_line_end(line: &mut Vec<u8>)
    ensures { line.new.items ≡ strip_last 10 line.old.items }
{
    if line.last() == Some(&b'\n') {
        line.pop();
    }
}

/// A host that replies with the lines of a reader, as of standard input. It tells nothing of what it has heard.
/// Contracts see the reader: the bytes that it has left, where those are known, and its counts.
#[derive(Drop)]
pub struct LineHost<R: LineReader + Drop> {
    reader: R,
}

impl<R: LineReader + Drop> Model for LineHost<R> {
    ghost use Rattle.host.specs.Lines.{ReaderState};

    ghost Value = { ReaderState };

    ghost view = { λ h. record { left = R.remaining h.reader; given = R.given h.reader; faults = R.faults h.reader } };
}

impl<R: BufRead + Drop> LineHost<CountedReader<R>> {
    /// A host of this reader, of which nothing was read yet. Takes no memory.
    pub fn new(reader: R) -> Self
        ensures { result ≡ record { left = R.remaining reader; given = 0; faults = 0 } }
    {
        Self {
            reader: CountedReader::new(reader),
        }
    }
}

impl<R: LineReader + Drop> LineHost<R> {
    /// A host of this reader. Takes no memory.
    pub fn of(reader: R) -> Self
        ensures { result ≡ record { left = R.remaining reader; given = R.given reader; faults = R.faults reader } }
    {
        Self { reader }
    }

    // The next line without its line end; none at the end.
    fn next_line(&mut self, alloc: Global) -> Result<Option<ByteText>, ReadFault>
        ensures answers { IfOk result (λ line. IfSome self.old.left (λ bytes. MatchOption line
            (line_reply bytes ≡ Values (Nil ∷ []))
            (λ text. line_reply bytes ≡ Values (Text text ∷ [])))) }
        ensures rest { OnOk result (DropsThrough self.old.left self.new.left 10) }
        ensures quiet { OnOk result (self.new.faults ≡ self.old.faults) }
        ensures failed { IsErrOf result ReadFault.Failed → Fails self.old self.new }
    {
        let mut line = match read_line(&mut self.reader, alloc) {
            Ok(line) => line,
            Err(fault) => return Err(fault),
        };
        if line.is_empty() {
            return Ok(None);
        }
        drop_line_end(&mut line);
        Ok(Some(ByteText::from_vec(line)))
    }
}

// A reply of one value, with no room for more.
fn reply_of(alloc: Global, value: Plain) -> Result<Reply, AllocError>
    ensures { IfOk result (λ reply. reply ≡ Values (value ∷ [])) }
{
    let mut values = Vec::with_capacity(alloc, 1)?;
    values.push_reserved(value);
    Ok(Reply::Values(PlainList::from_vec(values)))
}

fn failed_reply(alloc: Global) -> Result<Reply, AllocError>
    ensures { IfOk result (λ reply. reply ≡ read_failed) }
{
    Ok(Reply::Fail(ByteText::from_slice(alloc, b"read failed")?))
}

impl<R: LineReader + Drop> Host for LineHost<R> {
    ghost heard = { λ _. None };

    /// Replies with the next line without its line end, a byte 10, or with nil at the end of the reader. Fails with `read failed` where
    /// the reader does, which raises its count of faults, and where no line end stands within `MAX_LINE_BYTES` bytes, and nowhere else.
    /// Behind a reply of values the reader has what follows the line end; behind a failure, or where no memory is found, some of its bytes
    /// may be lost. The arguments say nothing. In linear time in the line.
    fn call(&mut self, alloc: Global, _args: &[Plain]) -> Reply
        ensures answers { LineAnswers self.old result self.new }
        ensures rest { LineLeaves self.old.left result self.new.left }
        ensures cause { LineCause self.old result self.new }
    {
        let answer = match self.next_line(alloc) {
            Ok(Some(line)) => reply_of(alloc, Plain::Text(line)),
            Ok(None) => reply_of(alloc, Plain::Nil),
            Err(ReadFault::OutOfMemory) => Err(AllocError),
            Err(ReadFault::Failed) => failed_reply(alloc),
        };
        answer.unwrap_or(Reply::OutOfMemory)
    }
}

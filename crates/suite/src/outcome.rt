// What the work of a call comes to.
ghost use Rattle.std.specs.Prelude.{◌≡◌};
ghost use Rattle.suite.specs.Lines.{status_of};

use crate::rejection::Rejection;
use crate::status::Status;
use asm_text::ListFault;
use chunk_io::ChunkFault;
use decompile::Refused;
use front::Fault;
use lua_num::ByteText;

/// What the work came to, before its line is put.
#[derive(Debug, Drop)]
pub enum Outcome {
    Done,
    /// The run failed with this text.
    ScriptFailed(ByteText),
    BadWords,
    /// The run is going after this many steps.
    Unfinished(u64),
    BadSource(Fault),
    BadChunk(ChunkFault),
    Rejected(Rejection),
    NotDecompiled(Refused),
    BadListing(ListFault),
    ReadFault,
    WriteFault,
    OutOfMemory,
}

impl Outcome {
    /// The status.
    pub fn status(&self) -> Status
        ensures { result ≡ status_of self.now }
    {
        match self {
            Outcome::Done => Status::Done,
            Outcome::ScriptFailed(_) => Status::ScriptFailed,
            Outcome::BadWords => Status::BadWords,
            Outcome::Unfinished(_) => Status::Unfinished,
            Outcome::BadSource(_) => Status::BadSource,
            Outcome::BadChunk(_) => Status::BadChunk,
            Outcome::Rejected(_) => Status::Rejected,
            Outcome::NotDecompiled(_) => Status::NotDecompiled,
            Outcome::BadListing(_) => Status::BadListing,
            Outcome::ReadFault => Status::ReadFault,
            Outcome::WriteFault => Status::WriteFault,
            Outcome::OutOfMemory => Status::OutOfMemory,
        }
    }
}

// How a call of the suite ended.
ghost use Rattle.std.specs.Prelude.{◌≡◌};
ghost use Rattle.suite.specs.Lines.{number_of};

/// How a call of the suite ended. The number is the program's status.
#[derive(Clone, Copy, Debug, PartialEq, Eq)]
pub enum Status {
    /// The command was carried out.
    Done = 0,
    /// The run failed.
    ScriptFailed = 1,
    /// The words are no command.
    BadWords = 2,
    /// The run is going after its steps.
    Unfinished = 3,
    /// The source has a lexical, a syntax, a scope or a code fault.
    BadSource = 4,
    /// The bytes are no chunk.
    BadChunk = 5,
    /// The chunk is not sound.
    Rejected = 6,
    /// No source of the chunk was found.
    NotDecompiled = 7,
    /// The file could not be read.
    ReadFault = 8,
    /// Output, or the line that says why, could not be written.
    WriteFault = 9,
    OutOfMemory = 10,
    /// The file is the listing of no chunk.
    BadListing = 12,
}

impl Status {
    /// The program's status.
    pub fn number(self) -> u8
        ensures { result ≡ number_of self }
    {
        self as u8
    }
}

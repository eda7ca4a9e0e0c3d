// The log of the calls of hosts.
ghost use Rattle.std.specs.Prelude.{◌≡◌, ◌<◌, [], ◌∷◌, ◌++◌, OnOk, OnErr, vec_len, vec_capacity};

use lua_model::{PlainList, Reply};
use std::alloc::{AllocError, Global};
use std::marker::Model;

// Makes room for one more call. Where there is none, there then is for an eighth more than there are calls: a long log is copied seldom,
// and takes little more than its entries.
pub(crate) fn make_room(entries: &mut Vec<LogEntry>) -> Result<(), AllocError>
    ensures items { entries.new.items ≡ entries.old.items }
    ensures ok { OnOk result (vec_len entries.new < vec_capacity entries.new) }
{
    let count = entries.len();
    if count < entries.capacity() {
        return Ok(());
    }
    entries.reserve_exact(count / 8 + 1)
}

/// A call of a host, by the host's number, and its reply.
#[derive(Debug, Drop)]
pub struct LogEntry {
    pub host: usize,
    pub args: PlainList,
    pub reply: Reply,
}

/// The calls so far, the first one first. Contracts see the list.
#[derive(Debug, Drop)]
pub struct HostLog {
    pub(crate) entries: Vec<LogEntry>,
}

impl Model for HostLog {
    ghost use Rattle.std.specs.Prelude.{List};
    ghost use Rattle.host.specs.declared.log.LogEntry.{LogEntry};

    ghost Value = { List LogEntry };

    ghost view = { λ l. l.entries.items };
}

impl HostLog {
    /// No calls, which takes no memory.
    pub fn new(alloc: Global) -> Self
        ensures { result ≡ [] }
    {
        Self {
            entries: Vec::new(alloc),
        }
    }

    /// Appends a call, in constant time on average.
    pub fn push(&mut self, entry: LogEntry) -> Result<(), AllocError>
        ensures ok { OnOk result (self.new ≡ self.old ++ entry ∷ []) }
        ensures err { OnErr result (self.new ≡ self.old) }
    {
        make_room(&mut self.entries)?;
        self.entries.push_reserved(entry);
        Ok(())
    }

    /// The calls.
    pub fn items(&self) -> &[LogEntry]
        ensures { result.now ≡ self.now }
    {
        self.entries.as_slice()
    }

    /// The calls of a `Vec`, which takes no memory.
    pub fn from_vec(entries: Vec<LogEntry>) -> Self
        ensures { result ≡ entries.items }
    {
        Self { entries }
    }

    /// The calls as a `Vec`, given back without taking memory.
    pub fn into_vec(self) -> Vec<LogEntry>
        ensures { result.items ≡ self }
    {
        self.entries
    }
}

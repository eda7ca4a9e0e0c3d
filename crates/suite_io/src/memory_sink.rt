// Sinks in memory, and one that keeps nothing.
ghost use Rattle.std.specs.Prelude.{◌≡◌, ◌<◌, ◌≤◌, ◌+◌, ◌-◌, ◌^◌, [], ◌++◌, Some, None, Ok, length, take, min, IfOk, OnOk, IsErrOf};
ghost use Rattle.suite_io.specs.Taken.{Rises};
ghost use Rattle.suite_io.specs.Held.{NextPutFails, one_more};

use crate::sink::{Sink, SinkFault};
use std::alloc::{AllocError, Global};
use std::marker::Model;

/// A sink in memory: the bytes taken, the numbers of the calls that fail, and how many bytes a call takes at
/// most. Calls are numbered from 1; one that finds no memory has no number.
#[derive(Drop)]
pub struct MemorySink {
    taken: Vec<u8>,
    faults: u64,
    puts: u64,
    fails: Vec<u64>,
    limit: usize,
}

impl Model for MemorySink {
    ghost use Rattle.std.specs.Prelude.{◌<◌};
    ghost use Rattle.suite_io.specs.Held.{HeldBytes};

    ghost Value = { HeldBytes };

    ghost view = { λ s. record { taken = s.taken.items; faults = s.faults; puts = s.puts; fails = s.fails.items; limit = s.limit } };

    ghost invariant = { λ s. 0 < s.limit };
}

impl MemorySink {
    /// An empty sink, of which the calls of these numbers fail. It takes each piece whole where the
    /// call does not fail.
    pub fn new(alloc: Global, fails: &[u64]) -> Result<Self, AllocError>
        ensures { IfOk result (λ sink. sink ≡ record { taken = []; faults = 0; puts = 0; fails = fails.now; limit = 2 ^ 64 - 1 }) }
    {
        Ok(Self {
            taken: Vec::new(alloc),
            faults: 0,
            puts: 0,
            fails: Vec::from_slice(alloc, fails)?,
            limit: usize::MAX,
        })
    }

    /// An empty sink that takes at most so many bytes of each piece, at least one. No call of it fails.
    pub fn with_limit(alloc: Global, limit: usize) -> Result<Self, AllocError>
        requires { 0 < limit }
        ensures { IfOk result (λ sink. sink ≡ record { taken = []; faults = 0; puts = 0; fails = []; limit = limit }) }
    {
        Ok(Self {
            taken: Vec::new(alloc),
            faults: 0,
            puts: 0,
            fails: Vec::new(alloc),
            limit,
        })
    }

    /// The bytes taken.
    pub fn taken(&self) -> &[u8]
        ensures { result.now ≡ self.now.taken }
    {
        self.taken.as_slice()
    }
}

impl Sink for MemorySink {
    ghost taken = { λ s. Some s.taken };

    ghost faults = { λ s. s.faults };

    /// Takes the piece whole, or as much of it as the limit allows. Fails exactly where this call's number is one of those
    /// that fail.
    fn put(&mut self, piece: &[u8]) -> Result<usize, SinkFault>
        requires { 0 < length piece.now }
        ensures some { IfOk result (λ n. 0 < n) }
        ensures count { IfOk result (λ n. n ≡ min (length piece.now) self.old.limit) }
        ensures ok { IfOk result (λ n. self.new ≡ record self.old { taken = self.old.taken ++ take n piece.now; puts = one_more self.old.puts }) }
        ensures failed { IsErrOf result SinkFault.Failed → self.new ≡ record self.old { faults = one_more self.old.faults; puts = one_more self.old.puts } }
        ensures failed_only { IsErrOf result SinkFault.Failed → NextPutFails self.old }
        ensures not_failed { OnOk result (¬ (NextPutFails self.old)) }
        ensures no_memory { IsErrOf result SinkFault.OutOfMemory → self.new ≡ self.old }
        ensures never_falls { self.old.faults ≤ self.new.faults }
        ensures risen { IsErrOf result SinkFault.Failed → Rises self.old.faults self.new.faults }
    {
        let number = self.puts.saturating_add(1);
        if self.fails.contains(&number) {
            self.puts = number;
            self.faults = self.faults.saturating_add(1);
            return Err(SinkFault::Failed);
        }
        let count = piece.len().min(self.limit);
        if self.taken.extend_from_slice(&piece[..count]).is_err() {
            return Err(SinkFault::OutOfMemory);
        }
        self.puts = number;
        Ok(count)
    }
}

/// A sink that takes each piece whole and keeps nothing.
#[derive(Clone, Copy, Debug)]
pub struct NeverFails;

impl NeverFails {
    /// The sink, which has no state.
    pub fn new() -> Self
        ensures { result ≡ record {} }
    {
        NeverFails
    }
}

impl Sink for NeverFails {
    ghost taken = { λ _. None };

    ghost faults = { λ _. 0 };

    fn put(&mut self, piece: &[u8]) -> Result<usize, SinkFault>
        requires { 0 < length piece.now }
        ensures { result ≡ Ok (length piece.now) }
    {
        Ok(piece.len())
    }
}

// A sink that runs out of memory.
ghost use Rattle.std.specs.Prelude.{Some};

use std::alloc::Global;
use suite_io::{Sink, SinkFault};

/// A sink that finds no memory at the put of this number, counted from 1; at 0 it finds it always.
#[derive(Drop)]
pub struct FullSink {
    taken: Vec<u8>,
    puts: u64,
    full_at: u64,
}

impl FullSink {
    pub(crate) fn new(alloc: Global, full_at: u64) -> Self {
        Self {
            taken: Vec::new(alloc),
            puts: 0,
            full_at,
        }
    }

    pub(crate) fn taken(&self) -> &[u8] {
        self.taken.as_slice()
    }
}

impl Sink for FullSink {
    ghost taken = { λ s. Some s.taken.items };

    ghost faults = { λ _. 0 };

    fn put(&mut self, piece: &[u8]) -> Result<usize, SinkFault> {
        self.puts = self.puts.saturating_add(1);
        if self.puts == self.full_at || self.taken.extend_from_slice(piece).is_err() {
            return Err(SinkFault::OutOfMemory);
        }
        Ok(piece.len())
    }
}

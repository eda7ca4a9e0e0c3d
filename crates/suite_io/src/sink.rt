// Sinks of bytes.
ghost use Rattle.std.specs.Prelude.{◌≡◌, ◌<◌, ◌≤◌, ℕ, List, Option, length, take, IfOk, OnErr, IsErrOf};
ghost use Rattle.suite_io.specs.Taken.{Takes, Rises};

/// Why a `put` did not succeed.
#[derive(Clone, Copy, Debug, PartialEq, Eq)]
pub enum SinkFault {
    /// The piece could not be written.
    Failed,
    OutOfMemory,
}

/// A sink of bytes. It may take less than it is given: callers put what is left until a piece is
/// whole.
pub trait Sink {
    /// The bytes taken so far, where they are told.
    ghost taken: { Self → Option (List ℕ) };

    /// How many faults there were. It never falls, and at 2^64 - 1 it stands still and counts as
    /// risen.
    ghost faults: { Self → ℕ };

    /// Takes the first bytes of a piece, at least one, and answers how many. An error takes nothing.
    /// `Failed` comes only where the count of faults rose.
    fn put(&mut self, piece: &[u8]) -> Result<usize, SinkFault>
        requires { 0 < length piece.now }
        ensures some { IfOk result (λ n. 0 < n) }
        ensures within { IfOk result (λ n. n ≤ length piece.now) }
        ensures taken { IfOk result (λ n. Takes (taken self.old) (taken self.new) (take n piece.now)) }
        ensures refused { OnErr result (taken self.new ≡ taken self.old) }
        ensures never_falls { faults self.old ≤ faults self.new }
        ensures risen { IsErrOf result SinkFault.Failed → Rises (faults self.old) (faults self.new) }
        ensures no_memory { IsErrOf result SinkFault.OutOfMemory → faults self.new ≡ faults self.old };
}

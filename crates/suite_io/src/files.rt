// Files by name.
ghost use Rattle.std.specs.Prelude.{◌≡◌, true, false, ◌<◌, ◌^◌, List, Option, Some, length, IfOk, IfSome, IsErrOf};
ghost use Rattle.std.specs.String.{string_bytes};
ghost use Rattle.std.specs.FinMap as map;
ghost use Rattle.suite_io.specs.declared.calls.FileCall.{FileCall};
ghost use Rattle.suite_io.specs.declared.files.FileFault.TheVariants.{OutOfMemory};
ghost use Rattle.suite_io.specs.Contents.{Contents, Stores, OthersStay};
ghost use Rattle.suite_io.specs.Calls.{calls_after};

use lua_num::ByteText;
use std::alloc::{AllocError, Global};

/// A word of the command line, or a file's name. Contracts speak of its bytes.
pub type Word = String;

/// Why a call of `Files` did not succeed.
#[derive(Clone, Copy, Debug, PartialEq, Eq)]
pub enum FileFault {
    /// The file could not be read or written, or is not there.
    Failed,
    OutOfMemory,
}

impl From<AllocError> for FileFault {
    ghost from_gives = { λ _ fault. fault ≡ OutOfMemory };

    fn from(_: AllocError) -> Self {
        FileFault::OutOfMemory
    }
}

/// Files by name. What they hold is a map from names to bytes, where it is told at all; the calls so
/// far are always known. A call that finds no memory is not listed.
pub trait Files {
    /// The bytes of each name, where they are told.
    ghost contents: { Self → Option Contents };

    /// The calls so far that were answered by success or by `Failed`.
    ghost calls: { Self → List FileCall };

    /// The bytes of a name, fewer than 2^28. A missing name is a fault.
    fn fetch(&mut self, alloc: Global, name: &Word) -> Result<ByteText, FileFault>
        ensures told { IfOk result (λ bytes. IfSome (contents self.old) (λ held. map.get held (string_bytes name.now) ≡ Some bytes)) }
        ensures short { IfOk result (λ bytes. length bytes < 2 ^ 28) }
        ensures unchanged { contents self.new ≡ contents self.old }
        ensures listed { calls self.new ≡ calls_after (calls self.old) false (string_bytes name.now) result };

    /// Gives a name these bytes. At `Failed` the name may have any bytes, or none; at `OutOfMemory`
    /// nothing was begun, and the name has what it had. Other names stay as they were.
    fn store(&mut self, alloc: Global, name: &Word, bytes: &[u8]) -> Result<(), FileFault>
        ensures stored { IfOk result (λ _. Stores (contents self.old) (contents self.new) (string_bytes name.now) bytes.now) }
        ensures others { OthersStay (contents self.old) (contents self.new) (string_bytes name.now) }
        ensures no_memory { IsErrOf result FileFault.OutOfMemory → contents self.new ≡ contents self.old }
        ensures listed { calls self.new ≡ calls_after (calls self.old) true (string_bytes name.now) result };
}

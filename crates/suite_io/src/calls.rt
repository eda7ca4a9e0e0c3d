// The list of the calls of files.
ghost use Rattle.std.specs.Prelude.{◌≡◌, [], ◌∷◌, ◌++◌, ◌-◌, List, length, take, OnOk, OnErr};
ghost use Rattle.std.specs.String.{string_bytes};
ghost use Rattle.suite_io.specs.declared.calls.FileCall.{FileCall};
ghost use Rattle.suite_io.specs.Calls.{call_of};

use crate::files::Word;
use lua_num::ByteText;
use std::alloc::{AllocError, Global};
use std::marker::Model;

/// One call of `Files`: whether it was a `store` (else a `fetch`), of which name, and whether it failed.
#[derive(Debug, Drop)]
pub struct FileCall {
    pub store: bool,
    pub name: ByteText,
    pub failed: bool,
}

/// The calls so far, the first one first. Contracts see the list.
#[derive(Debug, Drop)]
pub struct FileCalls {
    calls: Vec<FileCall>,
}

impl Model for FileCalls {
    ghost use Rattle.std.specs.Prelude.{List};
    ghost use Rattle.suite_io.specs.declared.calls.FileCall.{FileCall};

    ghost Value = { List FileCall };

    ghost view = { λ c. c.calls.items };
}

impl FileCalls {
    /// No calls, which takes no memory.
    pub fn new(alloc: Global) -> Self
        ensures { result ≡ [] }
    {
        Self {
            calls: Vec::new(alloc),
        }
    }

    /// Appends a call.
    pub fn push(&mut self, call: FileCall) -> Result<(), AllocError>
        ensures ok { OnOk result (self.new ≡ self.old ++ call ∷ []) }
        ensures err { OnErr result (self.new ≡ self.old) }
    {
        self.calls.push(call)?;
        Ok(())
    }

    /// The calls.
    pub fn items(&self) -> &[FileCall]
        ensures { result.now ≡ self.now }
    {
        self.calls.as_slice()
    }

    /// The calls of a `Vec`, which takes no memory.
    pub fn from_vec(calls: Vec<FileCall>) -> Self
        ensures { result ≡ calls.items }
    {
        Self { calls }
    }

    /// The calls as a `Vec`, given back without taking memory.
    pub fn into_vec(self) -> Vec<FileCall>
        ensures { result.items ≡ self }
    {
        self.calls
    }

    // Appends the entry of a call of this name.
    pub(crate) fn push_call(
        &mut self,
        alloc: Global,
        store: bool,
        name: &Word,
        failed: bool,
    ) -> Result<(), AllocError>
        ensures ok { OnOk result (self.new ≡ self.old ++ call_of store (string_bytes name.now) failed ∷ []) }
        ensures err { OnErr result (self.new ≡ self.old) }
    {
        let name = ByteText::from_slice(alloc, name.as_bytes())?;
        self.push(FileCall {
            store,
            name,
            failed,
        })
    }

    // Takes the last call off the list, if there is one.
    pub(crate) fn take_back(&mut self)
        ensures { self.new ≡ take (length self.old - 1) self.old }
    {
        let _ = self.calls.pop();
    }

    // Says of the last call whether it failed.
    pub(crate) fn settle(&mut self, failed: bool)
        ensures { (calls : List FileCall) (call : FileCall) → self.old ≡ calls ++ call ∷ [] → self.new ≡ calls ++ record call { failed = failed } ∷ [] }
    {
        let count = self.calls.as_slice().len();
        if count > 0 {
            self.calls[count - 1].failed = failed;
        }
    }
}

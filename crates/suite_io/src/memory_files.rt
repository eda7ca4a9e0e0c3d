// Files in memory.
ghost use Rattle.std.specs.Prelude.{◌≡◌, true, false, ◌<◌, ◌^◌, ◌⊎◌, [], Some, length, option_copied, ◌↔◌, IfOk, IfSome, IfNone, OnSome, OnOk, OnErr, IsErrOf, IsTrue};
ghost use Rattle.std.specs.String.{string_bytes};
ghost use Rattle.std.specs.FinMap as map;
ghost use Rattle.suite_io.specs.Contents.{OthersStay};
ghost use Rattle.suite_io.specs.Calls.{calls_after};
ghost use Rattle.suite_io.specs.Held.{NextFails, NothingToFetch};

use crate::calls::{FileCall, FileCalls};
use crate::files::{FileFault, Files, Word};
use lua_num::ByteText;
use std::alloc::{AllocError, Global};
use std::collections::BTreeMap;
use std::marker::Model;

// `fetch` gives fewer bytes than this.
const FETCH_LIMIT: usize = 1 << 28;

/// Files in memory: what they hold, the calls so far, and the numbers of the calls that fail. Calls
/// are numbered from 1, `fetch` and `store` together; one that finds no memory has no number.
#[derive(Drop)]
pub struct MemoryFiles {
    held: BTreeMap<Word, ByteText>,
    calls: FileCalls,
    fails: Vec<u64>,
}

impl Model for MemoryFiles {
    ghost use Rattle.suite_io.specs.Held.{HeldFiles, held_files_code, contents_of};

    ghost Value = { HeldFiles };

    ghost coded = { held_files_code };

    ghost view = { λ f. record { contents = contents_of f.held.entries; calls = f.calls; fails = f.fails.items } };
}

impl MemoryFiles {
    /// No files, of which the calls of these numbers fail.
    pub fn new(alloc: Global, fails: &[u64]) -> Result<Self, AllocError>
        ensures { IfOk result (λ files. files ≡ record { contents = map.empty; calls = []; fails = fails.now }) }
    {
        Ok(Self {
            held: BTreeMap::new(alloc),
            calls: FileCalls::new(alloc),
            fails: Vec::from_slice(alloc, fails)?,
        })
    }

    /// Gives a name these bytes. It is no counted call.
    pub fn set(&mut self, alloc: Global, name: &Word, bytes: &[u8]) -> Result<(), AllocError>
        ensures ok { OnOk result (self.new ≡ record self.old { contents = map.insert self.old.contents (string_bytes name.now) bytes.now }) }
        ensures err { OnErr result (self.new ≡ self.old) }
    {
        let content = ByteText::from_slice(alloc, bytes)?;
        self.insert(name.clone()?, content)
    }

    /// The bytes of a name. It is no counted call.
    pub fn get(&self, name: &Word) -> Option<&[u8]>
        ensures { option_copied result ≡ map.get self.now.contents (string_bytes name.now) }
    {
        match self.held.get(name) {
            Some(content) => Some(content.bytes()),
            None => None,
        }
    }

    /// The calls so far.
    pub fn calls(&self) -> &[FileCall]
        ensures { result.now ≡ self.now.calls }
    {
        self.calls.items()
    }

    // Gives a name a content, which is a copy already.
    fn insert(&mut self, name: Word, content: ByteText) -> Result<(), AllocError>
        ensures ok { OnOk result (self.new ≡ record self.old { contents = map.insert self.old.contents (string_bytes name) content }) }
        ensures err { OnErr result (self.new ≡ self.old) }
    {
        self.held.insert(name, content)?;
        Ok(())
    }

    // Whether the next counted call is one that fails.
    fn is_next_failing(&self) -> bool
        ensures { IsTrue result ↔ NextFails self.now }
    {
        self.fails.contains(&(self.calls.items().len() as u64 + 1))
    }

    // A copy of what a name has, or `None` where there is nothing to fetch.
    fn copy_to_fetch(&self, alloc: Global, name: &Word) -> Result<Option<ByteText>, AllocError>
        ensures there { IfOk result (λ copy. IfSome copy (λ bytes. map.get self.now.contents (string_bytes name.now) ≡ Some bytes)) }
        ensures short { IfOk result (λ copy. IfSome copy (λ bytes. length bytes < 2 ^ 28)) }
        ensures none { IfOk result (λ copy. IfNone copy (NothingToFetch self.now (string_bytes name.now))) }
        ensures some { IfOk result (λ copy. OnSome copy (¬ (NothingToFetch self.now (string_bytes name.now)))) }
    {
        match self.get(name) {
            Some(bytes) if bytes.len() < FETCH_LIMIT => {
                let copy = ByteText::from_slice(alloc, bytes)?;
                Ok(Some(copy))
            }
            _ => Ok(None),
        }
    }
}

impl Files for MemoryFiles {
    ghost contents = { λ f. Some f.contents };

    ghost calls = { λ f. f.calls };

    /// Fails exactly where this call's number is one of those that fail, or there is nothing to
    /// fetch.
    fn fetch(&mut self, alloc: Global, name: &Word) -> Result<ByteText, FileFault>
        ensures told { IfOk result (λ bytes. map.get self.old.contents (string_bytes name.now) ≡ Some bytes) }
        ensures short { IfOk result (λ bytes. length bytes < 2 ^ 28) }
        ensures unchanged { self.new ≡ record self.old { calls = self.new.calls } }
        ensures listed { self.new.calls ≡ calls_after self.old.calls false (string_bytes name.now) result }
        ensures failed { IsErrOf result FileFault.Failed → NextFails self.old ⊎ NothingToFetch self.old (string_bytes name.now) }
        ensures ok { OnOk result (¬ (NextFails self.old ⊎ NothingToFetch self.old (string_bytes name.now))) }
    {
        let fails = self.is_next_failing();
        self.calls.push_call(alloc, false, name, fails)?;
        if fails {
            return Err(FileFault::Failed);
        }
        match self.copy_to_fetch(alloc, name) {
            Ok(Some(copy)) => Ok(copy),
            Ok(None) => {
                self.calls.settle(true);
                Err(FileFault::Failed)
            }
            Err(_) => {
                self.calls.take_back();
                Err(FileFault::OutOfMemory)
            }
        }
    }

    /// Fails exactly where this call's number is one of those that fail. An error changes no bytes.
    fn store(&mut self, alloc: Global, name: &Word, bytes: &[u8]) -> Result<(), FileFault>
        ensures stored { OnOk result (self.new ≡ record self.old { contents = map.insert self.old.contents (string_bytes name.now) bytes.now; calls = self.new.calls }) }
        ensures err { OnErr result (self.new ≡ record self.old { calls = self.new.calls }) }
        ensures others { OthersStay (Some self.old.contents) (Some self.new.contents) (string_bytes name.now) }
        ensures listed { self.new.calls ≡ calls_after self.old.calls true (string_bytes name.now) result }
        ensures failed { IsErrOf result FileFault.Failed → NextFails self.old }
        ensures ok { OnOk result (¬ (NextFails self.old)) }
    {
        let failed = self.is_next_failing();
        let key = name.clone()?;
        let content = ByteText::from_slice(alloc, bytes)?;
        self.calls.push_call(alloc, true, name, failed)?;
        if failed {
            return Err(FileFault::Failed);
        }
        match self.insert(key, content) {
            Ok(()) => Ok(()),
            Err(_) => {
                self.calls.take_back();
                Err(FileFault::OutOfMemory)
            }
        }
    }
}

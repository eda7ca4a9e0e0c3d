//! The texts of a run, each kept once.
#![tactic(auto)]

ghost use Rattle.std.specs.Prelude.{◌≡◌, ◌<◌, false, Some, slice_get, [], length, get_or, is_some, IfSome, IfOk, OnOk, OnErr};
ghost use Rattle.std.specs.List.{list_any};
ghost use Rattle.std.specs.Str.{bytes_eq};
ghost use Rattle.string_pool.specs.Texts.{with_text, TextsDiffer};

mod key;

use crate::key::{Key, Sought};
use hash_seed::{Seed, TextHash};
use indexmap::IndexSet;
use lua_model::TextId;
use std::alloc::{AllocError, Global};
use std::marker::Model;

/// Texts by their ids, no two of them alike. Contracts see the list of their bytes.
#[derive(Drop)]
pub struct Pool {
    texts: IndexSet<Key, TextHash>,
}

impl Model for Pool {
    ghost use Rattle.std.specs.Prelude.{List};
    ghost use Rattle.lua_num.specs.Bytes.{Text};
    ghost use Rattle.string_pool.specs.Texts.{TextsDiffer};

    ghost Value = { List Text };

    ghost view = { λ p. p.texts.keys };

    ghost invariant = { λ p. TextsDiffer p.texts.keys };
}

impl Pool {
    /// No texts, which takes no memory. The seed says how they are hashed, and nothing else.
    pub fn new(alloc: Global, seed: Seed) -> Self
        ensures { result ≡ [] }
    {
        Self {
            texts: IndexSet::with_hasher(alloc, seed.texts()),
        }
    }

    /// The id of these bytes: that of the text with these bytes where there is one, which takes no memory, or that of
    /// a copy of them, which goes last. In time linear in the bytes on average. Fails where memory runs out; the pool
    /// is then as it was.
    pub fn intern(&mut self, alloc: Global, bytes: &[u8]) -> Result<TextId, AllocError>
        ensures texts { OnOk result (self.new ≡ with_text self.old bytes.now) }
        ensures id { IfOk result (λ id. slice_get self.new id.index ≡ Some bytes.now) }
        ensures differ { TextsDiffer self.new }
        ensures there { OnErr result (list_any (bytes_eq bytes.now) self.old ≡ false) }
        ensures err { OnErr result (self.new ≡ self.old) }
    {
        if let Some(id) = self.find(bytes) {
            return Ok(id);
        }
        let bytes = bytes.to_vec(alloc)?;
        let (index, _) = self.texts.insert_full(Key { bytes })?;
        Ok(TextId { index })
    }

    /// The id of the text with these bytes, where there is one. In time linear in the bytes on average; it takes no memory.
    pub fn find(&self, bytes: &[u8]) -> Option<TextId>
        ensures id { IfSome result (λ id. slice_get self.now id.index ≡ Some bytes.now) }
        ensures found { is_some result ≡ list_any (bytes_eq bytes.now) self.now }
    {
        let (index, _) = self.texts.get_full(Sought { bytes })?;
        Some(TextId { index })
    }

    /// The bytes of an id that this pool gave, in constant time.
    pub fn bytes(&self, id: TextId) -> &[u8]
        requires { id.index < length self.now }
        ensures { result.now ≡ get_or self.now id.index [] }
    {
        self.texts[id.index].bytes.as_slice()
    }
}

// Pairs in a map, in the order in which keys were first given a value.
ghost use Rattle.std.specs.Prelude.{◌≡◌, ◌^◌, ◌<◌, ◌≤◌, true, false, ◌↔◌, [], Err, OnOk, OnErr, IfOk, IfErr, IfSome, IsTrue, length, take, drop, position};
ghost use Rattle.std.specs.List.{IsDistinct};
ghost use Rattle.std.specs.Map.{keys_of};
ghost use Rattle.lua_model.specs.Value.{same_value};
ghost use Rattle.lua_table.specs.Entries.{is_nil_value, entry, has_place, with_entry, first_pair};

use crate::fault::SetFault;
use crate::keys::is_nil;
use hash_seed::KeyHash;
use indexmap::IndexMap;
use lua_model::Value;
use std::alloc::Global;
use std::marker::Model;

/// How many pairs a map may hold.
const MOST_PAIRS: usize = 1 << 62;

/// A map of pairs, whose keys keep their places. Contracts see the list of pairs.
#[derive(Drop)]
pub(crate) struct Hashed {
    map: IndexMap<Value, Value, KeyHash>,
}

impl Model for Hashed {
    ghost use Rattle.std.specs.Prelude.{◌≤◌, ◌^◌, length};
    ghost use Rattle.lua_table.specs.Entries.{Entries};

    ghost Value = { Entries };

    ghost view = { λ t. t.map.entries };

    ghost invariant = { λ t. length t.map.entries ≤ 2 ^ 62 };
}

impl Hashed {
    /// The pairs of a list, no two of which have one key.
    pub(crate) fn from_pairs(
        alloc: Global,
        hash: KeyHash,
        pairs: &[(Value, Value)],
    ) -> Result<Self, SetFault>
        requires small { length pairs.now ≤ 2 ^ 62 }
        requires apart { IsDistinct same_value (keys_of pairs.now) }
        ensures pairs { IfOk result (λ m. m ≡ pairs.now) }
        ensures fault { IfErr result (λ e. e ≡ SetFault.OutOfMemory) }
    {
        let mut map = IndexMap::with_hasher(alloc, hash);
        for (key, value) in pairs {
            map.insert(*key, *value)?;
        }
        Ok(Self { map })
    }

    pub(crate) fn len(&self) -> usize
        ensures len { result ≡ length self.now }
        ensures small { result ≤ 2 ^ 62 }
    {
        self.map.len()
    }

    pub(crate) fn is_empty(&self) -> bool
        ensures { IsTrue result ↔ (self.now ≡ []) }
    {
        self.map.is_empty()
    }

    /// The value of a key, nil where it has none. An empty map hashes nothing.
    pub(crate) fn get(&self, key: Value) -> Value
        ensures { result ≡ entry self.now key }
    {
        if self.map.is_empty() {
            return Value::Nil;
        }
        match self.map.get(&key) {
            Some(value) => *value,
            None => Value::Nil,
        }
    }

    fn has(&self, key: Value) -> bool
        ensures { result ≡ has_place self.now key }
    {
        self.map.contains_key(&key)
    }

    /// Writes a value, as `Table::set`.
    pub(crate) fn set(&mut self, key: Value, value: Value) -> Result<(), SetFault>
        ensures pairs { OnOk result (self.new ≡ with_entry self.old key value) }
        ensures nil_key { result ≡ Err SetFault.NilKey ↔ is_nil_value key ≡ true }
        ensures memory { result ≡ Err SetFault.OutOfMemory → (has_place self.old key ≡ false) × (is_nil_value value ≡ false) }
        ensures refused { OnErr result (self.new ≡ self.old) }
    {
        if is_nil(key) {
            return Err(SetFault::NilKey);
        }
        if is_nil(value) && !self.has(key) {
            return Ok(());
        }
        if self.map.len() >= MOST_PAIRS && !self.has(key) {
            return Err(SetFault::OutOfMemory);
        }
        self.map.insert(key, value)?;
        Ok(())
    }

    /// Where a key stands.
    pub(crate) fn place(&self, key: Value) -> Option<usize>
        ensures place { result ≡ position (λ p. same_value key p.0) self.now }
        ensures near { IfSome result (λ i. i < 2 ^ 62) }
    {
        self.map.get_index_of(&key)
    }

    /// The first pair whose value is not nil, from a place on and before another.
    pub(crate) fn first_in(&self, start: usize, end: usize) -> Option<(Value, Value)>
        requires { end ≤ length self.now }
        ensures { result ≡ first_pair (drop start (take end self.now)) }
    {
        for i in start..end {
            let Some((key, value)) = self.map.get_index(i) else {
                return None;
            };
            if !is_nil(*value) {
                return Some((*key, *value));
            }
        }
        None
    }
}

// The pairs that are not in the row: none, a few in a list, or many in a map.
ghost use Rattle.std.specs.Prelude.{◌≡◌, ◌^◌, ◌<◌, ◌≤◌, true, false, ◌↔◌, [], Err, OnOk, OnErr, IfSome, length, take, drop, position};
ghost use Rattle.lua_model.specs.Value.{same_value};
ghost use Rattle.lua_table.specs.Entries.{is_nil_value, entry, has_place, with_entry, first_pair};
ghost use Rattle.lua_table.specs.Rows.{marked};

use crate::fault::SetFault;
use crate::few::Few;
use crate::hashed::Hashed;
use crate::keys::is_nil;
use hash_seed::{KeyHash, Seed};
use lua_model::Value;
use std::alloc::Global;
use std::marker::Model;

/// A few pairs, and how many of them come before the row.
#[derive(Drop)]
pub(crate) struct Listed {
    pairs: Few,
    before: usize,
}

/// Pairs in a map, and how many of them come before the row.
#[derive(Drop)]
pub(crate) struct Mapped {
    pairs: Hashed,
    before: usize,
}

/// Where pairs are kept. What they take is behind a pointer, so that a table with none is small.
#[derive(Drop)]
enum Kept {
    /// No pairs yet, and what will hash their keys.
    Nothing(KeyHash),
    InList(Box<Listed>),
    InMap(Box<Mapped>),
}

/// Pairs whose keys keep their places. Contracts see their list, and how many come before the row.
#[derive(Drop)]
pub(crate) struct Rest {
    kept: Kept,
    alloc: Global,
}

impl Model for Rest {
    ghost use Rattle.lua_table.specs.Rows.{Split};

    ghost Value = { Split };

    ghost use Rattle.lua_table.specs.Kept.{kept_split};

    ghost view = { λ r. kept_split r.kept };
}

impl Rest {
    /// No pairs, which takes no memory.
    pub(crate) fn new(alloc: Global, seed: Seed) -> Self
        ensures { result ≡ record { pairs = []; before = 0 } }
    {
        Self {
            kept: Kept::Nothing(seed.keys()),
            alloc,
        }
    }

    pub(crate) fn len(&self) -> usize
        ensures len { result ≡ length self.now.pairs }
        ensures small { result ≤ 2 ^ 62 }
    {
        match &self.kept {
            Kept::Nothing(_) => 0,
            Kept::InList(list) => list.pairs.len(),
            Kept::InMap(map) => map.pairs.len(),
        }
    }

    /// How many pairs come before the row.
    pub(crate) fn before(&self) -> usize
        ensures { result ≡ self.now.before }
    {
        match &self.kept {
            Kept::Nothing(_) => 0,
            Kept::InList(list) => list.before,
            Kept::InMap(map) => map.before,
        }
    }

    /// Puts the row behind all pairs.
    pub(crate) fn mark(&mut self)
        ensures { self.new ≡ marked self.old }
    {
        match &mut self.kept {
            Kept::Nothing(_) => {}
            Kept::InList(list) => list.before = list.pairs.len(),
            Kept::InMap(map) => map.before = map.pairs.len(),
        }
    }

    /// The value of a key, nil where it has none. A key among a few is not hashed.
    pub(crate) fn get(&self, key: Value) -> Value
        ensures { result ≡ entry self.now.pairs key }
    {
        match &self.kept {
            Kept::Nothing(_) => Value::Nil,
            Kept::InList(list) => list.pairs.get(key),
            Kept::InMap(map) => map.pairs.get(key),
        }
    }

    /// Where a key stands.
    pub(crate) fn place(&self, key: Value) -> Option<usize>
        ensures place { result ≡ position (λ p. same_value key p.0) self.now.pairs }
        ensures near { IfSome result (λ i. i < 2 ^ 62) }
    {
        match &self.kept {
            Kept::Nothing(_) => None,
            Kept::InList(list) => list.pairs.place(key),
            Kept::InMap(map) => map.pairs.place(key),
        }
    }

    /// Writes a value, as `Table::set`.
    pub(crate) fn set(&mut self, key: Value, value: Value) -> Result<(), SetFault>
        ensures pairs { OnOk result (self.new ≡ record self.old { pairs = with_entry self.old.pairs key value }) }
        ensures nil_key { result ≡ Err SetFault.NilKey ↔ is_nil_value key ≡ true }
        ensures memory { result ≡ Err SetFault.OutOfMemory → (has_place self.old.pairs key ≡ false) × (is_nil_value value ≡ false) }
        ensures refused { OnErr result (self.new ≡ self.old) }
    {
        if is_nil(key) {
            return Err(SetFault::NilKey);
        }
        match &mut self.kept {
            Kept::Nothing(hash) => {
                if is_nil(value) {
                    return Ok(());
                }
                let pairs = Few::one(self.alloc, *hash, key, value)?;
                let list = Box::new(self.alloc, Listed { pairs, before: 0 })?;
                self.kept = Kept::InList(list);
                Ok(())
            }
            Kept::InList(list) => {
                if list.pairs.replace(key, value) {
                    return Ok(());
                }
                if is_nil(value) {
                    return Ok(());
                }
                if !list.pairs.is_full() {
                    return list.pairs.push(key, value);
                }
                let before = list.before;
                let mut pairs = list.pairs.to_map(self.alloc)?;
                pairs.set(key, value)?;
                let map = Box::new(self.alloc, Mapped { pairs, before })?;
                self.kept = Kept::InMap(map);
                Ok(())
            }
            Kept::InMap(map) => map.pairs.set(key, value),
        }
    }

    /// The first pair whose value is not nil, from a place on and before another.
    pub(crate) fn first_in(&self, start: usize, end: usize) -> Option<(Value, Value)>
        requires { end ≤ length self.now.pairs }
        ensures { result ≡ first_pair (drop start (take end self.now.pairs)) }
    {
        match &self.kept {
            Kept::Nothing(_) => None,
            Kept::InList(list) => list.pairs.first_in(start, end),
            Kept::InMap(map) => map.pairs.first_in(start, end),
        }
    }
}

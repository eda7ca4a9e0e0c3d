// A few pairs in a list, which is looked through without hashing.
ghost use Rattle.std.specs.Prelude.{◌≡◌, ◌≤◌, ◌<◌, false, ◌↔◌, [], ◌∷◌, Err, OnOk, OnErr, IfOk, IfErr, IfSome, IsTrue, length, take, drop, position};
ghost use Rattle.lua_model.specs.Value.{same_value};
ghost use Rattle.lua_table.specs.Entries.{is_nil_value, entry, has_place, with_entry, first_pair};

use crate::fault::SetFault;
use crate::hashed::Hashed;
use crate::keys::is_nil;
use hash_seed::KeyHash;
use lua_model::Value;
use std::alloc::Global;
use std::marker::Model;

/// How many pairs are looked through.
const MOST_PAIRS: usize = 8;

/// At most eight pairs, whose keys keep their places. Contracts see the list of pairs.
#[derive(Drop)]
pub(crate) struct Few {
    pairs: Vec<(Value, Value)>,
    /// What hashes the keys once there are more.
    hash: KeyHash,
}

impl Model for Few {
    ghost use Rattle.lua_table.specs.Entries.{Entries};
    ghost use Rattle.lua_table.specs.Rows.{AreFew};

    ghost Value = { Entries };

    ghost view = { λ f. f.pairs.items };

    ghost invariant = { λ f. AreFew f.pairs.items };
}

impl Few {
    /// One pair.
    pub(crate) fn one(
        alloc: Global,
        hash: KeyHash,
        key: Value,
        value: Value,
    ) -> Result<Self, SetFault>
        ensures pairs { IfOk result (λ f. f ≡ (key, value) ∷ []) }
        ensures fault { IfErr result (λ e. e ≡ SetFault.OutOfMemory) }
    {
        let mut pairs = Vec::new(alloc);
        pairs.push((key, value))?;
        Ok(Self { pairs, hash })
    }

    pub(crate) fn len(&self) -> usize
        ensures len { result ≡ length self.now }
        ensures small { result ≤ 8 }
    {
        self.pairs.len()
    }

    pub(crate) fn is_empty(&self) -> bool
        ensures { IsTrue result ↔ (self.now ≡ []) }
    {
        self.pairs.is_empty()
    }

    pub(crate) fn is_full(&self) -> bool
        ensures { result ≡ false → length self.now < 8 }
    {
        self.pairs.len() >= MOST_PAIRS
    }

    /// Where a key stands.
    pub(crate) fn place(&self, key: Value) -> Option<usize>
        ensures place { result ≡ position (λ p. same_value key p.0) self.now }
        ensures near { IfSome result (λ i. i < 8) }
    {
        self.pairs.iter().position(|p| key.raw_equal(p.0))
    }

    /// The value of a key, nil where it has none.
    pub(crate) fn get(&self, key: Value) -> Value
        ensures { result ≡ entry self.now key }
    {
        match self.place(key) {
            Some(i) => self.pairs[i].1,
            None => Value::Nil,
        }
    }

    /// Writes the value of a key that has a place, and tells whether it has one.
    pub(crate) fn replace(&mut self, key: Value, value: Value) -> bool
        ensures placed { result ≡ has_place self.old key }
        ensures pairs { IsTrue result → self.new ≡ with_entry self.old key value }
        ensures missing { result ≡ false → self.new ≡ self.old }
    {
        match self.place(key) {
            Some(i) => {
                self.pairs[i].1 = value;
                true
            }
            None => false,
        }
    }

    /// Appends a pair whose key has no place and whose value is not nil.
    pub(crate) fn push(&mut self, key: Value, value: Value) -> Result<(), SetFault>
        requires room { length self.old < 8 }
        requires apart { has_place self.old key ≡ false }
        requires value { is_nil_value value ≡ false }
        ensures pairs { OnOk result (self.new ≡ with_entry self.old key value) }
        ensures fault { IfErr result (λ e. e ≡ SetFault.OutOfMemory) }
        ensures refused { OnErr result (self.new ≡ self.old) }
    {
        self.pairs.push((key, value))?;
        Ok(())
    }

    /// The same pairs in a map.
    pub(crate) fn to_map(&self, alloc: Global) -> Result<Hashed, SetFault>
        ensures pairs { IfOk result (λ m. m ≡ self.now) }
        ensures fault { IfErr result (λ e. e ≡ SetFault.OutOfMemory) }
    {
        Hashed::from_pairs(alloc, self.hash, self.pairs.as_slice())
    }

    /// The first pair whose value is not nil, from a place on and before another.
    pub(crate) fn first_in(&self, start: usize, end: usize) -> Option<(Value, Value)>
        requires { end ≤ length self.now }
        ensures { result ≡ first_pair (drop start (take end self.now)) }
    {
        for i in start..end {
            let (key, value) = self.pairs[i];
            if !is_nil(value) {
                return Some((key, value));
            }
        }
        None
    }
}

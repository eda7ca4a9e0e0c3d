// A table, with its border kept.
ghost use Rattle.std.specs.Prelude.{◌≡◌, ◌^◌, ◌+◌, ◌≤◌, true, false, ◌↔◌, [], Err, Some, None, OnOk, OnErr, IfOk};
ghost use Rattle.lua_table.specs.Entries.{is_nil_value, entry, has_place, with_entry, next_of, IsBorder, HasBorder};
ghost use Rattle.lua_table.specs.Rows.{IsFull};

use crate::fault::{NextFault, SetFault};
use crate::keys::{is_nil, number, slot};
use crate::rowed::Rowed;
use hash_seed::Seed;
use lua_model::Value;
use std::alloc::Global;
use std::marker::Model;

/// A table of Lua: pairs of keys and values, in the order in which keys were first given a value. Contracts see their
/// list.
#[derive(Drop)]
pub struct Table {
    pairs: Rowed,
    border: usize,
    /// The entries up to it have values, but the one behind the border.
    full_to: usize,
}

// A program may hold many tables that stay empty.
const _: () = prove!(size_of::<Table>() <= 56);

impl Model for Table {
    ghost use Rattle.std.specs.Prelude.{◌+◌, ◌<◌, ◌≤◌, ◌^◌};
    ghost use Rattle.lua_table.specs.Entries.{Entries, IsBorder};
    ghost use Rattle.lua_table.specs.Rows.{IsFullBut};

    ghost Value = { Entries };

    ghost view = { λ t. t.pairs };

    ghost invariant = { λ t. IsBorder t.pairs t.border × IsFullBut t.pairs t.border t.full_to × t.border < t.full_to × t.full_to ≤ 2 ^ 61 + 2 ^ 62 + 1 };
}

impl Table {
    /// A table with no pairs, which takes no memory. The seed says how its keys are hashed, and nothing else.
    pub fn new(alloc: Global, seed: Seed) -> Self
        ensures { result ≡ [] }
    {
        Self {
            pairs: Rowed::new(alloc, seed),
            border: 0,
            full_to: 1,
        }
    }

    /// The value of a key, nil where it has none. In constant time on average.
    pub fn get(&self, key: Value) -> Value
        ensures { result ≡ entry self.now key }
    {
        self.pairs.get(key)
    }

    /// Sets the value of a key. A key that has a place keeps it, also where the value is nil; another key goes last, and
    /// nil changes nothing there.
    ///
    /// Fails where the key is nil, and where memory runs out, which only a new key with a value takes; the table is then
    /// as it was. Appending the keys 1, 2, 3 .. to a table with no other keys hashes nothing.
    ///
    /// In constant time on average, but a value behind the border looks on for the next border: from where the border stood
    /// before nil lowered it, or from the first key set to nil since. So a hole that is opened and closed again and again
    /// takes constant time each time; of two holes that are, what stands behind the second is passed each time.
    pub fn set(&mut self, key: Value, value: Value) -> Result<(), SetFault>
        ensures pairs { OnOk result (self.new ≡ with_entry self.old key value) }
        ensures nil_key { result ≡ Err SetFault.NilKey ↔ is_nil_value key ≡ true }
        ensures memory { result ≡ Err SetFault.OutOfMemory → (has_place self.old key ≡ false) × (is_nil_value value ≡ false) }
        ensures refused { OnErr result (self.new ≡ self.old) }
    {
        self.pairs.set(key, value)?;
        let Some(i) = slot(key, self.full_to) else {
            return Ok(());
        };
        if is_nil(value) {
            if i < self.border {
                self.full_to = self.border;
                self.border = i;
            } else if i > self.border {
                self.full_to = i;
            }
        } else if i == self.border {
            self.border = walk(&self.pairs, self.full_to);
            self.full_to = self.border + 1;
        }
        Ok(())
    }

    /// The first pair whose value is not nil behind the place of a key, or from the front where the key is nil; none at
    /// the end. Fails where the key has no place. In constant time on average, and a step for each nil that is passed.
    pub fn next(&self, key: Value) -> Result<Option<(Value, Value)>, NextFault>
        ensures pair { IfOk result (λ p. next_of self.now key ≡ Some p) }
        ensures unknown { OnErr result (next_of self.now key ≡ None) }
    {
        self.pairs.next(key)
    }

    /// The least n of at least 0 whose entry n + 1 is nil. In constant time, as `set` keeps it: nil at a key up to it
    /// lowers it.
    pub fn border(&self) -> i64
        ensures { HasBorder self.now result }
    {
        self.border as i64
    }
}

/// The least border, where it is at least `start`.
fn walk(pairs: &Rowed, start: usize) -> usize
    requires { IsFull pairs.now start }
    ensures border { IsBorder pairs.now result }
    ensures small { result ≤ 2 ^ 61 + 2 ^ 62 }
{
    let len = pairs.len();
    for n in start..len {
        if is_nil(pairs.get(number(n + 1))) {
            return n;
        }
    }
    len
}

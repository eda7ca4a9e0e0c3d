// Pairs as a row of values under the keys from 1, and the others before and behind them.
ghost use Rattle.std.specs.Prelude.{◌≡◌, ◌^◌, ◌+◌, ◌++◌, ◌<◌, ◌≤◌, true, false, ◌↔◌, [], Err, Some, None, OnOk, OnErr, IfOk, IsTrue, length, take, drop};
ghost use Rattle.lua_table.specs.Entries.{is_nil_value, entry, has_place, with_entry, first_pair, next_of, number_key};
ghost use Rattle.lua_table.specs.Rows.{row_pairs};

use crate::fault::{NextFault, SetFault};
use crate::keys::{is_after, is_nil, number, slot};
use crate::rest::Rest;
use hash_seed::Seed;
use lua_model::Value;
use std::alloc::Global;
use std::marker::Model;

/// How many values a row may hold.
const MOST_VALUES: usize = 1 << 61;

/// The values of the keys 1, 2, 3 .. as a row, and the other pairs. A pair never moves, so the row grows only while no
/// other pair has come behind it. Contracts see the list of pairs.
#[derive(Drop)]
pub(crate) struct Rowed {
    row: Vec<Value>,
    rest: Rest,
}

impl Model for Rowed {
    ghost use Rattle.lua_table.specs.Entries.{Entries};
    ghost use Rattle.lua_table.specs.Rows.{around, IsRowed};

    ghost Value = { Entries };

    ghost view = { λ t. around t.rest t.row.items };

    ghost invariant = { λ t. IsRowed t.rest t.row.items };
}

impl Rowed {
    pub(crate) fn new(alloc: Global, seed: Seed) -> Self
        ensures { result ≡ [] }
    {
        Self {
            row: Vec::new(alloc),
            rest: Rest::new(alloc, seed),
        }
    }

    pub(crate) fn len(&self) -> usize
        ensures len { result ≡ length self.now }
        ensures small { result ≤ 2 ^ 61 + 2 ^ 62 }
    {
        self.row.len() + self.rest.len()
    }

    /// The value of a key, nil where it has none. A key of the row is not hashed.
    pub(crate) fn get(&self, key: Value) -> Value
        ensures { result ≡ entry self.now key }
    {
        match slot(key, self.row.len()) {
            Some(i) => self.row[i],
            None => self.rest.get(key),
        }
    }

    /// Writes a value, as `Table::set`.
    pub(crate) fn set(&mut self, key: Value, value: Value) -> Result<(), SetFault>
        ensures pairs { OnOk result (self.new ≡ with_entry self.old key value) }
        ensures nil_key { result ≡ Err SetFault.NilKey ↔ is_nil_value key ≡ true }
        ensures memory { result ≡ Err SetFault.OutOfMemory → (has_place self.old key ≡ false) × (is_nil_value value ≡ false) }
        ensures refused { OnErr result (self.new ≡ self.old) }
    {
        if let Some(i) = slot(key, self.row.len()) {
            self.row[i] = value;
            return Ok(());
        }
        if !goes_on(self.row.as_slice(), &self.rest, key) {
            return self.rest.set(key, value);
        }
        if is_nil(value) {
            return Ok(());
        }
        if self.row.len() >= MOST_VALUES {
            return Err(SetFault::OutOfMemory);
        }
        self.row.push(value)?;
        self.rest.mark();
        Ok(())
    }

    /// The first pair whose value is not nil behind the place of a key, from the front for nil.
    pub(crate) fn next(&self, key: Value) -> Result<Option<(Value, Value)>, NextFault>
        ensures pair { IfOk result (λ p. next_of self.now key ≡ Some p) }
        ensures unknown { OnErr result (next_of self.now key ≡ None) }
    {
        let row = self.row.as_slice();
        if is_nil(key) {
            return Ok(first_from(row, &self.rest, 0));
        }
        if let Some(i) = slot(key, row.len()) {
            return Ok(first_in_row(row, &self.rest, i + 1));
        }
        let Some(i) = self.rest.place(key) else {
            return Err(NextFault::UnknownKey);
        };
        if i < self.rest.before() {
            return Ok(first_from(row, &self.rest, i + 1));
        }
        Ok(self.rest.first_in(i + 1, self.rest.len()))
    }
}

/// Whether the row goes on with this key: it is the next number, has no place, and no pair has come behind the row.
fn goes_on(row: &[Value], rest: &Rest, key: Value) -> bool
    ensures next { IsTrue result → key ≡ number_key (length row.now + 1) }
    ensures apart { IsTrue result → has_place rest.now.pairs key ≡ false }
    ensures last { IsTrue result → 0 < length row.now → rest.now.before ≡ length rest.now.pairs }
{
    if !is_after(key, row.len()) {
        return false;
    }
    if !row.is_empty() && rest.before() != rest.len() {
        return false;
    }
    match rest.place(key) {
        Some(_) => false,
        None => true,
    }
}

/// The first pair whose value is not nil, from a place of the pairs before the row on.
fn first_from(row: &[Value], rest: &Rest, start: usize) -> Option<(Value, Value)>
    requires { rest.now.before ≤ length rest.now.pairs }
    ensures { result ≡ first_pair (drop start (take rest.now.before rest.now.pairs) ++ (row_pairs 0 row.now ++ drop rest.now.before rest.now.pairs)) }
{
    match rest.first_in(start, rest.before()) {
        Some(pair) => Some(pair),
        None => first_in_row(row, rest, 0),
    }
}

/// The first pair whose value is not nil, from a place of the row on.
fn first_in_row(row: &[Value], rest: &Rest, start: usize) -> Option<(Value, Value)>
    ensures { result ≡ first_pair (row_pairs start (drop start row.now) ++ drop rest.now.before rest.now.pairs) }
{
    for i in start..row.len() {
        if !is_nil(row[i]) {
            return Some((number(i + 1), row[i]));
        }
    }
    rest.first_in(rest.before(), rest.len())
}

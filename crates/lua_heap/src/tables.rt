// The tables of a heap and their metatables.
ghost use Rattle.std.specs.Prelude.{◌≡◌, ◌<◌, ◌↔◌, true, false, pos, suc, length, option_map, IfOk, IfSome, OnOk, OnErr, Err, Some, None};
ghost use Rattle.lua_model.specs.Datum.{is_nil, text};
ghost use Rattle.lua_model.specs.Operators.{border};
ghost use Rattle.lua_model.specs.Store.{table_at, raw_get, raw_set, new_table, with_metatable};
ghost use Rattle.lua_heap.specs.State.{datum, IsOf, Keeps, pair_of, pairs_of, ArePairsOf, own_store, with_store, meta_of, IsMetaOf, has_key, next_of};

use crate::heap::{Entity, Heap};
use crate::links::MetaLink;
use lua_model::{TableId, Value, border_is_least};
use lua_table::{NextFault, SetFault, Table};
use std::alloc::{AllocError, Global};

impl Heap {
    /// A table with no entries, which stands last. Where memory runs out the heap is as it was.
    pub fn new_table(&mut self, alloc: Global) -> Result<TableId, AllocError>
        ensures id { IfOk result (λ id. id.index ≡ length self.old.tables) }
        ensures state { OnOk result (self.new ≡ with_store self.old (new_table (own_store self.old))) }
        ensures keeps { Keeps self.old self.new }
        ensures err { OnErr result (self.new ≡ self.old) }
    {
        let index = self.tables.len();
        self.tables.push(Entity {
            table: Table::new(alloc, self.seed),
            metatable: MetaLink::none(),
        })?;
        Ok(TableId { index })
    }

    /// A table by itself.
    pub fn table(&self, id: TableId) -> &Table
        requires table { id.index < length self.now.tables }
        ensures pairs { pairs_of self.now result.now ≡ (table_at (own_store self.now) id.index).pairs }
        ensures known { ArePairsOf self.now result.now }
    {
        &self.tables[id.index].table
    }

    /// The number that the text of a table shows: its place in the order of creation, from 1.
    pub fn table_number(&self, id: TableId) -> i64
        requires table { id.index < length self.now.tables }
        ensures { result ≡ pos (suc id.index) }
    {
        let _table = &self.tables[id.index];
        id.index as i64 + 1
    }

    /// The entry of a table, with no handler asked: nil where there is none. In constant time on average.
    pub fn raw_get(&self, id: TableId, key: Value) -> Value
        requires table { id.index < length self.now.tables }
        requires key { IsOf self.now key }
        ensures value { datum self.now result ≡ raw_get (own_store self.now) id.index (datum self.now key) }
        ensures known { IsOf self.now result }
    {
        self.tables[id.index].table.get(key)
    }

    /// The entry of a table under the text of these bytes, with no handler asked: nil where there is none. In time linear in the bytes on
    /// average; it takes no memory.
    pub fn field(&self, id: TableId, name: &[u8]) -> Value
        requires table { id.index < length self.now.tables }
        ensures value { datum self.now result ≡ raw_get (own_store self.now) id.index (text name.now) }
        ensures known { IsOf self.now result }
    {
        match self.texts.find(name) {
            Some(text) => self.raw_get(id, Value::Text(text)),
            None => {
                // Called for its clause that the keys of a table are values of the heap.
                let _ = self.table(id);
                Value::Nil
            }
        }
    }

    /// Sets the entry of a table, with no handler asked. Fails for a nil key, and where memory runs out, which it takes
    /// only for a value that is not nil under a key that has no place; the heap is then as it was.
    pub fn raw_set(&mut self, id: TableId, key: Value, value: Value) -> Result<(), SetFault>
        requires table { id.index < length self.old.tables }
        requires key { IsOf self.old key }
        requires value { IsOf self.old value }
        ensures state { OnOk result (self.new ≡ with_store self.old (raw_set (own_store self.old) id.index (datum self.old key) (datum self.old value))) }
        ensures nil_key { result ≡ Err SetFault.NilKey ↔ is_nil (datum self.old key) ≡ true }
        ensures memory { result ≡ Err SetFault.OutOfMemory → (has_key (table_at (own_store self.old) id.index).pairs (datum self.old key) ≡ false) × (is_nil (datum self.old value) ≡ false) }
        ensures keeps { Keeps self.old self.new }
        ensures err { OnErr result (self.new ≡ self.old) }
    {
        self.tables[id.index].table.set(key, value)
    }

    /// The first pair of a table whose value is not nil behind the place of a key, from the front for nil. Fails where
    /// the key has no place. Past entries that are nil it steps, else in constant time on average.
    pub fn next(&self, id: TableId, key: Value) -> Result<Option<(Value, Value)>, NextFault>
        requires table { id.index < length self.now.tables }
        requires key { IsOf self.now key }
        ensures pair { IfOk result (λ p. next_of (table_at (own_store self.now) id.index).pairs (datum self.now key) ≡ Some (option_map (pair_of self.now) p)) }
        ensures known { IfOk result (λ p. IfSome p (λ q. IsOf self.now q.0 × IsOf self.now q.1)) }
        ensures unknown { OnErr result (next_of (table_at (own_store self.now) id.index).pairs (datum self.now key) ≡ None) }
    {
        self.tables[id.index].table.next(key)
    }

    /// The least n of at least 0 whose entry n + 1 is nil, in constant time.
    pub fn border(&self, id: TableId) -> i64
        requires table { id.index < length self.now.tables }
        ensures { result ≡ pos (border (table_at (own_store self.now) id.index).pairs) }
    {
        border_is_least();
        self.tables[id.index].table.border()
    }

    /// The metatable of a table.
    pub fn metatable(&self, id: TableId) -> Option<TableId>
        requires table { id.index < length self.now.tables }
        ensures meta { meta_of result ≡ (table_at (own_store self.now) id.index).meta }
        ensures known { IsMetaOf self.now result }
    {
        self.tables[id.index].metatable.id()
    }

    /// Gives a table this metatable, or takes its metatable away.
    pub fn set_metatable(&mut self, id: TableId, metatable: Option<TableId>)
        requires table { id.index < length self.old.tables }
        requires metatable { IsMetaOf self.old metatable }
        ensures state { self.new ≡ with_store self.old (with_metatable (own_store self.old) id.index (meta_of metatable)) }
        ensures keeps { Keeps self.old self.new }
    {
        let entity = &mut self.tables[id.index];
        entity.metatable = MetaLink::new(metatable);
    }
}

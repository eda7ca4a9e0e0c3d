// The heap and its texts.
ghost use Rattle.std.specs.Prelude.{◌≡◌, false, Some, slice_get, IfOk, OnOk, OnErr};
ghost use Rattle.std.specs.List.{list_any};
ghost use Rattle.std.specs.Str.{bytes_eq};
ghost use Rattle.lua_model.specs.Datum.{raw_equal};
ghost use Rattle.string_pool.specs.Texts.{with_text, TextsDiffer};
ghost use Rattle.lua_heap.specs.State.{empty, datum, IsOf, Keeps};

use crate::cells::{Cell, CellId};
use crate::links::MetaLink;
use hash_seed::Seed;
use lua_model::{TextId, Value};
use lua_num::ByteText;
use lua_table::Table;
use std::alloc::{AllocError, Global};
use std::marker::Model;
use string_pool::Pool;

/// A table and its metatable.
#[derive(Drop)]
pub struct Entity {
    pub table: Table,
    pub metatable: MetaLink,
}

const _: () = prove!(size_of::<Entity>() <= 64);

/// A function of the chunk, by its number, and its cells.
#[derive(Drop)]
pub struct Closure {
    pub function: usize,
    pub cells: Vec<CellId>,
}

/// What the values of a run stand for: texts, tables, closures, cells, globals and the names of hosts. Ids that are
/// handed in are this heap's, as are values: those that it gave, and numbers of built-in functions and of named hosts.
#[derive(Drop)]
pub struct Heap {
    pub(crate) texts: Pool,
    pub(crate) tables: Vec<Entity>,
    pub(crate) globals: Table,
    pub(crate) closures: Vec<Closure>,
    pub(crate) cells: Vec<Cell>,
    pub(crate) host_names: Vec<ByteText>,
    pub(crate) seed: Seed,
}

impl Model for Heap {
    ghost use Rattle.lua_heap.specs.State.{HeapState};

    ghost Value = { HeapState };

    ghost use Rattle.lua_heap.specs.Inside.{state, IsSound};

    ghost view = { state };

    ghost invariant = { IsSound };
}

impl Heap {
    /// A heap with nothing, which takes no memory. The seed says how its texts and the keys of its tables are hashed, and
    /// nothing else.
    pub fn new(alloc: Global, seed: Seed) -> Self
        ensures { result ≡ empty }
    {
        Self {
            texts: Pool::new(alloc, seed),
            tables: Vec::new(alloc),
            globals: Table::new(alloc, seed),
            closures: Vec::new(alloc),
            cells: Vec::new(alloc),
            host_names: Vec::new(alloc),
            seed,
        }
    }

    /// The texts.
    pub fn pool(&self) -> &Pool
        ensures texts { result.now ≡ self.now.texts }
        ensures differ { TextsDiffer self.now.texts }
    {
        &self.texts
    }

    /// The id of these bytes, as `Pool::intern` gives it. Where memory runs out the heap is as it was.
    pub fn intern(&mut self, alloc: Global, bytes: &[u8]) -> Result<TextId, AllocError>
        ensures state { OnOk result (self.new ≡ record self.old { texts = with_text self.old.texts bytes.now }) }
        ensures id { IfOk result (λ id. slice_get self.new.texts id.index ≡ Some bytes.now) }
        ensures there { OnErr result (list_any (bytes_eq bytes.now) self.old.texts ≡ false) }
        ensures keeps { Keeps self.old self.new }
        ensures err { OnErr result (self.new ≡ self.old) }
    {
        self.texts.intern(alloc, bytes)
    }

    /// Equality that asks no handler: that of what the values stand for.
    pub fn raw_equal(&self, a: Value, b: Value) -> bool
        requires a { IsOf self.now a }
        requires b { IsOf self.now b }
        ensures { result ≡ raw_equal (datum self.now a) (datum self.now b) }
    {
        // no two texts are alike, so that their ids tell them apart
        let _texts = &self.texts;
        a.raw_equal(b)
    }
}

// The globals of a heap and the names of its hosts.
ghost use Rattle.std.specs.Prelude.{◌≡◌, ◌<◌, ◌++◌, ◌∷◌, [], false, length, get_or, OnOk, OnErr};
ghost use Rattle.std.specs.Str.{bytes_eq};
ghost use Rattle.lua_model.specs.Datum.{nil, is_nil};
ghost use Rattle.lua_model.specs.Pairs.{has};
ghost use Rattle.lua_model.specs.Store.{global, with_global};
ghost use Rattle.lua_heap.specs.State.{datum, IsOf, Keeps, own_store, with_store};

use crate::heap::Heap;
use lua_model::{TextId, Value};
use lua_num::ByteText;
use std::alloc::{AllocError, Global};

impl Heap {
    /// The value of a global: nil where it has none. In constant time on average.
    pub fn global(&self, name: TextId) -> Value
        requires name { name.index < length self.now.texts }
        ensures value { datum self.now result ≡ global (own_store self.now) (get_or self.now.texts name.index []) }
        ensures known { IsOf self.now result }
    {
        self.globals.get(Value::Text(name))
    }

    /// Sets a global. Fails where memory runs out, which it takes only for a value that is not nil under a name that has
    /// no place; the heap is then as it was.
    pub fn set_global(&mut self, name: TextId, value: Value) -> Result<(), AllocError>
        requires name { name.index < length self.old.texts }
        requires value { IsOf self.old value }
        ensures state { OnOk result (self.new ≡ with_store self.old (with_global (own_store self.old) (get_or self.old.texts name.index []) (datum self.old value))) }
        ensures memory { OnErr result ((has bytes_eq nil is_nil self.old.globals (get_or self.old.texts name.index []) ≡ false) × (is_nil (datum self.old value) ≡ false)) }
        ensures keeps { Keeps self.old self.new }
        ensures err { OnErr result (self.new ≡ self.old) }
    {
        let Ok(()) = self.globals.set(Value::Text(name), value) else {
            return Err(AllocError);
        };
        Ok(())
    }

    /// Gives the next host number, from 0, this name. Where memory runs out the heap is as it was.
    pub fn name_host(&mut self, alloc: Global, name: &[u8]) -> Result<(), AllocError>
        ensures state { OnOk result (self.new ≡ record self.old { host_names = self.old.host_names ++ name.now ∷ [] }) }
        ensures keeps { Keeps self.old self.new }
        ensures err { OnErr result (self.new ≡ self.old) }
    {
        self.host_names.push(ByteText::from_slice(alloc, name)?)?;
        Ok(())
    }

    /// How many hosts were named.
    pub fn hosts(&self) -> usize
        ensures { result ≡ length self.now.host_names }
    {
        self.host_names.len()
    }

    /// The name of a host.
    pub fn host_name(&self, host: usize) -> &[u8]
        requires host { host < length self.now.host_names }
        ensures { result.now ≡ get_or self.now.host_names host [] }
    {
        self.host_names[host].bytes()
    }
}

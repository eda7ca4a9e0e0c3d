// The heap of a row, and what the words of the row name in it.
ghost use Rattle.std.specs.Prelude.{◌≡◌, ◌<◌, ◌≤◌, suc, length, IfOk, IfSome};
ghost use Rattle.lua_heap.specs.State.{IsOf, Keeps, AreOf};

use crate::fault::RowFault;
use crate::operations::{call, operate};
use hash_seed::Seed;
use lua_heap::{Heap, ValueList};
use lua_model::{ClosureId, TableId, Value};
use lua_num::ByteText;
use natives::{BUILTIN_COUNT, builtin_name};
use row_source::read_source;
use std::alloc::{AllocError, Global};
use std::marker::Model;

/// A heap, the names of its tables in the order of their creation, empty where a table has none, and how many closures it
/// has. Contracts see the heap.
#[derive(Drop)]
pub struct Environment {
    heap: Heap,
    table_names: Vec<ByteText>,
    closures: usize,
}

impl Model for Environment {
    ghost use Rattle.std.specs.Prelude.{◌≤◌, length};
    ghost use Rattle.lua_heap.specs.State.{HeapState};

    ghost Value = { HeapState };

    ghost view = { λ e. e.heap };

    ghost invariant = { λ e. (length e.table_names.items ≤ length e.heap.tables) × (e.closures ≤ length e.heap.closures) };
}

impl Environment {
    pub(crate) fn new(alloc: Global) -> Self {
        Self {
            heap: Heap::new(alloc, Seed::fixed()),
            table_names: Vec::new(alloc),
            closures: 0,
        }
    }

    /// What an operation on values answers: none where it has no answer.
    pub(crate) fn operate(
        &mut self,
        alloc: Global,
        verb: &str,
        words: &str,
    ) -> Result<Option<String>, RowFault> {
        let operands = self.values(alloc, words)?;
        operate(alloc, &mut self.heap, verb, operands.items())
    }

    /// What a built-in function answers, whose name stands before its arguments.
    pub(crate) fn call(&mut self, alloc: Global, words: &str) -> Result<String, RowFault> {
        let (name, words) = words.split_once(' ').unwrap_or((words, ""));
        let id = builtin_of(name.as_bytes())?;
        let args = self.values(alloc, words)?;
        call(alloc, &mut self.heap, id, args.items())
    }

    /// Makes a table the entry of another one's metatable for an event.
    pub(crate) fn link(
        &mut self,
        alloc: Global,
        table: &[u8],
        event: &[u8],
        next: &[u8],
    ) -> Result<(), RowFault> {
        let table = self.table(alloc, table)?;
        let metatable = self.metatable(alloc, table)?;
        let next = self.table(alloc, next)?;
        let key = self.text(alloc, event)?;
        self.heap.raw_set(metatable, key, Value::Table(next))?;
        Ok(())
    }

    /// The values of words.
    fn values(&mut self, alloc: Global, words: &str) -> Result<ValueList, RowFault>
        ensures { IfOk result (AreOf self.new) }
    {
        let mut values = ValueList::new(alloc);
        if words.is_empty() {
            return Ok(values);
        }
        for word in words.split(' ') {
            let value = self.value(alloc, word)?;
            values.push(value)?;
        }
        Ok(values)
    }

    /// The value that a word spells.
    fn value(&mut self, alloc: Global, word: &str) -> Result<Value, RowFault>
        ensures known { IfOk result (IsOf self.new) }
        ensures keeps { Keeps self.old self.new }
    {
        match word {
            "nil" => Ok(Value::Nil),
            "true" => Ok(Value::Bool(true)),
            "false" => Ok(Value::Bool(false)),
            _ => self.number_or_named(alloc, word),
        }
    }

    fn number_or_named(&mut self, alloc: Global, word: &str) -> Result<Value, RowFault>
        ensures known { IfOk result (IsOf self.new) }
        ensures keeps { Keeps self.old self.new }
    {
        if let Ok(number) = word.parse::<i64>() {
            return Ok(Value::Number(number));
        }
        let bytes = read_source(alloc, word)?;
        let Some((mark, name)) = bytes.split_first() else {
            return Err(RowFault::Unreadable);
        };
        match mark {
            b'\'' => Ok(self.text(alloc, name)?),
            b'@' => Ok(Value::Native(builtin_of(name)?)),
            b'%' => Ok(Value::Host(self.host(alloc, name)?)),
            b'*' => Ok(Value::Closure(self.closure(alloc, name)?)),
            _ => Ok(Value::Table(self.table(alloc, &bytes)?)),
        }
    }

    fn text(&mut self, alloc: Global, bytes: &[u8]) -> Result<Value, AllocError>
        ensures known { IfOk result (IsOf self.new) }
        ensures keeps { Keeps self.old self.new }
    {
        Ok(Value::Text(self.heap.intern(alloc, bytes)?))
    }

    /// The host of a name, which is named where there is none.
    fn host(&mut self, alloc: Global, name: &[u8]) -> Result<usize, AllocError>
        ensures known { IfOk result (λ host. host < length self.new.host_names) }
        ensures keeps { Keeps self.old self.new }
    {
        let hosts = self.heap.hosts();
        for host in 0..hosts {
            if self.heap.host_name(host) == name {
                return Ok(host);
            }
        }
        self.heap.name_host(alloc, name)?;
        Ok(hosts)
    }

    /// The closure whose number a digit spells; closures are made until there is one of this number.
    fn closure(&mut self, alloc: Global, digits: &[u8]) -> Result<ClosureId, RowFault>
        ensures known { IfOk result (λ id. id.index < length self.new.closures) }
        ensures keeps { Keeps self.old self.new }
    {
        let [digit @ b'1'..=b'9'] = digits else {
            return Err(RowFault::Unreadable);
        };
        let index = (*digit - b'1') as usize;
        self.make_closures(alloc, index + 1)?;
        Ok(ClosureId { index })
    }

    fn make_closures(&mut self, alloc: Global, count: usize) -> Result<(), AllocError>
        ensures known { IfOk result (λ _. count ≤ length self.new.closures) }
        ensures keeps { Keeps self.old self.new }
    {
        for _ in self.closures..count {
            self.add_closure(alloc)?;
        }
        Ok(())
    }

    fn add_closure(&mut self, alloc: Global) -> Result<(), AllocError>
        ensures more { IfOk result (λ _. length self.new.closures ≡ suc (length self.old.closures)) }
        ensures keeps { Keeps self.old self.new }
    {
        let _closure = self.heap.new_closure(alloc, 0, &[])?;
        self.closures = self.closures.saturating_add(1);
        Ok(())
    }

    /// The table of a name, which is made where there is none.
    pub(crate) fn table(&mut self, alloc: Global, name: &[u8]) -> Result<TableId, AllocError>
        ensures known { IfOk result (λ id. id.index < length self.new.tables) }
        ensures keeps { Keeps self.old self.new }
    {
        match place_of(&self.table_names, name) {
            Some(index) => Ok(TableId { index }),
            None => self.new_table(alloc, name),
        }
    }

    fn metatable(&mut self, alloc: Global, table: TableId) -> Result<TableId, AllocError>
        requires { table.index < length self.old.tables }
        ensures known { IfOk result (λ id. id.index < length self.new.tables) }
        ensures keeps { Keeps self.old self.new }
    {
        if let Some(metatable) = self.heap.metatable(table) {
            return Ok(metatable);
        }
        let metatable = self.new_table(alloc, b"")?;
        self.heap.set_metatable(table, Some(metatable));
        Ok(metatable)
    }

    fn new_table(&mut self, alloc: Global, name: &[u8]) -> Result<TableId, AllocError>
        ensures known { IfOk result (λ id. id.index < length self.new.tables) }
        ensures keeps { Keeps self.old self.new }
    {
        let name = ByteText::from_slice(alloc, name)?;
        let table = self.heap.new_table(alloc)?;
        self.table_names.push(name)?;
        Ok(table)
    }
}

/// The number of the built-in function of a name.
fn builtin_of(name: &[u8]) -> Result<u8, RowFault>
    ensures { IfOk result (λ id. id < BUILTIN_COUNT) }
{
    for id in 0..BUILTIN_COUNT {
        if builtin_name(id) == name {
            return Ok(id);
        }
    }
    Err(RowFault::Unreadable)
}

/// Where a name stands in a list.
fn place_of(names: &[ByteText], name: &[u8]) -> Option<usize>
    ensures { IfSome result (λ index. index < length names.now) }
{
    for index in 0..names.len() {
        if names[index].bytes() == name {
            return Some(index);
        }
    }
    None
}

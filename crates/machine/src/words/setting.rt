// SETLIST (manual 2.5.7).
ghost use Rattle.std.specs.Prelude.{◌≡◌, ℕ, ◌+◌, ◌<◌, pos, length, IfOk, OnOk};
ghost use Rattle.lua_model.specs.Store.{with_items};
ghost use Rattle.lua_heap.specs.State.{AreOf, Keeps, OnlyTables, own_store};
ghost use Rattle.rules.specs.Step.{list_of as list_in, do_setlist as do_setlist_of};
ghost use Rattle.machine.specs.declared.function.Function.{Function as TheFunction};
ghost use Rattle.machine.specs.Frames.{data_of};
ghost use Rattle.machine.specs.Words.{IsListed, AreResultsOf, DoesWith};

use crate::did::{Did, OpenResults};
use crate::operands::register;
use crate::words::lists::listed;
use lua_heap::Heap;
use lua_model::{TableId, Value};
use lua_table::SetFault;
use meta_ops::index_failure;
use opcode::Instr;
use std::alloc::{AllocError, Global};

/// The number of a key.
pub fn key_of(number: usize) -> Result<Value, AllocError>
    ensures { IfOk result (λ key. key ≡ Value.Number (pos number)) }
{
    match i64::try_from(number) {
        Ok(number) => Ok(Value::Number(number)),
        Err(_) => Err(AllocError),
    }
}

/// Raw entries of a table, from a key on. In time linear in the values, on average.
pub fn put_items(
    heap: &mut Heap,
    table: TableId,
    first: usize,
    values: &[Value],
) -> Result<(), AllocError>
    requires table { table.index < length heap.old.tables }
    requires known { AreOf heap.old values.now }
    ensures items { OnOk result (own_store heap.new ≡ with_items (own_store heap.old) table.index (pos first) (data_of heap.old values.now)) }
    ensures only_tables { OnlyTables heap.old heap.new }
    ensures keeps { Keeps heap.old heap.new }
{
    let mut key = first;
    for value in values {
        let number = key_of(key)?;
        match heap.raw_set(table, number, *value) {
            Ok(()) => key += 1,
            Err(SetFault::OutOfMemory) => return Err(AllocError),
            Err(SetFault::NilKey) => unreachable!(),
        }
    }
    Ok(())
}

/// SETLIST with this block number. It fails as a write does at a value that is no table.
pub fn set_list(
    alloc: Global,
    heap: &mut Heap,
    registers: &[Value],
    results: &mut Option<OpenResults>,
    i: Instr,
    block: u32,
) -> Result<Did, AllocError>
    requires known { AreOf heap.old registers.now }
    requires results { AreResultsOf heap.old results.old }
    requires a { i.a < length registers.now }
    requires field { i.a < 256 }
    requires block { 0 < block }
    requires there { IsListed registers.now results.old (i.a + 1) (list_in i.b) }
    ensures { IfOk result (λ did. (f : TheFunction) (pc : ℕ) → DoesWith (λ m. do_setlist_of m i block) heap.old heap.new f registers.now registers.now results.old results.new pc did) }
{
    let on = register(registers, i.a);
    let values = listed(alloc, registers, results, i.a + 1, list_of(i.b))?;
    match on {
        Value::Table(table) => {
            let first = (block as usize - 1) * 50 + 1;
            put_items(heap, table, first, values.items())?;
            Ok(Did::Next)
        }
        _ => Ok(Did::Fails(index_failure(alloc, heap, on)?)),
    }
}

/// The count of a list: `None` where it goes up to the open results.
fn list_of(field: u32) -> Option<u32>
    ensures { result ≡ list_in field }
{
    if field == 0 { None } else { Some(field) }
}

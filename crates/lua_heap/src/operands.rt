// What values of a heap are taken as (manual 2.2.1), and texts as values.
ghost use Rattle.std.specs.Prelude.{◌≡◌, IfOk};
ghost use Rattle.lua_model.specs.Datum.{text, is_nil as is_nil_datum, kind_name as kind_name_of, to_number as to_number_of, to_text};
ghost use Rattle.lua_heap.specs.State.{HeapState, datum, IsOf};
ghost use Rattle.lua_heap.specs.Grown.{Grown};

use crate::heap::Heap;
use lua_model::Value;
use lua_num::{ByteText, decimal, to_number};
use std::alloc::{AllocError, Global};

/// Whether a value is nil.
pub fn is_nil(v: Value) -> bool
    ensures { (h : HeapState) → result ≡ is_nil_datum (datum h v) }
{
    matches!(v, Value::Nil)
}

/// The name of a value's kind.
pub fn kind_name(v: Value) -> &'static [u8]
    ensures { (h : HeapState) → result.now ≡ kind_name_of (datum h v) }
{
    match v {
        Value::Nil => b"nil",
        Value::Bool(_) => b"boolean",
        Value::Number(_) => b"number",
        Value::Text(_) => b"string",
        Value::Table(_) => b"table",
        Value::Closure(_) | Value::Native(_) | Value::Host(_) => b"function",
    }
}

/// The number that a value is taken as.
pub fn number_of(heap: &Heap, v: Value) -> Option<i64>
    requires { IsOf heap.now v }
    ensures { result ≡ to_number_of (datum heap.now v) }
{
    match v {
        Value::Number(n) => Some(n),
        Value::Text(id) => to_number(heap.pool().bytes(id)),
        _ => None,
    }
}

/// The text that a value is taken as.
pub fn text_of(alloc: Global, heap: &Heap, v: Value) -> Result<Option<ByteText>, AllocError>
    requires { IsOf heap.now v }
    ensures { IfOk result (λ r. r ≡ to_text (datum heap.now v)) }
{
    match v {
        Value::Text(id) => Ok(Some(ByteText::from_slice(alloc, heap.pool().bytes(id))?)),
        Value::Number(n) => Ok(Some(decimal(alloc, n)?)),
        _ => Ok(None),
    }
}

/// A text of the heap, as a value.
pub fn text_value(alloc: Global, heap: &mut Heap, bytes: &[u8]) -> Result<Value, AllocError>
    ensures value { IfOk result (λ r. datum heap.new r ≡ text bytes.now) }
    ensures known { IfOk result (IsOf heap.new) }
    ensures grown { Grown heap.old heap.new }
{
    Ok(Value::Text(heap.intern(alloc, bytes)?))
}

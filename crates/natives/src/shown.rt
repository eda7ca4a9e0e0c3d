// The texts of values (manual 5.1).
ghost use Rattle.std.specs.Prelude.{◌≡◌, ◌++◌, IfOk};
ghost use Rattle.lua_num.specs.Numeral.{decimal_text};
ghost use Rattle.lua_heap.specs.State.{datum, IsOf};
ghost use Rattle.natives.specs.Shown.{shown_beside};

use crate::names::builtin_name;
use lua_heap::Heap;
use lua_model::Value;
use lua_num::{ByteText, decimal};
use std::alloc::{AllocError, Global};

/// The text of a value, as `tostring` gives it.
pub fn shown(alloc: Global, heap: &Heap, v: Value) -> Result<ByteText, AllocError>
    requires { IsOf heap.now v }
    ensures { IfOk result (λ t. t ≡ shown_beside heap.now.host_names (datum heap.now v)) }
{
    match v {
        Value::Nil => ByteText::from_slice(alloc, b"nil"),
        Value::Bool(true) => ByteText::from_slice(alloc, b"true"),
        Value::Bool(false) => ByteText::from_slice(alloc, b"false"),
        Value::Number(n) => decimal(alloc, n),
        Value::Text(id) => ByteText::from_slice(alloc, heap.pool().bytes(id)),
        Value::Table(id) => numbered(alloc, b"table: ", heap.table_number(id)),
        Value::Closure(id) => numbered(alloc, b"function: ", heap.closure_number(id)),
        Value::Native(id) => joined(alloc, b"function: builtin ", builtin_name(id)),
        Value::Host(host) => joined(alloc, b"function: host ", heap.host_name(host)),
    }
}

fn numbered(alloc: Global, kind: &[u8], number: i64) -> Result<ByteText, AllocError>
    ensures { IfOk result (λ t. t ≡ kind.now ++ decimal_text number) }
{
    let digits = decimal(alloc, number)?;
    let text = joined(alloc, kind, digits.bytes())?;
    Ok(text)
}

/// Two texts in a row.
fn joined(alloc: Global, before: &[u8], after: &[u8]) -> Result<ByteText, AllocError>
    ensures { IfOk result (λ t. t ≡ before.now ++ after.now) }
{
    let mut text = ByteText::from_slice(alloc, before)?;
    text.extend(after)?;
    Ok(text)
}

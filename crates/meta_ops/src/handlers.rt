// Handlers (manual 2.8).
ghost use Rattle.std.specs.Prelude.{◌≡◌, IfOk};
ghost use Rattle.lua_model.specs.Datum.{is_function as is_function_datum};
ghost use Rattle.lua_model.specs.Operators.{handler as handler_of, either_handler as either_handler_of, common_handler as common_handler_of};
ghost use Rattle.lua_heap.specs.State.{HeapState, datum, IsOf, own_store};
ghost use Rattle.lua_heap.specs.Grown.{Grown};

use crate::act::{Act, Then};
use lua_heap::{Heap, ValueList, is_nil};
use lua_model::Value;
use std::alloc::{AllocError, Global};

/// Whether a value is a function.
pub fn is_function(v: Value) -> bool
    ensures { (h : HeapState) → result ≡ is_function_datum (datum h v) }
{
    matches!(v, Value::Closure(_) | Value::Native(_) | Value::Host(_))
}

/// The handler of a value for an event, nil where it has none. It takes no memory.
pub fn handler(heap: &Heap, v: Value, event: &[u8]) -> Value
    requires { IsOf heap.now v }
    ensures value { datum heap.now result ≡ handler_of (own_store heap.now) (datum heap.now v) event.now }
    ensures known { IsOf heap.now result }
{
    let Value::Table(table) = v else {
        return Value::Nil;
    };
    match heap.metatable(table) {
        Some(metatable) => heap.field(metatable, event),
        None => Value::Nil,
    }
}

/// The handler of the first operand, or else that of the second.
pub fn either_handler(heap: &Heap, a: Value, b: Value, event: &[u8]) -> Value
    requires a { IsOf heap.now a }
    requires b { IsOf heap.now b }
    ensures value { datum heap.now result ≡ either_handler_of (own_store heap.now) (datum heap.now a) (datum heap.now b) event.now }
    ensures known { IsOf heap.now result }
{
    let left = handler(heap, a, event);
    if is_nil(left) {
        handler(heap, b, event)
    } else {
        left
    }
}

/// The one handler of both operands, nil where theirs are not raw equal.
pub fn common_handler(heap: &Heap, a: Value, b: Value, event: &[u8]) -> Value
    requires a { IsOf heap.now a }
    requires b { IsOf heap.now b }
    ensures value { datum heap.now result ≡ common_handler_of (own_store heap.now) (datum heap.now a) (datum heap.now b) event.now }
    ensures known { IsOf heap.now result }
{
    let first = handler(heap, a, event);
    let second = handler(heap, b, event);
    if heap.raw_equal(first, second) {
        first
    } else {
        Value::Nil
    }
}

/// A call of a handler with these arguments.
pub fn call_with(
    alloc: Global,
    handler: Value,
    values: &[Value],
    then: Then,
) -> Result<Act, AllocError>
    ensures { IfOk result (λ r. r ≡ Act.Call handler values.now then) }
{
    let args = ValueList::from_slice(alloc, values)?;
    Ok(Act::Call {
        handler,
        args,
        then,
    })
}

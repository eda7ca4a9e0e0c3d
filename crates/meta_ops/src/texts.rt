// Concatenation (manual 2.5.4) and length (2.5.5).
ghost use Rattle.std.specs.Prelude.{◌≡◌, IfOk, IsOk, [], ◌∷◌, ◌++◌, codes};
ghost use Rattle.lua_model.specs.Datum.{kind_name as kind_name_of};
ghost use Rattle.lua_model.specs.Operators.{join, size, ask_or, either_handler as either_handler_of};
ghost use Rattle.lua_model.specs.Acts.{take, fail_text};
ghost use Rattle.lua_heap.specs.State.{datum, IsOf, own_store, Keeps, OnlyTexts};
ghost use Rattle.meta_ops.specs.Acts.{act_of, IsActOf};
ghost use Rattle.lua_heap.specs.Grown.{Grown};

use crate::act::{Act, Then};
use crate::failures::kind_failure;
use crate::handlers::{call_with, either_handler};
use lua_heap::{Heap, is_nil, text_of, text_value};
use lua_model::{TableId, TextId, Value};
use std::alloc::{AllocError, Global};

/// `a .. b`. Strings and numbers are taken as strings; else a handler is asked. In time linear in the strings. Where
/// memory runs out only texts of the heap changed.
pub fn concat2(alloc: Global, heap: &mut Heap, a: Value, b: Value) -> Result<Act, AllocError>
    requires a { IsOf heap.old a }
    requires b { IsOf heap.old b }
    ensures act { IfOk result (λ r. act_of heap.new r ≡ join (own_store heap.old) (datum heap.old a) (datum heap.old b)) }
    ensures known { IfOk result (IsActOf heap.new) }
    ensures only_texts { OnlyTexts heap.old heap.new }
    ensures keeps { Keeps heap.old heap.new }
{
    match (text_of(alloc, heap, a)?, text_of(alloc, heap, b)?) {
        (Some(mut joined), Some(y)) => {
            joined.extend(y.bytes())?;
            Ok(Act::Value(text_value(alloc, heap, joined.bytes())?))
        }
        (None, _) => ask_join(alloc, heap, a, b, a),
        (Some(_), None) => ask_join(alloc, heap, a, b, b),
    }
}

/// `#a`: the number of bytes of a string, or a border of a table, with no handler asked. For these it takes no memory.
/// Where memory runs out only texts of the heap changed.
pub fn length(alloc: Global, heap: &mut Heap, a: Value) -> Result<Act, AllocError>
    requires { IsOf heap.old a }
    ensures act { IfOk result (λ r. act_of heap.new r ≡ size (own_store heap.old) (datum heap.old a)) }
    ensures known { IfOk result (IsActOf heap.new) }
    ensures text_memory { (t : TextId) → a ≡ Value.Text t → IsOk result }
    ensures table_memory { (t : TableId) → a ≡ Value.Table t → IsOk result }
    ensures only_texts { OnlyTexts heap.old heap.new }
    ensures keeps { Keeps heap.old heap.new }
{
    match a {
        Value::Text(id) => {
            let count = heap.pool().bytes(id).len() as i64;
            Ok(Act::Value(Value::Number(count)))
        }
        Value::Table(id) => Ok(Act::Value(Value::Number(heap.border(id)))),
        _ => {
            let failure = kind_failure(alloc, heap, b"attempt to get length of a ", a, b" value")?;
            Ok(Act::Fail(failure))
        }
    }
}

/// Asks a handler of two operands of which one is no string, or else fails for that one.
fn ask_join(
    alloc: Global,
    heap: &mut Heap,
    a: Value,
    b: Value,
    culprit: Value,
) -> Result<Act, AllocError>
    requires a { IsOf heap.old a }
    requires b { IsOf heap.old b }
    requires culprit { IsOf heap.old culprit }
    ensures act { IfOk result (λ r. act_of heap.new r ≡ ask_or (either_handler_of (own_store heap.old) (datum heap.old a) (datum heap.old b) (codes "__concat")) (datum heap.old a ∷ datum heap.old b ∷ []) take (fail_text (codes "attempt to concatenate a " ++ kind_name_of (datum heap.old culprit) ++ codes " value"))) }
    ensures known { IfOk result (IsActOf heap.new) }
    ensures grown { Grown heap.old heap.new }
{
    let handler = either_handler(heap, a, b, b"__concat");
    if is_nil(handler) {
        let failure = kind_failure(
            alloc,
            heap,
            b"attempt to concatenate a ",
            culprit,
            b" value",
        )?;
        Ok(Act::Fail(failure))
    } else {
        call_with(alloc, handler, &[a, b], Then::Take)
    }
}

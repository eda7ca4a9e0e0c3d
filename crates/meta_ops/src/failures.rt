// Failures, whose values are texts.
ghost use Rattle.std.specs.Prelude.{◌≡◌, ◌++◌, IfOk};
ghost use Rattle.lua_model.specs.Datum.{text, kind_name as kind_name_of};
ghost use Rattle.lua_heap.specs.State.{datum, IsOf};
ghost use Rattle.lua_heap.specs.Grown.{Grown};

use lua_heap::{Heap, kind_name, text_value};
use lua_model::Value;
use lua_num::ByteText;
use std::alloc::{AllocError, Global};

/// The failure that names the kind of a value between two texts.
pub fn kind_failure(
    alloc: Global,
    heap: &mut Heap,
    before: &[u8],
    v: Value,
    after: &[u8],
) -> Result<Value, AllocError>
    ensures value { IfOk result (λ r. datum heap.new r ≡ text (before.now ++ kind_name_of (datum heap.old v) ++ after.now)) }
    ensures known { IfOk result (IsOf heap.new) }
    ensures grown { Grown heap.old heap.new }
{
    let mut message = ByteText::from_slice(alloc, before)?;
    message.extend(kind_name(v))?;
    message.extend(after)?;
    text_value(alloc, heap, message.bytes())
}

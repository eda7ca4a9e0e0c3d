// What a call goes to.
ghost use Rattle.std.specs.Prelude.{◌≡◌, true, IfOk, IsOk};
ghost use Rattle.lua_model.specs.Datum.{is_function as is_function_datum};
ghost use Rattle.lua_model.specs.Operators.{callee as callee_in};
ghost use Rattle.lua_heap.specs.State.{datum, IsOf, own_store, Keeps, OnlyTexts};
ghost use Rattle.meta_ops.specs.Acts.{callee_of, IsCalleeOf};

use crate::act::Callee;
use crate::failures::kind_failure;
use crate::handlers::{handler, is_function};
use lua_heap::Heap;
use lua_model::Value;
use std::alloc::{AllocError, Global};

/// What a call of this value goes to (manual 2.8): itself where it is a function, or its handler where that is one; else a failure.
/// For a function it takes no memory. Where memory runs out only texts of the heap changed.
pub fn callee(alloc: Global, heap: &mut Heap, f: Value) -> Result<Callee, AllocError>
    requires { IsOf heap.old f }
    ensures callee { IfOk result (λ r. callee_of heap.new r ≡ callee_in (own_store heap.old) (datum heap.old f)) }
    ensures known { IfOk result (IsCalleeOf heap.new) }
    ensures memory { is_function_datum (datum heap.old f) ≡ true → IsOk result }
    ensures only_texts { OnlyTexts heap.old heap.new }
    ensures keeps { Keeps heap.old heap.new }
{
    if is_function(f) {
        return Ok(Callee::Plain(f));
    }
    let handler = handler(heap, f, b"__call");
    if is_function(handler) {
        return Ok(Callee::Through(handler));
    }
    let failure = kind_failure(alloc, heap, b"attempt to call a ", f, b" value")?;
    Ok(Callee::Fail(failure))
}

// Built-in functions that fail or are asked outside of the heap: error, assert, pcall and host_close (manual 5.1).
ghost use Rattle.lua_model.specs.Builtins.{error as error_in, assert as assert_in, pcall as pcall_in, host_close as host_close_in};
ghost use Rattle.lua_heap.specs.Grown.{Grown};
ghost use Rattle.natives.specs.Refusals.{Gives};
ghost use Rattle.lua_heap.specs.State.{HeapState, AreOf};

use crate::arguments::{a_string, any_value, argument_or_nil, first, rest};
use crate::native_act::NativeAct;
use crate::refusal::Refusal;
use crate::results::results;
use lua_heap::{Heap, ValueList, is_nil, text_value};
use lua_model::Value;
use std::alloc::Global;

pub fn error(args: &[Value]) -> Result<NativeAct, Refusal>
    ensures { (h : HeapState) → AreOf h args.now → Gives error_in h h args.now result }
{
    Ok(NativeAct::Fail(first(args)))
}

pub fn assert(alloc: Global, heap: &mut Heap, args: &[Value]) -> Result<NativeAct, Refusal>
    requires { AreOf heap.old args.now }
    ensures act { Gives assert_in heap.old heap.new args.now result }
    ensures grown { Grown heap.old heap.new }
{
    let v = any_value(args, 1, b"assert")?;
    if v.is_true() {
        return Ok(results(alloc, args)?);
    }
    let message = argument_or_nil(args, 2);
    if is_nil(message) {
        return Err(Refusal::Text(b"assertion failed!"));
    }
    let message = a_string(alloc, heap, args, 2, b"assert")?;
    let failure = text_value(alloc, heap, message.bytes())?;
    Ok(NativeAct::Fail(failure))
}

pub fn pcall(alloc: Global, args: &[Value]) -> Result<NativeAct, Refusal>
    ensures { (h : HeapState) → AreOf h args.now → Gives pcall_in h h args.now result }
{
    let f = any_value(args, 1, b"pcall")?;
    let args = ValueList::from_slice(alloc, rest(args))?;
    Ok(NativeAct::Protect { f, args })
}

pub fn host_close(alloc: Global, heap: &Heap, args: &[Value]) -> Result<NativeAct, Refusal>
    requires { AreOf heap.now args.now }
    ensures { Gives host_close_in heap.now heap.now args.now result }
{
    let name = a_string(alloc, heap, args, 1, b"host_close")?;
    Ok(NativeAct::CloseHost(name))
}

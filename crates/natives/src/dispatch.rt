// Calls of built-in functions by their numbers.
ghost use Rattle.std.specs.Prelude.{◌<◌, length, IfOk};
ghost use Rattle.std.specs.Result.{OnErr};
ghost use Rattle.lua_model.specs.Builtins.{builtin_names, native};
ghost use Rattle.lua_heap.specs.State.{Keeps, AreOf, OnlyTexts, OnlyTables};
ghost use Rattle.natives.specs.Answers.{Answers, IsActOf, ChangesAs};
ghost use Rattle.natives.specs.Refusals.{Gives};

use crate::failures::{assert, error, host_close, pcall};
use crate::metatables::{getmetatable, setmetatable};
use crate::native_act::NativeAct;
use crate::refusal::{Refusal, failure};
use crate::tables::{ipairs, ipairs_next, next, pairs, rawget, rawset, unpack};
use crate::values::{print, rawequal, select, tonumber, tostring, type_of};
use lua_heap::Heap;
use lua_model::Value;
use std::alloc::{AllocError, Global};

/// Calls the built-in function of this number (print 0, type 1, .. in the order of lua_model's `builtin_names`) with
/// these arguments (manual 5.1). A failure is an answer. In time linear in the arguments and in what is answered, on
/// average, but `next` steps past entries that are nil. Where it answers no results or memory runs out, only texts of
/// the heap changed.
pub fn native(
    alloc: Global,
    heap: &mut Heap,
    id: u8,
    args: &[Value],
) -> Result<NativeAct, AllocError>
    requires id { id < length builtin_names }
    requires args { AreOf heap.old args.now }
    ensures act { IfOk result (λ r. Answers (native id) heap.old heap.new args.now r) }
    ensures known { IfOk result (IsActOf heap.new) }
    ensures changes { IfOk result (ChangesAs heap.old heap.new) }
    ensures only_tables { OnlyTables heap.old heap.new }
    ensures err { OnErr result (OnlyTexts heap.old heap.new) }
    ensures keeps { Keeps heap.old heap.new }
{
    match call(alloc, heap, id, args) {
        Ok(act) => Ok(act),
        Err(refusal) => {
            let failure = failure(alloc, heap, args, refusal)?;
            Ok(NativeAct::Fail(failure))
        }
    }
}

fn call(alloc: Global, heap: &mut Heap, id: u8, args: &[Value]) -> Result<NativeAct, Refusal>
    requires id { id < length builtin_names }
    requires args { AreOf heap.old args.now }
    ensures act { Gives (native id) heap.old heap.new args.now result }
    ensures changes { IfOk result (ChangesAs heap.old heap.new) }
    ensures only_tables { OnlyTables heap.old heap.new }
    ensures err { OnErr result (OnlyTexts heap.old heap.new) }
    ensures keeps { Keeps heap.old heap.new }
{
    match id {
        0 => print(alloc, heap, args),
        1 => type_of(alloc, heap, args),
        2 => tostring(alloc, heap, args),
        3 => tonumber(alloc, heap, args),
        4 => error(args),
        5 => assert(alloc, heap, args),
        6 => select(alloc, heap, args),
        7 => rawget(alloc, heap, args),
        8 => rawset(alloc, heap, args),
        9 => rawequal(alloc, heap, args),
        10 => next(alloc, heap, args),
        11 => pairs(alloc, args),
        12 => ipairs(alloc, args),
        13 => unpack(alloc, heap, args),
        14 => setmetatable(alloc, heap, args),
        15 => getmetatable(alloc, heap, args),
        16 => ipairs_next(alloc, heap, args),
        17 => pcall(alloc, args),
        _ => host_close(alloc, heap, args),
    }
}

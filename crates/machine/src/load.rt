// The functions of a chunk, made ready to run.
ghost use Rattle.std.specs.Prelude.{◌≡◌, List, map, IfOk};
ghost use Rattle.proto.specs.Chunk.{Chunk, functions, functions_of};
ghost use Rattle.proto.specs.Short.{IsShort, AreShort};
ghost use Rattle.proto.specs.View.{view_proto};
ghost use Rattle.lua_heap.specs.State.{datum, IsOf, AreOf};
ghost use Rattle.lua_heap.specs.Grown.{Grown};
ghost use Rattle.rules.specs.State.{value_of};
ghost use Rattle.machine.specs.Decoded.{decoded_of};
ghost use Rattle.machine.specs.Frames.{data_of};
ghost use Rattle.machine.specs.Loaded.{AreLoaded, IsLoadedAs, all_functions};
ghost use Rattle.machine.specs.Loading.{LeadTo, Loads, LoadsAll};

use crate::function::Function;
use crate::word::Word;
use lua_heap::{Heap, text_value};
use lua_model::Value;
use proto::{Constant, Proto};
use std::alloc::{AllocError, Global};

/// The functions of a chunk, those in a function before it, so that the main function is the last. Text constants are
/// interned. Only texts of the heap change.
pub fn load(alloc: Global, heap: &mut Heap, proto: &Proto) -> Result<Vec<Function>, AllocError>
    requires short { IsShort (view_proto proto.now) }
    ensures loaded { IfOk result (λ loaded. AreLoaded heap.new (all_functions (view_proto proto.now)) loaded.items) }
    ensures grown { Grown heap.old heap.new }
{
    let mut loaded = Vec::new(alloc);
    load_function(alloc, heap, &mut loaded, proto)?;
    Ok(loaded)
}

/// Loads all functions of a function behind those that are loaded, itself as the last. Gives its number.
#[cycle(loading)]
fn load_function(
    alloc: Global,
    heap: &mut Heap,
    loaded: &mut Vec<Function>,
    proto: &Proto,
) -> Result<usize, AllocError>
    requires short { IsShort (view_proto proto.now) }
    ensures loads { IfOk result (Loads heap.old heap.new loaded.old.items loaded.new.items (view_proto proto.now)) }
    ensures grown { Grown heap.old heap.new }
{
    let inner = load_all(alloc, heap, loaded, proto.functions.items())?;
    let function = made(alloc, heap, proto, inner)?;
    let number = loaded.len();
    loaded.push(function)?;
    Ok(number)
}

/// Loads all functions of some functions, one after another. Gives the numbers of these.
#[cycle(loading)]
fn load_all(
    alloc: Global,
    heap: &mut Heap,
    loaded: &mut Vec<Function>,
    protos: &[Proto],
) -> Result<Vec<usize>, AllocError>
    requires short { AreShort (functions_of (map view_proto protos.now)) }
    ensures loads { IfOk result (λ numbers. LoadsAll heap.old heap.new loaded.old.items loaded.new.items (functions_of (map view_proto protos.now)) numbers.items) }
    ensures grown { Grown heap.old heap.new }
{
    let mut numbers = Vec::new(alloc);
    for proto in protos {
        let number = load_function(alloc, heap, loaded, proto)?;
        numbers.push(number)?;
    }
    Ok(numbers)
}

/// A function, with the numbers of the functions that stand in it.
fn made(
    alloc: Global,
    heap: &mut Heap,
    proto: &Proto,
    inner: Vec<usize>,
) -> Result<Function, AllocError>
    requires short { IsShort (view_proto proto.now) }
    ensures made { IfOk result (λ f. (all : List Chunk) → LeadTo all inner.items (functions (view_proto proto.now)) → IsLoadedAs heap.new all (view_proto proto.now) f) }
    ensures inner { IfOk result (λ f. f.inner.items ≡ inner.items) }
    ensures grown { Grown heap.old heap.new }
{
    let constants = constant_values(alloc, heap, proto.constants.items())?;
    let code = proto.code.items().to_vec(alloc)?;
    let words = decoded(alloc, code.as_slice())?;
    Ok(Function {
        code,
        words,
        constants,
        inner,
        upvalues: proto.upvalues,
        params: proto.params,
        vararg: proto.vararg,
        registers: proto.registers,
    })
}

/// Words, each decoded.
fn decoded(alloc: Global, code: &[u32]) -> Result<Vec<Word>, AllocError>
    ensures { IfOk result (λ words. words.items ≡ map decoded_of code.now) }
{
    code.iter().map(|bits| Word::new(*bits)).collect(alloc)
}

/// Constants as values of the heap.
fn constant_values(
    alloc: Global,
    heap: &mut Heap,
    constants: &[Constant],
) -> Result<Vec<Value>, AllocError>
    ensures values { IfOk result (λ vs. map value_of constants.now ≡ data_of heap.new vs.items) }
    ensures known { IfOk result (λ vs. AreOf heap.new vs.items) }
    ensures grown { Grown heap.old heap.new }
{
    let mut values = Vec::new(alloc);
    for constant in constants {
        let value = constant_value(alloc, heap, constant)?;
        values.push(value)?;
    }
    Ok(values)
}

/// A constant as a value of the heap.
fn constant_value(alloc: Global, heap: &mut Heap, constant: &Constant) -> Result<Value, AllocError>
    ensures value { IfOk result (λ v. value_of constant.now ≡ datum heap.new v) }
    ensures known { IfOk result (IsOf heap.new) }
    ensures grown { Grown heap.old heap.new }
{
    match constant {
        Constant::Nil => Ok(Value::Nil),
        Constant::Bool(b) => Ok(Value::Bool(*b)),
        Constant::Number(n) => Ok(Value::Number(*n)),
        Constant::Text(text) => text_value(alloc, heap, text.bytes()),
    }
}

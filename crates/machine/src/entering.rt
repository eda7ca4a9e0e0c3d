// Frames that are made.
ghost use Rattle.std.specs.Prelude.{◌≡◌, ◌*◌, ◌+◌, ℕ, suc, ◌<◌, ◌≤◌, ◌∷◌, List, length, slice_get, take, Some, IfOk, OnOk};
ghost use Rattle.proto.specs.Chunk.{Chunk, own};
ghost use Rattle.lua_model.specs.Datum.{Datum, adjusted, extra_of, table};
ghost use Rattle.lua_heap.specs.State.{HeapState, datum, IsOf, AreOf, Keeps, OnlyTables, own_store, store_of};
ghost use Rattle.rules.specs.Words.{is_vararg};
ghost use Rattle.lua_model.specs.Operators.{stack_overflow};
ghost use Rattle.rules.specs.State.{State, Effect, Goes, with_registers, with_store};
ghost use Rattle.rules.specs.Calls.{begin, frame_of, with_arg_table, entered, failed_in, land, push as push_of, replace as replace_of};
ghost use Rattle.upvalue.specs.State.{top, cells_of};
ghost use Rattle.upvalue.specs.Shared.{Shares};
ghost use Rattle.machine.specs.declared.did.Did.TheVariants.{Next};
ghost use Rattle.machine.specs.Settled.{to_do};
ghost use Rattle.machine.specs.Words.{calls_of};
ghost use Rattle.machine.specs.Frames.{data_of, landing_of, showing};
ghost use Rattle.machine.specs.Seen.{Around, seen, numbered, cells_in};
ghost use Rattle.machine.specs.Whole.{IsClosureOf, IsWaiting, IsSafe, IsWhole, DoesSeen};

use crate::calling::broke;
use crate::did::{Did, Landing};
use crate::frame::Frame;
use crate::function::Function;
use crate::running::Running;
use crate::topmost::land_top;
use crate::words::{key_of, put_all, put_items};
use lua_heap::{Heap, ValueList, text_value};
use lua_model::{ClosureId, Value};
use lua_table::SetFault;
use std::alloc::{AllocError, Global};
use std::mem;
use upvalue::ValueStack;

/// Puts a frame of a function above: its registers nil, the parameters set from the arguments, the others kept where it is vararg, and
/// the table of these in the register behind the parameters where its flags ask for one. Where memory runs out the machine is only dropped.
#[inline(always)]
pub fn enter(
    alloc: Global,
    running: &mut Running,
    functions: &[Function],
    number: usize,
    closure: ClosureId,
    args: &[Value],
    landing: Landing,
    protections: u32,
) -> Result<(), AllocError>
    requires safe { IsSafe functions.now running.old }
    requires number { number < length functions.now }
    requires closure { IsClosureOf running.old.heap (Some closure) }
    requires args { AreOf running.old.heap args.now }
    requires waiting { IsWaiting functions.now landing running.old.top (top running.old.stack.frames) }
    ensures begins { OnOk result ((c : Chunk) (a : Around) → IsWhole c functions.now running.old → begin (record (seen c a running.old) { top = frame_of (record { function = numbered c number; cells = cells_in running.old.heap (Some closure) }) (data_of running.old.heap args.now) (landing_of landing) protections; below = (seen c a running.old).top ∷ (seen c a running.old).below }) ≡ Goes (seen c a running.new)) }
    ensures safe { OnOk result (IsSafe functions.now running.new) }
    ensures keeps { OnOk result (Keeps running.old.heap running.new.heap) }
    ensures only_tables { OnOk result (OnlyTables running.old.heap running.new.heap) }
    ensures pieces { OnOk result (running.new.pieces ≡ running.old.pieces) }
{
    let function = &functions[number];
    running.below.reserve(1)?;
    let extra = extra_arguments(alloc, function, args)?;
    put_registers(
        alloc,
        &mut running.heap,
        &mut running.stack,
        function,
        args,
        extra.items(),
    )?;
    let frame = Frame {
        function: number,
        closure: Some(closure),
        pc: 0,
        extra,
        results: None,
        landing,
        protections,
    };
    let caller = mem::replace(&mut running.top, frame);
    running.below.push_reserved(caller);
    Ok(())
}

/// Puts a frame of a function in the place of the topmost one, whose cells are closed: with its landing and its protections. The rest is as
/// in `enter`.
pub fn replace(
    alloc: Global,
    running: &mut Running,
    functions: &[Function],
    closure: ClosureId,
    args: &[Value],
) -> Result<(), AllocError>
    requires safe { IsSafe functions.now running.old }
    requires closure { IsClosureOf running.old.heap (Some closure) }
    requires args { AreOf running.old.heap args.now }
    ensures does { OnOk result ((a : ℕ) (lands : State → List Datum → Effect) → DoesSeen functions.now (λ m. entered (replace_of a) lands 0 m (slice_get m.closures closure.index) (data_of running.old.heap args.now)) running.old running.new Next) }
{
    let number = running.heap.closure_function(closure);
    let function = &functions[number];
    running.stack.pop_frame(&mut running.heap);
    let extra = extra_arguments(alloc, function, args)?;
    put_registers(
        alloc,
        &mut running.heap,
        &mut running.stack,
        function,
        args,
        extra.items(),
    )?;
    running.top = Frame {
        function: number,
        closure: Some(closure),
        pc: 0,
        extra,
        results: None,
        landing: running.top.landing,
        protections: running.top.protections,
    };
    Ok(())
}

/// How many frames there may be below the topmost one.
pub const DEPTH_LIMIT: usize = 20_000;

/// Calls a function from the topmost frame, within so many protected calls: its frame is put above, where no more than 20,000 are below;
/// else this is a failure with the text `stack overflow`, which a protected call takes.
pub fn push(
    alloc: Global,
    running: &mut Running,
    functions: &[Function],
    landing: Landing,
    closure: ClosureId,
    args: &[Value],
    protections: u32,
) -> Result<Did, AllocError>
    requires safe { IsSafe functions.now running.old }
    requires closure { IsClosureOf running.old.heap (Some closure) }
    requires args { AreOf running.old.heap args.now }
    requires waiting { IsWaiting functions.now landing running.old.top (top running.old.stack.frames) }
    ensures does { IfOk result (DoesSeen functions.now (λ m. entered (push_of (landing_of landing) (land (landing_of landing))) (land (landing_of landing)) protections m (slice_get m.closures closure.index) (data_of running.old.heap args.now)) running.old running.new) }
    ensures falls { IfOk result (λ did. to_do (length running.new.below.items) did < 2048 * length running.old.below.items + suc (calls_of landing)) }
{
    if running.below.len() >= DEPTH_LIMIT {
        return overflow(alloc, running, functions, landing, protections);
    }
    let number = running.heap.closure_function(closure);
    enter(
        alloc,
        running,
        functions,
        number,
        closure,
        args,
        landing,
        protections,
    )?;
    Ok(Did::Next)
}

/// The failure of a call within so many protected calls for which no frame may be made.
fn overflow(
    alloc: Global,
    running: &mut Running,
    functions: &[Function],
    landing: Landing,
    protections: u32,
) -> Result<Did, AllocError>
    requires safe { IsSafe functions.now running.old }
    requires waiting { IsWaiting functions.now landing running.old.top (top running.old.stack.frames) }
    ensures does { IfOk result (DoesSeen functions.now (λ m. failed_in (land (landing_of landing)) protections m stack_overflow) running.old running.new) }
    ensures falls { IfOk result (λ did. to_do (length running.new.below.items) did < 2048 * length running.old.below.items + suc (calls_of landing)) }
{
    let value = text_value(alloc, &mut running.heap, b"stack overflow")?;
    if protections == 0 {
        return Ok(Did::Fails(value));
    }
    let values = broke(alloc, protections - 1, value)?;
    land_top(alloc, running, functions, landing, values)
}

/// The arguments behind the parameters, where the function keeps them.
fn extra_arguments(
    alloc: Global,
    function: &Function,
    args: &[Value],
) -> Result<ValueList, AllocError>
    ensures list { IfOk result (λ list. (h : HeapState) → data_of h list ≡ extra_of (is_vararg function.now.vararg) function.now.params (data_of h args.now)) }
    ensures known { IfOk result (λ list. (h : HeapState) → AreOf h args.now → AreOf h list) }
{
    let params = function.params as usize;
    if function.vararg == 0 || args.len() <= params {
        return Ok(ValueList::new(alloc));
    }
    ValueList::from_slice(alloc, &args[params..])
}

/// Registers for a frame of a function above: nil, with the parameters set from the arguments.
#[inline(always)]
fn put_arguments(
    stack: &mut ValueStack,
    function: &Function,
    args: &[Value],
) -> Result<(), AllocError>
    requires room { function.now.params ≤ function.now.registers }
    ensures frames { OnOk result (stack.new.frames ≡ top stack.new.frames ∷ stack.old.frames) }
    ensures registers { OnOk result ((h : HeapState) → data_of h (top stack.new.frames) ≡ adjusted function.now.registers (take function.now.params (data_of h args.now))) }
    ensures keeps { OnOk result ((h : HeapState) → Shares stack.old h → AreOf h args.now → Shares stack.new h × (cells_of stack.new.frames h ≡ cells_of stack.old.frames h)) }
{
    stack.push_frame(function.registers as usize)?;
    let base = stack.base();
    let registers = &mut stack.all_registers()[base..];
    put_all(registers, 0, function.params as usize, args);
    Ok(())
}

/// A new table of the extra arguments, from 1 on, with their number as `n`.
fn arg_table(alloc: Global, heap: &mut Heap, extra: &[Value]) -> Result<Value, AllocError>
    requires known { AreOf heap.old extra.now }
    ensures table { IfOk result (λ value. (datum heap.new value ≡ table (length heap.old.tables)) × IsOf heap.new value) }
    ensures store { OnOk result (own_store heap.new ≡ with_arg_table (own_store heap.old) (data_of heap.old extra.now)) }
    ensures only_tables { OnOk result (OnlyTables heap.old heap.new) }
    ensures keeps { OnOk result (Keeps heap.old heap.new) }
{
    let table = heap.new_table(alloc)?;
    put_items(heap, table, 1, extra)?;
    let name = heap.intern(alloc, b"n")?;
    let count = key_of(extra.len())?;
    match heap.raw_set(table, Value::Text(name), count) {
        Ok(()) => Ok(Value::Table(table)),
        Err(SetFault::OutOfMemory) => Err(AllocError),
        Err(SetFault::NilKey) => unreachable!(),
    }
}

/// The registers of a new frame: the parameters, and behind them the table of the extra arguments where the function's flags ask for one.
#[inline(always)]
pub fn put_registers(
    alloc: Global,
    heap: &mut Heap,
    stack: &mut ValueStack,
    function: &Function,
    args: &[Value],
    extra: &[Value],
) -> Result<(), AllocError>
    requires shares { Shares stack.old heap.old }
    requires args { AreOf heap.old args.now }
    requires extra { AreOf heap.old extra.now }
    requires room { function.now.params ≤ function.now.registers }
    requires table { function.now.vararg ≡ 7 → function.now.params < function.now.registers }
    ensures begins { OnOk result ((m : State) → (own m.top.function).params ≡ function.now.params → (own m.top.function).flags ≡ function.now.vararg → m.top.extra ≡ data_of heap.old extra.now → begin (with_store (with_registers m (adjusted function.now.registers (take function.now.params (data_of heap.old args.now)))) (store_of heap.old m.store.hosts)) ≡ Goes (showing m heap.new (top stack.new.frames))) }
    ensures frames { OnOk result (stack.new.frames ≡ top stack.new.frames ∷ stack.old.frames) }
    ensures shares { OnOk result (Shares stack.new heap.new) }
    ensures cells { OnOk result (cells_of stack.new.frames heap.new ≡ cells_of stack.old.frames heap.old) }
    ensures only_tables { OnOk result (OnlyTables heap.old heap.new) }
    ensures keeps { OnOk result (Keeps heap.old heap.new) }
{
    put_arguments(stack, function, args)?;
    if function.vararg == 7 {
        let table = arg_table(alloc, heap, extra)?;
        stack.write(function.params as usize, table);
    }
    Ok(())
}

// The beginning of a run: its heap (manual 5.1), and the frame of the main function.
ghost use Rattle.std.specs.Prelude.{◌≡◌, List, ◌++◌, [], IfOk, OnOk};
ghost use Rattle.std.specs.Str.{bytes_eq};
ghost use Rattle.proto.specs.Chunk.{Chunk};
ghost use Rattle.lua_model.specs.Builtins.{builtin_names, start, with_builtins, with_hosts};
ghost use Rattle.lua_model.specs.Datum.{nil, is_nil};
ghost use Rattle.lua_model.specs.Pairs.{set};
ghost use Rattle.lua_model.specs.Store.{Host, Reply};
ghost use Rattle.lua_heap.specs.State.{IsOf, Keeps, datum, store_of};
ghost use Rattle.host.specs.Hosts.{names_of};
ghost use Rattle.host.specs.Views.{set_told};
ghost use Rattle.rules.specs.State.{Goes};
ghost use Rattle.rules.specs.Calls.{begin};
ghost use Rattle.rules.specs.Run.{first_state};
ghost use Rattle.rules.specs.Sound.{Sound};
ghost use Rattle.machine.specs.Loaded.{AreLoaded, all_functions};
ghost use Rattle.machine.specs.Outside.{hosts_of, AreNamed};
ghost use Rattle.machine.specs.Seen.{seen};
ghost use Rattle.machine.specs.Whole.{IsSafe};

use crate::did::Landing;
use crate::entering::put_registers;
use crate::frame::Frame;
use crate::function::Function;
use crate::running::Running;
use hash_seed::Seed;
use host::HostSet;
use lua_heap::{Heap, ValueList};
use lua_model::Value;
use natives::{BUILTIN_COUNT, builtin_name};
use std::alloc::{AllocError, Global};
use upvalue::ValueStack;

/// A heap with the built-in functions as globals by their names, and the live hosts, whose names replace those.
pub fn first_heap(alloc: Global, hosts: &HostSet, seed: Seed) -> Result<Heap, AllocError>
    ensures store { IfOk result (λ heap. store_of heap (hosts_of (set_told heard hosts.now)) ≡ start (hosts_of (set_told heard hosts.now))) }
    ensures named { IfOk result (λ heap. AreNamed heap (set_told heard hosts.now)) }
    ensures closures { IfOk result (λ heap. heap.closures ≡ []) }
    ensures cells { IfOk result (λ heap. heap.cells ≡ []) }
{
    let mut heap = Heap::new(alloc, seed);
    set_builtins(alloc, &mut heap)?;
    set_hosts(alloc, &mut heap, hosts)?;
    Ok(heap)
}

/// What runs at first of the functions of a sound chunk: a frame of the last one, the main function, without arguments.
pub fn first_running(
    alloc: Global,
    mut heap: Heap,
    functions: &[Function],
) -> Result<Running, AllocError>
    requires loaded { (c : Chunk) × Sound c × AreLoaded heap (all_functions c) functions.now }
    requires closures { heap.closures ≡ [] }
    requires cells { heap.cells ≡ [] }
    ensures begins { IfOk result (λ running. (c : Chunk) (hosts : List Host) (replies : List Reply) → AreLoaded heap (all_functions c) functions.now → begin (first_state c (store_of heap hosts) replies) ≡ Goes (seen c (record { hosts = hosts; outside = record { events = []; replies = replies } }) running)) }
    ensures safe { IfOk result (IsSafe functions.now) }
    ensures keeps { IfOk result (λ running. Keeps heap running.heap) }
    ensures named { IfOk result (λ running. running.heap.host_names ≡ heap.host_names) }
    ensures pieces { IfOk result (λ running. running.pieces.items ≡ []) }
{
    let main = functions.len() - 1;
    let mut stack = ValueStack::new(alloc);
    put_registers(alloc, &mut heap, &mut stack, &functions[main], &[], &[])?;
    let top = Frame {
        function: main,
        closure: None,
        pc: 0,
        extra: ValueList::new(alloc),
        results: None,
        landing: Landing::Nowhere,
        protections: 0,
    };
    Ok(Running {
        heap,
        stack,
        top,
        below: Vec::new(alloc),
        pieces: Vec::new(alloc),
    })
}

/// The number of `ipairs_next`, which is no global.
const IPAIRS_NEXT: u8 = 16;

/// The built-in functions become globals by their names.
fn set_builtins(alloc: Global, heap: &mut Heap) -> Result<(), AllocError>
    ensures { OnOk result (heap.new ≡ record heap.old { texts = heap.new.texts; globals = with_builtins builtin_names 0 heap.old.globals }) }
{
    for number in 0..BUILTIN_COUNT {
        if number != IPAIRS_NEXT {
            set_named(alloc, heap, builtin_name(number), Value::Native(number))?;
        }
    }
    Ok(())
}

/// The hosts are named, and the live ones become globals by their names.
fn set_hosts(alloc: Global, heap: &mut Heap, hosts: &HostSet) -> Result<(), AllocError>
    ensures { OnOk result (heap.new ≡ record heap.old { texts = heap.new.texts; globals = with_hosts (hosts_of (set_told heard hosts.now)) 0 heap.old.globals; host_names = heap.old.host_names ++ names_of (set_told heard hosts.now).hosts }) }
{
    for number in 0..hosts.count() {
        let name = hosts.name(number);
        heap.name_host(alloc, name)?;
        if hosts.is_live(number) {
            set_named(alloc, heap, name, Value::Host(number))?;
        }
    }
    Ok(())
}

/// A value becomes the global of a name.
fn set_named(alloc: Global, heap: &mut Heap, name: &[u8], value: Value) -> Result<(), AllocError>
    requires { IsOf heap.old value }
    ensures { OnOk result (heap.new ≡ record heap.old { texts = heap.new.texts; globals = set bytes_eq nil is_nil heap.old.globals name.now (datum heap.old value) }) }
{
    let text = heap.intern(alloc, name)?;
    heap.set_global(text, value)
}

// The registers of the frames.
ghost use Rattle.std.specs.Prelude.{◌≡◌, ◌<◌, ◌≤◌, ◌∷◌, length, replicate, slice_get, slice_set, get_or, Some, IfOk, OnOk, OnErr};
ghost use Rattle.lua_model.specs.declared.Value.TheVariants.{Nil};
ghost use Rattle.lua_heap.specs.State.{HeapState, IsOf, AreOf, Keeps, datum, no_cell};
ghost use Rattle.upvalue.specs.State.{no_frames, top, below, with_top, in_a_row, size, cells_of, cell_of, value_of, with_value, with_held};
ghost use Rattle.std.specs.Borrow.{sem};
ghost use Rattle.upvalue.specs.Lending.{LendsRegisters};
ghost use Rattle.upvalue.specs.Shared.{Shares, KeepsShares};
ghost use Rattle.upvalue.specs.Captured.{captured, closed_from};

use crate::shared::{OpenCell, close_places, find};
use lua_heap::{Cell, CellId, Heap};
use lua_model::Value;
use std::alloc::{AllocError, Global};
use std::marker::Model;

/// The registers of the frames, and the cells that stand for some of them. Registers are those of the topmost frame.
/// A heap that is handed in shares its cells with this stack (`Shares`): the cells of it that stand for places are the
/// open ones of this stack, and the values in the registers are its own. Each call that takes a heap keeps this.
#[derive(Drop)]
pub struct ValueStack {
    // the registers of all frames, those of the main frame first
    values: Vec<Value>,
    // where the topmost frame begins
    base: usize,
    // where each frame begins
    bases: Vec<usize>,
    shared: Vec<OpenCell>,
}

impl Model for ValueStack {
    ghost use Rattle.upvalue.specs.State.{StackState};

    ghost Value = { StackState };

    ghost use Rattle.upvalue.specs.Inside.{view_of, IsLaid};

    ghost view = { view_of };

    ghost invariant = { IsLaid };
}

impl ValueStack {
    /// A stack without frames, which takes no memory.
    pub fn new(alloc: Global) -> Self
        ensures { result ≡ no_frames }
    {
        Self {
            values: Vec::new(alloc),
            base: 0,
            bases: Vec::new(alloc),
            shared: Vec::new(alloc),
        }
    }

    /// A frame of so many registers on top, all nil, in time linear in them. Where memory runs out the stack is as it was.
    pub fn push_frame(&mut self, registers: usize) -> Result<(), AllocError>
        ensures pushed { OnOk result (self.new ≡ record self.old { frames = replicate registers Nil ∷ self.old.frames }) }
        ensures keeps { KeepsShares self.old self.new }
        ensures err { OnErr result (self.new ≡ self.old) }
    {
        let base = self.values.len();
        self.bases.reserve(1)?;
        self.values.reserve(registers)?;
        self.bases.push_reserved(base);
        for _ in 0..registers {
            self.values.push_reserved(Value::Nil);
        }
        self.base = base;
        Ok(())
    }

    /// Takes the topmost frame off; the cells of its registers take their values.
    pub fn pop_frame(&mut self, heap: &mut Heap)
        requires frame { 0 < length self.old.frames }
        requires shares { Shares self.old heap.old }
        ensures frames { self.new.frames ≡ below self.old.frames }
        ensures heap { heap.new ≡ record heap.old { cells = heap.new.cells } }
        ensures as_many { length heap.new.cells ≡ length heap.old.cells }
        ensures cells { cells_of self.new.frames heap.new ≡ closed_from heap.old self.old.frames 0 (cells_of self.old.frames heap.old) }
        ensures shares { Shares self.new heap.new }
        ensures keeps { Keeps heap.old heap.new }
    {
        let base = self.base;
        close_places(&mut self.shared, heap, self.values.as_slice(), base);
        self.values.truncate(base);
        let _ = self.bases.pop();
        self.base = self.bases.last().copied().unwrap_or(0);
    }

    /// The value of a register.
    #[inline]
    pub fn read(&self, register: usize) -> Value
        requires { register < length (top self.now.frames) }
        ensures value { slice_get (top self.now.frames) register ≡ Some result }
        ensures known { (h : HeapState) → Shares self.now h → IsOf h result }
    {
        self.values[self.base + register]
    }

    /// The registers, in order.
    #[inline]
    pub fn registers(&self) -> &[Value]
        ensures values { result.now ≡ top self.now.frames }
        ensures known { (h : HeapState) → Shares self.now h → AreOf h result.now }
    {
        &self.values[self.base..]
    }

    /// Where the registers of the topmost frame begin among those of all frames.
    #[inline]
    pub fn base(&self) -> usize
        ensures { result ≡ size (below self.now.frames) }
    {
        self.base
    }

    /// The registers of all frames, those of the main frame first, to be changed in place: those of the topmost frame begin
    /// at `base`.
    #[inline]
    pub fn all_registers(&mut self) -> &mut [Value]
        ensures* writes_back { sem 𝓛 (LendsRegisters self.entry result) }
        ensures values { result.now ≡ in_a_row self.old.frames }
        ensures known { (h : HeapState) → Shares self.old h → AreOf h result.now }
    {
        self.values.as_mut_slice()
    }

    /// Puts a value into a register.
    #[inline]
    pub fn write(&mut self, register: usize, value: Value)
        requires { register < length (top self.old.frames) }
        ensures written { self.new ≡ record self.old { frames = with_top self.old.frames (slice_set (top self.old.frames) register value) } }
        ensures keeps { (h : HeapState) → Shares self.old h → IsOf h value → Shares self.new h × (cells_of self.new.frames h ≡ cells_of self.old.frames h) }
    {
        let place = self.base + register;
        self.values[place] = value;
    }

    /// The cell that stands for a register, a new one only where there was none. In time linear in the open cells of
    /// higher registers. Where memory runs out the stack and the heap are as they were.
    pub fn capture(&mut self, heap: &mut Heap, register: usize) -> Result<CellId, AllocError>
        requires register { register < length (top self.old.frames) }
        requires shares { Shares self.old heap.old }
        ensures cell { IfOk result (λ cell. (cell.index, heap.new) ≡ captured self.old.frames register heap.old) }
        ensures there { IfOk result (λ cell. cell.index < length heap.new.cells) }
        ensures no_fewer { length heap.old.cells ≤ length heap.new.cells }
        ensures frames { self.new.frames ≡ self.old.frames }
        ensures shares { Shares self.new heap.new }
        ensures keeps { Keeps heap.old heap.new }
        ensures err { OnErr result (self.new ≡ self.old) }
        ensures heap_err { OnErr result (heap.new ≡ heap.old) }
    {
        let place = self.base + register;
        match find(self.shared.as_slice(), place) {
            Ok(cell) => Ok(cell),
            Err(at) => {
                self.shared.reserve(1)?;
                let cell = heap.new_cell(Cell::InStack(place))?;
                let Ok(()) = self.shared.insert(at, OpenCell { place, cell }) else {
                    unreachable!();
                };
                Ok(cell)
            }
        }
    }

    /// The cells of this register and of higher ones take their values. In time linear in their number.
    pub fn close_from(&mut self, heap: &mut Heap, register: usize)
        requires register { register ≤ length (top self.old.frames) }
        requires shares { Shares self.old heap.old }
        ensures frames { self.new.frames ≡ self.old.frames }
        ensures heap { heap.new ≡ record heap.old { cells = heap.new.cells } }
        ensures as_many { length heap.new.cells ≡ length heap.old.cells }
        ensures cells { cells_of self.new.frames heap.new ≡ closed_from heap.old self.old.frames register (cells_of self.old.frames heap.old) }
        ensures shares { Shares self.new heap.new }
        ensures keeps { Keeps heap.old heap.new }
    {
        let from = self.base + register;
        close_places(&mut self.shared, heap, self.values.as_slice(), from);
    }

    /// The value of a cell.
    #[inline]
    pub fn read_cell(&self, heap: &Heap, cell: CellId) -> Value
        requires cell { cell.index < length heap.now.cells }
        requires shares { Shares self.now heap.now }
        ensures value { value_of heap.now self.now.frames (cell_of self.now.frames (get_or heap.now.cells cell.index no_cell)) ≡ Some (datum heap.now result) }
        ensures known { IsOf heap.now result }
    {
        match heap.cell(cell) {
            Cell::InStack(place) => self.values[place],
            Cell::Held(value) => value,
        }
    }

    /// Puts a value into a cell.
    #[inline]
    pub fn write_cell(&mut self, heap: &mut Heap, cell: CellId, value: Value)
        requires cell { cell.index < length heap.old.cells }
        requires value { IsOf heap.old value }
        requires shares { Shares self.old heap.old }
        ensures written { (self.new.frames, heap.new) ≡ with_value self.old.frames heap.old cell.index (cell_of self.old.frames (get_or heap.old.cells cell.index no_cell)) value }
        ensures cells { cells_of self.new.frames heap.new ≡ with_held (cells_of self.old.frames heap.old) cell.index (cell_of self.old.frames (get_or heap.old.cells cell.index no_cell)) (datum heap.old value) }
        ensures shares { Shares self.new heap.new }
        ensures keeps { Keeps heap.old heap.new }
    {
        match heap.cell(cell) {
            Cell::InStack(place) => self.values[place] = value,
            Cell::Held(_) => heap.set_cell(cell, Cell::Held(value)),
        }
    }
}

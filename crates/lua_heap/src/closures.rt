// The closures of a heap and their cells.
ghost use Rattle.std.specs.Prelude.{◌≡◌, ◌<◌, ◌++◌, ◌∷◌, [], pos, suc, length, map, get_or, slice_set, IfOk, OnOk, OnErr};
ghost use Rattle.lua_heap.specs.State.{Keeps, AreCellsOf, IsCellOf, cell_of, no_cell, no_closure};

use crate::cells::{Cell, CellId};
use crate::heap::{Closure, Heap};
use lua_model::ClosureId;
use std::alloc::{AllocError, Global};

impl Heap {
    /// A closure of the function with this number, with these cells, which stands last. In time linear in the cells.
    /// Where memory runs out the heap is as it was.
    pub fn new_closure(
        &mut self,
        alloc: Global,
        function: usize,
        cells: &[CellId],
    ) -> Result<ClosureId, AllocError>
        requires cells { AreCellsOf self.old cells.now }
        ensures id { IfOk result (λ id. id.index ≡ length self.old.closures) }
        ensures state { OnOk result (self.new ≡ record self.old { closures = self.old.closures ++ record { function = function; cells = map (λ c. c.index) cells.now } ∷ [] }) }
        ensures keeps { Keeps self.old self.new }
        ensures err { OnErr result (self.new ≡ self.old) }
    {
        let index = self.closures.len();
        let cells = cells.to_vec(alloc)?;
        self.closures.push(Closure { function, cells })?;
        Ok(ClosureId { index })
    }

    /// The number that the text of a closure shows: its place in the order of creation, from 1.
    pub fn closure_number(&self, id: ClosureId) -> i64
        requires closure { id.index < length self.now.closures }
        ensures { result ≡ pos (suc id.index) }
    {
        let _closure = &self.closures[id.index];
        id.index as i64 + 1
    }

    /// The number of the function of a closure.
    pub fn closure_function(&self, id: ClosureId) -> usize
        requires closure { id.index < length self.now.closures }
        ensures { result ≡ (get_or self.now.closures id.index no_closure).function }
    {
        self.closures[id.index].function
    }

    /// The cell of a closure in this slot.
    pub fn closure_cell(&self, id: ClosureId, slot: usize) -> CellId
        requires closure { id.index < length self.now.closures }
        requires slot { slot < length (get_or self.now.closures id.index no_closure).cells }
        ensures cell { result.index ≡ get_or (get_or self.now.closures id.index no_closure).cells slot 0 }
        ensures known { result.index < length self.now.cells }
    {
        self.closures[id.index].cells[slot]
    }

    /// A cell, which stands last. Where memory runs out the heap is as it was.
    pub fn new_cell(&mut self, cell: Cell) -> Result<CellId, AllocError>
        requires cell { IsCellOf self.old cell }
        ensures id { IfOk result (λ id. id.index ≡ length self.old.cells) }
        ensures state { OnOk result (self.new ≡ record self.old { cells = self.old.cells ++ cell_of self.old cell ∷ [] }) }
        ensures keeps { Keeps self.old self.new }
        ensures err { OnErr result (self.new ≡ self.old) }
    {
        let index = self.cells.len();
        self.cells.push(cell)?;
        Ok(CellId { index })
    }

    /// Where the value of a cell is.
    pub fn cell(&self, id: CellId) -> Cell
        requires cell { id.index < length self.now.cells }
        ensures cell { cell_of self.now result ≡ get_or self.now.cells id.index no_cell }
        ensures known { IsCellOf self.now result }
    {
        self.cells[id.index]
    }

    /// Says where the value of a cell is.
    pub fn set_cell(&mut self, id: CellId, cell: Cell)
        requires id { id.index < length self.old.cells }
        requires cell { IsCellOf self.old cell }
        ensures state { self.new ≡ record self.old { cells = slice_set self.old.cells id.index (cell_of self.old cell) } }
        ensures keeps { Keeps self.old self.new }
    {
        self.cells[id.index] = cell;
    }
}

// The open cells of a stack, the highest place last.
ghost use Rattle.std.specs.Prelude.{◌≡◌, ℕ, ◌<◌, ◌-◌, map, length, Some, slice_get, get_or, slice_set, MatchOption, MatchResult};
ghost use Rattle.lua_model.specs.declared.Value.TheVariants.{Nil};
ghost use Rattle.lua_heap.specs.State.{datum, held};
ghost use Rattle.upvalue.specs.Shared.{AreInOrder};
ghost use Rattle.upvalue.specs.Gaps.{IsGap, Fits, closed};

use lua_heap::{Cell, CellId, Heap};
use lua_model::Value;

/// A cell that stands for a register, by the register's place.
#[derive(Clone, Copy, Debug, Drop)]
pub struct OpenCell {
    pub place: usize,
    pub cell: CellId,
}

/// The open cell of a place, or how many open cells have lower places. In time linear in those that have higher ones.
pub(crate) fn find(shared: &[OpenCell], place: usize) -> Result<CellId, usize>
    requires { AreInOrder shared.now }
    ensures { MatchResult result (λ cell. (i : ℕ) × (slice_get shared.now i ≡ Some (record { place = place; cell = cell }))) (λ at. IsGap shared.now place at) }
{
    let mut at = shared.len();
    while at > 0 {
        let highest = shared[at - 1];
        if highest.place == place {
            return Ok(highest.cell);
        }
        if highest.place < place {
            return Err(at);
        }
        at -= 1;
    }
    Err(0)
}

/// The cells of this place and of higher ones take the values there. In time linear in their number.
pub(crate) fn close_places(
    shared: &mut Vec<OpenCell>,
    heap: &mut Heap,
    values: &[Value],
    from: usize,
)
    requires { Fits values.now shared.old.items heap.old }
    ensures cells { heap.new ≡ record heap.old { cells = map (closed heap.old values.now from) heap.old.cells } }
    ensures fits { Fits values.now shared.new.items heap.new }
    ensures low { (i : ℕ) (o : OpenCell) → slice_get shared.new.items i ≡ Some o → o.place < from }
{
    while let Some(last) = highest(shared) {
        if last.place < from {
            return;
        }
        close_last(shared, heap, values, last);
    }
}

fn highest(shared: &Vec<OpenCell>) -> Option<OpenCell>
    ensures { MatchOption result (length shared.now.items ≡ 0) (λ o. slice_get shared.now.items (length shared.now.items - 1) ≡ Some o) }
{
    shared.last().copied()
}

// The cell of the highest place takes the value there.
fn close_last(shared: &mut Vec<OpenCell>, heap: &mut Heap, values: &[Value], last: OpenCell)
    requires fits { Fits values.now shared.old.items heap.old }
    requires last { slice_get shared.old.items (length shared.old.items - 1) ≡ Some last }
    ensures cells { heap.new ≡ record heap.old { cells = slice_set heap.old.cells last.cell.index (held (datum heap.old (get_or values.now last.place Nil))) } }
    ensures fits { Fits values.now shared.new.items heap.new }
    ensures fewer { length shared.new.items < length shared.old.items }
{
    heap.set_cell(last.cell, Cell::Held(values[last.place]));
    let _ = shared.pop();
}

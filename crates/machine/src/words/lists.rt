// Lists of values: of arguments, of results and of constructors.
ghost use Rattle.std.specs.Prelude.{◌≡◌, ◌++◌, take, drop, IfOk};
ghost use Rattle.lua_heap.specs.State.{HeapState, AreOf};
ghost use Rattle.machine.specs.Words.{AreThere, IsListed, GivesList, AreResultsOf};

use crate::did::OpenResults;
use lua_heap::ValueList;
use lua_model::Value;
use std::alloc::{AllocError, Global};

/// A list of values: so many registers from the first on, or up to the open results and these, which are then taken.
pub fn listed(
    alloc: Global,
    registers: &[Value],
    results: &mut Option<OpenResults>,
    first: u32,
    count: Option<u32>,
) -> Result<ValueList, AllocError>
    requires there { IsListed registers.now results.old first count }
    ensures list { IfOk result (GivesList registers.now results.old results.new first count) }
    ensures known { IfOk result (λ list. (h : HeapState) → AreOf h registers.now → AreResultsOf h results.old → AreOf h list) }
    ensures results { (h : HeapState) → AreResultsOf h results.old → AreResultsOf h results.new }
{
    match count {
        Some(count) => ValueList::from_slice(alloc, part(registers, first, count)),
        None => match results.take() {
            Some(open) => {
                let between = part(registers, first, open.first - first);
                joined(alloc, between, open.values)
            }
            None => unreachable!(),
        },
    }
}

/// So many registers from the first on.
fn part(registers: &[Value], first: u32, count: u32) -> &[Value]
    requires there { AreThere registers.now first count }
    ensures { result.now ≡ take count (drop first registers.now) }
{
    if count == 0 {
        return &registers[..0];
    }
    let first = first as usize;
    &registers[first..first + count as usize]
}

/// Values and a list behind them. In constant time where there are no values.
pub fn joined(alloc: Global, values: &[Value], list: ValueList) -> Result<ValueList, AllocError>
    ensures { IfOk result (λ all. all ≡ values.now ++ list) }
{
    if values.is_empty() {
        return Ok(list);
    }
    let mut all = ValueList::from_slice(alloc, values)?;
    for value in list.items() {
        all.push(*value)?;
    }
    Ok(all)
}

// The arms of an `if`: where one may begin, and how.

ghost use Rattle.std.specs.Prelude.{◌≡◌, ◌<◌, ◌∷◌, ◌++◌, [], map, false, option_and_then, option_to_list, slice_index_or, IfOk, IfSome, OnOk};
ghost use Rattle.recover_flow.specs.Arms.{arm_starts, first_true, first_ways, further_ways, last_begin, last_part, longest, noted, nothing_seen, number_behind, one_past, or_true, seen_with, target_ahead, tested_ways, tests_at, tests_from, tests_there, true_way, view_start, way_before, way_last, with_next, with_target};
ghost use Rattle.recover_flow.specs.Tabled.{AreTables};

use crate::forms::step_behind;
use crate::regions::{BodyAt, BranchesAt, Piece};
use crate::tables::{Lengths, Tables};
use std::alloc::{AllocError, Global};

/// A condition of tests that may stand from the beginning of an arm: where it ends, and where it goes.
#[derive(Clone, Copy, Debug, PartialEq, Eq)]
struct Tests {
    end: usize,
    target: usize,
}

/// A way in which an arm may stand: behind its tests, or with the condition `true` where it has none, its block, and where the next arm or the `else` begins, if there is one.
#[derive(Clone, Copy, Debug, PartialEq, Eq)]
pub struct Way {
    pub tests_end: Option<usize>,
    pub block_end: usize,
    pub next: Option<usize>,
}

/// A place at which an arm may begin, and the ways in which it may.
#[derive(Drop)]
pub struct Start {
    pub place: usize,
    pub ways: Vec<Way>,
}

/// The targets past a place, so far as tells whether they are one: the furthest, and the furthest but that.
#[derive(Clone, Copy, Debug, PartialEq, Eq)]
struct Targets {
    furthest: usize,
    second: usize,
}

/// The tests so far: where they go, and whether one of them is a bare jump.
#[derive(Clone, Copy, Debug, PartialEq, Eq)]
struct Seen {
    targets: Targets,
    has_bare: bool,
}

impl Targets {
    fn with(self, target: usize) -> Self
        ensures { result ≡ with_target target self }
    {
        if target > self.furthest {
            return Targets {
                furthest: target,
                second: self.furthest,
            };
        }
        if target < self.furthest {
            return Targets {
                furthest: self.furthest,
                second: self.second.max(target),
            };
        }
        self
    }

    // The one target past a place, or the place where there is none.
    fn one_past(self, place: usize) -> Option<usize>
        ensures { result ≡ one_past self place }
    {
        if self.second > place {
            return None;
        }
        Some(self.furthest.max(place))
    }
}

impl Seen {
    fn nothing() -> Self
        ensures { result ≡ nothing_seen }
    {
        Seen {
            targets: Targets {
                furthest: 0,
                second: 0,
            },
            has_bare: false,
        }
    }

    // The condition that ends at a place, if it is one of those that are wanted.
    fn tests_there(self, bare: bool, end: usize) -> Option<Tests>
        ensures { result ≡ tests_there bare end self }
    {
        if self.has_bare != bare {
            return None;
        }
        let target = self.targets.one_past(end)?;
        Some(Tests { end, target })
    }
}

fn longest(bare: bool, lengths: Lengths) -> usize
    ensures { result ≡ longest bare lengths }
{
    if bare { lengths.jumps } else { lengths.tests }
}

impl Tables<'_> {
    // Where the test or the jump at a place goes, if it goes ahead and not past an end.
    fn target_ahead(&self, to: usize, place: usize) -> Option<usize>
        requires tabled { AreTables self.now }
        ensures target { result ≡ target_ahead self.now.steps.now to place }
        ensures ahead { IfSome result (λ target. place < target) }
    {
        let target = self.test_target(place)?;
        if place < target && target <= to {
            Some(target)
        } else {
            None
        }
    }

    // With the test at a place, which goes to a target.
    fn seen_with(&self, place: usize, target: usize, seen: Seen) -> Seen
        requires tabled { AreTables self.now }
        ensures { result ≡ seen_with self.now.steps.now place target seen }
    {
        Seen {
            targets: seen.targets.with(target),
            has_bare: seen.has_bare || self.jumps_to(place, target),
        }
    }

    // The conditions that end behind one of so many places, none of which goes past an end; the shortest first.
    fn tests_from(
        &self,
        alloc: Global,
        from: usize,
        to: usize,
        bare: bool,
        count: usize,
    ) -> Result<Vec<Tests>, AllocError>
        requires tabled { AreTables self.now }
        ensures { IfOk result (λ tests. tests.items ≡ tests_from self.now.steps.now to bare nothing_seen from count) }
    {
        let mut tests = Vec::new(alloc);
        let mut seen = Seen::nothing();
        let mut place = from;
        for _ in 0..count {
            let Some(target) = self.target_ahead(to, place) else {
                return Ok(tests);
            };
            seen = self.seen_with(place, target, seen);
            place += 1;
            push_some(&mut tests, seen.tests_there(bare, place))?;
        }
        Ok(tests)
    }

    // The conditions that may stand from a place on, none of which goes past an end. Those of tests alone, the longest first; or, `bare`, those with a bare jump, the shortest first.
    fn tests(
        &self,
        alloc: Global,
        from: usize,
        to: usize,
        bare: bool,
    ) -> Result<Vec<Tests>, AllocError>
        requires tabled { AreTables self.now }
        ensures { IfOk result (λ tests. tests.items ≡ tests_at self.now.steps.now from to bare) }
    {
        let count = longest(bare, self.lengths_after(from, to));
        let mut tests = self.tests_from(alloc, from, to, bare, count)?;
        if !bare {
            tests.reverse();
        }
        Ok(tests)
    }

    // The way in which an arm may stand behind tests that go to the place of the next arm.
    fn way_before(&self, at: BranchesAt, tests: Tests) -> Option<Way>
        requires tabled { AreTables self.now }
        ensures { result ≡ way_before self.now.steps.now at tests }
    {
        let target = tests.target;
        if target > tests.end && self.jumps_to(target - 1, at.to) {
            return Some(Way {
                tests_end: Some(tests.end),
                block_end: target - 1,
                next: Some(target),
            });
        }
        None
    }

    // The ways in which an arm may begin with tests.
    fn tested_ways(
        &self,
        alloc: Global,
        at: BranchesAt,
        from: usize,
        bare: bool,
        ways: &mut Vec<Way>,
    ) -> Result<(), AllocError>
        requires tabled { AreTables self.now }
        ensures { OnOk result (ways.new.items ≡ ways.old.items ++ tested_ways self.now.steps.now at from bare) }
    {
        for tests in &self.tests(alloc, from, at.to, bare)? {
            push_some(ways, self.way_before(at, *tests))?;
            push_some(ways, way_last(at, *tests))?;
        }
        Ok(())
    }

    // The way in which an arm may stand with the condition `true`, whose block ends with the jump at a place.
    fn true_way(&self, at: BranchesAt, jump: usize) -> Option<Way>
        requires tabled { AreTables self.now }
        ensures { result ≡ true_way self.now.steps.now at jump }
    {
        let next = step_behind(self.steps(), jump)?;
        if !self.jumps_to(jump, at.to) {
            return None;
        }
        Some(Way {
            tests_end: None,
            block_end: jump,
            next: Some(next),
        })
    }

    // Where the first of these pieces begins that begins with a jump there, or else the last one.
    fn last_begin(&self, to: usize, pieces: &[Piece]) -> Option<usize>
        requires tabled { AreTables self.now }
        ensures { result ≡ last_begin self.now.steps.now to None pieces.now }
    {
        let mut last = None;
        for piece in pieces {
            if self.jumps_to(piece.from, to) {
                return Some(piece.from);
            }
            last = Some(piece.from);
        }
        last
    }

    // So in the block that goes on to the end of an `if`.
    fn last_part(
        &self,
        alloc: Global,
        at: BranchesAt,
        from: usize,
    ) -> Result<Option<usize>, AllocError>
        requires tabled { AreTables self.now }
        ensures { IfOk result (λ last. last ≡ last_part self.now.steps.now at from) }
    {
        let block = BodyAt::plain(from, at.to, at.exit);
        let Some(pieces) = self.pieces(alloc, block)? else {
            return Ok(None);
        };
        Ok(self.last_begin(at.to, &pieces))
    }

    fn first_true(&self, at: BranchesAt) -> Option<Way>
        requires tabled { AreTables self.now }
        ensures { result ≡ first_true self.now.steps.now at }
    {
        if at.bare {
            self.true_way(at, at.from)
        } else {
            None
        }
    }

    // The ways in which the first arm may stand.
    fn first_ways(&self, alloc: Global, at: BranchesAt) -> Result<Vec<Way>, AllocError>
        requires tabled { AreTables self.now }
        ensures { IfOk result (λ ways. ways.items ≡ first_ways self.now.steps.now at) }
    {
        let mut ways = Vec::new(alloc);
        self.tested_ways(alloc, at, at.from, at.bare, &mut ways)?;
        push_some(&mut ways, self.first_true(at))?;
        Ok(ways)
    }

    // The way with the condition `true`, where there is no other one.
    fn or_true(
        &self,
        alloc: Global,
        at: BranchesAt,
        from: usize,
        ways: &mut Vec<Way>,
    ) -> Result<(), AllocError>
        requires tabled { AreTables self.now }
        ensures { OnOk result (ways.new.items ≡ or_true self.now.steps.now at from ways.old.items) }
    {
        if !ways.is_empty() {
            return Ok(());
        }
        let Some(jump) = self.last_part(alloc, at, from)? else {
            return Ok(());
        };
        push_some(ways, self.true_way(at, jump))?;
        Ok(())
    }

    // The ways in which a further arm may stand.
    fn further_ways(
        &self,
        alloc: Global,
        at: BranchesAt,
        from: usize,
    ) -> Result<Vec<Way>, AllocError>
        requires tabled { AreTables self.now }
        ensures { IfOk result (λ ways. ways.items ≡ further_ways self.now.steps.now at from) }
    {
        let mut ways = Vec::new(alloc);
        self.tested_ways(alloc, at, from, false, &mut ways)?;
        self.or_true(alloc, at, from, &mut ways)?;
        self.tested_ways(alloc, at, from, true, &mut ways)?;
        Ok(ways)
    }

    /// The places at which an arm may begin, in order.
    pub fn arm_starts(&self, alloc: Global, at: BranchesAt) -> Result<Vec<Start>, AllocError>
        requires tabled { AreTables self.now }
        ensures { IfOk result (λ starts. map view_start starts.items ≡ arm_starts self.now.steps.now at) }
    {
        let mut starts = Vec::new(alloc);
        let ways = self.first_ways(alloc, at)?;
        let count = at.to.saturating_sub(at.from);
        let mut reached = vec![in alloc; false; count]?;
        let first = Start {
            place: at.from,
            ways,
        };
        add_start(&mut starts, &mut reached, at.from, first)?;
        for number in 1..count {
            if !is_reached(&reached, number) {
                continue;
            }
            let place = at.from + number;
            let ways = self.further_ways(alloc, at, place)?;
            let start = Start { place, ways };
            add_start(&mut starts, &mut reached, at.from, start)?;
        }
        Ok(starts)
    }
}

// The way in which an arm may stand behind tests that go to the end of the `if`.
fn way_last(at: BranchesAt, tests: Tests) -> Option<Way>
    ensures { result ≡ way_last at tests }
{
    if tests.target == at.to {
        return Some(Way {
            tests_end: Some(tests.end),
            block_end: at.to,
            next: None,
        });
    }
    None
}

fn push_some<T: Drop>(items: &mut Vec<T>, item: Option<T>) -> Result<(), AllocError>
    ensures { OnOk result (items.new.items ≡ items.old.items ++ option_to_list item) }
{
    if let Some(item) = item {
        items.push(item)?;
    }
    Ok(())
}

// The number of a place behind the first one.
fn number_behind(from: usize, place: Option<usize>) -> Option<usize>
    ensures { result ≡ option_and_then (number_behind from) place }
{
    place?.checked_sub(from)
}

fn note(reached: &mut Vec<bool>, number: Option<usize>)
    ensures { reached.new.items ≡ noted reached.old.items number }
{
    let Some(number) = number else {
        return;
    };
    if let Some(entry) = reached.get_mut(number) {
        *entry = true;
    }
}

fn is_reached(reached: &[bool], number: usize) -> bool
    ensures { result ≡ slice_index_or reached.now number false }
{
    reached.get(number).copied().unwrap_or(false)
}

// Notes where an arm begins behind another one.
fn note_next(reached: &mut Vec<bool>, from: usize, ways: &[Way])
    ensures { reached.new.items ≡ with_next from ways.now reached.old.items }
{
    for way in ways {
        note(reached, number_behind(from, way.next));
    }
}

// Adds a place at which an arm may begin, and notes those behind it.
fn add_start(
    starts: &mut Vec<Start>,
    reached: &mut Vec<bool>,
    from: usize,
    start: Start,
) -> Result<(), AllocError>
    ensures starts { OnOk result (map view_start starts.new.items ≡ map view_start starts.old.items ++ view_start start ∷ []) }
    ensures reached { reached.new.items ≡ with_next from (view_start start).ways reached.old.items }
{
    note_next(reached, from, &start.ways);
    starts.push(start)?;
    Ok(())
}

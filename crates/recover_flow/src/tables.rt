// What is computed of the steps of a function once, for the search.

ghost use Rattle.std.specs.Prelude.{◌≡◌, ◌+◌, ◌-◌, ◌^◌, ◌<◌, ℕ, Bool, min, List, [], length, map, replicate, slice_get, Some, option_map, option_and_then, unwrap_or, if◌then◌else◌, IfOk, OnOk};
ghost use Rattle.std.specs.List.Sorted.{IsNonDecreasing};
ghost use Rattle.recover_expr.specs.declared.steps.Step.{Step};
ghost use Rattle.recover_flow.specs.Asked.{any_between, begins_branches, block_at, closed_before, closes, closes_before, ends_captured, is_exit_at, is_reached, is_this, jump_of, jumps_to, kind_at, last_back, last_below, leaves, length_at, lengths_after, lengths_before, number_before, run_before, run_behind, target_at, target_of, used};
ghost use Rattle.recover_flow.specs.Tabled.{ahead_to, all_ahead, all_back, all_spans, AreAll, AreRuns, AreTables, at_place, back_to, break_noted, captured_end, declared_of, ends_from, exit_of, IsCut, is_before, is_from, is_run, item_before, last_captured, last_ending, last_noted, noted, NoneFrom, starts_to};

use crate::regions::{BlockAt, BodyAt, Exit, Piece};
use recover_expr::{Step, StepKind};
use std::alloc::{AllocError, Global};

/// How many steps a condition may have.
pub const UNITS: usize = 100;

/// The CLOSE of a break, and where that break goes.
#[derive(Clone, Copy, Debug, PartialEq, Eq)]
pub struct Span {
    pub close: usize,
    pub exit: Exit,
}

/// The steps of a function, and by the number of a step, or the count of steps:
#[derive(Drop)]
pub struct Tables<'s> {
    steps: &'s [Step],
    // the tests and jumps that go back to it, in order
    back: Vec<Vec<usize>>,
    // the jumps forward to it, in order
    ahead: Vec<Vec<usize>>,
    // the last declaration of a captured local that ends there
    captured_ends: Vec<Option<usize>>,
    // of a declaration, the breaks that close its locals
    spans: Vec<Vec<Span>>,
    // where the tests that stand there end and begin, and likewise the tests and jumps
    tests: Runs,
    jumps: Runs,
}

/// Where a test or a jump goes.
pub fn test_target(step: Step) -> Option<usize>
    ensures { result ≡ target_of step.kind }
{
    match step.kind {
        StepKind::Test { target, .. } | StepKind::Jump { target } => Some(target),
        _ => None,
    }
}

// Whether it is a bare jump to this target.
fn is_jump(kind: StepKind, target: usize) -> bool
    ensures { result ≡ is_this (jump_of kind) target }
{
    match kind {
        StepKind::Jump { target: to } => to == target,
        _ => false,
    }
}

/// Where the steps of a kind that stand side by side at a place begin before it and end behind it.
#[derive(Drop)]
struct Runs {
    starts: Vec<usize>,
    ends: Vec<usize>,
}

/// Which steps stand side by side.
#[derive(Clone, Copy, Debug, PartialEq, Eq)]
enum Run {
    Tests,
    TestsAndJumps,
}

/// The lengths that a condition may have, in the order in which they are tried: the longest of tests alone first, then the longer ones with jumps.
#[derive(Clone, Copy, Debug, PartialEq, Eq)]
pub struct Lengths {
    pub tests: usize,
    pub jumps: usize,
}

impl Lengths {
    /// The length at a turn, if there are so many.
    pub fn at(self, turn: usize) -> Option<usize>
        ensures { result ≡ length_at self turn }
    {
        if turn <= self.tests {
            return Some(self.tests - turn);
        }
        if turn <= self.jumps { Some(turn) } else { None }
    }
}

impl Run {
    fn has(self, kind: StepKind) -> bool
        ensures { result ≡ is_run self (Some kind) }
    {
        match kind {
            StepKind::Test { .. } => true,
            StepKind::Jump { .. } => match self {
                Run::Tests => false,
                Run::TestsAndJumps => true,
            },
            _ => false,
        }
    }
}

impl Runs {
    fn new(alloc: Global, steps: &[Step], run: Run) -> Result<Self, AllocError>
        ensures { IfOk result (AreRuns steps.now (λ place. is_run run (kind_at steps.now place))) }
    {
        Ok(Self {
            starts: starts(alloc, steps, run)?,
            ends: ends(alloc, steps, run)?,
        })
    }

    // How many of these steps stand behind a place, up to an end.
    fn behind(&self, from: usize, to: usize) -> usize
        ensures { (steps : List Step) (holds : ℕ → Bool) → AreRuns steps holds self.now → NoneFrom holds (length steps) → result ≡ run_behind holds from (min 100 (to - from)) }
    {
        let end = at_or(self.ends.as_slice(), from);
        end.min(to).saturating_sub(from).min(UNITS)
    }

    // How many of these steps stand before a place, from a beginning on.
    fn before(&self, from: usize, to: usize) -> usize
        ensures { (steps : List Step) (holds : ℕ → Bool) → AreRuns steps holds self.now → NoneFrom holds (length steps) → result ≡ run_before holds to (min 100 (to - from)) }
    {
        let start = at_or(self.starts.as_slice(), to);
        to.saturating_sub(start.max(from)).min(UNITS)
    }
}

// What stands there, or else the place.
fn at_or(places: &[usize], place: usize) -> usize
    ensures { result ≡ unwrap_or (slice_get places.now place) place }
{
    match places.get(place) {
        Some(found) => *found,
        None => place,
    }
}

fn starts(alloc: Global, steps: &[Step], run: Run) -> Result<Vec<usize>, AllocError>
    ensures { IfOk result (λ starts. starts.items ≡ starts_to (λ place. is_run run (kind_at steps.now place)) (length steps.now)) }
{
    let mut starts = Vec::new(alloc);
    let mut start = 0;
    starts.push(start)?;
    for (place, step) in steps.iter().enumerate() {
        start = next_start(run, *step, place, start);
        starts.push(start)?;
    }
    Ok(starts)
}

// Where the run begins that goes up to behind a step.
fn next_start(run: Run, step: Step, place: usize, start: usize) -> usize
    requires { place + 1 < 2 ^ 64 }
    ensures { result ≡ (if is_run run (Some step.kind) then start else place + 1) }
{
    if run.has(step.kind) { start } else { place + 1 }
}

fn ends(alloc: Global, steps: &[Step], run: Run) -> Result<Vec<usize>, AllocError>
    ensures { IfOk result (λ ends. ends.items ≡ ends_from (λ place. is_run run (kind_at steps.now place)) 0 (length steps.now)) }
{
    let mut ends = Vec::new(alloc);
    let mut end = steps.len();
    ends.push(end)?;
    for place in (0..steps.len()).rev() {
        end = next_end(run, steps[place], place, end);
        ends.push(end)?;
    }
    ends.reverse();
    Ok(ends)
}

// And where the one ends that begins with it.
fn next_end(run: Run, step: Step, place: usize, end: usize) -> usize
    ensures { result ≡ (if is_run run (Some step.kind) then end else place) }
{
    if run.has(step.kind) { end } else { place }
}

// As many empty lists as there are places.
fn lists<T: Drop>(alloc: Global, steps: &[Step]) -> Result<Vec<Vec<T>>, AllocError>
    ensures { IfOk result (λ lists. map (λ row. row.items) lists.items ≡ replicate (length steps.now + 1) []) }
{
    let mut lists = Vec::new(alloc);
    for _ in 0..=steps.len() {
        lists.push(Vec::new(alloc))?;
    }
    Ok(lists)
}

// Appends to the list of a place, where there is one.
fn note<T: Drop>(lists: &mut Vec<Vec<T>>, place: Option<usize>, item: T) -> Result<(), AllocError>
    ensures { OnOk result ((at : ℕ) → slice_get (map (λ row. row.items) lists.new.items) at ≡ option_map (noted place item at) (slice_get (map (λ row. row.items) lists.old.items) at)) }
{
    let Some(place) = place else {
        return Ok(());
    };
    if let Some(list) = lists.get_mut(place) {
        list.push(item)?;
    }
    Ok(())
}

fn back(alloc: Global, steps: &[Step]) -> Result<Vec<Vec<usize>>, AllocError>
    ensures { IfOk result (λ rows. (place : ℕ) → slice_get (map (λ row. row.items) rows.items) place ≡ at_place steps.now (all_back steps.now) place) }
{
    let mut back = lists(alloc, steps)?;
    for (place, step) in steps.iter().enumerate() {
        note(&mut back, back_to(*step, place), place)?;
    }
    Ok(back)
}

// Where a step goes back to.
fn back_to(step: Step, place: usize) -> Option<usize>
    ensures { result ≡ back_to place (target_of step.kind) }
{
    match test_target(step) {
        Some(target) if target <= place => Some(target),
        _ => None,
    }
}

fn ahead(alloc: Global, steps: &[Step]) -> Result<Vec<Vec<usize>>, AllocError>
    ensures { IfOk result (λ rows. (place : ℕ) → slice_get (map (λ row. row.items) rows.items) place ≡ at_place steps.now (all_ahead steps.now) place) }
{
    let mut ahead = lists(alloc, steps)?;
    for (place, step) in steps.iter().enumerate() {
        note(&mut ahead, ahead_to(*step, place), place)?;
    }
    Ok(ahead)
}

// Where a jump goes forward to.
fn ahead_to(step: Step, place: usize) -> Option<usize>
    ensures { result ≡ ahead_to place (jump_of step.kind) }
{
    match step.kind {
        StepKind::Jump { target } if target > place => Some(target),
        _ => None,
    }
}

fn spans(alloc: Global, steps: &[Step]) -> Result<Vec<Vec<Span>>, AllocError>
    ensures { IfOk result (λ rows. (place : ℕ) → slice_get (map (λ row. row.items) rows.items) place ≡ at_place steps.now (all_spans steps.now) place) }
{
    let mut spans = lists(alloc, steps)?;
    for (close, step) in steps.iter().enumerate() {
        note_break(&mut spans, steps, close, *step)?;
    }
    Ok(spans)
}

// Appends the break whose CLOSE a step is.
fn note_break(
    spans: &mut Vec<Vec<Span>>,
    steps: &[Step],
    close: usize,
    step: Step,
) -> Result<(), AllocError>
    requires { close < length steps.now }
    ensures { OnOk result ((at : ℕ) → slice_get (map (λ row. row.items) spans.new.items) at ≡ option_map (break_noted (declared_of step.kind) close (exit_of steps.now close step.base step.kind) at) (slice_get (map (λ row. row.items) spans.old.items) at)) }
{
    if let Some(exit) = exit_of(steps, close, step) {
        note(spans, declared_of(step), Span { close, exit })?;
    }
    Ok(())
}

// The declaration that a CLOSE names.
fn declared_of(step: Step) -> Option<usize>
    ensures { result ≡ declared_of step.kind }
{
    match step.kind {
        StepKind::Close { declared, .. } => declared,
        _ => None,
    }
}

// Where the break goes whose CLOSE a step is.
fn exit_of(steps: &[Step], close: usize, step: Step) -> Option<Exit>
    requires { close < length steps.now }
    ensures { result ≡ exit_of steps.now close step.base step.kind }
{
    let StepKind::Close { from, .. } = step.kind else {
        return None;
    };
    if from >= step.base {
        return None;
    }
    match steps.get(close + 1)?.kind {
        StepKind::Jump { target } if target > close + 1 => Some(Exit {
            place: target,
            locals: from,
        }),
        _ => None,
    }
}

fn captured_ends(alloc: Global, steps: &[Step]) -> Result<Vec<Option<usize>>, AllocError>
    ensures { IfOk result (λ ends. (place : ℕ) → slice_get ends.items place ≡ at_place steps.now (last_ending steps.now) place) }
{
    let mut last = vec![in alloc; None; steps.len() + 1]?;
    for (place, step) in steps.iter().enumerate() {
        note_last(&mut last, captured_end(*step), place);
    }
    Ok(last)
}

// Where captured locals end that a step declares.
fn captured_end(step: Step) -> Option<usize>
    ensures { result ≡ captured_end step.kind }
{
    match step.kind {
        StepKind::Declaration {
            end,
            captured: true,
        } => Some(end),
        _ => None,
    }
}

// Where captured locals end, the last declaration is this one.
fn note_last(last: &mut Vec<Option<usize>>, end: Option<usize>, place: usize)
    ensures { (at : ℕ) → slice_get last.new.items at ≡ option_map (last_noted end place at) (slice_get last.old.items at) }
{
    let Some(end) = end else {
        return;
    };
    if let Some(entry) = last.get_mut(end) {
        *entry = Some(place);
    }
}

// How many of these numbers, which rise, are below an end.
fn count_below(numbers: &[usize], end: usize) -> usize
    ensures { IsNonDecreasing numbers.now → IsCut numbers.now end result }
{
    numbers.partition_point(|number| *number < end)
}

// The last of these numbers below an end.
fn last_number(numbers: &[usize], end: usize) -> Option<usize>
    ensures { (holds : ℕ → Bool) → AreAll numbers.now holds → result ≡ last_below holds end }
{
    item_before(numbers, count_below(numbers, end))
}

// The last of the first so many.
fn item_before(numbers: &[usize], many: usize) -> Option<usize>
    ensures { result ≡ item_before numbers.now many }
{
    let last = many.checked_sub(1)?;
    numbers.get(last).copied()
}

// Whether one of these numbers is from one on, and below another.
fn any_number(numbers: &[usize], from: usize, to: usize) -> bool
    ensures { (holds : ℕ → Bool) → AreAll numbers.now holds → result ≡ any_between holds from to }
{
    is_before(item(numbers, count_below(numbers, from)), to)
}

fn item(numbers: &[usize], place: usize) -> Option<usize>
    ensures { result ≡ slice_get numbers.now place }
{
    numbers.get(place).copied()
}

fn is_before(number: Option<usize>, to: usize) -> bool
    ensures { result ≡ is_before to number }
{
    match number {
        Some(number) => number < to,
        None => false,
    }
}

fn is_from(number: Option<usize>, from: usize) -> bool
    ensures { result ≡ is_from from number }
{
    match number {
        Some(number) => from <= number,
        None => false,
    }
}

impl<'s> Tables<'s> {
    pub fn new(alloc: Global, steps: &'s [Step]) -> Result<Self, AllocError>
        ensures tabled { IfOk result AreTables }
        ensures steps { IfOk result (λ tables. tables.steps.now ≡ steps.now) }
    {
        Ok(Self {
            steps,
            back: back(alloc, steps)?,
            ahead: ahead(alloc, steps)?,
            captured_ends: captured_ends(alloc, steps)?,
            spans: spans(alloc, steps)?,
            tests: Runs::new(alloc, steps, Run::Tests)?,
            jumps: Runs::new(alloc, steps, Run::TestsAndJumps)?,
        })
    }

    pub fn steps(&self) -> &'s [Step]
        ensures { result.now ≡ self.now.steps.now }
    {
        self.steps
    }

    /// The step of a number.
    pub fn step(&self, place: usize) -> Option<Step>
        ensures { result ≡ slice_get self.now.steps.now place }
    {
        self.steps.get(place).copied()
    }

    /// What the step of a number is.
    pub fn kind(&self, place: usize) -> Option<StepKind>
        ensures { result ≡ kind_at self.now.steps.now place }
    {
        Some(self.step(place)?.kind)
    }

    /// Where the test or the jump at a place goes.
    pub fn test_target(&self, place: usize) -> Option<usize>
        ensures { result ≡ target_at self.now.steps.now place }
    {
        test_target(self.step(place)?)
    }

    /// Whether a bare jump to this target stands at a place.
    pub fn jumps_to(&self, place: usize, target: usize) -> bool
        ensures { result ≡ jumps_to self.now.steps.now place target }
    {
        match self.kind(place) {
            Some(kind) => is_jump(kind, target),
            None => false,
        }
    }

    /// The last test or jump before an end that goes back to a place.
    pub fn last_back(&self, place: usize, to: usize) -> Option<usize>
        requires tabled { AreTables self.now }
        ensures { result ≡ last_back self.now.steps.now place to }
    {
        last_number(self.jumps_back(place), to)
    }

    // The tests and jumps that go back to a place.
    fn jumps_back(&self, place: usize) -> &[usize]
        requires tabled { AreTables self.now }
        ensures { result.now ≡ unwrap_or (at_place self.now.steps.now (all_back self.now.steps.now) place) [] }
    {
        match self.back.get(place) {
            Some(jumps) => jumps.as_slice(),
            None => &[],
        }
    }

    /// Whether a bare jump goes forward to a place from one between these.
    pub fn is_reached(&self, place: usize, from: usize, to: usize) -> bool
        requires tabled { AreTables self.now }
        ensures { result ≡ is_reached self.now.steps.now place from to }
    {
        any_number(self.jumps_ahead(place), from, to)
    }

    // The jumps forward to a place.
    fn jumps_ahead(&self, place: usize) -> &[usize]
        requires tabled { AreTables self.now }
        ensures { result.now ≡ unwrap_or (at_place self.now.steps.now (all_ahead self.now.steps.now) place) [] }
    {
        match self.ahead.get(place) {
            Some(jumps) => jumps.as_slice(),
            None => &[],
        }
    }

    /// The exit, where a jump between these places goes there.
    pub fn used(&self, exit: Option<Exit>, from: usize, to: usize) -> Option<Exit>
        requires tabled { AreTables self.now }
        ensures { result ≡ used self.now.steps.now exit from to }
    {
        match exit {
            Some(exit) if self.is_reached(exit.place, from, to) => Some(exit),
            _ => None,
        }
    }

    /// Whether a captured local that is declared from this place on ends there.
    pub fn ends_captured(&self, end: usize, from: usize) -> bool
        requires tabled { AreTables self.now }
        ensures { result ≡ ends_captured self.now.steps.now end from }
    {
        is_from(self.last_captured(end), from)
    }

    // The last declaration of a captured local that ends there.
    fn last_captured(&self, end: usize) -> Option<usize>
        requires tabled { AreTables self.now }
        ensures { result ≡ last_captured self.now.steps.now end }
    {
        match self.captured_ends.get(end) {
            Some(last) => *last,
            None => None,
        }
    }

    /// The breaks that close the locals of a declaration.
    pub fn spans(&self, declaration: usize) -> &[Span]
        requires tabled { AreTables self.now }
        ensures { result.now ≡ unwrap_or (at_place self.now.steps.now (all_spans self.now.steps.now) declaration) [] }
    {
        match self.spans.get(declaration) {
            Some(spans) => spans.as_slice(),
            None => &[],
        }
    }

    /// Whether the locals from this register on are closed at a place.
    pub fn closes(&self, place: usize, locals: u32) -> bool
        ensures { result ≡ closes self.now.steps.now place locals }
    {
        match self.kind(place) {
            Some(StepKind::Close { from, .. }) => from == locals,
            _ => false,
        }
    }

    // Whether they are before a place.
    fn closes_before(&self, place: usize, locals: u32) -> bool
        ensures { result ≡ closes_before self.now.steps.now place locals }
    {
        match place.checked_sub(1) {
            Some(before) => self.closes(before, locals),
            None => false,
        }
    }

    /// Whether the jump at a place is a break to this exit.
    pub fn leaves(&self, place: usize, exit: Exit) -> bool
        ensures { result ≡ leaves self.now.steps.now place exit }
    {
        match self.step(place) {
            Some(step) => {
                is_jump(step.kind, exit.place)
                    && (step.captured <= exit.locals || self.closes_before(place, exit.locals))
            }
            None => false,
        }
    }

    /// Whether an `if` may begin with a piece of a body and go on to its end, which is the exit.
    pub fn begins_branches(&self, at: BodyAt, piece: Piece) -> bool
        requires tabled { AreTables self.now }
        ensures { result ≡ begins_branches self.now.steps.now at piece }
    {
        is_exit_at(at.exit, at.to)
            && piece.to < at.to
            && self.test_target(piece.from).is_some()
            && self.last_back(piece.from, at.to).is_none()
    }

    /// The lengths of a condition that begins at a place and ends at most there.
    pub fn lengths_after(&self, from: usize, to: usize) -> Lengths
        requires tabled { AreTables self.now }
        ensures { result ≡ lengths_after self.now.steps.now from to }
    {
        Lengths {
            tests: self.tests.behind(from, to),
            jumps: self.jumps.behind(from, to),
        }
    }

    /// The lengths of a condition that ends at a place and begins at least there.
    pub fn lengths_before(&self, from: usize, to: usize) -> Lengths
        requires tabled { AreTables self.now }
        ensures { result ≡ lengths_before self.now.steps.now from to }
    {
        Lengths {
            tests: self.tests.before(from, to),
            jumps: self.jumps.before(from, to),
        }
    }

    /// A block, which a CLOSE ends where one of its own locals may be captured.
    pub fn block(&self, from: usize, to: usize, exit: Option<Exit>) -> BlockAt
        requires tabled { AreTables self.now }
        ensures { result ≡ block_at self.now.steps.now from to exit }
    {
        BlockAt {
            closed: self.closed(from, to, exit),
            whole: BodyAt::plain(from, to, exit),
        }
    }

    fn closed(&self, from: usize, to: usize, exit: Option<Exit>) -> Option<BodyAt>
        requires tabled { AreTables self.now }
        ensures { result ≡ option_and_then (closed_before self.now.steps.now from exit) (number_before to) }
    {
        let end = to.checked_sub(1)?;
        let step = self.step(end)?;
        if end >= from && self.closes(end, step.base) && self.ends_captured(end, from) {
            return Some(BodyAt {
                from,
                to: end,
                locals_end: end,
                may_capture: true,
                exit,
            });
        }
        None
    }
}

fn is_exit_at(exit: Option<Exit>, place: usize) -> bool
    ensures { result ≡ is_exit_at exit place }
{
    match exit {
        Some(exit) => exit.place == place,
        None => false,
    }
}

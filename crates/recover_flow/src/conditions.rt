// Conditions: tests and jumps that stand side by side.

ghost use Rattle.std.specs.Global.{Vec};
ghost use Rattle.std.specs.Prelude.{◌≡◌, Some, None, option_map, IfOk};
ghost use Rattle.recover_flow.specs.Asked.{target_at};
ghost use Rattle.recover_flow.specs.Conditions.{no_conditions, and_condition, view_condition, conditions_of, literal_of, is_junction, parts_in, joined_with, idle_junction, idle_of, turned_to, junction_to, empty_part, part_with, condition_parts, leaf_of, unit_of, part_goal, part_before, joined_parts, only_part, of_parts, condition_within, condition_of, junction_of, is_enclosed, test_levels, enclosed_levels, condition_levels, first_levels};

use crate::regions::ConditionAt;
use crate::tables::{UNITS, test_target};
use recover_expr::{Step, StepKind};
use std::alloc::{AllocError, Global};

/// How deep conditions are looked for in conditions: at most twice for each length.
const DEPTH: usize = 2 * UNITS;

/// What joins conditions.
#[derive(Clone, Copy, Debug, PartialEq, Eq)]
pub enum Junction {
    And,
    Or,
}

impl Junction {
    // Whether it is another one.
    fn is(self, other: Self) -> bool
        ensures { result ≡ is_junction self other }
    {
        self == other
    }
}

/// A condition by the numbers of its steps.
#[derive(Drop)]
pub enum Condition {
    Test {
        step: usize,
        negated: bool,
    },
    True,
    False,
    /// The parts are joined from the left.
    Joined {
        junction: Junction,
        parts: Vec<Condition>,
    },
}

/// Where a condition goes: to the target where its truth is `sense`.
#[derive(Clone, Copy, Debug, PartialEq, Eq)]
struct Goal {
    sense: bool,
    target: usize,
}

impl Goal {
    // The condition that goes to the end of its steps where this one comes there.
    fn turned(self, target: usize) -> Self
        ensures { result ≡ turned_to self target }
    {
        Self {
            sense: !self.sense,
            target,
        }
    }

    // What joins a condition that goes there to the one behind it.
    fn junction(self) -> Junction
        ensures { result ≡ junction_to self }
    {
        if self.sense {
            Junction::Or
        } else {
            Junction::And
        }
    }
}

/// Steps of a condition that no jump from before goes past, but to the two exits of the condition; whether one goes to its target, and whether one goes to its end.
#[derive(Clone, Copy, Debug, PartialEq, Eq)]
struct Part {
    from: usize,
    to: usize,
    there: bool,
    end: bool,
}

impl Part {
    // One that begins at a place.
    fn empty(place: usize) -> Self
        ensures { result ≡ empty_part place }
    {
        Self {
            from: place,
            to: place,
            there: false,
            end: false,
        }
    }

    // With the step at a place, which goes to `goes`; the condition ends at `end` and goes to a target.
    fn with(mut self, target: usize, end: usize, place: usize, goes: usize) -> Option<Self>
        ensures { result ≡ part_with target end place self goes }
    {
        if goes == target {
            self.there = true;
        } else if goes == end {
            self.end = true;
        } else if place < goes && goes < end {
            self.to = self.to.max(goes);
        } else {
            return None;
        }
        Some(self)
    }

    // Where it goes in a condition that ends at a place.
    fn goal(self, to: usize, goal: Goal) -> Goal
        ensures { result ≡ part_goal to goal self }
    {
        if self.end { goal.turned(to) } else { goal }
    }
}

/// The condition that stands at a place, if one does.
pub fn condition_at(
    alloc: Global,
    steps: &[Step],
    at: ConditionAt,
) -> Result<Option<Condition>, AllocError>
    ensures { IfOk result (λ found. option_map view_condition found ≡ condition_of steps.now at) }
{
    let goal = Goal {
        sense: false,
        target: at.target,
    };
    let found = jumps(alloc, steps, at.from, at.to, goal, DEPTH)?;
    Ok(found)
}

// The condition that the steps between two places are. They go to the goal's target where its truth is the goal's sense, and else come to the end.
#[cycle(jumps)]
fn jumps(
    alloc: Global,
    steps: &[Step],
    from: usize,
    to: usize,
    goal: Goal,
    depth: usize,
) -> Result<Option<Condition>, AllocError>
    ensures { IfOk result (λ found. option_map view_condition found ≡ condition_within steps.now depth from to goal) }
{
    let Some(less) = depth.checked_sub(1) else {
        return Ok(None);
    };
    let Some(stretch) = steps.get(from..to) else {
        return Ok(None);
    };
    match stretch {
        [] => Ok(Some(literal(!goal.sense))),
        [step] => {
            let found = unit(alloc, *step, from, to, goal)?;
            Ok(found)
        }
        _ => {
            let Some(parts) = parts(alloc, steps, from, to, goal.target)? else {
                return Ok(None);
            };
            let found = parts_jumps(alloc, steps, from, to, goal, parts.as_slice(), less)?;
            Ok(found)
        }
    }
}

// The condition of these parts.
#[cycle(jumps)]
fn parts_jumps(
    alloc: Global,
    steps: &[Step],
    from: usize,
    to: usize,
    goal: Goal,
    parts: &[Part],
    depth: usize,
) -> Result<Option<Condition>, AllocError>
    ensures { IfOk result (λ found. option_map view_condition found ≡ of_parts (condition_within steps.now depth) from to goal parts.now) }
{
    if let [only] = parts {
        let found = only_jumps(alloc, steps, from, to, goal, *only, depth)?;
        return Ok(found);
    }
    let found = all_jumps(alloc, steps, parts, to, goal, depth)?;
    Ok(found)
}

// The condition of a part that is the whole, and goes to its end.
#[cycle(jumps)]
fn only_jumps(
    alloc: Global,
    steps: &[Step],
    from: usize,
    to: usize,
    goal: Goal,
    only: Part,
    depth: usize,
) -> Result<Option<Condition>, AllocError>
    ensures { IfOk result (λ found. option_map view_condition found ≡ only_part (condition_within steps.now depth) from to goal only) }
{
    if only.there || goal.target == to {
        return Ok(None);
    }
    let Some(inner) = jumps(alloc, steps, from, to, goal.turned(to), depth)? else {
        return Ok(None);
    };
    Ok(Some(idle(alloc, inner, goal.sense)?))
}

// The condition of several parts, joined from the right.
#[cycle(jumps)]
fn all_jumps(
    alloc: Global,
    steps: &[Step],
    parts: &[Part],
    to: usize,
    goal: Goal,
    depth: usize,
) -> Result<Option<Condition>, AllocError>
    ensures { IfOk result (λ found. option_map view_condition found ≡ joined_parts (condition_within steps.now depth) to goal parts.now) }
{
    let Some(mut number) = parts.len().checked_sub(1) else {
        return Ok(None);
    };
    let last = parts[number];
    let Some(mut whole) = jumps(alloc, steps, last.from, last.to, goal, depth)? else {
        return Ok(None);
    };
    while number > 0 {
        number -= 1;
        let part = parts[number];
        let Some(joined) = part_jumps(alloc, steps, part, whole, to, goal, depth)? else {
            return Ok(None);
        };
        whole = joined;
    }
    Ok(Some(whole))
}

// A part, and what it is joined to.
#[cycle(jumps)]
fn part_jumps(
    alloc: Global,
    steps: &[Step],
    part: Part,
    whole: Condition,
    to: usize,
    goal: Goal,
    depth: usize,
) -> Result<Option<Condition>, AllocError>
    ensures { IfOk result (λ found. option_map view_condition found ≡ part_before (condition_within steps.now depth) to goal part (view_condition whole)) }
{
    if part.there && part.end {
        return Ok(None);
    }
    let own = part.goal(to, goal);
    let Some(first) = jumps(alloc, steps, part.from, part.to, own, depth)? else {
        return Ok(None);
    };
    Ok(Some(joined(alloc, own.junction(), first, whole)?))
}

// The parts of a condition that ends at a place and goes to that target, or none where a jump goes elsewhere.
fn parts(
    alloc: Global,
    steps: &[Step],
    from: usize,
    to: usize,
    target: usize,
) -> Result<Option<Vec<Part>>, AllocError>
    ensures { IfOk result (λ parts. option_map (λ (list : Vec Part). list.items) parts ≡ condition_parts steps.now from to target) }
{
    let mut parts = Vec::new(alloc);
    let mut part = Part::empty(from);
    for place in from..to {
        let Some(goes) = goes_to(steps, place) else {
            return Ok(None);
        };
        let Some(longer) = part.with(target, to, place, goes) else {
            return Ok(None);
        };
        part = longer;
        if part.to <= place + 1 {
            part.to = place + 1;
            parts.push(part)?;
            part = Part::empty(place + 1);
        }
    }
    Ok(Some(parts))
}

// Where the test or the jump at a place goes.
fn goes_to(steps: &[Step], place: usize) -> Option<usize>
    ensures { result ≡ target_at steps.now place }
{
    test_target(*steps.get(place)?)
}

// A condition of one step.
fn unit(
    alloc: Global,
    step: Step,
    place: usize,
    end: usize,
    goal: Goal,
) -> Result<Option<Condition>, AllocError>
    ensures { IfOk result (λ found. option_map view_condition found ≡ unit_of step place end goal) }
{
    let Some(target) = test_target(step) else {
        return Ok(None);
    };
    if target == goal.target {
        return Ok(Some(leaf(step, place, goal.sense)));
    }
    if target == end {
        let inner = leaf(step, place, !goal.sense);
        return Ok(Some(idle(alloc, inner, goal.sense)?));
    }
    Ok(None)
}

// The condition of a step that goes to its target where its truth is `sense`.
fn leaf(step: Step, place: usize, sense: bool) -> Condition
    ensures { view_condition result ≡ leaf_of step.kind place sense }
{
    match step.kind {
        StepKind::Test { when, .. } => Condition::Test {
            step: place,
            negated: when != sense,
        },
        _ => literal(sense),
    }
}

fn literal(truth: bool) -> Condition
    ensures { view_condition result ≡ literal_of truth }
{
    if truth {
        Condition::True
    } else {
        Condition::False
    }
}

// A condition as parts of one with this junction.
fn parts_in(
    alloc: Global,
    junction: Junction,
    condition: Condition,
) -> Result<Vec<Condition>, AllocError>
    ensures { IfOk result (λ parts. conditions_of parts.items ≡ parts_in junction (view_condition condition)) }
{
    match condition {
        Condition::Joined {
            junction: within,
            parts,
        } => {
            if within.is(junction) {
                return Ok(parts);
            }
            let joined = Condition::Joined {
                junction: within,
                parts,
            };
            let alone = alone(alloc, joined)?;
            Ok(alone)
        }
        condition => {
            let alone = alone(alloc, condition)?;
            Ok(alone)
        }
    }
}

fn alone(alloc: Global, condition: Condition) -> Result<Vec<Condition>, AllocError>
    ensures { IfOk result (λ parts. conditions_of parts.items ≡ and_condition (view_condition condition) no_conditions) }
{
    let mut parts = Vec::new(alloc);
    parts.push(condition)?;
    Ok(parts)
}

// What joins the parts of a condition whose truth is never `sense`.
fn idle_junction(sense: bool) -> Junction
    ensures { result ≡ idle_junction sense }
{
    if sense { Junction::And } else { Junction::Or }
}

// A condition that has the steps of another one, and whose truth is never `sense`.
fn idle(alloc: Global, inner: Condition, sense: bool) -> Result<Condition, AllocError>
    ensures { IfOk result (λ condition. view_condition condition ≡ idle_of (view_condition inner) sense) }
{
    let junction = idle_junction(sense);
    let mut parts = parts_in(alloc, junction, inner)?;
    parts.push(literal(!sense))?;
    Ok(Condition::Joined { junction, parts })
}

// A condition before another one.
fn joined(
    alloc: Global,
    junction: Junction,
    first: Condition,
    rest: Condition,
) -> Result<Condition, AllocError>
    ensures { IfOk result (λ condition. view_condition condition ≡ joined_with junction (view_condition first) (view_condition rest)) }
{
    let mut parts = parts_in(alloc, junction, rest)?;
    parts.insert(0, first)?;
    Ok(Condition::Joined { junction, parts })
}

impl Condition {
    /// What joins the parts of a condition.
    pub fn junction(&self) -> Option<Junction>
        ensures { result ≡ junction_of (view_condition self.now) }
    {
        match self {
            Condition::Joined { junction, .. } => Some(*junction),
            _ => None,
        }
    }

    /// Whether a condition stands in parentheses as a part of one with this junction.
    pub fn is_enclosed(&self, junction: Junction, is_first: bool) -> bool
        ensures { result ≡ is_enclosed junction is_first (view_condition self.now) }
    {
        match self.junction() {
            Some(Junction::Or) => junction == Junction::And || !is_first,
            Some(Junction::And) => junction == Junction::And && !is_first,
            None => false,
        }
    }

    /// How many levels a condition has as an expression.
    #[cycle(levels)]
    pub fn levels(&self, steps: &[Step]) -> u32
        ensures { result ≡ condition_levels steps.now (view_condition self.now) }
    {
        match self {
            Condition::True | Condition::False => 1,
            Condition::Test { step, negated } => match steps.get(*step) {
                Some(step) => test_levels(*step, *negated),
                None => 1,
            },
            Condition::Joined { junction, parts } => joined_levels(steps, *junction, parts),
        }
    }
}

// The levels of parts that are joined from the left.
#[cycle(levels)]
fn joined_levels(steps: &[Step], junction: Junction, parts: &[Condition]) -> u32
    ensures { result ≡ first_levels steps.now junction (conditions_of parts.now) }
{
    let Some((first, rest)) = parts.split_first() else {
        return 0;
    };
    let enclosed = first.is_enclosed(junction, true);
    let mut whole = enclosed_levels(enclosed, first.levels(steps));
    for part in rest {
        let enclosed = part.is_enclosed(junction, false);
        let levels = enclosed_levels(enclosed, part.levels(steps));
        whole = levels.max(whole).saturating_add(1);
    }
    whole
}

// Parentheses are a level more.
fn enclosed_levels(enclosed: bool, levels: u32) -> u32
    ensures { result ≡ enclosed_levels enclosed levels }
{
    levels.saturating_add(u32::from(enclosed))
}

fn test_levels(step: Step, is_negated: bool) -> u32
    ensures { result ≡ test_levels is_negated (Some step) }
{
    match step.kind {
        StepKind::Test { negated, .. } if is_negated => negated,
        _ => step.levels,
    }
}

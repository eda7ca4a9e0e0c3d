// What the search has found, and what it has tried in vain.
ghost use Rattle.std.specs.Prelude.{◌≡◌, ◌∷◌, ◌++◌, [], IfOk, OnOk, List, length, max, option_map, slice_get};
ghost use Rattle.recover_expr.specs.declared.steps.Step.{Step};
ghost use Rattle.recover_flow.specs.Conditions.{condition_of, view_condition};
ghost use Rattle.recover_flow.specs.Held.{ConditionFound, view_store};
ghost use Rattle.recover_flow.specs.Searching.{BodyAnswer, BranchesAnswer, IsRight, Keeping, RestKept, StatementsAnswer, body_known, branches_known, condition_known, highest_of, known_with, or_nothing, recall_failed_of, recall_of, recalled};

use crate::conditions::Condition;
use crate::plan::{Found, Planned, Rest};
use crate::regions::{BodyAt, BranchesAt, ConditionAt};
use recover_expr::Step;
use std::alloc::{AllocError, Global};
use std::collections::HashMap;

/// The body without statements.
pub const EMPTY: Found = Found {
    number: 0,
    levels: 0,
};

/// No arm, and no `else`.
pub const NO_REST: Found = Found {
    number: 0,
    levels: 0,
};

/// An `else` whose block has no statement.
pub const EMPTY_LAST: Found = Found {
    number: 1,
    levels: 0,
};

/// What is known of a part: the most levels with which it was not found, and the last answer, which has the fewest levels.
#[derive(Clone, Copy, Debug, PartialEq, Eq)]
struct Known {
    failed: Option<u32>,
    found: Option<Found>,
}

/// What is remembered of a part for so many levels.
#[derive(Clone, Copy, Debug, PartialEq, Eq)]
pub enum Recalled {
    Found(Found),
    Failed,
    Unknown,
}

impl Known {
    const NOTHING: Known = Known {
        failed: None,
        found: None,
    };

    // What is known where nothing was looked for, is nothing.
    fn or_nothing(known: Option<Known>) -> Known
        ensures { result ≡ or_nothing known }
    {
        match known {
            Some(known) => known,
            None => Known::NOTHING,
        }
    }

    fn recall(self, levels: u32) -> Recalled
        ensures { result ≡ recall_of levels self }
    {
        match self.found {
            Some(found) if found.levels <= levels => Recalled::Found(found),
            _ => self.recall_failed(levels),
        }
    }

    fn recall_failed(self, levels: u32) -> Recalled
        ensures { result ≡ recall_failed_of levels self.failed }
    {
        match self.failed {
            Some(failed) if levels <= failed => Recalled::Failed,
            _ => Recalled::Unknown,
        }
    }

    fn with(self, levels: u32, found: Option<Found>) -> Self
        ensures { result ≡ known_with levels found self }
    {
        match found {
            Some(found) => Self {
                found: Some(found),
                failed: self.failed,
            },
            None => Self {
                found: self.found,
                failed: Some(levels),
            },
        }
    }
}

/// The parts that were found, by their numbers, and what is known of each place.
#[derive(Drop)]
pub struct Memory {
    bodies: Vec<Vec<Planned>>,
    rests: Vec<Rest>,
    conditions: Vec<Condition>,
    known_bodies: HashMap<BodyAt, Known>,
    known_branches: HashMap<BranchesAt, Known>,
    known_conditions: HashMap<ConditionAt, Option<Found>>,
    /// The furthest step at which a statement began that was not found.
    pub furthest: usize,
}

impl Memory {
    pub fn new(alloc: Global) -> Result<Self, AllocError>
        ensures { IfOk result (λ memory. (steps : List Step) → IsRight steps memory) }
    {
        let mut bodies = Vec::new(alloc);
        bodies.push(Vec::new(alloc))?;
        let mut rests = Vec::new(alloc);
        rests.push(Rest::Nothing)?;
        rests.push(Rest::Last { body: EMPTY.number })?;
        Ok(Self {
            bodies,
            rests,
            conditions: Vec::new(alloc),
            known_bodies: HashMap::new(alloc),
            known_branches: HashMap::new(alloc),
            known_conditions: HashMap::new(alloc),
            furthest: 0,
        })
    }

    /// No statement was found that begins there.
    pub fn stops_at(&mut self, place: usize)
        ensures { self.new ≡ record self.old { furthest = max self.old.furthest place } }
    {
        self.furthest = self.furthest.max(place);
    }

    pub fn body(&self, number: usize) -> Option<&[Planned]>
        ensures { option_map (λ body. body.now) result ≡ slice_get (view_store self.now).bodies number }
    {
        Some(self.bodies.get(number)?.as_slice())
    }

    pub fn rest(&self, number: usize) -> Option<Rest>
        ensures { result ≡ slice_get (view_store self.now).rests number }
    {
        self.rests.get(number).copied()
    }

    pub fn condition(&self, number: usize) -> Option<&Condition>
        ensures { option_map (λ condition. view_condition condition.now) result ≡ slice_get (view_store self.now).conditions number }
    {
        self.conditions.get(number)
    }

    pub fn recall_body(&self, at: BodyAt, levels: u32) -> Recalled
        ensures { result ≡ recalled levels (body_known self.now at) }
    {
        match self.known_bodies.get(&at) {
            Some(known) => known.recall(levels),
            None => Recalled::Unknown,
        }
    }

    pub fn recall_branches(&self, at: BranchesAt, levels: u32) -> Recalled
        ensures { result ≡ recalled levels (branches_known self.now at) }
    {
        match self.known_branches.get(&at) {
            Some(known) => known.recall(levels),
            None => Recalled::Unknown,
        }
    }

    pub fn recall_condition(&self, at: ConditionAt) -> Option<Option<Found>>
        ensures { result ≡ condition_known self.now at }
    {
        self.known_conditions.get(&at).copied()
    }

    /// Remembers what was found with so many levels.
    pub fn keep_body(
        &mut self,
        at: BodyAt,
        levels: u32,
        statements: Option<Vec<Planned>>,
    ) -> Result<Option<Found>, AllocError>
        ensures { IfOk result (λ found. (steps : List Step) → IsRight steps self.old → StatementsAnswer at levels (option_map (λ list. list.items) statements) steps (view_store self.old)
            → Keeping steps self.old self.new (BodyAnswer at levels found)) }
    {
        let Some(statements) = statements else {
            self.know_body(at, levels, None)?;
            return Ok(None);
        };
        let found = Some(self.push_body(statements)?);
        self.know_body(at, levels, found)?;
        Ok(found)
    }

    // A number for these statements.
    fn push_body(&mut self, statements: Vec<Planned>) -> Result<Found, AllocError>
        ensures found { IfOk result (λ found. found ≡ record { number = length self.old.bodies.items; levels = highest_of statements.items 1 }) }
        ensures others { OnOk result (self.new ≡ record self.old { bodies = self.new.bodies }) }
        ensures bodies { OnOk result (self.new.bodies.items ≡ self.old.bodies.items ++ statements ∷ []) }
    {
        let found = Found {
            number: self.bodies.len(),
            levels: highest(statements.as_slice()),
        };
        self.bodies.push(statements)?;
        Ok(found)
    }

    fn know_body(&mut self, at: BodyAt, levels: u32, found: Option<Found>) -> Result<(), AllocError>
        ensures { OnOk result ((steps : List Step) → IsRight steps self.old → BodyAnswer at levels found steps (view_store self.old)
            → Keeping steps self.old self.new (BodyAnswer at levels found)) }
    {
        let known = Known::or_nothing(self.known_bodies.get(&at).copied());
        self.known_bodies.insert(at, known.with(levels, found))?;
        Ok(())
    }

    /// A number for what stands in an `if`, and needs so many levels.
    pub fn keep_rest(&mut self, rest: Rest, levels: u32) -> Result<Found, AllocError>
        ensures found { IfOk result (λ found. found ≡ record { number = length self.old.rests.items; levels = levels }) }
        ensures kept { IfOk result (λ found. (steps : List Step) → IsRight steps self.old → Keeping steps self.old self.new (RestKept found.number rest)) }
    {
        let found = Found {
            number: self.rests.len(),
            levels,
        };
        self.rests.push(rest)?;
        Ok(found)
    }

    /// Remembers what was found with so many levels.
    pub fn keep_branches(
        &mut self,
        at: BranchesAt,
        levels: u32,
        found: Option<Found>,
    ) -> Result<(), AllocError>
        ensures { OnOk result ((steps : List Step) → IsRight steps self.old → BranchesAnswer at levels found steps (view_store self.old)
            → Keeping steps self.old self.new (BranchesAnswer at levels found)) }
    {
        let known = Known::or_nothing(self.known_branches.get(&at).copied());
        self.known_branches.insert(at, known.with(levels, found))?;
        Ok(())
    }

    /// Remembers the condition at a place.
    pub fn keep_condition(
        &mut self,
        steps: &[Step],
        at: ConditionAt,
        condition: Option<Condition>,
    ) -> Result<Option<Found>, AllocError>
        ensures { IfOk result (λ found. IsRight steps.now self.old → option_map view_condition condition ≡ condition_of steps.now at
            → Keeping steps.now self.old self.new (λ steps store. ConditionFound steps store at found)) }
    {
        let Some(condition) = condition else {
            self.known_conditions.insert(at, None)?;
            return Ok(None);
        };
        let found = Found {
            number: self.conditions.len(),
            levels: condition.levels(steps),
        };
        self.conditions.push(condition)?;
        self.known_conditions.insert(at, Some(found))?;
        Ok(Some(found))
    }
}

// The levels of the highest statement, one at least.
fn highest(statements: &[Planned]) -> u32
    ensures { result ≡ highest_of statements.now 1 }
{
    let mut levels = 1;
    for planned in statements {
        levels = levels.max(planned.levels);
    }
    levels
}

// The search for the statements of a function.
ghost use Rattle.std.specs.Prelude.{◌≡◌, ◌<◌, ◌≤◌, IfOk, OnOk, Some, option_map};
ghost use Rattle.recover_flow.specs.Arms.{arm_starts};
ghost use Rattle.recover_flow.specs.Cutting.{pieces_of};
ghost use Rattle.recover_flow.specs.Forms.{choice_at};
ghost use Rattle.recover_flow.specs.Held.{ConditionFound};
ghost use Rattle.recover_flow.specs.Searching.{Answers, AreRests, ArmAnswer, BehindFound, BlockAnswer, BodyAnswer, BranchesAnswer, FormAnswer, IfAnswer, IsNoted, IsReady, IsStartOf, IsStuck, LastAnswer, LastIfAnswer, LoopAnswer, LoopFormAnswer, PlanAnswer, RestAnswer, StatementsAnswer, TestAnswer, WayAnswer, fitting_plan, found_behind, if_planned, rest_at, steps_of, store_of, whole_body};
ghost use Rattle.recover_flow.specs.Standing.{IsStart, IsWay, branches_used, piece_branches, with_used};
ghost use Rattle.recover_flow.specs.declared.forms.Choice.{Choice};

use crate::branches::{Start, Way};
use crate::conditions::condition_at;
use crate::forms::{Choice, Form, choice_of, counted, once, scope};
use crate::loops::{LoopAt, closed_loop, open_loop, while_loop};
use crate::memory::{EMPTY, EMPTY_LAST, Memory, NO_REST, Recalled};
use crate::plan::{Found, Plan, Planned, Rest};
use crate::regions::{BlockAt, BodyAt, BranchesAt, ConditionAt, Piece};
use crate::tables::Tables;
use recover_expr::Step;
use std::alloc::{AllocError, Global};
use std::collections::HashMap;

/// The search among the steps of a function. A part of `levels` levels is found if there is one; each is looked for once.
#[derive(Drop)]
pub struct Search<'s> {
    alloc: Global,
    tables: Tables<'s>,
    pub memory: Memory,
}

impl<'s> Search<'s> {
    pub fn new(alloc: Global, steps: &'s [Step]) -> Result<Self, AllocError>
        ensures ready { IfOk result IsReady }
        ensures steps { IfOk result (λ search. steps_of search ≡ steps.now) }
    {
        Ok(Self {
            alloc,
            tables: Tables::new(alloc, steps)?,
            memory: Memory::new(alloc)?,
        })
    }

    /// The pc of the furthest step at which a statement began that was not found.
    pub fn furthest_pc(&self) -> u32
        requires tabled { IsReady self.now }
    {
        match self.tables.step(self.memory.furthest) {
            Some(step) => step.pc,
            None => 0,
        }
    }

    /// The body of the whole function.
    pub fn whole(&mut self, levels: u32) -> Result<Option<Found>, AllocError>
        requires ready { IsReady self.old }
        ensures { IfOk result (λ found. Answers self.old self.new (BodyAnswer (whole_body (steps_of self.old)) levels found)) }
    {
        let to = self.tables.steps().len();
        let at = BodyAt {
            from: 0,
            to,
            locals_end: to,
            may_capture: true,
            exit: None,
        };
        self.body(at, levels)
    }

    /// A body, if there is one of at most so many levels.
    #[cycle(search)]
    fn body(&mut self, at: BodyAt, levels: u32) -> Result<Option<Found>, AllocError>
        requires ready { IsReady self.old }
        ensures { IfOk result (λ found. Answers self.old self.new (BodyAnswer (with_used (steps_of self.old) at) levels found)) }
    {
        if at.from == at.to {
            return Ok(Some(EMPTY));
        }
        if levels == 0 {
            return Ok(None);
        }
        let at = BodyAt {
            exit: self.tables.used(at.exit, at.from, at.to),
            ..at
        };
        match self.memory.recall_body(at, levels) {
            Recalled::Found(found) => Ok(Some(found)),
            Recalled::Failed => Ok(None),
            Recalled::Unknown => self.new_body(at, levels),
        }
    }

    // A body that is not known.
    #[cycle(search)]
    fn new_body(&mut self, at: BodyAt, levels: u32) -> Result<Option<Found>, AllocError>
        requires ready { IsReady self.old }
        requires apart { at.from ≡ at.to → ⊥ }
        requires some { 0 < levels }
        ensures { IfOk result (λ found. Answers self.old self.new (BodyAnswer at levels found)) }
    {
        let statements = self.statements(at, levels)?;
        self.memory.keep_body(at, levels, statements)
    }

    // A block, with its CLOSE where it has one.
    #[cycle(search)]
    fn block(&mut self, at: BlockAt, levels: u32) -> Result<Option<Found>, AllocError>
        requires ready { IsReady self.old }
        ensures { IfOk result (λ found. Answers self.old self.new (BlockAnswer at levels found)) }
    {
        let Some(closed) = at.closed else {
            return self.body(at.whole, levels);
        };
        let found = self.body(closed, levels)?;
        if found.is_some() {
            return Ok(found);
        }
        self.body(at.whole, levels)
    }

    // The statements of a body, piece by piece.
    #[cycle(search)]
    fn statements(&mut self, at: BodyAt, levels: u32) -> Result<Option<Vec<Planned>>, AllocError>
        requires ready { IsReady self.old }
        requires apart { at.from ≡ at.to → ⊥ }
        requires some { 0 < levels }
        ensures { IfOk result (λ statements. Answers self.old self.new (StatementsAnswer at levels (option_map (λ list. list.items) statements))) }
    {
        let Some(pieces) = self.tables.pieces(self.alloc, at)? else {
            return Ok(None);
        };
        if pieces.is_empty() {
            return Ok(None);
        }
        let mut statements = Vec::new(self.alloc);
        for piece in &pieces {
            let Some(statement) = self.next_statement(at, *piece, levels)? else {
                return self.last_branches(at, &pieces, statements, levels);
            };
            statements.push(statement)?;
        }
        Ok(Some(statements))
    }

    // Where a body ends at the exit, a jump there is a break or the end of an arm. The pieces take it as a break; here one `if` takes the latest pieces, up to the end.
    #[cycle(search)]
    fn last_branches(
        &mut self,
        at: BodyAt,
        pieces: &[Piece],
        mut statements: Vec<Planned>,
        levels: u32,
    ) -> Result<Option<Vec<Planned>>, AllocError>
        requires ready { IsReady self.old }
        requires apart { at.from ≡ at.to → ⊥ }
        requires some { 0 < levels }
        requires pieces { pieces_of (steps_of self.old) at ≡ Some pieces.now }
        requires stuck { IsStuck (steps_of self.old) (store_of self.old) at levels pieces.now statements.items }
        ensures { IfOk result (λ found. Answers self.old self.new (StatementsAnswer at levels (option_map (λ list. list.items) found))) }
    {
        let mut number = statements.len();
        loop {
            if let Some(last) = self.last_if(at, pieces[number], levels)? {
                statements.truncate(number);
                statements.push(last)?;
                return Ok(Some(statements));
            }
            if number == 0 {
                return Ok(None);
            }
            number -= 1;
        }
    }

    // The `if` that begins with a piece of a body and goes on to its end, which is the exit.
    #[cycle(search)]
    fn last_if(
        &mut self,
        at: BodyAt,
        piece: Piece,
        levels: u32,
    ) -> Result<Option<Planned>, AllocError>
        requires ready { IsReady self.old }
        ensures { IfOk result (λ planned. Answers self.old self.new (LastIfAnswer at piece levels planned)) }
    {
        if !self.tables.begins_branches(at, piece) {
            return Ok(None);
        }
        let tested = BranchesAt {
            from: piece.from,
            to: at.to,
            exit: at.exit,
            bare: false,
        };
        let planned = self.if_at(tested, levels)?;
        if planned.is_some() {
            return Ok(planned);
        }
        let bare = BranchesAt {
            bare: true,
            ..tested
        };
        self.if_at(bare, levels)
    }

    // The statement of a piece, or where none is found, a note of where that is.
    #[cycle(search)]
    fn next_statement(
        &mut self,
        at: BodyAt,
        piece: Piece,
        levels: u32,
    ) -> Result<Option<Planned>, AllocError>
        requires ready { IsReady self.old }
        ensures { IfOk result (λ planned. Answers self.old self.new (PlanAnswer at piece levels planned)) }
    {
        let planned = self.statement(at, piece, levels)?;
        if planned.is_some() {
            return Ok(planned);
        }
        self.memory.stops_at(piece.from);
        Ok(None)
    }

    // The statement of a piece.
    #[cycle(search)]
    fn statement(
        &mut self,
        at: BodyAt,
        piece: Piece,
        levels: u32,
    ) -> Result<Option<Planned>, AllocError>
        requires ready { IsReady self.old }
        ensures { IfOk result (λ planned. Answers self.old self.new (PlanAnswer at piece levels planned)) }
    {
        match choice_of(&self.tables, at, piece) {
            Choice::Settled(planned) => Ok(fitting(planned, levels)),
            Choice::Loop { last } => self.loop_of(at, piece, last, levels),
            Choice::For => self.for_of(at, piece, levels),
            Choice::Locals => self.locals(at, piece, levels),
            Choice::Jumps => self.jumps(at, piece, levels),
        }
    }

    // A `for`.
    #[cycle(search)]
    fn for_of(
        &mut self,
        at: BodyAt,
        piece: Piece,
        levels: u32,
    ) -> Result<Option<Planned>, AllocError>
        requires ready { IsReady self.old }
        requires choice { choice_at (steps_of self.old) at piece ≡ Choice.For }
        ensures { IfOk result (λ planned. Answers self.old self.new (PlanAnswer at piece levels planned)) }
    {
        let form = counted(&self.tables, piece);
        self.filled(form, levels)
    }

    // A statement that begins with locals that end in it.
    #[cycle(search)]
    fn locals(
        &mut self,
        at: BodyAt,
        piece: Piece,
        levels: u32,
    ) -> Result<Option<Planned>, AllocError>
        requires ready { IsReady self.old }
        requires choice { choice_at (steps_of self.old) at piece ≡ Choice.Locals }
        ensures { IfOk result (λ planned. Answers self.old self.new (PlanAnswer at piece levels planned)) }
    {
        let form = scope(&self.tables, at.exit, piece);
        let planned = self.filled(form, levels)?;
        if planned.is_some() {
            return Ok(planned);
        }
        let form = once(&self.tables, at.exit, piece);
        self.filled(form, levels)
    }

    // A statement that begins with a test or a jump, but for a loop with a jump back.
    #[cycle(search)]
    fn jumps(
        &mut self,
        at: BodyAt,
        piece: Piece,
        levels: u32,
    ) -> Result<Option<Planned>, AllocError>
        requires ready { IsReady self.old }
        requires choice { choice_at (steps_of self.old) at piece ≡ Choice.Jumps }
        ensures { IfOk result (λ planned. Answers self.old self.new (PlanAnswer at piece levels planned)) }
    {
        let planned = self.if_of(at, piece, false, levels)?;
        if planned.is_some() {
            return Ok(planned);
        }
        let form = once(&self.tables, at.exit, piece);
        let planned = self.filled(form, levels)?;
        if planned.is_some() {
            return Ok(planned);
        }
        self.if_of(at, piece, true, levels)
    }

    // The `if` of a piece; `bare` where there is a bare jump in its first condition.
    #[cycle(search)]
    fn if_of(
        &mut self,
        at: BodyAt,
        piece: Piece,
        bare: bool,
        levels: u32,
    ) -> Result<Option<Planned>, AllocError>
        requires ready { IsReady self.old }
        ensures { IfOk result (λ planned. Answers self.old self.new (IfAnswer (piece_branches at piece bare) levels planned)) }
    {
        let branches = BranchesAt {
            from: piece.from,
            to: piece.to,
            exit: at.exit,
            bare,
        };
        self.if_at(branches, levels)
    }

    // An `if`. It needs two levels.
    #[cycle(search)]
    fn if_at(&mut self, at: BranchesAt, levels: u32) -> Result<Option<Planned>, AllocError>
        requires ready { IsReady self.old }
        ensures { IfOk result (λ planned. Answers self.old self.new (IfAnswer at levels planned)) }
    {
        if levels < 2 {
            return Ok(None);
        }
        let Some(found) = self.branches(at, levels - 1)? else {
            return Ok(None);
        };
        Ok(Some(branches_planned(found)))
    }

    // A statement around a block, where the block is found.
    #[cycle(search)]
    fn filled(&mut self, form: Option<Form>, levels: u32) -> Result<Option<Planned>, AllocError>
        requires ready { IsReady self.old }
        ensures { IfOk result (λ planned. Answers self.old self.new (FormAnswer form levels planned)) }
    {
        let Some(form) = form else {
            return Ok(None);
        };
        if levels == 0 || form.levels > levels {
            return Ok(None);
        }
        let Some(body) = self.block(form.inner, levels - 1)? else {
            return Ok(None);
        };
        Ok(Some(Planned {
            plan: form.shape.around(body.number),
            levels: form.levels.max(body.levels.saturating_add(1)),
        }))
    }

    // A loop, whose last jump back this is.
    #[cycle(search)]
    fn loop_of(
        &mut self,
        at: BodyAt,
        piece: Piece,
        last: usize,
        levels: u32,
    ) -> Result<Option<Planned>, AllocError>
        requires ready { IsReady self.old }
        requires choice { choice_at (steps_of self.old) at piece ≡ Choice.Loop last }
        ensures { IfOk result (λ planned. Answers self.old self.new (PlanAnswer at piece levels planned)) }
    {
        let closed = closed_loop(&self.tables, piece, last);
        let planned = self.tested_loop(closed, levels)?;
        if planned.is_some() {
            return Ok(planned);
        }
        let tested_first = while_loop(&self.tables, piece, last);
        let planned = self.tested_loop(tested_first, levels)?;
        if planned.is_some() {
            return Ok(planned);
        }
        let open = open_loop(&self.tables, piece, last);
        self.tested_loop(open, levels)
    }

    // A loop, by the conditions that it may have.
    #[cycle(search)]
    fn tested_loop(
        &mut self,
        at: Option<LoopAt>,
        levels: u32,
    ) -> Result<Option<Planned>, AllocError>
        requires ready { IsReady self.old }
        ensures { IfOk result (λ planned. Answers self.old self.new (LoopAnswer at levels planned)) }
    {
        let Some(at) = at else {
            return Ok(None);
        };
        if levels < 2 {
            return Ok(None);
        }
        let lengths = at.lengths(&self.tables);
        let most = lengths.tests.max(lengths.jumps);
        let mut turn = 0;
        loop {
            let form = self.loop_form(at, lengths.at(turn))?;
            let planned = self.filled(form, levels)?;
            if planned.is_some() || turn >= most {
                return Ok(planned);
            }
            turn += 1;
        }
    }

    // A loop whose condition has this length, where that is a condition.
    fn loop_form(&mut self, at: LoopAt, length: Option<usize>) -> Result<Option<Form>, AllocError>
        requires ready { IsReady self.old }
        ensures { IfOk result (λ form. Answers self.old self.new (LoopFormAnswer at length form)) }
    {
        let Some(length) = length else {
            return Ok(None);
        };
        let Some(parts) = at.parts(&self.tables, length) else {
            return Ok(None);
        };
        let Some(condition) = self.condition(parts.condition)? else {
            return Ok(None);
        };
        Ok(Some(Form {
            shape: at.shape(condition.number),
            levels: condition.levels.saturating_add(1).max(2),
            inner: parts.inner,
        }))
    }

    // The condition at a place, if one stands there.
    fn condition(&mut self, at: ConditionAt) -> Result<Option<Found>, AllocError>
        requires ready { IsReady self.old }
        ensures { IfOk result (λ found. Answers self.old self.new (λ steps store. ConditionFound steps store at found)) }
    {
        if let Some(found) = self.memory.recall_condition(at) {
            return Ok(found);
        }
        let steps = self.tables.steps();
        let condition = condition_at(self.alloc, steps, at)?;
        self.memory.keep_condition(steps, at, condition)
    }

    // The branches of an `if`, if there are some of at most so many levels.
    #[cycle(search)]
    fn branches(&mut self, at: BranchesAt, levels: u32) -> Result<Option<Found>, AllocError>
        requires ready { IsReady self.old }
        requires some { 0 < levels }
        ensures { IfOk result (λ found. Answers self.old self.new (BranchesAnswer (branches_used (steps_of self.old) at) levels found)) }
    {
        let at = BranchesAt {
            exit: self.tables.used(at.exit, at.from, at.to),
            ..at
        };
        match self.memory.recall_branches(at, levels) {
            Recalled::Found(found) => Ok(Some(found)),
            Recalled::Failed => Ok(None),
            Recalled::Unknown => self.new_branches(at, levels),
        }
    }

    // Branches that are not known.
    #[cycle(search)]
    fn new_branches(&mut self, at: BranchesAt, levels: u32) -> Result<Option<Found>, AllocError>
        requires ready { IsReady self.old }
        requires some { 0 < levels }
        ensures { IfOk result (λ found. Answers self.old self.new (BranchesAnswer at levels found)) }
    {
        let found = self.arms(at, levels)?;
        self.memory.keep_branches(at, levels, found)?;
        Ok(found)
    }

    // The arms of an `if`: the places at which one may begin are known from the left; here they are found from the right.
    #[cycle(search)]
    fn arms(&mut self, at: BranchesAt, levels: u32) -> Result<Option<Found>, AllocError>
        requires ready { IsReady self.old }
        requires some { 0 < levels }
        ensures { IfOk result (λ found. Answers self.old self.new (BranchesAnswer at levels found)) }
    {
        let mut starts = self.tables.arm_starts(self.alloc, at)?;
        let mut rests = HashMap::new(self.alloc);
        while let Some(start) = starts.pop() {
            let found = self.rest(at, &start, &rests, levels)?;
            note(&mut rests, start.place, found)?;
        }
        Ok(rests.get(&at.from).copied())
    }

    // What stands from a place on, behind which these were found: an arm, or the `else` where that is not the first place.
    #[cycle(search)]
    fn rest(
        &mut self,
        at: BranchesAt,
        start: &Start,
        rests: &HashMap<usize, Found>,
        levels: u32,
    ) -> Result<Option<Found>, AllocError>
        requires ready { IsReady self.old }
        requires some { 0 < levels }
        requires start { IsStartOf (steps_of self.old) at start.now.place start.now.ways.items }
        requires rests { AreRests (steps_of self.old) (store_of self.old) at levels start.now.place (rest_at rests.now) }
        ensures { IfOk result (λ found. Answers self.old self.new (RestAnswer at start.now.place levels found)) }
    {
        for way in &start.ways {
            let found = self.way(at, start, *way, rests, levels)?;
            if found.is_some() {
                return Ok(found);
            }
        }
        if start.place == at.from {
            return Ok(None);
        }
        self.last(at, start.place, levels)
    }

    // The arm that stands in this way at a place, behind which these were found.
    #[cycle(search)]
    fn way(
        &mut self,
        at: BranchesAt,
        start: &Start,
        way: Way,
        rests: &HashMap<usize, Found>,
        levels: u32,
    ) -> Result<Option<Found>, AllocError>
        requires ready { IsReady self.old }
        requires some { 0 < levels }
        requires within { at.from ≤ start.now.place }
        requires way { IsWay (arm_starts (steps_of self.old) at) start.now.place way }
        requires rests { AreRests (steps_of self.old) (store_of self.old) at levels start.now.place (rest_at rests.now) }
        ensures { IfOk result (λ found. Answers self.old self.new (WayAnswer at start.now.place way levels found)) }
    {
        let Some(behind) = rest_behind(rests, way.next, at.to) else {
            return Ok(None);
        };
        self.arm(at, start.place, way, behind, levels)
    }

    // The arm that stands in this way, with what was found behind it.
    #[cycle(search)]
    fn arm(
        &mut self,
        at: BranchesAt,
        place: usize,
        way: Way,
        behind: Found,
        levels: u32,
    ) -> Result<Option<Found>, AllocError>
        requires ready { IsReady self.old }
        requires some { 0 < levels }
        requires way { IsWay (arm_starts (steps_of self.old) at) place way }
        requires behind { BehindFound (steps_of self.old) (store_of self.old) at place way.next behind }
        requires fits { behind.levels ≤ levels }
        ensures { IfOk result (λ found. Answers self.old self.new (ArmAnswer at place way levels found)) }
    {
        let Some(test) = self.way_test(place, way, levels)? else {
            return Ok(None);
        };
        let begin = way.tests_end.unwrap_or(place);
        let block = self.tables.block(begin, way.block_end, at.exit);
        let Some(body) = self.block(block, levels)? else {
            return Ok(None);
        };
        let arm = Rest::Arm {
            condition: test.condition,
            body: body.number,
            rest: behind.number,
        };
        let needed = test.levels.max(body.levels).max(behind.levels);
        Ok(Some(self.memory.keep_rest(arm, needed)?))
    }

    // The `else` from a place on.
    #[cycle(search)]
    fn last(
        &mut self,
        at: BranchesAt,
        place: usize,
        levels: u32,
    ) -> Result<Option<Found>, AllocError>
        requires ready { IsReady self.old }
        requires start { IsStart (arm_starts (steps_of self.old) at) place }
        requires apart { place ≡ at.from → ⊥ }
        ensures { IfOk result (λ found. Answers self.old self.new (LastAnswer at place levels found)) }
    {
        let block = self.tables.block(place, at.to, at.exit);
        let Some(body) = self.block(block, levels)? else {
            return Ok(None);
        };
        let last = Rest::Last { body: body.number };
        Ok(Some(self.memory.keep_rest(last, body.levels)?))
    }

    // The condition of an arm, where there are levels for it.
    fn way_test(
        &mut self,
        place: usize,
        way: Way,
        levels: u32,
    ) -> Result<Option<ArmTest>, AllocError>
        requires ready { IsReady self.old }
        requires some { 0 < levels }
        ensures { IfOk result (λ test. Answers self.old self.new (TestAnswer place way levels test)) }
    {
        let Some(to) = way.tests_end else {
            return Ok(Some(ArmTest {
                condition: None,
                levels: 1,
            }));
        };
        let at = ConditionAt {
            from: place,
            to,
            target: way.next.unwrap_or(way.block_end),
        };
        let Some(found) = self.condition(at)? else {
            return Ok(None);
        };
        let needed = found.levels.max(1);
        if needed > levels {
            return Ok(None);
        }
        Ok(Some(ArmTest {
            condition: Some(found.number),
            levels: needed,
        }))
    }
}

// The condition of an arm, no condition is `true`; and the levels that it needs.
#[derive(Clone, Copy, Debug, PartialEq, Eq)]
struct ArmTest {
    condition: Option<usize>,
    levels: u32,
}

// A statement, where there are levels for it.
fn fitting(planned: Option<Planned>, levels: u32) -> Option<Planned>
    ensures { result ≡ fitting_plan planned levels }
{
    match planned {
        Some(planned) if planned.levels <= levels => Some(planned),
        _ => None,
    }
}

// Notes what was found at a place, where something was.
fn note(
    rests: &mut HashMap<usize, Found>,
    place: usize,
    found: Option<Found>,
) -> Result<(), AllocError>
    ensures { OnOk result (IsNoted place found (rest_at rests.old) (rest_at rests.new)) }
{
    let Some(found) = found else {
        return Ok(());
    };
    rests.insert(place, found)?;
    Ok(())
}

// What stands behind an arm of an `if` that ends there, if that was found.
fn rest_behind(rests: &HashMap<usize, Found>, next: Option<usize>, to: usize) -> Option<Found>
    ensures { result ≡ found_behind (rest_at rests.now) next to }
{
    match next {
        None => Some(NO_REST),
        Some(place) if place == to => Some(EMPTY_LAST),
        Some(place) => rests.get(&place).copied(),
    }
}

// An `if` of these branches.
fn branches_planned(found: Found) -> Planned
    ensures { result ≡ if_planned found }
{
    Planned {
        plan: Plan::If { rest: found.number },
        levels: found.levels.saturating_add(1),
    }
}

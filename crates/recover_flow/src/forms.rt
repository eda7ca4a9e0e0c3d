// Statements around a block that is still to be found.

ghost use Rattle.std.specs.Prelude.{◌≡◌};
ghost use Rattle.recover_flow.specs.Forms.{choice_at, counted_form, ending, ends_scope, ends_variables, is_own, leaves_closing, leaves_straight, once_form, own_statement, plan_around, returning, scope_end, scope_form, step_behind, straight_choice};
ghost use Rattle.recover_flow.specs.Tabled.{AreTables};

use crate::plan::{End, Plan, Planned};
use crate::regions::{BlockAt, BodyAt, Exit, Piece};
use crate::tables::Tables;
use recover_expr::{Step, StepKind};

/// A statement around a block: the levels that it needs itself, two at least, and where the block stands.
#[derive(Clone, Copy, Debug, PartialEq, Eq)]
pub struct Form {
    pub shape: Shape,
    pub levels: u32,
    pub inner: BlockAt,
}

/// A statement but for its block.
#[derive(Clone, Copy, Debug, PartialEq, Eq)]
pub enum Shape {
    Do { step: usize },
    For { step: usize, numeric: bool },
    While { condition: usize },
    Repeat { condition: Option<usize> },
}

/// What the statement of a piece may be, by its first step.
#[derive(Clone, Copy, Debug, PartialEq, Eq)]
pub enum Choice {
    /// This one, or none.
    Settled(Option<Planned>),
    /// A loop, whose last jump back this is.
    Loop { last: usize },
    For,
    /// It begins with locals that end in it.
    Locals,
    /// It begins with a test or a jump.
    Jumps,
}

impl Shape {
    /// The statement, with its block.
    pub fn around(self, body: usize) -> Plan
        ensures { result ≡ plan_around self body }
    {
        match self {
            Shape::Do { step } => Plan::Do { step, body },
            Shape::For { step, numeric } => Plan::For {
                step,
                numeric,
                body,
            },
            Shape::While { condition } => Plan::While { condition, body },
            Shape::Repeat { condition } => Plan::Repeat { body, condition },
        }
    }
}

/// What the statement of a piece of a body may be.
pub fn choice_of(tables: &Tables, at: BodyAt, piece: Piece) -> Choice
    requires tabled { AreTables tables.now }
    ensures { result ≡ choice_at tables.now.steps.now at piece }
{
    let Some(step) = tables.step(piece.from) else {
        return Choice::Settled(None);
    };
    if piece.is_single() && is_own(step, at) {
        return Choice::Settled(own_statement(at, step, piece.from));
    }
    match tables.last_back(piece.from, piece.to) {
        Some(last) => Choice::Loop { last },
        None => straight_choice(tables, at, piece, step),
    }
}

// The same, where no jump goes back to its first step, and it is not a statement by itself.
fn straight_choice(tables: &Tables, at: BodyAt, piece: Piece, step: Step) -> Choice
    requires tabled { AreTables tables.now }
    ensures { result ≡ straight_choice tables.now.steps.now at piece step }
{
    match step.kind {
        StepKind::Head { .. } => Choice::For,
        StepKind::Declaration { .. } => Choice::Locals,
        StepKind::Test { .. } => Choice::Jumps,
        StepKind::Jump { .. } => {
            if leaves_straight(tables, at, piece, step) {
                return Choice::Settled(Some(ending(at, piece, End::Break, 1)));
            }
            Choice::Jumps
        }
        StepKind::Return => Choice::Settled(returning(at, piece, step)),
        StepKind::Close { from, .. } => {
            if leaves_closing(tables, at, piece, step, from) {
                return Choice::Settled(Some(ending(at, piece, End::Break, 1)));
            }
            Choice::Settled(None)
        }
        StepKind::Act | StepKind::Foot { .. } => Choice::Settled(None),
    }
}

// Whether a step is a statement of a body by itself: an act, or a declaration of the body's own locals.
fn is_own(step: Step, at: BodyAt) -> bool
    ensures { result ≡ is_own at step.kind }
{
    match step.kind {
        StepKind::Act => true,
        StepKind::Declaration { end, .. } => end == at.locals_end,
        _ => false,
    }
}

// Captured locals stand only in a body that may have some.
fn own_statement(at: BodyAt, step: Step, place: usize) -> Option<Planned>
    ensures { result ≡ own_statement at step place }
{
    if let StepKind::Declaration { captured: true, .. } = step.kind {
        if !at.may_capture {
            return None;
        }
    }
    Some(Planned {
        plan: Plan::Step { step: place },
        levels: step.levels,
    })
}

fn returning(at: BodyAt, piece: Piece, step: Step) -> Option<Planned>
    ensures { result ≡ returning at piece step }
{
    if !piece.is_single() {
        return None;
    }
    let end = End::Return { step: piece.from };
    Some(ending(at, piece, end, step.levels))
}

// A return or a break, in a `do` of its own where it is not last.
fn ending(at: BodyAt, piece: Piece, end: End, own: u32) -> Planned
    ensures { result ≡ ending at piece end own }
{
    let enclosed = piece.to != at.to;
    let levels = if enclosed { own.saturating_add(1) } else { own };
    Planned {
        plan: Plan::End { end, enclosed },
        levels,
    }
}

// Whether a piece is a break that closes captured locals.
fn leaves_closing(tables: &Tables, at: BodyAt, piece: Piece, step: Step, from: u32) -> bool
    requires tabled { AreTables tables.now }
    ensures { result ≡ leaves_closing tables.now.steps.now at piece step from }
{
    let Some(exit) = at.exit else {
        return false;
    };
    piece.to.checked_sub(2) == Some(piece.from)
        && from == exit.locals
        && step.captured > exit.locals
        && tables.leaves(piece.from.saturating_add(1), exit)
}

// Whether a piece is a break with no captured locals to close.
fn leaves_straight(tables: &Tables, at: BodyAt, piece: Piece, step: Step) -> bool
    requires tabled { AreTables tables.now }
    ensures { result ≡ leaves_straight tables.now.steps.now at piece step }
{
    match at.exit {
        Some(exit) => {
            piece.is_single() && tables.leaves(piece.from, exit) && step.captured <= exit.locals
        }
        None => false,
    }
}

/// The number behind the step of a number, if there is one.
pub fn step_behind(steps: &[Step], place: usize) -> Option<usize>
    ensures { result ≡ step_behind steps.now place }
{
    steps.get(place)?;
    Some(place + 1)
}

/// A `do` from a declaration to the end of its locals.
pub fn scope(tables: &Tables, exit: Option<Exit>, piece: Piece) -> Option<Form>
    requires tabled { AreTables tables.now }
    ensures { result ≡ scope_form tables.now.steps.now exit piece }
{
    let step = tables.step(piece.from)?;
    let from = step_behind(tables.steps(), piece.from)?;
    let end = scope_end(tables, piece, step)?;
    let inner = BodyAt {
        from,
        to: end,
        locals_end: end,
        may_capture: true,
        exit,
    };
    Some(Form {
        shape: Shape::Do { step: piece.from },
        levels: step.levels.saturating_add(1).max(2),
        inner: BlockAt {
            closed: None,
            whole: inner,
        },
    })
}

// Where the locals of a declaration end, if a piece that begins with it is their scope.
fn scope_end(tables: &Tables, piece: Piece, step: Step) -> Option<usize>
    requires tabled { AreTables tables.now }
    ensures { result ≡ scope_end tables.now.steps.now piece step }
{
    match step.kind {
        StepKind::Declaration { end, .. } => {
            if end <= piece.to && ends_scope(tables, piece, step, end) {
                Some(end)
            } else {
                None
            }
        }
        _ => None,
    }
}

// Whether a scope whose locals end there ends with a piece, and with a CLOSE where one of its locals is captured.
fn ends_scope(tables: &Tables, piece: Piece, step: Step, end: usize) -> bool
    requires tabled { AreTables tables.now }
    ensures { result ≡ ends_scope tables.now.steps.now piece step end }
{
    if tables.ends_captured(end, piece.from) {
        return piece.to.checked_sub(1) == Some(end) && tables.closes(end, step.base);
    }
    piece.to == end
}

/// A loop that runs once, for its breaks: `repeat .. until true`.
pub fn once(tables: &Tables, exit: Option<Exit>, piece: Piece) -> Option<Form>
    requires tabled { AreTables tables.now }
    ensures { result ≡ once_form tables.now.steps.now exit piece }
{
    let step = tables.step(piece.from)?;
    let own = Exit {
        place: piece.to,
        locals: step.base,
    };
    if exit == Some(own) || !tables.is_reached(piece.to, piece.from, piece.to) {
        return None;
    }
    Some(Form {
        shape: Shape::Repeat { condition: None },
        levels: 2,
        inner: BlockAt {
            closed: None,
            whole: BodyAt::plain(piece.from, piece.to, Some(own)),
        },
    })
}

/// A `for`.
pub fn counted(tables: &Tables, piece: Piece) -> Option<Form>
    requires tabled { AreTables tables.now }
    ensures { result ≡ counted_form tables.now.steps.now piece }
{
    let step = tables.step(piece.from)?;
    let StepKind::Head {
        numeric,
        foot,
        end,
        variables_end,
        captured,
    } = step.kind
    else {
        return None;
    };
    if !(piece.from < variables_end && variables_end <= foot)
        || piece.to.checked_sub(1) != Some(foot)
        || end != piece.to
    {
        return None;
    }
    let from = piece.from.saturating_add(1);
    let goes_back = StepKind::Foot {
        numeric,
        target: from,
    };
    if tables.kind(foot) != Some(goes_back) {
        return None;
    }
    if !ends_variables(tables, step, foot, variables_end, captured) {
        return None;
    }
    let exit = Exit {
        place: piece.to,
        locals: step.base,
    };
    Some(Form {
        shape: Shape::For {
            step: piece.from,
            numeric,
        },
        levels: step.levels.max(2),
        inner: tables.block(from, variables_end, Some(exit)),
    })
}

// Whether the variables of a `for` end before its foot, and before a CLOSE where one is captured.
fn ends_variables(tables: &Tables, step: Step, foot: usize, end: usize, captured: bool) -> bool
    requires tabled { AreTables tables.now }
    ensures { result ≡ ends_variables tables.now.steps.now step foot end captured }
{
    if !captured {
        return end == foot;
    }
    foot.checked_sub(1) == Some(end) && tables.closes(end, step.base.saturating_add(3))
}

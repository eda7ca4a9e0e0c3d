// Loops, by the condition at their end or at their beginning.

ghost use Rattle.std.specs.Prelude.{◌≡◌};
ghost use Rattle.recover_flow.specs.Loops.{closed_kind, closed_loop_at, closed_parts, ends_back, loop_at, loop_lengths, loop_parts, loop_shape, open_loop_at, open_parts, while_loop_at, while_parts};
ghost use Rattle.recover_flow.specs.Tabled.{AreTables};

use crate::forms::Shape;
use crate::regions::{BlockAt, BodyAt, ConditionAt, Exit, Piece};
use crate::tables::{Lengths, Tables};
use recover_expr::Step;

/// What a loop may be, and what stands behind its condition or its block.
#[derive(Clone, Copy, Debug, PartialEq, Eq)]
pub enum LoopKind {
    /// A `repeat` whose body has captured locals: they are closed where the condition holds, and closed again before the jump back.
    Closed { tests_end: usize, close: usize },
    /// A `while`, whose jump back this is.
    While { back: usize },
    /// A `repeat` whose condition holds this last jump back.
    Open { last: usize },
}

/// A loop but for its condition and its block.
#[derive(Clone, Copy, Debug, PartialEq, Eq)]
pub struct LoopAt {
    pub kind: LoopKind,
    pub piece: Piece,
    pub exit: Exit,
}

/// Where the condition of a loop stands, and its block.
#[derive(Clone, Copy, Debug, PartialEq, Eq)]
pub struct LoopParts {
    pub condition: ConditionAt,
    pub inner: BlockAt,
}

// A loop of a kind from its first step to its end.
fn loop_at(piece: Piece, step: Step, kind: LoopKind) -> LoopAt
    ensures { result ≡ loop_at piece kind step }
{
    LoopAt {
        kind,
        piece,
        exit: Exit {
            place: piece.to,
            locals: step.base,
        },
    }
}

/// A `repeat` whose last jump back this is.
pub fn open_loop(tables: &Tables, piece: Piece, last: usize) -> Option<LoopAt>
    requires tabled { AreTables tables.now }
    ensures { result ≡ open_loop_at tables.now.steps.now piece last }
{
    let step = tables.step(piece.from)?;
    Some(loop_at(piece, step, LoopKind::Open { last }))
}

/// A `while`, where a loop ends with its last jump back.
pub fn while_loop(tables: &Tables, piece: Piece, last: usize) -> Option<LoopAt>
    requires tabled { AreTables tables.now }
    ensures { result ≡ while_loop_at tables.now.steps.now piece last }
{
    let step = tables.step(piece.from)?;
    if !ends_back(tables, piece, last) {
        return None;
    }
    Some(loop_at(piece, step, LoopKind::While { back: last }))
}

/// A `repeat` that closes its locals, where a loop ends with its last jump back.
pub fn closed_loop(tables: &Tables, piece: Piece, last: usize) -> Option<LoopAt>
    requires tabled { AreTables tables.now }
    ensures { result ≡ closed_loop_at tables.now.steps.now piece last }
{
    let step = tables.step(piece.from)?;
    if !ends_back(tables, piece, last) {
        return None;
    }
    let kind = closed_kind(tables, piece, step, last)?;
    Some(loop_at(piece, step, kind))
}

// Whether a piece ends with a bare jump back to its first step.
fn ends_back(tables: &Tables, piece: Piece, last: usize) -> bool
    requires tabled { AreTables tables.now }
    ensures { result ≡ ends_back tables.now.steps.now piece last }
{
    piece.to.checked_sub(1) == Some(last) && tables.jumps_to(last, piece.from)
}

// Two CLOSEs of the locals stand at its end, and the jump out of it between them.
fn closed_kind(tables: &Tables, piece: Piece, step: Step, last: usize) -> Option<LoopKind>
    requires tabled { AreTables tables.now }
    ensures { result ≡ closed_kind tables.now.steps.now piece step last }
{
    let close = last.checked_sub(1)?;
    let jump = last.checked_sub(2)?;
    let tests_end = last.checked_sub(3)?;
    let stands = tests_end >= piece.from
        && tables.closes(close, step.base)
        && tables.closes(tests_end, step.base)
        && tables.jumps_to(jump, piece.to)
        && tables.ends_captured(close, piece.from);
    if stands {
        Some(LoopKind::Closed { tests_end, close })
    } else {
        None
    }
}

impl LoopAt {
    /// The lengths that the condition may have.
    pub fn lengths(self, tables: &Tables) -> Lengths
        requires tabled { AreTables tables.now }
        ensures { result ≡ loop_lengths tables.now.steps.now self }
    {
        let piece = self.piece;
        match self.kind {
            LoopKind::Closed { tests_end, .. } => tables.lengths_before(piece.from, tests_end),
            LoopKind::While { back } => tables.lengths_after(piece.from, back),
            LoopKind::Open { .. } => tables.lengths_before(piece.from, piece.to),
        }
    }

    /// The parts of the loop where its condition has this length.
    pub fn parts(self, tables: &Tables, length: usize) -> Option<LoopParts>
        requires tabled { AreTables tables.now }
        ensures { result ≡ loop_parts tables.now.steps.now self length }
    {
        match self.kind {
            LoopKind::Closed { tests_end, close } => {
                let from = tests_end.checked_sub(length)?;
                Some(self.closed_parts(from, tests_end, close))
            }
            LoopKind::While { back } => {
                let from = self.piece.from.checked_add(length)?;
                if from <= back {
                    Some(self.while_parts(tables, from, back))
                } else {
                    None
                }
            }
            LoopKind::Open { last } => {
                let from = self.piece.to.checked_sub(length)?;
                if from <= last {
                    Some(self.open_parts(from))
                } else {
                    None
                }
            }
        }
    }

    fn closed_parts(self, from: usize, tests_end: usize, close: usize) -> LoopParts
        ensures { result ≡ closed_parts self from tests_end close }
    {
        LoopParts {
            condition: ConditionAt {
                from,
                to: tests_end,
                target: close,
            },
            inner: BlockAt {
                closed: None,
                whole: BodyAt {
                    from: self.piece.from,
                    to: from,
                    locals_end: close,
                    may_capture: true,
                    exit: Some(self.exit),
                },
            },
        }
    }

    fn while_parts(self, tables: &Tables, from: usize, back: usize) -> LoopParts
        requires tabled { AreTables tables.now }
        ensures { result ≡ while_parts tables.now.steps.now self from back }
    {
        LoopParts {
            condition: ConditionAt {
                from: self.piece.from,
                to: from,
                target: self.piece.to,
            },
            inner: tables.block(from, back, Some(self.exit)),
        }
    }

    fn open_parts(self, from: usize) -> LoopParts
        ensures { result ≡ open_parts self from }
    {
        let to = self.piece.to;
        LoopParts {
            condition: ConditionAt {
                from,
                to,
                target: self.piece.from,
            },
            inner: BlockAt {
                closed: None,
                whole: BodyAt {
                    from: self.piece.from,
                    to: from,
                    locals_end: to,
                    may_capture: false,
                    exit: Some(self.exit),
                },
            },
        }
    }

    /// The loop with its condition, but for its block.
    pub fn shape(self, condition: usize) -> Shape
        ensures { result ≡ loop_shape self condition }
    {
        match self.kind {
            LoopKind::While { .. } => Shape::While { condition },
            LoopKind::Closed { .. } | LoopKind::Open { .. } => Shape::Repeat {
                condition: Some(condition),
            },
        }
    }
}

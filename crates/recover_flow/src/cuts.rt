// Cuts: where nothing goes from one side of a place to the other.

ghost use Rattle.std.specs.List.{list_any};
ghost use Rattle.std.specs.Prelude.{◌≡◌, ◌+◌, ◌<◌, ◌^◌, ◌++◌, Some, None, if◌then◌else◌, IfOk, OnOk, option_map};
ghost use Rattle.recover_flow.specs.Asked.{is_closed, is_other};
ghost use Rattle.recover_flow.specs.Cutting.{begun_behind, behind_jump, behind_kind, behind_place, behind_step, breaks_out, cut_behind, ends_with_body, is_of_other, pieces_of, reach_to, turn_to};
ghost use Rattle.recover_flow.specs.Tabled.{AreTables};

use crate::regions::{BodyAt, Exit, Piece};
use crate::tables::{Span, Tables};
use recover_expr::{Step, StepKind};
use std::alloc::{AllocError, Global};

/// A piece that is being read: where it begins, the end of what was read of it reaches, and the end of the loops in it.
#[derive(Clone, Copy, Debug, PartialEq, Eq)]
struct Reach {
    begin: usize,
    far: usize,
    turned: usize,
}

impl Reach {
    // The piece goes on up to there.
    fn to(&mut self, place: usize)
        ensures { self.new ≡ reach_to place self.old }
    {
        self.far = self.far.max(place);
    }

    // A loop of the piece goes up to there: what breaks to the exit in it leaves this loop.
    fn turn(&mut self, place: usize)
        ensures { self.new ≡ turn_to place self.old }
    {
        self.far = self.far.max(place);
        self.turned = self.turned.max(place);
    }
}

impl Tables<'_> {
    /// The statements of a body: a body is cut where no jump, no local and no CLOSE goes across. None where something goes past its end.
    pub fn pieces(&self, alloc: Global, at: BodyAt) -> Result<Option<Vec<Piece>>, AllocError>
        requires tabled { AreTables self.now }
        ensures { IfOk result (λ pieces. option_map (λ list. list.items) pieces ≡ pieces_of self.now.steps.now at) }
    {
        let mut pieces = Vec::new(alloc);
        let mut reach = Reach {
            begin: at.from,
            far: at.from,
            turned: 0,
        };
        for place in at.from..at.to {
            if !self.goes_behind(&mut reach, at, place) {
                return Ok(None);
            }
            cut(&mut pieces, &mut reach, place)?;
        }
        Ok(Some(pieces))
    }

    // How far the piece reaches behind the step of a number; whether it goes neither back before the piece nor past the end of the body.
    fn goes_behind(&self, reach: &mut Reach, at: BodyAt, place: usize) -> bool
        requires tabled { AreTables self.now }
        requires fits { place + 1 < 2 ^ 64 }
        ensures { (if result then Some reach.new else None) ≡ behind_place self.now.steps.now at place reach.old }
    {
        match self.step(place) {
            Some(step) => self.goes_behind_step(reach, at, place, step),
            None => false,
        }
    }

    fn goes_behind_step(&self, reach: &mut Reach, at: BodyAt, place: usize, step: Step) -> bool
        requires tabled { AreTables self.now }
        requires fits { place + 1 < 2 ^ 64 }
        ensures { (if result then Some reach.new else None) ≡ behind_step self.now.steps.now at place reach.old step }
    {
        reach.to(place + 1);
        if let Some(last) = self.last_back(place, at.to) {
            reach.turn(last.saturating_add(1));
        }
        self.goes_within(reach, at, place, step) && reach.far <= at.to
    }

    // How far a step reaches; whether it does not go back before the piece.
    fn goes_within(&self, reach: &mut Reach, at: BodyAt, place: usize, step: Step) -> bool
        requires tabled { AreTables self.now }
        ensures { (if result then Some reach.new else None) ≡ behind_kind self.now.steps.now at place step.base step.kind reach.old }
    {
        match step.kind {
            StepKind::Test { target, .. }
            | StepKind::Jump { target }
            | StepKind::Foot { target, .. } => self.jumps_within(reach, at.exit, place, target),
            StepKind::Head { foot, .. } => {
                let within = self.jumps_within(reach, at.exit, place, foot);
                reach.turn(foot.saturating_add(1));
                within
            }
            StepKind::Declaration { end, captured } => {
                if !self.ends_with_body(*reach, at, place, end) {
                    reach.to(end.saturating_add(usize::from(captured)));
                }
                true
            }
            StepKind::Close { from, .. } => {
                if from < step.base {
                    reach.to(place.saturating_add(2));
                }
                true
            }
            StepKind::Act | StepKind::Return => true,
        }
    }

    // Whether locals are those of the body, which only its end closes.
    fn ends_with_body(&self, reach: Reach, at: BodyAt, place: usize, end: usize) -> bool
        requires tabled { AreTables self.now }
        ensures { result ≡ ends_with_body self.now.steps.now at place end reach }
    {
        end == at.locals_end && reach.turned <= place && !self.is_closed(at, place)
    }

    fn jumps_within(
        &self,
        reach: &mut Reach,
        exit: Option<Exit>,
        place: usize,
        target: usize,
    ) -> bool
        ensures { (if result then Some reach.new else None) ≡ behind_jump self.now.steps.now exit place target reach.old }
    {
        if target <= place {
            return reach.begin <= target;
        }
        if !self.breaks_out(*reach, exit, place) {
            reach.to(target);
        }
        true
    }

    // Whether a jump is a break to the exit of the body, from no loop of the piece.
    fn breaks_out(&self, reach: Reach, exit: Option<Exit>, place: usize) -> bool
        ensures { result ≡ breaks_out self.now.steps.now exit place reach }
    {
        match exit {
            Some(exit) => reach.turned <= place && self.leaves(place, exit),
            None => false,
        }
    }

    // Whether a break of another loop, in the body, closes the locals of a declaration.
    fn is_closed(&self, at: BodyAt, declaration: usize) -> bool
        requires tabled { AreTables self.now }
        ensures { result ≡ is_closed self.now.steps.now at declaration }
    {
        any_of_other(self.spans(declaration), at)
    }
}

// A piece ends behind a place where it reaches no further, and the next one begins there.
fn cut(pieces: &mut Vec<Piece>, reach: &mut Reach, place: usize) -> Result<(), AllocError>
    requires fits { place + 1 < 2 ^ 64 }
    ensures pieces { OnOk result (pieces.new.items ≡ pieces.old.items ++ cut_behind place reach.old) }
    ensures begun { OnOk result (reach.new ≡ begun_behind place reach.old) }
{
    if reach.far == place + 1 {
        pieces.push(Piece {
            from: reach.begin,
            to: reach.far,
        })?;
        reach.begin = reach.far;
    }
    Ok(())
}

// Whether one of these breaks is of another loop and stands in a body.
fn any_of_other(spans: &[Span], at: BodyAt) -> bool
    ensures { result ≡ list_any (is_of_other at) spans.now }
{
    spans.iter().any(|span| is_of_other(*span, at))
}

// Whether a break of another loop stands in a body.
fn is_of_other(span: Span, at: BodyAt) -> bool
    ensures { result ≡ is_of_other at span }
{
    span.close < at.to && is_other(at.exit, span.exit)
}

fn is_other(exit: Option<Exit>, found: Exit) -> bool
    ensures { result ≡ is_other exit (Some found) }
{
    match exit {
        Some(exit) => exit.place != found.place || exit.locals != found.locals,
        None => true,
    }
}

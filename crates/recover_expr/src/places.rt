// From pcs to numbers of steps.
#![tactic(auto, using(crate::proofs::Blames::free_fits))]

ghost use Rattle.std.specs.Prelude.{◌≡◌, ◌+◌, ◌<◌, ◌^◌, IsTrue, Some, None, map, length, IfErr, IfOk, OnOk, OnErr};
ghost use Rattle.recover_expr.specs.Drafts.{view_draft};
ghost use Rattle.recover_expr.specs.Faults.{IsFaultOf};
ghost use Rattle.recover_expr.specs.Locals.{IsFaultOnlyWhere, listed, view_locals};
ghost use Rattle.recover_expr.specs.Placing.{view_reading, set_number, numbers_of, number_at, all_end_at, shared_end, head_placed, kind_placed, step_of_kind, and_step, placed};
ghost use Rattle.recover_expr.specs.Situation.{view_function};

use crate::blame::{bad_local, locals_of, not_scheme, value_logic};
use crate::draft::{Draft, DraftKind};
use crate::fault::Fault;
use crate::function::Function;
use crate::locals::{HIDDEN, Locals, all_end, from_place, up_to};
use crate::lost::Lost;
use crate::steps::{Reading, Step, StepKind};
use lua_num::Names;
use proto::LocVar;
use std::alloc::AllocError;

/// The numbers of steps, by the pcs at which they begin.
#[derive(Drop)]
struct Places {
    numbers: Vec<Option<usize>>,
}

impl Places {
    // Of these steps, behind which the last word stands.
    fn new(function: &Function, drafts: &[Draft]) -> Result<Self, AllocError>
        ensures { IfOk result (λ places. places.numbers.items ≡ numbers_of (view_function function.now) (map view_draft drafts.now)) }
    {
        let words = function.proto.code.items().len();
        let mut places = Self {
            numbers: vec![in function.alloc; None; words]?,
        };
        for (number, draft) in drafts.iter().enumerate() {
            places.set(draft.pc, number);
        }
        places.set(function.last, drafts.len());
        Ok(places)
    }

    fn set(&mut self, pc: u32, number: usize)
        ensures { self.new.numbers.items ≡ set_number pc number self.old.numbers.items }
    {
        if let Some(place) = self.numbers.get_mut(pc as usize) {
            *place = Some(number);
        }
    }

    // The step that begins at a pc.
    fn get(&self, pc: u32) -> Option<usize>
        ensures { result ≡ number_at self.now.numbers.items pc }
    {
        *self.numbers.get(pc as usize)?
    }

    // The step at a target of a draft that is no test.
    fn target(&self, draft: &Draft, target: u32) -> Result<usize, Lost>
        ensures number { IfOk result (λ number. Some number ≡ number_at self.now.numbers.items target) }
        ensures lost { OnErr result (number_at self.now.numbers.items target ≡ None) }
    {
        let pc = match draft.kind {
            DraftKind::Jump { .. } => draft.pc,
            _ => draft.next.saturating_sub(2),
        };
        self.get(target).ok_or(Lost::NotScheme { pc })
    }
}

// Where so many locals of one declaration end.
fn shared_end(
    function: &Function,
    places: &Places,
    first: usize,
    count: usize,
) -> Result<usize, Fault>
    ensures fault { IfErr result (IsFaultOf function.now.proto.now) }
    ensures low { OnOk result (first + count < 2 ^ 64) }
    ensures end { IfOk result (λ end. Some end ≡ shared_end (listed function.now.proto.now) places.now.numbers.items first count) }
    ensures refused { IfErr result (IsFaultOnlyWhere (shared_end (listed function.now.proto.now) places.now.numbers.items first count ≡ None)) }
{
    let locals = locals_of(function.proto);
    let Some(local) = locals.get(first) else {
        return Err(not_scheme(0));
    };
    if !all_end_at(locals, local.end, first, count) {
        return Err(bad_local(function.proto, local.start));
    }
    match places.get(local.end) {
        Some(end) => Ok(end),
        None => Err(bad_local(function.proto, local.start)),
    }
}

// Whether so many from one on are there, and end at a pc.
fn all_end_at(locals: &[LocVar], end: u32, first: usize, count: usize) -> bool
    ensures all { result ≡ all_end_at locals.now end first count }
    ensures low { IsTrue result → first + count < 2 ^ 64 }
{
    let behind = from_place(locals, first);
    count <= behind.len() && all_end(behind, count, end)
}

// The head of a loop with its foot at a step, whose hidden locals and variables stand from one of the list on.
fn placed_head(
    function: &Function,
    locals: &Locals,
    places: &Places,
    numeric: bool,
    foot: usize,
    first: usize,
    variables: usize,
) -> Result<StepKind, Fault>
    ensures fault { IfErr result (IsFaultOf function.now.proto.now) }
    ensures kind { IfOk result (λ kind. Some kind ≡ head_placed (view_function function.now) (view_locals locals.now) places.now.numbers.items numeric first variables foot) }
    ensures refused { IfErr result (IsFaultOnlyWhere (head_placed (view_function function.now) (view_locals locals.now) places.now.numbers.items numeric first variables foot ≡ None)) }
{
    let end = shared_end(function, places, first, HIDDEN)?;
    let first_variable = first + HIDDEN;
    let variables_end = shared_end(function, places, first_variable, variables)?;
    Ok(StepKind::Head {
        numeric,
        foot,
        end,
        variables_end,
        captured: locals.any_captured(first_variable, variables),
    })
}

// What a draft is, by numbers of steps.
fn placed_kind(
    function: &Function,
    locals: &Locals,
    places: &Places,
    draft: &Draft,
) -> Result<StepKind, Fault>
    ensures fault { IfErr result (IsFaultOf function.now.proto.now) }
    ensures kind { IfOk result (λ kind. Some kind ≡ kind_placed (view_function function.now) (view_locals locals.now) places.now.numbers.items draft.now.kind) }
    ensures refused { IfErr result (IsFaultOnlyWhere (kind_placed (view_function function.now) (view_locals locals.now) places.now.numbers.items draft.now.kind ≡ None)) }
{
    match draft.kind {
        DraftKind::Act => Ok(StepKind::Act),
        DraftKind::Return => Ok(StepKind::Return),
        DraftKind::Declaration { first, count } => Ok(StepKind::Declaration {
            end: shared_end(function, places, first, count)?,
            captured: locals.any_captured(first, count),
        }),
        DraftKind::Test {
            when,
            target,
            negated,
        } => match places.get(target) {
            Some(target) => Ok(StepKind::Test {
                when,
                target,
                negated,
            }),
            None => Err(value_logic(function.proto, draft.next.saturating_sub(2))),
        },
        DraftKind::Jump { target } => Ok(StepKind::Jump {
            target: places.target(draft, target).map_err(Lost::fault)?,
        }),
        DraftKind::Close { from, declared } => Ok(StepKind::Close { from, declared }),
        DraftKind::Head {
            numeric,
            foot,
            first,
            variables,
        } => {
            let foot = places.target(draft, foot).map_err(Lost::fault)?;
            placed_head(function, locals, places, numeric, foot, first, variables)
        }
        DraftKind::Foot { numeric, target } => Ok(StepKind::Foot {
            numeric,
            target: places.target(draft, target).map_err(Lost::fault)?,
        }),
    }
}

// The step of a draft, and its part of the source.
fn push_placed(
    reading: &mut Reading,
    kind: StepKind,
    captured: u32,
    draft: Draft,
) -> Result<(), AllocError>
    ensures parts { OnOk result (length reading.old.parts.items ≡ length reading.old.steps.items → length reading.new.parts.items ≡ length reading.new.steps.items) }
    ensures placed { OnOk result (view_reading reading.new ≡ and_step (view_draft draft) (step_of_kind kind captured (view_draft draft)) (view_reading reading.old)) }
{
    let Draft {
        pc,
        base,
        levels,
        part,
        ..
    } = draft;
    reading.steps.push(Step {
        kind,
        pc,
        base,
        captured,
        levels,
    })?;
    reading.parts.push(part)?;
    Ok(())
}

/// The steps of these drafts.
pub fn placed(
    function: &Function,
    locals: &Locals,
    params: Names,
    drafts: Vec<Draft>,
) -> Result<Reading, Fault>
    ensures parts { IfOk result (λ reading. length reading.parts.items ≡ length reading.steps.items) }
    ensures fault { IfErr result (IsFaultOf function.now.proto.now) }
    ensures placed { IfOk result (λ reading. Some (view_reading reading) ≡ placed (view_function function.now) (view_locals locals.now) params (map view_draft drafts.items)) }
    ensures refused { IfErr result (IsFaultOnlyWhere (placed (view_function function.now) (view_locals locals.now) params (map view_draft drafts.items) ≡ None)) }
{
    let places = Places::new(function, drafts.as_slice())?;
    let highest = locals.highest_captured(function.alloc)?;
    let mut reading = Reading {
        params,
        steps: Vec::with_capacity(function.alloc, drafts.len())?,
        parts: Vec::with_capacity(function.alloc, drafts.len())?,
    };
    for draft in drafts {
        let kind = placed_kind(function, locals, &places, &draft)?;
        let captured = up_to(highest.as_slice(), draft.innermost);
        push_placed(&mut reading, kind, captured, draft)?;
    }
    Ok(reading)
}

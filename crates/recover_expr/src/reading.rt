// From words to steps.
#![tactic(auto, using(crate::proofs::Blames::free_fits))]

ghost use Rattle.std.specs.Prelude.{◌≡◌, ◌∷◌, ◌++◌, [], true, false, Some, None, map, length, IfOk, IfErr, OnOk};
ghost use Rattle.proto.specs.Chunk.{own};
ghost use Rattle.proto.specs.Short.{HasShortLists};
ghost use Rattle.proto.specs.View.{view_proto};
ghost use Rattle.core_expr.specs.Values.{view_bodies};
ghost use Rattle.recover_expr.specs.Drafts.{view_draft};
ghost use Rattle.recover_expr.specs.Faults.{IsFaultOf};
ghost use Rattle.recover_expr.specs.Locals.{IsFaultOnlyWhere};
ghost use Rattle.recover_expr.specs.Placing.{view_reading};
ghost use Rattle.recover_expr.specs.Reading.{read_params, step_at, read_drafts, IsReadTo, all_declared, read_steps};
ghost use Rattle.recover_expr.specs.Reasons.{HasFault};
ghost use Rattle.recover_expr.specs.Situation.{view_function, view_state};

use crate::blame::{bad_local, locals_of, not_scheme};
use crate::draft::Draft;
use crate::fault::Fault;
use crate::function::{Function, last_pc};
use crate::locals::{all_end, own_names};
use crate::lost::Lost;
use crate::places::placed;
use crate::state::State;
use crate::steps::Reading;
use crate::words::read_step;
use core_expr::Bodies;
use lua_num::Names;
use proto::Proto;
use std::alloc::{AllocError, Global};

// Declares the parameters, which end with the last word.
fn read_params(function: &Function, state: &mut State) -> Result<Names, Fault>
    ensures fault { IfErr result (IsFaultOf function.now.proto.now) }
    ensures params { IfOk result (λ params. Some (params, view_state state.new) ≡ read_params (view_function function.now) (view_state state.old)) }
    ensures refused { IfErr result (IsFaultOnlyWhere (read_params (view_function function.now) (view_state state.old) ≡ None)) }
{
    let count = usize::from(function.proto.params);
    let starting = state.locals.starting(function.proto, 0);
    if starting != count {
        return Err(if starting == 0 {
            not_scheme(0)
        } else {
            bad_local(function.proto, 0)
        });
    }
    state.locals.declare(function.proto, count, 0, None)?;
    let names = own_names(function.alloc, function.proto, 0, count, 0)?;
    if !all_end(locals_of(function.proto), count, function.last) {
        return Err(bad_local(function.proto, 0));
    }
    Ok(names)
}

// Reads the steps up to the last word.
fn read_drafts(function: &Function, state: &mut State) -> Result<Vec<Draft>, Fault>
    ensures fault { IfErr result (IsFaultOf function.now.proto.now) }
    ensures drafts { IfOk result (λ drafts. IsReadTo (view_function function.now) (view_state state.old) (map view_draft drafts.items) (view_state state.new)) }
    ensures refused { IfErr result (IsFaultOnlyWhere (read_drafts (view_function function.now) (view_state state.old) ≡ None)) }
{
    let mut drafts = Vec::new(function.alloc);
    let mut pc = 0;
    state.locals.leave(function.proto, pc);
    for _ in 0..function.last {
        if pc >= function.last {
            return Ok(drafts);
        }
        let draft = step_at(function, state, drafts.len(), pc)?;
        pc = draft.next;
        push_draft(&mut drafts, draft)?;
        state.locals.leave(function.proto, pc);
    }
    Ok(drafts)
}

// Reads the step of a number, which begins at a pc.
fn step_at(function: &Function, state: &mut State, number: usize, pc: u32) -> Result<Draft, Fault>
    ensures fault { IfErr result (IsFaultOf function.now.proto.now) }
    ensures draft { IfOk result (λ draft. Some (view_draft draft, view_state state.new) ≡ step_at (view_function function.now) number pc (view_state state.old)) }
    ensures refused { IfErr result (IsFaultOnlyWhere (step_at (view_function function.now) number pc (view_state state.old) ≡ None)) }
{
    state.begin(number, pc).map_err(Lost::fault)?;
    read_step(function, state)
}

fn push_draft(drafts: &mut Vec<Draft>, draft: Draft) -> Result<(), AllocError>
    ensures { OnOk result (map view_draft drafts.new.items ≡ map view_draft drafts.old.items ++ view_draft draft ∷ []) }
{
    Ok(drafts.push(draft)?)
}

// Each entry of the list is declared.
fn all_declared(function: &Function, state: &State) -> Result<(), Fault>
    ensures fault { IfErr result (IsFaultOf function.now.proto.now) }
    ensures all { OnOk result (all_declared (view_function function.now) (view_state state.now).scope ≡ true) }
    ensures refused { IfErr result (IsFaultOnlyWhere (all_declared (view_function function.now) (view_state state.now).scope ≡ false)) }
{
    match locals_of(function.proto).get(state.locals.next()) {
        Some(local) if local.start <= function.last => Err(bad_local(function.proto, local.start)),
        Some(_) => Err(not_scheme(0)),
        None => Ok(()),
    }
}

/// The steps of a function, whose functions' bodies are these. `short` asks for the forms of fewest levels. The words are read once, from the first on.
pub fn read_steps(
    alloc: Global,
    proto: &Proto,
    bodies: Bodies,
    short: bool,
) -> Result<Reading, Fault>
    requires short { HasShortLists (own (view_proto proto.now)) }
    ensures read { IfOk result (λ reading. Some (view_reading reading) ≡ read_steps (view_proto proto.now) (view_bodies bodies) short) }
    ensures refused { IfErr result (IsFaultOnlyWhere (read_steps (view_proto proto.now) (view_bodies bodies) short ≡ None)) }
    ensures parts { IfOk result (λ reading. length reading.parts.items ≡ length reading.steps.items) }
    ensures fault { IfErr result (HasFault (own (view_proto proto.now))) }
{
    let last = last_pc(proto).map_err(Lost::fault)?;
    let function = Function {
        alloc,
        proto,
        short,
        last,
    };
    let mut state = State::new(alloc, bodies);
    let params = read_params(&function, &mut state)?;
    let drafts = read_drafts(&function, &mut state)?;
    all_declared(&function, &state)?;
    placed(&function, &state.locals, params, drafts)
}

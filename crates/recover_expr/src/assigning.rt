// Assignments.
#![tactic(auto, using(crate::proofs::Blames::free_fits))]

ghost use Rattle.std.specs.Prelude.{◌≡◌, Some, None, map, option_map, length, IfOk, IfErr};
ghost use Rattle.core_expr.specs.Targets.{view_target};
ghost use Rattle.core_expr.specs.Values.{view_core, view_operand};
ghost use Rattle.core_expr.specs.Writing.{view_written_list};
ghost use Rattle.recover_expr.specs.Assigning.{assignment_from, value_assignment, assigned_from, further_store, further_stores, assigned, as_statement, held, held_operand, target_of, targets, targets_written, no_targets};
ghost use Rattle.recover_expr.specs.Drafts.{view_draft};
ghost use Rattle.recover_expr.specs.Entries.{view_entry, IsLostOnlyWhere};
ghost use Rattle.recover_expr.specs.Faults.{IsFaultOf};
ghost use Rattle.recover_expr.specs.Lists.{view_straight};
ghost use Rattle.recover_expr.specs.Locals.{IsFaultOnlyWhere};
ghost use Rattle.recover_expr.specs.Situation.{view_function, view_state};
ghost use Rattle.recover_expr.specs.Stores.{view_stores};

use crate::draft::{Draft, DraftKind};
use crate::fault::Fault;
use crate::function::{FIRST_CONSTANT, Function, Word};
use crate::functions::{Named, function_statement, named_function};
use crate::lists::{Straight, assigned_values};
use crate::lost::{Lost, check};
use crate::stack::Entry;
use crate::state::State;
use crate::steps::StepPart;
use crate::stores::{Place, Store, Stored, Stores, store_of};
use crate::writing::written_target;
use core_expr::{Core, Operand, Target, WrittenList};
use lua_tree::{Exps, StatKind};

/// An assignment whose first store is a word.
pub fn assignment(function: &Function, state: &mut State, word: Word) -> Result<Draft, Fault>
    ensures fault { IfErr result (IsFaultOf function.now.proto.now) }
    ensures draft { IfOk result (λ draft. Some (view_draft draft, view_state state.new) ≡ assignment_from (view_function function.now) word (view_state state.old)) }
    ensures refused { IfErr result (IsFaultOnlyWhere (assignment_from (view_function function.now) word (view_state state.old) ≡ None)) }
{
    let (first, stored) = store_of(function, state, word)?;
    let (alloc, stack) = (function.alloc, &state.stack);
    match stored {
        Stored::Operand(operand) => {
            let stores = Stores::straight(alloc, stack, first).map_err(Lost::fault)?;
            let straight = Some(Straight::Operand(operand));
            further_stores(function, state, stores, straight, word.next)
        }
        Stored::Register(register) => {
            let stores = Stores::from_register(alloc, stack, first, register).map_err(Lost::fault)?;
            further_stores(function, state, stores, None, word.next)
        }
    }
}

/// An assignment whose first store is that of a value that goes straight into a local. The next word is at a pc.
pub fn value_assignment(
    function: &Function,
    state: &mut State,
    word: Word,
    core: Core,
    next: u32,
) -> Result<Draft, Fault>
    ensures fault { IfErr result (IsFaultOf function.now.proto.now) }
    ensures draft { IfOk result (λ draft. Some (view_draft draft, view_state state.new) ≡ value_assignment (view_function function.now) word (view_core core) next (view_state state.old)) }
    ensures refused { IfErr result (IsFaultOnlyWhere (value_assignment (view_function function.now) word (view_core core) next (view_state state.old) ≡ None)) }
{
    let _ = state
        .local(function, word.instr.a, word.pc)
        .map_err(Lost::fault)?;
    let place = Place::Local(word.instr.a);
    let first = Store { pc: word.pc, place };
    let stores = Stores::straight(function.alloc, &state.stack, first).map_err(Lost::fault)?;
    further_stores(function, state, stores, Some(Straight::Value(core)), next)
}

// The statement of stores that are not all read.
fn further_stores(
    function: &Function,
    state: &mut State,
    mut stores: Stores,
    straight: Option<Straight>,
    next: u32,
) -> Result<Draft, Fault>
    ensures fault { IfErr result (IsFaultOf function.now.proto.now) }
    ensures draft { IfOk result (λ draft. Some (view_draft draft, view_state state.new) ≡ assigned_from (view_function function.now) (option_map view_straight straight) next (view_state state.old) (view_stores stores)) }
    ensures refused { IfErr result (IsFaultOnlyWhere (assigned_from (view_function function.now) (option_map view_straight straight) next (view_state state.old) (view_stores stores) ≡ None)) }
{
    let at = read_further(function, state, &mut stores, next)?;
    assigned(function, state, stores, straight, at).map_err(Lost::fault)
}

// Reads the further stores from a pc on, until every register of the statement is used. Answers the pc of the next word.
fn read_further(
    function: &Function,
    state: &mut State,
    stores: &mut Stores,
    pc: u32,
) -> Result<u32, Fault>
    ensures fault { IfErr result (IsFaultOf function.now.proto.now) }
    ensures next { IfOk result (λ next. Some (view_stores stores.new, next, view_state state.new) ≡ further_stores (view_function function.now) (length (view_state state.old).entries) (view_stores stores.old, pc, view_state state.old)) }
    ensures refused { IfErr result (IsFaultOnlyWhere (further_stores (view_function function.now) (length (view_state state.old).entries) (view_stores stores.old, pc, view_state state.old) ≡ None)) }
{
    let count = state.stack.len();
    let mut at = pc;
    for _ in 0..count {
        if stores.are_all() {
            return Ok(at);
        }
        at = further_store(function, state, stores, at)?;
    }
    Ok(at)
}

// Reads a further store at a pc. Answers the pc of the next word.
fn further_store(
    function: &Function,
    state: &mut State,
    stores: &mut Stores,
    pc: u32,
) -> Result<u32, Fault>
    ensures fault { IfErr result (IsFaultOf function.now.proto.now) }
    ensures next { IfOk result (λ next. Some (view_stores stores.new, next, view_state state.new) ≡ further_store (view_function function.now) (view_stores stores.old) pc (view_state state.old)) }
    ensures refused { IfErr result (IsFaultOnlyWhere (further_store (view_function function.now) (view_stores stores.old) pc (view_state state.old) ≡ None)) }
{
    check(pc < function.last, pc).map_err(Lost::fault)?;
    let word = function.word(pc).map_err(Lost::fault)?;
    state.see(word.instr);
    let (further, stored) = store_of(function, state, word)?;
    stores
        .add_further(&state.stack, further, stored)
        .map_err(Lost::fault)?;
    Ok(word.next)
}

// The statement of stores that are all read.
fn assigned(
    function: &Function,
    state: &mut State,
    stores: Stores,
    straight: Option<Straight>,
    next: u32,
) -> Result<Draft, Lost>
    ensures draft { IfOk result (λ draft. Some (view_draft draft, view_state state.new) ≡ assigned (view_function function.now) (view_stores stores) (option_map view_straight straight) next (view_state state.old)) }
    ensures lost { IfErr result (IsLostOnlyWhere (assigned (view_function function.now) (view_stores stores) (option_map view_straight straight) next (view_state state.old) ≡ None)) }
{
    let Stores { stores, low, .. } = stores;
    let targets = targets(function, state, stores.as_slice(), low)?;
    let values = state.stack.take_from(low, state.pc)?;
    let named = named_function(
        function,
        state,
        targets.as_slice(),
        values.as_slice(),
        &straight,
    )?;
    match named {
        Some(Named { path, number }) => function_statement(state, path, number, next),
        None => assignment_statement(
            function,
            state,
            targets,
            values,
            straight,
            stores.as_slice(),
            next,
        ),
    }
}

// The assignment of values to targets, with these stores.
fn assignment_statement(
    function: &Function,
    state: &mut State,
    targets: Vec<Target>,
    values: Vec<Entry>,
    straight: Option<Straight>,
    stores: &[Store],
    next: u32,
) -> Result<Draft, Lost>
    ensures draft { IfOk result (λ draft. Some (view_draft draft, view_state state.new) ≡ as_statement (view_function function.now) stores.now (option_map view_straight straight) next (map view_target targets.items) (map view_entry values.items) (view_state state.old) None) }
    ensures lost { IfErr result (IsLostOnlyWhere (as_statement (view_function function.now) stores.now (option_map view_straight straight) next (map view_target targets.items) (map view_entry values.items) (view_state state.old) None ≡ None)) }
{
    let mut taken = state.taken;
    let targets = written_targets(function, state, targets, &mut taken)?;
    let values = assigned_values(function, state, values, straight, stores, next, &mut taken)?;
    let levels = targets.levels.max(values.levels).saturating_add(1);
    let part = StepPart::Statement(StatKind::Assign {
        targets: targets.exps,
        exps: values.exps,
    });
    Ok(state.draft(DraftKind::Act, next, levels, part))
}

// The single value that stands in a register as a part of a target. The values that are stored stand from a place on.
fn held(
    function: &Function,
    state: &mut State,
    register: u32,
    low: usize,
    pc: u32,
) -> Result<Core, Lost>
    ensures held { IfOk result (λ core. Some (view_core core, view_state state.new) ≡ held (view_function function.now) register low (view_state state.old)) }
    ensures lost { IfErr result (IsLostOnlyWhere (held (view_function function.now) register low (view_state state.old) ≡ None)) }
{
    match state.stack.place(register) {
        None => state.local(function, register, pc),
        Some(place) => {
            check(place < low, pc)?;
            state.stack.part(place, pc)
        }
    }
}

fn held_operand(
    function: &Function,
    state: &mut State,
    operand: u32,
    low: usize,
    pc: u32,
) -> Result<Operand, Lost>
    ensures held { IfOk result (λ held. Some (view_operand held, view_state state.new) ≡ held_operand (view_function function.now) operand low (view_state state.old)) }
    ensures lost { IfErr result (IsLostOnlyWhere (held_operand (view_function function.now) operand low (view_state state.old) ≡ None)) }
{
    match operand.checked_sub(FIRST_CONSTANT) {
        Some(number) => Ok(Operand::Constant(function.constant(number, pc)?)),
        None => Ok(Operand::Value(held(function, state, operand, low, pc)?)),
    }
}

fn target(function: &Function, state: &mut State, store: Store, low: usize) -> Result<Target, Lost>
    ensures target { IfOk result (λ target. Some (view_target target, view_state state.new) ≡ target_of (view_function function.now) low store.place (view_state state.old)) }
    ensures lost { IfErr result (IsLostOnlyWhere (target_of (view_function function.now) low store.place (view_state state.old) ≡ None)) }
{
    match store.place {
        Place::Local(register) => Ok(Target::Local(register)),
        Place::Upvalue(number) => Ok(Target::Upvalue(number)),
        Place::Global(name) => Ok(Target::Global(name)),
        Place::Index { on, key } => {
            let on = held(function, state, on, low, store.pc)?;
            let key = held_operand(function, state, key, low, store.pc)?;
            Ok(Target::Index { on, key })
        }
    }
}

// The targets, from the first on.
fn targets(
    function: &Function,
    state: &mut State,
    stores: &[Store],
    low: usize,
) -> Result<Vec<Target>, Lost>
    ensures targets { IfOk result (λ found. Some (map view_target found.items, view_state state.new) ≡ targets (view_function function.now) low stores.now (view_state state.old)) }
    ensures lost { IfErr result (IsLostOnlyWhere (targets (view_function function.now) low stores.now (view_state state.old) ≡ None)) }
{
    let mut targets = Vec::new(function.alloc);
    for store in stores.iter().rev() {
        targets.push(target(function, state, *store, low)?)?;
    }
    Ok(targets)
}

// The expressions of targets, which need a level at least.
fn written_targets(
    function: &Function,
    state: &mut State,
    targets: Vec<Target>,
    taken: &mut u32,
) -> Result<WrittenList, Lost>
    ensures wrote { IfOk result (λ list. Some (view_written_list list, taken.new, view_state state.new) ≡ targets_written (view_function function.now) (map view_target targets.items) (no_targets, taken.old, view_state state.old)) }
    ensures lost { IfErr result (IsLostOnlyWhere (targets_written (view_function function.now) (map view_target targets.items) (no_targets, taken.old, view_state state.old) ≡ None)) }
{
    let mut exps = Exps::new(function.alloc);
    let mut levels = 1;
    for target in targets {
        let written = written_target(function, state, target, taken)?;
        levels = levels.max(written.levels);
        exps.push(Box::into_inner(written.exp))?;
    }
    Ok(WrittenList { exps, levels })
}

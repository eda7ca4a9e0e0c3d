// The first place where a function breaks a rule.
ghost use Rattle.std.specs.Prelude.{◌≡◌, ◌<◌, ◌^◌, ◌&&◌, ◌==◌, not, Bool, IfOk, length};
ghost use Rattle.proto.specs.Chunk.{own};
ghost use Rattle.proto.specs.View.{view_proto};
ghost use Rattle.opcode.specs.Word.{InRange};
ghost use Rattle.rules.specs.declared.rule.Rule.{Rule as TheRule};
ghost use Rattle.rules.specs.Notes.{Notes};
ghost use Rattle.rules.specs.Words.{instr_at};
ghost use Rattle.rules.specs.Places.{further_words, is_further};
ghost use Rattle.rules.specs.Breaks.{breaks, instr_breaks, breaks_numbers as breaks_numbers_of, breaks_captured as breaks_captured_of, breaks_shape as breaks_shape_of, has_vararg as has_vararg_in, is_vararg_word as is_vararg_word_of};
ghost use Rattle.verifier.specs.Registers.{meant_in, notes_of};
ghost use Rattle.verifier.specs.Least.{AreLeast};
ghost use Rattle.verifier.specs.Rules.{first_of, rules_before_shape, all_rules, Finds};

use crate::fixed_point::{least_notes, note_at};
use crate::jumps::{breaks_end, breaks_further, breaks_jump, breaks_no_jump, breaks_results};
use crate::note::Note;
use crate::operands::{
    breaks_constant, breaks_function, breaks_name, breaks_register, breaks_upvalue,
};
use crate::words::Function;
use opcode::{Instr, Op};
use proto::Proto;
use rules::Rule;
use std::alloc::{AllocError, Global};

/// Whether a FORLOOP's three registers are not surely the numbers of a loop.
fn breaks_numbers(note: Option<Note>, instr: Instr) -> bool
    ensures { result ≡ breaks_numbers_of (meant_in note) instr.op instr }
{
    match note {
        Some(note) if instr.op == Op::ForLoop => !note.has_loop(instr.a),
        _ => false,
    }
}

/// Whether one of a FORPREP's three registers may be captured.
fn breaks_captured(note: Option<Note>, instr: Instr) -> bool
    requires fields { InRange instr }
    ensures { result ≡ breaks_captured_of (meant_in note) instr.op instr }
{
    match note {
        Some(note) if instr.op == Op::ForPrep => {
            note.may_be_captured(instr.a)
                || note.may_be_captured(instr.a + 1)
                || note.may_be_captured(instr.a + 2)
        }
        _ => false,
    }
}

fn is_vararg_word(instr: Option<Instr>) -> bool
    ensures { result ≡ is_vararg_word_of instr }
{
    matches!(instr, Some(Instr { op: Op::Vararg, .. }))
}

fn is_vararg_at(function: &Function<'_>, pc: usize) -> bool
    ensures { result ≡ (not (is_further (view_proto function.now) pc) && is_vararg_word_of (instr_at (view_proto function.now) pc)) }
{
    !function.is_further(pc) && is_vararg_word(function.instr(pc))
}

/// Whether some word is VARARG that belongs to none before it.
fn has_vararg(function: &Function<'_>) -> bool
    ensures { result ≡ has_vararg_in (further_words (view_proto function.now)) (own (view_proto function.now)).code }
{
    for pc in 0..function.len() {
        if is_vararg_at(function, pc) {
            return true;
        }
    }
    false
}

// The greatest count of registers.
const MOST_REGISTERS: u32 = 250;

/// Whether something is wrong with a function as a whole.
fn breaks_shape(function: &Function<'_>, main: bool) -> bool
    ensures { result ≡ breaks_shape_of (view_proto function.now) main }
{
    let registers = function.registers();
    let params = function.params();
    let flags = function.flags();
    registers > MOST_REGISTERS
        || registers < params
        || flags == 7 && registers <= params
        || !matches!(flags, 0 | 2 | 3 | 7)
        || flags == 0 && has_vararg(function)
        || main && function.upvalues() > 0
        || function.len() == 0
}

/// The first rule before Shape that an instruction breaks at a pc.
fn broken_before_shape(
    function: &Function<'_>,
    note: Option<Note>,
    pc: usize,
    instr: Instr,
) -> Option<Rule>
    requires small { pc < 2 ^ 32 }
    requires fields { InRange instr }
    ensures { result ≡ first_of (instr_breaks (view_proto function.now) (meant_in note) pc instr) rules_before_shape }
{
    if breaks_register(function, pc, instr) {
        Some(Rule::Register)
    } else if breaks_constant(function, instr) {
        Some(Rule::Constant)
    } else if breaks_function(function, instr) {
        Some(Rule::Function)
    } else if breaks_upvalue(function, pc, instr) {
        Some(Rule::Upvalue)
    } else if breaks_jump(function, pc, instr) {
        Some(Rule::JumpTarget)
    } else if breaks_name(function, instr) {
        Some(Rule::NameConstant)
    } else if breaks_results(function, pc, instr) {
        Some(Rule::OpenResults)
    } else if breaks_numbers(note, instr) {
        Some(Rule::LoopNumbers)
    } else if breaks_captured(note, instr) {
        Some(Rule::LoopCaptured)
    } else if breaks_further(function, pc, instr) {
        Some(Rule::FurtherWord)
    } else if breaks_no_jump(function, pc, instr) {
        Some(Rule::NoJump)
    } else {
        None
    }
}

/// The first rule before Shape that is broken at a pc.
fn word_broken(function: &Function<'_>, note: Option<Note>, pc: usize) -> Option<Rule>
    requires small { pc < 2 ^ 32 }
    ensures { (main : Bool) (notes : Notes) → notes pc ≡ meant_in note → result ≡ first_of (breaks (view_proto function.now) main notes pc) rules_before_shape }
{
    if !function.is_place(pc) {
        return None;
    }
    match function.instr(pc) {
        None => Some(Rule::BadWord),
        Some(instr) => broken_before_shape(function, note, pc, instr),
    }
}

/// Whether the code can go on past its end from a pc.
fn falls_off(function: &Function<'_>, pc: usize) -> bool
    requires small { pc < 2 ^ 32 }
    ensures { (main : Bool) (notes : Notes) → result ≡ breaks (view_proto function.now) main notes pc TheRule.FallsOff }
{
    function.is_place(pc)
        && match function.instr(pc) {
            None => false,
            Some(instr) => breaks_end(function, pc, instr),
        }
}

/// Whether Shape is broken at a pc: at the first one alone.
fn shape_broken(function: &Function<'_>, main: bool, pc: usize) -> bool
    ensures { result ≡ (pc == 0 && breaks_shape_of (view_proto function.now) main) }
{
    pc == 0 && breaks_shape(function, main)
}

/// The first rule that is broken at a pc.
fn broken_at(function: &Function<'_>, main: bool, note: Option<Note>, pc: usize) -> Option<Rule>
    requires small { pc < 2 ^ 32 }
    ensures { (notes : Notes) → notes pc ≡ meant_in note → result ≡ first_of (breaks (view_proto function.now) main notes pc) all_rules }
{
    if let Some(rule) = word_broken(function, note, pc) {
        Some(rule)
    } else if shape_broken(function, main, pc) {
        Some(Rule::Shape)
    } else if falls_off(function, pc) {
        Some(Rule::FallsOff)
    } else {
        None
    }
}

/// A rule that a function breaks, and where.
#[derive(Clone, Copy, Debug, PartialEq, Eq)]
pub struct Broken {
    pub pc: u32,
    pub rule: Rule,
}

/// The first place where a function breaks a rule under its least notes.
fn first_of_notes(function: &Function<'_>, main: bool, notes: &[Option<Note>]) -> Option<Broken>
    requires least { AreLeast (view_proto function.now) (notes_of notes.now) }
    ensures { Finds (view_proto function.now) main result }
{
    for pc in 0..function.len().max(1) {
        if let Some(rule) = broken_at(function, main, note_at(notes, pc), pc) {
            return Some(Broken {
                pc: pc as u32,
                rule,
            });
        }
    }
    None
}

/// The first place where a function breaks a rule, where it has no notes that break none. Says nothing of the functions in it.
pub fn first_broken(alloc: Global, proto: &Proto, main: bool) -> Result<Option<Broken>, AllocError>
    requires { length (own (view_proto proto.now)).code < 2 ^ 32 }
    ensures { IfOk result (Finds (view_proto proto.now) main) }
{
    let function = Function::new(alloc, proto)?;
    let notes = least_notes(alloc, &function)?;
    Ok(first_of_notes(&function, main, notes.as_slice()))
}

// Words, one by one.
#![tactic(auto, using(crate::proofs::Blames::free_fits))]

ghost use Rattle.std.specs.Prelude.{◌≡◌, Some, None, IfOk, IfErr};
ghost use Rattle.core_expr.specs.Values.{view_core};
ghost use Rattle.recover_expr.specs.Drafts.{view_draft, view_read, makes};
ghost use Rattle.recover_expr.specs.Entries.{IsLostOnlyWhere, place_in};
ghost use Rattle.recover_expr.specs.Faults.{IsFaultOf};
ghost use Rattle.recover_expr.specs.Locals.{IsFaultOnlyWhere};
ghost use Rattle.recover_expr.specs.Reading.{lone, lone_as, lone_word, plain_word, is_store, read_word, view_turn, value_to, turned, turn_at, read_step};
ghost use Rattle.recover_expr.specs.Situation.{view_function, view_state};

use crate::assigning::{assignment, value_assignment};
use crate::blame::{not_scheme, value_logic};
use crate::calls::{call, returned, tail_call};
use crate::closures::closure;
use crate::constructors::{item, new_table, set_list};
use crate::declaring::declaration;
use crate::draft::{Draft, DraftKind};
use crate::fault::Fault;
use crate::function::{Function, Word};
use crate::items::is_item;
use crate::locals::no_local_starts;
use crate::lost::Lost;
use crate::stack::Entry;
use crate::state::State;
use crate::steps::StepPart;
use crate::testing::test;
use crate::values::{get_table, load_constant, load_nil, method, operator, vararg};
use core_expr::Core;
use opcode::Op;

/// What a word does in its step.
#[derive(Drop)]
pub enum Read {
    /// It makes a value for its register A. The next word is at a pc.
    Value { core: Core, next: u32 },
    /// It changes what stands in the registers. The next word is at a pc.
    Next(u32),
    /// It ends the step.
    Step(Draft),
}

/// A value that one word makes.
pub fn value(word: Word, core: Core) -> Read
    ensures { view_read result ≡ makes (view_core core) word.next }
{
    Read::Value {
        core,
        next: word.next,
    }
}

// A word of its own: a jump, a CLOSE, or the foot of a loop.
fn lone_word(function: &Function, state: &State, word: Word) -> Result<Draft, Lost>
    ensures draft { IfOk result (λ draft. Some (view_draft draft) ≡ lone_word (view_function function.now) word (view_state state.now)) }
    ensures lost { IfErr result (IsLostOnlyWhere (lone_word (view_function function.now) word (view_state state.now) ≡ None)) }
{
    word.check(state.pc == word.pc && state.stack.is_empty())?;
    let (kind, next) = lone_kind(function, state, word)?;
    Ok(state.draft(kind, next, 1, StepPart::Nothing))
}

// What it is, and the pc of the next word.
fn lone_kind(function: &Function, state: &State, word: Word) -> Result<(DraftKind, u32), Lost>
    ensures kind { IfOk result (λ found. Some (lone found.1 (view_state state.now) found.0) ≡ lone_as word.instr.op (view_function function.now) word (view_state state.now)) }
    ensures lost { IfErr result (IsLostOnlyWhere (lone_as word.instr.op (view_function function.now) word (view_state state.now) ≡ None)) }
{
    let Word { next, instr, .. } = word;
    match instr.op {
        Op::Close => {
            let (from, declared) = (instr.a, state.locals.declaring_step(instr.a));
            Ok((DraftKind::Close { from, declared }, next))
        }
        Op::TForLoop => {
            let jump = function.jump_behind(word)?;
            let target = function.target(jump)?;
            let numeric = false;
            Ok((DraftKind::Foot { numeric, target }, jump.next))
        }
        Op::ForLoop => {
            let target = function.target(word)?;
            let numeric = true;
            Ok((DraftKind::Foot { numeric, target }, next))
        }
        _ => {
            let target = function.target(word)?;
            Ok((DraftKind::Jump { target }, next))
        }
    }
}

// A word that has no fault of its own.
fn plain_word(function: &Function, state: &mut State, word: Word) -> Result<Read, Lost>
    ensures read { IfOk result (λ read. Some (view_read read, view_state state.new) ≡ plain_word (view_function function.now) word (view_state state.old)) }
    ensures lost { IfErr result (IsLostOnlyWhere (plain_word (view_function function.now) word (view_state state.old) ≡ None)) }
{
    match word.instr.op {
        Op::Move => Ok(value(word, state.local(function, word.instr.b, word.pc)?)),
        Op::LoadK => load_constant(function, state, word),
        Op::LoadBool => Ok(value(word, Core::Bool(word.instr.b != 0))),
        Op::LoadNil => load_nil(state, word),
        Op::GetTable => get_table(function, state, word),
        Op::NewTable => new_table(function, state, word),
        Op::SetTable => item(function, state, word),
        Op::SetList => set_list(function, state, word),
        Op::Self_ => method(function, state, word),
        Op::Call => call(function, state, word),
        Op::Vararg => vararg(state, word),
        Op::Closure => closure(function, state, word),
        Op::Return => Ok(Read::Step(returned(function, state, word)?)),
        Op::TailCall => Ok(Read::Step(tail_call(function, state, word)?)),
        Op::Jmp | Op::Close | Op::ForLoop | Op::TForLoop => {
            Ok(Read::Step(lone_word(function, state, word)?))
        }
        _ => operator(function, state, word),
    }
}

// Whether a word stores a register or an operand.
fn is_store(function: &Function, state: &State, word: Word) -> bool
    ensures { result ≡ is_store (view_function function.now) word (view_state state.now) }
{
    match word.instr.op {
        Op::Move => state.stack.place(word.instr.b).is_some(),
        Op::SetGlobal | Op::SetUpval => true,
        Op::SetTable => !is_item(function, state, word),
        _ => false,
    }
}

fn read_word(function: &Function, state: &mut State, word: Word) -> Result<Read, Fault>
    ensures fault { IfErr result (IsFaultOf function.now.proto.now) }
    ensures read { IfOk result (λ read. Some (view_read read, view_state state.new) ≡ read_word (view_function function.now) word (view_state state.old)) }
    ensures refused { IfErr result (IsFaultOnlyWhere (read_word (view_function function.now) word (view_state state.old) ≡ None)) }
{
    if is_store(function, state, word) {
        return Ok(Read::Step(assignment(function, state, word)?));
    }
    match word.instr.op {
        Op::GetGlobal => Ok(value(word, Core::Global(function.global(word)?))),
        Op::GetUpval => Ok(value(word, Core::Upvalue(function.upvalue(word)?))),
        Op::LoadBool if word.instr.c != 0 => Err(value_logic(function.proto, word.pc)),
        Op::TestSet => Err(value_logic(function.proto, word.pc)),
        Op::Eq | Op::Lt | Op::Le | Op::Test => Ok(Read::Step(test(function, state, word)?)),
        _ => plain_word(function, state, word).map_err(Lost::fault),
    }
}

// What a word comes to: the pc of the next one, or the step.
#[derive(Drop)]
enum Turn {
    Next(u32),
    Step(Draft),
}

// A value that a word has made goes to the next free register, or straight into a local.
fn turned(function: &Function, state: &mut State, word: Word, read: Read) -> Result<Turn, Fault>
    ensures fault { IfErr result (IsFaultOf function.now.proto.now) }
    ensures turn { IfOk result (λ turn. Some (view_turn turn, view_state state.new) ≡ turned (view_function function.now) word (view_state state.old) (view_read read)) }
    ensures refused { IfErr result (IsFaultOnlyWhere (turned (view_function function.now) word (view_state state.old) (view_read read) ≡ None)) }
{
    match read {
        Read::Next(next) => Ok(Turn::Next(next)),
        Read::Step(draft) => Ok(Turn::Step(draft)),
        Read::Value { core, next } => value_to(function, state, word, core, next),
    }
}

fn value_to(
    function: &Function,
    state: &mut State,
    word: Word,
    core: Core,
    next: u32,
) -> Result<Turn, Fault>
    ensures fault { IfErr result (IsFaultOf function.now.proto.now) }
    ensures turn { IfOk result (λ turn. Some (view_turn turn, view_state state.new) ≡ value_to (view_function function.now) word (view_core core) next (view_state state.old) (place_in (view_state state.old).base word.instr.a)) }
    ensures refused { IfErr result (IsFaultOnlyWhere (value_to (view_function function.now) word (view_core core) next (view_state state.old) (place_in (view_state state.old).base word.instr.a) ≡ None)) }
{
    if state.stack.place(word.instr.a).is_none() {
        let draft = value_assignment(function, state, word, core, next)?;
        return Ok(Turn::Step(draft));
    }
    let entry = Entry::Value(core);
    state
        .stack
        .push_to(word.instr.a, entry, word.pc)
        .map_err(Lost::fault)?;
    Ok(Turn::Next(next))
}

// Reads the word at a pc, or the declaration of the locals that start there.
fn turn_at(function: &Function, state: &mut State, at: u32) -> Result<Turn, Fault>
    ensures fault { IfErr result (IsFaultOf function.now.proto.now) }
    ensures turn { IfOk result (λ turn. Some (view_turn turn, view_state state.new) ≡ turn_at (view_function function.now) at (view_state state.old)) }
    ensures refused { IfErr result (IsFaultOnlyWhere (turn_at (view_function function.now) at (view_state state.old) ≡ None)) }
{
    let starting = state.locals.starting(function.proto, at);
    if starting > 0 {
        return Ok(Turn::Step(declaration(function, state, at, starting)?));
    }
    if at >= function.last {
        return Err(not_scheme(state.pc));
    }
    let word = function.word(at).map_err(Lost::fault)?;
    state.see(word.instr);
    let read = read_word(function, state, word)?;
    turned(function, state, word, read)
}

/// Reads the step that begins at the state's pc.
pub fn read_step(function: &Function, state: &mut State) -> Result<Draft, Fault>
    ensures fault { IfErr result (IsFaultOf function.now.proto.now) }
    ensures draft { IfOk result (λ draft. Some (view_draft draft, view_state state.new) ≡ read_step (view_function function.now) (view_state state.old)) }
    ensures refused { IfErr result (IsFaultOnlyWhere (read_step (view_function function.now) (view_state state.old) ≡ None)) }
{
    let start = state.pc;
    no_local_starts(&state.locals, function.proto, start)?;
    let mut at = start;
    for _ in start..function.last {
        match turn_at(function, state, at)? {
            Turn::Next(next) => at = next,
            Turn::Step(draft) => return Ok(draft),
        }
    }
    // Locals may start at the last word.
    match turn_at(function, state, at)? {
        Turn::Next(_) => Err(not_scheme(start)),
        Turn::Step(draft) => Ok(draft),
    }
}

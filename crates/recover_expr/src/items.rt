// Which SETTABLE is an item of a constructor, and which a store.
ghost use Rattle.std.specs.Prelude.{◌≡◌, ◌+◌};
ghost use Rattle.recover_expr.specs.Effects.{reads_from};
ghost use Rattle.recover_expr.specs.Entries.{entries_of};
ghost use Rattle.recover_expr.specs.Items.{below_operand, below_operands, calls_method, calls_method_at, is_item, makes_above, is_so, is_wanted, is_read_behind, further_words, stores_alone, stores_next};
ghost use Rattle.recover_expr.specs.Situation.{instr_at, view_function, view_state};

use crate::constructors::maker_place;
use crate::effects::{makes_value, reads_from};
use crate::function::{Function, Word};
use crate::stack::Stack;
use crate::state::State;
use opcode::{Instr, Op};

/// Whether a SETTABLE is an item of the constructor in its register, and no store.
///
/// The next words decide. Behind an item the constructor is still wanted: the next word reads a register of the statement or makes a value above the constructor, or a local
/// starts, or the next word is the one store that comes before that of the constructor. Behind a store into a constructor of its own the statement is over, where locals
/// may end, and behind the first of several stores the next word stores too.
pub fn is_item(function: &Function, state: &State, word: Word) -> bool
    ensures { result ≡ is_item (view_function function.now) word (view_state state.now) }
{
    let Some(place) = maker_place(&state.stack, word) else {
        return false;
    };
    let Some(height) = below_operands(&state.stack, place, word.instr) else {
        return false;
    };
    if height > place + 1 {
        return !stores_next(function, &state.stack, word.next);
    }
    place > 0
        || state.locals.starting(function.proto, word.next) > 0
        || is_wanted(function, state, word)
}

// How high the stack is without the operands of a SETTABLE into the constructor at a place, where they stand on top of it.
fn below_operands(stack: &Stack, place: usize, instr: Instr) -> Option<usize>
    ensures { result ≡ below_operands stack.now.base place instr (entries_of stack.now) }
{
    let height = below_operand(stack, place, instr.c, stack.len())?;
    below_operand(stack, place, instr.b, height)
}

fn below_operand(stack: &Stack, place: usize, operand: u32, height: usize) -> Option<usize>
    ensures { result ≡ below_operand stack.now.base place operand (entries_of stack.now) height }
{
    if !stack.is_temporary(operand) {
        return Some(height);
    }
    let below = height.checked_sub(1)?;
    let on_top = stack.place(operand) == Some(below) && stack.is_single(below) && place < below;
    on_top.then_some(below)
}

// Whether the word at a pc stores a value of the statement.
fn stores_next(function: &Function, stack: &Stack, pc: u32) -> bool
    ensures { result ≡ stores_next (view_function function.now) stack.now.base pc }
{
    let Some(instr) = function.instr(pc) else {
        return false;
    };
    match instr.op {
        Op::SetGlobal | Op::SetUpval => true,
        Op::Move => instr.a < stack.base,
        Op::SetTable => stack.is_temporary(instr.c),
        _ => false,
    }
}

// Whether the words behind a SETTABLE want the constructor in its register: where a local is over, the statement is.
fn is_wanted(function: &Function, state: &State, word: Word) -> bool
    ensures { let s = view_state state.now in result ≡ is_wanted (view_function function.now) s.scope s.base word }
{
    let Some(next) = function.instr(word.next) else {
        return false;
    };
    let base = state.stack.base;
    !state.locals.is_over(function.proto, word.next)
        && (reads_from(next, base)
            || makes_above(function, word, next)
            || stores_alone(next, base) && is_read_behind(function, &state.stack, word, next))
}

// Whether the word behind a SETTABLE makes a value above the constructor in its register. Two above it may be the name of a method, of the constructor or of what the next
// statement begins with.
fn makes_above(function: &Function, word: Word, next: Instr) -> bool
    ensures { result ≡ makes_above (view_function function.now) word.instr.a word.next next }
{
    let register = word.instr.a;
    makes_value(next.op)
        && next.a > register
        && (next.a - register != 2 || calls_method(function, word.next, register))
}

// Whether the word behind a pc looks up a method of what is in a register.
fn calls_method(function: &Function, pc: u32, register: u32) -> bool
    ensures { result ≡ calls_method_at (view_function function.now) register (pc + 1) }
{
    let behind = pc.saturating_add(1);
    behind < function.last && looks_up(function, behind, register)
}

// Whether the word at a pc looks up a method of what is in a register.
fn looks_up(function: &Function, pc: u32, register: u32) -> bool
    ensures { result ≡ is_so (λ i. calls_method i register) (instr_at (view_function function.now) pc) }
{
    match function.instr(pc) {
        Some(instr) => instr.op == Op::Self_ && instr.b == register,
        None => false,
    }
}

// Whether a word that reads no register from a base on is a store.
fn stores_alone(instr: Instr, base: u32) -> bool
    ensures { result ≡ stores_alone instr base }
{
    match instr.op {
        Op::SetGlobal | Op::SetUpval | Op::SetTable => true,
        op => makes_value(op) && instr.a < base,
    }
}

// Whether the word behind the store that follows a SETTABLE reads a register of the statement.
fn is_read_behind(function: &Function, stack: &Stack, word: Word, store: Instr) -> bool
    ensures { result ≡ is_read_behind (view_function function.now) stack.now.base word.next store }
{
    let further = further_words(function, store);
    let behind = word.next.saturating_add(1).saturating_add(further);
    behind < function.last && reads_at(function, behind, stack.base)
}

// Whether the word at a pc reads a register from a base on.
fn reads_at(function: &Function, pc: u32, base: u32) -> bool
    ensures { result ≡ is_so (λ i. reads_from i base) (instr_at (view_function function.now) pc) }
{
    match function.instr(pc) {
        Some(instr) => reads_from(instr, base),
        None => false,
    }
}

// How many words belong to a store.
fn further_words(function: &Function, store: Instr) -> u32
    ensures { result ≡ further_words (view_function function.now) store.op store }
{
    match store.op {
        Op::Closure => u32::from(function.upvalues_of(store.bx).unwrap_or(0)),
        _ => 0,
    }
}

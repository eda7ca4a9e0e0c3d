// Words that make values.
ghost use Rattle.std.specs.Prelude.{◌≡◌, Some, None, IfOk, IfErr, OnOk};
ghost use Rattle.core_expr.specs.Values.{view_core};
ghost use Rattle.recover_expr.specs.Drafts.{view_read};
ghost use Rattle.recover_expr.specs.Entries.{IsLostOnlyWhere};
ghost use Rattle.recover_expr.specs.Situation.{view_function, view_state};
ghost use Rattle.recover_expr.specs.Words.{load_constant, far_method, with_method, method, load_nil, get_table, arithmetic, unary, concat, operator, vararg};

use crate::function::{FIRST_CONSTANT, Function, Word};
use crate::lost::{Lost, made_at};
use crate::stack::Entry;
use crate::state::State;
use crate::words::{Read, value};
use core_expr::Core;
use lua_tree::{BinaryOp, UnaryOp};
use opcode::{Instr, Op};

/// LOADK: a constant, or the name of a method whose number has no place in the SELF behind it.
pub fn load_constant(function: &Function, state: &mut State, word: Word) -> Result<Read, Lost>
    ensures read { IfOk result (λ read. Some (view_read read, view_state state.new) ≡ load_constant (view_function function.now) word (view_state state.old)) }
    ensures lost { IfErr result (IsLostOnlyWhere (load_constant (view_function function.now) word (view_state state.old) ≡ None)) }
{
    let number = function.constant(word.instr.bx, word.pc)?;
    match state.stack.place(word.instr.a) {
        Some(place) if place > state.stack.len() => far_method(function, state, word, number),
        _ => Ok(value(word, Core::Constant(number))),
    }
}

// The SELF behind a LOADK of its name, past its two registers.
fn far_method(function: &Function, state: &mut State, word: Word, name: u32) -> Result<Read, Lost>
    ensures read { IfOk result (λ read. Some (view_read read, view_state state.new) ≡ far_method (view_function function.now) word name (view_state state.old)) }
    ensures lost { IfErr result (IsLostOnlyWhere (far_method (view_function function.now) word name (view_state state.old) ≡ None)) }
{
    word.check(word.next < function.last)?;
    let Word { pc, next, instr } = function.word(word.next)?;
    word.check(instr.op == Op::Self_ && instr.c == word.instr.a)?;
    let on = state.pop(function, instr.b, pc)?;
    word.check(instr.a.checked_add(2) == Some(word.instr.a))?;
    push_method(state, instr.a, on, name, word.pc)?;
    Ok(Read::Next(next))
}

fn push_method(state: &mut State, a: u32, on: Core, name: u32, pc: u32) -> Result<(), Lost>
    ensures pushed { OnOk result (Some (view_state state.new) ≡ with_method a (view_core on) name (view_state state.old)) }
    ensures lost { IfErr result (IsLostOnlyWhere (with_method a (view_core on) name (view_state state.old) ≡ None)) }
{
    state.stack.push_to(a, Entry::Method { on, name }, pc)?;
    Ok(state.stack.push(Entry::More)?)
}

/// SELF.
pub fn method(function: &Function, state: &mut State, word: Word) -> Result<Read, Lost>
    ensures read { IfOk result (λ read. Some (view_read read, view_state state.new) ≡ method (view_function function.now) word (view_state state.old)) }
    ensures lost { IfErr result (IsLostOnlyWhere (method (view_function function.now) word (view_state state.old) ≡ None)) }
{
    let Instr { a, b, c, .. } = word.instr;
    let number = c.checked_sub(FIRST_CONSTANT).ok_or(word.lost())?;
    let name = function.constant(number, word.pc)?;
    let on = state.pop(function, b, word.pc)?;
    push_method(state, a, on, name, word.pc)?;
    Ok(Read::Next(word.next))
}

/// LOADNIL: a nil, or several missing values.
pub fn load_nil(state: &mut State, word: Word) -> Result<Read, Lost>
    ensures read { IfOk result (λ read. Some (view_read read, view_state state.new) ≡ load_nil word (view_state state.old)) }
    ensures lost { IfErr result (IsLostOnlyWhere (load_nil word (view_state state.old) ≡ None)) }
{
    let Instr { a, b, .. } = word.instr;
    if a == b {
        return Ok(value(word, Core::Nil));
    }
    let further = b.checked_sub(a).ok_or(word.lost())?;
    state.stack.push_to(a, Entry::Missing, word.pc)?;
    state.stack.push_missing(further)?;
    Ok(Read::Next(word.next))
}

/// GETTABLE.
pub fn get_table(function: &Function, state: &mut State, word: Word) -> Result<Read, Lost>
    ensures read { IfOk result (λ read. Some (view_read read, view_state state.new) ≡ get_table (view_function function.now) word (view_state state.old)) }
    ensures lost { IfErr result (IsLostOnlyWhere (get_table (view_function function.now) word (view_state state.old) ≡ None)) }
{
    let key = state.pop_operand(function, word.instr.c, word.pc)?;
    let on = state.pop(function, word.instr.b, word.pc)?;
    let core = made_at(word.pc, Core::index(function.alloc, on, key))?;
    Ok(value(word, core))
}

fn arithmetic(
    function: &Function,
    state: &mut State,
    word: Word,
    op: BinaryOp,
) -> Result<Read, Lost>
    ensures read { IfOk result (λ read. Some (view_read read, view_state state.new) ≡ arithmetic (view_function function.now) word op (view_state state.old)) }
    ensures lost { IfErr result (IsLostOnlyWhere (arithmetic (view_function function.now) word op (view_state state.old) ≡ None)) }
{
    let right = state.pop_operand(function, word.instr.c, word.pc)?;
    let left = state.pop_operand(function, word.instr.b, word.pc)?;
    let core = made_at(word.pc, Core::binary(function.alloc, op, left, right))?;
    Ok(value(word, core))
}

fn unary(function: &Function, state: &mut State, word: Word, op: UnaryOp) -> Result<Read, Lost>
    ensures read { IfOk result (λ read. Some (view_read read, view_state state.new) ≡ unary (view_function function.now) word op (view_state state.old)) }
    ensures lost { IfErr result (IsLostOnlyWhere (unary (view_function function.now) word op (view_state state.old) ≡ None)) }
{
    let of = state.pop(function, word.instr.b, word.pc)?;
    let core = made_at(word.pc, Core::unary(function.alloc, op, of))?;
    Ok(value(word, core))
}

// CONCAT, of the values from one register up to the highest.
fn concat(function: &Function, state: &mut State, word: Word) -> Result<Read, Lost>
    ensures read { IfOk result (λ read. Some (view_read read, view_state state.new) ≡ concat word (view_state state.old)) }
    ensures lost { IfErr result (IsLostOnlyWhere (concat word (view_state state.old) ≡ None)) }
{
    let first = state.stack.place(word.instr.b).ok_or(word.lost())?;
    let last = state.stack.place(word.instr.c).ok_or(word.lost())?;
    word.check(first < last && state.stack.len().checked_sub(1) == Some(last))?;
    let operands = state.stack.pop_from(function.alloc, first, word.pc)?;
    let core = made_at(word.pc, Core::concat(operands))?;
    Ok(value(word, core))
}

/// A word of an operator.
pub fn operator(function: &Function, state: &mut State, word: Word) -> Result<Read, Lost>
    ensures read { IfOk result (λ read. Some (view_read read, view_state state.new) ≡ operator (view_function function.now) word (view_state state.old)) }
    ensures lost { IfErr result (IsLostOnlyWhere (operator (view_function function.now) word (view_state state.old) ≡ None)) }
{
    match word.instr.op {
        Op::Add => arithmetic(function, state, word, BinaryOp::Add),
        Op::Sub => arithmetic(function, state, word, BinaryOp::Sub),
        Op::Mul => arithmetic(function, state, word, BinaryOp::Mul),
        Op::Div => arithmetic(function, state, word, BinaryOp::Div),
        Op::Mod => arithmetic(function, state, word, BinaryOp::Rem),
        Op::Pow => arithmetic(function, state, word, BinaryOp::Pow),
        Op::Unm => unary(function, state, word, UnaryOp::Neg),
        Op::Not => unary(function, state, word, UnaryOp::Not),
        Op::Len => unary(function, state, word, UnaryOp::Len),
        Op::Concat => concat(function, state, word),
        _ => Err(word.lost()),
    }
}

/// `...`, for one value, so many, or all.
pub fn vararg(state: &mut State, word: Word) -> Result<Read, Lost>
    ensures read { IfOk result (λ read. Some (view_read read, view_state state.new) ≡ vararg word (view_state state.old)) }
    ensures lost { IfErr result (IsLostOnlyWhere (vararg word (view_state state.old) ≡ None)) }
{
    let Instr { a, b, .. } = word.instr;
    match b {
        0 => state.stack.push_to(a, Entry::Open(Core::Vararg), word.pc)?,
        1 => return Err(word.lost()),
        2 => return Ok(value(word, Core::Vararg)),
        count => {
            state.stack.push_to(a, Entry::Value(Core::Vararg), word.pc)?;
            state.stack.push_more(count.saturating_sub(2))?;
        }
    }
    Ok(Read::Next(word.next))
}

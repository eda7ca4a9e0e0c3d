// Constructors, and their items.
ghost use Rattle.std.specs.Prelude.{◌≡◌, ◌<◌, ◌^◌, Some, None, IfOk, IfErr, IfSome, OnOk};
ghost use Rattle.recover_expr.specs.Constructors.{new_table, maker_place, hold_items, item, list_items, set_list, behind_list};
ghost use Rattle.recover_expr.specs.Drafts.{view_read};
ghost use Rattle.recover_expr.specs.Entries.{IsLostOnlyWhere, entries_of};
ghost use Rattle.recover_expr.specs.Situation.{view_function, view_state};

use crate::function::{Function, Word};
use crate::lost::Lost;
use crate::stack::{Entry, Stack};
use crate::state::State;
use crate::words::Read;
use core_expr::{CoreItem, CoreItems};

/// NEWTABLE.
pub fn new_table(function: &Function, state: &mut State, word: Word) -> Result<Read, Lost>
    ensures read { IfOk result (λ read. Some (view_read read, view_state state.new) ≡ new_table word (view_state state.old)) }
    ensures lost { IfErr result (IsLostOnlyWhere (new_table word (view_state state.old) ≡ None)) }
{
    let maker = Entry::Maker {
        items: CoreItems::new(function.alloc),
        open: false,
    };
    state.stack.push_to(word.instr.a, maker, word.pc)?;
    Ok(Read::Next(word.next))
}

/// The place of the constructor in the register A.
pub fn maker_place(stack: &Stack, word: Word) -> Option<usize>
    ensures place { result ≡ maker_place word stack.now.base (entries_of stack.now) }
    ensures low { IfSome result (λ place. place < 2 ^ 32) }
{
    let place = stack.place(word.instr.a)?;
    stack.is_maker(place).then_some(place)
}

/// SETTABLE, as an item with a key.
pub fn item(function: &Function, state: &mut State, word: Word) -> Result<Read, Lost>
    ensures read { IfOk result (λ read. Some (view_read read, view_state state.new) ≡ item (view_function function.now) word (view_state state.old)) }
    ensures lost { IfErr result (IsLostOnlyWhere (item (view_function function.now) word (view_state state.old) ≡ None)) }
{
    let Word { pc, instr, .. } = word;
    let place = maker_place(&state.stack, word).ok_or(word.lost())?;
    let value = state.pop_operand(function, instr.c, pc)?;
    let key = state.pop_operand(function, instr.b, pc)?;
    hold_items(&mut state.stack, place, pc)?;
    state
        .stack
        .push_item(place, CoreItem::Keyed(key, value), pc)?;
    Ok(Read::Next(word.next))
}

// The values above the constructor at a place become its next items, and stay held in their registers.
fn hold_items(stack: &mut Stack, place: usize, pc: u32) -> Result<(), Lost>
    requires { place < 2 ^ 32 }
    ensures base { stack.new.base ≡ stack.old.base }
    ensures held { OnOk result (Some (entries_of stack.new) ≡ hold_items place (entries_of stack.old)) }
    ensures lost { IfErr result (IsLostOnlyWhere (hold_items place (entries_of stack.old) ≡ None)) }
{
    for at in stack.behind_held(place)..stack.len() {
        let core = stack.hold(at, pc)?;
        stack.push_item(place, CoreItem::Positional(core), pc)?;
    }
    Ok(())
}

/// SETLIST: all values above a constructor have become its items, and their registers are free.
pub fn set_list(function: &Function, state: &mut State, word: Word) -> Result<Read, Lost>
    ensures read { IfOk result (λ read. Some (view_read read, view_state state.new) ≡ set_list (view_function function.now) word (view_state state.old)) }
    ensures lost { IfErr result (IsLostOnlyWhere (set_list (view_function function.now) word (view_state state.old) ≡ None)) }
{
    let place = maker_place(&state.stack, word).ok_or(word.lost())?;
    list_items(&mut state.stack, place, word)?;
    state.stack.truncate(place + 1);
    Ok(Read::Next(behind_list(function, word)?))
}

// The field B counts the values above the constructor at a place, or is 0 where the last one gives all its values.
fn list_items(stack: &mut Stack, place: usize, word: Word) -> Result<(), Lost>
    requires { place < 2 ^ 32 }
    ensures base { stack.new.base ≡ stack.old.base }
    ensures held { OnOk result (Some (entries_of stack.new) ≡ list_items place word.instr.b (entries_of stack.old)) }
    ensures lost { IfErr result (IsLostOnlyWhere (list_items place word.instr.b (entries_of stack.old) ≡ None)) }
{
    let Word { pc, instr, .. } = word;
    if instr.b == 0 {
        let last = stack.pop_open(pc)?;
        hold_items(stack, place, pc)?;
        stack.push_item(place, CoreItem::Positional(last), pc)?;
        stack.open_maker(place);
        return Ok(());
    }
    word.check(stack.len().checked_sub(place + 1) == Some(instr.b as usize))?;
    hold_items(stack, place, pc)
}

// The pc behind a SETLIST, whose number may stand in a further word.
fn behind_list(function: &Function, word: Word) -> Result<u32, Lost>
    ensures next { IfOk result (λ next. Some next ≡ behind_list (view_function function.now) word) }
    ensures lost { IfErr result (IsLostOnlyWhere (behind_list (view_function function.now) word ≡ None)) }
{
    let further = u32::from(word.instr.c == 0);
    let last = function.last;
    let next = word.next.checked_add(further).ok_or(word.lost())?;
    word.check(next <= last)?;
    Ok(next)
}

// Words that store, and which of them are those of one assignment.
#![tactic(auto, using(crate::proofs::Blames::free_fits))]

ghost use Rattle.std.specs.Prelude.{◌≡◌, length, Some, None, IfOk, IfErr, OnOk};
ghost use Rattle.recover_expr.specs.Entries.{IsLostOnlyWhere, entries_of};
ghost use Rattle.recover_expr.specs.Faults.{IsFaultOf};
ghost use Rattle.recover_expr.specs.Locals.{IsFaultOnlyWhere};
ghost use Rattle.recover_expr.specs.Situation.{view_function, view_state};
ghost use Rattle.recover_expr.specs.Stores.{view_stored, view_stores, stored_register, stored_operand, store_as, store_of, none_used, use_place, use_part, add, add_further, straight, from_register, are_all};

use crate::blame::not_scheme;
use crate::fault::Fault;
use crate::function::{FIRST_CONSTANT, Function, Word};
use crate::lost::{Lost, check};
use crate::stack::Stack;
use crate::state::State;
use core_expr::{Core, Operand};
use opcode::Op;
use std::alloc::{AllocError, Global};

/// What a word stores to. A table and its key are fields of the word.
#[derive(Clone, Copy)]
pub enum Place {
    Local(u32),
    Upvalue(u32),
    Global(u32),
    Index { on: u32, key: u32 },
}

/// What a word stores: a register of the statement, by its place, or something that needs none.
#[derive(Drop)]
pub enum Stored {
    Register(usize),
    Operand(Operand),
}

/// Where the word at a pc stores to.
#[derive(Clone, Copy)]
pub struct Store {
    pub pc: u32,
    pub place: Place,
}

// The register or the local that a word stores.
fn stored_register(
    function: &Function,
    state: &State,
    register: u32,
    pc: u32,
) -> Result<Stored, Lost>
    ensures stored { IfOk result (λ stored. Some (view_stored stored) ≡ stored_register (view_function function.now) (view_state state.now) register) }
    ensures lost { IfErr result (IsLostOnlyWhere (stored_register (view_function function.now) (view_state state.now) register ≡ None)) }
{
    match state.stack.place(register) {
        Some(place) => Ok(Stored::Register(place)),
        None => {
            let local = state.local(function, register, pc)?;
            Ok(Stored::Operand(Operand::Value(local)))
        }
    }
}

// The register, the local or the constant that a SETTABLE stores.
fn stored_operand(function: &Function, state: &State, word: Word) -> Result<Stored, Lost>
    ensures stored { IfOk result (λ stored. Some (view_stored stored) ≡ stored_operand (view_function function.now) (view_state state.now) word.instr.c) }
    ensures lost { IfErr result (IsLostOnlyWhere (stored_operand (view_function function.now) (view_state state.now) word.instr.c ≡ None)) }
{
    match word.instr.c.checked_sub(FIRST_CONSTANT) {
        Some(number) => {
            let number = function.constant(number, word.pc)?;
            Ok(Stored::Operand(Operand::Constant(number)))
        }
        None => stored_register(function, state, word.instr.c, word.pc),
    }
}

// A word that stores to a part of a table.
fn table_store(function: &Function, state: &State, word: Word) -> Result<(Place, Stored), Lost>
    ensures store { IfOk result (λ store. Some (store.0, view_stored store.1) ≡ store_as Op.SetTable (view_function function.now) word (view_state state.now)) }
    ensures lost { IfErr result (IsLostOnlyWhere (store_as Op.SetTable (view_function function.now) word (view_state state.now) ≡ None)) }
{
    let stored = stored_operand(function, state, word)?;
    let (on, key) = (word.instr.a, word.instr.b);
    Ok((Place::Index { on, key }, stored))
}

// A word that stores to a local.
fn local_store(function: &Function, state: &State, word: Word) -> Result<(Place, Stored), Lost>
    ensures store { IfOk result (λ store. Some (store.0, view_stored store.1) ≡ store_as Op.Move (view_function function.now) word (view_state state.now)) }
    ensures lost { IfErr result (IsLostOnlyWhere (store_as Op.Move (view_function function.now) word (view_state state.now) ≡ None)) }
{
    let Word { pc, instr, .. } = word;
    let register = state.stack.place(instr.b).ok_or(word.lost())?;
    word.check(state.stack.place(instr.a).is_none())?;
    let _ = state.local(function, instr.a, pc)?;
    Ok((Place::Local(instr.a), Stored::Register(register)))
}

fn global_store(function: &Function, state: &State, word: Word) -> Result<(Place, Stored), Fault>
    ensures fault { IfErr result (IsFaultOf function.now.proto.now) }
    ensures store { IfOk result (λ store. Some (store.0, view_stored store.1) ≡ store_as Op.SetGlobal (view_function function.now) word (view_state state.now)) }
    ensures refused { IfErr result (IsFaultOnlyWhere (store_as Op.SetGlobal (view_function function.now) word (view_state state.now) ≡ None)) }
{
    let place = Place::Global(function.global(word)?);
    let stored = stored_register(function, state, word.instr.a, word.pc).map_err(Lost::fault)?;
    Ok((place, stored))
}

fn upvalue_store(function: &Function, state: &State, word: Word) -> Result<(Place, Stored), Fault>
    ensures fault { IfErr result (IsFaultOf function.now.proto.now) }
    ensures store { IfOk result (λ store. Some (store.0, view_stored store.1) ≡ store_as Op.SetUpval (view_function function.now) word (view_state state.now)) }
    ensures refused { IfErr result (IsFaultOnlyWhere (store_as Op.SetUpval (view_function function.now) word (view_state state.now) ≡ None)) }
{
    let place = Place::Upvalue(function.upvalue(word)?);
    let stored = stored_register(function, state, word.instr.a, word.pc).map_err(Lost::fault)?;
    Ok((place, stored))
}

/// Where a word stores to, and what it stores.
pub fn store_of(function: &Function, state: &State, word: Word) -> Result<(Store, Stored), Fault>
    ensures fault { IfErr result (IsFaultOf function.now.proto.now) }
    ensures store { IfOk result (λ store. Some (store.0, view_stored store.1) ≡ store_of (view_function function.now) word (view_state state.now)) }
    ensures refused { IfErr result (IsFaultOnlyWhere (store_of (view_function function.now) word (view_state state.now) ≡ None)) }
{
    let (place, stored) = match word.instr.op {
        Op::SetGlobal => global_store(function, state, word)?,
        Op::SetUpval => upvalue_store(function, state, word)?,
        Op::SetTable => table_store(function, state, word).map_err(Lost::fault)?,
        Op::Move => local_store(function, state, word).map_err(Lost::fault)?,
        _ => return Err(not_scheme(word.pc)),
    };
    let pc = word.pc;
    Ok((Store { pc, place }, stored))
}

/// The stores of one assignment, as far as they are read: from the last target back to the first.
#[derive(Drop)]
pub struct Stores {
    pub stores: Vec<Store>,
    /// The values that are stored stand from this place on. Below it stand parts of targets, and values whose stores are to come.
    pub low: usize,
    // Which places are used, and how many of those that must be are not yet.
    used: Vec<bool>,
    left: usize,
}

impl Stores {
    // None of so many registers is used.
    fn new(alloc: Global, count: usize) -> Result<Self, AllocError>
        ensures { IfOk result (λ stores. view_stores stores ≡ none_used count) }
    {
        Ok(Self {
            stores: Vec::new(alloc),
            low: count,
            used: vec![in alloc; false; count]?,
            left: count,
        })
    }

    /// The first store needs no register.
    pub fn straight(alloc: Global, stack: &Stack, first: Store) -> Result<Self, Lost>
        ensures added { IfOk result (λ stores. Some (view_stores stores) ≡ straight stack.now.base (length (entries_of stack.now)) first) }
        ensures lost { IfErr result (IsLostOnlyWhere (straight stack.now.base (length (entries_of stack.now)) first ≡ None)) }
    {
        let mut stores = Self::new(alloc, stack.len())?;
        stores.add(stack, first)?;
        Ok(stores)
    }

    /// The first store is that of a register. What stands above it is stored nowhere.
    pub fn from_register(
        alloc: Global,
        stack: &Stack,
        first: Store,
        register: usize,
    ) -> Result<Self, Lost>
        ensures added { IfOk result (λ stores. Some (view_stores stores) ≡ from_register stack.now.base (length (entries_of stack.now)) first register) }
        ensures lost { IfErr result (IsLostOnlyWhere (from_register stack.now.base (length (entries_of stack.now)) first register ≡ None)) }
    {
        check(register < stack.len(), first.pc)?;
        let mut stores = Self::new(alloc, register + 1)?;
        stores.add_further(stack, first, Stored::Register(register))?;
        Ok(stores)
    }

    /// Whether every register of the statement is used, so that the assignment is over.
    pub fn are_all(&self) -> bool
        ensures { result ≡ are_all (view_stores self.now) }
    {
        self.left == 0
    }

    /// The value below those that are stored is stored, if it is this one and no part of a target.
    pub fn add_further(&mut self, stack: &Stack, store: Store, stored: Stored) -> Result<(), Lost>
        ensures added { OnOk result (Some (view_stores self.new) ≡ add_further stack.now.base store (view_stored stored) (view_stores self.old)) }
        ensures lost { IfErr result (IsLostOnlyWhere (add_further stack.now.base store (view_stored stored) (view_stores self.old) ≡ None)) }
    {
        let Stored::Register(register) = stored else {
            return Err(Lost::NotScheme { pc: store.pc });
        };
        check(self.low.checked_sub(1) == Some(register), store.pc)?;
        check(self.used.get(register) == Some(&false), store.pc)?;
        self.use_place(register);
        self.low = register;
        self.add(stack, store)
    }

    // A store, with the parts of its target.
    fn add(&mut self, stack: &Stack, store: Store) -> Result<(), Lost>
        ensures added { OnOk result (Some (view_stores self.new) ≡ add stack.now.base store (view_stores self.old)) }
        ensures lost { IfErr result (IsLostOnlyWhere (add stack.now.base store (view_stores self.old) ≡ None)) }
    {
        if let Place::Index { on, key } = store.place {
            self.use_part(stack, on, store.pc)?;
            self.use_part(stack, key, store.pc)?;
        }
        Ok(self.stores.push(store)?)
    }

    fn use_part(&mut self, stack: &Stack, operand: u32, pc: u32) -> Result<(), Lost>
        ensures used { OnOk result (Some (view_stores self.new) ≡ use_part stack.now.base operand (view_stores self.old)) }
        ensures lost { IfErr result (IsLostOnlyWhere (use_part stack.now.base operand (view_stores self.old) ≡ None)) }
    {
        match stack.place(operand) {
            Some(place) if stack.is_temporary(operand) => {
                check(place < self.used.len(), pc)?;
                self.use_place(place);
            }
            _ => {}
        }
        Ok(())
    }

    fn use_place(&mut self, place: usize)
        ensures { view_stores self.new ≡ use_place place (view_stores self.old) }
    {
        if self.used.get(place) == Some(&false) {
            self.used[place] = true;
            self.left = self.left.saturating_sub(1);
        }
    }
}

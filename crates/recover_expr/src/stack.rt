// The values that the words of a statement have made so far, in the registers above the locals.
ghost use Rattle.std.specs.Prelude.{ℕ, ◌≡◌, ◌==◌, ◌^◌, ◌<◌, [], ◌∷◌, ◌++◌, length, map, take, slice_get, Some, None, IfSome, IfNone, IfOk, IfErr, OnOk};
ghost use Rattle.core_expr.specs.Values.{local_value, view_core, view_core_list};
ghost use Rattle.recover_expr.specs.Entries.{Entries, value_entry, view_entry, entries_of, IsLostOnlyWhere, is_single, single_of, singles_of, is_at, is_maker, is_method, is_held, place_in, is_temporary, set_next, more, more_entry, missing_entry, take_from, take_singles, take_at, take_open, take_method, take_list, view_listed, part, part_at, hold, held_at, behind_held, with_item, opened};

use crate::function::FIRST_CONSTANT;
use crate::lost::{Lost, check, made_at};
use core_expr::{Core, CoreItem, CoreItems, Cores};
use std::alloc::{AllocError, Global};
use std::mem;

/// What stands in a register.
#[derive(Drop)]
pub enum Entry {
    Value(Core),
    /// A constructor, whose items may still come.
    Maker { items: CoreItems, open: bool },
    /// A further value of the call or `...` below, or the second register of a method.
    More,
    /// One of several registers that a LOADNIL clears, for values that are missing.
    Missing,
    /// An item that the constructor below has taken.
    Held,
    /// All values of a call or `...`.
    Open(Core),
    /// A method of a value, by the number of its name.
    Method { on: Core, name: u32 },
}

impl Entry {
    /// A single value.
    pub fn is_single(&self) -> bool
        ensures { result ≡ is_single (view_entry self.now) }
    {
        matches!(self, Entry::Value(_) | Entry::Maker { .. })
    }

    // The register, where it is the value of a local.
    fn local(&self) -> Option<u32>
        ensures local { IfSome result (λ register. view_entry self.now ≡ value_entry (local_value register)) }
        ensures other { IfNone result ((place : ℕ) (entries : Entries) → part_at place entries (Some (view_entry self.now)) ≡ held_at place entries (Some (view_entry self.now))) }
    {
        let Entry::Value(core) = self else {
            return None;
        };
        let Core::Local(register) = core else {
            return None;
        };
        Some(*register)
    }

    /// The single value that it is, at a pc.
    pub fn into_core(self, pc: u32) -> Result<Core, Lost>
        ensures made { IfOk result (λ core. Some (view_core core) ≡ single_of (view_entry self)) }
        ensures lost { IfErr result (IsLostOnlyWhere (single_of (view_entry self) ≡ None)) }
    {
        match self {
            Entry::Value(core) => Ok(core),
            Entry::Maker { items, open } => made_at(pc, Core::table(items, open)),
            _ => Err(Lost::NotScheme { pc }),
        }
    }
}

/// A list of values, and whether the last one gives all its values.
#[derive(Drop)]
pub struct Values {
    pub cores: Cores,
    pub open: bool,
}

/// Single values.
pub fn into_cores(alloc: Global, entries: Vec<Entry>, pc: u32) -> Result<Cores, Lost>
    ensures made { IfOk result (λ cores. Some (view_core_list cores) ≡ singles_of (map view_entry entries.items)) }
    ensures lost { IfErr result (IsLostOnlyWhere (singles_of (map view_entry entries.items) ≡ None)) }
{
    let mut cores = Cores::new(alloc);
    for entry in entries {
        cores.push(entry.into_core(pc)?)?;
    }
    Ok(cores)
}

/// The registers above the locals of which there are `base`.
#[derive(Drop)]
pub struct Stack {
    pub base: u32,
    entries: Vec<Entry>,
}

impl Stack {
    /// No locals and no values.
    pub fn new(alloc: Global) -> Self
        ensures base { result.base ≡ 0 }
        ensures entries { entries_of result ≡ [] }
    {
        Self {
            base: 0,
            entries: Vec::new(alloc),
        }
    }

    /// So many locals, and no values.
    pub fn begin(&mut self, base: u32)
        ensures base { self.new.base ≡ base }
        ensures entries { entries_of self.new ≡ [] }
    {
        self.base = base;
        self.entries.clear();
    }

    /// What stands in the registers, from the lowest on.
    pub fn entries(&self) -> &[Entry]
        ensures { map view_entry result.now ≡ entries_of self.now }
    {
        self.entries.as_slice()
    }

    pub fn is_empty(&self) -> bool
        ensures { result ≡ (length (entries_of self.now) == 0) }
    {
        self.entries.is_empty()
    }

    pub fn len(&self) -> usize
        ensures { result ≡ length (entries_of self.now) }
    {
        self.entries.len()
    }

    /// The place of a register among these; `None` for a local's.
    pub fn place(&self, register: u32) -> Option<usize>
        ensures { result ≡ place_in self.now.base register }
    {
        Some(register.checked_sub(self.base)? as usize)
    }

    /// Whether an operand is one of these registers, and no local and no constant.
    pub fn is_temporary(&self, operand: u32) -> bool
        ensures { result ≡ is_temporary self.now.base operand }
    {
        self.base <= operand && operand < FIRST_CONSTANT
    }

    /// Sets the next free register.
    pub fn push(&mut self, entry: Entry) -> Result<(), AllocError>
        ensures base { self.new.base ≡ self.old.base }
        ensures entries { OnOk result (entries_of self.new ≡ entries_of self.old ++ view_entry entry ∷ []) }
    {
        self.entries.push(entry)?;
        Ok(())
    }

    /// Sets a register to an entry, where it is the next free one.
    pub fn push_to(&mut self, register: u32, entry: Entry, pc: u32) -> Result<(), Lost>
        ensures base { self.new.base ≡ self.old.base }
        ensures entries { OnOk result (Some (entries_of self.new) ≡ set_next self.old.base register (view_entry entry) (entries_of self.old)) }
        ensures lost { IfErr result (IsLostOnlyWhere (set_next self.old.base register (view_entry entry) (entries_of self.old) ≡ None)) }
    {
        check(self.place(register) == Some(self.len()), pc)?;
        Ok(self.push(entry)?)
    }

    /// Sets so many further registers to further values.
    pub fn push_more(&mut self, count: u32) -> Result<(), AllocError>
        ensures base { self.new.base ≡ self.old.base }
        ensures entries { OnOk result (entries_of self.new ≡ entries_of self.old ++ more count more_entry) }
    {
        for _ in 0..count {
            self.push(Entry::More)?;
        }
        Ok(())
    }

    /// Sets so many registers to missing values.
    pub fn push_missing(&mut self, count: u32) -> Result<(), AllocError>
        ensures base { self.new.base ≡ self.old.base }
        ensures entries { OnOk result (entries_of self.new ≡ entries_of self.old ++ more count missing_entry) }
    {
        for _ in 0..count {
            self.push(Entry::Missing)?;
        }
        Ok(())
    }

    /// Takes the single value out of the highest register, where that is at this place.
    pub fn pop_at(&mut self, place: usize, pc: u32) -> Result<Core, Lost>
        ensures base { self.new.base ≡ self.old.base }
        ensures taken { IfOk result (λ taken. Some (view_core taken, entries_of self.new) ≡ take_at place (entries_of self.old)) }
        ensures lost { IfErr result (IsLostOnlyWhere (take_at place (entries_of self.old) ≡ None)) }
    {
        check(self.len().checked_sub(1) == Some(place), pc)?;
        match self.entries.pop() {
            Some(entry) => entry.into_core(pc),
            None => Err(Lost::NotScheme { pc }),
        }
    }

    /// Takes the single values from a place on.
    pub fn pop_from(&mut self, alloc: Global, first: usize, pc: u32) -> Result<Cores, Lost>
        ensures base { self.new.base ≡ self.old.base }
        ensures taken { IfOk result (λ taken. Some (view_core_list taken, entries_of self.new) ≡ take_singles first (entries_of self.old)) }
        ensures lost { IfErr result (IsLostOnlyWhere (take_singles first (entries_of self.old) ≡ None)) }
    {
        into_cores(alloc, self.take_from(first, pc)?, pc)
    }

    /// Takes all values of the call or `...` in the highest register.
    pub fn pop_open(&mut self, pc: u32) -> Result<Core, Lost>
        ensures base { self.new.base ≡ self.old.base }
        ensures taken { IfOk result (λ taken. Some (view_core taken, entries_of self.new) ≡ take_open (entries_of self.old)) }
        ensures lost { IfErr result (IsLostOnlyWhere (take_open (entries_of self.old) ≡ None)) }
    {
        match self.entries.pop() {
            Some(Entry::Open(core)) => Ok(core),
            _ => Err(Lost::NotScheme { pc }),
        }
    }

    /// Takes the values from a place on that a field of a word counts: one more than there are, or 0 where the last one is open.
    pub fn pop_list(
        &mut self,
        alloc: Global,
        first: usize,
        field: u32,
        pc: u32,
    ) -> Result<Values, Lost>
        ensures base { self.new.base ≡ self.old.base }
        ensures taken { IfOk result (λ taken. Some (view_listed taken, entries_of self.new) ≡ take_list first field (entries_of self.old)) }
        ensures lost { IfErr result (IsLostOnlyWhere (take_list first field (entries_of self.old) ≡ None)) }
    {
        let Some(count) = field.checked_sub(1) else {
            let last = self.pop_open(pc)?;
            let mut cores = self.pop_from(alloc, first, pc)?;
            cores.push(last)?;
            return Ok(Values { cores, open: true });
        };
        check(self.len().checked_sub(first) == Some(count as usize), pc)?;
        let cores = self.pop_from(alloc, first, pc)?;
        Ok(Values { cores, open: false })
    }

    /// Takes the method of the two highest registers, where the lower one is at this place.
    pub fn pop_method(&mut self, place: usize, pc: u32) -> Result<(Core, u32), Lost>
        ensures base { self.new.base ≡ self.old.base }
        ensures taken { IfOk result (λ taken. Some ((view_core taken.0, taken.1), entries_of self.new) ≡ take_method place (entries_of self.old)) }
        ensures lost { IfErr result (IsLostOnlyWhere (take_method place (entries_of self.old) ≡ None)) }
    {
        check(self.len().checked_sub(2) == Some(place), pc)?;
        self.entries.truncate(place + 1);
        let Some(entry) = self.entries.pop() else {
            return Err(Lost::NotScheme { pc });
        };
        match entry {
            Entry::Method { on, name } => Ok((on, name)),
            _ => Err(Lost::NotScheme { pc }),
        }
    }

    /// Whether a method stands at a place.
    pub fn is_method(&self, place: usize) -> bool
        ensures { result ≡ is_at is_method (slice_get (entries_of self.now) place) }
    {
        matches!(self.entries.get(place), Some(Entry::Method { .. }))
    }

    /// Whether a constructor stands at a place.
    pub fn is_maker(&self, place: usize) -> bool
        ensures { result ≡ is_at is_maker (slice_get (entries_of self.now) place) }
    {
        matches!(self.entries.get(place), Some(Entry::Maker { .. }))
    }

    /// Whether a single value stands at a place.
    pub fn is_single(&self, place: usize) -> bool
        ensures { result ≡ is_at is_single (slice_get (entries_of self.now) place) }
    {
        match self.entries.get(place) {
            Some(entry) => entry.is_single(),
            None => false,
        }
    }

    /// Takes what stands from a place on.
    pub fn take_from(&mut self, first: usize, pc: u32) -> Result<Vec<Entry>, Lost>
        ensures base { self.new.base ≡ self.old.base }
        ensures taken { IfOk result (λ taken. Some (map view_entry taken.items, entries_of self.new) ≡ take_from first (entries_of self.old)) }
        ensures lost { IfErr result (IsLostOnlyWhere (take_from first (entries_of self.old) ≡ None)) }
    {
        if first > self.entries.len() {
            return Err(Lost::NotScheme { pc });
        }
        Ok(self.entries.split_off(first)?)
    }

    /// The single value at a place, as a part of a target. A local stays there, since more than one part can be the same copy of a local.
    pub fn part(&mut self, place: usize, pc: u32) -> Result<Core, Lost>
        ensures base { self.new.base ≡ self.old.base }
        ensures taken { IfOk result (λ taken. Some (view_core taken, entries_of self.new) ≡ part place (entries_of self.old)) }
        ensures lost { IfErr result (IsLostOnlyWhere (part place (entries_of self.old) ≡ None)) }
    {
        let Some(entry) = self.entries.get(place) else {
            return Err(Lost::NotScheme { pc });
        };
        match entry.local() {
            Some(register) => Ok(Core::Local(register)),
            None => self.hold(place, pc),
        }
    }

    /// Takes the single value at a place, which is held from then on.
    pub fn hold(&mut self, place: usize, pc: u32) -> Result<Core, Lost>
        ensures base { self.new.base ≡ self.old.base }
        ensures taken { IfOk result (λ taken. Some (view_core taken, entries_of self.new) ≡ hold place (entries_of self.old)) }
        ensures lost { IfErr result (IsLostOnlyWhere (hold place (entries_of self.old) ≡ None)) }
    {
        match self.entries.get_mut(place) {
            Some(entry) => mem::replace(entry, Entry::Held).into_core(pc),
            None => Err(Lost::NotScheme { pc }),
        }
    }

    /// The place behind the highest one above this one that is held, or behind this one where none is.
    pub fn behind_held(&self, place: usize) -> usize
        ensures { place < 2 ^ 32 → result ≡ behind_held place (entries_of self.now) }
    {
        let first = place.saturating_add(1);
        for above in (first..self.len()).rev() {
            if self.is_held(above) {
                return above.saturating_add(1);
            }
        }
        first
    }

    fn is_held(&self, place: usize) -> bool
        ensures { result ≡ is_at is_held (slice_get (entries_of self.now) place) }
    {
        matches!(self.entries.get(place), Some(Entry::Held))
    }

    /// Appends an item to the constructor at a place.
    pub fn push_item(&mut self, place: usize, item: CoreItem, pc: u32) -> Result<(), Lost>
        ensures base { self.new.base ≡ self.old.base }
        ensures entries { OnOk result (Some (entries_of self.new) ≡ with_item place item (entries_of self.old)) }
        ensures lost { IfErr result (IsLostOnlyWhere (with_item place item (entries_of self.old) ≡ None)) }
    {
        let Some(entry) = self.entries.get_mut(place) else {
            return Err(Lost::NotScheme { pc });
        };
        let Entry::Maker { items, .. } = entry else {
            return Err(Lost::NotScheme { pc });
        };
        items.push(item)?;
        Ok(())
    }

    /// The last item of the constructor at a place gives all its values.
    pub fn open_maker(&mut self, place: usize)
        ensures base { self.new.base ≡ self.old.base }
        ensures entries { entries_of self.new ≡ opened place (entries_of self.old) }
    {
        if let Some(entry) = self.entries.get_mut(place) {
            if let Entry::Maker { open, .. } = entry {
                *open = true;
            }
        }
    }

    /// The registers from a place on are free.
    pub fn truncate(&mut self, count: usize)
        ensures base { self.new.base ≡ self.old.base }
        ensures entries { entries_of self.new ≡ take count (entries_of self.old) }
    {
        self.entries.truncate(count);
    }
}

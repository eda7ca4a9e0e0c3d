// The listed locals of a function: which are declared, and which are active.
#![tactic(auto, using(crate::proofs::Blames::free_fits))]

ghost use Rattle.std.specs.Prelude.{◌≡◌, ◌<◌, ◌≤◌, ◌^◌, [], length, drop, not, slice_get, is_some, Some, None, IfOk, IfErr, OnOk};
ghost use Rattle.recover_expr.specs.Faults.{IsFaultOf};
ghost use Rattle.recover_expr.specs.Entries.{IsLostOnlyWhere};
ghost use Rattle.recover_expr.specs.Locals.{view_locals, listed, IsFaultOnlyWhere, all_end, name_of, names_from, is_hidden, starting, innermost_end, ends_within, is_over, nests, entered, declare_next, declare, leave, capture_entry, capture, is_named, declaring_step, any_captured, up_to, highest_captured};

use crate::blame::{bad_local, locals_of, not_scheme};
use crate::fault::Fault;
use crate::lost::{Lost, number_at};
use lua_num::{ByteText, Names};
use lua_tree::is_name;
use proto::{LocVar, Proto};
use std::alloc::{AllocError, Global};

/// How many hidden locals a loop has.
pub const HIDDEN: usize = 3;

/// A local that is declared.
#[derive(Clone, Copy)]
pub struct Declared {
    /// The innermost local that was active before it.
    pub outer: Option<usize>,
    pub register: u32,
    /// The step that declares it, but of a parameter.
    pub step: Option<usize>,
    pub captured: bool,
}

/// The locals of a function, by their places in its list.
#[derive(Drop)]
pub struct Locals {
    /// Those that are declared: the first of the list.
    declared: Vec<Declared>,
    /// Those that are active, by their registers.
    active: Vec<usize>,
}

/// The name of an entry of the list that starts at a pc.
pub fn own_name(alloc: Global, proto: &Proto, entry: usize, pc: u32) -> Result<ByteText, Fault>
    ensures fault { IfErr result (IsFaultOf proto.now) }
    ensures name { IfOk result (λ name. Some name ≡ name_of (listed proto.now) entry) }
    ensures refused { IfErr result (IsFaultOnlyWhere (name_of (listed proto.now) entry ≡ None)) }
{
    match locals_of(proto).get(entry) {
        Some(local) if is_name(local.name.bytes()) => {
            Ok(ByteText::from_slice(alloc, local.name.bytes())?)
        }
        _ => Err(bad_local(proto, pc)),
    }
}

/// The names of so many entries of the list from one on, which start at a pc.
#[tactic(auto, using(crate::proofs::Blames::free_fits, crate::proofs::Declarations::names_few))]
pub fn own_names(
    alloc: Global,
    proto: &Proto,
    first: usize,
    count: usize,
    pc: u32,
) -> Result<Names, Fault>
    ensures fault { IfErr result (IsFaultOf proto.now) }
    ensures names { IfOk result (λ names. Some names ≡ names_from (listed proto.now) first count) }
    ensures refused { IfErr result (IsFaultOnlyWhere (names_from (listed proto.now) first count ≡ None)) }
{
    let behind = locals_of(proto).len().saturating_sub(first);
    if count > behind {
        return Err(bad_local(proto, pc));
    }
    let end = first + count;
    let mut names = Names::new(alloc);
    for entry in first..end {
        names.push(own_name(alloc, proto, entry, pc)?)?;
    }
    Ok(names)
}

/// What stands from a place on. An iterator that skips would go over what stands before it.
pub fn from_place<T>(items: &[T], first: usize) -> &[T]
    ensures { result.now ≡ drop first items.now }
{
    let first = first.min(items.len());
    &items[first..]
}

/// Whether the first so many of these end at a pc.
pub fn all_end(locals: &[LocVar], count: usize, end: u32) -> bool
    ensures { result ≡ all_end locals.now count end }
{
    locals.iter().take(count).all(|local| local.end == end)
}

/// Whether an entry of the list has a name that only hidden locals of loops have.
pub fn is_hidden(proto: &Proto, entry: usize) -> bool
    ensures { result ≡ is_hidden (listed proto.now) entry }
{
    match locals_of(proto).get(entry) {
        Some(local) => local.name.bytes().first() == Some(&b'('),
        None => false,
    }
}

/// No local may start at a pc, where a step begins.
pub fn no_local_starts(locals: &Locals, proto: &Proto, pc: u32) -> Result<(), Fault>
    ensures fault { IfErr result (IsFaultOf proto.now) }
    ensures none { OnOk result (starting (listed proto.now) pc (view_locals locals.now) ≡ 0) }
    ensures refused { IfErr result (IsFaultOnlyWhere (0 < starting (listed proto.now) pc (view_locals locals.now))) }
{
    if locals.starting(proto, pc) > 0 {
        return Err(bad_local(proto, pc));
    }
    Ok(())
}

impl Locals {
    /// None is declared yet.
    pub fn new(alloc: Global) -> Self
        ensures { view_locals result ≡ record { declared = []; active = [] } }
    {
        Self {
            declared: Vec::new(alloc),
            active: Vec::new(alloc),
        }
    }

    /// Those that are active, by their registers.
    pub fn active(&self) -> &[usize]
        ensures { result.now ≡ (view_locals self.now).active }
    {
        self.active.as_slice()
    }

    /// The first of the list that is not declared.
    pub fn next(&self) -> usize
        ensures { result ≡ length (view_locals self.now).declared }
    {
        self.declared.len()
    }

    /// How many of those that are to be declared next start at a pc.
    pub fn starting(&self, proto: &Proto, pc: u32) -> usize
        ensures { result ≡ starting (listed proto.now) pc (view_locals self.now) }
    {
        let behind = from_place(locals_of(proto), self.next());
        behind.iter().take_while(|local| local.start == pc).count()
    }

    /// The next so many are declared at a pc, by a step.
    pub fn declare(
        &mut self,
        proto: &Proto,
        count: usize,
        pc: u32,
        step: Option<usize>,
    ) -> Result<(), Fault>
        ensures fault { IfErr result (IsFaultOf proto.now) }
        ensures declared { OnOk result (Some (view_locals self.new) ≡ declare (listed proto.now) count pc step (view_locals self.old)) }
        ensures refused { IfErr result (IsFaultOnlyWhere (declare (listed proto.now) count pc step (view_locals self.old) ≡ None)) }
    {
        for _ in 0..count {
            self.declare_next(proto, pc, step)?;
        }
        Ok(())
    }

    fn declare_next(&mut self, proto: &Proto, pc: u32, step: Option<usize>) -> Result<(), Fault>
        ensures fault { IfErr result (IsFaultOf proto.now) }
        ensures declared { OnOk result (Some (view_locals self.new) ≡ declare_next (listed proto.now) pc step (view_locals self.old)) }
        ensures refused { IfErr result (IsFaultOnlyWhere (declare_next (listed proto.now) pc step (view_locals self.old) ≡ None)) }
    {
        if !self.nests(proto, pc) {
            return Err(self.misplaced(proto, pc));
        }
        match self.enter(pc, step) {
            Ok(()) => Ok(()),
            Err(lost) => Err(lost.fault()),
        }
    }

    // Whether the next one starts at a pc, and ends behind it and not behind the innermost one that is active.
    fn nests(&self, proto: &Proto, pc: u32) -> bool
        ensures { result ≡ nests (listed proto.now) pc (view_locals self.now) (slice_get (listed proto.now) (length (view_locals self.now).declared)) }
    {
        match locals_of(proto).get(self.next()) {
            Some(local) => {
                local.start == pc && pc <= local.end && !self.outlives(proto, local.end)
            }
            None => false,
        }
    }

    // Why the next one is not declared at a pc.
    fn misplaced(&self, proto: &Proto, pc: u32) -> Fault
        ensures { IsFaultOf proto.now result }
    {
        match locals_of(proto).get(self.next()) {
            Some(local) if local.start == pc => bad_local(proto, pc),
            _ => not_scheme(pc),
        }
    }

    // Whether a local that ends at a pc would outlive the innermost one that is active.
    fn outlives(&self, proto: &Proto, end: u32) -> bool
        ensures { result ≡ not (ends_within (innermost_end (listed proto.now) (view_locals self.now)) end) }
    {
        match self.innermost_end(proto) {
            Some(outer_end) => outer_end < end,
            None => false,
        }
    }

    // Where the innermost one that is active ends.
    fn innermost_end(&self, proto: &Proto) -> Option<u32>
        ensures { result ≡ innermost_end (listed proto.now) (view_locals self.now) }
    {
        let entry = self.active.last()?;
        Some(locals_of(proto).get(*entry)?.end)
    }

    // The next one becomes active.
    fn enter(&mut self, pc: u32, step: Option<usize>) -> Result<(), Lost>
        ensures entered { OnOk result (view_locals self.new ≡ entered step (view_locals self.old)) }
        ensures fits { OnOk result (length (view_locals self.old).active < 2 ^ 32) }
        ensures lost { IfErr result (IsLostOnlyWhere (2 ^ 32 ≤ length (view_locals self.old).active)) }
    {
        let entry = self.next();
        let outer = self.active.last().copied();
        let register = number_at(pc, self.active.len())?;
        self.declared.push(Declared {
            outer,
            register,
            step,
            captured: false,
        })?;
        self.active.push(entry)?;
        Ok(())
    }

    /// Those end that are over at a pc.
    pub fn leave(&mut self, proto: &Proto, pc: u32)
        ensures { view_locals self.new ≡ leave (listed proto.now) pc (view_locals self.old) }
    {
        while self.is_over(proto, pc) {
            let _ = self.active.pop();
        }
    }

    /// Whether the innermost one that is active is over at a pc.
    pub fn is_over(&self, proto: &Proto, pc: u32) -> bool
        ensures { result ≡ is_over pc (innermost_end (listed proto.now) (view_locals self.now)) }
    {
        match self.innermost_end(proto) {
            Some(end) => end <= pc,
            None => false,
        }
    }

    /// The local of this place in the list is captured.
    pub fn capture_entry(&mut self, entry: usize)
        ensures { view_locals self.new ≡ capture_entry entry (view_locals self.old) }
    {
        if let Some(local) = self.declared.get_mut(entry) {
            local.captured = true;
        }
    }

    /// The local in a register is captured. Answers whether there is one.
    pub fn capture(&mut self, register: u32) -> bool
        ensures locals { view_locals self.new ≡ capture register (view_locals self.old) }
        ensures there { result ≡ is_some (slice_get (view_locals self.old).active register) }
    {
        match self.active.get(register as usize).copied() {
            Some(entry) => {
                self.capture_entry(entry);
                true
            }
            None => false,
        }
    }

    /// Whether the local in a register has a name that a source can write.
    pub fn is_named(&self, proto: &Proto, register: u32) -> bool
        ensures { result ≡ is_named (listed proto.now) register (view_locals self.now) }
    {
        match self.active.get(register as usize) {
            Some(entry) => match locals_of(proto).get(*entry) {
                Some(local) => is_name(local.name.bytes()),
                None => false,
            },
            None => false,
        }
    }

    /// The step that declares the local in a register, if one does.
    pub fn declaring_step(&self, register: u32) -> Option<usize>
        ensures { result ≡ declaring_step register (view_locals self.now) }
    {
        let entry = self.active.get(register as usize)?;
        self.declared.get(*entry)?.step
    }

    /// Whether one of so many from one on is captured.
    pub fn any_captured(&self, first: usize, count: usize) -> bool
        ensures { result ≡ any_captured first count (view_locals self.now) }
    {
        let behind = from_place(self.declared.as_slice(), first);
        behind.iter().take(count).any(|local| local.captured)
    }

    /// For each that is declared, one more than the highest register of a captured local among it and those that are active where it is innermost; 0 where none is.
    pub fn highest_captured(&self, alloc: Global) -> Result<Vec<u32>, AllocError>
        ensures { IfOk result (λ highest. highest.items ≡ highest_captured (view_locals self.now)) }
    {
        let mut highest = Vec::with_capacity(alloc, self.declared.len())?;
        for local in self.declared.as_slice() {
            let one = if local.captured {
                local.register.saturating_add(1)
            } else {
                up_to(highest.as_slice(), local.outer)
            };
            highest.push(one)?;
        }
        Ok(highest)
    }
}

/// Where this local is innermost, one more than the highest register of a captured one that is active; 0 where none is.
pub fn up_to(highest: &[u32], innermost: Option<usize>) -> u32
    ensures { result ≡ up_to highest.now innermost }
{
    match innermost {
        Some(entry) => highest.get(entry).copied().unwrap_or(0),
        None => 0,
    }
}

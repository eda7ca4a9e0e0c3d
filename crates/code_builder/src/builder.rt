// A function that is being made: words, labels, registers and constants.
ghost use Rattle.std.specs.Prelude.{◌≡◌, ◌+◌, IfOk, OnOk};
ghost use Rattle.proto.specs.Constants.{constant_number, with_constant};
ghost use Rattle.scheme.specs.Making as making;
ghost use Rattle.scheme.specs.Expressions.{is_small};
ghost use Rattle.code_builder.specs.Made.{maker_of};

use crate::ahead::Ahead;
use crate::draft::Draft;
use indexmap::IndexSet;
use lua_num::Names;
use proto::{Constant, LocVar};
use scheme::{Active, Item, Piece};
use std::alloc::AllocError;

/// A function that is being made: its words so far with labels for their jumps, its constants, registers and locals. Contracts see a
/// `Maker` by `maker_of`. After want of memory it is given up. A number of 2^32 or more is taken as want of memory.
#[derive(Drop)]
pub struct Builder<'a> {
    pub items: Vec<Item>,
    /// The pc of each label, by its number.
    pub labels: Vec<usize>,
    pub constants: IndexSet<Constant>,
    pub functions: Vec<Draft>,
    /// The next free register, and the highest number of registers in use so far.
    pub free: u32,
    pub high: u32,
    pub active: Vec<Active>,
    pub locals: Vec<LocVar>,
    pub upvalue_names: Names,
    pub ahead: Ahead<'a>,
}

/// A number as a field of a word.
pub fn field(n: usize) -> Result<u32, AllocError>
    ensures { IfOk result (λ x. x ≡ n) }
{
    u32::try_from(n).map_err(|_| AllocError)
}

/// A sum, where it is a `usize`.
pub fn sum(a: usize, b: usize) -> Result<usize, AllocError>
    ensures { IfOk result (λ s. s ≡ a + b) }
{
    a.checked_add(b).ok_or(AllocError)
}

// The number of a constant, which goes last where it is new.
fn insert(constants: &mut IndexSet<Constant>, constant: Constant) -> Result<usize, AllocError>
    ensures number { IfOk result (λ number. number ≡ constant_number constant constants.old.keys) }
    ensures constants { OnOk result (constants.new.keys ≡ with_constant constant constants.old.keys) }
{
    let (number, _) = constants.insert_full(constant)?;
    Ok(number)
}

impl<'a> Builder<'a> {
    /// Appends a word.
    pub fn put(&mut self, line: u32, piece: Piece) -> Result<(), AllocError>
        ensures { OnOk result (maker_of self.new ≡ making.put line piece (maker_of self.old)) }
    {
        self.items.push(Item { line, piece })?;
        Ok(())
    }

    /// A new label, which stands nowhere yet.
    pub fn new_label(&mut self) -> Result<usize, AllocError>
        ensures label { IfOk result (λ label. label ≡ (making.new_label (maker_of self.old)).value) }
        ensures made { OnOk result (maker_of self.new ≡ (making.new_label (maker_of self.old)).after) }
    {
        let label = self.labels.len();
        self.labels.push(0)?;
        Ok(label)
    }

    /// The label stands here.
    pub fn place(&mut self, label: usize)
        ensures { maker_of self.new ≡ making.place label (maker_of self.old) }
    {
        if label < self.labels.len() {
            self.labels[label] = self.items.len();
        }
    }

    /// Takes registers from the next free one on.
    pub fn take_registers(&mut self, n: u32) -> Result<(), AllocError>
        ensures { OnOk result (maker_of self.new ≡ making.take_registers n (maker_of self.old)) }
    {
        self.free = self.free.checked_add(n).ok_or(AllocError)?;
        self.used(self.free);
        Ok(())
    }

    /// So many registers count as used.
    pub fn used(&mut self, n: u32)
        ensures { maker_of self.new ≡ making.used n (maker_of self.old) }
    {
        self.high = self.high.max(n);
    }

    /// The registers from this one on are free.
    pub fn free_from(&mut self, register: u32)
        ensures { maker_of self.new ≡ making.free_from register (maker_of self.old) }
    {
        self.free = register;
    }

    /// The number of a constant, which is taken. In constant time on average.
    pub fn constant(&mut self, constant: Constant) -> Result<u32, AllocError>
        ensures number { IfOk result (λ number. number ≡ (making.constant constant (maker_of self.old)).value) }
        ensures made { OnOk result (maker_of self.new ≡ (making.constant constant (maker_of self.old)).after) }
    {
        let number = insert(&mut self.constants, constant)?;
        field(number)
    }

    /// Whether a constant can be an operand: its number, or the one that it would get, is at most 255.
    pub fn is_small(&self, constant: &Constant) -> bool
        ensures { result ≡ is_small constant.now (maker_of self.now) }
    {
        match self.constants.get_index_of(constant) {
            Some(number) => number <= 255,
            None => self.constants.len() <= 255,
        }
    }
}

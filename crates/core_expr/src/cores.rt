// Values as words make them.
ghost use Rattle.std.specs.Prelude.{◌≡◌, [], ◌∷◌, ◌++◌, OnOk};
ghost use Rattle.core_expr.specs.declared.cores.Cores.{out-Cores};
ghost use Rattle.core_expr.specs.declared.cores.Operands.{out-Operands};
ghost use Rattle.core_expr.specs.declared.cores.CoreItems.{out-CoreItems};
ghost use Rattle.core_expr.specs.Values.{view_core};
ghost use Rattle.core_expr.specs.Writing.{is_multiple};

use lua_tree::{BinaryOp, UnaryOp};
use std::alloc::{AllocError, Global};

/// A value as the words of a statement make it: what an expression says beside names, numerals and parentheses. Locals stand for their registers; constants, upvalues and functions for
/// their numbers. A value with parts knows how deep it is.
#[cycle(core_of)]
#[derive(Drop)]
pub enum Core {
    Nil,
    Bool(bool),
    /// A number or a text that was loaded into a register, by its number among the constants.
    Constant(u32),
    Local(u32),
    Upvalue(u32),
    /// A global, by the number of its name among the constants.
    Global(u32),
    Vararg,
    /// A chain of keys is one value, since the path of a function statement has no depth.
    Index {
        on: Box<Core>,
        keys: Operands,
        depth: u32,
    },
    /// Arithmetic alone.
    Binary {
        op: BinaryOp,
        left: Box<Operand>,
        right: Box<Operand>,
        depth: u32,
    },
    Unary {
        op: UnaryOp,
        of: Box<Core>,
        depth: u32,
    },
    Concat {
        operands: Cores,
        depth: u32,
    },
    /// `open` where the last argument gives all its values.
    Call {
        on: Box<Core>,
        args: Cores,
        open: bool,
        depth: u32,
    },
    /// The name is a number among the constants.
    Method {
        on: Box<Core>,
        name: u32,
        args: Cores,
        open: bool,
        depth: u32,
    },
    /// `open` where the last item gives all its values.
    Table {
        items: CoreItems,
        open: bool,
        depth: u32,
    },
    /// A function by its number, and whether it captures the register that it goes to.
    Function {
        number: u32,
        captures_itself: bool,
    },
}

/// An operand: a constant that stands in the word, by its number, or a value.
#[cycle(core_of)]
#[derive(Drop)]
pub enum Operand {
    Constant(u32),
    Value(Core),
}

/// An item of a constructor.
#[cycle(core_of)]
#[derive(Drop)]
pub enum CoreItem {
    Positional(Core),
    Keyed(Operand, Operand),
}

/// A list of values.
#[cycle(core_of)]
#[derive(Drop)]
pub struct Cores {
    cores: Vec<Core>,
}

/// A list of operands.
#[cycle(core_of)]
#[derive(Drop)]
pub struct Operands {
    operands: Vec<Operand>,
}

/// A list of items.
#[cycle(core_of)]
#[derive(Drop)]
pub struct CoreItems {
    items: Vec<CoreItem>,
}

impl Cores {
    /// No values, which takes no memory.
    pub fn new(alloc: Global) -> Self
        ensures items { (out-Cores result).cores.items ≡ [] }
    {
        Self {
            cores: Vec::new(alloc),
        }
    }

    /// Appends a value.
    pub fn push(&mut self, core: Core) -> Result<(), AllocError>
        ensures items { OnOk result ((out-Cores self.new).cores.items ≡ (out-Cores self.old).cores.items ++ core ∷ []) }
    {
        self.cores.push(core)?;
        Ok(())
    }

    /// The values.
    pub fn items(&self) -> &[Core]
        ensures items { result.now ≡ (out-Cores self.now).cores.items }
    {
        self.cores.as_slice()
    }

    /// The values of a `Vec`, which takes no memory.
    pub fn from_vec(cores: Vec<Core>) -> Self
        ensures items { (out-Cores result).cores.items ≡ cores.items }
    {
        Self { cores }
    }

    /// The values as a `Vec`, given back without taking memory.
    pub fn into_vec(self) -> Vec<Core>
        ensures items { result.items ≡ (out-Cores self).cores.items }
    {
        self.cores
    }
}

impl Operands {
    /// No operands, which takes no memory.
    pub fn new(alloc: Global) -> Self
        ensures items { (out-Operands result).operands.items ≡ [] }
    {
        Self {
            operands: Vec::new(alloc),
        }
    }

    /// Appends an operand.
    pub fn push(&mut self, operand: Operand) -> Result<(), AllocError>
        ensures items { OnOk result ((out-Operands self.new).operands.items ≡ (out-Operands self.old).operands.items ++ operand ∷ []) }
    {
        self.operands.push(operand)?;
        Ok(())
    }

    /// The operands.
    pub fn items(&self) -> &[Operand]
        ensures items { result.now ≡ (out-Operands self.now).operands.items }
    {
        self.operands.as_slice()
    }

    /// The operands as a `Vec`, given back without taking memory.
    pub fn into_vec(self) -> Vec<Operand>
        ensures items { result.items ≡ (out-Operands self).operands.items }
    {
        self.operands
    }
}

impl CoreItems {
    /// No items, which takes no memory.
    pub fn new(alloc: Global) -> Self
        ensures items { (out-CoreItems result).items.items ≡ [] }
    {
        Self {
            items: Vec::new(alloc),
        }
    }

    /// Appends an item.
    pub fn push(&mut self, item: CoreItem) -> Result<(), AllocError>
        ensures items { OnOk result ((out-CoreItems self.new).items.items ≡ (out-CoreItems self.old).items.items ++ item ∷ []) }
    {
        self.items.push(item)?;
        Ok(())
    }

    /// The items.
    pub fn items(&self) -> &[CoreItem]
        ensures items { result.now ≡ (out-CoreItems self.now).items.items }
    {
        self.items.as_slice()
    }

    /// The items as a `Vec`, given back without taking memory.
    pub fn into_vec(self) -> Vec<CoreItem>
        ensures items { result.items ≡ (out-CoreItems self).items.items }
    {
        self.items
    }
}

impl Core {
    /// A call, a method call or `...`, which can give several values.
    pub fn is_multiple(&self) -> bool
        ensures { result ≡ is_multiple (view_core self.now) }
    {
        matches!(self, Core::Call { .. } | Core::Method { .. } | Core::Vararg)
    }
}

// The syntax tree of a source (manual 8, the complete syntax).
ghost use Rattle.std.specs.Prelude.{◌≡◌, [], ◌∷◌, ◌++◌, OnOk, OnErr};
ghost use Rattle.lua_tree.specs.Syntax.{no_statements, statement as one_statement, no_expressions, expression as one_expression, no_branches, no_fields};
ghost use Rattle.lua_tree.specs.View.{view_block, view_statement, view_exps, view_exp, view_arms, view_arm, view_items, view_item};
ghost use Rattle.lua_tree.specs.TreeLists.{statements_of, branches_of, expressions_of, fields_of};
ghost use Rattle.lua_tree.specs.Joins.{join_statements, join_expressions, join_branches, join_fields};
ghost use Rattle.lua_tree.specs.declared.tree.Block.{out-Block};
ghost use Rattle.lua_tree.specs.declared.tree.Exps.{out-Exps};
ghost use Rattle.lua_tree.specs.declared.tree.Arms.{out-Arms};
ghost use Rattle.lua_tree.specs.declared.tree.Items.{out-Items};

use lua_num::{ByteText, Names};
use std::alloc::{AllocError, Global};

/// A whole source: its main chunk, and the line on which it ends.
#[derive(Drop)]
pub struct Tree {
    pub body: Block,
    pub last_line: u32,
}

/// A list of statements.
#[cycle(tree)]
#[derive(Drop)]
pub struct Block {
    stats: Vec<Stat>,
}

/// A list of expressions.
#[cycle(tree)]
#[derive(Drop)]
pub struct Exps {
    exps: Vec<Exp>,
}

/// The arms of an `if`.
#[cycle(tree)]
#[derive(Drop)]
pub struct Arms {
    arms: Vec<Arm>,
}

/// The items of a constructor.
#[cycle(tree)]
#[derive(Drop)]
pub struct Items {
    items: Vec<Item>,
}

/// A statement, with the line of its first token.
#[cycle(tree)]
#[derive(Drop)]
pub struct Stat {
    pub line: u32,
    /// Whether a semicolon follows.
    pub semi: bool,
    pub kind: StatKind,
}

/// What a statement is.
#[cycle(tree)]
#[derive(Drop)]
pub enum StatKind {
    Assign {
        targets: Exps,
        exps: Exps,
    },
    Call(Exp),
    Do(Block),
    While {
        cond: Exp,
        body: Block,
    },
    Repeat {
        body: Block,
        cond: Exp,
    },
    If {
        arms: Arms,
        last: Option<Block>,
    },
    NumFor {
        name: ByteText,
        from: Exp,
        to: Exp,
        step: Option<Exp>,
        body: Block,
    },
    GenFor {
        names: Names,
        exps: Exps,
        body: Block,
    },
    Function {
        path: Names,
        method: Option<ByteText>,
        body: Body,
    },
    LocalFunction {
        name: ByteText,
        body: Body,
    },
    Local {
        names: Names,
        exps: Exps,
    },
    Return(Exps),
    Break,
}

/// An arm of an `if`: a condition, and what is done where it holds.
#[cycle(tree)]
#[derive(Drop)]
pub struct Arm {
    pub cond: Exp,
    pub body: Block,
}

/// A function's parameters and block, with the lines of its `function` and its `end`.
#[cycle(tree)]
#[derive(Drop)]
pub struct Body {
    pub params: Names,
    pub vararg: bool,
    pub block: Block,
    pub first_line: u32,
    pub last_line: u32,
}

/// An expression. Its line is its operator's for a binary one, that of the first token of the
/// arguments for a call, that of `[` or `.` for an index or a field, else its first token's.
#[cycle(tree)]
#[derive(Drop)]
pub struct Exp {
    pub line: u32,
    pub kind: ExpKind,
}

/// What an expression is. `on_line` is the line of the token before the arguments of a call.
#[cycle(tree)]
#[derive(Drop)]
pub enum ExpKind {
    Nil,
    True,
    False,
    Number(i64),
    Text(ByteText),
    Vararg,
    Function(Body),
    Name(ByteText),
    Index {
        on: Box<Exp>,
        key: Box<Exp>,
    },
    Field {
        on: Box<Exp>,
        name: ByteText,
    },
    Call {
        on: Box<Exp>,
        args: Args,
        on_line: u32,
    },
    Method {
        on: Box<Exp>,
        name: ByteText,
        args: Args,
        on_line: u32,
    },
    And(Box<Exp>, Box<Exp>),
    Or(Box<Exp>, Box<Exp>),
    Binary {
        op: BinaryOp,
        left: Box<Exp>,
        right: Box<Exp>,
    },
    Unary {
        op: UnaryOp,
        of: Box<Exp>,
    },
    Table(Items),
    Paren(Box<Exp>),
}

/// The arguments of a call: a list in parentheses, a string, or a constructor.
#[cycle(tree)]
#[derive(Drop)]
pub enum Args {
    List(Exps),
    Text(ByteText),
    Table(Items),
}

/// An item of a constructor, and what separates it from the next.
#[cycle(tree)]
#[derive(Drop)]
pub struct Item {
    pub kind: ItemKind,
    pub sep: Separator,
}

/// What an item is.
#[cycle(tree)]
#[derive(Drop)]
pub enum ItemKind {
    Positional(Exp),
    Named(ByteText, Exp),
    Keyed(Exp, Exp),
}

/// What follows an item.
#[derive(Clone, Copy, Debug, PartialEq, Eq)]
pub enum Separator {
    Comma,
    Semicolon,
    Missing,
}

/// The binary operators but `and` and `or`.
#[derive(Clone, Copy, Debug, PartialEq, Eq)]
pub enum BinaryOp {
    Add,
    Sub,
    Mul,
    Div,
    Rem,
    Pow,
    Concat,
    Eq,
    Ne,
    Lt,
    Le,
    Gt,
    Ge,
}

/// The unary operators.
#[derive(Clone, Copy, Debug, PartialEq, Eq)]
pub enum UnaryOp {
    Neg,
    Not,
    Len,
}

impl Block {
    /// No statements, which takes no memory.
    pub fn new(alloc: Global) -> Self
        ensures items { (out-Block result).stats.items ≡ [] }
        ensures view { view_block result ≡ no_statements }
    {
        Self::empty(alloc)
    }

    /// Appends a statement.
    pub fn push(&mut self, statement: Stat) -> Result<(), AllocError>
        ensures ok { OnOk result ((out-Block self.new).stats.items ≡ (out-Block self.old).stats.items ++ statement ∷ []) }
        ensures view { OnOk result (view_block self.new ≡ join_statements (view_block self.old) (one_statement statement.line statement.semi (view_statement statement.kind) no_statements)) }
        ensures err { OnErr result ((out-Block self.new).stats.items ≡ (out-Block self.old).stats.items) }
        ensures err_view { OnErr result (view_block self.new ≡ view_block self.old) }
    {
        self.append(statement)
    }

    fn empty(alloc: Global) -> Self
        ensures { (out-Block result).stats.items ≡ [] }
    {
        Self {
            stats: Vec::new(alloc),
        }
    }

    fn append(&mut self, statement: Stat) -> Result<(), AllocError>
        ensures ok { OnOk result ((out-Block self.new).stats.items ≡ (out-Block self.old).stats.items ++ statement ∷ []) }
        ensures err { OnErr result ((out-Block self.new).stats.items ≡ (out-Block self.old).stats.items) }
    {
        if self.stats.is_empty() {
            self.stats.reserve_exact(1)?;
        }
        self.stats.push(statement)?;
        Ok(())
    }

    /// The statements.
    pub fn items(&self) -> &[Stat]
        ensures items { result.now ≡ (out-Block self.now).stats.items }
        ensures view { view_block self.now ≡ statements_of result.now }
    {
        self.stats.as_slice()
    }

    /// The statements of a `Vec`, which takes no memory.
    pub fn from_vec(stats: Vec<Stat>) -> Self
        ensures items { (out-Block result).stats.items ≡ stats.items }
        ensures view { view_block result ≡ statements_of stats.items }
    {
        Self::hold(stats)
    }

    /// The statements as a `Vec`, given back without taking memory.
    pub fn into_vec(self) -> Vec<Stat>
        ensures items { result.items ≡ (out-Block self).stats.items }
        ensures view { statements_of result.items ≡ view_block self }
    {
        self.give()
    }

    fn hold(stats: Vec<Stat>) -> Self
        ensures { (out-Block result).stats.items ≡ stats.items }
    {
        Self { stats }
    }

    fn give(self) -> Vec<Stat>
        ensures { result.items ≡ (out-Block self).stats.items }
    {
        self.stats
    }
}

impl Exps {
    /// No expressions, which takes no memory.
    pub fn new(alloc: Global) -> Self
        ensures items { (out-Exps result).exps.items ≡ [] }
        ensures view { view_exps result ≡ no_expressions }
    {
        Self::empty(alloc)
    }

    /// Appends an expression.
    pub fn push(&mut self, expression: Exp) -> Result<(), AllocError>
        ensures ok { OnOk result ((out-Exps self.new).exps.items ≡ (out-Exps self.old).exps.items ++ expression ∷ []) }
        ensures view { OnOk result (view_exps self.new ≡ join_expressions (view_exps self.old) (one_expression (view_exp expression) no_expressions)) }
        ensures err { OnErr result ((out-Exps self.new).exps.items ≡ (out-Exps self.old).exps.items) }
        ensures err_view { OnErr result (view_exps self.new ≡ view_exps self.old) }
    {
        self.append(expression)
    }

    fn empty(alloc: Global) -> Self
        ensures { (out-Exps result).exps.items ≡ [] }
    {
        Self {
            exps: Vec::new(alloc),
        }
    }

    fn append(&mut self, expression: Exp) -> Result<(), AllocError>
        ensures ok { OnOk result ((out-Exps self.new).exps.items ≡ (out-Exps self.old).exps.items ++ expression ∷ []) }
        ensures err { OnErr result ((out-Exps self.new).exps.items ≡ (out-Exps self.old).exps.items) }
    {
        if self.exps.is_empty() {
            self.exps.reserve_exact(1)?;
        }
        self.exps.push(expression)?;
        Ok(())
    }

    /// The expressions.
    pub fn items(&self) -> &[Exp]
        ensures items { result.now ≡ (out-Exps self.now).exps.items }
        ensures view { view_exps self.now ≡ expressions_of result.now }
    {
        self.exps.as_slice()
    }

    /// The expressions of a `Vec`, which takes no memory.
    pub fn from_vec(exps: Vec<Exp>) -> Self
        ensures items { (out-Exps result).exps.items ≡ exps.items }
        ensures view { view_exps result ≡ expressions_of exps.items }
    {
        Self::hold(exps)
    }

    /// The expressions as a `Vec`, given back without taking memory.
    pub fn into_vec(self) -> Vec<Exp>
        ensures items { result.items ≡ (out-Exps self).exps.items }
        ensures view { expressions_of result.items ≡ view_exps self }
    {
        self.give()
    }

    fn hold(exps: Vec<Exp>) -> Self
        ensures { (out-Exps result).exps.items ≡ exps.items }
    {
        Self { exps }
    }

    fn give(self) -> Vec<Exp>
        ensures { result.items ≡ (out-Exps self).exps.items }
    {
        self.exps
    }
}

impl Arms {
    /// No arms, which takes no memory.
    pub fn new(alloc: Global) -> Self
        ensures items { (out-Arms result).arms.items ≡ [] }
        ensures view { view_arms result ≡ no_branches }
    {
        Self::empty(alloc)
    }

    /// Appends an arm.
    pub fn push(&mut self, arm: Arm) -> Result<(), AllocError>
        ensures ok { OnOk result ((out-Arms self.new).arms.items ≡ (out-Arms self.old).arms.items ++ arm ∷ []) }
        ensures view { OnOk result (view_arms self.new ≡ join_branches (view_arms self.old) (view_arm arm no_branches)) }
        ensures err { OnErr result ((out-Arms self.new).arms.items ≡ (out-Arms self.old).arms.items) }
        ensures err_view { OnErr result (view_arms self.new ≡ view_arms self.old) }
    {
        self.append(arm)
    }

    fn empty(alloc: Global) -> Self
        ensures { (out-Arms result).arms.items ≡ [] }
    {
        Self {
            arms: Vec::new(alloc),
        }
    }

    fn append(&mut self, arm: Arm) -> Result<(), AllocError>
        ensures ok { OnOk result ((out-Arms self.new).arms.items ≡ (out-Arms self.old).arms.items ++ arm ∷ []) }
        ensures err { OnErr result ((out-Arms self.new).arms.items ≡ (out-Arms self.old).arms.items) }
    {
        if self.arms.is_empty() {
            self.arms.reserve_exact(1)?;
        }
        self.arms.push(arm)?;
        Ok(())
    }

    /// The arms.
    pub fn items(&self) -> &[Arm]
        ensures items { result.now ≡ (out-Arms self.now).arms.items }
        ensures view { view_arms self.now ≡ branches_of result.now }
    {
        self.arms.as_slice()
    }

    /// The arms of a `Vec`, which takes no memory.
    pub fn from_vec(arms: Vec<Arm>) -> Self
        ensures items { (out-Arms result).arms.items ≡ arms.items }
        ensures view { view_arms result ≡ branches_of arms.items }
    {
        Self::hold(arms)
    }

    /// The arms as a `Vec`, given back without taking memory.
    pub fn into_vec(self) -> Vec<Arm>
        ensures items { result.items ≡ (out-Arms self).arms.items }
        ensures view { branches_of result.items ≡ view_arms self }
    {
        self.give()
    }

    fn hold(arms: Vec<Arm>) -> Self
        ensures { (out-Arms result).arms.items ≡ arms.items }
    {
        Self { arms }
    }

    fn give(self) -> Vec<Arm>
        ensures { result.items ≡ (out-Arms self).arms.items }
    {
        self.arms
    }
}

impl Items {
    /// No items, which takes no memory.
    pub fn new(alloc: Global) -> Self
        ensures items { (out-Items result).items.items ≡ [] }
        ensures view { view_items result ≡ no_fields }
    {
        Self::empty(alloc)
    }

    /// Appends an item.
    pub fn push(&mut self, item: Item) -> Result<(), AllocError>
        ensures ok { OnOk result ((out-Items self.new).items.items ≡ (out-Items self.old).items.items ++ item ∷ []) }
        ensures view { OnOk result (view_items self.new ≡ join_fields (view_items self.old) (view_item item.kind item.sep no_fields)) }
        ensures err { OnErr result ((out-Items self.new).items.items ≡ (out-Items self.old).items.items) }
        ensures err_view { OnErr result (view_items self.new ≡ view_items self.old) }
    {
        self.append(item)
    }

    fn empty(alloc: Global) -> Self
        ensures { (out-Items result).items.items ≡ [] }
    {
        Self {
            items: Vec::new(alloc),
        }
    }

    fn append(&mut self, item: Item) -> Result<(), AllocError>
        ensures ok { OnOk result ((out-Items self.new).items.items ≡ (out-Items self.old).items.items ++ item ∷ []) }
        ensures err { OnErr result ((out-Items self.new).items.items ≡ (out-Items self.old).items.items) }
    {
        if self.items.is_empty() {
            self.items.reserve_exact(1)?;
        }
        self.items.push(item)?;
        Ok(())
    }

    /// The items.
    pub fn items(&self) -> &[Item]
        ensures items { result.now ≡ (out-Items self.now).items.items }
        ensures view { view_items self.now ≡ fields_of result.now }
    {
        self.items.as_slice()
    }

    /// The items of a `Vec`, which takes no memory.
    pub fn from_vec(items: Vec<Item>) -> Self
        ensures items { (out-Items result).items.items ≡ items.items }
        ensures view { view_items result ≡ fields_of items.items }
    {
        Self::hold(items)
    }

    /// The items as a `Vec`, given back without taking memory.
    pub fn into_vec(self) -> Vec<Item>
        ensures items { result.items ≡ (out-Items self).items.items }
        ensures view { fields_of result.items ≡ view_items self }
    {
        self.give()
    }

    fn hold(items: Vec<Item>) -> Self
        ensures { (out-Items result).items.items ≡ items.items }
    {
        Self { items }
    }

    fn give(self) -> Vec<Item>
        ensures { result.items ≡ (out-Items self).items.items }
    {
        self.items
    }
}

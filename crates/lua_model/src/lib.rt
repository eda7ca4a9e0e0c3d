//! The values of Lua, and the definitions of the store, the operators and the built-in functions.
#![tactic(auto)]

mod laws;
mod plain;

ghost use Rattle.std.specs.Prelude.{◌≡◌};
ghost use Rattle.lua_model.specs.Value.{is_true_value, kind_of, same_value};

pub use laws::border_is_least;
pub use plain::{Plain, PlainList, Reply, ReplyList};

/// A text of a run, by its number: equal numbers are equal texts.
#[derive(Clone, Copy, PartialEq, Eq, Hash, Debug)]
pub struct TextId {
    pub index: usize,
}

/// A table, by its place in the order of creation, from 0.
#[derive(Clone, Copy, PartialEq, Eq, Hash, Debug)]
pub struct TableId {
    pub index: usize,
}

/// A closure, by its place in the order of creation, from 0.
#[derive(Clone, Copy, PartialEq, Eq, Hash, Debug)]
pub struct ClosureId {
    pub index: usize,
}

/// A value of Lua (manual 2.2). Built-in functions and hosts are their numbers.
#[derive(Clone, Copy, PartialEq, Eq, Hash, Debug)]
pub enum Value {
    Nil,
    Bool(bool),
    Number(i64),
    Text(TextId),
    Table(TableId),
    Closure(ClosureId),
    Native(u8),
    Host(usize),
}

/// What `type` tells of a value (manual 5.1).
#[derive(Clone, Copy, PartialEq, Eq, Debug)]
pub enum Kind {
    Nil,
    Bool,
    Number,
    Text,
    Table,
    Function,
}

impl Value {
    /// Nil and false are the false values.
    pub fn is_true(self) -> bool
        ensures { result ≡ is_true_value self }
    {
        match self {
            Value::Nil => false,
            Value::Bool(b) => b,
            _ => true,
        }
    }

    /// The kind of the value.
    pub fn kind(self) -> Kind
        ensures { result ≡ kind_of self }
    {
        match self {
            Value::Nil => Kind::Nil,
            Value::Bool(_) => Kind::Bool,
            Value::Number(_) => Kind::Number,
            Value::Text(_) => Kind::Text,
            Value::Table(_) => Kind::Table,
            Value::Closure(_) | Value::Native(_) | Value::Host(_) => Kind::Function,
        }
    }

    /// Equality that asks no handler: of texts, tables and closures that of their numbers.
    pub fn raw_equal(self, other: Value) -> bool
        ensures { result ≡ same_value self other }
    {
        self == other
    }
}

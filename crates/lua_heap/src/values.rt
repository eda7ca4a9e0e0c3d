// Lists of values.
ghost use Rattle.std.specs.Prelude.{◌≡◌, [], ◌∷◌, ◌++◌, IfOk, OnOk, OnErr};

use lua_model::Value;
use std::alloc::{AllocError, Global};
use std::marker::Model;

/// Values, in order. Contracts see the list.
#[derive(Debug, Drop)]
pub struct ValueList {
    values: Vec<Value>,
}

impl Model for ValueList {
    ghost use Rattle.std.specs.Prelude.{List};
    ghost use Rattle.lua_model.specs.declared.Value.{Value as Item};

    ghost Value = { List Item };

    ghost view = { λ l. l.values.items };
}

impl ValueList {
    /// No values, which takes no memory.
    pub fn new(alloc: Global) -> Self
        ensures { result ≡ [] }
    {
        Self {
            values: Vec::new(alloc),
        }
    }

    /// These values, in linear time.
    pub fn from_slice(alloc: Global, values: &[Value]) -> Result<Self, AllocError>
        ensures { IfOk result (λ list. list ≡ values.now) }
    {
        let mut list = Self::new(alloc);
        for value in values {
            list.push(*value)?;
        }
        Ok(list)
    }

    /// Appends a value.
    pub fn push(&mut self, value: Value) -> Result<(), AllocError>
        ensures ok { OnOk result (self.new ≡ self.old ++ value ∷ []) }
        ensures err { OnErr result (self.new ≡ self.old) }
    {
        self.values.push(value)?;
        Ok(())
    }

    /// The values.
    pub fn items(&self) -> &[Value]
        ensures { result.now ≡ self.now }
    {
        self.values.as_slice()
    }

    /// The values of a `Vec`, which takes no memory.
    pub fn from_vec(values: Vec<Value>) -> Self
        ensures { result ≡ values.items }
    {
        Self { values }
    }

    /// The values as a `Vec`, given back without taking memory.
    pub fn into_vec(self) -> Vec<Value>
        ensures { result.items ≡ self }
    {
        self.values
    }
}

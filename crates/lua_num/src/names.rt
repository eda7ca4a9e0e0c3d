// Lists of texts.
ghost use Rattle.std.specs.Prelude.{◌≡◌, [], ◌∷◌, ◌++◌, OnOk, OnErr};
ghost use Rattle.std.specs.Str.{bytes_eq};
ghost use Rattle.std.specs.Cmp.{partial_equiv_from_equiv};
ghost use Rattle.std.specs.Cmp.Lexicographic.{pointwise, lists_equiv, nat_list_eq_equiv};

use crate::ByteText;
use std::alloc::{AllocError, Global};
use std::marker::Model;

/// A list of texts, in order. Contracts see the list.
#[derive(Debug, Drop)]
pub struct Names {
    names: Vec<ByteText>,
}

impl Model for Names {
    ghost use Rattle.std.specs.Prelude.{List, ℕ};

    ghost Value = { List (List ℕ) };

    ghost view = { λ n. n.names.items };
}

impl Names {
    /// No names, which takes no memory.
    pub fn new(alloc: Global) -> Self
        ensures { result ≡ [] }
    {
        Self {
            names: Vec::new(alloc),
        }
    }

    /// Appends a name.
    pub fn push(&mut self, name: ByteText) -> Result<(), AllocError>
        ensures ok { OnOk result (self.new ≡ self.old ++ name ∷ []) }
        ensures err { OnErr result (self.new ≡ self.old) }
    {
        if self.names.is_empty() {
            self.names.reserve_exact(1)?;
        }
        self.names.push(name)?;
        Ok(())
    }

    /// The names.
    pub fn items(&self) -> &[ByteText]
        ensures { result.now ≡ self.now }
    {
        self.names.as_slice()
    }

    /// The names of a `Vec`, which takes no memory.
    pub fn from_vec(names: Vec<ByteText>) -> Self
        ensures { result ≡ names.items }
    {
        Self { names }
    }

    /// The names as a `Vec`, given back without taking memory.
    pub fn into_vec(self) -> Vec<ByteText>
        ensures { result.items ≡ self }
    {
        self.names
    }
}

impl PartialEq for Names {
    ghost eq = { pointwise bytes_eq };

    ghost laws = { partial_equiv_from_equiv (lists_equiv nat_list_eq_equiv) };

    fn eq(&self, other: &Self) -> bool {
        self.names.as_slice() == other.names.as_slice()
    }
}

impl Eq for Names {
    ghost laws = { lists_equiv nat_list_eq_equiv };
}

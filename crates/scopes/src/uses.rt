// What the names of a tree mean.
ghost use Rattle.std.specs.Prelude.{◌≡◌, ◌<◌, length, get_or, false, [], ◌∷◌, ◌++◌, OnOk};
ghost use Rattle.lua_tree.specs.Scoping.{global_use};
ghost use Rattle.scopes.specs.Capturing.{slot_from};
ghost use Rattle.scopes.specs.Uses.{use_of, source_uses, uses_of_names, uses_of_functions};

use std::alloc::{AllocError, Global};
use std::marker::Model;

/// What a name means where it stands.
#[derive(Clone, Copy, Debug, PartialEq, Eq)]
pub enum NameUse {
    /// A local of the function around it, by its declaration's number.
    Local(usize),
    /// An upvalue of that function, by its slot.
    Upvalue(usize),
    Global,
}

/// Where an upvalue comes from: a local of the function around, by its declaration's number, or an
/// upvalue of that, by its slot.
#[derive(Clone, Copy, Debug, PartialEq, Eq)]
pub enum Source {
    Local(usize),
    Upvalue(usize),
}

/// The upvalues of a function so far: the declarations that they are, and where they come from.
#[derive(Drop)]
pub struct Captures {
    pub declarations: Vec<usize>,
    pub sources: Vec<Source>,
}

impl Captures {
    /// No upvalues, which takes no memory.
    pub(crate) fn new(alloc: Global) -> Self
        ensures declarations { result.declarations.items ≡ [] }
        ensures sources { result.sources.items ≡ [] }
    {
        Self {
            declarations: Vec::new(alloc),
            sources: Vec::new(alloc),
        }
    }

    /// The slot of a declaration among the upvalues.
    pub(crate) fn slot(&self, declaration: usize) -> Option<usize>
        ensures { result ≡ slot_from declaration 0 self.now.declarations.items }
    {
        for i in 0..self.declarations.len() {
            if self.declarations[i] == declaration {
                return Some(i);
            }
        }
        None
    }

    /// Appends an upvalue.
    pub(crate) fn push(&mut self, declaration: usize, source: Source) -> Result<(), AllocError>
        ensures declarations { OnOk result (self.new.declarations.items ≡ self.old.declarations.items ++ declaration ∷ []) }
        ensures sources { OnOk result (self.new.sources.items ≡ self.old.sources.items ++ source ∷ []) }
    {
        self.declarations.push(declaration)?;
        self.sources.push(source)?;
        Ok(())
    }
}

/// A declaration, and the function in which it stands, by their numbers.
#[derive(Clone, Copy, Debug, PartialEq, Eq)]
pub struct Binding {
    pub declaration: usize,
    pub home: usize,
}

/// What the names of a tree mean, which of its locals are captured, and the upvalues of its functions.
/// Names, declarations and functions are numbered in the order of the spelling, from 0; the main chunk
/// is function 0, and a method's `self` is a declaration before its first parameter. Contracts see
/// three lists.
#[derive(Drop)]
pub struct Scopes {
    names: Vec<NameUse>,
    captured: Vec<bool>,
    functions: Vec<Captures>,
}

impl Model for Scopes {
    ghost use Rattle.lua_tree.specs.Resolved.{Resolved};
    ghost use Rattle.scopes.specs.Uses.{uses_of_names, uses_of_functions};

    ghost Value = { Resolved };

    ghost view = { λ s. record { names = uses_of_names s.names.items; captured = s.captured.items; upvalues = uses_of_functions s.functions.items } };
}

impl Scopes {
    pub(crate) fn new(names: Vec<NameUse>, captured: Vec<bool>, functions: Vec<Captures>) -> Self
        ensures { result ≡ record { names = uses_of_names names.items; captured = captured.items; upvalues = uses_of_functions functions.items } }
    {
        Self {
            names,
            captured,
            functions,
        }
    }

    /// How many names there are.
    pub fn name_count(&self) -> usize
        ensures { result ≡ length self.now.names }
    {
        self.names.len()
    }

    /// How many declarations there are.
    pub fn declaration_count(&self) -> usize
        ensures { result ≡ length self.now.captured }
    {
        self.captured.len()
    }

    /// How many functions there are, the main chunk among them.
    pub fn function_count(&self) -> usize
        ensures { result ≡ length self.now.upvalues }
    {
        self.functions.len()
    }

    /// What a name means, by its number.
    pub fn name(&self, i: usize) -> NameUse
        requires { i < length self.now.names }
        ensures { use_of result ≡ get_or self.now.names i global_use }
    {
        self.names[i]
    }

    /// Whether a local is captured, by its declaration's number.
    pub fn captured(&self, declaration: usize) -> bool
        requires { declaration < length self.now.captured }
        ensures { result ≡ get_or self.now.captured declaration false }
    {
        self.captured[declaration]
    }

    /// The upvalues of a function, by its number, in order of first mention.
    pub fn upvalues(&self, function: usize) -> &[Source]
        requires { function < length self.now.upvalues }
        ensures { source_uses result.now ≡ get_or self.now.upvalues function [] }
    {
        self.functions[function].sources.as_slice()
    }
}

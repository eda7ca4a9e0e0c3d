// What names mean.
ghost use Rattle.std.specs.Prelude.{◌≡◌};
ghost use Rattle.scheme.specs.Making as making;
ghost use Rattle.code_builder.specs.Made.{maker_of};
ghost use Rattle.code_builder.specs.Places.{place_of};

use crate::builder::Builder;
use scheme::Active;
use scopes::NameUse;

/// Where what a name means is.
#[derive(Clone, Copy, Debug, PartialEq, Eq)]
pub enum Place {
    Register(usize),
    Upvalue(usize),
    Global,
}

// The register of a declaration.
pub(crate) fn register_among(active: &[Active], declaration: usize) -> usize
    ensures { result ≡ making.register_among declaration active.now }
{
    for register in 0..active.len() {
        if active[register].local.declaration == Some(declaration) {
            return register;
        }
    }
    active.len()
}

impl<'a> Builder<'a> {
    /// Passes the next name.
    pub fn pass_name(&mut self)
        ensures { maker_of self.new ≡ making.pass_name (maker_of self.old) }
    {
        if self.ahead.names < self.ahead.scopes.name_count() {
            self.ahead.names += 1;
        }
    }

    /// Where what the next name means is.
    pub fn next_name(&self) -> Place
        ensures { place_of result ≡ making.next_name (maker_of self.now) }
    {
        if self.ahead.names >= self.ahead.scopes.name_count() {
            return Place::Global;
        }
        match self.ahead.scopes.name(self.ahead.names) {
            NameUse::Local(declaration) => Place::Register(register_among(
                self.active.as_slice(),
                declaration,
            )),
            NameUse::Upvalue(slot) => Place::Upvalue(slot),
            NameUse::Global => Place::Global,
        }
    }
}

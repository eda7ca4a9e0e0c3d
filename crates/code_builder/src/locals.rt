// Declarations, and the locals that are active.
ghost use Rattle.std.specs.Prelude.{◌≡◌, [], IfOk, OnOk, map, drop};
ghost use Rattle.scheme.specs.Making as making;
ghost use Rattle.scheme.specs.Statements.{settle};
ghost use Rattle.code_builder.specs.Made.{maker_of};
ghost use Rattle.code_builder.specs.Locals.{declared_local, pass_declaration, activate_one as the_activate_one, start_one as the_start_one};

use crate::builder::{Builder, field, sum};
use lua_num::ByteText;
use proto::LocVar;
use scheme::{Active, Local};
use std::alloc::{AllocError, Global};

// A local of the list ends here.
fn end_one(listed: usize, locals: &mut [LocVar], here: u32)
    ensures { locals.new ≡ making.end_one here listed locals.old }
{
    if listed < locals.len() {
        locals[listed].end = here;
    }
}

// These locals end here.
fn end_all(active: &[Active], locals: &mut [LocVar], here: u32)
    ensures { locals.new ≡ making.end_all here active.now locals.old }
{
    for one in active {
        end_one(one.listed, locals, here);
    }
}

// A local of the list counts as active from here on.
fn start_one(listed: usize, locals: &mut [LocVar], here: u32)
    ensures { locals.new ≡ the_start_one here listed locals.old }
{
    if listed < locals.len() {
        let entry = &mut locals[listed];
        entry.start = here;
        entry.end = here;
    }
}

fn any_captured(active: &[Active]) -> bool
    ensures { result ≡ making.any_captured active.now }
{
    active.iter().any(|one| one.local.captured)
}

/// A hidden local of a loop.
pub fn hidden(alloc: Global, name: &[u8]) -> Result<Local, AllocError>
    ensures { IfOk result (λ local. local ≡ making.hidden name.now) }
{
    Ok(Local {
        name: ByteText::from_slice(alloc, name)?,
        declaration: None,
        captured: false,
    })
}

impl<'a> Builder<'a> {
    /// How many locals are active.
    pub fn active_count(&self) -> Result<u32, AllocError>
        ensures { IfOk result (λ n. n ≡ making.active_count (maker_of self.now)) }
    {
        field(self.active.len())
    }

    /// The next free register is that behind the active locals.
    pub fn settle(&mut self) -> Result<(), AllocError>
        ensures { OnOk result (maker_of self.new ≡ settle (maker_of self.old)) }
    {
        self.free = field(self.active.len())?;
        Ok(())
    }

    // Whether the next declaration is captured.
    fn next_captured(&self) -> bool
        ensures { result ≡ (declared_local [] (maker_of self.now)).captured }
    {
        self.ahead.declarations < self.ahead.scopes.declaration_count()
            && self.ahead.scopes.captured(self.ahead.declarations)
    }

    // Declares a local, which is not active yet.
    #[tactic(auto, using(crate::proofs::Places::drop_next))]
    fn declare_one(&mut self, name: ByteText) -> Result<Local, AllocError>
        ensures local { IfOk result (λ local. local ≡ declared_local name (maker_of self.old)) }
        ensures made { OnOk result (maker_of self.new ≡ pass_declaration (maker_of self.old)) }
    {
        let declaration = self.ahead.declarations;
        let captured = self.next_captured();
        self.ahead.declarations = sum(declaration, 1)?;
        Ok(Local {
            name,
            declaration: Some(declaration),
            captured,
        })
    }

    /// Declares locals, which are not active yet.
    pub fn declare(&mut self, alloc: Global, names: &[ByteText]) -> Result<Vec<Local>, AllocError>
        ensures locals { IfOk result (λ locals. locals.items ≡ (making.declare names.now (maker_of self.old)).value) }
        ensures made { OnOk result (maker_of self.new ≡ (making.declare names.now (maker_of self.old)).after) }
    {
        let mut locals = Vec::new(alloc);
        for name in names {
            let name = ByteText::from_slice(alloc, name.bytes())?;
            let local = self.declare_one(name)?;
            locals.push(local)?;
        }
        Ok(locals)
    }

    // A local becomes active here.
    fn activate_one(&mut self, alloc: Global, local: Local) -> Result<(), AllocError>
        ensures { OnOk result (maker_of self.new ≡ the_activate_one local (maker_of self.old)) }
    {
        let here = field(self.items.len())?;
        let listed = self.locals.len();
        let name = ByteText::from_slice(alloc, local.name.bytes())?;
        self.active.push(Active { local, listed })?;
        self.locals.push(LocVar {
            name,
            start: here,
            end: here,
        })?;
        Ok(())
    }

    /// Locals become active here.
    pub fn activate(&mut self, alloc: Global, locals: Vec<Local>) -> Result<(), AllocError>
        ensures { OnOk result (maker_of self.new ≡ making.activate locals.items (maker_of self.old)) }
    {
        for local in locals {
            self.activate_one(alloc, local)?;
        }
        Ok(())
    }

    /// A local of the list counts as active from here on.
    pub fn starts_here(&mut self, listed: usize) -> Result<(), AllocError>
        ensures { OnOk result (maker_of self.new ≡ making.starts_here listed (maker_of self.old)) }
    {
        let here = field(self.items.len())?;
        start_one(listed, self.locals.as_mut_slice(), here);
        Ok(())
    }

    /// Whether one of the active locals from the n-th on is captured.
    pub fn captured_from(&self, n: u32) -> bool
        ensures { result ≡ making.captured_from n (maker_of self.now) }
    {
        let n = n as usize;
        n < self.active.len() && any_captured(&self.active[n..])
    }

    /// The active locals from the n-th on end here.
    pub fn end_locals(&mut self, n: u32) -> Result<(), AllocError>
        ensures { OnOk result (maker_of self.new ≡ making.end_locals n (maker_of self.old)) }
    {
        let here = field(self.items.len())?;
        let n = n as usize;
        if n < self.active.len() {
            end_all(&self.active[n..], self.locals.as_mut_slice(), here);
            self.active.truncate(n);
        }
        Ok(())
    }
}

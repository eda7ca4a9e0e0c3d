// The functions that stand in a function, and its finishing.
ghost use Rattle.std.specs.Prelude.{◌≡◌, IfOk, OnOk};
ghost use Rattle.scopes.specs.Uses.{source_use, source_uses};
ghost use Rattle.scheme.specs.Making as making;
ghost use Rattle.scheme.specs.Functions as functions;
ghost use Rattle.code_builder.specs.Drafts.{heading_of, finished_draft};
ghost use Rattle.code_builder.specs.Made.{ahead_of, maker_of};
ghost use Rattle.code_builder.specs.Places.{place_of};

use crate::ahead::Ahead;
use crate::builder::{Builder, field, sum};
use crate::draft::{Draft, Heading, OwnDraft};
use crate::names::{Place, register_among};
use indexmap::IndexSet;
use lua_num::{ByteText, Names};
use opcode::Op;
use proto::{Constant, ConstantList};
use scheme::{Active, Piece};
use scopes::Source;
use std::alloc::{AllocError, Global};

// The name of a declaration.
fn name_of(active: &[Active], declaration: usize) -> &[u8]
    ensures { result.now ≡ functions.name_of declaration active.now }
{
    for one in active {
        if one.local.declaration == Some(declaration) {
            return one.local.name.bytes();
        }
    }
    b""
}

// The further word of a CLOSURE for what is in this place.
fn further_word(place: Place) -> Result<Piece, AllocError>
    ensures { IfOk result (λ piece. piece ≡ functions.further_word (place_of place)) }
{
    let (op, b) = match place {
        Place::Register(register) => (Op::Move, register),
        Place::Upvalue(slot) => (Op::GetUpval, slot),
        Place::Global => (Op::Move, 0),
    };
    Ok(Piece::Abc {
        op,
        a: 0,
        b: field(b)?,
        c: 0,
    })
}

// The constants by their numbers.
fn constant_list(alloc: Global, constants: IndexSet<Constant>) -> Result<ConstantList, AllocError>
    ensures { IfOk result (λ list. list ≡ constants.keys) }
{
    let constants = constants.into_iter().collect(alloc)?;
    Ok(ConstantList::from_vec(constants))
}

impl<'a> Builder<'a> {
    /// A function with these upvalues, of which nothing is made.
    pub fn new(alloc: Global, ahead: Ahead<'a>, upvalue_names: Names) -> Self
        ensures { maker_of result ≡ functions.empty_maker (ahead_of ahead.entry) upvalue_names }
    {
        Self {
            items: Vec::new(alloc),
            labels: Vec::new(alloc),
            constants: IndexSet::new(alloc),
            functions: Vec::new(alloc),
            free: 0,
            high: 0,
            active: Vec::new(alloc),
            locals: Vec::new(alloc),
            upvalue_names,
            ahead,
        }
    }

    /// Where the upvalues of the next function come from.
    pub fn next_sources(&self) -> &'a [Source]
        ensures { source_uses result.now ≡ functions.next_sources (maker_of self.now) }
    {
        let ahead = self.ahead;
        if ahead.functions < ahead.scopes.function_count() {
            ahead.scopes.upvalues(ahead.functions)
        } else {
            &[]
        }
    }

    // The name of an upvalue of a function in this one.
    fn source_name(&self, source: Source) -> &[u8]
        ensures { result.now ≡ functions.source_name (maker_of self.now) (source_use source) }
    {
        match source {
            Source::Local(declaration) => name_of(self.active.as_slice(), declaration),
            Source::Upvalue(slot) => match self.upvalue_names.items().get(slot) {
                Some(name) => name.bytes(),
                None => b"",
            },
        }
    }

    /// The names of the upvalues of a function in this one.
    pub fn source_names(&self, alloc: Global, sources: &[Source]) -> Result<Names, AllocError>
        ensures { IfOk result (λ names. names ≡ functions.source_names (maker_of self.now) (source_uses sources.now)) }
    {
        let mut names = Names::new(alloc);
        for source in sources {
            let name = ByteText::from_slice(alloc, self.source_name(*source))?;
            names.push(name)?;
        }
        Ok(names)
    }

    /// What is ahead of the next function, behind what is said of its upvalues.
    #[tactic(auto, using(crate::proofs::Places::drop_next))]
    pub fn inner_ahead(&self) -> Result<Ahead<'a>, AllocError>
        ensures { IfOk result (λ ahead. ahead_of ahead ≡ functions.without_sources (maker_of self.now).ahead) }
    {
        let mut ahead = self.ahead;
        ahead.functions = sum(ahead.functions, 1)?;
        Ok(ahead)
    }

    /// Puts a function that was made in this one, with what is ahead behind it.
    pub fn add_function(&mut self, draft: Draft, ahead: Ahead<'a>) -> Result<(), AllocError>
        ensures { OnOk result (maker_of self.new ≡ functions.with_function (finished_draft draft (ahead_of ahead.entry)) (maker_of self.old)) }
    {
        self.functions.push(draft)?;
        self.ahead = ahead;
        Ok(())
    }

    // Where a source of an upvalue is in this function.
    fn place_of_source(&self, source: Source) -> Place
        ensures { place_of result ≡ making.where_is (source_use source) (maker_of self.now).active }
    {
        match source {
            Source::Local(declaration) => {
                Place::Register(register_among(self.active.as_slice(), declaration))
            }
            Source::Upvalue(slot) => Place::Upvalue(slot),
        }
    }

    /// The further words of a CLOSURE.
    pub fn further_words(&mut self, line: u32, sources: &[Source]) -> Result<(), AllocError>
        ensures { OnOk result (maker_of self.new ≡ functions.further_words line (source_uses sources.now) (maker_of self.old)) }
    {
        for source in sources {
            let piece = further_word(self.place_of_source(*source))?;
            self.put(line, piece)?;
        }
        Ok(())
    }

    /// The function as it was made, with what is ahead behind it.
    pub fn finish(self, alloc: Global, heading: Heading) -> Result<(Draft, Ahead<'a>), AllocError>
        ensures { IfOk result (λ made. finished_draft made.0 (ahead_of made.1) ≡ functions.finished (heading_of heading) (maker_of self.entry)) }
    {
        let constants = constant_list(alloc, self.constants)?;
        let own = OwnDraft {
            heading,
            items: self.items,
            labels: self.labels,
            constants,
            high: self.high,
            locals: self.locals,
            upvalue_names: self.upvalue_names,
        };
        let draft = Draft {
            own,
            functions: self.functions,
        };
        Ok((draft, self.ahead))
    }
}

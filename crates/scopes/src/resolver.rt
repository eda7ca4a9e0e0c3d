// What is known of the part of a tree that was walked, and the steps of a walk.
ghost use Rattle.std.specs.Prelude.{◌≡◌, ◌⊎◌, ◌+◌, ◌<◌, ◌≤◌, false, ◌∷◌, [], ◌++◌, length, reverse, IfOk, IfErr};
ghost use Rattle.lua_tree.specs.Outline.{mentions, path_part, all_params};
ghost use Rattle.scopes.specs.Standing.{lookup, binding_of_option, Sound, Goes, Keeps, Left, Declared, Brought, Opened};
ghost use Rattle.scopes.specs.Capturing.{Captured, Full, Reached, Stuck, OnlyFunctions, Used};
ghost use Rattle.scopes.specs.declared.fault.ScopeFault.{ScopeFault as Fault};

use crate::fault::ScopeFault;
use crate::uses::{Binding, Captures, NameUse, Source};
use lua_num::{ByteText, Names};
use std::alloc::{AllocError, Global};

/// The greatest number of active locals of a function.
pub const MOST_LOCALS: usize = 200;

/// The greatest number of upvalues of a function.
pub const MOST_UPVALUES: usize = 60;

/// A name in scope.
#[derive(Drop)]
pub struct Local<'a> {
    pub name: &'a [u8],
    pub binding: Binding,
}

/// What holds of a place in the innermost function: whether it takes extra arguments, whether a loop of
/// it is around, and how many of its locals are active, hidden ones too.
#[derive(Clone, Copy, Debug, PartialEq, Eq)]
pub struct Here {
    pub vararg: bool,
    pub looped: bool,
    pub active: usize,
}

/// What is given back at the end of a block.
#[derive(Clone, Copy, Debug, PartialEq, Eq)]
pub struct Around {
    pub locals: usize,
    pub stack: usize,
    pub here: Here,
}

/// What is in scope, the functions that are open, and the answers so far.
#[derive(Drop)]
pub struct Resolver<'a> {
    /// The names in scope, the latest last.
    pub locals: Vec<Local<'a>>,
    /// The functions around by their numbers, the innermost last.
    pub stack: Vec<usize>,
    pub here: Here,
    pub names: Vec<NameUse>,
    pub captured: Vec<bool>,
    pub functions: Vec<Captures>,
}

impl<'a> Resolver<'a> {
    /// What is around a block that begins here.
    pub fn around(&self) -> Around
        ensures locals { result.locals ≡ length self.now.locals.items }
        ensures stack { result.stack ≡ length self.now.stack.items }
        ensures here { result.here ≡ self.now.here }
    {
        Around {
            locals: self.locals.len(),
            stack: self.stack.len(),
            here: self.here,
        }
    }

    /// Ends a block: what is in scope is again what was so before it.
    pub fn leave(&mut self, around: Around)
        ensures { Left self.old around self.new }
    {
        self.locals.truncate(around.locals);
        self.stack.truncate(around.stack);
        self.here = around.here;
    }

    /// Declares hidden locals and names, which are not in scope yet.
    pub fn declare(&mut self, line: u32, hidden: usize, names: usize) -> Result<(), ScopeFault>
        requires sound { Sound self.old }
        requires hidden { hidden ≤ 3 }
        ensures sound { IfOk result (λ _. Sound self.new) }
        ensures declared { IfOk result (λ _. Declared self.old self.new names) }
        ensures fits { IfOk result (λ _. self.old.here.active + hidden + names ≤ 200) }
        ensures fault { IfErr result (λ fault. (fault ≡ Fault.OutOfMemory) ⊎ ((fault ≡ Fault.TooManyLocals line 201) × (200 < self.old.here.active + hidden + names))) }
    {
        if names > MOST_LOCALS || self.here.active + hidden + names > MOST_LOCALS {
            return Err(ScopeFault::TooManyLocals {
                line,
                reached: MOST_LOCALS + 1,
            });
        }
        self.number(names)?;
        Ok(())
    }

    /// Numbers declarations, none of which is captured yet.
    fn number(&mut self, names: usize) -> Result<(), AllocError>
        ensures { IfOk result (λ _. Declared self.old self.new names) }
    {
        for _ in 0..names {
            self.captured.push(false)?;
        }
        Ok(())
    }

    /// Brings names into scope, by the number of the first one's declaration.
    pub fn bring(&mut self, names: &'a [ByteText], first: usize) -> Result<(), AllocError>
        requires sound { Sound self.old }
        requires room { self.old.here.active + length names.now ≤ 200 }
        requires numbered { first + length names.now ≤ length self.old.captured.items }
        ensures sound { IfOk result (λ _. Sound self.new) }
        ensures brought { IfOk result (λ _. Brought self.old self.new names.now first) }
    {
        for i in 0..names.len() {
            self.bring_one(names[i].bytes(), first + i)?;
        }
        Ok(())
    }

    /// Brings a name into scope, by its declaration's number.
    pub fn bring_one(&mut self, name: &'a [u8], declaration: usize) -> Result<(), AllocError>
        requires sound { Sound self.old }
        requires room { self.old.here.active < 200 }
        requires numbered { declaration < length self.old.captured.items }
        ensures sound { IfOk result (λ _. Sound self.new) }
        ensures brought { IfOk result (λ _. Brought self.old self.new (name.now ∷ []) declaration) }
    {
        let home = self.stack[self.stack.len() - 1];
        self.locals.push(Local {
            name,
            binding: Binding { declaration, home },
        })?;
        self.here.active += 1;
        Ok(())
    }

    /// Brings a function's parameters into scope, by the number of the first one's declaration; a method
    /// has one before them, `self`.
    pub fn bring_params(
        &mut self,
        method: bool,
        params: &'a [ByteText],
        first: usize,
    ) -> Result<(), AllocError>
        requires sound { Sound self.old }
        requires room { self.old.here.active + length (all_params method params.now) ≤ 200 }
        requires numbered { first + length (all_params method params.now) ≤ length self.old.captured.items }
        ensures sound { IfOk result (λ _. Sound self.new) }
        ensures brought { IfOk result (λ _. Brought self.old self.new (all_params method params.now) first) }
    {
        if method {
            self.bring_one(b"self", first)?;
            self.bring(params, first + 1)?;
            Ok(())
        } else {
            self.bring(params, first)?;
            Ok(())
        }
    }

    /// Opens a function.
    pub fn open(&mut self, alloc: Global, vararg: bool) -> Result<(), AllocError>
        ensures { IfOk result (λ _. Opened self.old self.new vararg) }
    {
        self.stack.push(self.functions.len())?;
        self.functions.push(Captures::new(alloc))?;
        self.here = Here {
            vararg,
            looped: false,
            active: 0,
        };
        Ok(())
    }

    /// What a name means, if not a global.
    fn find(&self, name: &[u8]) -> Option<Binding>
        ensures { binding_of_option result ≡ lookup self.now.locals.items name.now }
    {
        let mut found = None;
        for local in &self.locals {
            if local.name == name {
                found = Some(local.binding);
            }
        }
        found
    }

    /// Mentions a name.
    pub fn mention(&mut self, line: u32, name: &[u8]) -> Result<(), ScopeFault>
        requires { Sound self.old }
        ensures sound { IfOk result (λ _. Sound self.new) }
        ensures keeps { IfOk result (λ _. Keeps self.old self.new) }
        ensures goes { Goes (mentions line name.now) self.old self.new result }
    {
        let Some(binding) = self.find(name) else {
            self.answer(NameUse::Global)?;
            return Ok(());
        };
        let used = self.used(line, binding)?;
        self.answer(used)?;
        Ok(())
    }

    /// Mentions the first name of a function's path; the others are fields.
    pub fn mention_path(&mut self, line: u32, path: &Names) -> Result<(), ScopeFault>
        requires { Sound self.old }
        ensures sound { IfOk result (λ _. Sound self.new) }
        ensures keeps { IfOk result (λ _. Keeps self.old self.new) }
        ensures goes { Goes (path_part line path.now) self.old self.new result }
    {
        if let [name, ..] = path.items() {
            return self.mention(line, name.bytes());
        }
        Ok(())
    }

    /// Answers what the next name means.
    fn answer(&mut self, used: NameUse) -> Result<(), AllocError>
        ensures names { IfOk result (λ _. self.new.names.items ≡ self.old.names.items ++ used ∷ []) }
        ensures locals { self.new.locals ≡ self.old.locals }
        ensures stack { self.new.stack ≡ self.old.stack }
        ensures here { self.new.here ≡ self.old.here }
        ensures captured { self.new.captured ≡ self.old.captured }
        ensures functions { self.new.functions ≡ self.old.functions }
    {
        self.names.push(used)?;
        Ok(())
    }

    /// What a declaration is in the innermost function.
    fn used(&mut self, line: u32, binding: Binding) -> Result<NameUse, ScopeFault>
        requires sound { Sound self.old }
        requires declared { binding.declaration < length self.old.captured.items }
        ensures sound { IfOk result (λ _. Sound self.new) }
        ensures used { IfOk result (Used binding self.old self.new) }
        ensures fault { IfErr result (λ fault. (fault ≡ Fault.OutOfMemory) ⊎ Stuck binding line (reverse self.old.stack.items) self.old.functions.items fault) }
    {
        match self.reach(line, binding)? {
            Source::Local(declaration) => Ok(NameUse::Local(declaration)),
            Source::Upvalue(slot) => {
                self.captured[binding.declaration] = true;
                Ok(NameUse::Upvalue(slot))
            }
        }
    }

    /// What a declaration is in the innermost function, when each function inside its own has captured
    /// it. Those have greater numbers.
    fn reach(&mut self, line: u32, binding: Binding) -> Result<Source, ScopeFault>
        requires sound { Sound self.old }
        ensures sound { IfOk result (λ _. Sound self.new) }
        ensures only { IfOk result (λ _. OnlyFunctions self.old self.new) }
        ensures reached { IfOk result (Reached binding (reverse self.old.stack.items) self.old.functions.items self.new.functions.items) }
        ensures fault { IfErr result (λ fault. (fault ≡ Fault.OutOfMemory) ⊎ Stuck binding line (reverse self.old.stack.items) self.old.functions.items fault) }
    {
        let mut source = Source::Local(binding.declaration);
        for i in 0..self.stack.len() {
            let function = self.stack[i];
            if function > binding.home {
                let slot = self.capture(line, function, binding.declaration, source)?;
                source = Source::Upvalue(slot);
            }
        }
        Ok(source)
    }

    /// The slot of a declaration among the upvalues of a function, which gets it from this source.
    fn capture(
        &mut self,
        line: u32,
        function: usize,
        declaration: usize,
        source: Source,
    ) -> Result<usize, ScopeFault>
        requires sound { Sound self.old }
        requires function { function < length self.old.functions.items }
        ensures sound { IfOk result (λ _. Sound self.new) }
        ensures only { IfOk result (λ _. OnlyFunctions self.old self.new) }
        ensures captured { IfOk result (Captured declaration source function self.old.functions.items self.new.functions.items) }
        ensures fault { IfErr result (λ fault. (fault ≡ Fault.OutOfMemory) ⊎ Full declaration function self.old.functions.items line fault) }
    {
        let captures = &mut self.functions[function];
        if let Some(slot) = captures.slot(declaration) {
            return Ok(slot);
        }
        let slot = captures.declarations.len();
        if slot >= MOST_UPVALUES {
            return Err(ScopeFault::TooManyUpvalues {
                line,
                reached: slot + 1,
            });
        }
        captures.push(declaration, source)?;
        Ok(slot)
    }
}

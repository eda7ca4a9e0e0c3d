// Prefix expressions: names and parentheses, with what is indexed and called behind them.
ghost use Rattle.std.specs.Prelude.{◌≡◌, ◌+◌, ◌≤◌, ◌<◌, length, IfOk, IfErr};
ghost use Rattle.lua_tree.specs.View.{view_exp};
ghost use Rattle.lua_tree.specs.WellFormed.{depth_of_expression};
ghost use Rattle.parser.specs.Program.{prefix, paren_of, suffix, field_of, index_of, method_of, call_of, call_spare, paren_spare};
ghost use Rattle.parser.specs.Finds.{Finds, Refuses};

use crate::classes::{Role, Suffix};
use crate::cursor::{Cursor, Halt, copy_of};
use crate::mark::Mark;
use crate::nodes::{call, field, index, method, named, parenthesized};
use crate::tall::Tall;
use lua_tree::Exp;
use std::alloc::Global;

impl Role {
    /// How much deeper a call lies here than the expression that begins with it.
    fn call_spare(self) -> usize
        ensures { result ≡ call_spare self }
    {
        match self {
            Role::Target => 1,
            Role::Operand | Role::Statement => 0,
        }
    }

    /// How much deeper parentheses lie here than the expression that begins with them.
    fn paren_spare(self) -> usize
        ensures { result ≡ paren_spare self }
    {
        match self {
            Role::Operand => 0,
            Role::Target | Role::Statement => 1,
        }
    }
}

impl Cursor<'_> {
    /// A name or an expression in parentheses, with all its suffixes.
    #[cycle(parser)]
    pub fn prefix(
        &mut self,
        alloc: Global,
        depth: usize,
        role: Role,
    ) -> Result<Tall<Box<Exp>>, Halt>
        requires { depth ≤ 201 }
        ensures found { IfOk result (λ x. Finds (prefix depth role) self.old.line self.old.rest.now (view_exp x.part.value) self.new.line self.new.rest.now) }
        ensures height { IfOk result (λ x. x.height ≡ depth_of_expression (view_exp x.part.value)) }
        ensures low { IfOk result (λ x. depth + x.height ≤ 200) }
        ensures refused { IfErr result (Refuses (prefix depth role) self.old.line self.old.rest.now self.new.rest.now) }
        ensures shorter { IfOk result (λ _. length self.new.rest.now < length self.old.rest.now) }
    {
        let line = self.next_line();
        if let Some(name) = self.next_name() {
            self.take(depth + 1)?;
            let name = copy_of(alloc, name)?;
            let part = named(alloc, line, name)?;
            let first = Tall { part, height: 1 };
            let whole = self.suffix(alloc, depth, role, first)?;
            return Ok(whole);
        }
        if !self.is(Mark::OpenParen) {
            return Err(Halt::Unexpected);
        }
        let first = self.paren(alloc, depth, role)?;
        let whole = self.suffix(alloc, depth, role, first)?;
        Ok(whole)
    }

    /// An expression in parentheses.
    #[cycle(parser)]
    fn paren(&mut self, alloc: Global, depth: usize, role: Role) -> Result<Tall<Box<Exp>>, Halt>
        requires { depth ≤ 201 }
        ensures found { IfOk result (λ x. Finds (paren_of depth role) self.old.line self.old.rest.now (view_exp x.part.value) self.new.line self.new.rest.now) }
        ensures height { IfOk result (λ x. x.height ≡ depth_of_expression (view_exp x.part.value)) }
        ensures low { IfOk result (λ x. depth + x.height ≤ 200) }
        ensures refused { IfErr result (Refuses (paren_of depth role) self.old.line self.old.rest.now self.new.rest.now) }
        ensures shorter { IfOk result (λ _. length self.new.rest.now < length self.old.rest.now) }
    {
        let line = self.next_line();
        let spare = role.paren_spare();
        self.take(depth + spare + 2)?;
        let inner = self.whole(alloc, depth + spare + 1, 0)?;
        self.want(Mark::CloseParen)?;
        Ok(Tall {
            height: inner.height + 1,
            part: parenthesized(alloc, line, inner.part)?,
        })
    }

    /// The suffixes that follow an expression.
    #[cycle(parser)]
    pub fn suffix(
        &mut self,
        alloc: Global,
        depth: usize,
        role: Role,
        first: Tall<Box<Exp>>,
    ) -> Result<Tall<Box<Exp>>, Halt>
        requires low { depth + first.height ≤ 200 }
        requires height { first.height ≡ depth_of_expression (view_exp first.part.value) }
        ensures found { IfOk result (λ x. Finds (suffix depth role (view_exp first.part.value)) self.old.line self.old.rest.now (view_exp x.part.value) self.new.line self.new.rest.now) }
        ensures height { IfOk result (λ x. x.height ≡ depth_of_expression (view_exp x.part.value)) }
        ensures low { IfOk result (λ x. depth + x.height ≤ 200) }
        ensures refused { IfErr result (Refuses (suffix depth role (view_exp first.part.value)) self.old.line self.old.rest.now self.new.rest.now) }
        ensures shorter { IfOk result (λ _. length self.new.rest.now ≤ length self.old.rest.now) }
    {
        let mut on = first;
        loop {
            on = match self.next_suffix() {
                Suffix::Field => self.field_of(alloc, depth, on)?,
                Suffix::Index => self.index_of(alloc, depth, on)?,
                Suffix::Method => self.method_of(alloc, depth, role, on)?,
                Suffix::Call => self.call_of(alloc, depth, role, on)?,
                Suffix::Missing => return Ok(on),
            };
        }
    }

    /// A field of an expression.
    fn field_of(
        &mut self,
        alloc: Global,
        depth: usize,
        on: Tall<Box<Exp>>,
    ) -> Result<Tall<Box<Exp>>, Halt>
        requires low { depth + on.height ≤ 200 }
        requires height { on.height ≡ depth_of_expression (view_exp on.part.value) }
        ensures found { IfOk result (λ x. Finds (field_of depth (view_exp on.part.value)) self.old.line self.old.rest.now (view_exp x.part.value) self.new.line self.new.rest.now) }
        ensures height { IfOk result (λ x. x.height ≡ depth_of_expression (view_exp x.part.value)) }
        ensures low { IfOk result (λ x. depth + x.height ≤ 200) }
        ensures refused { IfErr result (Refuses (field_of depth (view_exp on.part.value)) self.old.line self.old.rest.now self.new.rest.now) }
        ensures shorter { IfOk result (λ _. length self.new.rest.now < length self.old.rest.now) }
    {
        let line = self.next_line();
        self.take(on.needed_behind(depth))?;
        let name = self.name(alloc)?;
        Ok(Tall {
            height: on.height + 1,
            part: field(alloc, line, on.part, name)?,
        })
    }

    /// An expression indexed by a key in brackets.
    #[cycle(parser)]
    fn index_of(
        &mut self,
        alloc: Global,
        depth: usize,
        on: Tall<Box<Exp>>,
    ) -> Result<Tall<Box<Exp>>, Halt>
        requires low { depth + on.height ≤ 200 }
        requires height { on.height ≡ depth_of_expression (view_exp on.part.value) }
        ensures found { IfOk result (λ x. Finds (index_of depth (view_exp on.part.value)) self.old.line self.old.rest.now (view_exp x.part.value) self.new.line self.new.rest.now) }
        ensures height { IfOk result (λ x. x.height ≡ depth_of_expression (view_exp x.part.value)) }
        ensures low { IfOk result (λ x. depth + x.height ≤ 200) }
        ensures refused { IfErr result (Refuses (index_of depth (view_exp on.part.value)) self.old.line self.old.rest.now self.new.rest.now) }
        ensures shorter { IfOk result (λ _. length self.new.rest.now < length self.old.rest.now) }
    {
        let line = self.next_line();
        self.take(on.needed_behind(depth))?;
        let key = self.whole(alloc, depth + 1, 0)?;
        self.want(Mark::CloseBracket)?;
        Ok(Tall {
            height: on.height.max(key.height) + 1,
            part: index(alloc, line, on.part, key.part)?,
        })
    }

    /// A call of a method.
    #[cycle(parser)]
    fn method_of(
        &mut self,
        alloc: Global,
        depth: usize,
        role: Role,
        on: Tall<Box<Exp>>,
    ) -> Result<Tall<Box<Exp>>, Halt>
        requires low { depth + on.height ≤ 200 }
        requires height { on.height ≡ depth_of_expression (view_exp on.part.value) }
        ensures found { IfOk result (λ x. Finds (method_of depth role (view_exp on.part.value)) self.old.line self.old.rest.now (view_exp x.part.value) self.new.line self.new.rest.now) }
        ensures height { IfOk result (λ x. x.height ≡ depth_of_expression (view_exp x.part.value)) }
        ensures low { IfOk result (λ x. depth + x.height ≤ 200) }
        ensures refused { IfErr result (Refuses (method_of depth role (view_exp on.part.value)) self.old.line self.old.rest.now self.new.rest.now) }
        ensures shorter { IfOk result (λ _. length self.new.rest.now < length self.old.rest.now) }
    {
        let spare = role.call_spare();
        self.take(on.needed_behind(depth + spare))?;
        let name = self.name(alloc)?;
        let on_line = self.line;
        let line = self.next_line();
        let args = self.arguments(alloc, depth + spare + 1, 0)?;
        Ok(Tall {
            height: on.height.max(args.height) + 1,
            part: method(alloc, line, on.part, name, args.part, on_line)?,
        })
    }

    /// A call.
    #[cycle(parser)]
    fn call_of(
        &mut self,
        alloc: Global,
        depth: usize,
        role: Role,
        on: Tall<Box<Exp>>,
    ) -> Result<Tall<Box<Exp>>, Halt>
        requires low { depth + on.height ≤ 200 }
        requires height { on.height ≡ depth_of_expression (view_exp on.part.value) }
        ensures found { IfOk result (λ x. Finds (call_of depth role (view_exp on.part.value)) self.old.line self.old.rest.now (view_exp x.part.value) self.new.line self.new.rest.now) }
        ensures height { IfOk result (λ x. x.height ≡ depth_of_expression (view_exp x.part.value)) }
        ensures low { IfOk result (λ x. depth + x.height ≤ 200) }
        ensures refused { IfErr result (Refuses (call_of depth role (view_exp on.part.value)) self.old.line self.old.rest.now self.new.rest.now) }
        ensures shorter { IfOk result (λ _. length self.new.rest.now < length self.old.rest.now) }
    {
        let spare = role.call_spare();
        let on_line = self.line;
        let line = self.next_line();
        let args = self.arguments(alloc, depth + spare + 1, on.needed_behind(depth + spare))?;
        Ok(Tall {
            height: on.height.max(args.height) + 1,
            part: call(alloc, line, on.part, args.part, on_line)?,
        })
    }
}

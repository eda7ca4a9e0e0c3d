// Expressions (manual 2.5).
ghost use Rattle.std.specs.Prelude.{◌≡◌, ◌+◌, ◌≤◌, ◌<◌, length, IfOk, IfErr};
ghost use Rattle.lua_tree.specs.View.{view_exp};
ghost use Rattle.lua_tree.specs.WellFormed.{depth_of_expression};
ghost use Rattle.parser.specs.Program.{whole, climb, simple, function_value, table_of};
ghost use Rattle.parser.specs.Finds.{Finds, Refuses};

use crate::classes::Role;
use crate::cursor::{Cursor, Halt};
use crate::mark::Mark;
use crate::nodes::{constructor, function, operation, unary};
use crate::tall::Tall;
use lua_tree::Exp;
use std::alloc::Global;

impl Cursor<'_> {
    /// An expression of operators that bind more strongly than a limit.
    #[cycle(parser)]
    pub fn whole(&mut self, alloc: Global, depth: usize, limit: u8) -> Result<Tall<Box<Exp>>, Halt>
        requires { depth ≤ 200 }
        ensures found { IfOk result (λ x. Finds (whole depth limit) self.old.line self.old.rest.now (view_exp x.part.value) self.new.line self.new.rest.now) }
        ensures height { IfOk result (λ x. x.height ≡ depth_of_expression (view_exp x.part.value)) }
        ensures low { IfOk result (λ x. depth + x.height ≤ 200) }
        ensures refused { IfErr result (Refuses (whole depth limit) self.old.line self.old.rest.now self.new.rest.now) }
        ensures shorter { IfOk result (λ _. length self.new.rest.now < length self.old.rest.now) }
    {
        let start = self.next_line();
        match self.next_unary() {
            Some(op) => {
                self.take(depth + 2)?;
                let of = self.whole(alloc, depth + 1, 8)?;
                let first = Tall {
                    height: of.height + 1,
                    part: unary(alloc, start, op, of.part)?,
                };
                let whole = self.climb(alloc, depth, limit, start, first)?;
                Ok(whole)
            }
            None => {
                let first = self.simple(alloc, depth)?;
                let whole = self.climb(alloc, depth, limit, start, first)?;
                Ok(whole)
            }
        }
    }

    /// The operators above a limit that follow an operand.
    #[cycle(parser)]
    pub fn climb(
        &mut self,
        alloc: Global,
        depth: usize,
        limit: u8,
        start: u32,
        first: Tall<Box<Exp>>,
    ) -> Result<Tall<Box<Exp>>, Halt>
        requires low { depth + first.height ≤ 200 }
        requires height { first.height ≡ depth_of_expression (view_exp first.part.value) }
        ensures found { IfOk result (λ x. Finds (climb depth limit start (view_exp first.part.value)) self.old.line self.old.rest.now (view_exp x.part.value) self.new.line self.new.rest.now) }
        ensures height { IfOk result (λ x. x.height ≡ depth_of_expression (view_exp x.part.value)) }
        ensures low { IfOk result (λ x. depth + x.height ≤ 200) }
        ensures refused { IfErr result (Refuses (climb depth limit start (view_exp first.part.value)) self.old.line self.old.rest.now self.new.rest.now) }
        ensures shorter { IfOk result (λ _. length self.new.rest.now ≤ length self.old.rest.now) }
    {
        let mut left = first;
        while let Some(op) = self.next_infix() {
            if op.left_power() <= limit {
                return Ok(left);
            }
            let line = self.next_line();
            self.take(left.needed_behind(depth))?;
            let right = self.whole(alloc, depth + 1, op.right_power())?;
            left = Tall {
                height: left.height.max(right.height) + 1,
                part: operation(alloc, start, line, op, left.part, right.part)?,
            };
        }
        Ok(left)
    }

    /// A literal, a function, a constructor or a prefix expression.
    #[cycle(parser)]
    fn simple(&mut self, alloc: Global, depth: usize) -> Result<Tall<Box<Exp>>, Halt>
        requires { depth ≤ 200 }
        ensures found { IfOk result (λ x. Finds (simple depth) self.old.line self.old.rest.now (view_exp x.part.value) self.new.line self.new.rest.now) }
        ensures height { IfOk result (λ x. x.height ≡ depth_of_expression (view_exp x.part.value)) }
        ensures low { IfOk result (λ x. depth + x.height ≤ 200) }
        ensures refused { IfErr result (Refuses (simple depth) self.old.line self.old.rest.now self.new.rest.now) }
        ensures shorter { IfOk result (λ _. length self.new.rest.now < length self.old.rest.now) }
    {
        if let Some(part) = self.literal(alloc)? {
            self.take(depth + 1)?;
            return Ok(Tall { part, height: 1 });
        }
        if self.is(Mark::Function) {
            let function = self.function_value(alloc, depth)?;
            return Ok(function);
        }
        if self.is(Mark::OpenBrace) {
            let table = self.table(alloc, depth)?;
            return Ok(table);
        }
        let prefix = self.prefix(alloc, depth, Role::Operand)?;
        Ok(prefix)
    }

    /// A function expression.
    #[cycle(parser)]
    fn function_value(&mut self, alloc: Global, depth: usize) -> Result<Tall<Box<Exp>>, Halt>
        requires { depth ≤ 200 }
        ensures found { IfOk result (λ x. Finds (function_value depth) self.old.line self.old.rest.now (view_exp x.part.value) self.new.line self.new.rest.now) }
        ensures height { IfOk result (λ x. x.height ≡ depth_of_expression (view_exp x.part.value)) }
        ensures low { IfOk result (λ x. depth + x.height ≤ 200) }
        ensures refused { IfErr result (Refuses (function_value depth) self.old.line self.old.rest.now self.new.rest.now) }
        ensures shorter { IfOk result (λ _. length self.new.rest.now < length self.old.rest.now) }
    {
        let line = self.next_line();
        self.take(depth + 1)?;
        let body = self.body(alloc, depth + 1, line)?;
        Ok(Tall {
            height: body.height + 1,
            part: function(alloc, line, body.part)?,
        })
    }

    /// A constructor.
    #[cycle(parser)]
    fn table(&mut self, alloc: Global, depth: usize) -> Result<Tall<Box<Exp>>, Halt>
        requires { depth ≤ 200 }
        ensures found { IfOk result (λ x. Finds (table_of depth) self.old.line self.old.rest.now (view_exp x.part.value) self.new.line self.new.rest.now) }
        ensures height { IfOk result (λ x. x.height ≡ depth_of_expression (view_exp x.part.value)) }
        ensures low { IfOk result (λ x. depth + x.height ≤ 200) }
        ensures refused { IfErr result (Refuses (table_of depth) self.old.line self.old.rest.now self.new.rest.now) }
        ensures shorter { IfOk result (λ _. length self.new.rest.now < length self.old.rest.now) }
    {
        let line = self.next_line();
        self.take(depth + 1)?;
        let items = self.fields(alloc, depth + 1)?;
        self.want(Mark::CloseBrace)?;
        Ok(Tall {
            height: items.height + 1,
            part: constructor(alloc, line, items.part)?,
        })
    }
}

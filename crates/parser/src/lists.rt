// Lists of expressions, and the arguments of calls.
ghost use Rattle.std.specs.Prelude.{◌≡◌, ◌+◌, ◌≤◌, ◌<◌, length, IfOk, IfErr};
ghost use Rattle.lua_tree.specs.View.{view_exps, view_args};
ghost use Rattle.lua_tree.specs.WellFormed.{depth_of_expressions, depth_of_arguments};
ghost use Rattle.parser.specs.Program.{arguments, listed, expressions_at};
ghost use Rattle.parser.specs.Finds.{Finds, Refuses};

use crate::cursor::{Cursor, Halt, copy_of};
use crate::mark::Mark;
use crate::tall::Tall;
use lua_tree::{Args, Exps};
use std::alloc::Global;

impl Cursor<'_> {
    /// The arguments of a call, whose first token needs a depth.
    #[cycle(parser)]
    pub fn arguments(
        &mut self,
        alloc: Global,
        depth: usize,
        needed: usize,
    ) -> Result<Tall<Args>, Halt>
        requires { needed ≤ 200 → depth ≤ 200 }
        ensures found { IfOk result (λ x. Finds (arguments depth needed) self.old.line self.old.rest.now (view_args x.part) self.new.line self.new.rest.now) }
        ensures height { IfOk result (λ x. x.height ≡ depth_of_arguments (view_args x.part)) }
        ensures low { IfOk result (λ x. depth + x.height ≤ 200) }
        ensures needed { IfOk result (λ _. needed ≤ 200) }
        ensures refused { IfErr result (Refuses (arguments depth needed) self.old.line self.old.rest.now self.new.rest.now) }
        ensures shorter { IfOk result (λ _. length self.new.rest.now < length self.old.rest.now) }
    {
        if self.is(Mark::OpenParen) {
            if !self.is_on_line() {
                return Err(Halt::Unexpected);
            }
            self.take(needed)?;
            let list = self.listed(alloc, depth)?;
            self.want(Mark::CloseParen)?;
            return Ok(Tall {
                part: Args::List(list.part),
                height: list.height,
            });
        }
        if self.is(Mark::OpenBrace) {
            self.take(needed)?;
            let items = self.fields(alloc, depth)?;
            self.want(Mark::CloseBrace)?;
            return Ok(Tall {
                part: Args::Table(items.part),
                height: items.height,
            });
        }
        let Some(text) = self.next_text() else {
            return Err(Halt::Unexpected);
        };
        self.take(needed)?;
        let text = copy_of(alloc, text)?;
        Ok(Tall {
            part: Args::Text(text),
            height: 0,
        })
    }

    /// A list of arguments up to its `)`.
    #[cycle(parser)]
    fn listed(&mut self, alloc: Global, depth: usize) -> Result<Tall<Exps>, Halt>
        requires { depth ≤ 200 }
        ensures found { IfOk result (λ x. Finds (listed depth) self.old.line self.old.rest.now (view_exps x.part) self.new.line self.new.rest.now) }
        ensures height { IfOk result (λ x. x.height ≡ depth_of_expressions (view_exps x.part)) }
        ensures low { IfOk result (λ x. depth + x.height ≤ 200) }
        ensures refused { IfErr result (Refuses (listed depth) self.old.line self.old.rest.now self.new.rest.now) }
        ensures shorter { IfOk result (λ _. length self.new.rest.now ≤ length self.old.rest.now) }
    {
        if self.is(Mark::CloseParen) {
            return Ok(Tall {
                part: Exps::new(alloc),
                height: 0,
            });
        }
        let list = self.expressions(alloc, depth)?;
        Ok(list)
    }

    /// One expression or more, separated by commas.
    #[cycle(parser)]
    pub fn expressions(&mut self, alloc: Global, depth: usize) -> Result<Tall<Exps>, Halt>
        requires { depth ≤ 200 }
        ensures found { IfOk result (λ x. Finds (expressions_at depth) self.old.line self.old.rest.now (view_exps x.part) self.new.line self.new.rest.now) }
        ensures height { IfOk result (λ x. x.height ≡ depth_of_expressions (view_exps x.part)) }
        ensures low { IfOk result (λ x. depth + x.height ≤ 200) }
        ensures refused { IfErr result (Refuses (expressions_at depth) self.old.line self.old.rest.now self.new.rest.now) }
        ensures shorter { IfOk result (λ _. length self.new.rest.now < length self.old.rest.now) }
    {
        let first = self.whole(alloc, depth, 0)?;
        let mut list = Tall {
            part: Exps::new(alloc),
            height: first.height,
        };
        list.part.push(Box::into_inner(first.part))?;
        while self.is(Mark::Comma) {
            self.take(depth + 1)?;
            let next = self.whole(alloc, depth, 0)?;
            list.height = list.height.max(next.height);
            list.part.push(Box::into_inner(next.part))?;
        }
        Ok(list)
    }
}

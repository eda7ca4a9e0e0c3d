// Blocks and statements (manual 2.4).
ghost use Rattle.std.specs.Prelude.{◌≡◌, ◌+◌, ◌≤◌, ◌<◌, length, IfOk, IfErr};
ghost use Rattle.lua_tree.specs.View.{view_statement, view_block, view_exps, view_exp};
ghost use Rattle.lua_tree.specs.WellFormed.{depth_of_statement, depth_of_statements, depth_of_expressions, depth_of_expression, ends_block as ends_the_block, is_call as is_a_call, is_target as is_a_target};
ghost use Rattle.parser.specs.Program.{block, one_statement, semicolon, while_of, do_of, repeat_of, return_of, break_of, results, expression_statement, targets};
ghost use Rattle.parser.specs.Finds.{Finds, Refuses};

use crate::classes::{Role, Start};
use crate::cursor::{Cursor, Halt};
use crate::mark::Mark;
use crate::tall::Tall;
use lua_tree::{Block, Exp, ExpKind, Exps, Stat, StatKind};
use std::alloc::Global;

impl Cursor<'_> {
    /// The statements of a block.
    #[cycle(parser)]
    pub fn block(&mut self, alloc: Global, depth: usize) -> Result<Tall<Block>, Halt>
        requires { depth ≤ 200 }
        ensures found { IfOk result (λ x. Finds (block depth) self.old.line self.old.rest.now (view_block x.part) self.new.line self.new.rest.now) }
        ensures height { IfOk result (λ x. x.height ≡ depth_of_statements (view_block x.part)) }
        ensures low { IfOk result (λ x. depth + x.height ≤ 200) }
        ensures refused { IfErr result (Refuses (block depth) self.old.line self.old.rest.now self.new.rest.now) }
        ensures shorter { IfOk result (λ _. length self.new.rest.now ≤ length self.old.rest.now) }
    {
        let mut block = Tall {
            part: Block::new(alloc),
            height: 0,
        };
        while !self.is_block_end() {
            let line = self.next_line();
            let statement = self.statement(alloc, depth + 1)?;
            let semi = self.semicolon();
            let last = ends_block(&statement.part);
            block.height = block.height.max(statement.height + 1);
            block.part.push(Stat {
                line,
                semi,
                kind: statement.part,
            })?;
            if last {
                return Ok(block);
            }
        }
        Ok(block)
    }

    /// Whether a semicolon follows, which is taken.
    fn semicolon(&mut self) -> bool
        ensures found { Finds semicolon self.old.line self.old.rest.now result self.new.line self.new.rest.now }
        ensures shorter { length self.new.rest.now ≤ length self.old.rest.now }
    {
        self.accept(Mark::Semicolon)
    }

    /// A statement at a depth.
    #[cycle(parser)]
    fn statement(&mut self, alloc: Global, depth: usize) -> Result<Tall<StatKind>, Halt>
        requires { depth ≤ 201 }
        ensures found { IfOk result (λ x. Finds (one_statement depth) self.old.line self.old.rest.now (view_statement x.part) self.new.line self.new.rest.now) }
        ensures height { IfOk result (λ x. x.height ≡ depth_of_statement (view_statement x.part)) }
        ensures low { IfOk result (λ x. depth + x.height ≤ 200) }
        ensures refused { IfErr result (Refuses (one_statement depth) self.old.line self.old.rest.now self.new.rest.now) }
        ensures shorter { IfOk result (λ _. length self.new.rest.now < length self.old.rest.now) }
    {
        match self.next_start() {
            Start::If => Ok(self.if_statement(alloc, depth)?),
            Start::While => Ok(self.while_statement(alloc, depth)?),
            Start::Do => Ok(self.do_statement(alloc, depth)?),
            Start::For => Ok(self.for_statement(alloc, depth)?),
            Start::Repeat => Ok(self.repeat_statement(alloc, depth)?),
            Start::Function => Ok(self.function_statement(alloc, depth)?),
            Start::Local => Ok(self.local_statement(alloc, depth)?),
            Start::Return => Ok(self.return_statement(alloc, depth)?),
            Start::Break => Ok(self.break_statement(depth)?),
            Start::Expression => Ok(self.expression_statement(alloc, depth)?),
        }
    }

    /// A `while` loop.
    #[cycle(parser)]
    fn while_statement(&mut self, alloc: Global, depth: usize) -> Result<Tall<StatKind>, Halt>
        requires { depth ≤ 201 }
        ensures found { IfOk result (λ x. Finds (while_of depth) self.old.line self.old.rest.now (view_statement x.part) self.new.line self.new.rest.now) }
        ensures height { IfOk result (λ x. x.height ≡ depth_of_statement (view_statement x.part)) }
        ensures low { IfOk result (λ x. depth + x.height ≤ 200) }
        ensures refused { IfErr result (Refuses (while_of depth) self.old.line self.old.rest.now self.new.rest.now) }
        ensures shorter { IfOk result (λ _. length self.new.rest.now < length self.old.rest.now) }
    {
        self.take(depth + 1)?;
        let cond = self.whole(alloc, depth, 0)?;
        self.want(Mark::Do)?;
        let body = self.block(alloc, depth)?;
        self.want(Mark::End)?;
        Ok(Tall {
            height: cond.height.max(body.height),
            part: StatKind::While {
                cond: Box::into_inner(cond.part),
                body: body.part,
            },
        })
    }

    /// A block with its own scope.
    #[cycle(parser)]
    fn do_statement(&mut self, alloc: Global, depth: usize) -> Result<Tall<StatKind>, Halt>
        requires { depth ≤ 201 }
        ensures found { IfOk result (λ x. Finds (do_of depth) self.old.line self.old.rest.now (view_statement x.part) self.new.line self.new.rest.now) }
        ensures height { IfOk result (λ x. x.height ≡ depth_of_statement (view_statement x.part)) }
        ensures low { IfOk result (λ x. depth + x.height ≤ 200) }
        ensures refused { IfErr result (Refuses (do_of depth) self.old.line self.old.rest.now self.new.rest.now) }
        ensures shorter { IfOk result (λ _. length self.new.rest.now < length self.old.rest.now) }
    {
        self.take(depth)?;
        let body = self.block(alloc, depth)?;
        self.want(Mark::End)?;
        Ok(Tall {
            height: body.height,
            part: StatKind::Do(body.part),
        })
    }

    /// A `repeat` loop.
    #[cycle(parser)]
    fn repeat_statement(&mut self, alloc: Global, depth: usize) -> Result<Tall<StatKind>, Halt>
        requires { depth ≤ 201 }
        ensures found { IfOk result (λ x. Finds (repeat_of depth) self.old.line self.old.rest.now (view_statement x.part) self.new.line self.new.rest.now) }
        ensures height { IfOk result (λ x. x.height ≡ depth_of_statement (view_statement x.part)) }
        ensures low { IfOk result (λ x. depth + x.height ≤ 200) }
        ensures refused { IfErr result (Refuses (repeat_of depth) self.old.line self.old.rest.now self.new.rest.now) }
        ensures shorter { IfOk result (λ _. length self.new.rest.now < length self.old.rest.now) }
    {
        self.take(depth + 1)?;
        let body = self.block(alloc, depth)?;
        self.want(Mark::Until)?;
        let cond = self.whole(alloc, depth, 0)?;
        Ok(Tall {
            height: body.height.max(cond.height),
            part: StatKind::Repeat {
                body: body.part,
                cond: Box::into_inner(cond.part),
            },
        })
    }

    /// A `return` with its results.
    #[cycle(parser)]
    fn return_statement(&mut self, alloc: Global, depth: usize) -> Result<Tall<StatKind>, Halt>
        requires { depth ≤ 201 }
        ensures found { IfOk result (λ x. Finds (return_of depth) self.old.line self.old.rest.now (view_statement x.part) self.new.line self.new.rest.now) }
        ensures height { IfOk result (λ x. x.height ≡ depth_of_statement (view_statement x.part)) }
        ensures low { IfOk result (λ x. depth + x.height ≤ 200) }
        ensures refused { IfErr result (Refuses (return_of depth) self.old.line self.old.rest.now self.new.rest.now) }
        ensures shorter { IfOk result (λ _. length self.new.rest.now < length self.old.rest.now) }
    {
        self.take(depth)?;
        let list = self.results(alloc, depth)?;
        Ok(Tall {
            height: list.height,
            part: StatKind::Return(list.part),
        })
    }

    /// The results of a `return`.
    #[cycle(parser)]
    fn results(&mut self, alloc: Global, depth: usize) -> Result<Tall<Exps>, Halt>
        requires { depth ≤ 200 }
        ensures found { IfOk result (λ x. Finds (results depth) self.old.line self.old.rest.now (view_exps x.part) self.new.line self.new.rest.now) }
        ensures height { IfOk result (λ x. x.height ≡ depth_of_expressions (view_exps x.part)) }
        ensures low { IfOk result (λ x. depth + x.height ≤ 200) }
        ensures refused { IfErr result (Refuses (results depth) self.old.line self.old.rest.now self.new.rest.now) }
        ensures shorter { IfOk result (λ _. length self.new.rest.now ≤ length self.old.rest.now) }
    {
        if self.is(Mark::Semicolon) {
            return Ok(Tall {
                part: Exps::new(alloc),
                height: 0,
            });
        }
        if self.is_block_end() {
            return Ok(Tall {
                part: Exps::new(alloc),
                height: 0,
            });
        }
        let list = self.expressions(alloc, depth)?;
        Ok(list)
    }

    /// A `break`.
    fn break_statement(&mut self, depth: usize) -> Result<Tall<StatKind>, Halt>
        ensures found { IfOk result (λ x. Finds (break_of depth) self.old.line self.old.rest.now (view_statement x.part) self.new.line self.new.rest.now) }
        ensures height { IfOk result (λ x. x.height ≡ depth_of_statement (view_statement x.part)) }
        ensures low { IfOk result (λ x. depth + x.height ≤ 200) }
        ensures refused { IfErr result (Refuses (break_of depth) self.old.line self.old.rest.now self.new.rest.now) }
        ensures shorter { IfOk result (λ _. length self.new.rest.now < length self.old.rest.now) }
    {
        self.take(depth)?;
        Ok(Tall {
            part: StatKind::Break,
            height: 0,
        })
    }

    /// A call or an assignment.
    #[cycle(parser)]
    fn expression_statement(&mut self, alloc: Global, depth: usize) -> Result<Tall<StatKind>, Halt>
        requires { depth ≤ 201 }
        ensures found { IfOk result (λ x. Finds (expression_statement depth) self.old.line self.old.rest.now (view_statement x.part) self.new.line self.new.rest.now) }
        ensures height { IfOk result (λ x. x.height ≡ depth_of_statement (view_statement x.part)) }
        ensures low { IfOk result (λ x. depth + x.height ≤ 200) }
        ensures refused { IfErr result (Refuses (expression_statement depth) self.old.line self.old.rest.now self.new.rest.now) }
        ensures shorter { IfOk result (λ _. length self.new.rest.now < length self.old.rest.now) }
    {
        let first = self.prefix(alloc, depth, Role::Statement)?;
        if is_call(&first.part) {
            return Ok(Tall {
                height: first.height,
                part: StatKind::Call(Box::into_inner(first.part)),
            });
        }
        let targets = self.targets(alloc, depth, first)?;
        self.want(Mark::Equal)?;
        let exps = self.expressions(alloc, depth)?;
        Ok(Tall {
            height: targets.height.max(exps.height),
            part: StatKind::Assign {
                targets: targets.part,
                exps: exps.part,
            },
        })
    }

    /// The targets of an assignment up to its `=`.
    #[cycle(parser)]
    fn targets(
        &mut self,
        alloc: Global,
        depth: usize,
        first: Tall<Box<Exp>>,
    ) -> Result<Tall<Exps>, Halt>
        requires low { depth + first.height ≤ 200 }
        requires height { first.height ≡ depth_of_expression (view_exp first.part.value) }
        ensures found { IfOk result (λ x. Finds (targets depth (view_exp first.part.value)) self.old.line self.old.rest.now (view_exps x.part) self.new.line self.new.rest.now) }
        ensures height { IfOk result (λ x. x.height ≡ depth_of_expressions (view_exps x.part)) }
        ensures low { IfOk result (λ x. depth + x.height ≤ 200) }
        ensures refused { IfErr result (Refuses (targets depth (view_exp first.part.value)) self.old.line self.old.rest.now self.new.rest.now) }
        ensures shorter { IfOk result (λ _. length self.new.rest.now ≤ length self.old.rest.now) }
    {
        let mut list = Tall {
            part: Exps::new(alloc),
            height: 0,
        };
        let mut next = first;
        loop {
            if !is_target(&next.part) {
                return Err(Halt::Unexpected);
            }
            list.height = list.height.max(next.height);
            list.part.push(Box::into_inner(next.part))?;
            if !self.is(Mark::Comma) {
                if !self.is(Mark::Equal) {
                    return Err(Halt::Unexpected);
                }
                return Ok(list);
            }
            self.take(depth + 1)?;
            next = self.prefix(alloc, depth, Role::Target)?;
        }
    }
}

/// Whether a statement ends its block.
fn ends_block(kind: &StatKind) -> bool
    ensures { result ≡ ends_the_block (view_statement kind.now) }
{
    matches!(kind, StatKind::Return(_) | StatKind::Break)
}

/// Whether an expression is a call.
fn is_call(exp: &Exp) -> bool
    ensures { result ≡ is_a_call (view_exp exp.now) }
{
    matches!(exp.kind, ExpKind::Call { .. } | ExpKind::Method { .. })
}

/// Whether an expression may be assigned to.
fn is_target(exp: &Exp) -> bool
    ensures { result ≡ is_a_target (view_exp exp.now) }
{
    matches!(
        exp.kind,
        ExpKind::Name(_) | ExpKind::Index { .. } | ExpKind::Field { .. }
    )
}

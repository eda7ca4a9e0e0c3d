// A walk over a tree, in the order of its spelling (manual 2.6).
ghost use Rattle.std.specs.Prelude.{◌+◌, ◌≤◌, length, IfOk};
ghost use Rattle.lua_tree.specs.View.{view_block, view_statement, view_arms, view_body, view_exps, view_exp, view_args, view_items};
ghost use Rattle.lua_tree.specs.Outline.{within, stay, in_loop, with_locals, statements_part, statement_part, branches_part, body_part, expressions_part, expression_part, arguments_part, fields_part};
ghost use Rattle.scopes.specs.Standing.{Sound, Goes, Extends, Keeps, last_part, step_part_of, item_part};

use crate::fault::ScopeFault;
use crate::resolver::Resolver;
use lua_num::ByteText;
use lua_tree::{Args, Arms, Block, Body, Exp, ExpKind, Exps, ItemKind, Items, StatKind};
use std::alloc::Global;

impl<'a> Resolver<'a> {
    /// The statements of a block, whose names stay in scope.
    #[cycle(walk)]
    pub fn statements(&mut self, alloc: Global, block: &'a Block) -> Result<(), ScopeFault>
        requires { Sound self.old }
        ensures sound { IfOk result (λ _. Sound self.new) }
        ensures extends { IfOk result (λ _. Extends self.old self.new) }
        ensures goes { Goes (statements_part (view_block block.now)) self.old self.new result }
    {
        for statement in block.items() {
            self.statement(alloc, statement.line, &statement.kind)?;
        }
        Ok(())
    }

    /// A block with a scope of its own.
    #[cycle(walk)]
    fn block(&mut self, alloc: Global, block: &'a Block) -> Result<(), ScopeFault>
        requires { Sound self.old }
        ensures sound { IfOk result (λ _. Sound self.new) }
        ensures keeps { IfOk result (λ _. Keeps self.old self.new) }
        ensures goes { Goes (within stay (statements_part (view_block block.now))) self.old self.new result }
    {
        let around = self.around();
        self.statements(alloc, block)?;
        self.leave(around);
        Ok(())
    }

    /// The block of a loop.
    #[cycle(walk)]
    fn loop_block(&mut self, alloc: Global, block: &'a Block) -> Result<(), ScopeFault>
        requires { Sound self.old }
        ensures sound { IfOk result (λ _. Sound self.new) }
        ensures keeps { IfOk result (λ _. Keeps self.old self.new) }
        ensures goes { Goes (within in_loop (statements_part (view_block block.now))) self.old self.new result }
    {
        let around = self.around();
        self.here.looped = true;
        self.statements(alloc, block)?;
        self.leave(around);
        Ok(())
    }

    /// A statement, which begins on a line.
    #[cycle(walk)]
    fn statement(&mut self, alloc: Global, line: u32, kind: &'a StatKind) -> Result<(), ScopeFault>
        requires { Sound self.old }
        ensures sound { IfOk result (λ _. Sound self.new) }
        ensures extends { IfOk result (λ _. Extends self.old self.new) }
        ensures goes { Goes (statement_part line (view_statement kind.now)) self.old self.new result }
    {
        match kind {
            StatKind::Assign { targets, exps } => {
                self.expressions(alloc, targets)?;
                self.expressions(alloc, exps)
            }
            StatKind::Call(call) => self.expression(alloc, call),
            StatKind::Do(body) => self.block(alloc, body),
            StatKind::While { cond, body } => {
                self.expression(alloc, cond)?;
                self.loop_block(alloc, body)
            }
            StatKind::Repeat { body, cond } => {
                // The condition sees the locals of the block.
                let around = self.around();
                self.here.looped = true;
                self.statements(alloc, body)?;
                self.expression(alloc, cond)?;
                self.leave(around);
                Ok(())
            }
            StatKind::If { arms, last } => {
                self.branches(alloc, arms)?;
                self.last_block(alloc, last)
            }
            StatKind::NumFor {
                name,
                from,
                to,
                step,
                body,
            } => {
                let first = self.captured.len();
                self.declare(line, 3, 1)?;
                self.expression(alloc, from)?;
                self.expression(alloc, to)?;
                self.step(alloc, step)?;
                self.for_block(alloc, std::slice::from_ref(name), first, body)
            }
            StatKind::GenFor { names, exps, body } => {
                let first = self.captured.len();
                self.declare(line, 3, names.items().len())?;
                self.expressions(alloc, exps)?;
                self.for_block(alloc, names.items(), first, body)
            }
            StatKind::Function { path, method, body } => {
                self.mention_path(line, path)?;
                self.function(alloc, method.is_some(), body)
            }
            StatKind::LocalFunction { name, body } => {
                let first = self.captured.len();
                self.declare(line, 0, 1)?;
                self.bring_one(name.bytes(), first)?;
                self.function(alloc, false, body)
            }
            StatKind::Local { names, exps } => {
                let first = self.captured.len();
                self.declare(line, 0, names.items().len())?;
                self.expressions(alloc, exps)?;
                self.bring(names.items(), first)?;
                Ok(())
            }
            StatKind::Return(exps) => self.expressions(alloc, exps),
            StatKind::Break => {
                if !self.here.looped {
                    return Err(ScopeFault::NoLoop { line });
                }
                Ok(())
            }
        }
    }

    /// The block of a `for`, with its hidden locals and its variables.
    #[cycle(walk)]
    fn for_block(
        &mut self,
        alloc: Global,
        names: &'a [ByteText],
        first: usize,
        body: &'a Block,
    ) -> Result<(), ScopeFault>
        requires sound { Sound self.old }
        requires room { self.old.here.active + 3 + length names.now ≤ 200 }
        requires numbered { first + length names.now ≤ length self.old.captured.items }
        ensures sound { IfOk result (λ _. Sound self.new) }
        ensures keeps { IfOk result (λ _. Keeps self.old self.new) }
        ensures goes { Goes (within (λ inside. in_loop (with_locals 3 names.now first inside)) (statements_part (view_block body.now))) self.old self.new result }
    {
        let around = self.around();
        self.here.active += 3;
        self.bring(names, first)?;
        self.here.looped = true;
        self.statements(alloc, body)?;
        self.leave(around);
        Ok(())
    }

    /// The conditions and blocks of an `if`.
    #[cycle(walk)]
    fn branches(&mut self, alloc: Global, arms: &'a Arms) -> Result<(), ScopeFault>
        requires { Sound self.old }
        ensures sound { IfOk result (λ _. Sound self.new) }
        ensures keeps { IfOk result (λ _. Keeps self.old self.new) }
        ensures goes { Goes (branches_part (view_arms arms.now)) self.old self.new result }
    {
        for arm in arms.items() {
            self.expression(alloc, &arm.cond)?;
            self.block(alloc, &arm.body)?;
        }
        Ok(())
    }

    /// The block behind `else`.
    #[cycle(walk)]
    fn last_block(&mut self, alloc: Global, last: &'a Option<Block>) -> Result<(), ScopeFault>
        requires { Sound self.old }
        ensures sound { IfOk result (λ _. Sound self.new) }
        ensures keeps { IfOk result (λ _. Keeps self.old self.new) }
        ensures goes { Goes (last_part last.now) self.old self.new result }
    {
        match last {
            Some(block) => self.block(alloc, block),
            None => Ok(()),
        }
    }

    /// The step of a numeric `for`.
    #[cycle(walk)]
    fn step(&mut self, alloc: Global, step: &'a Option<Exp>) -> Result<(), ScopeFault>
        requires { Sound self.old }
        ensures sound { IfOk result (λ _. Sound self.new) }
        ensures keeps { IfOk result (λ _. Keeps self.old self.new) }
        ensures goes { Goes (step_part_of step.now) self.old self.new result }
    {
        match step {
            Some(step) => self.expression(alloc, step),
            None => Ok(()),
        }
    }

    /// A function's parameters and block; a method has a first parameter `self`.
    #[cycle(walk)]
    fn function(&mut self, alloc: Global, method: bool, body: &'a Body) -> Result<(), ScopeFault>
        requires { Sound self.old }
        ensures sound { IfOk result (λ _. Sound self.new) }
        ensures keeps { IfOk result (λ _. Keeps self.old self.new) }
        ensures goes { Goes (body_part method (view_body body.now)) self.old self.new result }
    {
        let around = self.around();
        self.open(alloc, body.vararg)?;
        let first = self.captured.len();
        let params = body.params.items();
        self.declare(body.first_line, 0, params.len() + usize::from(method))?;
        self.bring_params(method, params, first)?;
        self.statements(alloc, &body.block)?;
        self.leave(around);
        Ok(())
    }

    /// A list of expressions.
    #[cycle(walk)]
    fn expressions(&mut self, alloc: Global, list: &'a Exps) -> Result<(), ScopeFault>
        requires { Sound self.old }
        ensures sound { IfOk result (λ _. Sound self.new) }
        ensures keeps { IfOk result (λ _. Keeps self.old self.new) }
        ensures goes { Goes (expressions_part (view_exps list.now)) self.old self.new result }
    {
        for expression in list.items() {
            self.expression(alloc, expression)?;
        }
        Ok(())
    }

    /// An expression.
    #[cycle(walk)]
    fn expression(&mut self, alloc: Global, expression: &'a Exp) -> Result<(), ScopeFault>
        requires { Sound self.old }
        ensures sound { IfOk result (λ _. Sound self.new) }
        ensures keeps { IfOk result (λ _. Keeps self.old self.new) }
        ensures goes { Goes (expression_part (view_exp expression.now)) self.old self.new result }
    {
        match &expression.kind {
            ExpKind::Nil | ExpKind::True | ExpKind::False | ExpKind::Number(_) | ExpKind::Text(_) =>
                Ok(()),
            ExpKind::Vararg => {
                if !self.here.vararg {
                    return Err(ScopeFault::NoVararg {
                        line: expression.line,
                    });
                }
                Ok(())
            }
            ExpKind::Function(body) => self.function(alloc, false, body),
            ExpKind::Name(name) => self.mention(expression.line, name.bytes()),
            ExpKind::Index { on, key } => {
                self.expression(alloc, on)?;
                self.expression(alloc, key)
            }
            ExpKind::Field { on, .. } => self.expression(alloc, on),
            ExpKind::Call { on, args, .. } | ExpKind::Method { on, args, .. } => {
                self.expression(alloc, on)?;
                self.arguments(alloc, args)
            }
            ExpKind::And(left, right) | ExpKind::Or(left, right) => {
                self.expression(alloc, left)?;
                self.expression(alloc, right)
            }
            ExpKind::Binary { left, right, .. } => {
                self.expression(alloc, left)?;
                self.expression(alloc, right)
            }
            ExpKind::Unary { of, .. } => self.expression(alloc, of),
            ExpKind::Table(items) => self.fields(alloc, items),
            ExpKind::Paren(inner) => self.expression(alloc, inner),
        }
    }

    /// The arguments of a call.
    #[cycle(walk)]
    fn arguments(&mut self, alloc: Global, args: &'a Args) -> Result<(), ScopeFault>
        requires { Sound self.old }
        ensures sound { IfOk result (λ _. Sound self.new) }
        ensures keeps { IfOk result (λ _. Keeps self.old self.new) }
        ensures goes { Goes (arguments_part (view_args args.now)) self.old self.new result }
    {
        match args {
            Args::List(list) => self.expressions(alloc, list),
            Args::Text(_) => Ok(()),
            Args::Table(items) => self.fields(alloc, items),
        }
    }

    /// The items of a constructor.
    #[cycle(walk)]
    fn fields(&mut self, alloc: Global, items: &'a Items) -> Result<(), ScopeFault>
        requires { Sound self.old }
        ensures sound { IfOk result (λ _. Sound self.new) }
        ensures keeps { IfOk result (λ _. Keeps self.old self.new) }
        ensures goes { Goes (fields_part (view_items items.now)) self.old self.new result }
    {
        for item in items.items() {
            self.field(alloc, &item.kind)?;
        }
        Ok(())
    }

    /// An item of a constructor.
    #[cycle(walk)]
    fn field(&mut self, alloc: Global, kind: &'a ItemKind) -> Result<(), ScopeFault>
        requires { Sound self.old }
        ensures sound { IfOk result (λ _. Sound self.new) }
        ensures keeps { IfOk result (λ _. Keeps self.old self.new) }
        ensures goes { Goes (item_part kind.now) self.old self.new result }
    {
        match kind {
            ItemKind::Positional(value) | ItemKind::Named(_, value) => {
                self.expression(alloc, value)
            }
            ItemKind::Keyed(key, value) => {
                self.expression(alloc, key)?;
                self.expression(alloc, value)
            }
        }
    }
}

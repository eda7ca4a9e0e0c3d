// `if` and `for` (manual 2.4.4 and 2.4.5).
ghost use Rattle.std.specs.Prelude.{◌≡◌, ◌+◌, ◌≤◌, ◌<◌, length, max, IfOk, IfErr};
ghost use Rattle.lua_tree.specs.Syntax.{numeric_for as a_numeric_for};
ghost use Rattle.lua_tree.specs.View.{view_statement, view_exp, view_block};
ghost use Rattle.lua_tree.specs.WellFormed.{depth_of_statement, depth_of_step, depth_of_expression, depth_of_statements};
ghost use Rattle.parser.specs.Fields.{step_of, cond_of, inside_of};
ghost use Rattle.parser.specs.Program.{if_of, for_of, numeric_of, generic_of, step};
ghost use Rattle.parser.specs.Finds.{Finds, Refuses, FindsArm, RefusesArm};

use crate::cursor::{Cursor, Halt};
use crate::mark::Mark;
use crate::tall::Tall;
use lua_num::ByteText;
use lua_tree::{Arm, Arms, Block, Exp, StatKind};
use std::alloc::Global;

impl Cursor<'_> {
    /// An `if`.
    #[cycle(parser)]
    pub fn if_statement(&mut self, alloc: Global, depth: usize) -> Result<Tall<StatKind>, Halt>
        requires { depth ≤ 201 }
        ensures found { IfOk result (λ x. Finds (if_of depth) self.old.line self.old.rest.now (view_statement x.part) self.new.line self.new.rest.now) }
        ensures height { IfOk result (λ x. x.height ≡ depth_of_statement (view_statement x.part)) }
        ensures low { IfOk result (λ x. depth + x.height ≤ 200) }
        ensures refused { IfErr result (Refuses (if_of depth) self.old.line self.old.rest.now self.new.rest.now) }
        ensures shorter { IfOk result (λ _. length self.new.rest.now < length self.old.rest.now) }
    {
        self.take(depth + 1)?;
        let first = self.arm(alloc, depth)?;
        let mut arms = Tall {
            part: Arms::new(alloc),
            height: first.height,
        };
        arms.part.push(first.part)?;
        while self.is(Mark::Elseif) {
            self.take(depth + 1)?;
            let arm = self.arm(alloc, depth)?;
            arms.height = arms.height.max(arm.height);
            arms.part.push(arm.part)?;
        }
        if self.accept(Mark::Else) {
            let last = self.block(alloc, depth)?;
            self.want(Mark::End)?;
            return Ok(Tall {
                height: arms.height.max(last.height),
                part: StatKind::If {
                    arms: arms.part,
                    last: Some(last.part),
                },
            });
        }
        self.want(Mark::End)?;
        Ok(Tall {
            height: arms.height,
            part: StatKind::If {
                arms: arms.part,
                last: None,
            },
        })
    }

    /// A condition and its block.
    #[cycle(parser)]
    fn arm(&mut self, alloc: Global, depth: usize) -> Result<Tall<Arm>, Halt>
        requires { depth ≤ 200 }
        ensures found { IfOk result (λ x. FindsArm depth self.old.line self.old.rest.now (cond_of x.part) (inside_of x.part) self.new.line self.new.rest.now) }
        ensures height { IfOk result (λ x. x.height ≡ max (depth_of_expression (cond_of x.part)) (depth_of_statements (inside_of x.part))) }
        ensures low { IfOk result (λ x. depth + x.height ≤ 200) }
        ensures refused { IfErr result (RefusesArm depth self.old.line self.old.rest.now self.new.rest.now) }
        ensures shorter { IfOk result (λ _. length self.new.rest.now < length self.old.rest.now) }
    {
        let cond = self.whole(alloc, depth, 0)?;
        self.want(Mark::Then)?;
        let body = self.block(alloc, depth)?;
        Ok(Tall {
            height: cond.height.max(body.height),
            part: Arm {
                cond: Box::into_inner(cond.part),
                body: body.part,
            },
        })
    }

    /// A `for` of either kind.
    #[cycle(parser)]
    pub fn for_statement(&mut self, alloc: Global, depth: usize) -> Result<Tall<StatKind>, Halt>
        requires { depth ≤ 201 }
        ensures found { IfOk result (λ x. Finds (for_of depth) self.old.line self.old.rest.now (view_statement x.part) self.new.line self.new.rest.now) }
        ensures height { IfOk result (λ x. x.height ≡ depth_of_statement (view_statement x.part)) }
        ensures low { IfOk result (λ x. depth + x.height ≤ 200) }
        ensures refused { IfErr result (Refuses (for_of depth) self.old.line self.old.rest.now self.new.rest.now) }
        ensures shorter { IfOk result (λ _. length self.new.rest.now < length self.old.rest.now) }
    {
        self.take(depth + 1)?;
        let name = self.name(alloc)?;
        if self.is(Mark::Equal) {
            let numeric = self.numeric_for(alloc, depth, name)?;
            Ok(numeric)
        } else {
            let generic = self.generic_for(alloc, depth, name)?;
            Ok(generic)
        }
    }

    /// A numeric `for` behind its name.
    #[cycle(parser)]
    fn numeric_for(
        &mut self,
        alloc: Global,
        depth: usize,
        name: ByteText,
    ) -> Result<Tall<StatKind>, Halt>
        requires { depth ≤ 200 }
        ensures found { IfOk result (λ x. Finds (numeric_of depth name) self.old.line self.old.rest.now (view_statement x.part) self.new.line self.new.rest.now) }
        ensures height { IfOk result (λ x. x.height ≡ depth_of_statement (view_statement x.part)) }
        ensures low { IfOk result (λ x. depth + x.height ≤ 200) }
        ensures refused { IfErr result (Refuses (numeric_of depth name) self.old.line self.old.rest.now self.new.rest.now) }
        ensures shorter { IfOk result (λ _. length self.new.rest.now < length self.old.rest.now) }
    {
        self.take(depth + 1)?;
        let from = self.whole(alloc, depth, 0)?;
        self.want(Mark::Comma)?;
        let to = self.whole(alloc, depth, 0)?;
        let step = self.step(alloc, depth)?;
        self.want(Mark::Do)?;
        let body = self.block(alloc, depth)?;
        self.want(Mark::End)?;
        Ok(Tall {
            height: from.height.max(to.height).max(step.height.max(body.height)),
            part: numeric_for(name, from.part, to.part, step.part, body.part),
        })
    }

    /// The step of a numeric `for`, where there is one.
    #[cycle(parser)]
    fn step(&mut self, alloc: Global, depth: usize) -> Result<Tall<Option<Box<Exp>>>, Halt>
        requires { depth ≤ 200 }
        ensures found { IfOk result (λ x. Finds (step depth) self.old.line self.old.rest.now (step_of x.part) self.new.line self.new.rest.now) }
        ensures height { IfOk result (λ x. x.height ≡ depth_of_step (step_of x.part)) }
        ensures low { IfOk result (λ x. depth + x.height ≤ 200) }
        ensures refused { IfErr result (Refuses (step depth) self.old.line self.old.rest.now self.new.rest.now) }
        ensures shorter { IfOk result (λ _. length self.new.rest.now ≤ length self.old.rest.now) }
    {
        if !self.is(Mark::Comma) {
            return Ok(Tall {
                part: None,
                height: 0,
            });
        }
        self.take(depth + 1)?;
        let step = self.whole(alloc, depth, 0)?;
        Ok(Tall {
            part: Some(step.part),
            height: step.height,
        })
    }

    /// A generic `for` behind its first name.
    #[cycle(parser)]
    fn generic_for(
        &mut self,
        alloc: Global,
        depth: usize,
        name: ByteText,
    ) -> Result<Tall<StatKind>, Halt>
        requires { depth ≤ 200 }
        ensures found { IfOk result (λ x. Finds (generic_of depth name) self.old.line self.old.rest.now (view_statement x.part) self.new.line self.new.rest.now) }
        ensures height { IfOk result (λ x. x.height ≡ depth_of_statement (view_statement x.part)) }
        ensures low { IfOk result (λ x. depth + x.height ≤ 200) }
        ensures refused { IfErr result (Refuses (generic_of depth name) self.old.line self.old.rest.now self.new.rest.now) }
        ensures shorter { IfOk result (λ _. length self.new.rest.now < length self.old.rest.now) }
    {
        let names = self.names(alloc, Mark::Comma, name)?;
        if !self.is(Mark::In) {
            return Err(Halt::Unexpected);
        }
        self.take(depth + 1)?;
        let exps = self.expressions(alloc, depth)?;
        self.want(Mark::Do)?;
        let body = self.block(alloc, depth)?;
        self.want(Mark::End)?;
        Ok(Tall {
            height: exps.height.max(body.height),
            part: StatKind::GenFor {
                names,
                exps: exps.part,
                body: body.part,
            },
        })
    }
}

fn numeric_for(
    name: ByteText,
    from: Box<Exp>,
    to: Box<Exp>,
    step: Option<Box<Exp>>,
    body: Block,
) -> StatKind
    ensures { view_statement result ≡ a_numeric_for name (view_exp from.value) (view_exp to.value) (step_of step) (view_block body) }
{
    let step = match step {
        Some(step) => Some(Box::into_inner(step)),
        None => None,
    };
    StatKind::NumFor {
        name,
        from: Box::into_inner(from),
        to: Box::into_inner(to),
        step,
        body,
    }
}

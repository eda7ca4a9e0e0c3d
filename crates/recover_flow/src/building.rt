// From the plan of a function to its statements.

ghost use Rattle.std.specs.Prelude.{◌≡◌, ◌+◌, ◌≤◌, List, None, Option, Some, IfErr, IfOk, OnOk, option_map};
ghost use Rattle.lua_tree.specs.TreeLists.{statements_of};
ghost use Rattle.lua_tree.specs.View.{view_block, view_exp, view_exps, view_statement};
ghost use Rattle.recover_expr.specs.declared.steps.Step.{Step};
ghost use Rattle.recover_flow.specs.Built.{built_body, built_condition, built_end, built_from, built_plan, counted_of, in_block, numeric_of};
ghost use Rattle.recover_flow.specs.Conditions.{ConditionTree};
ghost use Rattle.recover_flow.specs.Held.{ArmsHeld, BodyHeld, ConditionHeld, PlanHeld, PlansHeld, view_store};
ghost use Rattle.recover_flow.specs.Parts.{parts_of, IsGoneOnlyWhere};
ghost use Rattle.recover_flow.specs.Plans.{ArmPlans, PlanTree, Plans, arm_levels, body_levels, do_plan, end_plan, for_plan, if_plan, plan_levels, repeat_plan, while_plan};

use crate::expressions::expression;
use crate::memory::Memory;
use crate::parts::{Parts, Unbuilt};
use crate::plan::{End, Plan, Planned, Rest};
use crate::separating::append;
use lua_num::Names;
use lua_tree::{Arm, Arms, Block, Exp, ExpKind, Exps, Stat, StatKind};
use std::alloc::{AllocError, Global};

/// What a plan is built of: what the search has found, and the parts of the source.
#[derive(Drop)]
pub struct Builder<'m> {
    alloc: Global,
    memory: &'m Memory,
    parts: Parts,
}

impl<'m> Builder<'m> {
    pub fn new(alloc: Global, memory: &'m Memory, parts: Parts) -> Self
        ensures memory { result.memory.now ≡ memory.now }
        ensures parts { result.parts ≡ parts }
    {
        Self {
            alloc,
            memory,
            parts,
        }
    }

    /// The block of a body that needs at most so many levels.
    #[cycle(building)]
    pub fn block(&mut self, body: usize, levels: u32) -> Result<Block, Unbuilt>
        ensures kept { self.new.memory ≡ self.old.memory }
        ensures built { IfOk result (λ block. (steps : List Step) (plans : Plans) → BodyHeld steps (view_store self.old.memory.now) body plans → Some (view_block block, parts_of self.new.parts) ≡ built_body plans (parts_of self.old.parts)) }
        ensures gone { IfErr result (λ error. (steps : List Step) (plans : Plans) → BodyHeld steps (view_store self.old.memory.now) body plans → body_levels steps plans ≤ levels → IsGoneOnlyWhere (built_body plans (parts_of self.old.parts) ≡ None) error) }
    {
        let mut statements = Vec::new(self.alloc);
        self.append_body(&mut statements, body, levels)?;
        Ok(Block::from_vec(statements))
    }

    // Appends the statements of a body.
    #[cycle(building)]
    fn append_body(
        &mut self,
        statements: &mut Vec<Stat>,
        body: usize,
        levels: u32,
    ) -> Result<(), Unbuilt>
        ensures kept { self.new.memory ≡ self.old.memory }
        ensures built { OnOk result ((steps : List Step) (plans : Plans) → BodyHeld steps (view_store self.old.memory.now) body plans → Some (statements_of statements.new.items, parts_of self.new.parts) ≡ built_from (statements_of statements.old.items) plans (parts_of self.old.parts)) }
        ensures gone { IfErr result (λ error. (steps : List Step) (plans : Plans) → BodyHeld steps (view_store self.old.memory.now) body plans → body_levels steps plans ≤ levels → IsGoneOnlyWhere (built_from (statements_of statements.old.items) plans (parts_of self.old.parts) ≡ None) error) }
    {
        let memory = self.memory;
        let Some(planned) = memory.body(body) else {
            return Err(Unbuilt::Gone);
        };
        self.append_planned(statements, planned, levels)?;
        Ok(())
    }

    // Appends these statements.
    #[cycle(building)]
    fn append_planned(
        &mut self,
        statements: &mut Vec<Stat>,
        planned: &[Planned],
        levels: u32,
    ) -> Result<(), Unbuilt>
        ensures kept { self.new.memory ≡ self.old.memory }
        ensures built { OnOk result ((steps : List Step) (plans : Plans) → PlansHeld steps (view_store self.old.memory.now) planned.now plans → Some (statements_of statements.new.items, parts_of self.new.parts) ≡ built_from (statements_of statements.old.items) plans (parts_of self.old.parts)) }
        ensures gone { IfErr result (λ error. (steps : List Step) (plans : Plans) → PlansHeld steps (view_store self.old.memory.now) planned.now plans → body_levels steps plans ≤ levels → IsGoneOnlyWhere (built_from (statements_of statements.old.items) plans (parts_of self.old.parts) ≡ None) error) }
    {
        for next in planned {
            let statement = self.statement(next.plan, levels)?;
            append(statements, statement)?;
        }
        Ok(())
    }

    // The block in a statement that needs at most so many levels.
    #[cycle(building)]
    fn inner(&mut self, body: usize, levels: u32) -> Result<Block, Unbuilt>
        ensures kept { self.new.memory ≡ self.old.memory }
        ensures built { IfOk result (λ block. (steps : List Step) (plans : Plans) → BodyHeld steps (view_store self.old.memory.now) body plans → Some (view_block block, parts_of self.new.parts) ≡ built_body plans (parts_of self.old.parts)) }
        ensures gone { IfErr result (λ error. (steps : List Step) (plans : Plans) → BodyHeld steps (view_store self.old.memory.now) body plans → body_levels steps plans + 1 ≤ levels → IsGoneOnlyWhere (built_body plans (parts_of self.old.parts) ≡ None) error) }
    {
        let Some(inner) = levels.checked_sub(1) else {
            return Err(Unbuilt::Gone);
        };
        let block = self.block(body, inner)?;
        Ok(block)
    }

    #[cycle(building)]
    fn statement(&mut self, plan: Plan, levels: u32) -> Result<StatKind, Unbuilt>
        ensures kept { self.new.memory ≡ self.old.memory }
        ensures built { IfOk result (λ statement. (steps : List Step) (tree : PlanTree) → PlanHeld steps (view_store self.old.memory.now) plan tree → Some (view_statement statement, parts_of self.new.parts) ≡ built_plan tree (parts_of self.old.parts)) }
        ensures gone { IfErr result (λ error. (steps : List Step) (tree : PlanTree) → PlanHeld steps (view_store self.old.memory.now) plan tree → plan_levels steps tree ≤ levels → IsGoneOnlyWhere (built_plan tree (parts_of self.old.parts) ≡ None) error) }
    {
        match plan {
            Plan::Step { step } => {
                let statement = self.parts.statement(step)?;
                Ok(statement)
            }
            Plan::End { end, enclosed } => {
                let statement = self.ending(end, enclosed)?;
                Ok(statement)
            }
            Plan::Do { step, body } => {
                let statement = self.scope(step, body, levels)?;
                Ok(statement)
            }
            Plan::For {
                step,
                numeric,
                body,
            } => {
                let statement = self.counted(step, numeric, body, levels)?;
                Ok(statement)
            }
            Plan::While { condition, body } => {
                let statement = self.while_loop(condition, body, levels)?;
                Ok(statement)
            }
            Plan::Repeat { body, condition } => {
                let statement = self.repeat_loop(body, condition, levels)?;
                Ok(statement)
            }
            Plan::If { rest } => {
                let statement = self.branches(rest, levels)?;
                Ok(statement)
            }
        }
    }

    // A return or a break, in a `do` where it is not last.
    fn ending(&mut self, end: End, enclosed: bool) -> Result<StatKind, Unbuilt>
        ensures kept { self.new.memory ≡ self.old.memory }
        ensures built { IfOk result (λ statement. Some (view_statement statement, parts_of self.new.parts) ≡ built_plan (end_plan end enclosed) (parts_of self.old.parts)) }
        ensures gone { IfErr result (IsGoneOnlyWhere (built_plan (end_plan end enclosed) (parts_of self.old.parts) ≡ None)) }
    {
        let statement = self.end(end)?;
        let whole = in_block(self.alloc, enclosed, statement)?;
        Ok(whole)
    }

    fn end(&mut self, end: End) -> Result<StatKind, Unbuilt>
        ensures kept { self.new.memory ≡ self.old.memory }
        ensures built { IfOk result (λ statement. Some (view_statement statement, parts_of self.new.parts) ≡ built_end end (parts_of self.old.parts)) }
        ensures gone { IfErr result (IsGoneOnlyWhere (built_end end (parts_of self.old.parts) ≡ None)) }
    {
        match end {
            End::Return { step } => {
                let values = self.parts.values(step)?;
                Ok(StatKind::Return(values))
            }
            End::Break => Ok(StatKind::Break),
        }
    }

    // A `do` that begins with locals.
    #[cycle(building)]
    fn scope(&mut self, step: usize, body: usize, levels: u32) -> Result<StatKind, Unbuilt>
        ensures kept { self.new.memory ≡ self.old.memory }
        ensures built { IfOk result (λ statement. (steps : List Step) (plans : Plans) → BodyHeld steps (view_store self.old.memory.now) body plans → Some (view_statement statement, parts_of self.new.parts) ≡ built_plan (do_plan step plans) (parts_of self.old.parts)) }
        ensures gone { IfErr result (λ error. (steps : List Step) (plans : Plans) → BodyHeld steps (view_store self.old.memory.now) body plans → body_levels steps plans + 1 ≤ levels → IsGoneOnlyWhere (built_plan (do_plan step plans) (parts_of self.old.parts) ≡ None) error) }
    {
        let Some(inner) = levels.checked_sub(1) else {
            return Err(Unbuilt::Gone);
        };
        let mut statements = Vec::new(self.alloc);
        let declaration = self.parts.statement(step)?;
        append(&mut statements, declaration)?;
        self.append_body(&mut statements, body, inner)?;
        Ok(StatKind::Do(Block::from_vec(statements)))
    }

    #[cycle(building)]
    fn counted(
        &mut self,
        step: usize,
        numeric: bool,
        body: usize,
        levels: u32,
    ) -> Result<StatKind, Unbuilt>
        ensures kept { self.new.memory ≡ self.old.memory }
        ensures built { IfOk result (λ statement. (steps : List Step) (plans : Plans) → BodyHeld steps (view_store self.old.memory.now) body plans → Some (view_statement statement, parts_of self.new.parts) ≡ built_plan (for_plan step numeric plans) (parts_of self.old.parts)) }
        ensures gone { IfErr result (λ error. (steps : List Step) (plans : Plans) → BodyHeld steps (view_store self.old.memory.now) body plans → body_levels steps plans + 1 ≤ levels → IsGoneOnlyWhere (built_plan (for_plan step numeric plans) (parts_of self.old.parts) ≡ None) error) }
    {
        let (values, names) = self.parts.head(step)?;
        let block = self.inner(body, levels)?;
        let Some(statement) = counted_of(numeric, names, values, block) else {
            return Err(Unbuilt::Gone);
        };
        Ok(statement)
    }

    #[cycle(building)]
    fn while_loop(
        &mut self,
        condition: usize,
        body: usize,
        levels: u32,
    ) -> Result<StatKind, Unbuilt>
        ensures kept { self.new.memory ≡ self.old.memory }
        ensures built { IfOk result (λ statement. (steps : List Step) (tree : ConditionTree) (plans : Plans) → ConditionHeld (view_store self.old.memory.now) (Some condition) (Some tree) → BodyHeld steps (view_store self.old.memory.now) body plans → Some (view_statement statement, parts_of self.new.parts) ≡ built_plan (while_plan tree plans) (parts_of self.old.parts)) }
        ensures gone { IfErr result (λ error. (steps : List Step) (tree : ConditionTree) (plans : Plans) → ConditionHeld (view_store self.old.memory.now) (Some condition) (Some tree) → BodyHeld steps (view_store self.old.memory.now) body plans → body_levels steps plans + 1 ≤ levels → IsGoneOnlyWhere (built_plan (while_plan tree plans) (parts_of self.old.parts) ≡ None) error) }
    {
        let cond = self.condition(Some(condition))?;
        let body = self.inner(body, levels)?;
        Ok(StatKind::While { cond, body })
    }

    #[cycle(building)]
    fn repeat_loop(
        &mut self,
        body: usize,
        condition: Option<usize>,
        levels: u32,
    ) -> Result<StatKind, Unbuilt>
        ensures kept { self.new.memory ≡ self.old.memory }
        ensures built { IfOk result (λ statement. (steps : List Step) (plans : Plans) (tree : Option ConditionTree) → BodyHeld steps (view_store self.old.memory.now) body plans → ConditionHeld (view_store self.old.memory.now) condition tree → Some (view_statement statement, parts_of self.new.parts) ≡ built_plan (repeat_plan plans tree) (parts_of self.old.parts)) }
        ensures gone { IfErr result (λ error. (steps : List Step) (plans : Plans) (tree : Option ConditionTree) → BodyHeld steps (view_store self.old.memory.now) body plans → ConditionHeld (view_store self.old.memory.now) condition tree → body_levels steps plans + 1 ≤ levels → IsGoneOnlyWhere (built_plan (repeat_plan plans tree) (parts_of self.old.parts) ≡ None) error) }
    {
        let body = self.inner(body, levels)?;
        let cond = self.condition(condition)?;
        Ok(StatKind::Repeat { body, cond })
    }

    // A condition; none is `true`.
    fn condition(&mut self, condition: Option<usize>) -> Result<Exp, Unbuilt>
        ensures kept { self.new.memory ≡ self.old.memory }
        ensures built { IfOk result (λ exp. (tree : Option ConditionTree) → ConditionHeld (view_store self.old.memory.now) condition tree → Some (view_exp exp, parts_of self.new.parts) ≡ built_condition tree (parts_of self.old.parts)) }
        ensures gone { IfErr result (λ error. (tree : Option ConditionTree) → ConditionHeld (view_store self.old.memory.now) condition tree → IsGoneOnlyWhere (built_condition tree (parts_of self.old.parts) ≡ None) error) }
    {
        let Some(number) = condition else {
            return Ok(Exp {
                line: 1,
                kind: ExpKind::True,
            });
        };
        let memory = self.memory;
        let Some(condition) = memory.condition(number) else {
            return Err(Unbuilt::Gone);
        };
        let exp = expression(self.alloc, &mut self.parts, condition)?;
        Ok(exp)
    }

    // The arms of an `if`, and its `else`.
    #[cycle(building)]
    fn branches(&mut self, first: usize, levels: u32) -> Result<StatKind, Unbuilt>
        ensures kept { self.new.memory ≡ self.old.memory }
        ensures built { IfOk result (λ statement. (steps : List Step) (arms : ArmPlans) → ArmsHeld steps (view_store self.old.memory.now) first arms → Some (view_statement statement, parts_of self.new.parts) ≡ built_plan (if_plan arms) (parts_of self.old.parts)) }
        ensures gone { IfErr result (λ error. (steps : List Step) (arms : ArmPlans) → ArmsHeld steps (view_store self.old.memory.now) first arms → arm_levels steps arms + 1 ≤ levels → IsGoneOnlyWhere (built_plan (if_plan arms) (parts_of self.old.parts) ≡ None) error) }
    {
        let mut arms = Arms::new(self.alloc);
        let mut number = first;
        loop {
            let memory = self.memory;
            let Some(rest) = memory.rest(number) else {
                return Err(Unbuilt::Gone);
            };
            match rest {
                Rest::Nothing => return Ok(StatKind::If { arms, last: None }),
                Rest::Last { body } => {
                    let last = self.inner(body, levels)?;
                    return Ok(StatKind::If {
                        arms,
                        last: Some(last),
                    });
                }
                Rest::Arm {
                    condition,
                    body,
                    rest: behind,
                } => {
                    if behind >= number {
                        return Err(Unbuilt::Gone);
                    }
                    let cond = self.condition(condition)?;
                    let body = self.inner(body, levels)?;
                    arms.push(Arm { cond, body })?;
                    number = behind;
                }
            }
        }
    }
}

// A statement, in a `do` where it is enclosed.
fn in_block(alloc: Global, enclosed: bool, kind: StatKind) -> Result<StatKind, AllocError>
    ensures { IfOk result (λ whole. view_statement whole ≡ in_block enclosed (view_statement kind)) }
{
    if !enclosed {
        return Ok(kind);
    }
    let mut statements = Vec::new(alloc);
    append(&mut statements, kind)?;
    Ok(StatKind::Do(Block::from_vec(statements)))
}

fn counted_of(numeric: bool, names: Names, exps: Exps, body: Block) -> Option<StatKind>
    ensures { option_map view_statement result ≡ counted_of numeric names (view_exps exps) (view_block body) }
{
    if !numeric {
        return Some(StatKind::GenFor { names, exps, body });
    }
    let statement = numeric_of(names, exps, body)?;
    Some(statement)
}

// A loop with a first variable, and two values or three.
fn numeric_of(names: Names, exps: Exps, body: Block) -> Option<StatKind>
    ensures { option_map view_statement result ≡ numeric_of names (view_exps exps) (view_block body) }
{
    let name = names.into_vec().into_iter().next()?;
    let mut values = exps.into_vec().into_iter();
    Some(StatKind::NumFor {
        name,
        from: values.next()?,
        to: values.next()?,
        step: values.next(),
        body,
    })
}

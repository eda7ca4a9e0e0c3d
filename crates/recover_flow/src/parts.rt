// The parts of the source that stand in the steps of a function.

ghost use Rattle.std.specs.Prelude.{◌≡◌, None, Some, map, IfErr, IfOk};
ghost use Rattle.lua_tree.specs.View.{view_exp, view_exps, view_statement};
ghost use Rattle.recover_expr.specs.Drafts.{view_part};
ghost use Rattle.recover_flow.specs.Parts.{parts_of, IsGoneOnlyWhere, part_of_step, left_without, take_statement, take_values, take_condition, take_head};
ghost use Rattle.recover_flow.specs.declared.parts.Unbuilt.TheVariants.{OutOfMemory};

use lua_num::Names;
use lua_tree::{Exp, Exps, StatKind};
use recover_expr::StepPart;
use std::alloc::AllocError;
use std::mem;

/// Why a plan is not built.
#[derive(Clone, Copy, Debug, PartialEq, Eq)]
pub enum Unbuilt {
    /// A part of it is not there.
    Gone,
    OutOfMemory,
}

impl From<AllocError> for Unbuilt {
    ghost from_gives = { λ _ unbuilt. unbuilt ≡ OutOfMemory };

    fn from(_error: AllocError) -> Self {
        Unbuilt::OutOfMemory
    }
}

/// The parts, by the numbers of the steps. Each is taken once.
#[derive(Drop)]
pub struct Parts {
    parts: Vec<StepPart>,
}

impl Parts {
    pub fn new(parts: Vec<StepPart>) -> Self
        ensures { parts_of result ≡ map view_part parts.items }
    {
        Self { parts }
    }

    fn take(&mut self, step: usize) -> StepPart
        ensures part { view_part result ≡ part_of_step step (parts_of self.old) }
        ensures left { parts_of self.new ≡ left_without step (parts_of self.old) }
    {
        match self.parts.get_mut(step) {
            Some(part) => mem::replace(part, StepPart::Nothing),
            None => StepPart::Nothing,
        }
    }

    /// The statement of an act or a declaration.
    pub fn statement(&mut self, step: usize) -> Result<StatKind, Unbuilt>
        ensures taken { IfOk result (λ taken. Some (view_statement taken, parts_of self.new) ≡ take_statement step (parts_of self.old)) }
        ensures gone { IfErr result (IsGoneOnlyWhere (take_statement step (parts_of self.old) ≡ None)) }
    {
        match self.take(step) {
            StepPart::Statement(statement) => Ok(statement),
            _ => Err(Unbuilt::Gone),
        }
    }

    /// The values of a return.
    pub fn values(&mut self, step: usize) -> Result<Exps, Unbuilt>
        ensures taken { IfOk result (λ taken. Some (view_exps taken, parts_of self.new) ≡ take_values step (parts_of self.old)) }
        ensures gone { IfErr result (IsGoneOnlyWhere (take_values step (parts_of self.old) ≡ None)) }
    {
        match self.take(step) {
            StepPart::Values(values) => Ok(values),
            _ => Err(Unbuilt::Gone),
        }
    }

    /// The expression of a test.
    pub fn condition(&mut self, step: usize) -> Result<Exp, Unbuilt>
        ensures taken { IfOk result (λ taken. Some (view_exp taken, parts_of self.new) ≡ take_condition step (parts_of self.old)) }
        ensures gone { IfErr result (IsGoneOnlyWhere (take_condition step (parts_of self.old) ≡ None)) }
    {
        match self.take(step) {
            StepPart::Condition(condition) => Ok(condition),
            _ => Err(Unbuilt::Gone),
        }
    }

    /// The values and the variables of a `for`.
    pub fn head(&mut self, step: usize) -> Result<(Exps, Names), Unbuilt>
        ensures taken { IfOk result (λ taken. Some ((view_exps taken.0, taken.1), parts_of self.new) ≡ take_head step (parts_of self.old)) }
        ensures gone { IfErr result (IsGoneOnlyWhere (take_head step (parts_of self.old) ≡ None)) }
    {
        match self.take(step) {
            StepPart::Head { values, names } => Ok((values, names)),
            _ => Err(Unbuilt::Gone),
        }
    }
}

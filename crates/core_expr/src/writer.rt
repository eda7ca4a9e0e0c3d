// What writes an expression: where it stands, and what it has used so far.
ghost use Rattle.std.specs.Prelude.{◌≡◌, true, false, IfOk, OnOk, Err, is_some};
ghost use Rattle.core_expr.specs.Held.{place_of, name_of};
ghost use Rattle.core_expr.specs.Standing.{view_writer, with_taken, behind, worded, can_word};
ghost use Rattle.core_expr.specs.Values.{constant_value, global_value, function_value, view_bodies, view_core};
ghost use Rattle.core_expr.specs.Writing.{is_bare, name_word, view_written};
ghost use Rattle.core_expr.specs.declared.fault.CoreFault.TheVariants.{NotScheme};

use crate::bodies::Bodies;
use crate::cores::Core;
use crate::counting::with_constant;
use crate::fault::CoreFault;
use crate::literals::{has_no_number, literal};
use crate::nodes::{function, named};
use crate::scope::{MOST_SMALL, Scope, Variable, Written};
use proto::Constant;
use std::alloc::Global;

/// What writes an expression: where it stands, the functions that were not written yet, and how many constants were taken.
#[derive(Drop)]
pub struct Writer<'a> {
    pub alloc: Global,
    pub scope: &'a Scope<'a>,
    pub bodies: Bodies,
    pub taken: u32,
}

impl<'a> Writer<'a> {
    /// A writer, where so many constants are taken.
    pub fn new(alloc: Global, scope: &'a Scope<'a>, bodies: Bodies, taken: u32) -> Self
        ensures { view_writer result ≡ record { at = place_of scope.now; taken = taken; left = view_bodies bodies } }
    {
        Self {
            alloc,
            scope,
            bodies,
            taken,
        }
    }

    /// Gives back the functions that are left, and how many constants are taken.
    #[tactic(auto, unfolding(crate::specs::Standing::view_writer))]
    pub fn finish(self, bodies: &mut Bodies, taken: &mut u32)
        ensures left { view_bodies bodies.new ≡ (view_writer self.entry).left }
        ensures taken { taken.new ≡ (view_writer self.entry).taken }
    {
        let Writer {
            bodies: left,
            taken: count,
            ..
        } = self;
        *bodies = left;
        *taken = count;
    }

    /// A constant is taken.
    pub fn take_constant(&mut self, number: u32)
        ensures { view_writer self.new ≡ with_taken number (view_writer self.old) }
    {
        self.taken = with_constant(self.taken, number);
    }

    /// The name of a variable, which takes no constant.
    #[tactic(auto, unfolding(crate::specs::Standing::view_writer))]
    pub fn variable(&self, variable: Variable) -> Result<Written, CoreFault>
        ensures made { IfOk result (λ written. view_written written ≡ name_word (name_of (view_writer self.now).at variable)) }
        ensures refused { result ≡ Err NotScheme → is_some (name_of (view_writer self.now).at variable) ≡ false }
        ensures able { OnOk result (is_some (name_of (view_writer self.now).at variable) ≡ true) }
    {
        let name = self.scope.name(variable).ok_or(CoreFault::NotScheme)?;
        let written = named(self.alloc, name)?;
        Ok(written)
    }

    /// A global, by the constant that is its name.
    #[tactic(auto, unfolding(crate::specs::Standing::view_writer))]
    pub fn global(&mut self, number: u32) -> Result<Written, CoreFault>
        ensures made { IfOk result (λ written. view_written written ≡ worded (view_writer self.old) (global_value number)) }
        ensures behind { OnOk result (view_writer self.new ≡ behind (global_value number) (view_writer self.old)) }
        ensures refused { result ≡ Err NotScheme → can_word (view_writer self.old) (global_value number) ≡ false }
        ensures able { OnOk result (can_word (view_writer self.old) (global_value number) ≡ true) }
    {
        self.take_constant(number);
        self.variable(Variable::Global(number))
    }

    /// A constant.
    #[tactic(auto, unfolding(crate::specs::Standing::view_writer))]
    pub fn constant(&mut self, number: u32) -> Result<Written, CoreFault>
        ensures made { IfOk result (λ written. view_written written ≡ worded (view_writer self.old) (constant_value number)) }
        ensures behind { OnOk result (view_writer self.new ≡ behind (constant_value number) (view_writer self.old)) }
        ensures refused { result ≡ Err NotScheme → can_word (view_writer self.old) (constant_value number) ≡ false }
        ensures able { OnOk result (can_word (view_writer self.old) (constant_value number) ≡ true) }
    {
        self.take_constant(number);
        let constant = self.scope.constant(number).ok_or(CoreFault::NotScheme)?;
        let written = literal(self.alloc, constant)?;
        Ok(written)
    }

    /// A function. One that captures the register that it goes to is that of a `local function`, and stands in no expression.
    #[tactic(auto, unfolding(crate::specs::Standing::view_writer))]
    pub fn function(&mut self, number: u32, captures_itself: bool) -> Result<Written, CoreFault>
        ensures made { IfOk result (λ written. view_written written ≡ worded (view_writer self.old) (function_value number captures_itself)) }
        ensures behind { OnOk result (view_writer self.new ≡ behind (function_value number captures_itself) (view_writer self.old)) }
        ensures refused { result ≡ Err NotScheme → can_word (view_writer self.old) (function_value number captures_itself) ≡ false }
        ensures able { OnOk result (can_word (view_writer self.old) (function_value number captures_itself) ≡ true) }
    {
        if captures_itself {
            return Err(CoreFault::NotScheme);
        }
        let Some(recovered) = self.bodies.take(number) else {
            return Err(CoreFault::NotScheme);
        };
        Ok(function(self.alloc, recovered)?)
    }

    /// Whether a value that went to a register as an operand stands bare. A literal stands in parentheses, but where it would have gone there anyway: no number that an operand
    /// can have is left for it.
    #[tactic(auto, unfolding(crate::specs::Standing::view_writer))]
    pub fn is_bare(&self, core: &Core) -> bool
        ensures { result ≡ is_bare (view_writer self.now).at (view_writer self.now).taken (view_core core.now) }
    {
        match core {
            Core::Constant(number) => *number > MOST_SMALL || self.scope.text(*number).is_none(),
            Core::Nil => has_no_number(self.scope, self.taken, &Constant::Nil),
            Core::Bool(value) => has_no_number(self.scope, self.taken, &Constant::Bool(*value)),
            _ => true,
        }
    }
}

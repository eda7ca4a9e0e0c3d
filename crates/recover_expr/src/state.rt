// What is known behind the words of a function that are read.
ghost use Rattle.std.specs.Prelude.{◌≡◌, ◌<◌, ◌≤◌, ◌^◌, length, Some, None, IfOk, IfErr, OnOk, OnErr};
ghost use Rattle.core_expr.specs.Values.{view_core, view_operand, view_bodies, view_recovered};
ghost use Rattle.recover_expr.specs.Drafts.{view_draft, view_part, drafted};
ghost use Rattle.recover_expr.specs.Entries.{IsLostOnlyWhere};
ghost use Rattle.recover_expr.specs.Situation.{view_function, view_state, at_first, begun, see_constant, see_operand, see, take_body, local_in, pop, pop_operand};

use crate::draft::{Draft, DraftKind};
use crate::effects::has_operands;
use crate::function::{FIRST_CONSTANT, Function};
use crate::locals::Locals;
use crate::lost::{Lost, check, number_at};
use crate::stack::Stack;
use crate::steps::StepPart;
use core_expr::{Bodies, Core, Operand, Recovered};
use opcode::{Instr, Op};
use std::alloc::Global;

/// What is known behind the words of a function that are read: the locals, and what the words of the step that is read have made.
#[derive(Drop)]
pub struct State {
    pub bodies: Bodies,
    pub locals: Locals,
    /// The number of the step.
    pub step: usize,
    /// The pc of its first word.
    pub pc: u32,
    /// The innermost local that is active before it.
    innermost: Option<usize>,
    pub stack: Stack,
    /// How many constants the words before it have taken.
    pub taken: u32,
    // And those with the words of the step.
    seen: u32,
}

impl State {
    /// Before the first word.
    pub fn new(alloc: Global, bodies: Bodies) -> Self
        ensures { view_state result ≡ at_first (view_bodies bodies) }
    {
        Self {
            bodies,
            locals: Locals::new(alloc),
            step: 0,
            pc: 0,
            innermost: None,
            stack: Stack::new(alloc),
            taken: 0,
            seen: 0,
        }
    }

    /// The step of this number begins at a pc.
    pub fn begin(&mut self, step: usize, pc: u32) -> Result<(), Lost>
        ensures begun { OnOk result (view_state self.new ≡ begun step pc (view_state self.old)) }
        ensures fits { OnOk result (length (view_state self.old).scope.active < 2 ^ 32) }
        ensures lost { IfErr result (IsLostOnlyWhere (2 ^ 32 ≤ length (view_state self.old).scope.active)) }
    {
        self.step = step;
        self.pc = pc;
        self.innermost = self.locals.active().last().copied();
        self.stack.begin(number_at(pc, self.locals.active().len())?);
        self.taken = self.seen;
        Ok(())
    }

    /// The step, which goes up to a pc.
    pub fn draft(&self, kind: DraftKind, next: u32, levels: u32, part: StepPart) -> Draft
        ensures { view_draft result ≡ drafted kind next levels (view_part part) (view_state self.now) }
    {
        Draft {
            kind,
            pc: self.pc,
            next,
            base: self.stack.base,
            innermost: self.innermost,
            levels,
            part,
        }
    }

    // A constant of this number is taken, and so all before it.
    fn see_constant(&mut self, number: u32)
        ensures { view_state self.new ≡ see_constant number (view_state self.old) }
    {
        self.seen = self.seen.max(number.saturating_add(1));
    }

    fn see_operand(&mut self, operand: u32)
        ensures { view_state self.new ≡ see_operand operand (view_state self.old) }
    {
        if let Some(number) = operand.checked_sub(FIRST_CONSTANT) {
            self.see_constant(number);
        }
    }

    /// The constants that a word of the step names are taken.
    pub fn see(&mut self, instr: Instr)
        ensures { view_state self.new ≡ see instr (view_state self.old) }
    {
        match instr.op {
            Op::LoadK | Op::GetGlobal | Op::SetGlobal => self.see_constant(instr.bx),
            Op::GetTable | Op::Self_ => self.see_operand(instr.c),
            op if has_operands(op) => {
                self.see_operand(instr.b);
                self.see_operand(instr.c);
            }
            _ => {}
        }
    }

    /// The body of a function of this one, which is used once.
    pub fn take_body(&mut self, number: u32) -> Result<Recovered, Lost>
        ensures body { IfOk result (λ body. Some (view_recovered body, view_state self.new) ≡ take_body number (view_state self.old)) }
        ensures lost { OnErr result (take_body number (view_state self.old) ≡ None) }
    {
        let lost = Lost::NotScheme { pc: self.pc };
        self.bodies.take(number).ok_or(lost)
    }

    /// The local in a register, at a pc.
    pub fn local(&self, function: &Function, register: u32, pc: u32) -> Result<Core, Lost>
        ensures local { IfOk result (λ core. Some (view_core core) ≡ local_in (view_function function.now) (view_state self.now) register) }
        ensures lost { IfErr result (IsLostOnlyWhere (local_in (view_function function.now) (view_state self.now) register ≡ None)) }
    {
        check(self.locals.is_named(function.proto, register), pc)?;
        Ok(Core::Local(register))
    }

    /// The single value in a register: a local's, or that on top of the stack, which goes off it.
    pub fn pop(&mut self, function: &Function, register: u32, pc: u32) -> Result<Core, Lost>
        ensures taken { IfOk result (λ core. Some (view_core core, view_state self.new) ≡ pop (view_function function.now) register (view_state self.old)) }
        ensures lost { IfErr result (IsLostOnlyWhere (pop (view_function function.now) register (view_state self.old) ≡ None)) }
    {
        match self.stack.place(register) {
            Some(place) => self.stack.pop_at(place, pc),
            None => self.local(function, register, pc),
        }
    }

    /// A constant of the word at a pc, or the single value in a register.
    pub fn pop_operand(&mut self, function: &Function, field: u32, pc: u32) -> Result<Operand, Lost>
        ensures taken { IfOk result (λ operand. Some (view_operand operand, view_state self.new) ≡ pop_operand (view_function function.now) field (view_state self.old)) }
        ensures lost { IfErr result (IsLostOnlyWhere (pop_operand (view_function function.now) field (view_state self.old) ≡ None)) }
    {
        match field.checked_sub(FIRST_CONSTANT) {
            Some(number) => Ok(Operand::Constant(function.constant(number, pc)?)),
            None => Ok(Operand::Value(self.pop(function, field, pc)?)),
        }
    }
}

// Loops.
ghost use Rattle.std.specs.Prelude.{◌≡◌, OnOk, IfOk, Some};
ghost use Rattle.lua_tree.specs.View.{view_block, view_exp};
ghost use Rattle.scheme.specs.Statements as parts;
ghost use Rattle.scheme.specs.Scheme.{coded, statements_made};
ghost use Rattle.code_builder.specs.Made.{maker_of};
ghost use Rattle.codegen.specs.Loops.{step_of, numeric_made, generic_made};

use crate::conditions::jump_if;
use crate::expressions::next_reg;
use crate::locals::{Around, activate_generic, activate_numeric, close_where, end_block};
use crate::statements::{block_part, statements};
use crate::words::{jump_to, load, plus, put_abc, put_jump};
use code_builder::{Builder, field};
use lua_tree::{Block, Exp};
use opcode::Op;
use proto::Constant;
use scheme::Local;
use std::alloc::{AllocError, Global};

/// A `while`.
#[cycle(source)]
pub fn while_loop(
    alloc: Global,
    builder: &mut Builder,
    line: u32,
    cond: &Exp,
    body: &Block,
) -> Result<(), AllocError>
    ensures { OnOk result (maker_of builder.new ≡ parts.while_part line (coded (view_exp cond.now)) (statements_made (view_block body.now)) (maker_of builder.old)) }
{
    let exit = builder.new_label()?;
    let start = builder.new_label()?;
    let before = builder.active_count()?;
    builder.place(start);
    jump_if(alloc, builder, cond, false, exit)?;
    block_part(alloc, builder, line, body, Some(Around { exit, before }))?;
    jump_to(builder, line, start)?;
    builder.place(exit);
    Ok(())
}

/// A `repeat`, whose condition sees the locals of its block.
#[cycle(source)]
pub fn repeat_loop(
    alloc: Global,
    builder: &mut Builder,
    line: u32,
    body: &Block,
    cond: &Exp,
) -> Result<(), AllocError>
    ensures { OnOk result (maker_of builder.new ≡ parts.repeat_part line (statements_made (view_block body.now)) (coded (view_exp cond.now)) (maker_of builder.old)) }
{
    let exit = builder.new_label()?;
    let start = builder.new_label()?;
    let before = builder.active_count()?;
    builder.place(start);
    statements(alloc, builder, body, Some(Around { exit, before }))?;
    if builder.captured_from(before) {
        repeat_captured(alloc, builder, line, start, exit, before, cond)?;
    } else {
        jump_if(alloc, builder, cond, false, start)?;
        builder.end_locals(before)?;
    }
    builder.place(exit);
    Ok(())
}

// The end of a `repeat` of which a local is captured.
#[cycle(source)]
fn repeat_captured(
    alloc: Global,
    builder: &mut Builder,
    line: u32,
    start: usize,
    exit: usize,
    before: u32,
    cond: &Exp,
) -> Result<(), AllocError>
    ensures { OnOk result (maker_of builder.new ≡ parts.repeat_captured line start exit before (coded (view_exp cond.now)) (maker_of builder.old)) }
{
    let again = builder.new_label()?;
    jump_if(alloc, builder, cond, false, again)?;
    close_where(builder, line, true, before)?;
    jump_to(builder, line, exit)?;
    builder.place(again);
    builder.end_locals(before)?;
    close_where(builder, line, true, before)?;
    jump_to(builder, line, start)
}

/// Where a `for` stands: the first of its registers, the number of active locals before it, and its variables.
#[derive(Drop)]
pub struct Turn {
    pub base: u32,
    pub before: u32,
    pub variables: Vec<Local>,
}

// The variables of a loop, and its block.
#[cycle(source)]
fn one_turn(
    alloc: Global,
    builder: &mut Builder,
    line: u32,
    turn: Turn,
    exit: usize,
    body: &Block,
) -> Result<(), AllocError>
    ensures { OnOk result (maker_of builder.new ≡ parts.turn line turn.base turn.variables.items (statements_made (view_block body.now) (Some (record { exit = exit; before = turn.before }))) (maker_of builder.old)) }
{
    let before = turn.before;
    let count = field(turn.variables.len())?;
    builder.activate(alloc, turn.variables)?;
    builder.take_registers(count)?;
    block_part(alloc, builder, line, body, Some(Around { exit, before }))?;
    end_block(builder, line, plus(turn.base, 3)?)
}

/// The step of a numeric `for`, which is 1 where none is written.
#[cycle(source)]
pub fn step_part(
    alloc: Global,
    builder: &mut Builder,
    line: u32,
    step: &Option<Exp>,
) -> Result<(), AllocError>
    ensures { OnOk result (maker_of builder.new ≡ parts.step_part line (step_of step.now) (maker_of builder.old)) }
{
    match step {
        Some(step) => next_reg(alloc, builder, step),
        None => {
            load(builder, line, builder.free, Constant::Number(1))?;
            builder.take_registers(1)
        }
    }
}

/// A numeric `for`, behind its values.
#[cycle(source)]
pub fn numeric_loop(
    alloc: Global,
    builder: &mut Builder,
    line: u32,
    place: Turn,
    body: &Block,
) -> Result<(), AllocError>
    ensures { OnOk result (maker_of builder.new ≡ numeric_made line place.base place.before place.variables.items (statements_made (view_block body.now)) (maker_of builder.old)) }
{
    let base = place.base;
    let before = place.before;
    activate_numeric(alloc, builder)?;
    let begin = builder.new_label()?;
    let end = builder.new_label()?;
    let exit = builder.new_label()?;
    put_jump(builder, line, Op::ForPrep, base, end)?;
    builder.place(begin);
    one_turn(alloc, builder, line, place, exit, body)?;
    builder.place(end);
    put_jump(builder, line, Op::ForLoop, base, begin)?;
    builder.place(exit);
    builder.end_locals(before)
}

/// A `for` over what a function gives, behind its values.
#[cycle(source)]
pub fn generic_loop(
    alloc: Global,
    builder: &mut Builder,
    line: u32,
    place: Turn,
    body: &Block,
) -> Result<(), AllocError>
    ensures { OnOk result (maker_of builder.new ≡ generic_made line place.base place.before place.variables.items (statements_made (view_block body.now)) (maker_of builder.old)) }
{
    let base = place.base;
    let before = place.before;
    let count = field(place.variables.len())?;
    activate_generic(alloc, builder)?;
    let begin = builder.new_label()?;
    let end = builder.new_label()?;
    let exit = builder.new_label()?;
    jump_to(builder, line, end)?;
    builder.place(begin);
    builder.used(plus(base, 6)?);
    one_turn(alloc, builder, line, place, exit, body)?;
    builder.place(end);
    put_abc(builder, line, Op::TForLoop, base, 0, count)?;
    jump_to(builder, line, begin)?;
    builder.place(exit);
    builder.end_locals(before)
}

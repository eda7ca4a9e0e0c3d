// The ends of blocks.
ghost use Rattle.std.specs.Prelude.{◌≡◌, [], ◌∷◌, IfOk, OnOk};
ghost use Rattle.scheme.specs.Making as making;
ghost use Rattle.scheme.specs.Statements as parts;
ghost use Rattle.code_builder.specs.Made.{maker_of};
ghost use Rattle.codegen.specs.Loops.{loop_of};

use crate::words::{jump_to, put_abc};
use code_builder::{Builder, hidden};
use opcode::Op;
use scheme::Local;
use std::alloc::{AllocError, Global};

/// The loop around: the label behind it, and the number of active locals before it.
#[derive(Clone, Copy, Debug, PartialEq, Eq)]
pub struct Around {
    pub exit: usize,
    pub before: u32,
}

/// Closes the upvalues from a register on, where that is wanted.
pub fn close_where(
    builder: &mut Builder,
    line: u32,
    wanted: bool,
    register: u32,
) -> Result<(), AllocError>
    ensures { OnOk result (maker_of builder.new ≡ making.when wanted (parts.close_from line register) (maker_of builder.old)) }
{
    if wanted {
        put_abc(builder, line, Op::Close, register, 0, 0)?;
    }
    Ok(())
}

/// The locals from the n-th on end, with a CLOSE where one of them is captured.
pub fn end_block(builder: &mut Builder, line: u32, n: u32) -> Result<(), AllocError>
    ensures { OnOk result (maker_of builder.new ≡ parts.end_block line n (maker_of builder.old)) }
{
    let captured = builder.captured_from(n);
    builder.end_locals(n)?;
    close_where(builder, line, captured, n)?;
    builder.free_from(n);
    Ok(())
}

/// A jump out of the loop around.
pub fn leave_loop(
    builder: &mut Builder,
    line: u32,
    around: Option<Around>,
) -> Result<(), AllocError>
    ensures { OnOk result (maker_of builder.new ≡ parts.break_part line (loop_of around) (maker_of builder.old)) }
{
    let Some(around) = around else {
        return Ok(());
    };
    let captured = builder.captured_from(around.before);
    close_where(builder, line, captured, around.before)?;
    jump_to(builder, line, around.exit)
}

// Three hidden locals of a loop.
fn hidden_locals(
    alloc: Global,
    first: &[u8],
    second: &[u8],
    third: &[u8],
) -> Result<Vec<Local>, AllocError>
    ensures { IfOk result (λ locals. locals.items ≡ making.hidden first.now ∷ making.hidden second.now ∷ making.hidden third.now ∷ []) }
{
    let mut locals = Vec::new(alloc);
    locals.push(hidden(alloc, first)?)?;
    locals.push(hidden(alloc, second)?)?;
    locals.push(hidden(alloc, third)?)?;
    Ok(locals)
}

/// The hidden locals of a numeric `for` become active.
pub fn activate_numeric(alloc: Global, builder: &mut Builder) -> Result<(), AllocError>
    ensures { OnOk result (maker_of builder.new ≡ making.activate parts.numeric_names (maker_of builder.old)) }
{
    let locals = hidden_locals(alloc, b"(for index)", b"(for limit)", b"(for step)")?;
    builder.activate(alloc, locals)
}

/// The hidden locals of any other `for` become active.
pub fn activate_generic(alloc: Global, builder: &mut Builder) -> Result<(), AllocError>
    ensures { OnOk result (maker_of builder.new ≡ making.activate parts.generic_names (maker_of builder.old)) }
{
    let locals = hidden_locals(alloc, b"(for generator)", b"(for state)", b"(for control)")?;
    builder.activate(alloc, locals)
}

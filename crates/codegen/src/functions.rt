// Functions that stand in a function.
ghost use Rattle.std.specs.Prelude.{◌≡◌, OnOk, IfOk, None, [], length};
ghost use Rattle.lua_tree.specs.View.{view_body, view_block};
ghost use Rattle.lua_tree.specs.Outline.{all_params as the_params};
ghost use Rattle.scheme.specs.Functions as functions;
ghost use Rattle.scheme.specs.Scheme.{inner, statements_made};
ghost use Rattle.code_builder.specs.Drafts.{finished_draft};
ghost use Rattle.code_builder.specs.Made.{maker_of, ahead_of};

use crate::statements::statements;
use crate::words::{put_abc, put_abx};
use code_builder::{Ahead, Builder, Draft, Heading, field};
use lua_num::{ByteText, Names};
use lua_tree::{Block, Body};
use opcode::Op;
use std::alloc::{AllocError, Global};

// The parameters of a function; a method's first is `self`.
fn all_params(alloc: Global, method: bool, params: &[ByteText]) -> Result<Names, AllocError>
    ensures { IfOk result (λ names. names ≡ the_params method params.now) }
{
    let mut names = Names::new(alloc);
    if method {
        names.push(ByteText::from_slice(alloc, b"self")?)?;
    }
    for name in params {
        names.push(ByteText::from_slice(alloc, name.bytes())?)?;
    }
    Ok(names)
}

// A function begins with its parameters.
fn with_params(alloc: Global, builder: &mut Builder, params: &[ByteText]) -> Result<(), AllocError>
    ensures { OnOk result (maker_of builder.new ≡ functions.with_params params.now (maker_of builder.old)) }
{
    let locals = builder.declare(alloc, params)?;
    builder.activate(alloc, locals)?;
    builder.take_registers(field(params.len())?)
}

/// The words of a whole function.
#[cycle(source)]
pub fn whole_function(
    alloc: Global,
    builder: &mut Builder,
    end_line: u32,
    params: &[ByteText],
    block: &Block,
) -> Result<(), AllocError>
    ensures { OnOk result (maker_of builder.new ≡ functions.whole_function end_line params.now (statements_made (view_block block.now) None) (maker_of builder.old)) }
{
    with_params(alloc, builder, params)?;
    statements(alloc, builder, block, None)?;
    builder.end_locals(0)?;
    put_abc(builder, end_line, Op::Return, 0, 1, 0)
}

// A function that stands in another, by the names of its upvalues and what is ahead of it.
#[cycle(source)]
fn inner_function<'a>(
    alloc: Global,
    ahead: Ahead<'a>,
    upvalue_names: Names,
    body: &Body,
    method: bool,
) -> Result<(Draft, Ahead<'a>), AllocError>
    ensures { IfOk result (λ made. finished_draft made.0 (ahead_of made.1) ≡ inner (view_body body.now) method upvalue_names (ahead_of ahead.entry)) }
{
    let params = all_params(alloc, method, body.params.items())?;
    let mut builder = Builder::new(alloc, ahead, upvalue_names);
    whole_function(
        alloc,
        &mut builder,
        body.last_line,
        params.items(),
        &body.block,
    )?;
    let heading = Heading {
        source: None,
        first_line: body.first_line,
        last_line: body.last_line,
        params: params.items().len(),
        vararg: body.vararg,
    };
    builder.finish(alloc, heading)
}

/// A closure of a function in a register.
#[cycle(source)]
pub fn closure(
    alloc: Global,
    builder: &mut Builder,
    line: u32,
    body: &Body,
    method: bool,
    r: u32,
) -> Result<(), AllocError>
    ensures { OnOk result (maker_of builder.new ≡ functions.closure line (inner (view_body body.now) method) r (maker_of builder.old)) }
{
    let sources = builder.next_sources();
    let upvalue_names = builder.source_names(alloc, sources)?;
    let number = field(builder.functions.len())?;
    let (draft, ahead) = inner_function(
        alloc,
        builder.inner_ahead()?,
        upvalue_names,
        body,
        method,
    )?;
    builder.add_function(draft, ahead)?;
    put_abx(builder, line, Op::Closure, r, number)?;
    builder.further_words(line, sources)
}

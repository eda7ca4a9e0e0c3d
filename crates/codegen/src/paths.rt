// The paths of function statements.
ghost use Rattle.std.specs.Prelude.{◌≡◌, OnOk, IfOk, drop};
ghost use Rattle.scheme.specs.Expressions as expressions;
ghost use Rattle.scheme.specs.Statements as parts;
ghost use Rattle.code_builder.specs.Made.{maker_of};
ghost use Rattle.code_builder.specs.Places.{place_of};
ghost use Rattle.lua_tree.specs.Syntax.{name_expression};
ghost use Rattle.codegen.specs.Targets.{target_of, first_text, path_field};

use crate::stores::Target;
use crate::words::{name_value, put_abc, rk_text};
use code_builder::{Builder, Place, field};
use lua_num::ByteText;
use opcode::Op;
use std::alloc::{AllocError, Global};

// The name that a path begins with.
fn first_name(path: &[ByteText]) -> &[u8]
    ensures { result.now ≡ first_text path.now }
{
    match path {
        [first, ..] => first.bytes(),
        [] => &[],
    }
}

// A name as an operand, and whether it is a local.
fn name_operand(
    alloc: Global,
    builder: &mut Builder,
    line: u32,
    name: &[u8],
) -> Result<(u32, bool), AllocError>
    ensures value { IfOk result (λ got. got.0 ≡ (expressions.operand (expressions.coded_name line name.now) (maker_of builder.old)).value) }
    ensures local { IfOk result (λ got. got.1 ≡ expressions.is_local (name_expression line name.now) (maker_of builder.old)) }
    ensures made { OnOk result (maker_of builder.new ≡ (expressions.operand (expressions.coded_name line name.now) (maker_of builder.old)).after) }
{
    if let Place::Register(x) = builder.next_name() {
        builder.pass_name();
        return Ok((field(x)?, true));
    }
    let r = builder.free;
    name_value(alloc, builder, line, name, r)?;
    builder.take_registers(1)?;
    Ok((r, false))
}

// A path as an operand, and whether it is a local.
fn path_operand(
    alloc: Global,
    builder: &mut Builder,
    line: u32,
    path: &[ByteText],
) -> Result<(u32, bool), AllocError>
    ensures value { IfOk result (λ got. got.0 ≡ (expressions.operand (parts.path_from line path.now) (maker_of builder.old)).value) }
    ensures local { IfOk result (λ got. got.1 ≡ expressions.is_local (parts.path_from line path.now).e (maker_of builder.old)) }
    ensures made { OnOk result (maker_of builder.new ≡ (expressions.operand (parts.path_from line path.now) (maker_of builder.old)).after) }
{
    let base = builder.free;
    let (mut t, mut local) = name_operand(alloc, builder, line, first_name(path))?;
    for name in fields_of_path(path) {
        let k = rk_text(alloc, builder, line, name.bytes())?;
        put_abc(builder, line, Op::GetTable, base, t, k)?;
        builder.free_from(base);
        builder.take_registers(1)?;
        t = base;
        local = false;
    }
    Ok((t, local))
}

// The fields of a path, behind its name.
fn fields_of_path(path: &[ByteText]) -> &[ByteText]
    ensures { result.now ≡ drop 1 path.now }
{
    match path {
        [_, fields @ ..] => fields,
        [] => path,
    }
}

// A field of a path as a target.
fn field_target<'t>(
    alloc: Global,
    builder: &mut Builder,
    line: u32,
    path: &[ByteText],
    name: &[u8],
) -> Result<Target<'t>, AllocError>
    ensures target { IfOk result (λ target. target_of target ≡ ((path_field line path.now name.now).target (maker_of builder.old)).value) }
    ensures made { OnOk result (maker_of builder.new ≡ ((path_field line path.now name.now).target (maker_of builder.old)).after) }
{
    let (on, on_local) = path_operand(alloc, builder, line, path)?;
    let key = rk_text(alloc, builder, line, name)?;
    Ok(Target::Part {
        on,
        key,
        on_local,
        key_local: false,
    })
}

// A path alone as a target.
fn bare_target<'t>(
    alloc: Global,
    builder: &mut Builder,
    line: u32,
    path: &'t [ByteText],
) -> Result<Target<'t>, AllocError>
    ensures target { IfOk result (λ target. target_of target ≡ ((parts.path_from line path.now).target (maker_of builder.old)).value) }
    ensures made { OnOk result (maker_of builder.new ≡ ((parts.path_from line path.now).target (maker_of builder.old)).after) }
{
    match path {
        [front @ .., last] if !front.is_empty() => field_target(
            alloc,
            builder,
            line,
            front,
            last.bytes(),
        ),
        _ => {
            let place = builder.next_name();
            builder.pass_name();
            Ok(Target::Name {
                name: first_name(path),
                place,
            })
        }
    }
}

/// What a function statement stores to: its path, and its method's name where it has one.
pub fn path_target<'t>(
    alloc: Global,
    builder: &mut Builder,
    line: u32,
    path: &'t [ByteText],
    method: &'t Option<ByteText>,
) -> Result<Target<'t>, AllocError>
    ensures target { IfOk result (λ target. target_of target ≡ ((parts.with_method line (parts.path_from line path.now) method.now).target (maker_of builder.old)).value) }
    ensures made { OnOk result (maker_of builder.new ≡ ((parts.with_method line (parts.path_from line path.now) method.now).target (maker_of builder.old)).after) }
{
    match method {
        Some(name) => field_target(alloc, builder, line, path, name.bytes()),
        None => bare_target(alloc, builder, line, path),
    }
}

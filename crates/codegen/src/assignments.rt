// Assignments.
ghost use Rattle.std.specs.Prelude.{◌≡◌, OnOk, IfOk, [], ◌∷◌, is_some, length};
ghost use Rattle.lua_tree.specs.View.{view_exp, view_exps, view_body};
ghost use Rattle.lua_tree.specs.TreeLists.{expressions_of};
ghost use Rattle.scheme.specs.Functions.{coded_function};
ghost use Rattle.scheme.specs.Statements as parts;
ghost use Rattle.scheme.specs.Scheme.{coded, all_coded, inner};
ghost use Rattle.code_builder.specs.Made.{maker_of};
ghost use Rattle.codegen.specs.Targets.{target_of, targets_of};

use crate::calls::adjust;
use crate::expressions::{next_reg, operand, rk, to_reg};
use crate::functions::closure;
use crate::paths::path_target;
use crate::stores::{Target, copies, set_place, store_register, stored_back, stored_from};
use crate::words::{local_register, put_abc, rk_text};
use code_builder::{Builder, Place, field};
use lua_num::ByteText;
use lua_tree::{Body, Exp, ExpKind, Exps};
use opcode::Op;
use std::alloc::{AllocError, Global};

// A table and a key as a target.
#[cycle(source)]
fn target<'t>(alloc: Global, builder: &mut Builder, e: &'t Exp) -> Result<Target<'t>, AllocError>
    ensures target { IfOk result (λ target. target_of target ≡ ((coded (view_exp e.now)).target (maker_of builder.old)).value) }
    ensures made { OnOk result (maker_of builder.new ≡ ((coded (view_exp e.now)).target (maker_of builder.old)).after) }
{
    match &e.kind {
        ExpKind::Name(name) => {
            let place = builder.next_name();
            builder.pass_name();
            Ok(Target::Name {
                name: name.bytes(),
                place,
            })
        }
        ExpKind::Index { on, key } => {
            let on_local = local_register(builder, on).is_some();
            let t = operand(alloc, builder, on)?;
            let key_local = local_register(builder, key).is_some();
            let k = rk(alloc, builder, key)?;
            Ok(Target::Part {
                on: t,
                key: k,
                on_local,
                key_local,
            })
        }
        ExpKind::Field { on, name } => {
            let on_local = local_register(builder, on).is_some();
            let t = operand(alloc, builder, on)?;
            let k = rk_text(alloc, builder, e.line, name.bytes())?;
            Ok(Target::Part {
                on: t,
                key: k,
                on_local,
                key_local: false,
            })
        }
        _ => Ok(Target::Name {
            name: &[],
            place: Place::Global,
        }),
    }
}

// The targets of an assignment, from left to right.
#[cycle(source)]
fn all_targets<'t>(
    alloc: Global,
    builder: &mut Builder,
    list: &'t [Exp],
) -> Result<Vec<Target<'t>>, AllocError>
    ensures targets { IfOk result (λ targets. targets_of targets.items ≡ (parts.all_targets (all_coded (expressions_of list.now)) (maker_of builder.old)).value) }
    ensures made { OnOk result (maker_of builder.new ≡ (parts.all_targets (all_coded (expressions_of list.now)) (maker_of builder.old)).after) }
{
    let mut targets = Vec::new(alloc);
    for e in list {
        let target = target(alloc, builder, e)?;
        targets.push(target)?;
    }
    Ok(targets)
}

// Stores an expression to a target.
#[cycle(source)]
fn store(
    alloc: Global,
    builder: &mut Builder,
    line: u32,
    target: &Target,
    e: &Exp,
) -> Result<(), AllocError>
    ensures { OnOk result (maker_of builder.new ≡ parts.store line (target_of target.now) (coded (view_exp e.now)) (maker_of builder.old)) }
{
    match target {
        Target::Name {
            place: Place::Register(x),
            ..
        } => to_reg(alloc, builder, e, field(*x)?),
        Target::Name { name, place } => {
            let r = operand(alloc, builder, e)?;
            set_place(alloc, builder, line, r, name, *place)
        }
        Target::Part { on, key, .. } => {
            let v = rk(alloc, builder, e)?;
            put_abc(builder, line, Op::SetTable, *on, *key, v)
        }
    }
}

// As many expressions as targets: all but the last are stored from their registers, from right to left.
#[cycle(source)]
fn each_stored(
    alloc: Global,
    builder: &mut Builder,
    line: u32,
    targets: &[Target],
    list: &[Exp],
) -> Result<(), AllocError>
    requires { length targets.now ≡ length list.now }
    ensures { OnOk result (maker_of builder.new ≡ parts.each_stored line (targets_of targets.now) (all_coded (expressions_of list.now)) (maker_of builder.old)) }
{
    let mut registers = Vec::new(alloc);
    for (i, e) in list.iter().enumerate() {
        if i + 1 == list.len() {
            store(alloc, builder, line, &targets[i], e)?;
        } else {
            registers.push(builder.free)?;
            next_reg(alloc, builder, e)?;
        }
    }
    stored_back(alloc, builder, line, targets, registers.as_slice())
}

// Another number of expressions than targets: all are stored from registers, from right to left.
#[cycle(source)]
fn assign_adjusted(
    alloc: Global,
    builder: &mut Builder,
    line: u32,
    targets: &[Target],
    list: &[Exp],
) -> Result<(), AllocError>
    ensures { OnOk result (maker_of builder.new ≡ parts.assign_adjusted line (targets_of targets.now) (all_coded (expressions_of list.now)) (maker_of builder.old)) }
{
    let base = builder.free;
    adjust(alloc, builder, line, list, targets.len())?;
    stored_from(alloc, builder, line, base, targets)
}

// One expression to one target.
#[cycle(source)]
fn assign_one(
    alloc: Global,
    builder: &mut Builder,
    line: u32,
    to: &Exp,
    e: &Exp,
) -> Result<(), AllocError>
    ensures { OnOk result (maker_of builder.new ≡ parts.assign_part line (coded (view_exp to.now) ∷ []) (coded (view_exp e.now) ∷ []) (maker_of builder.old)) }
{
    let target = target(alloc, builder, to)?;
    store(alloc, builder, line, &target, e)
}

// Several targets, or several expressions.
#[cycle(source)]
fn assign_several(
    alloc: Global,
    builder: &mut Builder,
    line: u32,
    targets: &Exps,
    list: &Exps,
) -> Result<(), AllocError>
    ensures { OnOk result (maker_of builder.new ≡ parts.assign_part line (all_coded (view_exps targets.now)) (all_coded (view_exps list.now)) (maker_of builder.old)) }
{
    let places = all_targets(alloc, builder, targets.items())?;
    let count = builder.active_count()?;
    let places = copies(alloc, builder, line, count, places)?;
    let list = list.items();
    if list.len() == places.len() {
        each_stored(alloc, builder, line, places.as_slice(), list)
    } else {
        assign_adjusted(alloc, builder, line, places.as_slice(), list)
    }
}

/// An assignment.
#[cycle(source)]
pub fn assign(
    alloc: Global,
    builder: &mut Builder,
    line: u32,
    targets: &Exps,
    list: &Exps,
) -> Result<(), AllocError>
    ensures { OnOk result (maker_of builder.new ≡ parts.assign_part line (all_coded (view_exps targets.now)) (all_coded (view_exps list.now)) (maker_of builder.old)) }
{
    match (targets.items(), list.items()) {
        ([target], [e]) => assign_one(alloc, builder, line, target, e),
        _ => assign_several(alloc, builder, line, targets, list),
    }
}

/// A function to the target that its statement names.
#[cycle(source)]
pub fn assign_function(
    alloc: Global,
    builder: &mut Builder,
    line: u32,
    path: &[ByteText],
    method: &Option<ByteText>,
    body: &Body,
) -> Result<(), AllocError>
    ensures { OnOk result (maker_of builder.new ≡ parts.assign_part line (parts.with_method line (parts.path_from line path.now) method.now ∷ []) (coded_function line (view_body body.now) (inner (view_body body.now) (is_some method.now)) ∷ []) (maker_of builder.old)) }
{
    let target = path_target(alloc, builder, line, path, method)?;
    store_function(alloc, builder, line, &target, body, method.is_some())
}

// Stores a function to a target.
#[cycle(source)]
fn store_function(
    alloc: Global,
    builder: &mut Builder,
    line: u32,
    target: &Target,
    body: &Body,
    method: bool,
) -> Result<(), AllocError>
    ensures { OnOk result (maker_of builder.new ≡ parts.store line (target_of target.now) (coded_function line (view_body body.now) (inner (view_body body.now) method)) (maker_of builder.old)) }
{
    if let Target::Name {
        place: Place::Register(x),
        ..
    } = target
    {
        let free = builder.free;
        closure(alloc, builder, line, body, method, field(*x)?)?;
        builder.free_from(free);
        return Ok(());
    }
    let r = builder.free;
    closure(alloc, builder, line, body, method, r)?;
    builder.free_from(r);
    builder.take_registers(1)?;
    store_register(alloc, builder, line, target, r)
}

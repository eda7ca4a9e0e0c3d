// From values to expressions.
ghost use Rattle.std.specs.Prelude.{◌≡◌, IfOk, OnOk, Err, true, false};
ghost use Rattle.proto.specs.Chunk.{own};
ghost use Rattle.proto.specs.View.{view_proto};
ghost use Rattle.core_expr.specs.Counting.{taken_behind, taken_behind_values, taken_behind_operand, left_by, left_by_values, left_by_operand};
ghost use Rattle.core_expr.specs.Places.{place};
ghost use Rattle.core_expr.specs.Targets.{view_target, view_comparison, word_target, taken_behind_target, left_by_target, can_write_target, word_comparison, left_by_comparison, can_write_comparison, path_of, can_have_path};
ghost use Rattle.core_expr.specs.Values.{view_core, view_core_list, view_operand, view_bodies};
ghost use Rattle.core_expr.specs.Writing.{word, word_values, word_operand, can_write, can_write_values, can_write_operand, view_written, view_written_list};
ghost use Rattle.core_expr.specs.declared.fault.CoreFault.TheVariants.{NotScheme};

use crate::bodies::Bodies;
use crate::comparing::{is_swapped, mirrored};
use crate::cores::{Core, Cores, Operand};
use crate::fault::CoreFault;
use crate::paths::{field_path, variable_path};
use crate::scope::{Scope, Variable, Written, WrittenList};
use crate::writer::Writer;
use lua_num::Names;
use lua_tree::BinaryOp;
use std::alloc::Global;
use std::mem::replace;

/// What is assigned to.
#[derive(Drop)]
pub enum Target {
    Local(u32),
    Upvalue(u32),
    /// By the number of its name among the constants.
    Global(u32),
    Index { on: Core, key: Operand },
}

/// A comparison as a word has it: `==`, `<` or `<=`, the fields B and C of the word, and its two operands.
#[derive(Drop)]
pub struct Comparison {
    pub op: BinaryOp,
    pub b: u32,
    pub c: u32,
    pub left: Operand,
    pub right: Operand,
}

/// The expression of a value. `taken` is how many constants the words before have taken, and then how many with it; `bodies` has the functions that are left. After a refusal `bodies` is of no
/// use, here and below. In time linear in the value.
pub fn write_expression(
    alloc: Global,
    scope: &Scope<'_>,
    bodies: &mut Bodies,
    core: Core,
    taken: &mut u32,
) -> Result<Written, CoreFault>
    ensures made { IfOk result (λ written. view_written written ≡ word (place (own (view_proto scope.now.proto.now)) scope.now.entries.now scope.now.short) taken.old (view_bodies bodies.old) (view_core core)) }
    ensures taken { OnOk result (taken.new ≡ taken_behind (view_core core) taken.old) }
    ensures left { OnOk result (view_bodies bodies.new ≡ left_by (view_core core) (view_bodies bodies.old)) }
    ensures refused { result ≡ Err NotScheme → can_write (place (own (view_proto scope.now.proto.now)) scope.now.entries.now scope.now.short) (view_bodies bodies.old) (view_core core) ≡ false }
    ensures able { OnOk result (can_write (place (own (view_proto scope.now.proto.now)) scope.now.entries.now scope.now.short) (view_bodies bodies.old) (view_core core) ≡ true) }
{
    let mut writer = Writer::new(alloc, scope, replace(bodies, Bodies::new(alloc)), *taken);
    let written = writer.expression(&core)?;
    writer.finish(bodies, taken);
    Ok(written)
}

/// The expression of an operand.
pub fn write_operand(
    alloc: Global,
    scope: &Scope<'_>,
    bodies: &mut Bodies,
    operand: Operand,
    taken: &mut u32,
) -> Result<Written, CoreFault>
    ensures made { IfOk result (λ written. view_written written ≡ word_operand (place (own (view_proto scope.now.proto.now)) scope.now.entries.now scope.now.short) taken.old (view_bodies bodies.old) (view_operand operand)) }
    ensures taken { OnOk result (taken.new ≡ taken_behind_operand (view_operand operand) taken.old) }
    ensures left { OnOk result (view_bodies bodies.new ≡ left_by_operand (view_operand operand) (view_bodies bodies.old)) }
    ensures refused { result ≡ Err NotScheme → can_write_operand (place (own (view_proto scope.now.proto.now)) scope.now.entries.now scope.now.short) (view_bodies bodies.old) (view_operand operand) ≡ false }
    ensures able { OnOk result (can_write_operand (place (own (view_proto scope.now.proto.now)) scope.now.entries.now scope.now.short) (view_bodies bodies.old) (view_operand operand) ≡ true) }
{
    let mut writer = Writer::new(alloc, scope, replace(bodies, Bodies::new(alloc)), *taken);
    let written = writer.operand(&operand)?;
    writer.finish(bodies, taken);
    Ok(written)
}

/// The expressions of values; where they are not open, a last call or `...` stands in parentheses.
pub fn write_list(
    alloc: Global,
    scope: &Scope<'_>,
    bodies: &mut Bodies,
    cores: Cores,
    open: bool,
    taken: &mut u32,
) -> Result<WrittenList, CoreFault>
    ensures made { IfOk result (λ written. view_written_list written ≡ word_values (place (own (view_proto scope.now.proto.now)) scope.now.entries.now scope.now.short) taken.old (view_bodies bodies.old) (view_core_list cores) «open») }
    ensures taken { OnOk result (taken.new ≡ taken_behind_values (view_core_list cores) taken.old) }
    ensures left { OnOk result (view_bodies bodies.new ≡ left_by_values (view_core_list cores) (view_bodies bodies.old)) }
    ensures refused { result ≡ Err NotScheme → can_write_values (place (own (view_proto scope.now.proto.now)) scope.now.entries.now scope.now.short) (view_bodies bodies.old) (view_core_list cores) ≡ false }
    ensures able { OnOk result (can_write_values (place (own (view_proto scope.now.proto.now)) scope.now.entries.now scope.now.short) (view_bodies bodies.old) (view_core_list cores) ≡ true) }
{
    let mut writer = Writer::new(alloc, scope, replace(bodies, Bodies::new(alloc)), *taken);
    let list = writer.list(cores.items(), open)?;
    writer.finish(bodies, taken);
    Ok(list)
}

/// The expression of a target.
pub fn write_target(
    alloc: Global,
    scope: &Scope<'_>,
    bodies: &mut Bodies,
    target: Target,
    taken: &mut u32,
) -> Result<Written, CoreFault>
    ensures made { IfOk result (λ written. view_written written ≡ word_target (place (own (view_proto scope.now.proto.now)) scope.now.entries.now scope.now.short) taken.old (view_bodies bodies.old) (view_target target)) }
    ensures taken { OnOk result (taken.new ≡ taken_behind_target (view_target target) taken.old) }
    ensures left { OnOk result (view_bodies bodies.new ≡ left_by_target (view_target target) (view_bodies bodies.old)) }
    ensures refused { result ≡ Err NotScheme → can_write_target (place (own (view_proto scope.now.proto.now)) scope.now.entries.now scope.now.short) (view_bodies bodies.old) (view_target target) ≡ false }
    ensures able { OnOk result (can_write_target (place (own (view_proto scope.now.proto.now)) scope.now.entries.now scope.now.short) (view_bodies bodies.old) (view_target target) ≡ true) }
{
    let mut writer = Writer::new(alloc, scope, replace(bodies, Bodies::new(alloc)), *taken);
    let written = match target {
        Target::Local(register) => writer.variable(Variable::Local(register))?,
        Target::Upvalue(number) => writer.variable(Variable::Upvalue(number))?,
        // Its name is taken by the store, behind the values.
        Target::Global(number) => writer.variable(Variable::Global(number))?,
        Target::Index { on, key } => {
            let on = writer.prefix(&on)?;
            writer.with_key(on, &key)?
        }
    };
    writer.finish(bodies, taken);
    Ok(written)
}

/// The expression of a comparison, where so many constants are taken before it.
pub fn write_comparison(
    alloc: Global,
    scope: &Scope<'_>,
    bodies: &mut Bodies,
    comparison: Comparison,
    taken: u32,
) -> Result<Written, CoreFault>
    ensures made { IfOk result (λ written. view_written written ≡ word_comparison (place (own (view_proto scope.now.proto.now)) scope.now.entries.now scope.now.short) taken (view_bodies bodies.old) (view_comparison comparison)) }
    ensures left { OnOk result (view_bodies bodies.new ≡ left_by_comparison (place (own (view_proto scope.now.proto.now)) scope.now.entries.now scope.now.short) taken (view_bodies bodies.old) (view_comparison comparison)) }
    ensures refused { result ≡ Err NotScheme → can_write_comparison (place (own (view_proto scope.now.proto.now)) scope.now.entries.now scope.now.short) taken (view_bodies bodies.old) (view_comparison comparison) ≡ false }
    ensures able { OnOk result (can_write_comparison (place (own (view_proto scope.now.proto.now)) scope.now.entries.now scope.now.short) taken (view_bodies bodies.old) (view_comparison comparison) ≡ true) }
{
    let is_swapped = is_swapped(&comparison, scope.entries.len(), taken);
    let Comparison {
        op,
        left,
        right,
        ..
    } = comparison;
    let mut writer = Writer::new(alloc, scope, replace(bodies, Bodies::new(alloc)), taken);
    let written = if is_swapped {
        writer.binary(mirrored(op), &right, &left)?
    } else {
        writer.binary(op, &left, &right)?
    };
    let mut taken = taken;
    writer.finish(bodies, &mut taken);
    Ok(written)
}

/// The names by which a function statement says a target, or none where it cannot.
pub fn function_path(
    alloc: Global,
    scope: &Scope<'_>,
    target: &Target,
) -> Result<Option<Names>, CoreFault>
    ensures path { IfOk result (λ path. path ≡ path_of (place (own (view_proto scope.now.proto.now)) scope.now.entries.now scope.now.short) (view_target target.now)) }
    ensures refused { result ≡ Err NotScheme → can_have_path (place (own (view_proto scope.now.proto.now)) scope.now.entries.now scope.now.short) (view_target target.now) ≡ false }
    ensures able { OnOk result (can_have_path (place (own (view_proto scope.now.proto.now)) scope.now.entries.now scope.now.short) (view_target target.now) ≡ true) }
{
    let variable = match target {
        Target::Local(register) => Variable::Local(*register),
        Target::Upvalue(number) => Variable::Upvalue(*number),
        Target::Global(number) => Variable::Global(*number),
        Target::Index { on, key } => return field_path(alloc, scope, on, key),
    };
    let names = variable_path(alloc, scope, variable)?;
    Ok(Some(names))
}

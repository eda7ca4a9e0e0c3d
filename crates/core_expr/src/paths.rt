// The paths of function statements.
ghost use Rattle.std.specs.Prelude.{◌≡◌, true, false, [], ◌∷◌, ◌++◌, IfOk, OnOk, Err, is_some};
ghost use Rattle.core_expr.specs.Held.{place_of, name_of, variable_of};
ghost use Rattle.core_expr.specs.Places.{field_name};
ghost use Rattle.core_expr.specs.Targets.{are_fields, long_path, has_long_path, field_path, has_field_path};
ghost use Rattle.core_expr.specs.Values.{view_core, view_operand, operands_of};
ghost use Rattle.core_expr.specs.Writing.{text_or_empty};
ghost use Rattle.core_expr.specs.declared.fault.CoreFault.TheVariants.{NotScheme};

use crate::cores::{Core, Operand};
use crate::fault::CoreFault;
use crate::nodes::copied;
use crate::scope::{Scope, Variable};
use lua_num::Names;
use std::alloc::{AllocError, Global};

/// The path that is a variable alone.
pub fn variable_path(
    alloc: Global,
    scope: &Scope<'_>,
    variable: Variable,
) -> Result<Names, CoreFault>
    ensures path { IfOk result (λ path. path ≡ text_or_empty (name_of (place_of scope.now) variable) ∷ []) }
    ensures refused { result ≡ Err NotScheme → is_some (name_of (place_of scope.now) variable) ≡ false }
    ensures able { OnOk result (is_some (name_of (place_of scope.now) variable) ≡ true) }
{
    let name = scope.name(variable).ok_or(CoreFault::NotScheme)?;
    let mut names = Names::new(alloc);
    names.push(copied(alloc, name)?)?;
    Ok(names)
}

/// The path of `on[key]`, where that is a variable with names alone behind it. It may be longer than any tree is deep.
pub fn field_path(
    alloc: Global,
    scope: &Scope<'_>,
    on: &Core,
    key: &Operand,
) -> Result<Option<Names>, CoreFault>
    ensures path { IfOk result (λ path. path ≡ field_path (place_of scope.now) (view_core on.now) (view_operand key.now)) }
    ensures refused { result ≡ Err NotScheme → has_field_path (place_of scope.now) (view_core on.now) (view_operand key.now) ≡ false }
    ensures able { OnOk result (has_field_path (place_of scope.now) (view_core on.now) (view_operand key.now) ≡ true) }
{
    match on {
        Core::Index { on, keys, .. } => long_path(alloc, scope, on, keys.items(), key),
        _ => long_path(alloc, scope, on, &[], key),
    }
}

// The path of a value with keys behind it and then one more.
fn long_path(
    alloc: Global,
    scope: &Scope<'_>,
    on: &Core,
    keys: &[Operand],
    key: &Operand,
) -> Result<Option<Names>, CoreFault>
    ensures path { IfOk result (λ path. path ≡ long_path (place_of scope.now) (view_core on.now) (operands_of keys.now) (view_operand key.now)) }
    ensures refused { result ≡ Err NotScheme → has_long_path (place_of scope.now) (view_core on.now) (operands_of keys.now) (view_operand key.now) ≡ false }
    ensures able { OnOk result (has_long_path (place_of scope.now) (view_core on.now) (operands_of keys.now) (view_operand key.now) ≡ true) }
{
    let Some(variable) = variable_of(on) else {
        return Ok(None);
    };
    if !are_fields(scope, keys) || scope.field_name(key).is_none() {
        return Ok(None);
    }
    let mut names = variable_path(alloc, scope, variable)?;
    for key in keys {
        push_field(alloc, scope, &mut names, key)?;
    }
    push_field(alloc, scope, &mut names, key)?;
    Ok(Some(names))
}

// The variable that a value is.
fn variable_of(core: &Core) -> Option<Variable>
    ensures { result ≡ variable_of (view_core core.now) }
{
    match core {
        Core::Local(register) => Some(Variable::Local(*register)),
        Core::Upvalue(number) => Some(Variable::Upvalue(*number)),
        Core::Global(number) => Some(Variable::Global(*number)),
        _ => None,
    }
}

// Whether all keys can be written as fields.
fn are_fields(scope: &Scope<'_>, keys: &[Operand]) -> bool
    ensures { result ≡ are_fields (place_of scope.now) (operands_of keys.now) }
{
    for key in keys {
        if scope.field_name(key).is_none() {
            return false;
        }
    }
    true
}

// Appends the name of a field.
fn push_field(
    alloc: Global,
    scope: &Scope<'_>,
    names: &mut Names,
    key: &Operand,
) -> Result<(), AllocError>
    ensures { OnOk result (is_some (field_name (place_of scope.now) (view_operand key.now)) ≡ true → names.new ≡ names.old ++ text_or_empty (field_name (place_of scope.now) (view_operand key.now)) ∷ []) }
{
    if let Some((_, name)) = scope.field_name(key) {
        names.push(copied(alloc, name)?)?;
    }
    Ok(())
}

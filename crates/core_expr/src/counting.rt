// How many constants are taken behind an expression, as writing it would count them.
ghost use Rattle.std.specs.Prelude.{◌≡◌};
ghost use Rattle.core_expr.specs.Counting.{with_constant, taken_behind, taken_behind_operand, taken_behind_values, taken_behind_operands, taken_behind_items};
ghost use Rattle.core_expr.specs.Held.{taken_behind_item};
ghost use Rattle.core_expr.specs.Values.{view_core, view_operand, values_of, operands_of, items_of};

use crate::cores::{Core, CoreItem, Operand};

/// How many constants are taken with one of this number.
pub fn with_constant(taken: u32, number: u32) -> u32
    ensures { result ≡ with_constant taken number }
{
    taken.max(number.saturating_add(1))
}

/// How many constants are taken behind an operand.
#[cycle(counting)]
pub fn taken_behind(operand: &Operand, taken: u32) -> u32
    ensures { result ≡ taken_behind_operand (view_operand operand.now) taken }
{
    match operand {
        Operand::Constant(number) => with_constant(taken, *number),
        Operand::Value(core) => behind_value(core, taken),
    }
}

#[cycle(counting)]
fn behind_value(core: &Core, taken: u32) -> u32
    ensures { result ≡ taken_behind (view_core core.now) taken }
{
    match core {
        Core::Constant(number) | Core::Global(number) => with_constant(taken, *number),
        Core::Index { on, keys, .. } => behind_operands(keys.items(), behind_value(on, taken)),
        Core::Binary { left, right, .. } => taken_behind(right, taken_behind(left, taken)),
        Core::Unary { of, .. } => behind_value(of, taken),
        Core::Concat { operands, .. } => behind_values(operands.items(), taken),
        Core::Call { on, args, .. } => behind_values(args.items(), behind_value(on, taken)),
        Core::Method { on, name, args, .. } => {
            let named = with_constant(behind_value(on, taken), *name);
            behind_values(args.items(), named)
        }
        Core::Table { items, .. } => behind_items(items.items(), taken),
        Core::Nil
        | Core::Bool(_)
        | Core::Local(_)
        | Core::Upvalue(_)
        | Core::Vararg
        | Core::Function { .. } => taken,
    }
}

#[cycle(counting)]
fn behind_values(cores: &[Core], taken: u32) -> u32
    ensures { result ≡ taken_behind_values (values_of cores.now) taken }
{
    let mut taken = taken;
    for core in cores {
        taken = behind_value(core, taken);
    }
    taken
}

#[cycle(counting)]
fn behind_operands(operands: &[Operand], taken: u32) -> u32
    ensures { result ≡ taken_behind_operands (operands_of operands.now) taken }
{
    let mut taken = taken;
    for operand in operands {
        taken = taken_behind(operand, taken);
    }
    taken
}

#[cycle(counting)]
fn behind_items(items: &[CoreItem], taken: u32) -> u32
    ensures { result ≡ taken_behind_items (items_of items.now) taken }
{
    let mut taken = taken;
    for item in items {
        taken = behind_item(item, taken);
    }
    taken
}

#[cycle(counting)]
fn behind_item(item: &CoreItem, taken: u32) -> u32
    ensures { result ≡ taken_behind_item item.now taken }
{
    match item {
        CoreItem::Positional(core) => behind_value(core, taken),
        CoreItem::Keyed(key, value) => taken_behind(value, taken_behind(key, taken)),
    }
}

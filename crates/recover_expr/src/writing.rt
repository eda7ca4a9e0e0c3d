// What the step that is read is written as. `taken` is how many constants are taken before what is written, and then with it.

ghost use Rattle.std.specs.Prelude.{◌≡◌, Some, None, IfOk, IfErr};
ghost use Rattle.core_expr.specs.Targets.{view_target, view_comparison};
ghost use Rattle.core_expr.specs.Values.{view_core, view_operand, view_core_list};
ghost use Rattle.core_expr.specs.Writing.{view_written, view_written_list};
ghost use Rattle.recover_expr.specs.Entries.{IsLostOnlyWhere};
ghost use Rattle.recover_expr.specs.Locals.{view_locals};
ghost use Rattle.recover_expr.specs.Situation.{view_function, view_state};
ghost use Rattle.recover_expr.specs.Writing.{value_written, operand_written, list_written, target_written, comparison_written, path_written};

use crate::function::Function;
use crate::locals::Locals;
use crate::lost::{Lost, made_at};
use crate::state::State;
use core_expr::{
    Comparison, Core, Cores, Operand, Scope, Target, Written, WrittenList, function_path,
    write_comparison, write_expression, write_list, write_operand, write_target,
};
use lua_num::Names;

fn scope<'a>(function: &'a Function, locals: &'a Locals) -> Scope<'a>
    ensures proto { result.proto.now ≡ function.now.proto.now }
    ensures entries { result.entries.now ≡ (view_locals locals.now).active }
    ensures short { result.short ≡ function.now.short }
{
    Scope {
        proto: function.proto,
        entries: locals.active(),
        short: function.short,
    }
}

/// The expression of a value.
pub fn written(
    function: &Function,
    state: &mut State,
    core: Core,
    taken: &mut u32,
) -> Result<Written, Lost>
    ensures wrote { IfOk result (λ written. Some (view_written written, taken.new, view_state state.new) ≡ value_written (view_function function.now) taken.old (view_core core) (view_state state.old)) }
    ensures lost { IfErr result (IsLostOnlyWhere (value_written (view_function function.now) taken.old (view_core core) (view_state state.old) ≡ None)) }
{
    let scope = scope(function, &state.locals);
    let written = write_expression(function.alloc, &scope, &mut state.bodies, core, taken);
    let written = made_at(state.pc, written)?;
    Ok(written)
}

/// The expression of an operand.
pub fn written_operand(
    function: &Function,
    state: &mut State,
    operand: Operand,
    taken: &mut u32,
) -> Result<Written, Lost>
    ensures wrote { IfOk result (λ written. Some (view_written written, taken.new, view_state state.new) ≡ operand_written (view_function function.now) taken.old (view_operand operand) (view_state state.old)) }
    ensures lost { IfErr result (IsLostOnlyWhere (operand_written (view_function function.now) taken.old (view_operand operand) (view_state state.old) ≡ None)) }
{
    let scope = scope(function, &state.locals);
    let written = write_operand(function.alloc, &scope, &mut state.bodies, operand, taken);
    let written = made_at(state.pc, written)?;
    Ok(written)
}

/// The expressions of values.
pub fn written_list(
    function: &Function,
    state: &mut State,
    cores: Cores,
    open: bool,
    taken: &mut u32,
) -> Result<WrittenList, Lost>
    ensures wrote { IfOk result (λ written. Some (view_written_list written, taken.new, view_state state.new) ≡ list_written (view_function function.now) taken.old (record { values = view_core_list cores; all = «open» }) (view_state state.old)) }
    ensures lost { IfErr result (IsLostOnlyWhere (list_written (view_function function.now) taken.old (record { values = view_core_list cores; all = «open» }) (view_state state.old) ≡ None)) }
{
    let scope = scope(function, &state.locals);
    let written = write_list(
        function.alloc,
        &scope,
        &mut state.bodies,
        cores,
        open,
        taken,
    );
    let written = made_at(state.pc, written)?;
    Ok(written)
}

/// The expression of a target.
pub fn written_target(
    function: &Function,
    state: &mut State,
    target: Target,
    taken: &mut u32,
) -> Result<Written, Lost>
    ensures wrote { IfOk result (λ written. Some (view_written written, taken.new, view_state state.new) ≡ target_written (view_function function.now) taken.old (view_target target) (view_state state.old)) }
    ensures lost { IfErr result (IsLostOnlyWhere (target_written (view_function function.now) taken.old (view_target target) (view_state state.old) ≡ None)) }
{
    let scope = scope(function, &state.locals);
    let written = write_target(function.alloc, &scope, &mut state.bodies, target, taken);
    let written = made_at(state.pc, written)?;
    Ok(written)
}

/// The expression of a comparison.
pub fn written_comparison(
    function: &Function,
    state: &mut State,
    comparison: Comparison,
) -> Result<Written, Lost>
    ensures wrote { IfOk result (λ written. Some (view_written written, view_state state.new) ≡ comparison_written (view_function function.now) (view_comparison comparison) (view_state state.old)) }
    ensures lost { IfErr result (IsLostOnlyWhere (comparison_written (view_function function.now) (view_comparison comparison) (view_state state.old) ≡ None)) }
{
    let scope = scope(function, &state.locals);
    let written = write_comparison(
        function.alloc,
        &scope,
        &mut state.bodies,
        comparison,
        state.taken,
    );
    let written = made_at(state.pc, written)?;
    Ok(written)
}

/// The names by which a function statement says a target, or none where it cannot.
pub fn function_path_of(
    function: &Function,
    state: &State,
    target: &Target,
) -> Result<Option<Names>, Lost>
    ensures path { IfOk result (λ path. Some path ≡ path_written (view_function function.now) (view_target target.now) (view_state state.now)) }
    ensures lost { IfErr result (IsLostOnlyWhere (path_written (view_function function.now) (view_target target.now) (view_state state.now) ≡ None)) }
{
    let scope = scope(function, &state.locals);
    let path = made_at(state.pc, function_path(function.alloc, &scope, target))?;
    Ok(path)
}

// Tests.
#![tactic(auto, using(crate::proofs::Blames::free_fits))]

ghost use Rattle.std.specs.Prelude.{◌≡◌, Some, None, IfOk, IfErr};
ghost use Rattle.lua_tree.specs.View.{view_exp};
ghost use Rattle.core_expr.specs.Writing.{view_written};
ghost use Rattle.recover_expr.specs.Drafts.{view_draft};
ghost use Rattle.recover_expr.specs.Entries.{IsLostOnlyWhere};
ghost use Rattle.recover_expr.specs.Faults.{IsFaultOf};
ghost use Rattle.recover_expr.specs.Locals.{IsFaultOnlyWhere};
ghost use Rattle.recover_expr.specs.Situation.{view_function, view_state};
ghost use Rattle.recover_expr.specs.Testing.{view_tested, comparison, tested_by, condition, negated_levels, test_step, test};

use crate::blame::value_logic;
use crate::draft::{Draft, DraftKind};
use crate::fault::Fault;
use crate::function::{Function, Word};
use crate::lost::Lost;
use crate::state::State;
use crate::steps::StepPart;
use crate::writing::{written, written_comparison};
use core_expr::{Comparison, Core, Written};
use lua_tree::{BinaryOp, Exp, ExpKind};
use opcode::{Instr, Op};

/// What a test tests.
#[derive(Drop)]
enum Tested {
    Value(Core),
    Comparison(Comparison),
}

// The operands of a comparison. Where both are registers of the statement, the higher one was made last.
fn comparison(
    function: &Function,
    state: &mut State,
    word: Word,
    op: BinaryOp,
) -> Result<Tested, Lost>
    ensures tested { IfOk result (λ tested. Some (view_tested tested, view_state state.new) ≡ comparison (view_function function.now) word op (view_state state.old)) }
    ensures lost { IfErr result (IsLostOnlyWhere (comparison (view_function function.now) word op (view_state state.old) ≡ None)) }
{
    let Word { pc, instr, .. } = word;
    let Instr { b, c, .. } = instr;
    let (left, right) = if state.stack.is_temporary(c) && state.stack.is_temporary(b) && c < b {
        let left = state.pop_operand(function, b, pc)?;
        (left, state.pop_operand(function, c, pc)?)
    } else {
        let right = state.pop_operand(function, c, pc)?;
        (state.pop_operand(function, b, pc)?, right)
    };
    let comparison = Comparison {
        op,
        b,
        c,
        left,
        right,
    };
    Ok(Tested::Comparison(comparison))
}

fn tested_by(function: &Function, state: &mut State, word: Word) -> Result<Tested, Lost>
    ensures tested { IfOk result (λ tested. Some (view_tested tested, view_state state.new) ≡ tested_by (view_function function.now) word (view_state state.old)) }
    ensures lost { IfErr result (IsLostOnlyWhere (tested_by (view_function function.now) word (view_state state.old) ≡ None)) }
{
    match word.instr.op {
        Op::Eq => comparison(function, state, word, BinaryOp::Eq),
        Op::Lt => comparison(function, state, word, BinaryOp::Lt),
        Op::Le => comparison(function, state, word, BinaryOp::Le),
        _ => {
            let core = state.pop(function, word.instr.a, word.pc)?;
            Ok(Tested::Value(core))
        }
    }
}

fn condition(function: &Function, state: &mut State, tested: Tested) -> Result<Written, Lost>
    ensures wrote { IfOk result (λ written. Some (view_written written, view_state state.new) ≡ condition (view_function function.now) (view_tested tested) (view_state state.old)) }
    ensures lost { IfErr result (IsLostOnlyWhere (condition (view_function function.now) (view_tested tested) (view_state state.old) ≡ None)) }
{
    match tested {
        Tested::Value(core) => {
            let mut taken = state.taken;
            written(function, state, core, &mut taken)
        }
        Tested::Comparison(comparison) => written_comparison(function, state, comparison),
    }
}

// How many levels a condition of so many has where it is negated: `~=` for `==`, and else `not`, with parentheses around a binary operator.
fn negated_levels(exp: &Exp, levels: u32) -> u32
    ensures { result ≡ negated_levels (view_exp exp.now) levels }
{
    let more = match &exp.kind {
        ExpKind::Binary { op, .. } if *op == BinaryOp::Eq => 0,
        ExpKind::Binary { .. } => 2,
        _ => 1,
    };
    levels.saturating_add(more)
}

// The step of a test, with the JMP behind it.
fn test_step(
    function: &Function,
    state: &mut State,
    word: Word,
    jump: Word,
    tested: Tested,
) -> Result<Draft, Lost>
    ensures draft { IfOk result (λ draft. Some (view_draft draft, view_state state.new) ≡ test_step (view_function function.now) word jump (view_tested tested, view_state state.old)) }
    ensures lost { IfErr result (IsLostOnlyWhere (test_step (view_function function.now) word jump (view_tested tested, view_state state.old) ≡ None)) }
{
    let when = match word.instr.op {
        Op::Test => word.instr.c == 1,
        _ => word.instr.a == 1,
    };
    let Written { exp, levels } = condition(function, state, tested)?;
    let kind = DraftKind::Test {
        when,
        target: function.target(jump)?,
        negated: negated_levels(&exp, levels),
    };
    Ok(state.draft(
        kind,
        jump.next,
        levels,
        StepPart::Condition(Box::into_inner(exp)),
    ))
}

/// A test.
pub fn test(function: &Function, state: &mut State, word: Word) -> Result<Draft, Fault>
    ensures fault { IfErr result (IsFaultOf function.now.proto.now) }
    ensures draft { IfOk result (λ draft. Some (view_draft draft, view_state state.new) ≡ test (view_function function.now) word (view_state state.old)) }
    ensures refused { IfErr result (IsFaultOnlyWhere (test (view_function function.now) word (view_state state.old) ≡ None)) }
{
    let jump = function.jump_behind(word)?;
    let tested = tested_by(function, state, word).map_err(Lost::fault)?;
    if !state.stack.is_empty() {
        return Err(value_logic(function.proto, word.pc));
    }
    test_step(function, state, word, jump, tested).map_err(Lost::fault)
}

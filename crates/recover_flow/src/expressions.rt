// Conditions as expressions. All lines are 1.

ghost use Rattle.std.specs.Prelude.{◌≡◌, None, Some, IfErr, IfOk};
ghost use Rattle.lua_tree.specs.Syntax.{parenthesized};
ghost use Rattle.lua_tree.specs.View.{view_exp, view_kind};
ghost use Rattle.recover_flow.specs.Conditions.{view_condition, conditions_of};
ghost use Rattle.recover_flow.specs.Joining.{in_parentheses, joined_expression, not_expression, negation_of, negated_where, condition_expression, first_joined};
ghost use Rattle.recover_flow.specs.Parts.{parts_of, IsGoneOnlyWhere};

use crate::conditions::{Condition, Junction};
use crate::parts::{Parts, Unbuilt};
use lua_tree::{BinaryOp, Exp, ExpKind, UnaryOp};
use std::alloc::{AllocError, Global};

/// A condition as an expression, whose tests are taken.
#[cycle(expression)]
pub fn expression(alloc: Global, parts: &mut Parts, condition: &Condition) -> Result<Exp, Unbuilt>
    ensures made { IfOk result (λ exp. Some (view_exp exp, parts_of parts.new) ≡ condition_expression (view_condition condition.now) (parts_of parts.old)) }
    ensures gone { IfErr result (IsGoneOnlyWhere (condition_expression (view_condition condition.now) (parts_of parts.old) ≡ None)) }
{
    match condition {
        Condition::True => Ok(plain(ExpKind::True)),
        Condition::False => Ok(plain(ExpKind::False)),
        Condition::Test { step, negated } => {
            let test = parts.condition(*step)?;
            Ok(negated_where(alloc, *negated, test)?)
        }
        Condition::Joined {
            junction,
            parts: conditions,
        } => {
            let joined = joined(alloc, parts, *junction, conditions)?;
            Ok(joined)
        }
    }
}

// Conditions joined from the left.
#[cycle(expression)]
fn joined(
    alloc: Global,
    parts: &mut Parts,
    junction: Junction,
    conditions: &[Condition],
) -> Result<Exp, Unbuilt>
    ensures made { IfOk result (λ exp. Some (view_exp exp, parts_of parts.new) ≡ first_joined junction (conditions_of conditions.now) (parts_of parts.old)) }
    ensures gone { IfErr result (IsGoneOnlyWhere (first_joined junction (conditions_of conditions.now) (parts_of parts.old) ≡ None)) }
{
    let Some((first, rest)) = conditions.split_first() else {
        return Err(Unbuilt::Gone);
    };
    let exp = expression(alloc, parts, first)?;
    let mut whole = enclosed_where(alloc, first.is_enclosed(junction, true), exp)?;
    for condition in rest {
        let exp = expression(alloc, parts, condition)?;
        let right = enclosed_where(alloc, condition.is_enclosed(junction, false), exp)?;
        whole = pair(alloc, junction, whole, right)?;
    }
    Ok(whole)
}

// An expression on the first line.
fn plain(kind: ExpKind) -> Exp
    ensures { view_exp result ≡ view_kind kind 1 }
{
    Exp { line: 1, kind }
}

fn enclosed(alloc: Global, exp: Exp) -> Result<Exp, AllocError>
    ensures { IfOk result (λ whole. view_exp whole ≡ parenthesized 1 (view_exp exp)) }
{
    Ok(plain(ExpKind::Paren(Box::new(alloc, exp)?)))
}

fn enclosed_where(alloc: Global, is_enclosed: bool, exp: Exp) -> Result<Exp, AllocError>
    ensures { IfOk result (λ whole. view_exp whole ≡ in_parentheses is_enclosed (view_exp exp)) }
{
    if is_enclosed {
        let whole = enclosed(alloc, exp)?;
        return Ok(whole);
    }
    Ok(exp)
}

fn pair(alloc: Global, junction: Junction, left: Exp, right: Exp) -> Result<Exp, AllocError>
    ensures { IfOk result (λ whole. view_exp whole ≡ joined_expression junction (view_exp left) (view_exp right)) }
{
    let left = Box::new(alloc, left)?;
    let right = Box::new(alloc, right)?;
    match junction {
        Junction::And => Ok(plain(ExpKind::And(left, right))),
        Junction::Or => Ok(plain(ExpKind::Or(left, right))),
    }
}

fn negated_where(alloc: Global, is_negated: bool, exp: Exp) -> Result<Exp, AllocError>
    ensures { IfOk result (λ whole. view_exp whole ≡ negated_where is_negated (view_exp exp)) }
{
    if is_negated {
        let negation = not(alloc, exp)?;
        return Ok(negation);
    }
    Ok(exp)
}

// The negation of an expression. That of `==` is `~=`.
fn not(alloc: Global, exp: Exp) -> Result<Exp, AllocError>
    ensures { IfOk result (λ negation. view_exp negation ≡ negation_of (view_exp exp)) }
{
    let line = exp.line;
    match exp.kind {
        ExpKind::Binary {
            op: BinaryOp::Eq,
            left,
            right,
        } => Ok(plain(ExpKind::Binary {
            op: BinaryOp::Ne,
            left,
            right,
        })),
        ExpKind::Binary { op, left, right } => {
            let kind = ExpKind::Binary { op, left, right };
            let inner = enclosed(alloc, Exp { line, kind })?;
            let negation = not_of(alloc, inner)?;
            Ok(negation)
        }
        kind => {
            let negation = not_of(alloc, Exp { line, kind })?;
            Ok(negation)
        }
    }
}

fn not_of(alloc: Global, exp: Exp) -> Result<Exp, AllocError>
    ensures { IfOk result (λ negation. view_exp negation ≡ not_expression (view_exp exp)) }
{
    Ok(plain(ExpKind::Unary {
        op: UnaryOp::Not,
        of: Box::new(alloc, exp)?,
    }))
}

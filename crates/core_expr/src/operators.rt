// Operators, with their operands in parentheses where they bind too loosely.
ghost use Rattle.std.specs.Prelude.{◌≡◌, false, true, not, [], map, IfOk, OnOk, Err};
ghost use Rattle.lua_tree.specs.Precedence.{level_of_op, level_of, is_unary, is_right_associative, left_binds};
ghost use Rattle.lua_tree.specs.View.{view_exp};
ghost use Rattle.core_expr.specs.Held.{stands_bare};
ghost use Rattle.core_expr.specs.Writing.{unless, is_power, joined, applied, chain, view_written};
ghost use Rattle.core_expr.specs.declared.fault.CoreFault.TheVariants.{NotScheme};

use crate::fault::CoreFault;
use crate::nodes::{binary, parenthesized, unary};
use crate::scope::Written;
use lua_tree::{BinaryOp, Exp, UnaryOp};
use std::alloc::{AllocError, Global};
use well_formed::{UNARY_LEVEL, is_right_associative, is_unary, level_of, level_of_op};

// A place beside an operator.
#[derive(Clone, Copy)]
struct Place {
    level: u32,
    is_right: bool,
    // Whether what binds as strongly as the operator stands here bare.
    takes_equal: bool,
}

impl Place {
    fn left_of(op: BinaryOp) -> Self
        ensures { result ≡ record { level = level_of_op op; is_right = false; takes_equal = not (is_right_associative op) } }
    {
        Self {
            level: level_of_op(op),
            is_right: false,
            takes_equal: !is_right_associative(op),
        }
    }

    // Behind `..` stands its last operand, which is in parentheses where it is a `..` of its own.
    fn right_of(op: BinaryOp) -> Self
        ensures { result ≡ record { level = level_of_op op; is_right = true; takes_equal = is_power op } }
    {
        Self {
            level: level_of_op(op),
            is_right: true,
            takes_equal: is_power(op),
        }
    }

    // Whether an expression stands here without parentheses. On the right one that begins with an operator does.
    fn takes(self, exp: &Exp) -> bool
        ensures { result ≡ stands_bare self.level self.is_right self.takes_equal (view_exp exp.now) }
    {
        if self.is_right && is_unary(exp) {
            return true;
        }
        let level = level_of(exp);
        if self.takes_equal {
            self.level <= level
        } else {
            self.level < level
        }
    }
}

fn is_power(op: BinaryOp) -> bool
    ensures { result ≡ is_power op }
{
    matches!(op, BinaryOp::Pow)
}

// An operand at its place.
fn placed(alloc: Global, operand: Written, place: Place) -> Result<Written, AllocError>
    ensures { IfOk result (λ written. view_written written ≡ unless (stands_bare place.level place.is_right place.takes_equal (view_written operand).words) (view_written operand)) }
{
    if place.takes(&operand.exp) {
        Ok(operand)
    } else {
        parenthesized(alloc, operand)
    }
}

/// An operator between two operands.
pub fn joined(
    alloc: Global,
    op: BinaryOp,
    left: Written,
    right: Written,
) -> Result<Written, AllocError>
    ensures { IfOk result (λ written. view_written written ≡ joined op (view_written left) (view_written right)) }
{
    let left = placed(alloc, left, Place::left_of(op))?;
    let right = placed(alloc, right, Place::right_of(op))?;
    binary(alloc, op, left, right)
}

/// Operands joined by `..`, of which there is one at least.
pub fn chained(alloc: Global, operands: Vec<Written>) -> Result<Written, CoreFault>
    ensures made { IfOk result (λ written. view_written written ≡ chain (map view_written operands.items)) }
    ensures refused { result ≡ Err NotScheme → operands.items ≡ [] }
    ensures able { OnOk result (operands.items ≡ [] → ⊥) }
{
    let mut operands = operands;
    let Some(last) = operands.pop() else {
        return Err(CoreFault::NotScheme);
    };
    let mut chain = placed(alloc, last, Place::right_of(BinaryOp::Concat))?;
    while let Some(operand) = operands.pop() {
        let operand = placed(alloc, operand, Place::left_of(BinaryOp::Concat))?;
        chain = binary(alloc, BinaryOp::Concat, operand, chain)?;
    }
    Ok(chain)
}

/// An operator before an operand.
pub fn applied(alloc: Global, op: UnaryOp, of: Written) -> Result<Written, AllocError>
    ensures { IfOk result (λ written. view_written written ≡ applied op (view_written of)) }
{
    let of = if binds_looser(&of.exp) {
        parenthesized(alloc, of)?
    } else {
        of
    };
    unary(alloc, op, of)
}

// Whether it binds more loosely than an operator before an operand.
fn binds_looser(exp: &Exp) -> bool
    ensures { result ≡ not (left_binds 7 false (view_exp exp.now)) }
{
    level_of(exp) < UNARY_LEVEL
}

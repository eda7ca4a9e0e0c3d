// Constants as expressions.
ghost use Rattle.std.specs.Prelude.{◌≡◌, take, IfOk};
ghost use Rattle.std.specs.List.{list_any};
ghost use Rattle.core_expr.specs.Held.{place_of};
ghost use Rattle.core_expr.specs.Writing.{literal, numeral, is_literal, has_no_number, view_written};

use crate::nodes::{binary, copied, nil, single, truth, unary};
use crate::scope::{MOST_SMALL, Scope, Written};
use lua_tree::{BinaryOp, ExpKind, UnaryOp};
use proto::Constant;
use std::alloc::{AllocError, Global};

/// The expression of a constant.
pub fn literal(alloc: Global, constant: &Constant) -> Result<Written, AllocError>
    ensures { IfOk result (λ written. view_written written ≡ literal constant.now) }
{
    match constant {
        Constant::Nil => nil(alloc),
        Constant::Bool(value) => truth(alloc, *value),
        Constant::Number(number) => numeral(alloc, *number),
        Constant::Text(text) => {
            let text = copied(alloc, text)?;
            single(alloc, ExpKind::Text(text))
        }
    }
}

// A number. No numeral is below 0, and the least number is the negation of none.
fn numeral(alloc: Global, number: i64) -> Result<Written, AllocError>
    ensures { IfOk result (λ written. view_written written ≡ numeral number) }
{
    if number >= 0 {
        return single(alloc, ExpKind::Number(number));
    }
    match number.checked_neg() {
        Some(size) => {
            let size = single(alloc, ExpKind::Number(size))?;
            unary(alloc, UnaryOp::Neg, size)
        }
        None => {
            let most = single(alloc, ExpKind::Number(i64::MAX))?;
            let next = unary(alloc, UnaryOp::Neg, most)?;
            let one = single(alloc, ExpKind::Number(1))?;
            binary(alloc, BinaryOp::Sub, next, one)
        }
    }
}

/// Whether `nil`, `true` or `false` that is not among the constants would be no operand of a word, so many being taken: there is no number left for it.
pub fn has_no_number(scope: &Scope<'_>, taken: u32, literal: &Constant) -> bool
    ensures { result ≡ has_no_number (place_of scope.now) taken literal.now }
{
    taken > MOST_SMALL && !is_small(scope, literal)
}

// Whether it is a constant with a number that a word can have as an operand.
fn is_small(scope: &Scope<'_>, literal: &Constant) -> bool
    ensures { result ≡ list_any (is_literal literal.now) (take 256 (place_of scope.now).of.constants) }
{
    let constants = scope.proto.constants.items();
    let count = constants.len().min(MOST_SMALL as usize + 1);
    is_among(&constants[..count], literal)
}

fn is_among(constants: &[Constant], literal: &Constant) -> bool
    ensures { result ≡ list_any (is_literal literal.now) constants.now }
{
    for constant in constants {
        if is_literal(literal, constant) {
            return true;
        }
    }
    false
}

// Whether a constant is this `nil`, `true` or `false`.
fn is_literal(literal: &Constant, constant: &Constant) -> bool
    ensures { result ≡ is_literal literal.now constant.now }
{
    match (literal, constant) {
        (Constant::Nil, Constant::Nil) => true,
        (Constant::Bool(wanted), Constant::Bool(value)) => wanted == value,
        _ => false,
    }
}

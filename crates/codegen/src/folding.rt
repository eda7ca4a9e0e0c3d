// Folding of numbers, and literals.
ghost use Rattle.std.specs.Prelude.{◌≡◌, None, Some, IfOk};
ghost use Rattle.std.specs.Result.{result_ok};
ghost use Rattle.lua_num.specs.Arith.{outcome};
ghost use Rattle.lua_tree.specs.View.{view_exp};
ghost use Rattle.scheme.specs.Expressions as parts;
ghost use Rattle.codegen.specs.Arithmetic.{word_of};

use lua_num::{ArithOp, ByteText, add, div, mul, neg, pow, rem, sub};
use lua_tree::{BinaryOp, Exp, ExpKind, UnaryOp};
use opcode::Op;
use proto::Constant;
use std::alloc::{AllocError, Global};

/// The operator of arithmetic that an operator is.
pub fn arith_op(op: BinaryOp) -> Option<ArithOp>
    ensures { result ≡ parts.arith_op op }
{
    match op {
        BinaryOp::Add => Some(ArithOp::Add),
        BinaryOp::Sub => Some(ArithOp::Sub),
        BinaryOp::Mul => Some(ArithOp::Mul),
        BinaryOp::Div => Some(ArithOp::Div),
        BinaryOp::Rem => Some(ArithOp::Rem),
        BinaryOp::Pow => Some(ArithOp::Pow),
        BinaryOp::Concat
        | BinaryOp::Eq
        | BinaryOp::Ne
        | BinaryOp::Lt
        | BinaryOp::Le
        | BinaryOp::Gt
        | BinaryOp::Ge => None,
    }
}

/// The word of an operator of arithmetic.
pub fn arith_word(op: BinaryOp) -> Option<Op>
    ensures { result ≡ word_of op }
{
    match op {
        BinaryOp::Add => Some(Op::Add),
        BinaryOp::Sub => Some(Op::Sub),
        BinaryOp::Mul => Some(Op::Mul),
        BinaryOp::Div => Some(Op::Div),
        BinaryOp::Rem => Some(Op::Mod),
        BinaryOp::Pow => Some(Op::Pow),
        BinaryOp::Concat
        | BinaryOp::Eq
        | BinaryOp::Ne
        | BinaryOp::Lt
        | BinaryOp::Le
        | BinaryOp::Gt
        | BinaryOp::Ge => None,
    }
}

// An operator on two numbers, unless it fails.
fn on_numbers(op: ArithOp, a: i64, b: i64) -> Option<i64>
    ensures { result ≡ result_ok (outcome op a b) }
{
    match op {
        ArithOp::Add => Some(add(a, b)),
        ArithOp::Sub => Some(sub(a, b)),
        ArithOp::Mul => Some(mul(a, b)),
        ArithOp::Div => div(a, b).ok(),
        ArithOp::Rem => rem(a, b).ok(),
        ArithOp::Pow => pow(a, b).ok(),
    }
}

fn on_both(op: Option<ArithOp>, left: Option<i64>, right: Option<i64>) -> Option<i64>
    ensures { result ≡ parts.fold_binary op left right }
{
    match (op, left, right) {
        (Some(op), Some(a), Some(b)) => on_numbers(op, a, b),
        _ => None,
    }
}

fn on_one(op: UnaryOp, of: Option<i64>) -> Option<i64>
    ensures { result ≡ parts.fold_unary op of }
{
    match (op, of) {
        (UnaryOp::Neg, Some(n)) => Some(neg(n)),
        _ => None,
    }
}

/// The number of a folded expression.
pub fn folded(e: &Exp) -> Option<i64>
    ensures { result ≡ parts.fold (view_exp e.now) }
{
    match &e.kind {
        ExpKind::Number(n) => Some(*n),
        ExpKind::Paren(inner) => folded(inner),
        ExpKind::Unary { op, of } => on_one(*op, folded(of)),
        ExpKind::Binary { op, left, right } => on_both(arith_op(*op), folded(left), folded(right)),
        _ => None,
    }
}

// The constant of a literal that is no number.
fn plain_literal(alloc: Global, e: &Exp) -> Result<Option<Constant>, AllocError>
    ensures { IfOk result (λ k. k ≡ parts.plain_literal (view_exp e.now)) }
{
    match &e.kind {
        ExpKind::Nil => Ok(Some(Constant::Nil)),
        ExpKind::True => Ok(Some(Constant::Bool(true))),
        ExpKind::False => Ok(Some(Constant::Bool(false))),
        ExpKind::Text(text) => {
            let text = ByteText::from_slice(alloc, text.bytes())?;
            Ok(Some(Constant::Text(text)))
        }
        _ => Ok(None),
    }
}

/// The constant of a literal.
pub fn literal(alloc: Global, e: &Exp) -> Result<Option<Constant>, AllocError>
    ensures { IfOk result (λ k. k ≡ parts.literal (view_exp e.now)) }
{
    match folded(e) {
        Some(n) => Ok(Some(Constant::Number(n))),
        None => plain_literal(alloc, e),
    }
}

/// The constant of a folded expression.
pub fn numeral(e: &Exp) -> Option<Constant>
    ensures { result ≡ parts.number_or (parts.fold (view_exp e.now)) None }
{
    folded(e).map(|n| Constant::Number(n))
}

/// Whether a literal counts as true.
pub fn is_true(k: &Constant) -> bool
    ensures { result ≡ parts.is_true_constant k.now }
{
    match k {
        Constant::Nil => false,
        Constant::Bool(truth) => *truth,
        Constant::Number(_) | Constant::Text(_) => true,
    }
}

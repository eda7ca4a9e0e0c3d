// What an expression is.
ghost use Rattle.std.specs.Prelude.{◌≡◌, IfOk};
ghost use Rattle.lua_tree.specs.View.{view_exp};
ghost use Rattle.lua_tree.specs.WellFormed.{is_call as the_is_call};
ghost use Rattle.scheme.specs.Expressions as parts;

use lua_tree::{BinaryOp, Exp, ExpKind, UnaryOp};
use opcode::Op;

/// Whether an expression is a name, in parentheses or not.
pub fn is_name(e: &Exp) -> bool
    ensures { result ≡ parts.is_name (view_exp e.now) }
{
    match &e.kind {
        ExpKind::Paren(inner) => is_name(inner),
        ExpKind::Name(_) => true,
        _ => false,
    }
}

/// Whether an expression is a call, of a function or a method.
pub fn is_call(e: &Exp) -> bool
    ensures { result ≡ the_is_call (view_exp e.now) }
{
    matches!(&e.kind, ExpKind::Call { .. } | ExpKind::Method { .. })
}

/// Whether an expression is `...`.
pub fn is_vararg(e: &Exp) -> bool
    ensures { result ≡ parts.is_vararg (view_exp e.now) }
{
    matches!(&e.kind, ExpKind::Vararg)
}

/// Whether an expression can give several values.
pub fn is_multiple(e: &Exp) -> bool
    ensures { result ≡ parts.is_multiple (view_exp e.now) }
{
    is_call(e) || is_vararg(e)
}

/// Whether an operator compares.
pub fn is_comparison(op: BinaryOp) -> bool
    ensures { result ≡ parts.is_comparison op }
{
    match op {
        BinaryOp::Eq | BinaryOp::Ne | BinaryOp::Lt | BinaryOp::Le | BinaryOp::Gt | BinaryOp::Ge =>
            true,
        BinaryOp::Add
        | BinaryOp::Sub
        | BinaryOp::Mul
        | BinaryOp::Div
        | BinaryOp::Rem
        | BinaryOp::Pow
        | BinaryOp::Concat => false,
    }
}

/// The word of a unary operator.
pub fn unary_word(op: UnaryOp) -> Op
    ensures { result ≡ parts.unary_word op }
{
    match op {
        UnaryOp::Neg => Op::Unm,
        UnaryOp::Not => Op::Not,
        UnaryOp::Len => Op::Len,
    }
}

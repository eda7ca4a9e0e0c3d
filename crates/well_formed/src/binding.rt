// How tightly expressions bind (manual 2.5.6).
ghost use Rattle.std.specs.Prelude.{◌≡◌};
ghost use Rattle.lua_tree.specs.Precedence.{level_of_op, level_of, is_unary, is_right_associative, left_binds, right_binds};
ghost use Rattle.lua_tree.specs.View.{view_exp};

use lua_tree::{BinaryOp, Exp, ExpKind};

/// How strongly an operator before its operand binds.
pub const UNARY_LEVEL: u32 = 7;

/// How strongly an operator between its operands binds.
pub fn level_of_op(op: BinaryOp) -> u32
    ensures { result ≡ level_of_op op }
{
    match op {
        BinaryOp::Eq | BinaryOp::Ne | BinaryOp::Lt | BinaryOp::Le | BinaryOp::Gt | BinaryOp::Ge =>
            3,
        BinaryOp::Concat => 4,
        BinaryOp::Add | BinaryOp::Sub => 5,
        BinaryOp::Mul | BinaryOp::Div | BinaryOp::Rem => 6,
        BinaryOp::Pow => 8,
    }
}

/// How strongly an expression binds: from 1, an `or`, to 9, what stands for itself.
pub fn level_of(exp: &Exp) -> u32
    ensures { result ≡ level_of (view_exp exp.now) }
{
    match &exp.kind {
        ExpKind::Or(_, _) => 1,
        ExpKind::And(_, _) => 2,
        ExpKind::Binary { op, .. } => level_of_op(*op),
        ExpKind::Unary { .. } => UNARY_LEVEL,
        _ => 9,
    }
}

/// Whether an expression is an operator before its operand.
pub fn is_unary(exp: &Exp) -> bool
    ensures { result ≡ is_unary (view_exp exp.now) }
{
    matches!(&exp.kind, ExpKind::Unary { .. })
}

/// Whether a row of operators is read from the right: that of `..`, and of `^`.
pub fn is_right_associative(op: BinaryOp) -> bool
    ensures { result ≡ is_right_associative op }
{
    matches!(op, BinaryOp::Concat | BinaryOp::Pow)
}

/// Whether the left operand of an operator of a level needs no parentheses.
pub fn left_binds(level: u32, right_associative: bool, exp: &Exp) -> bool
    ensures { result ≡ left_binds level right_associative (view_exp exp.now) }
{
    if right_associative {
        level < level_of(exp)
    } else {
        level <= level_of(exp)
    }
}

/// Whether the right operand of an operator of a level needs no parentheses: an operator before its operand never does there.
pub fn right_binds(level: u32, right_associative: bool, exp: &Exp) -> bool
    ensures { result ≡ right_binds level right_associative (view_exp exp.now) }
{
    if is_unary(exp) {
        return true;
    }
    if right_associative {
        level <= level_of(exp)
    } else {
        level < level_of(exp)
    }
}

// How the operators of an expression group.
use crate::trees::tree_of;
use lua_tree::{BinaryOp, Exp, ExpKind, StatKind, Tree, UnaryOp};
use std::alloc::{AllocError, Global};

/// The first expression that a source assigns, with its operators in front; what is no operator, name or number is `?`.
pub(crate) fn grouped(alloc: Global, source: &[u8]) -> Result<String, AllocError> {
    match tree_of(alloc, source)? {
        Ok(tree) => {
            let mut text = String::new(alloc);
            if let Some(expression) = first_expression(&tree) {
                put_expression(alloc, &mut text, expression)?;
            }
            Ok(text)
        }
        Err(fault) => Ok(fault),
    }
}

fn first_expression(tree: &Tree) -> Option<&Exp> {
    match &tree.body.items().first()?.kind {
        StatKind::Assign { exps, .. } => exps.items().first(),
        _ => None,
    }
}

fn put_expression(alloc: Global, out: &mut String, expression: &Exp) -> Result<(), AllocError> {
    match &expression.kind {
        ExpKind::Number(n) => out.push_str(&format!(in alloc; "{n}")?),
        ExpKind::Name(name) => out.push_str(&format!(in alloc; "{}", name.bytes().escape_ascii())?),
        ExpKind::And(left, right) => {
            out.push_str("(and ")?;
            put_expression(alloc, out, left)?;
            out.push_str(" ")?;
            put_expression(alloc, out, right)?;
            out.push_str(")")
        }
        ExpKind::Or(left, right) => {
            out.push_str("(or ")?;
            put_expression(alloc, out, left)?;
            out.push_str(" ")?;
            put_expression(alloc, out, right)?;
            out.push_str(")")
        }
        ExpKind::Binary { op, left, right } => {
            out.push_str(&format!(in alloc; "({} ", op_text(*op))?)?;
            put_expression(alloc, out, left)?;
            out.push_str(" ")?;
            put_expression(alloc, out, right)?;
            out.push_str(")")
        }
        ExpKind::Unary { op, of } => {
            out.push_str(&format!(in alloc; "({} ", unary_text(*op))?)?;
            put_expression(alloc, out, of)?;
            out.push_str(")")
        }
        ExpKind::Paren(inner) => put_expression(alloc, out, inner),
        _ => out.push_str("?"),
    }
}

fn op_text(op: BinaryOp) -> &'static str {
    match op {
        BinaryOp::Add => "+",
        BinaryOp::Sub => "-",
        BinaryOp::Mul => "*",
        BinaryOp::Div => "/",
        BinaryOp::Rem => "%",
        BinaryOp::Pow => "^",
        BinaryOp::Concat => "..",
        BinaryOp::Eq => "==",
        BinaryOp::Ne => "~=",
        BinaryOp::Lt => "<",
        BinaryOp::Le => "<=",
        BinaryOp::Gt => ">",
        BinaryOp::Ge => ">=",
    }
}

fn unary_text(op: UnaryOp) -> &'static str {
    match op {
        UnaryOp::Neg => "-",
        UnaryOp::Not => "not",
        UnaryOp::Len => "#",
    }
}

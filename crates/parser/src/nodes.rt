// Expressions from their parts, each in a box.
ghost use Rattle.std.specs.Prelude.{◌≡◌, IfOk};
ghost use Rattle.lua_tree.specs.View.{view_exp, view_kind, view_args, view_body, view_items};
ghost use Rattle.lua_tree.specs.Syntax.{name_expression, unary_expression, parenthesized as parenthesized_of, field_expression, index_expression, method_call, call_expression, function_expression, constructor as constructor_of};
ghost use Rattle.parser.specs.Operators.{infix_expression};

use crate::operator::Infix;
use lua_num::ByteText;
use lua_tree::{Args, Body, Exp, ExpKind, Items, UnaryOp};
use std::alloc::{AllocError, Global};

/// An expression with its line.
pub fn boxed(alloc: Global, line: u32, kind: ExpKind) -> Result<Box<Exp>, AllocError>
    ensures { IfOk result (λ e. view_exp e.value ≡ view_kind kind line) }
{
    let exp = Box::new(alloc, Exp { line, kind })?;
    Ok(exp)
}

/// A name as an expression.
pub fn named(alloc: Global, line: u32, name: ByteText) -> Result<Box<Exp>, AllocError>
    ensures { IfOk result (λ e. view_exp e.value ≡ name_expression line name) }
{
    boxed(alloc, line, ExpKind::Name(name))
}

/// A function.
pub fn function(alloc: Global, line: u32, body: Body) -> Result<Box<Exp>, AllocError>
    ensures { IfOk result (λ e. view_exp e.value ≡ function_expression line (view_body body)) }
{
    boxed(alloc, line, ExpKind::Function(body))
}

/// A constructor.
pub fn constructor(alloc: Global, line: u32, items: Items) -> Result<Box<Exp>, AllocError>
    ensures { IfOk result (λ e. view_exp e.value ≡ constructor_of line (view_items items)) }
{
    boxed(alloc, line, ExpKind::Table(items))
}

/// A unary operator with its operand.
pub fn unary(alloc: Global, line: u32, op: UnaryOp, of: Box<Exp>) -> Result<Box<Exp>, AllocError>
    ensures { IfOk result (λ e. view_exp e.value ≡ unary_expression line op (view_exp of.value)) }
{
    boxed(alloc, line, ExpKind::Unary { op, of })
}

/// An operator between its operands: `and` and `or` have the line of the first token.
pub fn operation(
    alloc: Global,
    start: u32,
    line: u32,
    op: Infix,
    left: Box<Exp>,
    right: Box<Exp>,
) -> Result<Box<Exp>, AllocError>
    ensures { IfOk result (λ e. view_exp e.value ≡ infix_expression start line op (view_exp left.value) (view_exp right.value)) }
{
    match op {
        Infix::And => boxed(alloc, start, ExpKind::And(left, right)),
        Infix::Or => boxed(alloc, start, ExpKind::Or(left, right)),
        Infix::Binary(op) => boxed(alloc, line, ExpKind::Binary { op, left, right }),
    }
}

/// An expression in parentheses.
pub fn parenthesized(alloc: Global, line: u32, inner: Box<Exp>) -> Result<Box<Exp>, AllocError>
    ensures { IfOk result (λ e. view_exp e.value ≡ parenthesized_of line (view_exp inner.value)) }
{
    boxed(alloc, line, ExpKind::Paren(inner))
}

/// A field of an expression.
pub fn field(alloc: Global, line: u32, on: Box<Exp>, name: ByteText) -> Result<Box<Exp>, AllocError>
    ensures { IfOk result (λ e. view_exp e.value ≡ field_expression line (view_exp on.value) name) }
{
    boxed(alloc, line, ExpKind::Field { on, name })
}

/// An expression indexed by a key in brackets.
pub fn index(alloc: Global, line: u32, on: Box<Exp>, key: Box<Exp>) -> Result<Box<Exp>, AllocError>
    ensures { IfOk result (λ e. view_exp e.value ≡ index_expression line (view_exp on.value) (view_exp key.value)) }
{
    boxed(alloc, line, ExpKind::Index { on, key })
}

/// A call of a method.
pub fn method(
    alloc: Global,
    line: u32,
    on: Box<Exp>,
    name: ByteText,
    args: Args,
    on_line: u32,
) -> Result<Box<Exp>, AllocError>
    ensures { IfOk result (λ e. view_exp e.value ≡ method_call line (view_exp on.value) name (view_args args) on_line) }
{
    boxed(
        alloc,
        line,
        ExpKind::Method {
            on,
            name,
            args,
            on_line,
        },
    )
}

/// A call.
pub fn call(
    alloc: Global,
    line: u32,
    on: Box<Exp>,
    args: Args,
    on_line: u32,
) -> Result<Box<Exp>, AllocError>
    ensures { IfOk result (λ e. view_exp e.value ≡ call_expression line (view_exp on.value) (view_args args) on_line) }
{
    boxed(alloc, line, ExpKind::Call { on, args, on_line })
}

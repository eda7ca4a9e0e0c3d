// What the next token begins.
ghost use Rattle.std.specs.Prelude.{◌≡◌, option_copied};
ghost use Rattle.parser.specs.Classes.{start_of, suffix_of, is_block_end, text_of, name_of as the_name_of};
ghost use Rattle.parser.specs.Operators.{infix_of, unary_of};

use crate::operator::Infix;
use lua_num::ByteText;
use lua_tree::{BinaryOp, TokenKind, UnaryOp, is_name};

/// What an expression that begins with a name or a parenthesis is read for.
#[derive(Clone, Copy, Debug, PartialEq, Eq)]
pub enum Role {
    /// A part of an expression.
    Operand,
    /// The beginning of a statement: a call, or the first target of an assignment.
    Statement,
    /// A further target.
    Target,
}

/// The statement that a token begins.
#[derive(Clone, Copy, Debug, PartialEq, Eq)]
pub enum Start {
    If,
    While,
    Do,
    For,
    Repeat,
    Function,
    Local,
    Return,
    Break,
    Expression,
}

/// What a token adds to a prefix expression.
#[derive(Clone, Copy, Debug, PartialEq, Eq)]
pub enum Suffix {
    Field,
    Index,
    Method,
    Call,
    Missing,
}

/// Whether a token ends a block, as the end of the tokens does.
pub fn is_block_end(kind: Option<&TokenKind>) -> bool
    ensures { result ≡ is_block_end (option_copied kind.entry) }
{
    match kind {
        None | Some(TokenKind::End | TokenKind::Else | TokenKind::Elseif | TokenKind::Until) =>
            true,
        Some(_) => false,
    }
}

/// The statement that a token begins.
pub fn start_of(kind: Option<&TokenKind>) -> Start
    ensures { result ≡ start_of (option_copied kind.entry) }
{
    match kind {
        Some(TokenKind::If) => Start::If,
        Some(TokenKind::While) => Start::While,
        Some(TokenKind::Do) => Start::Do,
        Some(TokenKind::For) => Start::For,
        Some(TokenKind::Repeat) => Start::Repeat,
        Some(TokenKind::Function) => Start::Function,
        Some(TokenKind::Local) => Start::Local,
        Some(TokenKind::Return) => Start::Return,
        Some(TokenKind::Break) => Start::Break,
        _ => Start::Expression,
    }
}

/// What a token adds to a prefix expression.
pub fn suffix_of(kind: Option<&TokenKind>) -> Suffix
    ensures { result ≡ suffix_of (option_copied kind.entry) }
{
    match kind {
        Some(TokenKind::Dot) => Suffix::Field,
        Some(TokenKind::OpenBracket) => Suffix::Index,
        Some(TokenKind::Colon) => Suffix::Method,
        Some(TokenKind::OpenParen | TokenKind::OpenBrace | TokenKind::Text(_)) => Suffix::Call,
        _ => Suffix::Missing,
    }
}

/// The operator between two operands that a token is.
pub fn infix_of(kind: Option<&TokenKind>) -> Option<Infix>
    ensures { result ≡ infix_of (option_copied kind.entry) }
{
    let op = match kind {
        Some(TokenKind::And) => return Some(Infix::And),
        Some(TokenKind::Or) => return Some(Infix::Or),
        Some(TokenKind::Plus) => BinaryOp::Add,
        Some(TokenKind::Minus) => BinaryOp::Sub,
        Some(TokenKind::Star) => BinaryOp::Mul,
        Some(TokenKind::Slash) => BinaryOp::Div,
        Some(TokenKind::Percent) => BinaryOp::Rem,
        Some(TokenKind::Caret) => BinaryOp::Pow,
        Some(TokenKind::DotDot) => BinaryOp::Concat,
        Some(TokenKind::EqualEqual) => BinaryOp::Eq,
        Some(TokenKind::TildeEqual) => BinaryOp::Ne,
        Some(TokenKind::Less) => BinaryOp::Lt,
        Some(TokenKind::LessEqual) => BinaryOp::Le,
        Some(TokenKind::Greater) => BinaryOp::Gt,
        Some(TokenKind::GreaterEqual) => BinaryOp::Ge,
        _ => return None,
    };
    Some(Infix::Binary(op))
}

/// The unary operator that a token is.
pub fn unary_of(kind: Option<&TokenKind>) -> Option<UnaryOp>
    ensures { result ≡ unary_of (option_copied kind.entry) }
{
    match kind {
        Some(TokenKind::Minus) => Some(UnaryOp::Neg),
        Some(TokenKind::Not) => Some(UnaryOp::Not),
        Some(TokenKind::Hash) => Some(UnaryOp::Len),
        _ => None,
    }
}

/// The text that a token is.
pub fn text_of<'a>(kind: Option<&'a TokenKind>) -> Option<&'a ByteText>
    ensures { option_copied result ≡ text_of (option_copied kind.entry) }
{
    match kind {
        Some(TokenKind::Text(text)) => Some(text),
        _ => None,
    }
}

/// The name that a token is, where its text is a name.
pub fn name_of<'a>(kind: Option<&'a TokenKind>) -> Option<&'a ByteText>
    ensures { option_copied result ≡ the_name_of (option_copied kind.entry) }
{
    match kind {
        Some(TokenKind::Name(name)) if is_name(name.bytes()) => Some(name),
        _ => None,
    }
}

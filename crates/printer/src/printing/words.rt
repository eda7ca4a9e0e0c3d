// The texts of keywords and marks.
ghost use Rattle.std.specs.Prelude.{◌≡◌};
ghost use Rattle.printer.specs.Sheets.{word_text};

use lua_tree::{BinaryOp, TokenKind, UnaryOp};

/// The text of a keyword or a mark. A name, a numeral and a text have none of this kind: it is empty.
pub fn word_text(kind: &TokenKind) -> &'static [u8]
    ensures { result.now ≡ word_text kind.now }
{
    match kind {
        TokenKind::Name(_) | TokenKind::Number(_) | TokenKind::Text(_) => b"",
        TokenKind::And => b"and",
        TokenKind::Break => b"break",
        TokenKind::Do => b"do",
        TokenKind::Else => b"else",
        TokenKind::Elseif => b"elseif",
        TokenKind::End => b"end",
        TokenKind::False => b"false",
        TokenKind::For => b"for",
        TokenKind::Function => b"function",
        TokenKind::If => b"if",
        TokenKind::In => b"in",
        TokenKind::Local => b"local",
        TokenKind::Nil => b"nil",
        TokenKind::Not => b"not",
        TokenKind::Or => b"or",
        TokenKind::Repeat => b"repeat",
        TokenKind::Return => b"return",
        TokenKind::Then => b"then",
        TokenKind::True => b"true",
        TokenKind::Until => b"until",
        TokenKind::While => b"while",
        TokenKind::Plus => b"+",
        TokenKind::Minus => b"-",
        TokenKind::Star => b"*",
        TokenKind::Slash => b"/",
        TokenKind::Percent => b"%",
        TokenKind::Caret => b"^",
        TokenKind::Hash => b"#",
        TokenKind::EqualEqual => b"==",
        TokenKind::TildeEqual => b"~=",
        TokenKind::LessEqual => b"<=",
        TokenKind::GreaterEqual => b">=",
        TokenKind::Less => b"<",
        TokenKind::Greater => b">",
        TokenKind::Equal => b"=",
        TokenKind::OpenParen => b"(",
        TokenKind::CloseParen => b")",
        TokenKind::OpenBrace => b"{",
        TokenKind::CloseBrace => b"}",
        TokenKind::OpenBracket => b"[",
        TokenKind::CloseBracket => b"]",
        TokenKind::Semicolon => b";",
        TokenKind::Colon => b":",
        TokenKind::Comma => b",",
        TokenKind::Dot => b".",
        TokenKind::DotDot => b"..",
        TokenKind::DotDotDot => b"...",
    }
}

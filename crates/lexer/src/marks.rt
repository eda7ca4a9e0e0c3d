// Marks (manual 2.1).
ghost use Rattle.std.specs.Prelude.{◌≡◌, [], ◌∷◌, IfSome, IfNone, OnSome};
ghost use Rattle.lua_tree.specs.Bytes.{longest};
ghost use Rattle.lua_tree.specs.Tokens.{marks};
ghost use Rattle.lexer.specs.Marks.{MarkFront, IsMarkKind, double_marks, single_marks};

use lua_tree::TokenKind;

/// The longest mark at the front of a text, and how many bytes it takes.
pub fn mark(text: &[u8]) -> Option<(TokenKind, usize)>
    ensures mark { IfSome result (λ found. MarkFront found.0 found.1 text.now) }
    ensures none { IfNone result (longest marks text.now ≡ 0) }
{
    if text.starts_with(b"...") {
        return Some((TokenKind::DotDotDot, 3));
    }
    match text {
        [first, second, ..] => match double_mark(*first, *second) {
            Some(kind) => Some((kind, 2)),
            None => Some((single_mark(*first)?, 1)),
        },
        [byte] => Some((single_mark(*byte)?, 1)),
        [] => None,
    }
}

/// The mark of two bytes.
fn double_mark(first: u8, second: u8) -> Option<TokenKind>
    ensures mark { IfSome result (IsMarkKind (first ∷ second ∷ [])) }
    ensures long { OnSome result (longest double_marks (first ∷ second ∷ []) ≡ 2) }
    ensures none { IfNone result (longest double_marks (first ∷ second ∷ []) ≡ 0) }
{
    match (first, second) {
        (b'=', b'=') => Some(TokenKind::EqualEqual),
        (b'~', b'=') => Some(TokenKind::TildeEqual),
        (b'<', b'=') => Some(TokenKind::LessEqual),
        (b'>', b'=') => Some(TokenKind::GreaterEqual),
        (b'.', b'.') => Some(TokenKind::DotDot),
        _ => None,
    }
}

/// The mark of one byte.
fn single_mark(byte: u8) -> Option<TokenKind>
    ensures mark { IfSome result (IsMarkKind (byte ∷ [])) }
    ensures long { OnSome result (longest single_marks (byte ∷ []) ≡ 1) }
    ensures none { IfNone result (longest single_marks (byte ∷ []) ≡ 0) }
{
    match byte {
        b'+' => Some(TokenKind::Plus),
        b'-' => Some(TokenKind::Minus),
        b'*' => Some(TokenKind::Star),
        b'/' => Some(TokenKind::Slash),
        b'%' => Some(TokenKind::Percent),
        b'^' => Some(TokenKind::Caret),
        b'#' => Some(TokenKind::Hash),
        b'<' => Some(TokenKind::Less),
        b'>' => Some(TokenKind::Greater),
        b'=' => Some(TokenKind::Equal),
        b'(' => Some(TokenKind::OpenParen),
        b')' => Some(TokenKind::CloseParen),
        b'{' => Some(TokenKind::OpenBrace),
        b'}' => Some(TokenKind::CloseBrace),
        b'[' => Some(TokenKind::OpenBracket),
        b']' => Some(TokenKind::CloseBracket),
        b';' => Some(TokenKind::Semicolon),
        b':' => Some(TokenKind::Colon),
        b',' => Some(TokenKind::Comma),
        b'.' => Some(TokenKind::Dot),
        _ => None,
    }
}

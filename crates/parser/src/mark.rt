// Marks and keywords that a phrase has at a fixed place.
ghost use Rattle.std.specs.Prelude.{◌≡◌, option_copied};
ghost use Rattle.parser.specs.Marks.{mark_of};

use lua_tree::TokenKind;

/// A mark or keyword that a phrase has at a fixed place.
#[derive(Clone, Copy, Debug, PartialEq, Eq)]
pub enum Mark {
    CloseBrace,
    CloseBracket,
    CloseParen,
    Colon,
    Comma,
    Do,
    Dot,
    DotDotDot,
    Else,
    Elseif,
    End,
    Equal,
    Function,
    In,
    OpenBrace,
    OpenBracket,
    OpenParen,
    Semicolon,
    Then,
    Until,
}

/// The mark that a token is.
pub fn mark_of(kind: Option<&TokenKind>) -> Option<Mark>
    ensures { result ≡ mark_of (option_copied kind.entry) }
{
    let mark = match kind {
        Some(TokenKind::CloseBrace) => Mark::CloseBrace,
        Some(TokenKind::CloseBracket) => Mark::CloseBracket,
        Some(TokenKind::CloseParen) => Mark::CloseParen,
        Some(TokenKind::Colon) => Mark::Colon,
        Some(TokenKind::Comma) => Mark::Comma,
        Some(TokenKind::Do) => Mark::Do,
        Some(TokenKind::Dot) => Mark::Dot,
        Some(TokenKind::DotDotDot) => Mark::DotDotDot,
        Some(TokenKind::Else) => Mark::Else,
        Some(TokenKind::Elseif) => Mark::Elseif,
        Some(TokenKind::End) => Mark::End,
        Some(TokenKind::Equal) => Mark::Equal,
        Some(TokenKind::Function) => Mark::Function,
        Some(TokenKind::In) => Mark::In,
        Some(TokenKind::OpenBrace) => Mark::OpenBrace,
        Some(TokenKind::OpenBracket) => Mark::OpenBracket,
        Some(TokenKind::OpenParen) => Mark::OpenParen,
        Some(TokenKind::Semicolon) => Mark::Semicolon,
        Some(TokenKind::Then) => Mark::Then,
        Some(TokenKind::Until) => Mark::Until,
        _ => return None,
    };
    Some(mark)
}

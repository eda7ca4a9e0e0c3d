// Where a space stands between two tokens of a line.
ghost use Rattle.std.specs.Prelude.{◌≡◌};
ghost use Rattle.printer.specs.Sheets.{spacing_of, runs_together, stands_apart};

use lua_tree::TokenKind;

/// How a token stands beside others.
#[derive(Clone, Copy, Debug, PartialEq, Eq)]
pub enum Spacing {
    /// A name or a text: a bracket stands close behind it.
    Operand,
    /// `)` or `]`: close behind what is before it, with a bracket close behind.
    Closing,
    /// `}`, `,` or `;`: close behind what is before it.
    Separator,
    /// `{` or `#`: what follows stands close behind it.
    Prefix,
    /// `(`, a bracket.
    Paren,
    /// `[`, a bracket that must not touch another, nor `=`.
    Bracket,
    /// `:`, close on both sides.
    Colon,
    /// `.`, close on both sides, but not to points and numerals.
    Dot,
    /// A numeral, `..` or `...`.
    Pointed,
    /// `=` or `==`.
    Equal,
    /// Any other token.
    Word,
}

/// How a token stands beside others.
pub fn spacing_of(kind: &TokenKind) -> Spacing
    ensures { result ≡ spacing_of kind.now }
{
    match kind {
        TokenKind::Name(_) | TokenKind::Text(_) => Spacing::Operand,
        TokenKind::CloseParen | TokenKind::CloseBracket => Spacing::Closing,
        TokenKind::CloseBrace | TokenKind::Comma | TokenKind::Semicolon => Spacing::Separator,
        TokenKind::OpenBrace | TokenKind::Hash => Spacing::Prefix,
        TokenKind::OpenParen => Spacing::Paren,
        TokenKind::OpenBracket => Spacing::Bracket,
        TokenKind::Colon => Spacing::Colon,
        TokenKind::Dot => Spacing::Dot,
        TokenKind::Number(_) | TokenKind::DotDot | TokenKind::DotDotDot => Spacing::Pointed,
        TokenKind::Equal | TokenKind::EqualEqual => Spacing::Equal,
        _ => Spacing::Word,
    }
}

/// Whether a space stands between a token and the next of its line.
pub fn stands_apart(last: Spacing, next: Spacing) -> bool
    ensures { result ≡ stands_apart last next }
{
    if runs_together(last, next) {
        return true;
    }
    match (last, next) {
        (Spacing::Prefix | Spacing::Paren | Spacing::Bracket | Spacing::Colon | Spacing::Dot, _) =>
            false,
        (_, Spacing::Closing | Spacing::Separator | Spacing::Colon | Spacing::Dot) => false,
        (Spacing::Operand | Spacing::Closing, Spacing::Paren | Spacing::Bracket) => false,
        _ => true,
    }
}

// Whether two tokens would be read as others with no space between them, where none would stand.
fn runs_together(last: Spacing, next: Spacing) -> bool
    ensures { result ≡ runs_together last next }
{
    matches!(
        (last, next),
        (Spacing::Bracket, Spacing::Bracket | Spacing::Equal)
            | (Spacing::Dot, Spacing::Dot | Spacing::Pointed)
            | (Spacing::Pointed, Spacing::Dot)
    )
}

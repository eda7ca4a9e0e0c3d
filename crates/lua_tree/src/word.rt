// Words: names and keywords (manual 2.1).
ghost use Rattle.std.specs.Prelude.{◌≡◌, true, false, IfSome, IfNone};
ghost use Rattle.lua_tree.specs.Bytes.{is_among, is_letter, is_word};
ghost use Rattle.std.specs.List.{list_all};
ghost use Rattle.lua_tree.specs.Names.{is_name};
ghost use Rattle.lua_tree.specs.Tokens.{keywords, IsWordKind};

use crate::token::TokenKind;

/// Returns the kind of the first of these words that a word is.
macro_rules! return_kind_of {
    ($word:ident: $($text:literal => $kind:ident,)*) => {
        $(if $word == $text.as_slice() {
            return Some(TokenKind::$kind);
        })*
    };
}

/// The keyword that a word is.
pub fn keyword(word: &[u8]) -> Option<TokenKind>
    ensures keyword { IfSome result (IsWordKind word.now) }
    ensures known { IfSome result (λ _. is_among keywords word.now ≡ true) }
    ensures none { IfNone result (is_among keywords word.now ≡ false) }
{
    return_kind_of!(word:
        b"and" => And,
        b"break" => Break,
        b"do" => Do,
        b"else" => Else,
        b"elseif" => Elseif,
        b"end" => End,
        b"false" => False,
        b"for" => For,
        b"function" => Function,
        b"if" => If,
        b"in" => In,
        b"local" => Local,
        b"nil" => Nil,
        b"not" => Not,
        b"or" => Or,
        b"repeat" => Repeat,
        b"return" => Return,
        b"then" => Then,
        b"true" => True,
        b"until" => Until,
        b"while" => While,
    );
    None
}

/// Whether a text is a name: letters, digits and `_`, with no digit first, and no keyword.
pub fn is_name(text: &[u8]) -> bool
    ensures { result ≡ is_name text.now }
{
    match text.split_first() {
        Some((first, rest)) => is_letter(*first) && are_words(rest) && keyword(text).is_none(),
        None => false,
    }
}

fn is_letter(byte: u8) -> bool
    ensures { result ≡ is_letter byte }
{
    matches!(byte, b'A'..=b'Z' | b'a'..=b'z' | b'_')
}

fn is_word(byte: u8) -> bool
    ensures { result ≡ is_word byte }
{
    is_letter(byte) || matches!(byte, b'0'..=b'9')
}

fn are_words(text: &[u8]) -> bool
    ensures { result ≡ list_all is_word text.now }
{
    for byte in text {
        if !is_word(*byte) {
            return false;
        }
    }
    true
}

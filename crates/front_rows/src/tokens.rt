// The tokens of a source.
use lexer::{LexFault, check, lex};
use lua_tree::{Token, TokenKind, is_name, keyword};
use std::alloc::{AllocError, Global};

/// Each token with its offset and its line, or the fault; and whether `check` agrees.
pub(crate) fn lexed(alloc: Global, source: &[u8]) -> Result<String, AllocError> {
    let (text, checked) = match lex(alloc, source) {
        Ok(tokens) => (tokens_text(alloc, tokens.items())?, Ok(())),
        Err(LexFault::OutOfMemory) => return Err(AllocError),
        Err(fault) => (format!(in alloc; "{fault}")?, Err(fault)),
    };
    if check(source) == checked {
        Ok(text)
    } else {
        String::from_str(alloc, "check disagrees")
    }
}

fn tokens_text(alloc: Global, tokens: &[Token]) -> Result<String, AllocError> {
    let mut text = String::new(alloc);
    for token in tokens {
        let separator = if text.is_empty() { "" } else { ", " };
        let kind = kind_text(alloc, &token.kind)?;
        let (at, line) = (token.at, token.line);
        text.push_str(&format!(in alloc; "{separator}{kind} {at}:{line}")?)?;
    }
    Ok(text)
}

/// A kind of token, with bytes that are not printed escaped as in Rust.
fn kind_text(alloc: Global, kind: &TokenKind) -> Result<String, AllocError> {
    match kind {
        TokenKind::Name(name) => format!(in alloc; "Name {}", name.bytes().escape_ascii()),
        TokenKind::Number(n) => format!(in alloc; "Number {n}"),
        TokenKind::Text(text) => format!(in alloc; "Text <{}>", text.bytes().escape_ascii()),
        other => format!(in alloc; "{other:?}"),
    }
}

/// The keyword that a text is, or whether it is a name.
pub(crate) fn word_text(alloc: Global, text: &[u8]) -> Result<String, AllocError> {
    match keyword(text) {
        Some(kind) => format!(in alloc; "{kind:?}, name {}", is_name(text)),
        None => format!(in alloc; "name {}", is_name(text)),
    }
}

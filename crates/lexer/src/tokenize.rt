// The tokens of a source.
ghost use Rattle.std.specs.Prelude.{◌≡◌, ◌⊎◌, ◌++◌, ◌<◌, ◌+◌, ◌^◌, ℕ, List, length, IfOk, IfErr, OnOk, Option};
ghost use Rattle.lua_tree.specs.declared.token.Token.{Token as OneToken};
ghost use Rattle.lua_tree.specs.declared.token.TokenKind.{TokenKind as OneKind};
ghost use Rattle.lua_tree.specs.Tiling.{Cause, Lexes, Stops};
ghost use Rattle.lexer.specs.Faults.{StopsBy, IsFaultOf};
ghost use Rattle.lexer.specs.Pieces.{PieceFront, TokenFront, FaultAt, listed};

use crate::fault::LexFault;
use crate::lines::{LineCounter, long_value};
use crate::piece::{Piece, PieceKind, piece_at};
use crate::strings::short_value;
use crate::words::word_kind;
use lua_tree::{Token, TokenKind, Tokens, faults_are_one, never_both, tokens_are_one};
use std::alloc::{AllocError, Global};

/// The tokens of a source, or the first fault from the left. (Manual 2.1, with whole numbers of 64
/// bits.) The time is linear in the bytes.
pub fn lex(alloc: Global, bytes: &[u8]) -> Result<Tokens, LexFault>
    ensures tokens { IfOk result (λ tokens. Lexes bytes.now tokens) }
    ensures fault { IfErr result (StopsBy bytes.now) }

    // One answer is left for each text, and want of memory.
    ensures only_tokens { (tokens : List OneToken) → Lexes bytes.now tokens → (result ≡ Ok tokens) ⊎ (result ≡ Err LexFault.OutOfMemory) }
    ensures only_fault { (fault : LexFault) → IsFaultOf bytes.now fault → (result ≡ Err fault) ⊎ (result ≡ Err LexFault.OutOfMemory) }
{
    // Laws: a text has one list of tokens or one fault at most, and never both.
    tokens_are_one();
    faults_are_one();
    never_both();
    tokenize(alloc, bytes)
}

fn tokenize(alloc: Global, bytes: &[u8]) -> Result<Tokens, LexFault>
    ensures tokens { IfOk result (λ tokens. Lexes bytes.now tokens) }
    ensures fault { IfErr result (StopsBy bytes.now) }
{
    let mut tokens = Tokens::new(alloc);
    let mut lines = LineCounter::new();
    let mut at = 0;
    while at < bytes.len() {
        let rest = &bytes[at..];
        let piece = piece_at(at, rest)?;
        let length = piece.length;
        lines.advance(&rest[..length]);
        let kind = token_kind(alloc, at, piece, rest)?;
        push_token(&mut tokens, kind, at, lines.line())?;
        at += length;
    }
    Ok(tokens)
}

/// The token at the front of a text that begins at an offset; `None` for white space and comments.
fn token_kind(
    alloc: Global,
    at: usize,
    piece: Piece,
    text: &[u8],
) -> Result<Option<TokenKind>, AllocError>
    requires { PieceFront at text.now piece }
    ensures { IfOk result (TokenFront at piece.length text.now) }
{
    let front = &text[..piece.length];
    match piece.kind {
        PieceKind::Space | PieceKind::Comment => Ok(None),
        PieceKind::Word => Ok(Some(word_kind(alloc, front)?)),
        PieceKind::Number(n) => Ok(Some(TokenKind::Number(n))),
        PieceKind::ShortText => Ok(Some(TokenKind::Text(short_value(alloc, text)?))),
        PieceKind::LongText { level } => {
            Ok(Some(TokenKind::Text(long_value(alloc, level, front)?)))
        }
        PieceKind::Mark(kind) => Ok(Some(kind)),
    }
}

/// Appends a token, where there is one.
fn push_token(
    tokens: &mut Tokens,
    kind: Option<TokenKind>,
    at: usize,
    line: u32,
) -> Result<(), AllocError>
    ensures { OnOk result (tokens.new ≡ tokens.old ++ listed kind at line) }
{
    match kind {
        Some(kind) => tokens.push(Token { kind, at, line }),
        None => Ok(()),
    }
}

/// Whether a source has tokens: the first fault from the left, where it has none. Takes no memory.
/// The time is linear in the bytes.
pub fn check(bytes: &[u8]) -> Result<(), LexFault>
    ensures tokens { OnOk result ((tokens : List OneToken) × Lexes bytes.now tokens) }
    ensures fault { IfErr result (IsFaultOf bytes.now) }
{
    let mut at = 0;
    while at < bytes.len() {
        let length = piece_length(at, &bytes[at..])?;
        at += length;
    }
    Ok(())
}

/// How many bytes the piece at the front of a text takes.
fn piece_length(at: usize, text: &[u8]) -> Result<usize, LexFault>
    requires some { 0 < length text.now }
    requires fits { at + length text.now < 2 ^ 64 }
    ensures token { IfOk result (λ n. (token : Option OneKind) × TokenFront at n text.now token) }
    ensures more { IfOk result (λ n. 0 < n) }
    ensures fault { IfErr result (FaultAt at text.now) }
{
    match piece_at(at, text) {
        Ok(piece) => Ok(piece.length),
        Err(fault) => Err(fault),
    }
}

/// Each text has tokens or a fault. A law; it runs `check`.
pub fn tokens_or_fault(bytes: &[u8])
    ensures { ((tokens : List OneToken) × Lexes bytes.now tokens) ⊎ ((cause : Cause) × (at : ℕ) × Stops bytes.now cause at) }
{
    let _ = check(bytes);
}

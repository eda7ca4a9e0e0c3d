// The piece at the front of a text: white space, a comment or a token.
ghost use Rattle.std.specs.Prelude.{◌≡◌, ◌<◌, ◌+◌, ◌^◌, true, ℕ, length, codes, IfOk, IfErr};
ghost use Rattle.lua_num.specs.Bytes.{is_space};
ghost use Rattle.lua_tree.specs.Bytes.{is_letter, has_front as has_the_front};
ghost use Rattle.lexer.specs.StringParts.{is_quote};
ghost use Rattle.lexer.specs.Classes.{begins, begins_numeral as begins_a_numeral, begins_bracket as begins_a_bracket, begins_first_line as begins_a_first_line, IsLeft};
ghost use Rattle.lexer.specs.Pieces.{PieceFront, FaultAt};

use crate::brackets::{comment_length, long_length, opening_level};
use crate::classes::{
    begins_bracket, begins_first_line, begins_numeral, begins_quote, begins_space, begins_word,
    has_front,
};
use crate::fault::LexFault;
use crate::marks::mark;
use crate::runs::{line_length, numeral_length, space_length, word_length};
use crate::strings::{StringFault, short_length};
use lua_num::numeral;
use lua_tree::TokenKind;

/// What a piece is. The bytes of a string or a name are not copied yet.
#[derive(Debug, Drop)]
pub enum PieceKind {
    /// White space, one or more bytes.
    Space,
    Comment,
    /// A name or a keyword.
    Word,
    Number(i64),
    ShortText,
    LongText { level: usize },
    Mark(TokenKind),
}

/// A piece at the front of a text, and how many bytes it takes.
#[derive(Debug, Drop)]
pub struct Piece {
    pub kind: PieceKind,
    pub length: usize,
}

/// The piece at the front of a text that begins at an offset of its source, or the fault there. The
/// time is linear in the piece, or where a string or comment has no end, in the text.
pub fn piece_at(at: usize, text: &[u8]) -> Result<Piece, LexFault>
    requires some { 0 < length text.now }
    requires fits { at + length text.now < 2 ^ 64 }
    ensures piece { IfOk result (PieceFront at text.now) }
    ensures fault { IfErr result (FaultAt at text.now) }
{
    if begins_space(text) {
        Ok(space(text))
    } else if begins_word(text) {
        Ok(word(text))
    } else if begins_numeral(text) {
        number(at, text)
    } else if begins_quote(text) {
        short_text(at, text)
    } else if begins_bracket(text) {
        long_text(at, text)
    } else if has_front(text, b"--") {
        comment(at, text)
    } else if begins_first_line(at, text) {
        Ok(first_line(text))
    } else {
        mark_piece(at, text)
    }
}

fn space(text: &[u8]) -> Piece
    requires { begins is_space text.now ≡ true }
    ensures { (at : ℕ) → PieceFront at text.now result }
{
    Piece {
        kind: PieceKind::Space,
        length: space_length(text),
    }
}

fn word(text: &[u8]) -> Piece
    requires { begins is_letter text.now ≡ true }
    ensures { (at : ℕ) → PieceFront at text.now result }
{
    Piece {
        kind: PieceKind::Word,
        length: word_length(text),
    }
}

fn number(at: usize, text: &[u8]) -> Result<Piece, LexFault>
    requires { begins_a_numeral text.now ≡ true }
    ensures piece { IfOk result (PieceFront at text.now) }
    ensures fault { IfErr result (FaultAt at text.now) }
{
    let length = numeral_length(text);
    match numeral(&text[..length]) {
        Some(n) => Ok(Piece {
            kind: PieceKind::Number(n),
            length,
        }),
        None => Err(LexFault::BadNumber { at }),
    }
}

fn short_text(at: usize, text: &[u8]) -> Result<Piece, LexFault>
    requires begins { begins is_quote text.now ≡ true }
    requires fits { at + length text.now < 2 ^ 64 }
    ensures piece { IfOk result (PieceFront at text.now) }
    ensures fault { IfErr result (FaultAt at text.now) }
{
    match short_length(text) {
        Ok(length) => Ok(Piece {
            kind: PieceKind::ShortText,
            length,
        }),
        Err(StringFault::Unfinished) => Err(LexFault::UnfinishedString { at }),
        Err(StringFault::TooLarge { distance }) => {
            Err(LexFault::EscapeTooLarge { at: at + distance })
        }
    }
}

fn long_text(at: usize, text: &[u8]) -> Result<Piece, LexFault>
    requires { begins_a_bracket text.now ≡ true }
    ensures piece { IfOk result (PieceFront at text.now) }
    ensures fault { IfErr result (FaultAt at text.now) }
{
    let Some(level) = opening_level(text) else {
        return Err(LexFault::BadLongOpen { at });
    };
    match long_length(level, text) {
        Some(length) => Ok(Piece {
            kind: PieceKind::LongText { level },
            length,
        }),
        None => Err(LexFault::UnfinishedLong { at }),
    }
}

fn comment(at: usize, text: &[u8]) -> Result<Piece, LexFault>
    requires begins { has_the_front (codes "--") text.now ≡ true }
    requires fits { at + length text.now < 2 ^ 64 }
    ensures piece { IfOk result (PieceFront at text.now) }
    ensures fault { IfErr result (FaultAt at text.now) }
{
    match comment_length(text) {
        Some(length) => Ok(Piece {
            kind: PieceKind::Comment,
            length,
        }),
        None => Err(LexFault::UnfinishedLong { at: at + 2 }),
    }
}

fn first_line(text: &[u8]) -> Piece
    requires { begins_a_first_line 0 text.now ≡ true }
    ensures { PieceFront 0 text.now result }
{
    Piece {
        kind: PieceKind::Comment,
        length: 1 + line_length(&text[1..]),
    }
}

fn mark_piece(at: usize, text: &[u8]) -> Result<Piece, LexFault>
    requires some { 0 < length text.now }
    requires left { IsLeft at text.now }
    ensures piece { IfOk result (PieceFront at text.now) }
    ensures fault { IfErr result (FaultAt at text.now) }
{
    match mark(text) {
        Some((kind, length)) => Ok(Piece {
            kind: PieceKind::Mark(kind),
            length,
        }),
        None => Err(LexFault::BadByte { at }),
    }
}

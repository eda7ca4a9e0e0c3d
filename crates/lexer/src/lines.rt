// Lines: their ends, how many there are, and what long strings make of them.
ghost use Rattle.std.specs.Prelude.{◌≡◌, ℕ, ◌<◌, List, [], ◌∷◌, ◌++◌, length, IfOk, IfSome, IfNone};
ghost use Rattle.lua_tree.specs.Brackets.{IsLong, LongMeans};
ghost use Rattle.lua_tree.specs.Lines.{line_end, IsLineOf};
ghost use Rattle.lexer.specs.Lines.{begins_end, IsCounted, IsPlain, BeginsPlain};

use crate::brackets::BRACKETS;
use crate::runs::is_line_end;
use lua_num::ByteText;
use std::alloc::{AllocError, Global};

/// The greatest line: those beyond it have its number.
const LAST_LINE: u32 = 2_147_483_647;

/// How many bytes the line end at the front of a text takes: 2 for a pair of the bytes 10 and 13,
/// 1 for one of them alone, 0 where none stands there.
pub fn line_end_length(text: &[u8]) -> usize
    ensures { result ≡ line_end text.now }
{
    match text {
        [b'\n', b'\r', ..] | [b'\r', b'\n', ..] => 2,
        [b'\n' | b'\r', ..] => 1,
        _ => 0,
    }
}

/// Counts the lines of a text that is gone through from the left, in pieces that may part a line
/// end of two bytes.
#[derive(Clone, Copy, Debug)]
pub struct LineCounter {
    line: u32,
    // A line end of one byte that the next byte may complete to a pair.
    open_end: Option<u8>,
}

impl LineCounter {
    /// At the start of a text.
    pub fn new() -> Self
        ensures { IsCounted [] result }
    {
        Self {
            line: 1,
            open_end: None,
        }
    }

    /// Goes through the next bytes. Linear in them.
    pub fn advance(&mut self, text: &[u8])
        ensures { (done : List ℕ) → IsCounted done self.old → IsCounted (done ++ text.now) self.new }
    {
        for byte in text {
            self.step(*byte);
        }
    }

    fn step(&mut self, byte: u8)
        ensures { (done : List ℕ) → IsCounted done self.old → IsCounted (done ++ byte ∷ []) self.new }
    {
        if begins_line_end(self.open_end, byte) {
            if self.line < LAST_LINE {
                self.line += 1;
            }
            self.open_end = Some(byte);
        } else {
            self.open_end = None;
        }
    }

    /// The line on which the bytes so far end, at most 2,147,483,647.
    pub fn line(&self) -> u32
        ensures { (done : List ℕ) → IsCounted done self.now → IsLineOf done result }
    {
        self.line
    }
}

/// Whether a byte begins a line end: it ends a line and does not complete the open end to a pair.
fn begins_line_end(open_end: Option<u8>, byte: u8) -> bool
    ensures { result ≡ begins_end open_end byte }
{
    match open_end {
        Some(first) => is_line_end(byte) && first == byte,
        None => is_line_end(byte),
    }
}

/// The bytes that a long string of this level means: its inside, without a line end right after
/// the opening, each other line end as byte 10. Linear in the text.
pub fn long_value(alloc: Global, level: usize, text: &[u8]) -> Result<ByteText, AllocError>
    requires { (inside : List ℕ) × IsLong level inside text.now }
    ensures { IfOk result (λ bytes. (inside : List ℕ) → IsLong level inside text.now → LongMeans inside bytes) }
{
    let bracket = level + BRACKETS;
    inside_value(alloc, &text[bracket..text.len() - bracket])
}

/// What the inside of a long string means.
fn inside_value(alloc: Global, inside: &[u8]) -> Result<ByteText, AllocError>
    ensures { IfOk result (LongMeans inside.now) }
{
    plain_text(alloc, &inside[line_end_length(inside)..])
}

/// The text with each line end as byte 10.
fn plain_text(alloc: Global, text: &[u8]) -> Result<ByteText, AllocError>
    ensures { IfOk result (IsPlain text.now) }
{
    let mut plain = ByteText::new(alloc);
    let mut rest = text;
    while let Some((byte, after)) = split_plain(rest) {
        plain.push(byte)?;
        rest = after;
    }
    Ok(plain)
}

/// The first byte, or 10 for a line end, and the text after it.
fn split_plain(text: &[u8]) -> Option<(u8, &[u8])>
    ensures some { IfSome result (λ split. BeginsPlain text.now split.0 split.1.now) }
    ensures shorter { IfSome result (λ split. length split.1.now < length text.now) }
    ensures none { IfNone result (text.now ≡ []) }
{
    match line_end_length(text) {
        0 => {
            let (byte, after) = text.split_first()?;
            Some((*byte, after))
        }
        length => Some((b'\n', &text[length..])),
    }
}

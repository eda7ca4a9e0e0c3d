// Reading the lines of words.
ghost use Rattle.std.specs.Prelude.{◌≡◌};
ghost use Rattle.lister.specs.Listing.{shown, is_block_next as is_block_next_in};
ghost use Rattle.asm_text.specs.Reading.{Cuts, plain_word_at, shown_word_at, bare_at, word_at};

use crate::cuts::{after, behind, cut, nothing};
use crate::instruction::{ends_line, has_comment, instr_of};
use crate::miss::Unread;
use crate::numbers::number;
use opcode::{Instr, Op, decode, encode};
use std::alloc::Global;

/// What words are below.
const WORD_LIMIT: u64 = 4_294_967_296;

/// The word of a line at a pc; a raw one is a block number.
#[tactic(auto, unfolding(crate::specs::Reading::word_at))]
pub fn word_of(alloc: Global, raw: bool, pc: u32, line: &[u8]) -> Result<u32, Unread>
    ensures { Cuts (λ w. w) result (word_at raw pc line.now) }
{
    let number = pc.to_string(alloc)?;
    let rest = behind(number.as_bytes(), line)?;
    let rest = behind(b" [", rest)?;
    let (_, rest) = cut(b']', rest)?;
    let rest = behind(b" ", rest)?;
    bare_of(raw, rest)
}

/// The word that is shown behind the brackets.
#[tactic(auto, unfolding(crate::specs::Reading::bare_at))]
fn bare_of(raw: bool, text: &[u8]) -> Result<u32, Unread>
    ensures { Cuts (λ w. w) result (bare_at raw text.now) }
{
    match after(b"WORD ", text) {
        Some(rest) => plain_word_of(raw, rest),
        None if raw => Err(Unread::BadForm),
        None => shown_word_of(text),
    }
}

/// A word that is shown as a number, since it is a block number or no instruction.
#[tactic(auto, unfolding(crate::specs::Reading::plain_word_at))]
fn plain_word_of(raw: bool, text: &[u8]) -> Result<u32, Unread>
    ensures { Cuts (λ w. w) result (plain_word_at raw text.now) }
{
    let (word, rest) = number(WORD_LIMIT, text)?;
    nothing(rest)?;
    let word = word as u32;
    match shown_as(raw, word) {
        None => Ok(word),
        Some(_) => Err(Unread::BadForm),
    }
}

/// A word that is shown as an instruction.
#[tactic(auto, unfolding(crate::specs::Reading::shown_word_at))]
fn shown_word_of(text: &[u8]) -> Result<u32, Unread>
    ensures { Cuts (λ w. w) result (shown_word_at text.now) }
{
    let (instr, rest) = instr_of(text)?;
    if ends_line(has_comment(instr), rest) {
        Ok(encode(instr))
    } else {
        Err(Unread::BadForm)
    }
}

/// The instruction that a word is shown as. A raw one is a block number, and is shown as none.
fn shown_as(raw: bool, word: u32) -> Option<Instr>
    ensures { result ≡ shown raw word }
{
    if raw { None } else { decode(word) }
}

/// Whether the word behind this one is a raw block number.
pub fn is_block_next(raw: bool, word: u32) -> bool
    ensures { result ≡ is_block_next_in (shown raw word) }
{
    matches!(
        shown_as(raw, word),
        Some(Instr {
            op: Op::SetList,
            c: 0,
            ..
        })
    )
}

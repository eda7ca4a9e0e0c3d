// Reading the lists of a function: how many, and then a line for each. Memory grows with what is read, and never with a count.
ghost use Rattle.std.specs.Prelude.{◌≡◌, false, codes};
ghost use Rattle.asm_text.specs.Reading.{Gives, line_at, item_at, constant_at as one_constant_at, local_at, whole_quoted_at, word_line as word_line_in, next_word, next_number, many_at, code_at, constants_at, locals_at, names_at};

use crate::code::is_block_next;
use crate::lines::{constant_line, count_line, local_line, name_item_line, word_line};
use crate::miss::ReadError;
use lua_num::Names;
use proto::{Constant, LocVar};
use std::alloc::Global;

/// The words.
#[tactic(auto, unfolding(crate::specs::Reading::code_at))]
pub fn code_of(alloc: Global, bytes: &[u8]) -> Result<(Vec<u32>, &[u8]), ReadError>
    ensures { Gives (λ x. (x.0.items, x.1.now)) result (code_at bytes.now) }
{
    let (count, rest) = count_line(b"code", bytes)?;
    many_words(alloc, count, rest)
}

fn many_words(alloc: Global, count: u32, bytes: &[u8]) -> Result<(Vec<u32>, &[u8]), ReadError>
    ensures { Gives (λ x. (x.0.items, x.1.now)) result (many_at word_line_in next_word (false, 0) count bytes.now) }
{
    let mut words = Vec::new(alloc);
    let mut rest = bytes;
    let mut raw = false;
    for pc in 0..count {
        let (word, after) = word_line(alloc, raw, pc, rest)?;
        words.push(word)?;
        raw = is_block_next(raw, word);
        rest = after;
    }
    Ok((words, rest))
}

/// The constants.
#[tactic(auto, unfolding(crate::specs::Reading::constants_at))]
pub fn constants_of(alloc: Global, bytes: &[u8]) -> Result<(Vec<Constant>, &[u8]), ReadError>
    ensures { Gives (λ x. (x.0.items, x.1.now)) result (constants_at bytes.now) }
{
    let (count, rest) = count_line(b"constants", bytes)?;
    many_constants(alloc, count, rest)
}

fn many_constants(
    alloc: Global,
    count: u32,
    bytes: &[u8],
) -> Result<(Vec<Constant>, &[u8]), ReadError>
    ensures { Gives (λ x. (x.0.items, x.1.now)) result (many_at (λ n. line_at (item_at one_constant_at n)) next_number 0 count bytes.now) }
{
    let mut constants = Vec::new(alloc);
    let mut rest = bytes;
    for number in 0..count {
        let (constant, after) = constant_line(alloc, number, rest)?;
        constants.push(constant)?;
        rest = after;
    }
    Ok((constants, rest))
}

/// The locals.
#[tactic(auto, unfolding(crate::specs::Reading::locals_at))]
pub fn locals_of(alloc: Global, bytes: &[u8]) -> Result<(Vec<LocVar>, &[u8]), ReadError>
    ensures { Gives (λ x. (x.0.items, x.1.now)) result (locals_at bytes.now) }
{
    let (count, rest) = count_line(b"locals", bytes)?;
    many_locals(alloc, count, rest)
}

fn many_locals(alloc: Global, count: u32, bytes: &[u8]) -> Result<(Vec<LocVar>, &[u8]), ReadError>
    ensures { Gives (λ x. (x.0.items, x.1.now)) result (many_at (λ n. line_at (item_at local_at n)) next_number 0 count bytes.now) }
{
    let mut locals = Vec::new(alloc);
    let mut rest = bytes;
    for number in 0..count {
        let (local, after) = local_line(alloc, number, rest)?;
        locals.push(local)?;
        rest = after;
    }
    Ok((locals, rest))
}

/// The names of the upvalues.
#[tactic(auto, unfolding(crate::specs::Reading::names_at))]
pub fn names_of(alloc: Global, bytes: &[u8]) -> Result<(Names, &[u8]), ReadError>
    ensures { Gives (λ x. (x.0, x.1.now)) result (names_at bytes.now) }
{
    let (count, rest) = count_line(b"names", bytes)?;
    many_names(alloc, count, rest)
}

fn many_names(alloc: Global, count: u32, bytes: &[u8]) -> Result<(Names, &[u8]), ReadError>
    ensures { Gives (λ x. (x.0, x.1.now)) result (many_at (λ n. line_at (item_at whole_quoted_at n)) next_number 0 count bytes.now) }
{
    let mut names = Names::new(alloc);
    let mut rest = bytes;
    for number in 0..count {
        let (name, after) = name_item_line(alloc, number, rest)?;
        names.push(name)?;
        rest = after;
    }
    Ok((names, rest))
}

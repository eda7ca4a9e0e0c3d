// Reading what stands in one line.
ghost use Rattle.std.specs.Prelude.{◌≡◌, Some};
ghost use Rattle.asm_text.specs.Reading.{Cuts, Gives, line_at, one_line_at, item_at, name_at, source_at, defined_at, four_at, shape_at, cut_at, is_some_cut, count_at, counted_lines, lines_at, word_line as word_line_in, is_word as is_word_in, begins_quote as begins_quote_in, whole_number_at, constant_at, local_at, whole_quoted_at};

use crate::code::word_of;
use crate::cuts::{behind, cut, nothing, split};
use crate::miss::{Miss, ReadError, Unread};
use crate::numbers::{INT_LIMIT, many_spaced, number, signed, spaced_byte, spaced_int};
use crate::quoted::quoted;
use lua_num::ByteText;
use proto::{Constant, LocVar};
use std::alloc::Global;

/// The numbers of a constant are above minus this one, and below the other.
const NUMBER_LOW: u64 = 9_223_372_036_854_775_809;

const NUMBER_HIGH: u64 = 9_223_372_036_854_775_808;

/// A line that ends, without its end.
#[tactic(auto, unfolding(crate::specs::Reading::one_line_at))]
fn line_of(bytes: &[u8]) -> Result<(&[u8], &[u8]), ReadError>
    ensures { Gives (λ x. (x.0.now, x.1.now)) result (one_line_at bytes.now) }
{
    match cut(b'\n', bytes) {
        Ok(cut) => Ok(cut),
        Err(unread) => Err(unread.at(bytes.len())),
    }
}

#[tactic(auto, unfolding(crate::specs::Reading::name_at))]
fn name_of(line: &[u8]) -> Result<(), Unread>
    ensures { Cuts (λ u. tt) result (name_at line.now) }
{
    let name = behind(b"function ", line)?;
    if is_word(name) {
        Ok(())
    } else {
        Err(Unread::BadForm)
    }
}

/// Whether a text has bytes, and no space among them.
fn is_word(text: &[u8]) -> bool
    ensures { result ≡ is_word_in text.now }
{
    match text {
        [] => false,
        [_, ..] => !has_space(text),
    }
}

fn has_space(text: &[u8]) -> bool
    ensures { result ≡ is_some_cut (cut_at 32 text.now) }
{
    match split(b' ', text) {
        Some(_) => true,
        None => false,
    }
}

#[tactic(auto, unfolding(crate::specs::Reading::source_at))]
fn source_of(alloc: Global, line: &[u8]) -> Result<Option<ByteText>, Unread>
    ensures { Cuts (λ x. x) result (source_at line.now) }
{
    let text = behind(b"source ", line)?;
    if text == b"none".as_slice() {
        return Ok(None);
    }
    Ok(Some(whole_quoted(alloc, text)?))
}

/// A text in quotes with nothing behind it.
#[tactic(auto, unfolding(crate::specs::Reading::whole_quoted_at))]
fn whole_quoted(alloc: Global, text: &[u8]) -> Result<ByteText, Unread>
    ensures { Cuts (λ x. x) result (whole_quoted_at text.now) }
{
    let (text, rest) = quoted(alloc, text)?;
    nothing(rest)?;
    Ok(text)
}

#[tactic(auto, unfolding(crate::specs::Reading::defined_at))]
fn defined_of(line: &[u8]) -> Result<(u32, u32), Unread>
    ensures { Cuts (λ x. x) result (defined_at line.now) }
{
    let rest = behind(b"defined", line)?;
    let (first, rest) = spaced_int(rest)?;
    let (last, rest) = spaced_int(rest)?;
    nothing(rest)?;
    Ok((first, last))
}

/// The counts of upvalues and parameters, the vararg flags, and the count of registers.
#[tactic(auto, unfolding(crate::specs::Reading::shape_at))]
fn shape_of(line: &[u8]) -> Result<(u8, u8, u8, u8), Unread>
    ensures { Cuts (λ x. (x.0, (x.1, (x.2, x.3)))) result (shape_at line.now) }
{
    let rest = behind(b"shape", line)?;
    let (shape, rest) = four_of(rest)?;
    nothing(rest)?;
    Ok(shape)
}

#[tactic(auto, unfolding(crate::specs::Reading::four_at))]
fn four_of(text: &[u8]) -> Result<((u8, u8, u8, u8), &[u8]), Unread>
    ensures { Cuts (λ x. ((x.0.0, (x.0.1, (x.0.2, x.0.3))), x.1.now)) result (four_at text.now) }
{
    let (upvalues, rest) = spaced_byte(text)?;
    let (params, rest) = spaced_byte(rest)?;
    let (flags, rest) = spaced_byte(rest)?;
    let (registers, rest) = spaced_byte(rest)?;
    Ok(((upvalues, params, flags, registers), rest))
}

#[tactic(auto, unfolding(crate::specs::Reading::count_at))]
fn count_of(what: &[u8], line: &[u8]) -> Result<u32, Unread>
    ensures { Cuts (λ x. x) result (count_at what.now line.now) }
{
    let rest = behind(what, line)?;
    let (count, rest) = spaced_int(rest)?;
    nothing(rest)?;
    Ok(count)
}

/// How many numbers there are, and each of them.
#[tactic(auto, unfolding(crate::specs::Reading::lines_at, crate::specs::Reading::counted_lines))]
fn lines_of(alloc: Global, line: &[u8]) -> Result<Vec<u32>, Unread>
    ensures { Cuts (λ x. x.items) result (lines_at line.now) }
{
    let rest = behind(b"lines ", line)?;
    let (count, rest) = number(INT_LIMIT, rest)?;
    let rest = behind(b":", rest)?;
    let (lines, rest) = many_spaced(alloc, count as u32, rest)?;
    nothing(rest)?;
    Ok(lines)
}

/// What stands behind an item's number.
fn item_of(alloc: Global, number: u32, line: &[u8]) -> Result<&[u8], Unread>
    ensures { Cuts (λ x. x.now) result (item_at (λ t. Some t) number line.now) }
{
    let number = number.to_string(alloc)?;
    let rest = behind(number.as_bytes(), line)?;
    behind(b" ", rest)
}

#[tactic(auto, unfolding(crate::specs::Reading::constant_at))]
fn constant_of(alloc: Global, text: &[u8]) -> Result<Constant, Unread>
    ensures { Cuts (λ x. x) result (constant_at text.now) }
{
    if text == b"nil".as_slice() {
        return Ok(Constant::Nil);
    }
    if text == b"true".as_slice() {
        return Ok(Constant::Bool(true));
    }
    if text == b"false".as_slice() {
        return Ok(Constant::Bool(false));
    }
    if begins_quote(text) {
        return Ok(Constant::Text(whole_quoted(alloc, text)?));
    }
    Ok(Constant::Number(whole_number(text)?))
}

fn begins_quote(text: &[u8]) -> bool
    ensures { result ≡ begins_quote_in text.now }
{
    match text {
        [first, ..] => *first == b'"',
        [] => false,
    }
}

#[tactic(auto, unfolding(crate::specs::Reading::whole_number_at))]
fn whole_number(text: &[u8]) -> Result<i64, Unread>
    ensures { Cuts (λ x. x) result (whole_number_at text.now) }
{
    let (number, rest) = signed(NUMBER_LOW, NUMBER_HIGH, text)?;
    nothing(rest)?;
    Ok(number)
}

#[tactic(auto, unfolding(crate::specs::Reading::local_at))]
fn local_of(alloc: Global, text: &[u8]) -> Result<LocVar, Unread>
    ensures { Cuts (λ x. x) result (local_at text.now) }
{
    let (name, rest) = quoted(alloc, text)?;
    let (start, rest) = spaced_int(rest)?;
    let (end, rest) = spaced_int(rest)?;
    nothing(rest)?;
    Ok(LocVar { name, start, end })
}

/// The line of a function's name, which may be any word.
pub fn name_line(bytes: &[u8]) -> Result<((), &[u8]), ReadError>
    ensures { Gives (λ x. (tt, x.1.now)) result (line_at name_at bytes.now) }
{
    let (line, rest) = line_of(bytes)?;
    match name_of(line) {
        Ok(value) => Ok((value, rest)),
        Err(unread) => Err(unread.at(bytes.len())),
    }
}

/// The line of a function's source.
pub fn source_line(alloc: Global, bytes: &[u8]) -> Result<(Option<ByteText>, &[u8]), ReadError>
    ensures { Gives (λ x. (x.0, x.1.now)) result (line_at source_at bytes.now) }
{
    let (line, rest) = line_of(bytes)?;
    match source_of(alloc, line) {
        Ok(value) => Ok((value, rest)),
        Err(unread) => Err(unread.at(bytes.len())),
    }
}

/// The line of the lines between which a function is defined.
pub fn defined_line(bytes: &[u8]) -> Result<((u32, u32), &[u8]), ReadError>
    ensures { Gives (λ x. (x.0, x.1.now)) result (line_at defined_at bytes.now) }
{
    let (line, rest) = line_of(bytes)?;
    match defined_of(line) {
        Ok(value) => Ok((value, rest)),
        Err(unread) => Err(unread.at(bytes.len())),
    }
}

/// The line of a function's shape.
pub fn shape_line(bytes: &[u8]) -> Result<((u8, u8, u8, u8), &[u8]), ReadError>
    ensures { Gives (λ x. ((x.0.0, (x.0.1, (x.0.2, x.0.3))), x.1.now)) result (line_at shape_at bytes.now) }
{
    let (line, rest) = line_of(bytes)?;
    match shape_of(line) {
        Ok(value) => Ok((value, rest)),
        Err(unread) => Err(unread.at(bytes.len())),
    }
}

/// A line that says how many lines follow, or functions.
pub fn count_line<'a>(what: &[u8], bytes: &'a [u8]) -> Result<(u32, &'a [u8]), ReadError>
    ensures { Gives (λ x. (x.0, x.1.now)) result (line_at (count_at what.now) bytes.now) }
{
    let (line, rest) = line_of(bytes)?;
    match count_of(what, line) {
        Ok(value) => Ok((value, rest)),
        Err(unread) => Err(unread.at(bytes.len())),
    }
}

/// The line of the lines of the words.
pub fn lines_line(alloc: Global, bytes: &[u8]) -> Result<(Vec<u32>, &[u8]), ReadError>
    ensures { Gives (λ x. (x.0.items, x.1.now)) result (line_at lines_at bytes.now) }
{
    let (line, rest) = line_of(bytes)?;
    match lines_of(alloc, line) {
        Ok(value) => Ok((value, rest)),
        Err(unread) => Err(unread.at(bytes.len())),
    }
}

/// The line of a word.
pub fn word_line(alloc: Global, raw: bool, pc: u32, bytes: &[u8]) -> Result<(u32, &[u8]), ReadError>
    ensures { Gives (λ x. (x.0, x.1.now)) result (word_line_in (raw, pc) bytes.now) }
{
    let (line, rest) = line_of(bytes)?;
    match word_of(alloc, raw, pc, line) {
        Ok(value) => Ok((value, rest)),
        Err(unread) => Err(unread.at(bytes.len())),
    }
}

/// The line of a constant.
pub fn constant_line(
    alloc: Global,
    number: u32,
    bytes: &[u8],
) -> Result<(Constant, &[u8]), ReadError>
    ensures { Gives (λ x. (x.0, x.1.now)) result (line_at (item_at constant_at number) bytes.now) }
{
    let (line, rest) = line_of(bytes)?;
    match numbered_constant(alloc, number, line) {
        Ok(value) => Ok((value, rest)),
        Err(unread) => Err(unread.at(bytes.len())),
    }
}

fn numbered_constant(alloc: Global, number: u32, line: &[u8]) -> Result<Constant, Unread>
    ensures { Cuts (λ x. x) result (item_at constant_at number line.now) }
{
    let text = item_of(alloc, number, line)?;
    constant_of(alloc, text)
}

/// The line of a local.
pub fn local_line(alloc: Global, number: u32, bytes: &[u8]) -> Result<(LocVar, &[u8]), ReadError>
    ensures { Gives (λ x. (x.0, x.1.now)) result (line_at (item_at local_at number) bytes.now) }
{
    let (line, rest) = line_of(bytes)?;
    match numbered_local(alloc, number, line) {
        Ok(value) => Ok((value, rest)),
        Err(unread) => Err(unread.at(bytes.len())),
    }
}

fn numbered_local(alloc: Global, number: u32, line: &[u8]) -> Result<LocVar, Unread>
    ensures { Cuts (λ x. x) result (item_at local_at number line.now) }
{
    let text = item_of(alloc, number, line)?;
    local_of(alloc, text)
}

/// The line of the name of an upvalue.
pub fn name_item_line(
    alloc: Global,
    number: u32,
    bytes: &[u8],
) -> Result<(ByteText, &[u8]), ReadError>
    ensures { Gives (λ x. (x.0, x.1.now)) result (line_at (item_at whole_quoted_at number) bytes.now) }
{
    let (line, rest) = line_of(bytes)?;
    match numbered_name_item(alloc, number, line) {
        Ok(value) => Ok((value, rest)),
        Err(unread) => Err(unread.at(bytes.len())),
    }
}

fn numbered_name_item(alloc: Global, number: u32, line: &[u8]) -> Result<ByteText, Unread>
    ensures { Cuts (λ x. x) result (item_at whole_quoted_at number line.now) }
{
    let text = item_of(alloc, number, line)?;
    whole_quoted(alloc, text)
}

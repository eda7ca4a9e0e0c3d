// Numerals, strings that are taken as numbers, and the texts of numbers.
ghost use Rattle.std.specs.Prelude.{◌≡◌, ℕ, ℤ, pos, ◌<◌, ◌≤◌, ◌^◌, List, length, Some, MatchOption, IfSome, IfNone, IfOk};
ghost use Rattle.std.specs.List.{list_all, prefix_len};
ghost use Rattle.lua_num.specs.Bytes.{is_space};
ghost use Rattle.lua_num.specs.Numeral.{numeral_number, text_number, decimal_text};
ghost use Rattle.lua_num.specs.Meets.{Writes};
ghost use Rattle.lua_num.specs.Reading.{is_no_space, HasMark, GivesValue, SplitsRun, WritesWord, DropsPlus, WritesSigned};

use crate::byte_text::ByteText;
use std::alloc::{AllocError, Global};
use std::str;

/// The number that a numeral writes: one or more decimal digits, or `0x` or `0X` and one or more
/// hexadecimal digits, of value at most 2^63 - 1. `None` for every other text. (Manual 2.1, with
/// whole numbers of 64 bits.)
pub fn numeral(text: &[u8]) -> Option<i64>
    ensures { result ≡ numeral_number text.now }
{
    i64::try_from(written_value(text)?).ok()
}

/// The value that a text of digits writes, where it is below 2^64.
fn written_value(text: &[u8]) -> Option<u64>
    ensures value { IfSome result (Writes text.now) }
    ensures none { IfNone result ((value : ℕ) → value < 2 ^ 64 → Writes text.now value → ⊥) }
{
    match after_mark(text) {
        Some(digits) => radix_value(digits, 16),
        None => radix_value(text, 10),
    }
}

/// What stands behind `0x` or `0X`.
fn after_mark(text: &[u8]) -> Option<&[u8]>
    ensures { MatchOption result ((digits : List ℕ) → HasMark text.now digits → ⊥) (λ digits. HasMark text.now digits.now) }
{
    match text.strip_prefix(b"0x") {
        Some(digits) => Some(digits),
        None => text.strip_prefix(b"0X"),
    }
}

/// The value of one or more digits, where it is below 2^64.
fn radix_value(digits: &[u8], radix: u32) -> Option<u64>
    requires low { 2 ≤ radix }
    requires high { radix ≤ 36 }
    ensures { GivesValue radix digits.now result }
{
    // `from_str_radix` takes a plus sign, which is no digit.
    if digits.starts_with(b"+") {
        return None;
    }
    match str::from_utf8(digits) {
        Ok(digits) => u64::from_str_radix(digits, radix).ok(),
        Err(_) => None,
    }
}

/// The number that a string is taken as: white space, a sign or none, a numeral, white space,
/// where the signed value fits 64 bits. `None` for every other string. (Manual 2.2.1, with whole
/// numbers of 64 bits.)
pub fn to_number(text: &[u8]) -> Option<i64>
    ensures { result ≡ text_number text.now }
{
    let (_, rest) = text.split_at(count_space(text));
    signed_value(rest)
}

/// The number of a sign or none, a numeral, and white space, where it fits 64 bits.
fn signed_value(text: &[u8]) -> Option<i64>
    ensures value { IfSome result (WritesSigned text.now) }
    ensures none { IfNone result ((n : ℤ) → WritesSigned text.now n → ⊥) }
{
    match text.strip_prefix(b"-") {
        Some(rest) => 0i64.checked_sub_unsigned(word_value(rest)?),
        None => i64::try_from(word_value(after_plus(text))?).ok(),
    }
}

/// The text without a plus sign at its front.
fn after_plus(text: &[u8]) -> &[u8]
    ensures { DropsPlus text.now result.now }
{
    match text.strip_prefix(b"+") {
        Some(rest) => rest,
        None => text,
    }
}

/// The value of a numeral with white space behind it, where it is below 2^64.
fn word_value(text: &[u8]) -> Option<u64>
    ensures value { IfSome result (WritesWord text.now) }
    ensures none { IfNone result ((value : ℕ) → value < 2 ^ 64 → WritesWord text.now value → ⊥) }
{
    let (word, back) = split_word(text);
    if is_all_space(back) {
        written_value(word)
    } else {
        None
    }
}

/// The bytes up to the first white space, and what is left.
fn split_word(text: &[u8]) -> (&[u8], &[u8])
    ensures { SplitsRun is_no_space text.now result.0.now result.1.now }
{
    text.split_at(count_word(text))
}

fn count_word(text: &[u8]) -> usize
    ensures count { result ≡ prefix_len is_no_space text.now }
    ensures within { result ≤ length text.now }
{
    text.iter()
        .take_while(|byte| !is_space_byte(**byte))
        .count()
}

fn is_all_space(text: &[u8]) -> bool
    ensures { result ≡ list_all is_space text.now }
{
    text.iter().all(|byte| is_space_byte(*byte))
}

fn count_space(text: &[u8]) -> usize
    ensures count { result ≡ prefix_len is_space text.now }
    ensures within { result ≤ length text.now }
{
    text.iter().take_while(|byte| is_space_byte(**byte)).count()
}

// `is_ascii_whitespace` leaves out the vertical tab.
fn is_space_byte(byte: u8) -> bool
    ensures { result ≡ is_space byte }
{
    matches!(byte, b'\t'..=b'\r' | b' ')
}

/// The decimal text of a number, with `-` before one below 0.
pub fn decimal(alloc: Global, n: i64) -> Result<ByteText, AllocError>
    ensures { IfOk result (λ text. text ≡ decimal_text n) }
{
    Ok(ByteText::from_vec(n.to_string(alloc)?.into_bytes()))
}

/// The decimal text of a number that is not below 0 is a numeral that writes it. A law, with nothing to run.
pub fn decimal_reads_back()
    ensures { (n : ℕ) → n < 2 ^ 63 → numeral_number (decimal_text (pos n)) ≡ Some (pos n) }
{}

// Reading numbers.
ghost use Rattle.std.specs.Prelude.{◌≡◌, ◌==◌, ◌&&◌, ◌≤◌, ◌<◌, ◌^◌, ◌+◌, ◌-◌, ◌*◌, pos, neg_ℤ, ◌≤ℤ◌, IfOk};
ghost use Rattle.lua_num.specs.Bytes.{is_digit as is_digit_in};
ghost use Rattle.asm_text.specs.Reading.{Cuts, begins_digit as begins_digit_in, number_from as number_from_in, digits_from, if_below, number_at, spaced_at, spaced_many, signed_at};

use crate::cuts::{after, behind};
use crate::miss::Unread;
use std::alloc::Global;

/// What a line, a count or a pc is below.
pub const INT_LIMIT: u64 = 2_147_483_648;

/// A number below the limit, without leading zeros, and what is left.
#[tactic(auto, unfolding(crate::specs::Reading::number_at))]
pub fn number(limit: u64, text: &[u8]) -> Result<(u64, &[u8]), Unread>
    requires low { 10 ≤ limit }
    ensures cut { Cuts (λ x. (x.0, x.1.now)) result (number_at limit text.now) }
    ensures below { IfOk result (λ x. x.0 < limit) }
{
    match text {
        [] => Err(Unread::BadForm),
        [first, rest @ ..] => number_from(limit, *first, rest),
    }
}

/// A number of this first byte and those behind it.
fn number_from(limit: u64, first: u8, rest: &[u8]) -> Result<(u64, &[u8]), Unread>
    requires low { 10 ≤ limit }
    ensures cut { Cuts (λ x. (x.0, x.1.now)) result (number_from_in limit first rest.now) }
    ensures below { IfOk result (λ x. x.0 < limit) }
{
    if !is_digit(first) {
        return Err(Unread::BadForm);
    }
    if is_leading_zero(first, rest) {
        return Err(Unread::BadForm);
    }
    more_digits(limit, u64::from(first - b'0'), rest)
}

fn is_leading_zero(first: u8, rest: &[u8]) -> bool
    ensures { result ≡ ((first == 48) && begins_digit_in rest.now) }
{
    first == b'0' && begins_digit(rest)
}

/// The digits at the front, behind those of a value, where the whole is below the limit.
fn more_digits(limit: u64, value: u64, text: &[u8]) -> Result<(u64, &[u8]), Unread>
    requires { value < limit }
    ensures cut { Cuts (λ x. (x.0, x.1.now)) result (digits_from limit value text.now) }
    ensures below { IfOk result (λ x. x.0 < limit) }
{
    let mut value = value;
    for (at, byte) in text.iter().enumerate() {
        if !is_digit(*byte) {
            return Ok((value, &text[at..]));
        }
        value = with_digit(limit, value, *byte)?;
    }
    Ok((value, &text[text.len()..]))
}

/// A value with a digit behind it, where that is below the limit.
fn with_digit(limit: u64, value: u64, byte: u8) -> Result<u64, Unread>
    requires { 48 ≤ byte }
    ensures cut { Cuts (λ x. x) result (if_below limit (value * 10 + (byte - 48))) }
    ensures below { IfOk result (λ x. x < limit) }
{
    let longer = u128::from(value) * 10 + u128::from(byte - b'0');
    if longer < u128::from(limit) {
        Ok(longer as u64)
    } else {
        Err(Unread::BadForm)
    }
}

pub fn is_digit(byte: u8) -> bool
    ensures { result ≡ is_digit_in byte }
{
    matches!(byte, b'0'..=b'9')
}

fn begins_digit(text: &[u8]) -> bool
    ensures { result ≡ begins_digit_in text.now }
{
    match text {
        [] => false,
        [first, ..] => is_digit(*first),
    }
}

/// A number behind a space.
#[tactic(auto, unfolding(crate::specs::Reading::spaced_at))]
pub fn spaced(limit: u64, text: &[u8]) -> Result<(u64, &[u8]), Unread>
    requires low { 10 ≤ limit }
    ensures cut { Cuts (λ x. (x.0, x.1.now)) result (spaced_at limit text.now) }
    ensures below { IfOk result (λ x. x.0 < limit) }
{
    let rest = behind(b" ", text)?;
    number(limit, rest)
}

/// A count, a line or a pc behind a space.
pub fn spaced_int(text: &[u8]) -> Result<(u32, &[u8]), Unread>
    ensures { Cuts (λ x. (x.0, x.1.now)) result (spaced_at 2147483648 text.now) }
{
    let (n, rest) = spaced(INT_LIMIT, text)?;
    Ok((n as u32, rest))
}

/// A number of a byte behind a space.
pub fn spaced_byte(text: &[u8]) -> Result<(u8, &[u8]), Unread>
    ensures { Cuts (λ x. (x.0, x.1.now)) result (spaced_at 256 text.now) }
{
    let (n, rest) = spaced(256, text)?;
    Ok((n as u8, rest))
}

/// As many numbers as a count says, each behind a space.
pub fn many_spaced(alloc: Global, count: u32, text: &[u8]) -> Result<(Vec<u32>, &[u8]), Unread>
    ensures { Cuts (λ x. (x.0.items, x.1.now)) result (spaced_many 2147483648 count text.now) }
{
    let mut numbers = Vec::new(alloc);
    let mut rest = text;
    for _ in 0..count {
        let (n, after) = spaced_int(rest)?;
        numbers.push(n)?;
        rest = after;
    }
    Ok((numbers, rest))
}

/// A number that is above minus `low` and below `high`.
#[tactic(auto, unfolding(crate::specs::Reading::signed_at))]
pub fn signed(low: u64, high: u64, text: &[u8]) -> Result<(i64, &[u8]), Unread>
    requires low { 10 ≤ low }
    requires low_fits { low ≤ 2 ^ 63 + 1 }
    requires high { 10 ≤ high }
    requires high_fits { high ≤ 2 ^ 63 }
    ensures cut { Cuts (λ x. (x.0, x.1.now)) result (signed_at low high text.now) }
    ensures above { IfOk result (λ x. neg_ℤ (pos low) ≤ℤ x.0) }
    ensures below { IfOk result (λ x. x.0 ≤ℤ pos high) }
{
    match after(b"-", text) {
        Some(rest) => {
            let (n, rest) = number(low, rest)?;
            if n == 0 {
                return Err(Unread::BadForm);
            }
            Ok((negated(n), rest))
        }
        None => {
            let (n, rest) = number(high, text)?;
            Ok((n as i64, rest))
        }
    }
}

fn negated(n: u64) -> i64
    requires { n ≤ 2 ^ 63 }
    ensures { result ≡ neg_ℤ (pos n) }
{
    (-(n as i128)) as i64
}

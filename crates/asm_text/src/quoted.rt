// Reading texts between quotes.
ghost use Rattle.std.specs.Prelude.{◌≡◌, ◌<◌, ◌-◌};
ghost use Rattle.asm_text.specs.declared.quoted.Spot.{Spot as SpotIn};
ghost use Rattle.asm_text.specs.Reading.{Cuts, is_plain as is_plain_in, code_of as code_in, escaped as escaped_in, step_of, scan_at, quoted_at};

use crate::cuts::behind;
use crate::miss::Unread;
use crate::numbers::is_digit;
use lua_num::ByteText;
use std::alloc::Global;

/// Where reading stands between two bytes of a text in quotes.
#[derive(Clone, Copy)]
pub enum Spot {
    /// Between two bytes of the text.
    Plain,
    /// Behind a `\`.
    Escape,
    /// Behind a `\` and these digits.
    One(u8),
    Two(u8, u8),
}

/// What a byte does there.
#[derive(Clone, Copy)]
pub enum Step {
    /// It is the closing quote.
    Close,
    /// A byte of the text ends with it.
    Byte(u8),
    /// More bytes are wanted.
    Go(Spot),
    /// No listing has it there.
    Wrong,
}

/// A text in quotes, and what is left. Only the one spelling that a listing has is taken.
#[tactic(auto, unfolding(crate::specs::Reading::quoted_at))]
pub fn quoted(alloc: Global, text: &[u8]) -> Result<(ByteText, &[u8]), Unread>
    ensures { Cuts (λ x. (x.0, x.1.now)) result (quoted_at text.now) }
{
    let rest = behind(b"\"", text)?;
    scan(alloc, rest)
}

/// The text up to the closing quote, and what is left.
fn scan(alloc: Global, text: &[u8]) -> Result<(ByteText, &[u8]), Unread>
    ensures { Cuts (λ x. (x.0, x.1.now)) result (scan_at SpotIn.Plain text.now) }
{
    let mut out = ByteText::new(alloc);
    let mut spot = Spot::Plain;
    for (at, byte) in text.iter().enumerate() {
        match step_at(spot, *byte) {
            Step::Close => return Ok((out, &text[at + 1..])),
            Step::Byte(value) => {
                out.push(value)?;
                spot = Spot::Plain;
            }
            Step::Go(next) => spot = next,
            Step::Wrong => return Err(Unread::BadForm),
        }
    }
    Err(Unread::BadForm)
}

fn step_at(spot: Spot, byte: u8) -> Step
    ensures { result ≡ step_of spot byte }
{
    match spot {
        Spot::Plain => plain_step(byte),
        Spot::Escape => escape_step(byte),
        Spot::One(first) if is_digit(byte) => Step::Go(Spot::Two(first, byte)),
        Spot::Two(first, second) if is_digit(byte) => escaped(code(first, second, byte)),
        _ => Step::Wrong,
    }
}

fn plain_step(byte: u8) -> Step
    ensures { result ≡ step_of SpotIn.Plain byte }
{
    match byte {
        b'"' => Step::Close,
        b'\\' => Step::Go(Spot::Escape),
        b' '..=b'~' => Step::Byte(byte),
        _ => Step::Wrong,
    }
}

fn escape_step(byte: u8) -> Step
    ensures { result ≡ step_of SpotIn.Escape byte }
{
    match byte {
        b'"' | b'\\' => Step::Byte(byte),
        b'n' => Step::Byte(b'\n'),
        b'0'..=b'9' => Step::Go(Spot::One(byte)),
        _ => Step::Wrong,
    }
}

/// What three digits do, which stand for a byte that has no shorter spelling.
fn escaped(code: u32) -> Step
    ensures { result ≡ escaped_in code }
{
    if code < 256 && !is_plain(code) && code != u32::from(b'\n') {
        Step::Byte(code as u8)
    } else {
        Step::Wrong
    }
}

fn is_plain(code: u32) -> bool
    ensures { result ≡ is_plain_in code }
{
    (32..=126).contains(&code)
}

/// The number of three digits.
fn code(first: u8, second: u8, third: u8) -> u32
    ensures value { result ≡ code_in first second third }
{
    digit_value(first) * 100 + digit_value(second) * 10 + digit_value(third)
}

fn digit_value(digit: u8) -> u32
    ensures value { result ≡ digit - 48 }
    ensures small { result < 208 }
{
    u32::from(digit.saturating_sub(b'0'))
}

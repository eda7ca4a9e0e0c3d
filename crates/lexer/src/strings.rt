// Short strings: where they end, and what they mean.
ghost use Rattle.std.specs.Prelude.{◌≡◌, ℕ, ◌+◌, ◌≤◌, List, ◌∷◌, ◌++◌, length, take, IfOk, IfErr};
ghost use Rattle.std.specs.List.{prefix_len};
ghost use Rattle.lua_num.specs.Numeral.{digits_value};
ghost use Rattle.lua_num.specs.Bytes.{is_digit, Each, BeginsWith};
ghost use Rattle.lua_tree.specs.Strings.{IsShort, escape_of};
ghost use Rattle.lexer.specs.Fronts.{ShortFront};
ghost use Rattle.lexer.specs.StringParts.{is_quote, StringFails, PartIs};

use crate::lines::line_end_length;
use lua_num::ByteText;
use std::alloc::{AllocError, Global};

/// What ends a short string before its closing quote.
#[derive(Clone, Copy, Debug, PartialEq, Eq)]
pub enum StringFault {
    /// A line end that is not escaped, or the end of the text.
    Unfinished,
    /// Decimal digits above 255 after a backslash, so many bytes after the quote's place.
    TooLarge { distance: usize },
}

/// What stands at a place between the quotes.
#[derive(Clone, Copy)]
enum StringPart {
    /// So many bytes that mean one.
    Item { value: u8, length: usize },
    /// The closing quote.
    Closed,
    /// A line end, or nothing, or a last backslash.
    Unfinished,
    /// A backslash and decimal digits above 255.
    TooLarge,
}

/// A backslash and at most so many decimal digits mean one byte.
const MAX_DIGITS: usize = 3;

const BELL: u8 = b'\x07';

const BACKSPACE: u8 = b'\x08';

const VERTICAL_TAB: u8 = b'\x0b';

const FORM_FEED: u8 = b'\x0c';

/// The length of the short string at the front of a text, from its quote to its closing quote. The time is linear in it.
pub fn short_length(text: &[u8]) -> Result<usize, StringFault>
    requires { BeginsWith is_quote text.now }
    ensures whole { IfOk result (λ n. ShortFront n text.now) }
    ensures fault { IfErr result (StringFails text.now) }
{
    let quote = text[0];
    let mut at = 1;
    loop {
        match string_part(quote, &text[at..]) {
            StringPart::Item { length, .. } => at += length,
            StringPart::Closed => return Ok(at + 1),
            StringPart::Unfinished => return Err(StringFault::Unfinished),
            StringPart::TooLarge => return Err(StringFault::TooLarge { distance: at }),
        }
    }
}

/// The bytes that the short string at the front of a text means, its escapes replaced. The time is linear in the string.
pub fn short_value(alloc: Global, text: &[u8]) -> Result<ByteText, AllocError>
    ensures { IfOk result (λ value. (front after bytes : List ℕ) → text.now ≡ front ++ after → IsShort front after bytes → value ≡ bytes) }
{
    let mut bytes = ByteText::new(alloc);
    let [quote, inside @ ..] = text else {
        return Ok(bytes);
    };
    let mut rest = inside;
    while let StringPart::Item { value, length } = string_part(*quote, rest) {
        bytes.push(value)?;
        rest = &rest[length..];
    }
    Ok(bytes)
}

/// What stands at the front of a text between these quotes.
fn string_part(quote: u8, text: &[u8]) -> StringPart
    ensures { PartIs quote text.now result }
{
    let [byte, after @ ..] = text else {
        return StringPart::Unfinished;
    };
    match *byte {
        b'\\' => escaped_part(after),
        b'\n' | b'\r' => StringPart::Unfinished,
        byte if byte == quote => StringPart::Closed,
        byte => StringPart::Item {
            value: byte,
            length: 1,
        },
    }
}

/// What stands at the front of a backslash and this text.
fn escaped_part(text: &[u8]) -> StringPart
    ensures { (quote : ℕ) → PartIs quote (92 ∷ text.now) result }
{
    let [byte, ..] = text else {
        return StringPart::Unfinished;
    };
    match *byte {
        b'0'..=b'9' => decimal_part(text),
        b'\n' | b'\r' => StringPart::Item {
            value: b'\n',
            length: 1 + line_end_length(text),
        },
        byte => StringPart::Item {
            value: escaped_value(byte),
            length: 2,
        },
    }
}

/// What stands at the front of a backslash and this text, which begins with a digit.
fn decimal_part(text: &[u8]) -> StringPart
    requires { BeginsWith is_digit text.now }
    ensures { (quote : ℕ) → PartIs quote (92 ∷ text.now) result }
{
    let (digits, _) = text.split_at(count_digits(text));
    match u8::try_from(decimal_value(digits)) {
        Ok(value) => StringPart::Item {
            value,
            length: 1 + digits.len(),
        },
        Err(_) => StringPart::TooLarge,
    }
}

/// How many decimal digits stand at the front, up to three.
fn count_digits(text: &[u8]) -> usize
    ensures count { result ≡ prefix_len is_digit (take 3 text.now) }
    ensures within { result ≤ length text.now }
{
    text.iter()
        .take(MAX_DIGITS)
        .take_while(|byte| byte.is_ascii_digit())
        .count()
}

/// What at most three decimal digits are worth.
fn decimal_value(digits: &[u8]) -> u16
    requires digits_are { Each is_digit digits.now }
    requires few { length digits.now ≤ 3 }
    ensures { result ≡ digits_value digits.now }
{
    let mut value: u16 = 0;
    for digit in digits {
        value = value * 10 + u16::from(*digit - b'0');
    }
    value
}

/// The byte that a byte after a backslash stands for.
fn escaped_value(byte: u8) -> u8
    ensures { result ≡ escape_of byte }
{
    match byte {
        b'a' => BELL,
        b'b' => BACKSPACE,
        b'f' => FORM_FEED,
        b'n' => b'\n',
        b'r' => b'\r',
        b't' => b'\t',
        b'v' => VERTICAL_TAB,
        other => other,
    }
}

// The bytes of a row.
use row_source::read_source;
use std::alloc::{AllocError, Global};

/// The bytes that a text names: hexadecimal digits, two a byte, with repeats and spaces; with `at` and an offset in front the
/// base with these bytes in the place of those there; with no digits the base. `cut` and a length in front cut them.
pub(crate) fn read_bytes(alloc: Global, base: &[u8], text: &str) -> Result<Vec<u8>, AllocError> {
    let Some(cut) = text.strip_prefix("cut ") else {
        return read_whole(alloc, base, text);
    };
    let (length, rest) = numbered(cut);
    let mut bytes = read_whole(alloc, base, rest)?;
    bytes.truncate(length);
    Ok(bytes)
}

fn read_whole(alloc: Global, base: &[u8], text: &str) -> Result<Vec<u8>, AllocError> {
    if text.is_empty() {
        return base.to_vec(alloc);
    }
    let Some(change) = text.strip_prefix("at ") else {
        return spelled(alloc, text);
    };
    let (offset, digits) = numbered(change);
    replaced(alloc, base, offset, &spelled(alloc, digits)?)
}

/// A number, and the text behind it.
fn numbered(text: &str) -> (usize, &str) {
    let (number, rest) = text.split_once(' ').unwrap_or((text, ""));
    (number.parse::<usize>().unwrap_or(0), rest)
}

/// Bytes with others in the place of those from an offset on.
pub(crate) fn replaced(
    alloc: Global,
    bytes: &[u8],
    offset: usize,
    others: &[u8],
) -> Result<Vec<u8>, AllocError> {
    let behind = offset.saturating_add(others.len());
    let front = bytes.iter().take(offset);
    let rest = bytes.iter().skip(behind);
    front.chain(others).chain(rest).copied().collect(alloc)
}

/// The bytes that hexadecimal digits spell; what is no digit is passed over.
fn spelled(alloc: Global, text: &str) -> Result<Vec<u8>, AllocError> {
    let mut bytes = Vec::new(alloc);
    let mut high = None;
    for digit in &read_source(alloc, text)? {
        high = match (high, hex_value(*digit)) {
            (high, None) => high,
            (None, Some(value)) => Some(value),
            (Some(high), Some(value)) => {
                bytes.push(high << 4 | value)?;
                None
            }
        };
    }
    Ok(bytes)
}

fn hex_value(digit: u8) -> Option<u8> {
    match digit {
        b'0'..=b'9' => Some(digit - b'0'),
        b'a'..=b'f' => Some(digit - b'a' + 10),
        _ => None,
    }
}

/// The hexadecimal digits that spell bytes.
pub(crate) fn hex_digits(alloc: Global, bytes: &[u8]) -> Result<String, AllocError> {
    let mut digits = String::new(alloc);
    for byte in bytes {
        digits.push_str(&format!(in alloc; "{byte:02x}")?)?;
    }
    Ok(digits)
}

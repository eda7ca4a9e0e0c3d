//! Sources as the rows of tests write them, on one line.
#![tactic(auto)]

use std::alloc::{AllocError, Global};

/// The bytes that a text writes: `$n`, `$r` and `$t` are the line feed, the carriage return and the tab, `$x` and two
/// hexadecimal digits that byte, and `$*COUNT TEXT$;` is TEXT so many times, each time with its number, from 0, for `#`.
pub fn read_source(alloc: Global, text: &str) -> Result<Vec<u8>, AllocError> {
    let mut source = Vec::new(alloc);
    let mut parts = text.split('$');
    if let Some(plain) = parts.next() {
        source.extend_from_slice(plain.as_bytes())?;
    }
    for part in parts {
        match part.strip_prefix('*') {
            Some(repeat) => push_repeat(alloc, &mut source, repeat)?,
            None => push_escape(&mut source, part.as_bytes())?,
        }
    }
    Ok(source)
}

fn push_escape(source: &mut Vec<u8>, part: &[u8]) -> Result<(), AllocError> {
    let rest = match part {
        [b'n', rest @ ..] => {
            source.push(b'\n')?;
            rest
        }
        [b'r', rest @ ..] => {
            source.push(b'\r')?;
            rest
        }
        [b't', rest @ ..] => {
            source.push(b'\t')?;
            rest
        }
        [b'x', high, low, rest @ ..] => {
            source.push(hex_value(*high) << 4 | hex_value(*low))?;
            rest
        }
        [_, rest @ ..] => rest,
        [] => part,
    };
    source.extend_from_slice(rest)
}

fn hex_value(digit: u8) -> u8 {
    match digit {
        b'0'..=b'9' => digit - b'0',
        b'a'..=b'f' => digit - b'a' + 10,
        _ => 0,
    }
}

fn push_repeat(alloc: Global, source: &mut Vec<u8>, repeat: &str) -> Result<(), AllocError> {
    let (count, text) = repeat.split_once(' ').unwrap_or((repeat, ""));
    for number in 0..count.parse::<usize>().unwrap_or(0) {
        push_numbered(alloc, source, number, text)?;
    }
    Ok(())
}

fn push_numbered(
    alloc: Global,
    source: &mut Vec<u8>,
    number: usize,
    text: &str,
) -> Result<(), AllocError> {
    let mut parts = text.split('#');
    if let Some(first) = parts.next() {
        source.extend_from_slice(first.as_bytes())?;
    }
    for part in parts {
        source.extend_from_slice(format!(in alloc; "{number}{part}")?.as_bytes())?;
    }
    Ok(())
}

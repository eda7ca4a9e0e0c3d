// What the chunk of a row's bytes comes to.
use crate::fault::RowFault;
use crate::row_bytes::{hex_digits, read_bytes};
use chunk_io::{Layout, dump, dump_as, undump};
use lister::list;
use lua_num::ByteText;
use std::alloc::{AllocError, Global};

/// From so many bytes on a text may be too long for a size of four bytes, and a chunk is not written.
const TOO_MANY_BYTES: usize = 0x1_0000_0000;

pub(crate) fn undumped(alloc: Global, bytes: &[u8]) -> Result<String, RowFault> {
    undump(alloc, bytes)?;
    Ok(String::from_str(alloc, "a chunk")?)
}

/// The listing of a chunk, with `|` for each line end.
pub(crate) fn listed(alloc: Global, bytes: &[u8]) -> Result<String, RowFault> {
    let listing = list(alloc, &undump(alloc, bytes)?)?;
    Ok(on_one_line(alloc, listing.bytes())?)
}

fn on_one_line(alloc: Global, listing: &[u8]) -> Result<String, AllocError> {
    let mut line = String::new(alloc);
    for byte in listing {
        line.push(if *byte == b'\n' {
            '|'
        } else {
            char::from(*byte)
        })?;
    }
    Ok(line)
}

/// How many bytes the stripped chunk has, and its listing.
pub(crate) fn stripped(alloc: Global, bytes: &[u8]) -> Result<String, RowFault> {
    let written = strip_and_dump(alloc, bytes)?;
    let listing = listed(alloc, written.bytes())?;
    let length = written.bytes().len();
    Ok(format!(in alloc; "{length} bytes, {listing}")?)
}

fn strip_and_dump(alloc: Global, bytes: &[u8]) -> Result<ByteText, RowFault> {
    if bytes.len() >= TOO_MANY_BYTES {
        return Err(RowFault::OutOfMemory);
    }
    let proto = undump(alloc, bytes)?.strip(alloc);
    Ok(dump(alloc, &proto)?)
}

/// The bytes of a chunk in the layout that the text names, and whether they are the same chunk, with the same listing.
pub(crate) fn written(alloc: Global, base: &[u8], text: &str) -> Result<String, RowFault> {
    let (layout, rest) = text.split_once(' ').unwrap_or((text, ""));
    let bytes = read_bytes(alloc, base, rest)?;
    let written = rewritten(alloc, &bytes, layout_of(layout))?;
    let chunk = same_chunk(alloc, &bytes, written.bytes())?;
    let listing = listed(alloc, &bytes)? == listed(alloc, written.bytes())?;
    let (chunk, listing) = (sameness(chunk), sameness(listing));
    let length = written.bytes().len();
    let digits = hex_digits(alloc, written.bytes())?;
    Ok(format!(in alloc; "{length} bytes {digits}, chunk {chunk}, listing {listing}")?)
}

/// Little or big endian, and the bytes of a size, as `le8`.
fn layout_of(word: &str) -> Layout {
    let little = word.starts_with("le");
    if word.ends_with('4') {
        Layout { little, size: 4 }
    } else {
        Layout { little, size: 8 }
    }
}

/// The bytes of a chunk, written in a layout.
pub(crate) fn rewritten(alloc: Global, bytes: &[u8], layout: Layout) -> Result<ByteText, RowFault> {
    if bytes.len() >= TOO_MANY_BYTES {
        return Err(RowFault::OutOfMemory);
    }
    let proto = undump(alloc, bytes)?;
    Ok(dump_as(alloc, &proto, layout)?)
}

/// Whether two chunks are the same but for lines: those of the texts before and behind a comma, or of the text and the base.
pub(crate) fn compared(alloc: Global, base: &[u8], text: &str) -> Result<String, RowFault> {
    let (first, second) = text.split_once(", ").unwrap_or((text, ""));
    let first = read_bytes(alloc, base, first)?;
    let second = read_bytes(alloc, base, second)?;
    let same = same_chunk(alloc, &first, &second)?;
    Ok(String::from_str(alloc, sameness(same))?)
}

fn same_chunk(alloc: Global, first: &[u8], second: &[u8]) -> Result<bool, RowFault> {
    let chunk = undump(alloc, first)?;
    Ok(chunk.same_but_lines(&undump(alloc, second)?))
}

fn sameness(same: bool) -> &'static str {
    if same { "same" } else { "different" }
}

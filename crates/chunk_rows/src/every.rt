// Each cut and each change of a chunk.
use crate::chunks::rewritten;
use crate::fault::RowFault;
use crate::row_bytes::replaced;
use chunk_io::{ChunkFault, Layout, read_layout, undump};
use std::alloc::Global;

/// Whether each cut of the bytes is truncated at its length.
pub(crate) fn cuts(alloc: Global, bytes: &[u8]) -> Result<String, RowFault> {
    for length in 0..bytes.len() {
        let (cut, _) = bytes.split_at(length);
        match undump(alloc, cut) {
            Err(ChunkFault::Truncated { at }) if at == length => {}
            Err(ChunkFault::OutOfMemory) => return Err(RowFault::OutOfMemory),
            _ => return Ok(format!(in alloc; "not the cut to {length}")?),
        }
    }
    let length = bytes.len();
    Ok(format!(in alloc; "{length} cuts, all hold")?)
}

/// Whether the bytes with another value at one place are always refused, or a chunk that is written as just these bytes.
pub(crate) fn changes(alloc: Global, bytes: &[u8]) -> Result<String, RowFault> {
    let mut refused = 0u32;
    let mut chunks = 0u32;
    for (offset, old) in bytes.iter().enumerate() {
        for value in 0..=u8::MAX {
            if value == *old {
                continue;
            }
            match outcome_of(alloc, &replaced(alloc, bytes, offset, &[value])?)? {
                Outcome::Refused => refused = refused.saturating_add(1),
                Outcome::Kept => chunks = chunks.saturating_add(1),
                Outcome::Lost => return Ok(format!(in alloc; "not {value} at {offset}")?),
            }
        }
    }
    Ok(format!(in alloc; "{refused} refused, {chunks} chunks, all hold")?)
}

/// What becomes of changed bytes.
#[derive(Clone, Copy)]
enum Outcome {
    Refused,
    /// They are a chunk, which is written as they are.
    Kept,
    Lost,
}

fn outcome_of(alloc: Global, bytes: &[u8]) -> Result<Outcome, RowFault> {
    let layout = read_layout(bytes).unwrap_or(Layout::le8());
    match rewritten(alloc, bytes, layout) {
        Ok(written) if written.bytes() == bytes => Ok(Outcome::Kept),
        Ok(_) => Ok(Outcome::Lost),
        Err(RowFault::OutOfMemory) => Err(RowFault::OutOfMemory),
        Err(_) => Ok(Outcome::Refused),
    }
}

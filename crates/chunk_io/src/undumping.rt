// Reading chunks.
ghost use Rattle.std.specs.Prelude.{◌≡◌, ◌⊎◌, ℕ, List, length, Some, IfSome, IfOk, IfErr, IsOkAnd};
ghost use Rattle.proto.specs.Chunk.{Chunk};
ghost use Rattle.proto.specs.View.{view_proto};
ghost use Rattle.chunk_io.specs.declared.layout.Layout.{Layout as OneLayout};
ghost use Rattle.chunk_io.specs.declared.fault.ChunkFault.{ChunkFault as OneFault};
ghost use Rattle.chunk_io.specs.Items.{IsChunkOf, HasLayout};
ghost use Rattle.chunk_io.specs.Faults.{IsFault, StopsBy};
ghost use Rattle.chunk_io.specs.Reading.{fault_of as the_fault_of};

use crate::fault::ChunkFault;
use crate::function::whole_of;
use crate::heading::header_of;
use crate::layout::Layout;
use crate::miss::{Miss, ReadError};
use proto::Proto;
use std::alloc::Global;

/// The chunk that the bytes spell, in the layout that their header names, or the first fault from the left. The time and
/// the memory are linear in what is read; no count is trusted before its items are there.
pub fn undump(alloc: Global, bytes: &[u8]) -> Result<Proto, ChunkFault>
    ensures chunk { IfOk result (λ proto. IsChunkOf bytes.now (view_proto proto)) }
    ensures fault { IfErr result (StopsBy bytes.now) }

    // One answer is left for all bytes, and want of memory.
    ensures only_chunk { (c : Chunk) → IsChunkOf bytes.now c → IsOkAnd result (λ proto. view_proto proto ≡ c) ⊎ (result ≡ Err ChunkFault.OutOfMemory) }
    ensures only_fault { (fault : OneFault) → IsFault bytes.now fault → (result ≡ Err fault) ⊎ (result ≡ Err ChunkFault.OutOfMemory) }
{
    match whole_of(alloc, bytes) {
        Ok((_, proto)) => Ok(proto),
        Err(ReadError::Memory) => Err(ChunkFault::OutOfMemory),
        Err(ReadError::Miss(miss)) => Err(fault_of(miss, bytes.len())),
    }
}

// The fault that a miss is, in an input of so many bytes.
fn fault_of(miss: Miss, length: usize) -> ChunkFault
    ensures { result ≡ the_fault_of miss length }
{
    let at = |left: usize| length.saturating_sub(left);
    match miss {
        Miss::Header(left) => ChunkFault::Header { at: at(left) },
        Miss::Integral => ChunkFault::Integral,
        Miss::Truncated => ChunkFault::Truncated { at: length },
        Miss::BadTag(left) => ChunkFault::BadTag { at: at(left) },
        Miss::BadString(left) => ChunkFault::BadString { at: at(left) },
        Miss::BadCount(left) => ChunkFault::BadCount { at: at(left) },
        Miss::TooDeep => ChunkFault::TooDeep,
        Miss::Trailing(left) => ChunkFault::Trailing { at: at(left) },
    }
}

/// The layout that the first 12 bytes name; none where they are no header. It takes no memory.
pub fn read_layout(bytes: &[u8]) -> Option<Layout>
    ensures some { IfSome result (λ layout. HasLayout bytes.now layout) }
    ensures only { (layout : OneLayout) → HasLayout bytes.now layout → result ≡ Some layout }
{
    match header_of(bytes) {
        Ok((layout, _)) => Some(layout),
        Err(_) => None,
    }
}

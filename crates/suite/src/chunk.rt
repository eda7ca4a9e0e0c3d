// The chunk of a file.
ghost use Rattle.std.specs.Prelude.{◌≡◌, IfOk, IfErr, IsOk};
ghost use Rattle.std.specs.String.{string_bytes};
ghost use Rattle.proto.specs.Short.{IsShort};
ghost use Rattle.proto.specs.View.{view_proto};
ghost use Rattle.chunk_io.specs.Items.{Fits, IsChunkOf};
ghost use Rattle.rules.specs.Sound.{Sound};
ghost use Rattle.front.specs.Sources.{IsCompiled};
ghost use Rattle.suite.specs.Jobs.{HasChunk, source_name as the_source_name};
ghost use Rattle.suite.specs.Refusing.{IsBadSource, IsBadChunk, HasNone, IsRefused};

use crate::outcome::Outcome;
use crate::rejection::Rejection;
use chunk_io::{ChunkFault, Layout, is_chunk, undump};
use front::{SourceFault, compiled_chunk};
use lua_num::ByteText;
use proto::Proto;
use std::alloc::{AllocError, Global};
use suite_io::Word;
use verifier::{Refusal, Verified, verify};

/// The chunk of a file, or what the work comes to where it has none: the one that its bytes spell, or that of the source.
pub fn chunk_of(alloc: Global, bytes: &[u8], file: &Word) -> Result<Proto, Outcome>
    ensures chunk { IfOk result (λ proto. HasChunk (string_bytes file.now) bytes.now (view_proto proto)) }
    ensures short { IfOk result (λ proto. IsShort (view_proto proto)) }
    ensures none { IfErr result (HasNone bytes.now) }
{
    // A law: a chunk that has a spelling has short lists.
    chunk_io::fitting_is_short();
    if is_chunk(bytes) {
        return spelled_chunk(alloc, bytes);
    }
    source_chunk(alloc, bytes, file, Layout::le8())
}

/// The chunk of a source, which has a spelling in this layout, or what the work comes to where it has none.
pub fn source_chunk(
    alloc: Global,
    bytes: &[u8],
    file: &Word,
    layout: Layout,
) -> Result<Proto, Outcome>
    ensures chunk { IfOk result (λ proto. IsCompiled (the_source_name (string_bytes file.now)) bytes.now (view_proto proto)) }
    ensures spelled { IfOk result (λ proto. Fits layout (view_proto proto)) }
    ensures none { IfErr result (IsBadSource bytes.now) }
{
    let Ok(name) = source_name(alloc, file) else {
        return Err(Outcome::OutOfMemory);
    };
    match compiled_chunk(alloc, bytes, &name, layout) {
        Ok(proto) => Ok(proto),
        Err(SourceFault::Bad(fault)) => Err(Outcome::BadSource(fault)),
        Err(SourceFault::OutOfMemory) => Err(Outcome::OutOfMemory),
    }
}

// The source name of a file: `@` and its name.
fn source_name(alloc: Global, file: &Word) -> Result<ByteText, AllocError>
    ensures { IfOk result (λ name. name ≡ the_source_name (string_bytes file.now)) }
{
    let mut name = ByteText::from_slice(alloc, b"@")?;
    name.extend(file.as_bytes())?;
    Ok(name)
}

/// The chunk that the bytes spell, or their fault.
pub fn spelled_chunk(alloc: Global, bytes: &[u8]) -> Result<Proto, Outcome>
    ensures chunk { IfOk result (λ proto. IsChunkOf bytes.now (view_proto proto)) }
    ensures short { IfOk result (λ proto. IsShort (view_proto proto)) }
    ensures none { IfErr result (IsBadChunk bytes.now) }
{
    // A law: a chunk that has a spelling has short lists.
    chunk_io::fitting_is_short();
    match undump(alloc, bytes) {
        Ok(proto) => Ok(proto),
        Err(ChunkFault::OutOfMemory) => Err(Outcome::OutOfMemory),
        Err(fault) => Err(Outcome::BadChunk(fault)),
    }
}

/// The chunk, where it is sound, or what the work comes to where it is not.
pub fn verified(alloc: Global, proto: Proto) -> Result<Verified, Outcome>
    requires short { IsShort (view_proto proto) }
    ensures is { IfOk result (λ chunk. chunk ≡ proto) }
    ensures sound { IsOk result → Sound (view_proto proto) }
    ensures refused { IfErr result (IsRefused (view_proto proto)) }
{
    match verify(alloc, proto) {
        Ok(chunk) => Ok(chunk),
        Err(Refusal::Rejected { path, pc, rule, .. }) => {
            Err(Outcome::Rejected(Rejection { path, pc, rule }))
        }
        Err(Refusal::OutOfMemory { .. }) => Err(Outcome::OutOfMemory),
    }
}

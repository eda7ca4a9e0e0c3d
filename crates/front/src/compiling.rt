// From bytes to a chunk.
ghost use Rattle.std.specs.Prelude.{◌≡◌, IfOk, Err, OnOk};
ghost use Rattle.proto.specs.View.{view_proto};
ghost use Rattle.chunk_io.specs.Items.{Fits};
ghost use Rattle.front.specs.declared.fault.Fault.{Fault};
ghost use Rattle.front.specs.Sources.{IsCompiled, IsFaultIn};

use crate::fault::SourceFault;
use crate::reading::{parsed_tree, scopes_of};
use chunk_io::{Layout, fits};
use codegen::compile;
use lua_num::ByteText;
use proto::Proto;
use std::alloc::{AllocError, Global};

/// The chunk of a source under a source name, or the source's fault. The time is about linear in the bytes.
pub fn source_chunk(alloc: Global, bytes: &[u8], name: &ByteText) -> Result<Proto, SourceFault>
    ensures chunk { IfOk result (λ proto. IsCompiled name.now bytes.now (view_proto proto)) }
    ensures bad { (fault : Fault) → result ≡ Err (SourceFault.Bad fault) → IsFaultIn bytes.now fault }
{
    let tree = parsed_tree(alloc, bytes)?;
    let scopes = scopes_of(alloc, &tree)?;
    let proto = compile(alloc, &tree, &scopes, name)?;
    Ok(proto)
}

/// The chunk of a source under a source name, or the source's fault. What it gives has a spelling in this layout; a chunk without one is taken as want
/// of memory. The time is about linear in the bytes.
pub fn compiled_chunk(
    alloc: Global,
    bytes: &[u8],
    name: &ByteText,
    layout: Layout,
) -> Result<Proto, SourceFault>
    ensures chunk { IfOk result (λ proto. IsCompiled name.now bytes.now (view_proto proto)) }
    ensures spelled { IfOk result (λ proto. Fits layout (view_proto proto)) }
    ensures bad { (fault : Fault) → result ≡ Err (SourceFault.Bad fault) → IsFaultIn bytes.now fault }
{
    let proto = source_chunk(alloc, bytes, name)?;
    check_spelling(&proto, layout)?;
    Ok(proto)
}

// That a chunk has a spelling is expected of each source of fewer than 2^28 bytes, and asked here.
fn check_spelling(proto: &Proto, layout: Layout) -> Result<(), AllocError>
    ensures { OnOk result (Fits layout (view_proto proto.now)) }
{
    if fits(proto, layout) {
        Ok(())
    } else {
        Err(AllocError)
    }
}

// From a chunk to a source.
ghost use Rattle.std.specs.Prelude.{IfOk, IfErr};
ghost use Rattle.proto.specs.Short.{IsShort};
ghost use Rattle.proto.specs.View.{view_proto};
ghost use Rattle.proto.specs.Chunk.{Chunk};
ghost use Rattle.recover_flow.specs.Debug.{HasDebug};
ghost use Rattle.lua_tree.specs.View.{view_tree};
ghost use Rattle.lua_tree.specs.WellFormed.{WellFormed};
ghost use Rattle.decompile.specs.Recoverable.{IsRecoverable, IsGiven};
ghost use Rattle.decompile.specs.Sources.{IsSourceOf, IsRefusedBy};
ghost use Rattle.decompile.specs.Given.{IsTreeFor};

use crate::refused::Refused;
use chunk_difference::first_difference;
use front::{SourceFault, source_chunk};
use lua_num::ByteText;
use lua_tree::Tree;
use printer::print_tree;
use proto::{Path, Proto};
use recover_expr::Reason;
use recover_flow::recover;
use std::alloc::Global;

/// The text of a source of a chunk: an accepted source whose chunk, under the chunk's own source name, is this one but for the numbers of lines. It is recovered and printed, and then
/// compiled again and compared, so what it gives is a source of the chunk whatever the chunk is. Its refusals say why none was found; a chunk that no source has is always refused. The chunk of a source is always given one, where
/// memory does not run out, if the source has what `IsPlainChunk` asks: its functions may have statements of every kind at any depth, `and`, `or` and comparisons stand in conditions alone, and there is room. So are those of flat sources. The time is about linear in a chunk of ordinary code.
pub fn decompile(alloc: Global, proto: &Proto) -> Result<ByteText, Refused>
    requires short { IsShort (view_proto proto.now) }
    ensures text { IfOk result (IsSourceOf (view_proto proto.now)) }
    ensures refused { IfErr result (IsRefusedBy (view_proto proto.now)) }
    ensures recoverable { IsRecoverable (view_proto proto.now) → IsGiven result }
{
    recovers::flat_sources_are_flow();
    recovers::plain_sources_are_flow();
    recovers::flow_sources_are_recovered();
    let tree = recover(alloc, proto)?;
    printed(alloc, proto, &tree)
}

// The text of a tree, where that is one of a source of the chunk; so it is given for each tree that is one.
fn printed(alloc: Global, proto: &Proto, tree: &Tree) -> Result<ByteText, Refused>
    requires told { HasDebug (view_proto proto.now) }
    requires formed { WellFormed (view_tree tree.now) }
    ensures text { IfOk result (IsSourceOf (view_proto proto.now)) }
    ensures refused { IfErr result (IsRefusedBy (view_proto proto.now)) }
    ensures given { IsTreeFor (view_proto proto.now) (view_tree tree.now) → IsGiven result }
{
    scheme_lines::lines_do_not_matter();
    let text = print_tree(alloc, tree)?;
    compared(alloc, proto, text)
}

// The text, where its chunk under the source name of this one is the same but for lines.
fn compared(alloc: Global, proto: &Proto, text: ByteText) -> Result<ByteText, Refused>
    requires told { HasDebug (view_proto proto.now) }
    ensures source { IfOk result (IsSourceOf (view_proto proto.now)) }
    ensures refused { IfErr result (IsRefusedBy (view_proto proto.now)) }
    ensures given { IsSourceOf (view_proto proto.now) text → IsGiven result }
{
    front::chunks_are_one();
    front::never_both();
    let Some(name) = &proto.source else {
        return Err(no_scheme(alloc));
    };
    let again = match source_chunk(alloc, text.bytes(), name) {
        Ok(again) => again,
        Err(SourceFault::Bad(_)) => return Err(no_scheme(alloc)),
        Err(SourceFault::OutOfMemory) => return Err(Refused::OutOfMemory),
    };
    match first_difference(alloc, proto, &again)? {
        None => Ok(text),
        Some(difference) => Err(Refused::Differs { text, difference }),
    }
}

// The whole is no source that was found.
fn no_scheme(alloc: Global) -> Refused
    ensures { (chunk : Chunk) → HasDebug chunk → IsRefusedBy chunk result }
{
    Refused::At {
        path: Path::new(alloc),
        pc: 0,
        reason: Reason::NotScheme,
    }
}

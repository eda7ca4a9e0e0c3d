//! The globals that a chunk can read and set.
#![tactic(auto)]

mod counting;
mod names;
mod text;

ghost use Rattle.std.specs.Prelude.{◌≡◌, IfOk};
ghost use Rattle.lua_num.specs.Bytes.{Text};
ghost use Rattle.proto.specs.Chunk.{Chunk};
ghost use Rattle.proto.specs.View.{view_proto};
ghost use Rattle.global_use.specs.Uses.{IsUseText};
ghost use Rattle.global_use.specs.Runs.{GetsAloneMatter, SetsAloneChange};

use lua_num::ByteText;
use proto::Proto;
use std::alloc::{AllocError, Global};
use std::collections::BTreeMap;

/// A line for each global that the words of a chunk name, in the order of the names' bytes: the name between quotes, and how
/// many words get it (GETGLOBAL) and set it (SETGLOBAL), in all functions, as `"print" gets 2 sets 0`. Words that belong to a
/// CLOSURE or a SETLIST count nothing, and code that is never reached counts. Any chunk has such a text, a wrong one too.
///
/// Of the globals that a run begins with, those that are got at least once are all that matter to how it goes, and those that
/// are set at least once are all that it changes.
///
/// Fails only where memory runs out; a count past `usize::MAX` is told as that, since no memory has so many words. The time is
/// linear in the words and constants, and each name of a function is besides looked up once among all names. The depth of the
/// stack is linear in the depth of the functions.
pub fn global_text(alloc: Global, proto: &Proto) -> Result<ByteText, AllocError>
    ensures text { IfOk result (λ text. IsUseText (view_proto proto.now) text) }
    ensures gets { GetsAloneMatter (view_proto proto.now) }
    ensures sets { SetsAloneChange (view_proto proto.now) }
{
    let mut names = BTreeMap::new(alloc);
    names::add_function(alloc, &mut names, proto)?;
    text::text_of(alloc, &names)
}

/// A chunk has one such text. A law, with nothing to run.
pub fn texts_are_one()
    ensures { (chunk : Chunk) (a b : Text) → IsUseText chunk a → IsUseText chunk b → a ≡ b }
{}

// The chunk of a source.
ghost use Rattle.std.specs.Prelude.{◌≡◌, IfOk, IfErr, OnOk};
ghost use Rattle.lua_tree.specs.View.{view_tree};
ghost use Rattle.lua_tree.specs.Resolved.{resolved};
ghost use Rattle.lua_tree.specs.Scoping.{Scoped};
ghost use Rattle.lua_tree.specs.WellFormed.{WellFormed};
ghost use Rattle.proto.specs.View.{view_proto};
ghost use Rattle.rules.specs.Sound.{Sound};
ghost use Rattle.scheme.specs.Scheme.{scheme, scheme_of, Fits};
ghost use Rattle.agrees.specs.Agrees.{Agrees};
ghost use Rattle.code_builder.specs.Drafts.{finished_draft};
ghost use Rattle.code_builder.specs.Made.{ahead_of};
ghost use Rattle.codegen.specs.Compiled.{StopsBy};
ghost use Rattle.codegen.specs.Drafted.{IsDraftOf};

use crate::functions::whole_function;
use code_builder::{Ahead, Builder, CodeFault, Draft, Heading, encode};
use lua_num::{ByteText, Names};
use lua_tree::Tree;
use proto::Proto;
use scopes::Scopes;
use std::alloc::{AllocError, Global};

/// The chunk that the code scheme has for a tree under a source name, by what the names of the tree mean; or a limit of a
/// chunk that the scheme does not keep. The time is about linear in the tree: it is gone over once, and its words once more for their
/// jumps. The chunk of a well-formed tree that keeps the rules of scoping is sound and does what the tree means. (A No-Frills Introduction to Lua 5.1 VM Instructions; at most 250 registers, 262,144 constants and 262,144 functions directly in
/// a function, and jumps of at most 131,071.)
pub fn compile(
    alloc: Global,
    tree: &Tree,
    scopes: &Scopes,
    name: &ByteText,
) -> Result<Proto, CodeFault>
    requires { scopes.now ≡ resolved (view_tree tree.now) }
    ensures chunk { IfOk result (λ proto. view_proto proto ≡ scheme (view_tree tree.now) name.now) }
    ensures fits { OnOk result (Fits (view_tree tree.now)) }
    ensures fault { IfErr result (StopsBy (view_tree tree.now)) }
    ensures sound { WellFormed (view_tree tree.now) → Scoped (view_tree tree.now) → IfOk result (λ proto. Sound (view_proto proto)) }
    ensures agrees { WellFormed (view_tree tree.now) → Scoped (view_tree tree.now) → IfOk result (λ proto. Agrees (view_tree tree.now) (view_proto proto)) }
{
    // Laws: the chunk of a source that keeps the rules is sound, and does what the source means.
    scheme_sound::compiled_source_is_sound();
    agrees::compiled_source_agrees();
    let draft = draft_of(alloc, tree, scopes, name)?;
    let proto = encode(alloc, draft)?;
    Ok(proto)
}

// The main chunk as it is made.
fn draft_of(
    alloc: Global,
    tree: &Tree,
    scopes: &Scopes,
    name: &ByteText,
) -> Result<Draft, AllocError>
    requires { scopes.now ≡ resolved (view_tree tree.now) }
    ensures { IfOk result (IsDraftOf (view_tree tree.now) name.now) }
{
    let mut builder = Builder::new(alloc, Ahead::new(scopes), Names::new(alloc));
    whole_function(alloc, &mut builder, tree.last_line, &[], &tree.body)?;
    let heading = Heading {
        source: Some(ByteText::from_slice(alloc, name.bytes())?),
        first_line: 0,
        last_line: 0,
        params: 0,
        vararg: true,
    };
    let (draft, _) = builder.finish(alloc, heading)?;
    Ok(draft)
}

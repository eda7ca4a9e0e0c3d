// From bytes to a tree and what its names mean.
ghost use Rattle.std.specs.Prelude.{◌≡◌, IfOk, IsOk, Err, slice_get};
ghost use Rattle.lua_tree.specs.View.{view_tree};
ghost use Rattle.lua_tree.specs.Scoping.{Scoped};
ghost use Rattle.lua_tree.specs.Resolved.{resolved};
ghost use Rattle.lua_tree.specs.Tiling.{Lexes};
ghost use Rattle.parser.specs.Places.{StopsBy};
ghost use Rattle.front.specs.declared.fault.Fault.{Fault as OneFault};
ghost use Rattle.front.specs.Sources.{IsRead, IsFaultIn, offset_of as the_offset};
ghost use Rattle.front.specs.Reading.{IsScopingFault};

use crate::fault::{Fault, SourceFault};
use lexer::lex;
use lua_tree::{Token, Tree};
use parser::{SyntaxFault, parse};
use scopes::{Scopes, resolve};
use std::alloc::Global;

/// The tree of a source, or its fault. The tokens are given back. The time is linear in the bytes.
pub fn parsed_tree(alloc: Global, bytes: &[u8]) -> Result<Tree, SourceFault>
    ensures tree { IfOk result (λ tree. IsRead bytes.now (view_tree tree)) }
    ensures bad { (fault : OneFault) → result ≡ Err (SourceFault.Bad fault) → IsFaultIn bytes.now fault }
{
    let tokens = lex(alloc, bytes)?;
    match parse(alloc, &tokens) {
        Ok(tree) => Ok(tree),
        Err(fault) => Err(syntax_fault(fault, tokens.items(), bytes)),
    }
}

/// What the names of a tree mean, where it keeps the rules of scoping, or the first break of them.
pub fn scopes_of(alloc: Global, tree: &Tree) -> Result<Scopes, SourceFault>
    ensures scopes { IfOk result (λ scopes. scopes ≡ resolved (view_tree tree.now)) }
    ensures scoped { IsOk result → Scoped (view_tree tree.now) }
    ensures bad { (fault : OneFault) → result ≡ Err (SourceFault.Bad fault) → IsScopingFault (view_tree tree.now) fault }
{
    let scopes = resolve(alloc, tree)?;
    Ok(scopes)
}

// What a fault of syntax is for the reader of these bytes.
fn syntax_fault(fault: SyntaxFault, tokens: &[Token], bytes: &[u8]) -> SourceFault
    requires lexed { Lexes bytes.now tokens.now }
    requires fault { StopsBy tokens.now fault }
    ensures bad { (found : OneFault) → result ≡ SourceFault.Bad found → IsFaultIn bytes.now found }
{
    match fault {
        SyntaxFault::Unexpected { at } => SourceFault::Bad(Fault::Unexpected {
            offset: offset_of(tokens, at, bytes.len()),
        }),
        SyntaxFault::TooDeep { at } => SourceFault::Bad(Fault::TooDeep {
            offset: offset_of(tokens, at, bytes.len()),
        }),
        SyntaxFault::OutOfMemory => SourceFault::OutOfMemory,
    }
}

// The offset of the token at an index, or the length of the source at the end of the tokens.
fn offset_of(tokens: &[Token], at: usize, length: usize) -> usize
    ensures { result ≡ the_offset length (slice_get tokens.now at) }
{
    match tokens.get(at) {
        Some(token) => token.at,
        None => length,
    }
}

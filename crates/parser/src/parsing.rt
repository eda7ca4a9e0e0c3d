// The tree of tokens.
ghost use Rattle.std.specs.Prelude.{◌≡◌, ◌⊎◌, IfOk, IfErr, IsOkAnd};
ghost use Rattle.lua_tree.specs.Syntax.{Source};
ghost use Rattle.lua_tree.specs.Trees.{IsTreeOf};
ghost use Rattle.lua_tree.specs.View.{view_tree, view_block};
ghost use Rattle.parser.specs.Program.{main_chunk};
ghost use Rattle.parser.specs.Finds.{Finds, Refuses};
ghost use Rattle.parser.specs.Places.{IsFaultOf, StopsBy};
ghost use Rattle.parser.specs.declared.fault.SyntaxFault.{SyntaxFault as OneFault};

use crate::cursor::{Cursor, Halt};
use crate::fault::SyntaxFault;
use crate::laws::{faults_are_one, never_both, trees_are_one};
use lua_tree::{Token, Tokens, Tree};
use std::alloc::Global;

/// The well-formed tree that tokens spell, with their lines, or the place where they are no tree.
/// (Manual 8; depth is at most 200.) The time is linear in the tokens.
pub fn parse(alloc: Global, tokens: &Tokens) -> Result<Tree, SyntaxFault>
    ensures tree { IfOk result (λ tree. IsTreeOf tokens.now (view_tree tree)) }
    ensures fault { IfErr result (StopsBy tokens.now) }

    // One answer is left for all tokens, and want of memory.
    ensures only_tree { (source : Source) → IsTreeOf tokens.now source → IsOkAnd result (λ tree. view_tree tree ≡ source) ⊎ (result ≡ Err SyntaxFault.OutOfMemory) }
    ensures only_fault { (fault : OneFault) → IsFaultOf tokens.now fault → (result ≡ Err fault) ⊎ (result ≡ Err SyntaxFault.OutOfMemory) }
{
    // Laws: tokens have one tree or one fault at most, and never both.
    trees_are_one();
    faults_are_one();
    never_both();
    parse_tokens(alloc, tokens.items())
}

fn parse_tokens(alloc: Global, tokens: &[Token]) -> Result<Tree, SyntaxFault>
    ensures tree { IfOk result (λ tree. IsTreeOf tokens.now (view_tree tree)) }
    ensures fault { IfErr result (StopsBy tokens.now) }
{
    let mut cursor = Cursor {
        rest: tokens,
        line: 1,
    };
    match cursor.source(alloc) {
        Ok(tree) => Ok(tree),
        Err(halt) => Err(fault_of(halt, tokens, cursor.rest)),
    }
}

// The fault of a halt: its place is the number of tokens before those that are left.
fn fault_of(halt: Halt, tokens: &[Token], rest: &[Token]) -> SyntaxFault
    requires { Refuses main_chunk 1 tokens.now rest.now halt }
    ensures { StopsBy tokens.now result }
{
    match halt {
        Halt::Unexpected => SyntaxFault::Unexpected {
            at: tokens.len() - rest.len(),
        },
        Halt::TooDeep => SyntaxFault::TooDeep {
            at: tokens.len() - rest.len(),
        },
        Halt::OutOfMemory => SyntaxFault::OutOfMemory,
    }
}

impl Cursor<'_> {
    /// A whole source: a block with no token behind it.
    fn source(&mut self, alloc: Global) -> Result<Tree, Halt>
        ensures found { IfOk result (λ tree. Finds main_chunk self.old.line self.old.rest.now (view_block tree.body) tree.last_line self.new.rest.now) }
        ensures refused { IfErr result (Refuses main_chunk self.old.line self.old.rest.now self.new.rest.now) }
    {
        let block = self.block(alloc, 0)?;
        if self.kind().is_some() {
            return Err(Halt::Unexpected);
        }
        Ok(Tree {
            body: block.part,
            last_line: self.line,
        })
    }
}

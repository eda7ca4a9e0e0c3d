// Words: names and keywords (manual 2.1).
ghost use Rattle.std.specs.Prelude.{IfOk};
ghost use Rattle.lua_tree.specs.Tokens.{IsWordKind};

use lua_num::ByteText;
use lua_tree::{TokenKind, keyword};
use std::alloc::{AllocError, Global};

/// What a word is: a keyword, or a name.
pub fn word_kind(alloc: Global, word: &[u8]) -> Result<TokenKind, AllocError>
    ensures { IfOk result (IsWordKind word.now) }
{
    match keyword(word) {
        Some(kind) => Ok(kind),
        None => Ok(TokenKind::Name(ByteText::from_slice(alloc, word)?)),
    }
}

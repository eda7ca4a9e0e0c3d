// Tokens that were spelled: they stand in no source, so they have no place.
ghost use Rattle.std.specs.Prelude.{◌≡◌, [], ◌∷◌, ◌++◌, OnOk};
ghost use Rattle.lua_tree.specs.TreeLists.{unplaced};

use crate::token::{Token, TokenKind, Tokens};
use lua_num::ByteText;
use std::alloc::{AllocError, Global};
use std::marker::Model;

/// Tokens with no place, in order. Contracts see their kinds.
#[derive(Drop)]
pub struct Spelled {
    tokens: Tokens,
}

impl Model for Spelled {
    ghost use Rattle.std.specs.Prelude.{◌≡◌, List};
    ghost use Rattle.lua_tree.specs.declared.token.TokenKind.{TokenKind};
    ghost use Rattle.lua_tree.specs.TreeLists.{unplaced, kinds_of};

    ghost Value = { List TokenKind };

    ghost view = { λ s. kinds_of s.tokens };

    ghost invariant = { λ s. s.tokens ≡ unplaced (kinds_of s.tokens) };
}

impl Spelled {
    /// No tokens, which takes no memory.
    pub fn new(alloc: Global) -> Self
        ensures { result ≡ [] }
    {
        Self {
            tokens: Tokens::new(alloc),
        }
    }

    /// Appends a token of this kind.
    #[tactic(auto, using(crate::proofs::TreeViews::kinds_append, crate::proofs::TreeViews::unplaced_append))]
    pub fn put(&mut self, kind: TokenKind) -> Result<(), AllocError>
        ensures { OnOk result (self.new ≡ self.old ++ kind ∷ []) }
    {
        self.tokens.push(Token {
            kind,
            at: 0,
            line: 0,
        })?;
        Ok(())
    }

    /// Appends a name.
    pub fn put_name(&mut self, alloc: Global, name: &ByteText) -> Result<(), AllocError>
        ensures { OnOk result (self.new ≡ self.old ++ TokenKind.Name name.now ∷ []) }
    {
        self.put(TokenKind::Name(ByteText::from_slice(alloc, name.bytes())?))
    }

    /// Appends a token and a name.
    pub fn put_name_behind(
        &mut self,
        alloc: Global,
        kind: TokenKind,
        name: &ByteText,
    ) -> Result<(), AllocError>
        ensures { OnOk result (self.new ≡ self.old ++ kind ∷ TokenKind.Name name.now ∷ []) }
    {
        self.put(kind)?;
        self.put_name(alloc, name)
    }

    /// Appends a string.
    pub fn put_text(&mut self, alloc: Global, text: &ByteText) -> Result<(), AllocError>
        ensures { OnOk result (self.new ≡ self.old ++ TokenKind.Text text.now ∷ []) }
    {
        self.put(TokenKind::Text(ByteText::from_slice(alloc, text.bytes())?))
    }

    /// The tokens, which takes no memory.
    pub fn into_tokens(self) -> Tokens
        ensures { result ≡ unplaced self }
    {
        self.tokens
    }
}

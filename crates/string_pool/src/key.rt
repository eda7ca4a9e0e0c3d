//! The texts of a pool as keys of its set.
ghost use Rattle.std.specs.Prelude.{◌≡◌, [], ◌∷◌};
ghost use Rattle.std.specs.Cmp.{partial_equiv_from_equiv, on_equiv, on_per};
ghost use Rattle.std.specs.Cmp.Lexicographic.{bytes_decides, nat_list_eq_equiv};
ghost use Rattle.std.specs.Str.{bytes_eq};
ghost use Rattle.std.proofs.Common.{ap};

use indexmap::Equivalent;
use std::alloc::AllocError;
use std::hash::{Hash, Hasher};
use std::marker::Model;

/// The bytes of a text. They are hashed by one write, where those of a vector are hashed one by one.
#[derive(Drop)]
pub(crate) struct Key {
    pub(crate) bytes: Vec<u8>,
}

impl Model for Key {
    ghost use Rattle.lua_num.specs.Bytes.{Text};

    ghost Value = { Text };

    ghost view = { λ k. k.bytes.items };
}

impl PartialEq for Key {
    ghost eq = { bytes_eq };

    ghost laws = { partial_equiv_from_equiv nat_list_eq_equiv };

    fn eq(&self, other: &Key) -> bool {
        self.bytes == other.bytes
    }
}

impl Eq for Key {
    ghost laws = { nat_list_eq_equiv };
}

impl Hash for Key {
    ghost hash_input = { λ k. k ∷ [] };

    ghost respects_eq = { λ x y h. ap (λ b. b ∷ []) ((bytes_decides x y).0 h) };

    fn hash<H: Hasher>(&self, state: &mut H) {
        state.write(self.bytes.as_slice());
    }
}

/// Bytes that are looked for among the keys.
#[derive(Clone, Copy)]
pub(crate) struct Sought<'a> {
    pub(crate) bytes: &'a [u8],
}

impl PartialEq for Sought<'_> {
    ghost eq = { λ x y. bytes_eq x.bytes.now y.bytes.now };

    ghost laws = { on_per (λ x. x.bytes.now) (partial_equiv_from_equiv nat_list_eq_equiv) };

    fn eq(&self, other: &Self) -> bool {
        self.bytes == other.bytes
    }
}

impl Eq for Sought<'_> {
    ghost laws = { on_equiv (λ x. x.bytes.now) nat_list_eq_equiv };
}

impl Hash for Sought<'_> {
    ghost hash_input = { λ s. s.bytes.now ∷ [] };

    ghost respects_eq = { λ x y h. ap (λ b. b ∷ []) ((bytes_decides x.bytes.now y.bytes.now).0 h) };

    fn hash<H: Hasher>(&self, state: &mut H) {
        state.write(self.bytes);
    }
}

impl Equivalent<Key> for Sought<'_> {
    ghost equivalent = { λ s. bytes_eq s.bytes.now };

    ghost respects_hash = { λ s k h. ap (λ b. b ∷ []) ((bytes_decides s.bytes.now k).0 h) };

    ghost respects_eq = { λ s. nat_list_eq_equiv.congr s.bytes.now };

    fn equivalent(&self, key: &Key) -> bool {
        self.bytes == key.bytes.as_slice()
    }
}

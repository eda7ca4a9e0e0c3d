// Builders of hashers into which a secret was written first.
use std::hash::{BuildHasher, DefaultHasher, FoldHasher, Hasher};

/// Builds a SipHash whose first bytes are secret, so that the texts that follow collide by chance alone.
#[derive(Clone, Copy)]
pub struct TextHash {
    initial: DefaultHasher,
}

impl TextHash {
    pub(crate) fn new(secret: &[u8]) -> Self {
        let mut initial = DefaultHasher::new();
        initial.write(secret);
        Self { initial }
    }
}

impl BuildHasher for TextHash {
    type Hasher = DefaultHasher;

    ghost build_hasher = { λ s. s.initial };

    fn build_hasher(&self) -> DefaultHasher {
        self.initial
    }
}

/// Builds a fast hasher, for keys that write at most 8 bytes at a time: these are joined to a secret state, and then
/// multiplied by a number that is not zero. A longer write is multiplied by its own last bytes, which may be chosen to
/// give zero: texts need `TextHash`.
#[derive(Clone, Copy)]
pub struct KeyHash {
    initial: FoldHasher,
}

impl KeyHash {
    pub(crate) fn new(secret: &[u8]) -> Self {
        let mut initial = FoldHasher::default();
        initial.write(secret);
        Self { initial }
    }
}

impl BuildHasher for KeyHash {
    type Hasher = FoldHasher;

    ghost build_hasher = { λ s. s.initial };

    fn build_hasher(&self) -> FoldHasher {
        self.initial
    }
}

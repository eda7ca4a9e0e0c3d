//! The secret that the hashes of a run begin with: without it nobody can tell which keys collide.
#![tactic(auto)]

mod builders;

pub use builders::{KeyHash, TextHash};
use std::io;
use std::random::RandomSource;

/// The secret of a run, from which its sets of texts and its maps of values hash.
#[derive(Clone, Copy)]
pub struct Seed {
    texts: TextHash,
    keys: KeyHash,
}

impl Seed {
    /// A seed of 24 random bytes. Fails where the source gives none.
    pub fn new(source: &impl RandomSource) -> io::Result<Self> {
        let mut for_texts = [0; 16];
        let mut for_keys = [0; 8];
        source.fill_bytes(&mut for_texts)?;
        source.fill_bytes(&mut for_keys)?;
        Ok(Self {
            texts: TextHash::new(&for_texts),
            keys: KeyHash::new(&for_keys),
        })
    }

    /// The same seed each time, which is no secret: for tests, and where the system gives no random bytes.
    pub fn fixed() -> Self {
        Self {
            texts: TextHash::new(&[0; 16]),
            keys: KeyHash::new(&[0; 8]),
        }
    }

    /// What hashes texts.
    pub fn texts(self) -> TextHash {
        self.texts
    }

    /// What hashes keys that write at most 8 bytes at a time.
    pub fn keys(self) -> KeyHash {
        self.keys
    }
}

// Seeds: what they make of the bytes of their source, of which no clause speaks.
use hash_seed::Seed;
use std::hash::{BuildHasher, Hasher};
use std::io;
use std::io::ErrorKind;
use std::random::RandomSource;
use std::test::Fail;

/// Gives one byte again and again, or fails.
#[derive(Drop)]
struct Source {
    byte: Option<u8>,
}

impl RandomSource for Source {
    fn fill_bytes(&self, buf: &mut [u8]) -> io::Result<()> {
        let Some(byte) = self.byte else {
            return Err(io::Error::from(ErrorKind::Unsupported));
        };
        for place in buf.iter_mut() {
            *place = byte;
        }
        Ok(())
    }
}

fn hashes(seed: Seed, bytes: &[u8]) -> (u64, u64) {
    let mut text = seed.texts().build_hasher();
    text.write(bytes);
    let mut key = seed.keys().build_hasher();
    key.write(bytes);
    (text.finish(), key.finish())
}

#[test]
fn a_seed_hashes_by_the_bytes_of_its_source(rt: HostRuntime) -> Result<(), Fail> {
    let ones = hashes(Seed::new(&Source { byte: Some(1) })?, b"key");
    let twos = hashes(Seed::new(&Source { byte: Some(2) })?, b"key");
    let ones_again = hashes(Seed::new(&Source { byte: Some(1) })?, b"key");
    assert_ne!(rt; ones.0, twos.0);
    assert_ne!(rt; ones.1, twos.1);
    assert_eq!(rt; ones, ones_again);

    let _system = Seed::new(&rt)?;
    assert!(rt; Seed::new(&Source { byte: None }).is_err());
    Ok(())
}

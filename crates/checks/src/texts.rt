// Many texts, with ample memory, whose last bytes a hasher with a known factor turns into zero.
use hash_seed::Seed;
use std::test::Fail;
use string_pool::Pool;

#[test]
fn texts_that_end_alike_are_interned_fast(rt: HostRuntime) -> Result<(), Fail> {
    let alloc = rt.alloc();
    let mut pool = Pool::new(alloc, Seed::fixed());
    let mut last = 0;
    for n in 0..300_000 {
        let mut text = Vec::new(alloc);
        text.extend_from_slice(format!(in alloc; "{n}")?.as_bytes())?;
        text.extend_from_slice(b"\x15\x7c\x4a\x7f\xb9\x79\x37\x9e")?;
        last = pool.intern(alloc, text.as_slice())?.index;
    }
    assert_eq!(rt; last, 299_999);
    Ok(())
}

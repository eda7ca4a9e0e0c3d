// A long table, with ample memory.
use hash_seed::Seed;
use lua_model::Value;
use lua_table::Table;
use std::test::Fail;

#[test]
fn a_border_follows_what_is_set(rt: HostRuntime) -> Result<(), Fail> {
    let mut table = Table::new(rt.alloc(), Seed::fixed());
    for n in 1..=200_000 {
        table.set(Value::Number(n), Value::Number(n))?;
    }
    for n in (100_001..=200_000).rev() {
        table.set(Value::Number(n), Value::Nil)?;
    }
    assert_eq!(rt; table.border(), 100_000);
    table.set(Value::Number(100_002), Value::Bool(true))?;
    table.set(Value::Number(100_001), Value::Bool(true))?;
    assert_eq!(rt; table.border(), 100_002);
    table.set(Value::Number(1), Value::Nil)?;
    assert_eq!(rt; table.border(), 0);
    for _ in 0..200_000 {
        table.set(Value::Number(1), Value::Bool(true))?;
        table.set(Value::Number(1), Value::Nil)?;
    }
    table.set(Value::Number(1), Value::Bool(true))?;
    assert_eq!(rt; table.border(), 100_002);
    Ok(())
}

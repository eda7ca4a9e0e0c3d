// Nil, and numbers as places from 0 in a row whose first key is 1.
ghost use Rattle.std.specs.Prelude.{◌≡◌, ◌+◌, ◌<◌, ◌^◌, IfSome, IfNone, IsTrue, ◌↔◌};
ghost use Rattle.lua_table.specs.Entries.{is_nil_value, number_key};
ghost use Rattle.lua_table.specs.Rows.{IsOutside};

use lua_model::Value;

pub(crate) fn is_nil(value: Value) -> bool
    ensures { result ≡ is_nil_value value }
{
    matches!(value, Value::Nil)
}

/// The number as a key.
pub(crate) fn number(n: usize) -> Value
    requires { n < 2 ^ 63 }
    ensures { result ≡ number_key n }
{
    Value::Number(n as i64)
}

/// Where a key stands among the first `len` numbers from 1.
pub(crate) fn slot(key: Value, len: usize) -> Option<usize>
    ensures found { IfSome result (λ i. (i < len) × (key ≡ number_key (i + 1))) }
    ensures missing { IfNone result (IsOutside len key) }
{
    let Value::Number(n) = key else {
        return None;
    };
    if n < 1 {
        return None;
    }
    let i = n as usize - 1;
    if i < len { Some(i) } else { None }
}

/// Whether the key is the number after `len`.
pub(crate) fn is_after(key: Value, len: usize) -> bool
    ensures { IsTrue result ↔ (key ≡ number_key (len + 1)) }
{
    let Value::Number(n) = key else {
        return false;
    };
    n >= 1 && n as usize - 1 == len
}

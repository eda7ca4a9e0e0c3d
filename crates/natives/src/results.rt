// Results of built-in functions.
ghost use Rattle.std.specs.Prelude.{◌≡◌, IfOk};

use crate::native_act::NativeAct;
use lua_heap::ValueList;
use lua_model::Value;
use std::alloc::{AllocError, Global};

/// The answer that these values are the results.
pub fn results(alloc: Global, values: &[Value]) -> Result<NativeAct, AllocError>
    ensures { IfOk result (λ r. r ≡ NativeAct.Values values.now) }
{
    Ok(NativeAct::Values(ValueList::from_slice(alloc, values)?))
}

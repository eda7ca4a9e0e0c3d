// Copies of plain values and of replies.
ghost use Rattle.std.specs.Prelude.{◌≡◌, IfOk};

use lua_model::{Plain, PlainList, Reply};
use lua_num::ByteText;
use std::alloc::{AllocError, Global};

// A copy of a value.
fn copy_plain(alloc: Global, value: &Plain) -> Result<Plain, AllocError>
    ensures { IfOk result (λ copy. copy ≡ value.now) }
{
    match value {
        Plain::Nil => Ok(Plain::Nil),
        Plain::Bool(b) => Ok(Plain::Bool(*b)),
        Plain::Number(n) => Ok(Plain::Number(*n)),
        Plain::Text(text) => {
            let text = ByteText::from_slice(alloc, text.bytes())?;
            Ok(Plain::Text(text))
        }
    }
}

// A copy of the values.
pub(crate) fn copy_values(alloc: Global, values: &[Plain]) -> Result<PlainList, AllocError>
    ensures { IfOk result (λ copy. copy ≡ values.now) }
{
    let mut copy = Vec::with_capacity(alloc, values.len())?;
    for value in values {
        copy.push(copy_plain(alloc, value)?)?;
    }
    Ok(PlainList::from_vec(copy))
}

// A copy of a reply.
pub(crate) fn copy_reply(alloc: Global, reply: &Reply) -> Result<Reply, AllocError>
    ensures { IfOk result (λ copy. copy ≡ reply.now) }
{
    match reply {
        Reply::Values(values) => {
            let values = copy_values(alloc, values.items())?;
            Ok(Reply::Values(values))
        }
        Reply::Fail(text) => {
            let text = ByteText::from_slice(alloc, text.bytes())?;
            Ok(Reply::Fail(text))
        }
        Reply::OutOfMemory => Ok(Reply::OutOfMemory),
    }
}

// Whether a chunk tells what its source is recovered by.
ghost use Rattle.std.specs.Prelude.{◌≡◌, IfOk, IfSome, Ok, None, map, true, false};
ghost use Rattle.proto.specs.Chunk.{functions_of, own};
ghost use Rattle.proto.specs.View.{view_proto};
ghost use Rattle.recover_flow.specs.Debug.{HasDebug, LacksDebug, Tells};
ghost use Rattle.recover_flow.specs.Untold.{IsFoundBelow, IsFoundIn};

use proto::{Path, Proto};
use std::alloc::{AllocError, Global};

/// The path of the first function that does not tell what the source is recovered by, a function before those in it, or none. The time is linear in the number of functions.
pub fn untold(alloc: Global, proto: &Proto) -> Result<Option<Path>, AllocError>
    ensures none { result ≡ Ok None → HasDebug (view_proto proto.now) }
    ensures some { IfOk result (λ found. IfSome found (LacksDebug (view_proto proto.now))) }
{
    let mut path = Path::new(alloc);
    if proto.source.is_none() || has_untold(proto, &mut path)? {
        Ok(Some(path))
    } else {
        Ok(None)
    }
}

// Whether a function, or one in it, does not tell; the path to the first such is put behind the path.
#[cycle(debug)]
fn has_untold(proto: &Proto, path: &mut Path) -> Result<bool, AllocError>
    ensures { IfOk result (IsFoundBelow (view_proto proto.now) path.old path.new) }
{
    if tells(proto) {
        have_untold(proto.functions.items(), path)
    } else {
        Ok(true)
    }
}

#[cycle(debug)]
fn have_untold(protos: &[Proto], path: &mut Path) -> Result<bool, AllocError>
    ensures { IfOk result (IsFoundIn (functions_of (map view_proto protos.now)) path.old path.new) }
{
    let mut number: u32 = 0;
    for proto in protos {
        path.push(number)?;
        if has_untold(proto, path)? {
            return Ok(true);
        }
        path.pop();
        number = number.checked_add(1).ok_or(AllocError)?;
    }
    Ok(false)
}

// A line for each word, and a name for each upvalue.
fn tells(proto: &Proto) -> bool
    ensures yes { result ≡ true → Tells (own (view_proto proto.now)) }
    ensures no { result ≡ false → Tells (own (view_proto proto.now)) → ⊥ }
{
    proto.lines.items().len() == proto.code.items().len()
        && proto.upvalue_names.items().len() == usize::from(proto.upvalues)
}

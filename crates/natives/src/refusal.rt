// Why built-in functions have no results, and the failures that they are.
ghost use Rattle.std.specs.Prelude.{◌≡◌, ◌++◌, pos, map, IfOk, codes};
ghost use Rattle.lua_num.specs.Numeral.{decimal_text};
ghost use Rattle.lua_model.specs.Acts.{NativeAct, fails};
ghost use Rattle.lua_model.specs.Builtins.{fails_with, got as got_of, wrong_argument as wrong_argument_of};
ghost use Rattle.std.specs.Option.{option_map};
ghost use Rattle.lua_heap.specs.State.{HeapState, datum, IsOf};
ghost use Rattle.natives.specs.declared.refusal.Refusal.TheVariants.{OutOfMemory};
ghost use Rattle.lua_heap.specs.Grown.{Grown};
ghost use Rattle.natives.specs.Refusals.{Refuses};

use crate::arguments::argument;
use lua_heap::{Heap, kind_name, text_value};
use lua_model::Value;
use lua_num::{ByteText, decimal};
use std::alloc::{AllocError, Global};

/// Why a built-in function has no results: it fails with a text, for an argument that is not taken or is of another kind
/// than the wanted one among them, or memory runs out.
#[derive(Clone, Copy, Debug, Drop)]
pub enum Refusal {
    Text(&'static [u8]),
    BadArgument {
        position: u8,
        function: &'static [u8],
        what: &'static [u8],
    },
    WrongArgument {
        position: u8,
        function: &'static [u8],
        wanted: &'static [u8],
    },
    OutOfMemory,
}

impl From<AllocError> for Refusal {
    ghost from_gives = { λ _ refusal. refusal ≡ OutOfMemory };

    fn from(_error: AllocError) -> Self {
        Refusal::OutOfMemory
    }
}

/// The value of the failure that a refusal of these arguments is. Fails where memory runs out, and where it had run out.
pub fn failure(
    alloc: Global,
    heap: &mut Heap,
    args: &[Value],
    refusal: Refusal,
) -> Result<Value, AllocError>
    ensures failure { IfOk result (λ v. (act : NativeAct) → Refuses act (map (datum heap.old) args.now) refusal → act ≡ fails (datum heap.new v)) }
    ensures known { IfOk result (IsOf heap.new) }
    ensures grown { Grown heap.old heap.new }
{
    let message = message(alloc, args, refusal)?;
    let value = text_value(alloc, heap, message.bytes())?;
    Ok(value)
}

fn message(alloc: Global, args: &[Value], refusal: Refusal) -> Result<ByteText, AllocError>
    ensures { IfOk result (λ t. (h : HeapState) (act : NativeAct) → Refuses act (map (datum h) args.now) refusal → act ≡ fails_with t) }
{
    match refusal {
        Refusal::Text(text) => ByteText::from_slice(alloc, text),
        Refusal::BadArgument {
            position,
            function,
            what,
        } => bad_argument(alloc, position, function, what),
        Refusal::WrongArgument {
            position,
            function,
            wanted,
        } => wrong_argument(alloc, args, position, function, wanted),
        Refusal::OutOfMemory => Err(AllocError),
    }
}

fn wrong_argument(
    alloc: Global,
    args: &[Value],
    position: u8,
    function: &[u8],
    wanted: &[u8],
) -> Result<ByteText, AllocError>
    ensures { IfOk result (λ t. (h : HeapState) → fails_with t ≡ wrong_argument_of position function.now wanted.now (map (datum h) args.now)) }
{
    let mut what = ByteText::from_slice(alloc, wanted)?;
    what.extend(b" expected, got ")?;
    what.extend(got(argument(args, position)))?;
    let text = bad_argument(alloc, position, function, what.bytes())?;
    Ok(text)
}

fn bad_argument(
    alloc: Global,
    position: u8,
    function: &[u8],
    what: &[u8],
) -> Result<ByteText, AllocError>
    ensures { IfOk result (λ t. t ≡ codes "bad argument #" ++ decimal_text (pos position) ++ codes " to '" ++ function.now ++ codes "' (" ++ what.now ++ codes ")") }
{
    let text = argument_failure(alloc, i64::from(position), function, what)?;
    Ok(text)
}

/// The text of a failure for the argument at this position, from 1.
pub fn argument_failure(
    alloc: Global,
    position: i64,
    function: &[u8],
    what: &[u8],
) -> Result<ByteText, AllocError>
    ensures { IfOk result (λ t. t ≡ codes "bad argument #" ++ decimal_text position ++ codes " to '" ++ function.now ++ codes "' (" ++ what.now ++ codes ")") }
{
    let mut text = ByteText::from_slice(alloc, b"bad argument #")?;
    let digits = decimal(alloc, position)?;
    text.extend(digits.bytes())?;
    text.extend(b" to '")?;
    text.extend(function)?;
    text.extend(b"' (")?;
    text.extend(what)?;
    text.extend(b")")?;
    Ok(text)
}

/// What was got in the place of an argument.
fn got(argument: Option<Value>) -> &'static [u8]
    ensures { (h : HeapState) → result.now ≡ got_of (option_map (datum h) argument) }
{
    match argument {
        Some(v) => kind_name(v),
        None => b"no value",
    }
}

// Finding the first difference.
ghost use Rattle.std.specs.Prelude.{◌≡◌, IfOk, IfSome, Ok, None, map, length};
ghost use Rattle.proto.specs.Chunk.{SameButLines, functions_of};
ghost use Rattle.proto.specs.View.{view_proto};
ghost use Rattle.chunk_difference.specs.Difference.{IsFirstDifference};
ghost use Rattle.chunk_difference.specs.Finding.{IsFoundBelow, IsFoundAmong};

use crate::difference::{Difference, Part};
use crate::lists::Unlike;
use crate::parts::own_difference;
use proto::{Path, Proto};
use std::alloc::{AllocError, Global};

/// The first place at which two chunks differ beside the numbers of lines, or none exactly where they are the same but for these. A place
/// that 32 bits do not count is want of memory. The time is linear in the chunks.
pub fn first_difference(
    alloc: Global,
    had: &Proto,
    got: &Proto,
) -> Result<Option<Difference>, AllocError>
    ensures none { result ≡ Ok None → SameButLines (view_proto had.now) (view_proto got.now) }
    ensures some { SameButLines (view_proto had.now) (view_proto got.now) → IfOk result (λ found. found ≡ None) }
    ensures differs { IfOk result (λ found. IfSome found (IsFirstDifference (view_proto had.now) (view_proto got.now))) }
{
    let mut path = Path::new(alloc);
    let Some((part, unlike)) = difference_below(had, got, &mut path)? else {
        return Ok(None);
    };
    Ok(Some(Difference {
        path,
        part,
        at: unlike.at,
        had: unlike.had,
        got: unlike.got,
    }))
}

// The first difference of two functions and those in them. Where there is one, its path from these is put behind the path.
#[cycle(difference)]
fn difference_below(
    had: &Proto,
    got: &Proto,
    path: &mut Path,
) -> Result<Option<(Part, Unlike)>, AllocError>
    ensures { IfOk result (IsFoundBelow (view_proto had.now) (view_proto got.now) path.old path.new) }
{
    if let Some(found) = own_difference(had, got)? {
        return Ok(Some(found));
    }
    difference_among(had.functions.items(), got.functions.items(), path)
}

// The first difference of functions in one and in another, as many in both.
#[cycle(difference)]
fn difference_among(
    had: &[Proto],
    got: &[Proto],
    path: &mut Path,
) -> Result<Option<(Part, Unlike)>, AllocError>
    ensures { length had.now ≡ length got.now → IfOk result (IsFoundAmong (functions_of (map view_proto had.now)) (functions_of (map view_proto got.now)) path.old path.new) }
{
    let mut number: u32 = 0;
    for (mine, other) in had.iter().zip(got) {
        path.push(number)?;
        if let Some(found) = difference_below(mine, other, path)? {
            return Ok(Some(found));
        }
        path.pop();
        number = number.checked_add(1).ok_or(AllocError)?;
    }
    Ok(None)
}

// Lists of two functions, compared from the front.
ghost use Rattle.std.specs.Prelude.{◌≡◌, ◌∷◌, [], IfOk, IfSome, IfNone, Some, None, Ok};
ghost use Rattle.std.specs.Bool.{Decides};
ghost use Rattle.chunk_difference.specs.Difference.{DifferFirst, NumbersDiffer, EntriesDiffer, SourcesDiffer, OneIsNone, source_bytes as the_source_bytes};

use lua_num::ByteText;
use proto::{Constant, LocVar};
use std::alloc::AllocError;

/// Where a part of two functions differs, and the numbers that stand there, if it is made of numbers.
#[derive(Clone, Copy, Debug, PartialEq, Eq)]
pub struct Unlike {
    pub at: u32,
    pub had: Option<u32>,
    pub got: Option<u32>,
}

/// Where lists of numbers differ.
pub fn numbers_differ(had: &[u32], got: &[u32]) -> Result<Option<Unlike>, AllocError>
    ensures none { result ≡ Ok None → had.now ≡ got.now }
    ensures some { IfOk result (λ found. IfSome found (λ u. NumbersDiffer had.now got.now u.at u.had u.got)) }
{
    let Some(at) = first_unlike(had, got) else {
        return Ok(None);
    };
    Ok(Some(Unlike {
        at: u32::try_from(at).map_err(|_| AllocError)?,
        had: had.get(at).copied(),
        got: got.get(at).copied(),
    }))
}

/// Where lists of constants differ.
pub fn constants_differ(had: &[Constant], got: &[Constant]) -> Result<Option<Unlike>, AllocError>
    ensures none { result ≡ Ok None → had.now ≡ got.now }
    ensures some { IfOk result (λ found. IfSome found (λ u. EntriesDiffer had.now got.now u.at u.had u.got)) }
{
    without_numbers(first_unlike(had, got))
}

/// Where lists of locals differ.
pub fn locals_differ(had: &[LocVar], got: &[LocVar]) -> Result<Option<Unlike>, AllocError>
    ensures none { result ≡ Ok None → had.now ≡ got.now }
    ensures some { IfOk result (λ found. IfSome found (λ u. EntriesDiffer had.now got.now u.at u.had u.got)) }
{
    without_numbers(first_unlike(had, got))
}

/// Where lists of names differ.
pub fn names_differ(had: &[ByteText], got: &[ByteText]) -> Result<Option<Unlike>, AllocError>
    ensures none { result ≡ Ok None → had.now ≡ got.now }
    ensures some { IfOk result (λ found. IfSome found (λ u. EntriesDiffer had.now got.now u.at u.had u.got)) }
{
    without_numbers(first_unlike(had, got))
}

/// Where counts differ, as lists of one number each.
pub fn counts_differ(had: usize, got: usize) -> Result<Option<Unlike>, AllocError>
    ensures none { result ≡ Ok None → had ≡ got }
    ensures some { IfOk result (λ found. IfSome found (λ u. NumbersDiffer (had ∷ []) (got ∷ []) u.at u.had u.got)) }
{
    if had == got {
        return Ok(None);
    }
    Ok(Some(Unlike {
        at: 0,
        had: Some(u32::try_from(had).map_err(|_| AllocError)?),
        got: Some(u32::try_from(got).map_err(|_| AllocError)?),
    }))
}

/// Where sources differ: by their bytes, or one is empty and the other none.
pub fn sources_differ(
    had: &Option<ByteText>,
    got: &Option<ByteText>,
) -> Result<Option<Unlike>, AllocError>
    ensures none { result ≡ Ok None → had.now ≡ got.now }
    ensures some { IfOk result (λ found. IfSome found (λ u. SourcesDiffer had.now got.now u.at u.had u.got)) }
{
    let (mine, other) = (source_bytes(had), source_bytes(got));
    let Some(at) = first_unlike(mine, other) else {
        return Ok(one_is_none(had, got));
    };
    Ok(Some(Unlike {
        at: u32::try_from(at).map_err(|_| AllocError)?,
        had: mine.get(at).copied().map(u32::from),
        got: other.get(at).copied().map(u32::from),
    }))
}

fn one_is_none(had: &Option<ByteText>, got: &Option<ByteText>) -> Option<Unlike>
    requires { the_source_bytes had.now ≡ the_source_bytes got.now }
    ensures none { result ≡ None → had.now ≡ got.now }
    ensures some { IfSome result (λ u. OneIsNone had.now got.now u.at u.had u.got) }
{
    if had.is_some() == got.is_some() {
        return None;
    }
    Some(Unlike {
        at: 0,
        had: None,
        got: None,
    })
}

fn source_bytes(source: &Option<ByteText>) -> &[u8]
    ensures { result.now ≡ the_source_bytes source.now }
{
    match source {
        Some(text) => text.bytes(),
        None => &[],
    }
}

// A place at which no numbers stand.
fn without_numbers(at: Option<usize>) -> Result<Option<Unlike>, AllocError>
    ensures none { result ≡ Ok None → at ≡ None }
    ensures some { IfOk result (λ found. IfSome found (λ u. (at ≡ Some u.at) × (u.had ≡ None) × (u.got ≡ None))) }
{
    let Some(at) = at else {
        return Ok(None);
    };
    Ok(Some(Unlike {
        at: u32::try_from(at).map_err(|_| AllocError)?,
        had: None,
        got: None,
    }))
}

// The first place at which lists differ, one of which may end there; `None` where they are the same.
fn first_unlike<T: PartialEq>(had: &[T], got: &[T]) -> Option<usize>
    requires decides { (x y : T) → Decides (T.eq x y) (x ≡ y) }
    ensures none { IfNone result (had.now ≡ got.now) }
    ensures some { IfSome result (DifferFirst had.now got.now) }
{
    let shared = had.len().min(got.len());
    for at in 0..shared {
        if had[at] != got[at] {
            return Some(at);
        }
    }
    if had.len() == got.len() {
        None
    } else {
        Some(shared)
    }
}

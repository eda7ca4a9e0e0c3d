// The text that tells which globals a chunk gets and sets.
ghost use Rattle.std.specs.Prelude.{◌≡◌, ◌++◌, map, All, IfOk, OnOk, Some};
ghost use Rattle.std.specs.List.{flat_map};
ghost use Rattle.global_use.specs.Uses.{use_line};
ghost use Rattle.global_use.specs.Counts.{IsInOrder, counts_at};
ghost use Rattle.lister.specs.Listing.{digits};

use crate::counting::Counts;
use lister::put_quoted;
use lua_num::ByteText;
use std::alloc::{AllocError, Global};
use std::collections::BTreeMap;

/// A line for each name of a table, in the order of the names.
pub fn text_of(alloc: Global, names: &BTreeMap<&[u8], Counts>) -> Result<ByteText, AllocError>
    ensures text { IfOk result (λ text. text ≡ flat_map (λ e. use_line e.0.now e.1.gets e.1.sets) names.now.entries) }
    ensures in_order { OnOk result (IsInOrder names.now) }
    ensures found { OnOk result (All (λ e. counts_at names.now e.0.now ≡ Some e.1) names.now.entries) }
{
    let mut out = ByteText::new(alloc);
    for (name, counts) in names {
        put_use(alloc, &mut out, name, *counts)?;
    }
    Ok(out)
}

/// Appends the line of a name.
fn put_use(alloc: Global, out: &mut ByteText, name: &[u8], counts: Counts) -> Result<(), AllocError>
    ensures { OnOk result (out.new ≡ out.old ++ use_line name.now counts.gets counts.sets) }
{
    put_quoted(out, name)?;
    out.extend(b" gets ")?;
    put_number(alloc, out, counts.gets)?;
    out.extend(b" sets ")?;
    put_number(alloc, out, counts.sets)?;
    out.push(b'\n')
}

/// Appends a number in decimal digits.
fn put_number(alloc: Global, out: &mut ByteText, n: usize) -> Result<(), AllocError>
    ensures { OnOk result (out.new ≡ out.old ++ digits n) }
{
    out.extend(n.to_string(alloc)?.as_bytes())
}

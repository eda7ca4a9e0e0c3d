// Sizes of constructors, and their blocks of items.
ghost use Rattle.std.specs.Prelude.{◌≡◌, ◌<◌, IfOk, OnOk};
ghost use Rattle.lua_tree.specs.TreeLists.{fields_of};
ghost use Rattle.scheme.specs.Lists as lists;
ghost use Rattle.scheme.specs.Scheme.{entries};
ghost use Rattle.code_builder.specs.Made.{maker_of};
ghost use Rattle.codegen.specs.Items.{is_positional, is_open as the_is_open, done_behind, pending_behind};

use crate::kinds::is_multiple;
use crate::words::{plus, put_abc};
use code_builder::Builder;
use lua_tree::{Item, ItemKind};
use opcode::Op;
use scheme::Piece;
use std::alloc::AllocError;

/// The hint of a size.
pub fn size_hint(n: u32) -> Result<u32, AllocError>
    ensures { IfOk result (λ hint. hint ≡ lists.size_hint n) }
{
    if n < 8 {
        return Ok(n);
    }
    let mut halvings: u64 = 0;
    let mut rest = u64::from(n);
    while rest >= 16 {
        rest = (rest + 1) / 2;
        halvings += 1;
    }
    let hint = (halvings + 1) * 8 + (rest - 8);
    u32::try_from(hint).map_err(|_| AllocError)
}

// Whether an item counts as positional: an open last one does not.
fn is_counted(item: &Item, last: bool) -> bool
    ensures { result ≡ is_positional last item.now.kind }
{
    match &item.kind {
        ItemKind::Positional(e) => !(last && is_multiple(e)),
        ItemKind::Named(..) | ItemKind::Keyed(..) => false,
    }
}

/// Whether an item is a last positional one with open results.
pub fn is_open(kind: &ItemKind, last: bool) -> bool
    ensures { result ≡ the_is_open last kind.now }
{
    match kind {
        ItemKind::Positional(e) => last && is_multiple(e),
        ItemKind::Named(..) | ItemKind::Keyed(..) => false,
    }
}

/// How many positional items are done behind an item, and how many of these are pending.
pub fn counts_behind(kind: &ItemKind, done: u32, pending: u32) -> Result<(u32, u32), AllocError>
    requires { pending < 50 }
    ensures done { IfOk result (λ counts. counts.0 ≡ done_behind kind.now done) }
    ensures pending { IfOk result (λ counts. counts.1 ≡ pending_behind kind.now pending) }
    ensures few { IfOk result (λ counts. counts.1 < 50) }
{
    match kind {
        ItemKind::Positional(_) => {
            let more = pending + 1;
            Ok((plus(done, 1)?, if more == 50 { 0 } else { more }))
        }
        ItemKind::Named(..) | ItemKind::Keyed(..) => Ok((done, pending)),
    }
}

/// Fifty pending items go into the table.
pub fn full_end(
    builder: &mut Builder,
    line: u32,
    t: u32,
    done: u32,
    pending: u32,
) -> Result<(), AllocError>
    ensures { OnOk result (maker_of builder.new ≡ lists.full_end line t done pending (maker_of builder.old)) }
{
    if pending == 50 {
        set_list(builder, line, t, 50, done)?;
    }
    Ok(())
}

/// How many items are positional, but for an open last one.
pub fn positional_count(items: &[Item]) -> usize
    ensures { result ≡ lists.positional_count (entries (fields_of items.now)) }
{
    let mut count = 0;
    for (i, item) in items.iter().enumerate() {
        if is_counted(item, i + 1 == items.len()) {
            count += 1;
        }
    }
    count
}

/// How many items have a name or a key.
pub fn other_count(items: &[Item]) -> usize
    ensures { result ≡ lists.other_count (entries (fields_of items.now)) }
{
    let mut count = 0;
    for item in items {
        match &item.kind {
            ItemKind::Positional(_) => {}
            ItemKind::Named(..) | ItemKind::Keyed(..) => count += 1,
        }
    }
    count
}

/// So many pending items go into the table, where so many positional ones were done; none where the items are open.
pub fn set_list(
    builder: &mut Builder,
    line: u32,
    t: u32,
    n: u32,
    done: u32,
) -> Result<(), AllocError>
    ensures { OnOk result (maker_of builder.new ≡ lists.set_list line t n done (maker_of builder.old)) }
{
    let block = done.saturating_sub(1) / 50 + 1;
    if block <= 511 {
        put_abc(builder, line, Op::SetList, t, n, block)?;
    } else {
        put_abc(builder, line, Op::SetList, t, n, 0)?;
        builder.put(line, Piece::Bare(block))?;
    }
    builder.free_from(plus(t, 1)?);
    Ok(())
}

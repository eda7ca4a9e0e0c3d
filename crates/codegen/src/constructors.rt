// Constructors of tables.
ghost use Rattle.std.specs.Prelude.{◌≡◌, OnOk, IfOk};
ghost use Rattle.lua_tree.specs.View.{view_exp, view_items};
ghost use Rattle.lua_tree.specs.TreeLists.{fields_of};
ghost use Rattle.scheme.specs.Making as making;
ghost use Rattle.scheme.specs.Expressions as parts;
ghost use Rattle.scheme.specs.Lists as lists;
ghost use Rattle.scheme.specs.Scheme.{coded, entries};
ghost use Rattle.code_builder.specs.Made.{maker_of};
ghost use Rattle.codegen.specs.Items.{open_part, closed_part};

use crate::calls::multi;
use crate::expressions::{next_reg, rk};
use crate::tables::{
    counts_behind, full_end, is_open, other_count, positional_count, set_list, size_hint,
};
use crate::words::{plus, put_abc, rk_text};
use code_builder::{Builder, field};
use lua_tree::{Exp, Item, ItemKind, Items};
use opcode::Op;
use std::alloc::{AllocError, Global};

/// A new table in the next register.
#[cycle(source)]
pub fn table_at(
    alloc: Global,
    builder: &mut Builder,
    line: u32,
    items: &Items,
) -> Result<(), AllocError>
    ensures { OnOk result (maker_of builder.new ≡ lists.table_at line (entries (view_items items.now)) (maker_of builder.old)) }
{
    let t = builder.free;
    let items = items.items();
    let positional = size_hint(field(positional_count(items))?)?;
    let others = size_hint(field(other_count(items))?)?;
    put_abc(builder, line, Op::NewTable, t, positional, others)?;
    builder.take_registers(1)?;
    all_items(alloc, builder, line, t, items)?;
    builder.free_from(plus(t, 1)?);
    Ok(())
}

// The items of a constructor go into its table, positional ones by fifty.
#[cycle(source)]
fn all_items(
    alloc: Global,
    builder: &mut Builder,
    line: u32,
    t: u32,
    items: &[Item],
) -> Result<(), AllocError>
    ensures { OnOk result (maker_of builder.new ≡ lists.entries_from line t 0 0 (entries (fields_of items.now)) (maker_of builder.old)) }
{
    let mut done: u32 = 0;
    let mut pending: u32 = 0;
    for (i, item) in items.iter().enumerate() {
        if is_open(&item.kind, i + 1 == items.len()) {
            return open_item(alloc, builder, line, t, &item.kind, done);
        }
        closed_item(alloc, builder, line, t, &item.kind, done, pending)?;
        (done, pending) = counts_behind(&item.kind, done, pending)?;
    }
    if pending > 0 {
        set_list(builder, line, t, pending, done)?;
    }
    Ok(())
}

// The open results of a last positional item, where so many were done.
#[cycle(source)]
fn open_item(
    alloc: Global,
    builder: &mut Builder,
    line: u32,
    t: u32,
    kind: &ItemKind,
    done: u32,
) -> Result<(), AllocError>
    ensures { OnOk result (maker_of builder.new ≡ open_part line t done kind.now (maker_of builder.old)) }
{
    match kind {
        ItemKind::Positional(e) => {
            multi(alloc, builder, e, Op::Call, None)?;
            set_list(builder, line, t, 0, plus(done, 1)?)
        }
        ItemKind::Named(..) | ItemKind::Keyed(..) => Ok(()),
    }
}

// Any other item. After fifty pending ones, these go into the table.
#[cycle(source)]
fn closed_item(
    alloc: Global,
    builder: &mut Builder,
    line: u32,
    t: u32,
    kind: &ItemKind,
    done: u32,
    pending: u32,
) -> Result<(), AllocError>
    ensures { OnOk result (maker_of builder.new ≡ closed_part line t done pending kind.now (maker_of builder.old)) }
{
    match kind {
        ItemKind::Positional(e) => {
            next_reg(alloc, builder, e)?;
            full_end(builder, line, t, plus(done, 1)?, plus(pending, 1)?)
        }
        ItemKind::Named(name, value) => named_item(alloc, builder, line, t, name.bytes(), value),
        ItemKind::Keyed(key, value) => keyed_item(alloc, builder, line, t, key, value),
    }
}

// An item with a name.
#[cycle(source)]
fn named_item(
    alloc: Global,
    builder: &mut Builder,
    line: u32,
    t: u32,
    name: &[u8],
    value: &Exp,
) -> Result<(), AllocError>
    ensures { OnOk result (maker_of builder.new ≡ making.freeing (lists.keyed_item line t (parts.rk_text line name.now) (coded (view_exp value.now))) (maker_of builder.old)) }
{
    let free = builder.free;
    let k = rk_text(alloc, builder, line, name)?;
    let v = rk(alloc, builder, value)?;
    put_abc(builder, line, Op::SetTable, t, k, v)?;
    builder.free_from(free);
    Ok(())
}

// An item with a key.
#[cycle(source)]
fn keyed_item(
    alloc: Global,
    builder: &mut Builder,
    line: u32,
    t: u32,
    key: &Exp,
    value: &Exp,
) -> Result<(), AllocError>
    ensures { OnOk result (maker_of builder.new ≡ making.freeing (lists.keyed_item line t (parts.rk (coded (view_exp key.now))) (coded (view_exp value.now))) (maker_of builder.old)) }
{
    let free = builder.free;
    let k = rk(alloc, builder, key)?;
    let v = rk(alloc, builder, value)?;
    put_abc(builder, line, Op::SetTable, t, k, v)?;
    builder.free_from(free);
    Ok(())
}

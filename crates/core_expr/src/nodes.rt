// Expressions from their parts, with how many levels they need. All lines are 1.
ghost use Rattle.std.specs.Prelude.{◌≡◌, Some, IfOk, OnOk};
ghost use Rattle.lua_tree.specs.Syntax.{no_fields, nil_literal, vararg_expression};
ghost use Rattle.lua_tree.specs.declared.tree.Separator.{Separator as TheSeparator};
ghost use Rattle.lua_tree.specs.View.{view_kind};
ghost use Rattle.core_expr.specs.Held.{view_written_args, view_written_items, view_written_item, join_wordings, separator_of};
ghost use Rattle.core_expr.specs.Standing.{no_field_wording};
ghost use Rattle.core_expr.specs.Values.{view_recovered};
ghost use Rattle.core_expr.specs.Writing.{over, single, truth, name_word, function_word, in_parentheses, with_unary, with_binary, with_field, with_index, with_arguments, with_method, with_items, as_list, as_table_argument, and_item, and_named, and_key, view_written, view_written_list};

use crate::bodies::Recovered;
use crate::scope::{Written, WrittenList};
use lua_num::ByteText;
use lua_tree::{Args, BinaryOp, Exp, ExpKind, Item, ItemKind, Items, Separator, UnaryOp};
use std::alloc::{AllocError, Global};

/// Arguments, and how many levels they need.
#[derive(Drop)]
pub struct WrittenArgs {
    pub args: Args,
    pub levels: u32,
}

/// The key of an item of a constructor.
#[derive(Drop)]
pub enum WrittenKey {
    /// It has none: it stands by its position.
    Position,
    Name(ByteText),
    Value(Box<Exp>),
}

/// An item of a constructor, and how many levels it needs.
#[derive(Drop)]
pub struct WrittenItem {
    pub key: WrittenKey,
    pub value: Box<Exp>,
    pub levels: u32,
}

/// The items of a constructor, and how many levels they need at most.
#[derive(Drop)]
pub struct WrittenItems {
    pub items: Items,
    pub levels: u32,
}

impl WrittenItems {
    /// No items, which takes no memory.
    pub fn new(alloc: Global) -> Self
        ensures { view_written_items result ≡ record { words = no_fields; levels = 0 } }
    {
        Self {
            items: Items::new(alloc),
            levels: 0,
        }
    }

    /// Appends an item, with a comma where others follow.
    pub fn push(&mut self, item: WrittenItem, is_last: bool) -> Result<(), AllocError>
        ensures { OnOk result (view_written_items self.new ≡ join_wordings (view_written_items self.old) (view_written_item item (separator_of is_last))) }
    {
        self.levels = self.levels.max(item.levels);
        let sep = if is_last {
            Separator::Missing
        } else {
            Separator::Comma
        };
        let value = Box::into_inner(item.value);
        let kind = match item.key {
            WrittenKey::Position => ItemKind::Positional(value),
            WrittenKey::Name(name) => ItemKind::Named(name, value),
            WrittenKey::Value(key) => ItemKind::Keyed(Box::into_inner(key), value),
        };
        self.items.push(Item { kind, sep })
    }
}

/// A copy of a text.
pub fn copied(alloc: Global, text: &ByteText) -> Result<ByteText, AllocError>
    ensures { IfOk result (λ copy. copy ≡ text.now) }
{
    ByteText::from_slice(alloc, text.bytes())
}

/// An expression whose parts need so many levels.
pub fn over(alloc: Global, levels: u32, kind: ExpKind) -> Result<Written, AllocError>
    ensures { IfOk result (λ written. view_written written ≡ over levels (view_kind kind 1)) }
{
    let exp = Box::new(alloc, Exp { line: 1, kind })?;
    Ok(Written {
        exp,
        levels: levels.saturating_add(1),
    })
}

/// An expression with no parts.
pub fn single(alloc: Global, kind: ExpKind) -> Result<Written, AllocError>
    ensures { IfOk result (λ written. view_written written ≡ single (view_kind kind 1)) }
{
    over(alloc, 0, kind)
}

/// `nil`.
pub fn nil(alloc: Global) -> Result<Written, AllocError>
    ensures { IfOk result (λ written. view_written written ≡ single (nil_literal 1)) }
{
    single(alloc, ExpKind::Nil)
}

/// `...`.
pub fn vararg(alloc: Global) -> Result<Written, AllocError>
    ensures { IfOk result (λ written. view_written written ≡ single (vararg_expression 1)) }
{
    single(alloc, ExpKind::Vararg)
}

/// A name.
pub fn named(alloc: Global, name: &ByteText) -> Result<Written, AllocError>
    ensures { IfOk result (λ written. view_written written ≡ name_word (Some name.now)) }
{
    let name = copied(alloc, name)?;
    single(alloc, ExpKind::Name(name))
}

/// `true` or `false`.
pub fn truth(alloc: Global, value: bool) -> Result<Written, AllocError>
    ensures { IfOk result (λ written. view_written written ≡ truth value) }
{
    if value {
        single(alloc, ExpKind::True)
    } else {
        single(alloc, ExpKind::False)
    }
}

/// A function.
pub fn function(alloc: Global, recovered: Recovered) -> Result<Written, AllocError>
    ensures { IfOk result (λ written. view_written written ≡ function_word (Some (view_recovered recovered))) }
{
    let Recovered { body, levels } = recovered;
    over(alloc, levels, ExpKind::Function(body))
}

/// A constructor.
pub fn constructor(alloc: Global, items: WrittenItems) -> Result<Written, AllocError>
    ensures { IfOk result (λ written. view_written written ≡ with_items (view_written_items items)) }
{
    let WrittenItems { items, levels } = items;
    over(alloc, levels, ExpKind::Table(items))
}

/// An expression in parentheses.
pub fn parenthesized(alloc: Global, inner: Written) -> Result<Written, AllocError>
    ensures { IfOk result (λ written. view_written written ≡ in_parentheses (view_written inner)) }
{
    let Written { exp, levels } = inner;
    over(alloc, levels, ExpKind::Paren(exp))
}

/// An operator before an operand.
pub fn unary(alloc: Global, op: UnaryOp, of: Written) -> Result<Written, AllocError>
    ensures { IfOk result (λ written. view_written written ≡ with_unary op (view_written of)) }
{
    let Written { exp, levels } = of;
    over(alloc, levels, ExpKind::Unary { op, of: exp })
}

/// An operator between two operands.
pub fn binary(
    alloc: Global,
    op: BinaryOp,
    left: Written,
    right: Written,
) -> Result<Written, AllocError>
    ensures { IfOk result (λ written. view_written written ≡ with_binary op (view_written left) (view_written right)) }
{
    let levels = left.levels.max(right.levels);
    let left = left.exp;
    let right = right.exp;
    over(alloc, levels, ExpKind::Binary { op, left, right })
}

/// A field of an expression.
pub fn field(alloc: Global, on: Written, name: &ByteText) -> Result<Written, AllocError>
    ensures { IfOk result (λ written. view_written written ≡ with_field (view_written on) name.now) }
{
    let name = copied(alloc, name)?;
    let Written { exp, levels } = on;
    over(alloc, levels, ExpKind::Field { on: exp, name })
}

/// An expression indexed by a key in brackets.
pub fn index(alloc: Global, on: Written, key: Written) -> Result<Written, AllocError>
    ensures { IfOk result (λ written. view_written written ≡ with_index (view_written on) (view_written key)) }
{
    let levels = on.levels.max(key.levels);
    let on = on.exp;
    let key = key.exp;
    over(alloc, levels, ExpKind::Index { on, key })
}

/// A call.
pub fn call(alloc: Global, on: Written, args: WrittenArgs) -> Result<Written, AllocError>
    ensures { IfOk result (λ written. view_written written ≡ with_arguments (view_written on) (view_written_args args)) }
{
    let levels = on.levels.max(args.levels);
    let on = on.exp;
    let args = args.args;
    let on_line = 1;
    over(alloc, levels, ExpKind::Call { on, args, on_line })
}

/// A call of a method.
pub fn method(
    alloc: Global,
    on: Written,
    name: &ByteText,
    args: WrittenArgs,
) -> Result<Written, AllocError>
    ensures { IfOk result (λ written. view_written written ≡ with_method (view_written on) name.now (view_written_args args)) }
{
    let levels = on.levels.max(args.levels);
    let name = copied(alloc, name)?;
    let on = on.exp;
    let args = args.args;
    over(
        alloc,
        levels,
        ExpKind::Method {
            on,
            name,
            args,
            on_line: 1,
        },
    )
}

/// Arguments in parentheses.
pub fn listed(list: WrittenList) -> WrittenArgs
    ensures { view_written_args result ≡ as_list (view_written_list list) }
{
    let WrittenList { exps, levels } = list;
    WrittenArgs {
        args: Args::List(exps),
        levels,
    }
}

/// A constructor as the only argument.
pub fn tabled(items: WrittenItems) -> WrittenArgs
    ensures { view_written_args result ≡ as_table_argument (view_written_items items) }
{
    let WrittenItems { items, levels } = items;
    WrittenArgs {
        args: Args::Table(items),
        levels,
    }
}

/// An item that stands by its position.
pub fn positional_item(value: Written) -> WrittenItem
    ensures { (separator : TheSeparator) → view_written_item result separator ≡ and_item (view_written value) separator no_field_wording }
{
    WrittenItem {
        key: WrittenKey::Position,
        levels: value.levels,
        value: value.exp,
    }
}

/// An item with a name.
pub fn named_item(alloc: Global, name: &ByteText, value: Written) -> Result<WrittenItem, AllocError>
    ensures { IfOk result (λ item. (separator : TheSeparator) → view_written_item item separator ≡ and_named name.now (view_written value) separator no_field_wording) }
{
    let name = copied(alloc, name)?;
    Ok(WrittenItem {
        key: WrittenKey::Name(name),
        levels: value.levels,
        value: value.exp,
    })
}

/// An item with a key in brackets.
pub fn bracketed_item(key: Written, value: Written) -> WrittenItem
    ensures { (separator : TheSeparator) → view_written_item result separator ≡ and_key (view_written key) (view_written value) separator no_field_wording }
{
    WrittenItem {
        levels: key.levels.max(value.levels),
        key: WrittenKey::Value(key.exp),
        value: value.exp,
    }
}

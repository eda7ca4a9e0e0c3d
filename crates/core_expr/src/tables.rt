// Constructors.
ghost use Rattle.std.specs.Prelude.{◌≡◌, true, false, IfOk, OnOk, Err};
ghost use Rattle.lua_tree.specs.declared.tree.Separator.{Separator};
ghost use Rattle.core_expr.specs.Held.{view_written_items, view_written_item};
ghost use Rattle.core_expr.specs.Standing.{view_writer, behind, behind_operand, behind_item, behind_items, worded, worded_keyed, worded_item, worded_items, can_word, can_word_keyed, can_word_item, can_word_items};
ghost use Rattle.core_expr.specs.Values.{view_operand, view_item_list, table_value};
ghost use Rattle.core_expr.specs.Writing.{view_written};
ghost use Rattle.core_expr.specs.declared.fault.CoreFault.TheVariants.{NotScheme};

use crate::cores::{CoreItem, CoreItems, Operand};
use crate::expressions::wants_one;
use crate::fault::CoreFault;
use crate::nodes::{
    WrittenItem, WrittenItems, bracketed_item, constructor, named_item, positional_item,
};
use crate::scope::Written;
use crate::writer::Writer;

impl Writer<'_> {
    /// A constructor.
    #[cycle(writing)]
    pub fn table(&mut self, items: &CoreItems, open: bool) -> Result<Written, CoreFault>
        ensures made { IfOk result (λ written. view_written written ≡ worded (view_writer self.old) (table_value (view_item_list items.now) «open» 0)) }
        ensures behind { OnOk result (view_writer self.new ≡ behind (table_value (view_item_list items.now) «open» 0) (view_writer self.old)) }
        ensures refused { result ≡ Err NotScheme → can_word (view_writer self.old) (table_value (view_item_list items.now) «open» 0) ≡ false }
        ensures able { OnOk result (can_word (view_writer self.old) (table_value (view_item_list items.now) «open» 0) ≡ true) }
    {
        let items = self.items(items, open)?;
        Ok(constructor(self.alloc, items)?)
    }

    /// The items of a constructor; where they are not open, only one value is wanted of the last.
    #[cycle(writing)]
    pub fn items(&mut self, items: &CoreItems, open: bool) -> Result<WrittenItems, CoreFault>
        ensures made { IfOk result (λ written. view_written_items written ≡ worded_items (view_writer self.old) (view_item_list items.now) «open») }
        ensures behind { OnOk result (view_writer self.new ≡ behind_items (view_item_list items.now) (view_writer self.old)) }
        ensures refused { result ≡ Err NotScheme → can_word_items (view_writer self.old) (view_item_list items.now) ≡ false }
        ensures able { OnOk result (can_word_items (view_writer self.old) (view_item_list items.now) ≡ true) }
    {
        let mut written = WrittenItems::new(self.alloc);
        let all = items.items();
        for (i, item) in all.iter().enumerate() {
            let is_last = i + 1 == all.len();
            let item = self.item(item, wants_one(is_last, open))?;
            written.push(item, is_last)?;
        }
        Ok(written)
    }

    // An item of a constructor.
    #[cycle(writing)]
    fn item(&mut self, item: &CoreItem, only_one: bool) -> Result<WrittenItem, CoreFault>
        ensures made { IfOk result (λ written. (separator : Separator) → view_written_item written separator ≡ worded_item (view_writer self.old) only_one item.now separator) }
        ensures behind { OnOk result (view_writer self.new ≡ behind_item item.now (view_writer self.old)) }
        ensures refused { result ≡ Err NotScheme → can_word_item (view_writer self.old) item.now ≡ false }
        ensures able { OnOk result (can_word_item (view_writer self.old) item.now ≡ true) }
    {
        match item {
            CoreItem::Positional(core) => {
                let value = self.value(core, only_one)?;
                Ok(positional_item(value))
            }
            CoreItem::Keyed(key, value) => self.keyed_item(key, value),
        }
    }

    // An item with a key, which is written as a name where it can be.
    #[cycle(writing)]
    fn keyed_item(&mut self, key: &Operand, value: &Operand) -> Result<WrittenItem, CoreFault>
        ensures made { IfOk result (λ written. (separator : Separator) → view_written_item written separator ≡ worded_keyed (view_writer self.old) (view_operand key.now) (view_operand value.now) separator) }
        ensures behind { OnOk result (view_writer self.new ≡ behind_operand (view_operand value.now) (behind_operand (view_operand key.now) (view_writer self.old))) }
        ensures refused { result ≡ Err NotScheme → can_word_keyed (view_writer self.old) (view_operand key.now) (view_operand value.now) ≡ false }
        ensures able { OnOk result (can_word_keyed (view_writer self.old) (view_operand key.now) (view_operand value.now) ≡ true) }
    {
        if let Some((number, name)) = self.scope.field_name(key) {
            self.take_constant(number);
            let value = self.operand(value)?;
            return Ok(named_item(self.alloc, name, value)?);
        }
        let key = self.operand(key)?;
        let value = self.operand(value)?;
        Ok(bracketed_item(key, value))
    }
}

// Constructors (manual 2.5.7).
ghost use Rattle.std.specs.Prelude.{◌≡◌, ◌+◌, ◌≤◌, ◌<◌, length, IfOk, IfErr};
ghost use Rattle.lua_tree.specs.View.{view_items};
ghost use Rattle.lua_tree.specs.WellFormed.{depth_of_fields};
ghost use Rattle.parser.specs.Fields.{field_of, depth_of_field};
ghost use Rattle.parser.specs.Program.{fields, one_field, keyed_of, named_of, separator};
ghost use Rattle.parser.specs.Finds.{Finds, Refuses};

use crate::classes::Role;
use crate::cursor::{Cursor, Halt, copy_of};
use crate::mark::Mark;
use crate::nodes::named;
use crate::tall::Tall;
use lua_num::ByteText;
use lua_tree::{Item, ItemKind, Items, Separator};
use std::alloc::Global;

impl Cursor<'_> {
    /// The items of a constructor up to its `}`.
    #[cycle(parser)]
    pub fn fields(&mut self, alloc: Global, depth: usize) -> Result<Tall<Items>, Halt>
        requires { depth ≤ 200 }
        ensures found { IfOk result (λ x. Finds (fields depth) self.old.line self.old.rest.now (view_items x.part) self.new.line self.new.rest.now) }
        ensures height { IfOk result (λ x. x.height ≡ depth_of_fields (view_items x.part)) }
        ensures low { IfOk result (λ x. depth + x.height ≤ 200) }
        ensures refused { IfErr result (Refuses (fields depth) self.old.line self.old.rest.now self.new.rest.now) }
        ensures shorter { IfOk result (λ _. length self.new.rest.now ≤ length self.old.rest.now) }
    {
        let mut items = Tall {
            part: Items::new(alloc),
            height: 0,
        };
        while !self.is(Mark::CloseBrace) {
            let item = self.field(alloc, depth)?;
            let sep = self.separator();
            items.height = items.height.max(item.height);
            items.part.push(Item {
                kind: item.part,
                sep,
            })?;
            if let Separator::Missing = sep {
                return Ok(items);
            }
        }
        Ok(items)
    }

    /// An item of a constructor.
    #[cycle(parser)]
    fn field(&mut self, alloc: Global, depth: usize) -> Result<Tall<ItemKind>, Halt>
        requires { depth ≤ 200 }
        ensures found { IfOk result (λ x. Finds (one_field depth) self.old.line self.old.rest.now (field_of x.part) self.new.line self.new.rest.now) }
        ensures height { IfOk result (λ x. x.height ≡ depth_of_field (field_of x.part)) }
        ensures low { IfOk result (λ x. depth + x.height ≤ 200) }
        ensures refused { IfErr result (Refuses (one_field depth) self.old.line self.old.rest.now self.new.rest.now) }
        ensures shorter { IfOk result (λ _. length self.new.rest.now < length self.old.rest.now) }
    {
        let line = self.next_line();
        if let Some(name) = self.next_name() {
            self.take(depth + 1)?;
            let name = copy_of(alloc, name)?;
            let item = self.named(alloc, depth, line, name)?;
            return Ok(item);
        }
        if self.is(Mark::OpenBracket) {
            let item = self.keyed(alloc, depth)?;
            return Ok(item);
        }
        let value = self.whole(alloc, depth, 0)?;
        Ok(Tall {
            part: ItemKind::Positional(Box::into_inner(value.part)),
            height: value.height,
        })
    }

    /// An item with its key in brackets.
    #[cycle(parser)]
    fn keyed(&mut self, alloc: Global, depth: usize) -> Result<Tall<ItemKind>, Halt>
        requires { depth ≤ 200 }
        ensures found { IfOk result (λ x. Finds (keyed_of depth) self.old.line self.old.rest.now (field_of x.part) self.new.line self.new.rest.now) }
        ensures height { IfOk result (λ x. x.height ≡ depth_of_field (field_of x.part)) }
        ensures low { IfOk result (λ x. depth + x.height ≤ 200) }
        ensures refused { IfErr result (Refuses (keyed_of depth) self.old.line self.old.rest.now self.new.rest.now) }
        ensures shorter { IfOk result (λ _. length self.new.rest.now < length self.old.rest.now) }
    {
        self.take(depth + 1)?;
        let key = self.whole(alloc, depth, 0)?;
        self.want(Mark::CloseBracket)?;
        self.want(Mark::Equal)?;
        let value = self.whole(alloc, depth, 0)?;
        Ok(Tall {
            height: key.height.max(value.height),
            part: ItemKind::Keyed(Box::into_inner(key.part), Box::into_inner(value.part)),
        })
    }

    /// An item that begins with a name.
    #[cycle(parser)]
    fn named(
        &mut self,
        alloc: Global,
        depth: usize,
        start: u32,
        name: ByteText,
    ) -> Result<Tall<ItemKind>, Halt>
        requires { depth + 1 ≤ 200 }
        ensures found { IfOk result (λ x. Finds (named_of depth start name) self.old.line self.old.rest.now (field_of x.part) self.new.line self.new.rest.now) }
        ensures height { IfOk result (λ x. x.height ≡ depth_of_field (field_of x.part)) }
        ensures low { IfOk result (λ x. depth + x.height ≤ 200) }
        ensures refused { IfErr result (Refuses (named_of depth start name) self.old.line self.old.rest.now self.new.rest.now) }
        ensures shorter { IfOk result (λ _. length self.new.rest.now ≤ length self.old.rest.now) }
    {
        if self.is(Mark::Equal) {
            self.take(depth + 1)?;
            let value = self.whole(alloc, depth, 0)?;
            return Ok(Tall {
                height: value.height,
                part: ItemKind::Named(name, Box::into_inner(value.part)),
            });
        }
        let part = named(alloc, start, name)?;
        let first = Tall { part, height: 1 };
        let operand = self.suffix(alloc, depth, Role::Operand, first)?;
        let value = self.climb(alloc, depth, 0, start, operand)?;
        Ok(Tall {
            height: value.height,
            part: ItemKind::Positional(Box::into_inner(value.part)),
        })
    }

    /// What stands behind an item.
    fn separator(&mut self) -> Separator
        ensures found { Finds separator self.old.line self.old.rest.now result self.new.line self.new.rest.now }
        ensures shorter { length self.new.rest.now ≤ length self.old.rest.now }
    {
        if self.accept(Mark::Comma) {
            return Separator::Comma;
        }
        if self.accept(Mark::Semicolon) {
            return Separator::Semicolon;
        }
        Separator::Missing
    }
}

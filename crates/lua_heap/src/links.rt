// Which table is the metatable of another, in eight bytes: a program may hold many tables, and an option of an id takes
// sixteen.
ghost use Rattle.std.specs.Prelude.{◌≡◌, ◌+◌, ◌<◌, ◌^◌, None, IfSome};

use lua_model::TableId;
use std::marker::Model;

/// A table, or none. Contracts see the option of its id.
#[derive(Drop)]
pub struct MetaLink {
    /// One more than the index of the table; 0 for none.
    after: usize,
}

impl Model for MetaLink {
    ghost use Rattle.std.specs.Prelude.{Option};
    ghost use Rattle.lua_model.specs.declared.TableId.{TableId};

    ghost Value = { Option TableId };

    ghost use Rattle.lua_heap.specs.Links.{linked};

    ghost view = { λ m. linked m.after };
}

impl MetaLink {
    pub(crate) fn none() -> Self
        ensures { result ≡ None }
    {
        Self { after: 0 }
    }

    pub(crate) fn new(id: Option<TableId>) -> Self
        requires { IfSome id (λ t. t.index + 1 < 2 ^ 64) }
        ensures { result ≡ id }
    {
        match id {
            None => Self { after: 0 },
            Some(table) => Self {
                after: table.index + 1,
            },
        }
    }

    pub(crate) fn id(&self) -> Option<TableId>
        ensures { result ≡ self.now }
    {
        if self.after == 0 {
            return None;
        }
        Some(TableId {
            index: self.after - 1,
        })
    }
}

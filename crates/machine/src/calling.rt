// Calls: what they come to before a frame is made or results land.
use lua_heap::ValueList;
use lua_model::{ClosureId, Value};

mod applying;
mod invoking;

pub use applying::apply;
pub use invoking::{broke, invoke, worked};

/// What one function comes to, beside the protected call that it may be in.
#[derive(Debug, Drop)]
pub enum Applied {
    /// Results of a built-in function or a host.
    Results(ValueList),
    /// A Lua function, whose frame is to be made.
    Enters(ClosureId),
    /// A failure with a value.
    Fails(Value),
    /// A protected call of a value, which is to be made.
    Protects { f: Value, args: ValueList },
}

/// What a call comes to.
#[derive(Debug, Drop)]
pub enum Called {
    /// Results, with those of the protected calls around.
    Results(ValueList),
    /// A Lua function, whose frame is to be made, with so many protected calls around it.
    Enters {
        closure: ClosureId,
        args: ValueList,
        protections: u32,
    },
    /// A failure with a value, which no protected call of it takes.
    Fails(Value),
}

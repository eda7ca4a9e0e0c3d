//! The heap of a run: texts, tables, globals, closures, cells and the names of hosts, behind small numbers.
#![tactic(auto)]

mod cells;
mod closures;
mod globals;
mod heap;
mod links;
mod operands;
mod tables;
mod values;

pub use cells::{Cell, CellId};
pub use heap::Heap;
pub use operands::{is_nil, kind_name, number_of, text_of, text_value};
pub use values::ValueList;

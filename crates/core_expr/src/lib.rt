//! Values as words make them, and the expressions that they are written as.
#![tactic(auto)]

mod bodies;
mod building;
mod calls;
mod comparing;
mod cores;
mod counting;
mod expressions;
mod fault;
mod literals;
mod nodes;
mod operators;
mod paths;
mod scope;
mod tables;
mod writer;
mod writing;

pub use bodies::{Bodies, Recovered};
pub use cores::{Core, CoreItem, CoreItems, Cores, Operand, Operands};
pub use fault::CoreFault;
pub use scope::{Scope, Written, WrittenList};
pub use writing::{
    Comparison, Target, function_path, write_comparison, write_expression, write_list,
    write_operand, write_target,
};

//! The built-in functions of Lua.
#![tactic(auto)]

mod arguments;
mod dispatch;
mod failures;
mod hosts;
mod metatables;
mod names;
mod native_act;
mod refusal;
mod results;
mod shown;
mod tables;
mod values;

pub use dispatch::native;
pub use hosts::{HostAct, host_call};
pub use names::{BUILTIN_COUNT, builtin_name};
pub use native_act::NativeAct;

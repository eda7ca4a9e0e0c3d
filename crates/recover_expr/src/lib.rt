//! From the words of a function to the steps of its statements.
#![tactic(auto)]

ghost use Rattle.std.specs.Prelude.{◌≡◌, [], false, Some};
ghost use Rattle.recover_expr.specs.Reading.{read_steps};
ghost use Rattle.recover_expr.specs.Rows.{two_calls, two_calls_read, swapped_locals, swapped_locals_read, tested_call, tested_call_read, stored_table, stored_table_read};

mod assigning;
mod blame;
mod calls;
mod closures;
mod constructors;
mod declaring;
mod draft;
mod effects;
mod fault;
mod function;
mod functions;
mod heads;
mod items;
mod lists;
mod locals;
mod lost;
mod places;
mod reading;
mod stack;
mod state;
mod steps;
mod stores;
mod testing;
mod values;
mod words;
mod writing;

pub use fault::{Fault, Reason};
pub use reading::read_steps;
pub use steps::{Reading, Step, StepKind, StepPart};

/// The steps of small chunks: calls, locals and an assignment of several values, a test, and a constructor.
pub fn small_chunks_are_read()
    ensures calls { read_steps two_calls [] false ≡ Some two_calls_read }
    ensures locals { read_steps swapped_locals [] false ≡ Some swapped_locals_read }
    ensures test { read_steps tested_call [] false ≡ Some tested_call_read }
    ensures table { read_steps stored_table [] false ≡ Some stored_table_read }
{}

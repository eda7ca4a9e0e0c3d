// Steps: one word with the calls, landings and failures that belong to it.
ghost use Rattle.std.specs.Prelude.{◌≡◌, ◌+◌, slice_get, option_and_then, Some, IfOk, OnErr};
ghost use Rattle.opcode.specs.Reading.{instr_of};
ghost use Rattle.host.specs.Views.{set_told};
ghost use Rattle.rules.specs.Step.{effect};
ghost use Rattle.machine.specs.declared.function.Function.{Function as TheFunction};
ghost use Rattle.machine.specs.Begun.{BeginsSeen, BeginsWhole, BrokeOff};
ghost use Rattle.machine.specs.Fits.{IsOther};
ghost use Rattle.machine.specs.Outside.{AreNamed};
ghost use Rattle.machine.specs.Ready.{FitsHere, IsOtherNext, IsReady, Steps, with_pc};
ghost use Rattle.machine.specs.Settled.{DoesOutside};
ghost use Rattle.machine.specs.Whole.{IsSafe};

use crate::closures::make_closure;
use crate::did::Did;
use crate::function::Function;
use crate::leaving::return_word;
use crate::open_results::{call_word, set_list_word, vararg};
use crate::running::Running;
use crate::settling::{Settled, settle, tail_call};
use crate::topmost::perform_plain;
use host::HostSet;
use opcode::{Instr, Op};
use std::alloc::{AllocError, Global};

/// Does a word in the topmost frame that was not done in place; the pc of the frame is that behind the word.
fn do_word(
    alloc: Global,
    running: &mut Running,
    functions: &[Function],
    hosts: &mut HostSet,
    i: Instr,
) -> Result<Did, AllocError>
    requires safe { IsSafe functions.now running.old }
    requires other { IsOther i.op }
    requires fits { (f : TheFunction) → slice_get functions.now running.old.top.function ≡ Some f → FitsHere functions.now f running.old i }
    requires named { AreNamed running.old.heap (set_told heard hosts.old) }
    ensures does { IfOk result (DoesOutside functions.now (λ m. effect i.op m i) running.old running.new (set_told heard hosts.old) (set_told heard hosts.new)) }
    ensures broke_off { OnErr result (BrokeOff (BeginsSeen functions.now (λ m. effect i.op m i) running.old (set_told heard hosts.old)) (set_told heard hosts.old) (set_told heard hosts.new)) }
{
    match i.op {
        Op::GetUpval | Op::SetUpval | Op::Close => unreachable!(),
        Op::Closure => {
            make_closure(alloc, running, functions, i)?;
            Ok(Did::Next)
        }
        Op::Call => call_word(alloc, running, functions, i),
        Op::TailCall => tail_call(alloc, running, functions, hosts, i),
        Op::Return => return_word(alloc, running, functions, i),
        Op::SetList => set_list_word(alloc, running, functions, i),
        Op::Vararg => vararg(alloc, running, functions, i),
        _ => perform_plain(alloc, running, functions, i),
    }
}

/// The word that is next; the pc goes behind it.
fn take_word(running: &mut Running, functions: &[Function]) -> Instr
    requires safe { IsSafe functions.now running.old }
    requires ready { IsReady functions.now running.old }
    ensures behind { running.new ≡ with_pc running.old (running.old.top.pc + 1) }
    ensures is { (f : TheFunction) → slice_get functions.now running.old.top.function ≡ Some f → option_and_then instr_of (slice_get f.code.items running.old.top.pc) ≡ Some result }
    ensures fits { (f : TheFunction) → slice_get functions.now running.new.top.function ≡ Some f → FitsHere functions.now f running.new result }
{
    let word = functions[running.top.function].words[running.top.pc];
    running.top.pc += 1;
    word.instr()
}

/// Does one step of the rules, of a word that is not done in place.
pub fn turn(
    alloc: Global,
    running: &mut Running,
    functions: &[Function],
    hosts: &mut HostSet,
) -> Result<Settled, AllocError>
    requires safe { IsSafe functions.now running.old }
    requires ready { IsReady functions.now running.old }
    requires other { IsOtherNext functions.now running.old }
    requires named { AreNamed running.old.heap (set_told heard hosts.old) }
    ensures steps { IfOk result (Steps functions.now running.old running.new (set_told heard hosts.old) (set_told heard hosts.new)) }
    ensures broke_off { OnErr result (BrokeOff (BeginsWhole functions.now running.old (set_told heard hosts.old)) (set_told heard hosts.old) (set_told heard hosts.new)) }
{
    let i = take_word(running, functions);
    let did = do_word(alloc, running, functions, hosts, i)?;
    settle(alloc, running, functions, hosts, did)
}

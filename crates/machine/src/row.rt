// Words in a row.
ghost use Rattle.std.specs.Prelude.{◌≡◌, ◌<◌, ◌≤◌, List, slice_get, Some, Ok, IfSome, IfNone, IfOk};
ghost use Rattle.proto.specs.Chunk.{Chunk};
ghost use Rattle.rules.specs.State.{State};
ghost use Rattle.upvalue.specs.State.{top};
ghost use Rattle.machine.specs.declared.function.Function.{Function as TheFunction};
ghost use Rattle.machine.specs.Decoded.{instr_in};
ghost use Rattle.machine.specs.Fits.{IsOther};
ghost use Rattle.machine.specs.Frames.{showing};
ghost use Rattle.machine.specs.Memory.{NeedsNone, NeedsNoneNext};
ghost use Rattle.machine.specs.Ready.{FitsAt, GoesOn, GoesSteps, IsOtherNext, IsReadyOnwards, with_pc};
ghost use Rattle.machine.specs.Seen.{Around, seen};
ghost use Rattle.machine.specs.Whole.{IsSafe, IsWhole};
ghost use Rattle.machine.specs.Words.{Runs};

use crate::crossing::cross;
use crate::function::Function;
use crate::running::Running;
use crate::topmost::quick_at;
use crate::upvalues::{close, get_upvalue, set_upvalue};
use crate::word::Word;
use opcode::Op;
use std::alloc::{AllocError, Global};

/// Does words in place, one after another, at most so many, from function to function where these are called and left by common words; answers how
/// many it did. It takes memory only for a frame, and for a new entry of a table. Where memory runs out the machine is only dropped.
pub fn do_row(
    alloc: Global,
    running: &mut Running,
    functions: &[Function],
    steps: u64,
) -> Result<u64, AllocError>
    requires safe { IsSafe functions.now running.old }
    requires ready { IsReadyOnwards functions.now running.old }
    ensures went { IfOk result (λ done. GoesSteps functions.now done running.old running.new) }
    ensures no_more { IfOk result (λ done. done ≤ steps) }
    ensures other { IfOk result (λ done. done < steps → IsOtherNext functions.now running.new) }
    ensures first { steps ≡ 1 → (c : Chunk) (a : Around) → IsWhole c functions.now running.old → NeedsNoneNext (seen c a running.old) → result ≡ Ok 1 }
{
    let mut function = &functions[running.top.function];
    let mut pc = running.top.pc;
    let mut done = 0;
    while done < steps {
        let word = function.words[pc];
        if let Some(next) = word_at(running, function, pc + 1, word) {
            pc = next;
            done += 1;
            continue;
        }
        running.top.pc = pc + 1;
        let crossed = cross(alloc, running, functions, word)?;
        if !crossed {
            running.top.pc = pc;
            return Ok(done);
        }
        function = &functions[running.top.function];
        pc = running.top.pc;
        done += 1;
    }
    running.top.pc = pc;
    Ok(done)
}

/// Does a word in place, where it is a common one, and answers the pc that it goes on to; where it is not, nothing is done. The pc is that behind
/// the word, whatever the pc of the frame.
fn word_at(running: &mut Running, function: &Function, pc: usize, word: Word) -> Option<usize>
    requires { FitsAt function.now running.old pc (instr_in word) }
    ensures some { (functions : List TheFunction) → slice_get functions running.old.top.function ≡ Some function.now → IfSome result (λ next. GoesOn functions (instr_in word) (with_pc running.old pc) (with_pc running.new next)) }
    ensures none { IfNone result (running.new ≡ running.old) }
    ensures other { IfNone result (IsOther word.op) }
    ensures taken { IfNone result ((m : State) → Runs m running.old.heap function.now pc → NeedsNone word.op (showing m running.old.heap (top running.old.stack.frames)) (instr_in word) → ⊥) }
    ensures top { running.new.top ≡ running.old.top }
{
    match word.op {
        Op::GetUpval => get_upvalue(running, word.abc()),
        Op::SetUpval => set_upvalue(running, word.abc()),
        Op::Close => close(running, word.abc()),
        _ => return quick_at(running, function, pc, word),
    }
    Some(pc)
}

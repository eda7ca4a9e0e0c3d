// A function as it was made becomes a function of a chunk.
ghost use Rattle.std.specs.Prelude.{◌≡◌, ◌<◌, ◌≤◌, List, [], length, max, map, IfOk, OnOk, IfErr};
ghost use Rattle.proto.specs.Chunk.{Chunk};
ghost use Rattle.proto.specs.View.{view_proto};
ghost use Rattle.scheme.specs.Functions.{vararg_flags};
ghost use Rattle.code_builder.specs.Drafts.{own_chunk, own_misfits, draft_chunk, draft_misfits, all_misfits};
ghost use Rattle.code_builder.specs.Faults.{IsMisfitAmong};

use crate::draft::{Draft, OwnDraft};
use crate::fault::CodeFault;
use crate::words::{lines, reach, words};
use proto::{LocVars, Proto, Protos};
use std::alloc::{AllocError, Global};

/// How many registers a function may take.
const MOST_REGISTERS: usize = 250;

/// How many constants a function may have.
const MOST_CONSTANTS: usize = 262_144;

/// How many functions may stand directly in a function.
const MOST_FUNCTIONS: usize = 262_144;

/// How far a jump may be.
const LONGEST_JUMP: usize = 131_071;

// A number as a byte.
fn byte(n: usize) -> Result<u8, AllocError>
    ensures { IfOk result (λ b. b ≡ n) }
{
    // No scheme that fits has such a count; what does not fit in a byte is taken as want of memory.
    u8::try_from(n).map_err(|_| AllocError)
}

// The vararg flags.
fn vararg_byte(vararg: bool) -> u8
    ensures { result ≡ vararg_flags vararg }
{
    if vararg { 2 } else { 0 }
}

// How many registers a function takes.
fn register_count(own: &OwnDraft) -> u32
    ensures { result ≡ max 2 own.now.high }
{
    own.high.max(2)
}

// Fails by this fault where a number is above its limit.
fn check_limit(limit: usize, reached: usize, fault: CodeFault) -> Result<(), CodeFault>
    ensures kept { OnOk result (reached ≤ limit) }
    ensures fault { IfErr result (λ e. (e ≡ fault) × (limit < reached)) }
{
    if reached > limit { Err(fault) } else { Ok(()) }
}

// Fails by a limit that a function does not keep, where so many functions stand directly in it.
fn check_limits(own: &OwnDraft, functions: usize) -> Result<(), CodeFault>
    ensures fits { (chunks : List Chunk) → length chunks ≡ functions → OnOk result (own_misfits own.now chunks ≡ []) }
    ensures fault { (chunks : List Chunk) → length chunks ≡ functions → IfErr result (λ fault. IsMisfitAmong fault (own_misfits own.now chunks)) }
{
    let line = own.heading.first_line;
    let registers = register_count(own) as usize;
    let fault = CodeFault::TooManyRegisters {
        line,
        reached: registers,
    };
    check_limit(MOST_REGISTERS, registers, fault)?;
    let constants = own.constants.items().len();
    let fault = CodeFault::TooManyConstants {
        line,
        reached: constants,
    };
    check_limit(MOST_CONSTANTS, constants, fault)?;
    let reach = reach(own.labels.as_slice(), own.items.as_slice());
    let fault = CodeFault::JumpTooFar {
        line,
        reached: reach,
    };
    check_limit(LONGEST_JUMP, reach, fault)?;
    let fault = CodeFault::TooManyFunctions {
        line,
        reached: functions,
    };
    check_limit(MOST_FUNCTIONS, functions, fault)
}

// The function of a chunk, with the functions in it.
fn own_proto(alloc: Global, own: OwnDraft, functions: Vec<Proto>) -> Result<Proto, AllocError>
    ensures { IfOk result (λ proto. view_proto proto ≡ own_chunk own (map view_proto functions.items)) }
{
    let code = words(alloc, own.labels.as_slice(), own.items.as_slice())?;
    let lines = lines(alloc, own.items.as_slice())?;
    let upvalues = byte(own.upvalue_names.items().len())?;
    let params = byte(own.heading.params)?;
    let registers = byte(register_count(&own) as usize)?;
    let proto = Proto {
        source: own.heading.source,
        line_defined: own.heading.first_line,
        last_line: own.heading.last_line,
        upvalues,
        params,
        vararg: vararg_byte(own.heading.vararg),
        registers,
        code,
        constants: own.constants,
        functions: Protos::from_vec(functions),
        lines,
        locals: LocVars::from_vec(own.locals),
        upvalue_names: own.upvalue_names,
    };
    Ok(proto)
}

/// The function of a chunk that a draft is, where it and every function in it keep the limits: at most 250 registers, 262,144 constants, 262,144 functions
/// directly in it, and jumps of at most 131,071. Else a limit that is not kept. In linear time.
#[cycle(encoding)]
pub fn encode(alloc: Global, draft: Draft) -> Result<Proto, CodeFault>
    ensures chunk { IfOk result (λ proto. view_proto proto ≡ draft_chunk draft) }
    ensures fits { OnOk result (draft_misfits draft ≡ []) }
    ensures fault { IfErr result (λ fault. IsMisfitAmong fault (draft_misfits draft)) }
{
    let functions = encode_all(alloc, draft.functions)?;
    check_limits(&draft.own, functions.len())?;
    let proto = own_proto(alloc, draft.own, functions)?;
    Ok(proto)
}

// The functions of a chunk that drafts are, in order.
#[cycle(encoding)]
fn encode_all(alloc: Global, drafts: Vec<Draft>) -> Result<Vec<Proto>, CodeFault>
    ensures chunks { IfOk result (λ protos. map view_proto protos.items ≡ map draft_chunk drafts.items) }
    ensures fits { OnOk result (all_misfits drafts.items ≡ []) }
    ensures fault { IfErr result (λ fault. IsMisfitAmong fault (all_misfits drafts.items)) }
{
    let mut protos = Vec::with_capacity(alloc, drafts.len())?;
    for draft in drafts {
        let proto = encode(alloc, draft)?;
        protos.push(proto)?;
    }
    Ok(protos)
}

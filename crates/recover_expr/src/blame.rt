// What is wrong with a word or a local, where more is told than that it is of no source. It is told only where it is so.
#![tactic(auto, using(crate::proofs::Blames::free_fits))]

ghost use Rattle.std.specs.Prelude.{◌≡◌, IfSome, IsTrue, slice_get, option_and_then};
ghost use Rattle.opcode.specs.Reading.{instr_of};
ghost use Rattle.proto.specs.Chunk.{own};
ghost use Rattle.proto.specs.View.{view_proto};
ghost use Rattle.recover_expr.specs.Faults.{IsFree, IsFaultOf};
ghost use Rattle.recover_expr.specs.Reasons.{WordIs, IsLogic, StartsAt, NamesGlobalBadly, NamesUpvalueBadly};

use crate::fault::{Fault, Reason};
use lua_num::ByteText;
use lua_tree::is_name;
use opcode::{Instr, Op, decode};
use proto::{Constant, LocVar, Proto};

pub fn code_of(proto: &Proto) -> &[u32]
    ensures { result.now ≡ (own (view_proto proto.now)).code }
{
    proto.code.items()
}

/// The listed locals.
pub fn locals_of(proto: &Proto) -> &[LocVar]
    ensures { result.now ≡ (own (view_proto proto.now)).locals }
{
    proto.locals.items()
}

pub fn constants_of(proto: &Proto) -> &[Constant]
    ensures { result.now ≡ (own (view_proto proto.now)).constants }
{
    proto.constants.items()
}

pub fn upvalue_names_of(proto: &Proto) -> &[ByteText]
    ensures { result.now ≡ (own (view_proto proto.now)).upvalue_names }
{
    proto.upvalue_names.items()
}

/// The instruction at a pc.
pub fn instr_at(proto: &Proto, pc: u32) -> Option<Instr>
    ensures word { IfSome result (λ instr. WordIs (own (view_proto proto.now)) pc (λ i. i ≡ instr)) }
    ensures instr { result ≡ option_and_then instr_of (slice_get (own (view_proto proto.now)).code pc) }
{
    match code_of(proto).get(pc as usize) {
        Some(word) => decode(*word),
        None => None,
    }
}

/// The words at a pc are those of no source.
pub fn not_scheme(pc: u32) -> Fault
    ensures { IsFree result }
{
    Fault::At {
        pc,
        reason: Reason::NotScheme,
    }
}

// A test, or a LOADBOOL that skips.
fn is_logic(instr: Instr) -> bool
    ensures { IsTrue result → IsLogic instr }
{
    match instr.op {
        Op::Eq | Op::Lt | Op::Le | Op::Test | Op::TestSet => true,
        Op::LoadBool => instr.c != 0,
        _ => false,
    }
}

/// A test or a LOADBOOL that skips makes a value at a pc.
pub fn value_logic(proto: &Proto, pc: u32) -> Fault
    ensures { IsFaultOf proto.now result }
{
    match instr_at(proto, pc) {
        Some(instr) if is_logic(instr) => Fault::At {
            pc,
            reason: Reason::ValueLogic,
        },
        _ => not_scheme(pc),
    }
}

fn starts_at(proto: &Proto, pc: u32) -> bool
    ensures { IsTrue result → StartsAt (own (view_proto proto.now)) pc }
{
    for local in locals_of(proto) {
        if local.start == pc {
            return true;
        }
    }
    false
}

/// No declaration has a local that starts at a pc.
pub fn bad_local(proto: &Proto, pc: u32) -> Fault
    ensures { IsFaultOf proto.now result }
{
    if !starts_at(proto, pc) {
        return not_scheme(pc);
    }
    Fault::At {
        pc,
        reason: Reason::Locals,
    }
}

fn names_global_badly(proto: &Proto, instr: Instr) -> bool
    ensures { IsTrue result → NamesGlobalBadly (own (view_proto proto.now)) instr }
{
    match constants_of(proto).get(instr.bx as usize) {
        Some(Constant::Text(name)) => {
            matches!(instr.op, Op::GetGlobal | Op::SetGlobal) && !is_name(name.bytes())
        }
        _ => false,
    }
}

fn names_upvalue_badly(proto: &Proto, instr: Instr) -> bool
    ensures { IsTrue result → NamesUpvalueBadly (own (view_proto proto.now)) instr }
{
    match upvalue_names_of(proto).get(instr.b as usize) {
        Some(name) => matches!(instr.op, Op::GetUpval | Op::SetUpval) && !is_name(name.bytes()),
        None => false,
    }
}

/// The word at a pc reads or writes a global or an upvalue whose name is no name.
pub fn bad_name(proto: &Proto, pc: u32) -> Fault
    ensures { IsFaultOf proto.now result }
{
    match instr_at(proto, pc) {
        Some(instr) if names_global_badly(proto, instr) || names_upvalue_badly(proto, instr) => {
            Fault::At {
                pc,
                reason: Reason::BadName,
            }
        }
        _ => not_scheme(pc),
    }
}

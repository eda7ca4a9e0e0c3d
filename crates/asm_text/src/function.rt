// Reading functions.
ghost use Rattle.std.specs.Prelude.{◌≡◌, map, codes};
ghost use Rattle.proto.specs.View.{view_proto};
ghost use Rattle.asm_text.specs.Reading.{Gives, front_at, debug_at, own_at, own_of as own_in, no_state, many_at, chunk_at, all_of};

use crate::front::{Debug, Front, Parts};
use crate::lines::{count_line, defined_line, lines_line, name_line, shape_line, source_line};
use crate::lists::{code_of, constants_of, locals_of, names_of};
use crate::miss::{Miss, ReadError};
use proto::{Code, ConstantList, Lines, LocVars, Proto, Protos};
use std::alloc::Global;

/// How deep functions may nest.
pub const NESTINGS: usize = 200;

#[tactic(auto, unfolding(crate::specs::Reading::front_at))]
fn front_of(alloc: Global, bytes: &[u8]) -> Result<(Front, &[u8]), ReadError>
    ensures { Gives (λ x. (x.0, x.1.now)) result (front_at bytes.now) }
{
    let ((), rest) = name_line(bytes)?;
    let (source, rest) = source_line(alloc, rest)?;
    let ((line_defined, last_line), rest) = defined_line(rest)?;
    let ((upvalues, params, vararg, registers), rest) = shape_line(rest)?;
    let front = Front {
        source,
        line_defined,
        last_line,
        upvalues,
        params,
        vararg,
        registers,
    };
    Ok((front, rest))
}

#[tactic(auto, unfolding(crate::specs::Reading::debug_at))]
fn debug_of(alloc: Global, bytes: &[u8]) -> Result<(Debug, &[u8]), ReadError>
    ensures { Gives (λ x. ((x.0.lines, (x.0.locals, x.0.names)), x.1.now)) result (debug_at bytes.now) }
{
    let (lines, rest) = lines_line(alloc, bytes)?;
    let (locals, rest) = locals_of(alloc, rest)?;
    let (names, rest) = names_of(alloc, rest)?;
    let debug = Debug {
        lines: Lines::from_vec(lines),
        locals: LocVars::from_vec(locals),
        names,
    };
    Ok((debug, rest))
}

/// What a function has beside the functions in it.
#[tactic(auto, unfolding(crate::specs::Reading::own_at))]
fn own_of(alloc: Global, bytes: &[u8]) -> Result<(Parts, &[u8]), ReadError>
    ensures { Gives (λ x. ((own_in x.0.front x.0.code x.0.constants (x.0.debug.lines, (x.0.debug.locals, x.0.debug.names)), x.0.functions), x.1.now)) result (own_at bytes.now) }
{
    let (front, rest) = front_of(alloc, bytes)?;
    let (code, rest) = code_of(alloc, rest)?;
    let (constants, rest) = constants_of(alloc, rest)?;
    let (functions, rest) = count_line(b"functions", rest)?;
    let (debug, rest) = debug_of(alloc, rest)?;
    let parts = Parts {
        front,
        code: Code::from_vec(code),
        constants: ConstantList::from_vec(constants),
        functions,
        debug,
    };
    Ok((parts, rest))
}

/// A function, with room for so many nestings, its own among them.
#[tactic(auto, unfolding(crate::specs::Reading::chunk_at))]
#[cycle(reading)]
fn proto_of(alloc: Global, room: usize, bytes: &[u8]) -> Result<(Proto, &[u8]), ReadError>
    ensures { Gives (λ x. (view_proto x.0, x.1.now)) result (chunk_at room bytes.now) }
{
    if room == 0 {
        return Err(ReadError::Miss(Miss::TooDeep(bytes.len())));
    }
    let (parts, rest) = own_of(alloc, bytes)?;
    let (functions, rest) = many_protos(alloc, room - 1, parts.functions, rest)?;
    let Parts {
        front,
        code,
        constants,
        debug,
        ..
    } = parts;
    let proto = Proto {
        source: front.source,
        line_defined: front.line_defined,
        last_line: front.last_line,
        upvalues: front.upvalues,
        params: front.params,
        vararg: front.vararg,
        registers: front.registers,
        code,
        constants,
        functions: Protos::from_vec(functions),
        lines: debug.lines,
        locals: debug.locals,
        upvalue_names: debug.names,
    };
    Ok((proto, rest))
}

#[cycle(reading)]
fn many_protos(
    alloc: Global,
    room: usize,
    count: u32,
    bytes: &[u8],
) -> Result<(Vec<Proto>, &[u8]), ReadError>
    ensures { Gives (λ x. (map view_proto x.0.items, x.1.now)) result (many_at (λ u. chunk_at room) no_state tt count bytes.now) }
{
    let mut protos = Vec::new(alloc);
    let mut rest = bytes;
    for _ in 0..count {
        let (proto, after) = proto_of(alloc, room, rest)?;
        protos.push(proto)?;
        rest = after;
    }
    Ok((protos, rest))
}

/// The main function, with nothing behind the last line.
#[tactic(auto, unfolding(crate::specs::Reading::all_of))]
pub fn whole_of(alloc: Global, bytes: &[u8]) -> Result<Proto, ReadError>
    ensures { Gives (λ x. view_proto x) result (all_of bytes.now) }
{
    let (proto, rest) = proto_of(alloc, NESTINGS, bytes)?;
    if !rest.is_empty() {
        return Err(ReadError::Miss(Miss::BadLine(rest.len())));
    }
    Ok(proto)
}

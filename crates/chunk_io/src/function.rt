// Reading functions.
ghost use Rattle.std.specs.Prelude.{◌≡◌, ℕ, List, map};
ghost use Rattle.proto.specs.View.{view_proto};
ghost use Rattle.chunk_io.specs.Reading.{Gives, debug_at, many_at, chunk_at, all_of};

use crate::front::Debug;
use crate::heading::header_of;
use crate::layout::Layout;
use crate::lists::{constants_of, lines_of, locals_of, names_of, words_of};
use crate::miss::{Miss, ReadError};
use crate::reading::{front_of, int_of};
use proto::{Code, ConstantList, Lines, LocVars, Proto, Protos};
use std::alloc::Global;

/// How deep functions may nest.
pub const NESTINGS: usize = 200;

#[tactic(auto, unfolding(crate::specs::Reading::debug_at))]
fn debug_of(alloc: Global, layout: Layout, bytes: &[u8]) -> Result<(Debug, &[u8]), ReadError>
    ensures { Gives (λ x. ((x.0.lines, (x.0.locals, x.0.names)), x.1.now)) result (debug_at layout bytes.now) }
{
    let (lines, rest) = lines_of(alloc, layout, bytes)?;
    let (locals, rest) = locals_of(alloc, layout, rest)?;
    let (names, rest) = names_of(alloc, layout, rest)?;
    let debug = Debug {
        lines: Lines::from_vec(lines),
        locals: LocVars::from_vec(locals),
        names,
    };
    Ok((debug, rest))
}

// A function, with room for so many nestings, its own among them.
#[tactic(auto, unfolding(crate::specs::Reading::chunk_at, crate::specs::Reading::counted_at))]
#[cycle(reading)]
fn proto_of(
    alloc: Global,
    layout: Layout,
    room: usize,
    bytes: &[u8],
) -> Result<(Proto, &[u8]), ReadError>
    ensures { Gives (λ x. (view_proto x.0, x.1.now)) result (chunk_at layout room bytes.now) }
{
    if room == 0 {
        return Err(ReadError::Miss(Miss::TooDeep));
    }
    let (front, rest) = front_of(alloc, layout, bytes)?;
    let (code, rest) = words_of(alloc, layout, rest)?;
    let (constants, rest) = constants_of(alloc, layout, rest)?;
    let (count, rest) = int_of(layout, rest)?;
    let (functions, rest) = many_protos(alloc, layout, room - 1, count, rest)?;
    let (debug, rest) = debug_of(alloc, layout, rest)?;
    let proto = Proto {
        source: front.source,
        line_defined: front.line_defined,
        last_line: front.last_line,
        upvalues: front.upvalues,
        params: front.params,
        vararg: front.vararg,
        registers: front.registers,
        code: Code::from_vec(code),
        constants: ConstantList::from_vec(constants),
        functions: Protos::from_vec(functions),
        lines: debug.lines,
        locals: debug.locals,
        upvalue_names: debug.names,
    };
    Ok((proto, rest))
}

#[cycle(reading)]
fn many_protos(
    alloc: Global,
    layout: Layout,
    room: usize,
    count: u32,
    bytes: &[u8],
) -> Result<(Vec<Proto>, &[u8]), ReadError>
    ensures { Gives (λ x. (map view_proto x.0.items, x.1.now)) result (many_at (chunk_at layout room) count bytes.now) }
{
    let mut protos = Vec::new(alloc);
    let mut rest = bytes;
    for _ in 0..count {
        let (proto, after) = proto_of(alloc, layout, room, rest)?;
        protos.push(proto)?;
        rest = after;
    }
    Ok((protos, rest))
}

/// The layout and the main function, with nothing behind it.
#[tactic(auto, unfolding(crate::specs::Reading::all_of))]
pub fn whole_of(alloc: Global, bytes: &[u8]) -> Result<(Layout, Proto), ReadError>
    ensures { Gives (λ x. (x.0, view_proto x.1)) result (all_of bytes.now) }
{
    let (layout, rest) = header_of(bytes)?;
    let (proto, rest) = proto_of(alloc, layout, NESTINGS, rest)?;
    if !rest.is_empty() {
        return Err(ReadError::Miss(Miss::Trailing(rest.len())));
    }
    Ok((layout, proto))
}

// Reading parts from the left.
ghost use Rattle.std.specs.Prelude.{◌≡◌, ◌<◌, ℕ, List, length, map, IfOk};
ghost use Rattle.chunk_io.specs.Reading.{Gives, byte_at, number_at, int_at, size_at, some_size_at, bytes_at, ending_at, ended_at, text_at, source_at, flag_at, whole_at, constant_at, local_at, front_at};

use crate::front::Front;
use crate::layout::Layout;
use crate::miss::{Miss, ReadError};
use byteorder::{BigEndian, ByteOrder, LittleEndian};
use lua_num::ByteText;
use proto::{Constant, LocVar};
use std::alloc::Global;

#[tactic(auto, unfolding(crate::specs::Reading::number_at))]
pub fn u32_of(layout: Layout, bytes: &[u8]) -> Result<(u32, &[u8]), ReadError>
    ensures { Gives (λ x. (x.0, x.1.now)) result (number_at layout 4 bytes.now) }
{
    if bytes.len() < 4 {
        return Err(ReadError::Miss(Miss::Truncated));
    }
    let number = if layout.little {
        LittleEndian::read_u32(bytes)
    } else {
        BigEndian::read_u32(bytes)
    };
    Ok((number, &bytes[4..]))
}

#[tactic(auto, unfolding(crate::specs::Reading::number_at))]
fn u64_of(layout: Layout, bytes: &[u8]) -> Result<(u64, &[u8]), ReadError>
    ensures { Gives (λ x. (x.0, x.1.now)) result (number_at layout 8 bytes.now) }
{
    if bytes.len() < 8 {
        return Err(ReadError::Miss(Miss::Truncated));
    }
    let number = if layout.little {
        LittleEndian::read_u64(bytes)
    } else {
        BigEndian::read_u64(bytes)
    };
    Ok((number, &bytes[8..]))
}

#[tactic(auto, unfolding(crate::specs::Reading::int_at))]
pub fn int_of(layout: Layout, bytes: &[u8]) -> Result<(u32, &[u8]), ReadError>
    ensures { Gives (λ x. (x.0, x.1.now)) result (int_at layout bytes.now) }
{
    let (number, rest) = u32_of(layout, bytes)?;
    if number >= 2_147_483_648 {
        return Err(ReadError::Miss(Miss::BadCount(bytes.len())));
    }
    Ok((number, rest))
}

#[tactic(auto, unfolding(crate::specs::Reading::size_at))]
fn size_of(layout: Layout, bytes: &[u8]) -> Result<(u64, &[u8]), ReadError>
    ensures { Gives (λ x. (x.0, x.1.now)) result (size_at layout bytes.now) }
{
    if layout.size == 8 {
        return u64_of(layout, bytes);
    }
    let (size, rest) = u32_of(layout, bytes)?;
    Ok((size as u64, rest))
}

#[tactic(auto, unfolding(crate::specs::Reading::some_size_at))]
fn some_size_of(layout: Layout, bytes: &[u8]) -> Result<(u64, &[u8]), ReadError>
    ensures given { Gives (λ x. (x.0, x.1.now)) result (some_size_at layout bytes.now) }
    ensures some { IfOk result (λ x. 0 < x.0) }
{
    let (size, rest) = size_of(layout, bytes)?;
    if size == 0 {
        return Err(ReadError::Miss(Miss::BadString(bytes.len())));
    }
    Ok((size, rest))
}

#[tactic(auto, unfolding(crate::specs::Reading::bytes_at))]
fn bytes_of(count: u64, bytes: &[u8]) -> Result<(&[u8], &[u8]), ReadError>
    ensures { Gives (λ x. (x.0.now, x.1.now)) result (bytes_at count bytes.now) }
{
    if (bytes.len() as u64) < count {
        return Err(ReadError::Miss(Miss::Truncated));
    }
    Ok(bytes.split_at(count as usize))
}

#[tactic(auto, unfolding(crate::specs::Reading::ending_at))]
fn ending_of(bytes: &[u8]) -> Result<&[u8], ReadError>
    ensures { Gives (λ x. (tt, x.now)) result (ending_at bytes.now) }
{
    match bytes {
        [] => Err(ReadError::Miss(Miss::Truncated)),
        [0, rest @ ..] => Ok(rest),
        [_, ..] => Err(ReadError::Miss(Miss::BadString(bytes.len()))),
    }
}

#[tactic(auto, unfolding(crate::specs::Reading::ended_at))]
fn ended_of(alloc: Global, count: u64, bytes: &[u8]) -> Result<(ByteText, &[u8]), ReadError>
    ensures { Gives (λ x. (x.0, x.1.now)) result (ended_at count bytes.now) }
{
    let (text, rest) = bytes_of(count, bytes)?;
    let rest = ending_of(rest)?;
    Ok((ByteText::from_slice(alloc, text)?, rest))
}

#[tactic(auto, unfolding(crate::specs::Reading::text_at))]
pub fn text_of(alloc: Global, layout: Layout, bytes: &[u8]) -> Result<(ByteText, &[u8]), ReadError>
    ensures { Gives (λ x. (x.0, x.1.now)) result (text_at layout bytes.now) }
{
    let (size, rest) = some_size_of(layout, bytes)?;
    ended_of(alloc, size - 1, rest)
}

#[tactic(auto, unfolding(crate::specs::Reading::byte_at))]
fn byte_of(bytes: &[u8]) -> Result<(u8, &[u8]), ReadError>
    ensures { Gives (λ x. (x.0, x.1.now)) result (byte_at bytes.now) }
{
    match bytes {
        [] => Err(ReadError::Miss(Miss::Truncated)),
        [byte, rest @ ..] => Ok((*byte, rest)),
    }
}

#[tactic(auto, unfolding(crate::specs::Reading::source_at, crate::specs::Reading::rest_of_source_at))]
fn source_of(
    alloc: Global,
    layout: Layout,
    bytes: &[u8],
) -> Result<(Option<ByteText>, &[u8]), ReadError>
    ensures { Gives (λ x. (x.0, x.1.now)) result (source_at layout bytes.now) }
{
    let (size, rest) = size_of(layout, bytes)?;
    if size == 0 {
        return Ok((None, rest));
    }
    let (text, rest) = ended_of(alloc, size - 1, rest)?;
    Ok((Some(text), rest))
}

#[tactic(auto, unfolding(crate::specs::Reading::flag_at))]
fn flag_of(bytes: &[u8]) -> Result<(bool, &[u8]), ReadError>
    ensures { Gives (λ x. (x.0, x.1.now)) result (flag_at bytes.now) }
{
    match bytes {
        [] => Err(ReadError::Miss(Miss::Truncated)),
        [0, rest @ ..] => Ok((false, rest)),
        [1, rest @ ..] => Ok((true, rest)),
        [_, ..] => Err(ReadError::Miss(Miss::BadTag(bytes.len()))),
    }
}

#[tactic(auto, unfolding(crate::specs::Reading::whole_at))]
fn whole_of(layout: Layout, bytes: &[u8]) -> Result<(i64, &[u8]), ReadError>
    ensures { Gives (λ x. (x.0, x.1.now)) result (whole_at layout bytes.now) }
{
    let (number, rest) = u64_of(layout, bytes)?;
    Ok((number.cast_signed(), rest))
}

#[tactic(auto, unfolding(crate::specs::Reading::constant_at))]
pub fn constant_of(
    alloc: Global,
    layout: Layout,
    bytes: &[u8],
) -> Result<(Constant, &[u8]), ReadError>
    ensures { Gives (λ x. (x.0, x.1.now)) result (constant_at layout bytes.now) }
{
    match bytes {
        [] => Err(ReadError::Miss(Miss::Truncated)),
        [0, rest @ ..] => Ok((Constant::Nil, rest)),
        [1, rest @ ..] => {
            let (flag, rest) = flag_of(rest)?;
            Ok((Constant::Bool(flag), rest))
        }
        [3, rest @ ..] => {
            let (number, rest) = whole_of(layout, rest)?;
            Ok((Constant::Number(number), rest))
        }
        [4, rest @ ..] => {
            let (text, rest) = text_of(alloc, layout, rest)?;
            Ok((Constant::Text(text), rest))
        }
        [_, ..] => Err(ReadError::Miss(Miss::BadTag(bytes.len()))),
    }
}

#[tactic(auto, unfolding(crate::specs::Reading::local_at))]
pub fn local_of(alloc: Global, layout: Layout, bytes: &[u8]) -> Result<(LocVar, &[u8]), ReadError>
    ensures { Gives (λ x. (x.0, x.1.now)) result (local_at layout bytes.now) }
{
    let (name, rest) = text_of(alloc, layout, bytes)?;
    let (start, rest) = int_of(layout, rest)?;
    let (end, rest) = int_of(layout, rest)?;
    Ok((LocVar { name, start, end }, rest))
}

#[tactic(auto, unfolding(crate::specs::Reading::front_at))]
pub fn front_of(alloc: Global, layout: Layout, bytes: &[u8]) -> Result<(Front, &[u8]), ReadError>
    ensures { Gives (λ x. (x.0, x.1.now)) result (front_at layout bytes.now) }
{
    let (source, rest) = source_of(alloc, layout, bytes)?;
    let (line_defined, rest) = int_of(layout, rest)?;
    let (last_line, rest) = int_of(layout, rest)?;
    let (upvalues, rest) = byte_of(rest)?;
    let (params, rest) = byte_of(rest)?;
    let (vararg, rest) = byte_of(rest)?;
    let (registers, rest) = byte_of(rest)?;
    let front = Front {
        source,
        line_defined,
        last_line,
        upvalues,
        params,
        vararg,
        registers,
    };
    Ok((front, rest))
}

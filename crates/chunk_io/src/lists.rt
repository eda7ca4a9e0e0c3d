// Reading the lists of a function: how many, and then each. Memory grows with what is read, and never with a count.
ghost use Rattle.std.specs.Prelude.{◌≡◌, ℕ, List};
ghost use Rattle.chunk_io.specs.Reading.{Gives, Read, number_at, int_at, text_at, constant_at, local_at, many_at, counted_at};

use crate::layout::Layout;
use crate::miss::ReadError;
use crate::reading::{constant_of, int_of, local_of, text_of, u32_of};
use lua_num::Names;
use proto::{Constant, LocVar};
use std::alloc::Global;

#[tactic(auto, unfolding(crate::specs::Reading::counted_at))]
pub fn words_of(alloc: Global, layout: Layout, bytes: &[u8]) -> Result<(Vec<u32>, &[u8]), ReadError>
    ensures { Gives (λ x. (x.0.items, x.1.now)) result (counted_at layout (number_at layout 4) bytes.now) }
{
    let (count, rest) = int_of(layout, bytes)?;
    many_words(alloc, layout, count, rest)
}

fn many_words(
    alloc: Global,
    layout: Layout,
    count: u32,
    bytes: &[u8],
) -> Result<(Vec<u32>, &[u8]), ReadError>
    ensures { Gives (λ x. (x.0.items, x.1.now)) result (many_at (number_at layout 4) count bytes.now) }
{
    let mut words = Vec::new(alloc);
    let mut rest = bytes;
    for _ in 0..count {
        let (word, after) = u32_of(layout, rest)?;
        words.push(word)?;
        rest = after;
    }
    Ok((words, rest))
}

#[tactic(auto, unfolding(crate::specs::Reading::counted_at))]
pub fn constants_of(
    alloc: Global,
    layout: Layout,
    bytes: &[u8],
) -> Result<(Vec<Constant>, &[u8]), ReadError>
    ensures { Gives (λ x. (x.0.items, x.1.now)) result (counted_at layout (constant_at layout) bytes.now) }
{
    let (count, rest) = int_of(layout, bytes)?;
    many_constants(alloc, layout, count, rest)
}

fn many_constants(
    alloc: Global,
    layout: Layout,
    count: u32,
    bytes: &[u8],
) -> Result<(Vec<Constant>, &[u8]), ReadError>
    ensures { Gives (λ x. (x.0.items, x.1.now)) result (many_at (constant_at layout) count bytes.now) }
{
    let mut constants = Vec::new(alloc);
    let mut rest = bytes;
    for _ in 0..count {
        let (constant, after) = constant_of(alloc, layout, rest)?;
        constants.push(constant)?;
        rest = after;
    }
    Ok((constants, rest))
}

#[tactic(auto, unfolding(crate::specs::Reading::counted_at))]
pub fn lines_of(alloc: Global, layout: Layout, bytes: &[u8]) -> Result<(Vec<u32>, &[u8]), ReadError>
    ensures { Gives (λ x. (x.0.items, x.1.now)) result (counted_at layout (int_at layout) bytes.now) }
{
    let (count, rest) = int_of(layout, bytes)?;
    many_lines(alloc, layout, count, rest)
}

fn many_lines(
    alloc: Global,
    layout: Layout,
    count: u32,
    bytes: &[u8],
) -> Result<(Vec<u32>, &[u8]), ReadError>
    ensures { Gives (λ x. (x.0.items, x.1.now)) result (many_at (int_at layout) count bytes.now) }
{
    let mut lines = Vec::new(alloc);
    let mut rest = bytes;
    for _ in 0..count {
        let (line, after) = int_of(layout, rest)?;
        lines.push(line)?;
        rest = after;
    }
    Ok((lines, rest))
}

#[tactic(auto, unfolding(crate::specs::Reading::counted_at))]
pub fn locals_of(
    alloc: Global,
    layout: Layout,
    bytes: &[u8],
) -> Result<(Vec<LocVar>, &[u8]), ReadError>
    ensures { Gives (λ x. (x.0.items, x.1.now)) result (counted_at layout (local_at layout) bytes.now) }
{
    let (count, rest) = int_of(layout, bytes)?;
    many_locals(alloc, layout, count, rest)
}

fn many_locals(
    alloc: Global,
    layout: Layout,
    count: u32,
    bytes: &[u8],
) -> Result<(Vec<LocVar>, &[u8]), ReadError>
    ensures { Gives (λ x. (x.0.items, x.1.now)) result (many_at (local_at layout) count bytes.now) }
{
    let mut locals = Vec::new(alloc);
    let mut rest = bytes;
    for _ in 0..count {
        let (local, after) = local_of(alloc, layout, rest)?;
        locals.push(local)?;
        rest = after;
    }
    Ok((locals, rest))
}

#[tactic(auto, unfolding(crate::specs::Reading::counted_at))]
pub fn names_of(alloc: Global, layout: Layout, bytes: &[u8]) -> Result<(Names, &[u8]), ReadError>
    ensures { Gives (λ x. (x.0, x.1.now)) result (counted_at layout (text_at layout) bytes.now) }
{
    let (count, rest) = int_of(layout, bytes)?;
    many_names(alloc, layout, count, rest)
}

fn many_names(
    alloc: Global,
    layout: Layout,
    count: u32,
    bytes: &[u8],
) -> Result<(Names, &[u8]), ReadError>
    ensures { Gives (λ x. (x.0, x.1.now)) result (many_at (text_at layout) count bytes.now) }
{
    let mut names = Names::new(alloc);
    let mut rest = bytes;
    for _ in 0..count {
        let (name, after) = text_of(alloc, layout, rest)?;
        names.push(name)?;
        rest = after;
    }
    Ok((names, rest))
}

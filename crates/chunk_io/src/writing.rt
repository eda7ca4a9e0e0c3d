// Writing parts, one behind the other.
ghost use Rattle.std.specs.Prelude.{◌≡◌, ◌++◌, [], ◌∷◌, suc, length, OnOk};
ghost use Rattle.std.specs.List.{flat_map};
ghost use Rattle.std.specs.Int.{w32, w64};
ghost use Rattle.chunk_io.specs.Items.{number_bytes, size_bytes, spelling, int, instruction, header, string_items, source_items, constant_items, local_items, counted};

use crate::layout::Layout;
use byteorder::{BigEndian, ByteOrder, LittleEndian};
use lua_num::{ByteText, Names};
use proto::{Constant, LocVar};
use std::alloc::AllocError;

pub fn put_u32(out: &mut ByteText, layout: Layout, number: u32) -> Result<(), AllocError>
    ensures { OnOk result (out.new ≡ out.old ++ number_bytes layout w32 number) }
{
    let mut bytes = [0; 4];
    if layout.little {
        LittleEndian::write_u32(&mut bytes, number);
    } else {
        BigEndian::write_u32(&mut bytes, number);
    }
    out.extend(&bytes)
}

fn put_u64(out: &mut ByteText, layout: Layout, number: u64) -> Result<(), AllocError>
    ensures { OnOk result (out.new ≡ out.old ++ number_bytes layout w64 number) }
{
    let mut bytes = [0; 8];
    if layout.little {
        LittleEndian::write_u64(&mut bytes, number);
    } else {
        BigEndian::write_u64(&mut bytes, number);
    }
    out.extend(&bytes)
}

// A count, of which no more than four bytes are written.
pub fn put_count(out: &mut ByteText, layout: Layout, count: usize) -> Result<(), AllocError>
    ensures { OnOk result (out.new ≡ out.old ++ number_bytes layout w32 count) }
{
    put_u32(out, layout, (count % 0x1_0000_0000) as u32)
}

fn put_size(out: &mut ByteText, layout: Layout, size: usize) -> Result<(), AllocError>
    ensures { OnOk result (out.new ≡ out.old ++ size_bytes layout size) }
{
    if layout.size == 8 {
        put_u64(out, layout, size as u64)
    } else {
        put_count(out, layout, size)
    }
}

fn put_string(out: &mut ByteText, layout: Layout, text: &ByteText) -> Result<(), AllocError>
    ensures { OnOk result (out.new ≡ out.old ++ spelling (string_items layout text.now)) }
{
    put_size(out, layout, text.bytes().len() + 1)?;
    out.extend(text.bytes())?;
    out.push(0)
}

pub fn put_source(
    out: &mut ByteText,
    layout: Layout,
    source: &Option<ByteText>,
) -> Result<(), AllocError>
    ensures { OnOk result (out.new ≡ out.old ++ spelling (source_items layout source.now)) }
{
    match source {
        None => put_size(out, layout, 0),
        Some(text) => put_string(out, layout, text),
    }
}

fn put_constant(out: &mut ByteText, layout: Layout, constant: &Constant) -> Result<(), AllocError>
    ensures { OnOk result (out.new ≡ out.old ++ spelling (constant_items layout constant.now)) }
{
    match constant {
        Constant::Nil => out.push(0),
        Constant::Bool(flag) => {
            out.push(1)?;
            out.push(if *flag { 1 } else { 0 })
        }
        Constant::Number(number) => {
            out.push(3)?;
            put_u64(out, layout, number.cast_unsigned())
        }
        Constant::Text(text) => {
            out.push(4)?;
            put_string(out, layout, text)
        }
    }
}

fn put_local(out: &mut ByteText, layout: Layout, local: &LocVar) -> Result<(), AllocError>
    ensures { OnOk result (out.new ≡ out.old ++ spelling (local_items layout local.now)) }
{
    put_string(out, layout, &local.name)?;
    put_u32(out, layout, local.start)?;
    put_u32(out, layout, local.end)
}

pub fn put_words(out: &mut ByteText, layout: Layout, words: &[u32]) -> Result<(), AllocError>
    ensures { OnOk result (out.new ≡ out.old ++ spelling (counted layout (λ word. instruction layout word ∷ []) words.now)) }
{
    put_count(out, layout, words.len())?;
    for word in words {
        put_u32(out, layout, *word)?;
    }
    Ok(())
}

pub fn put_constants(
    out: &mut ByteText,
    layout: Layout,
    constants: &[Constant],
) -> Result<(), AllocError>
    ensures { OnOk result (out.new ≡ out.old ++ spelling (counted layout (constant_items layout) constants.now)) }
{
    put_count(out, layout, constants.len())?;
    for constant in constants {
        put_constant(out, layout, constant)?;
    }
    Ok(())
}

pub fn put_lines(out: &mut ByteText, layout: Layout, lines: &[u32]) -> Result<(), AllocError>
    ensures { OnOk result (out.new ≡ out.old ++ spelling (counted layout (λ line. int layout line ∷ []) lines.now)) }
{
    put_count(out, layout, lines.len())?;
    for line in lines {
        put_u32(out, layout, *line)?;
    }
    Ok(())
}

pub fn put_locals(out: &mut ByteText, layout: Layout, locals: &[LocVar]) -> Result<(), AllocError>
    ensures { OnOk result (out.new ≡ out.old ++ spelling (counted layout (local_items layout) locals.now)) }
{
    put_count(out, layout, locals.len())?;
    for local in locals {
        put_local(out, layout, local)?;
    }
    Ok(())
}

pub fn put_names(out: &mut ByteText, layout: Layout, names: &Names) -> Result<(), AllocError>
    ensures { OnOk result (out.new ≡ out.old ++ spelling (counted layout (string_items layout) names.now)) }
{
    put_count(out, layout, names.items().len())?;
    for name in names.items() {
        put_string(out, layout, name)?;
    }
    Ok(())
}

pub fn put_header(out: &mut ByteText, layout: Layout) -> Result<(), AllocError>
    ensures { OnOk result (out.new ≡ out.old ++ spelling (header layout)) }
{
    out.extend(b"\x1bLua\x51\x00")?;
    out.push(if layout.little { 1 } else { 0 })?;
    out.push(4)?;
    out.push(layout.size)?;
    out.extend(b"\x04\x08\x01")
}

// Functions as a listing shows them.
ghost use Rattle.std.specs.Prelude.{◌≡◌, ◌++◌, ◌∷◌, [], map, IfOk, OnOk};
ghost use Rattle.proto.specs.Chunk.{own, functions, functions_of, function_count};
ghost use Rattle.proto.specs.View.{view_proto};
ghost use Rattle.lister.specs.Listing.{digits, own_listing, function_listing, inner_listing, listing};
ghost use Rattle.lister.specs.Parts.{name_line, source_line, shape_of};

use crate::code::put_code;
use crate::lists::{put_count, put_lines, put_list, put_numbers};
use crate::text::{put_number, put_quoted};
use lua_num::ByteText;
use proto::Proto;
use std::alloc::{AllocError, Global};

/// The listing of a chunk (a form of this suite's own): each function before the functions in it, the main function first.
/// A function has a line each for its name, its source, its lines and its shape, then its code word by word, its constants,
/// the count of the functions in it, the lines of its words, its locals, and the names of its upvalues. Any chunk has a
/// listing, a wrong one too. Fails only where memory runs out. The time is linear in the listing, and the depth of the stack
/// in the depth of the functions.
pub fn list(alloc: Global, proto: &Proto) -> Result<ByteText, AllocError>
    ensures { IfOk result (λ text. text ≡ listing (view_proto proto.now)) }
{
    let mut out = ByteText::new(alloc);
    put_function(alloc, &mut out, b"main", b"", proto)?;
    Ok(out)
}

/// Appends a function and the functions in it, whose names are their numbers behind `before`.
#[cycle(list)]
fn put_function(
    alloc: Global,
    out: &mut ByteText,
    name: &[u8],
    before: &[u8],
    proto: &Proto,
) -> Result<(), AllocError>
    ensures { OnOk result (out.new ≡ out.old ++ function_listing name.now before.now (view_proto proto.now)) }
{
    put_own(alloc, out, name, proto)?;
    put_inner(alloc, out, before, proto.functions.items())
}

/// Appends the functions in a function.
#[cycle(list)]
fn put_inner(
    alloc: Global,
    out: &mut ByteText,
    before: &[u8],
    protos: &[Proto],
) -> Result<(), AllocError>
    ensures { OnOk result (out.new ≡ out.old ++ inner_listing before.now 0 (functions_of (map view_proto protos.now))) }
{
    for (number, proto) in protos.iter().enumerate() {
        let name = inner_name(alloc, before, number)?;
        let before_inner = with_point(alloc, name.bytes())?;
        put_function(alloc, out, name.bytes(), before_inner.bytes(), proto)?;
    }
    Ok(())
}

fn inner_name(alloc: Global, before: &[u8], number: usize) -> Result<ByteText, AllocError>
    ensures { IfOk result (λ name. name ≡ before.now ++ digits number) }
{
    let mut name = ByteText::from_slice(alloc, before)?;
    put_number(alloc, &mut name, number)?;
    Ok(name)
}

fn with_point(alloc: Global, name: &[u8]) -> Result<ByteText, AllocError>
    ensures { IfOk result (λ before. before ≡ name.now ++ 46 ∷ []) }
{
    let mut before = ByteText::from_slice(alloc, name)?;
    before.push(b'.')?;
    Ok(before)
}

/// Appends what a function has beside the functions in it.
fn put_own(alloc: Global, out: &mut ByteText, name: &[u8], proto: &Proto) -> Result<(), AllocError>
    ensures { OnOk result (out.new ≡ out.old ++ own_listing name.now (own (view_proto proto.now)) (function_count (functions (view_proto proto.now)))) }
{
    let constants = proto.constants.items();
    let lines = proto.lines.items();
    let functions = proto.functions.items();
    put_name(out, name)?;
    put_source(out, &proto.source)?;
    put_numbers(
        alloc,
        out,
        "defined",
        &[proto.line_defined, proto.last_line],
    )?;
    put_numbers(alloc, out, "shape", &shape_numbers(proto))?;
    put_code(alloc, out, proto.code.items(), lines, constants)?;
    put_list(alloc, out, "constants", constants)?;
    put_count(alloc, out, "functions", functions.len())?;
    put_lines(alloc, out, lines)?;
    put_list(alloc, out, "locals", proto.locals.items())?;
    put_list(alloc, out, "names", proto.upvalue_names.items())
}

#[tactic(auto, unfolding(crate::specs::Parts::name_line))]
fn put_name(out: &mut ByteText, name: &[u8]) -> Result<(), AllocError>
    ensures { OnOk result (out.new ≡ out.old ++ name_line name.now) }
{
    out.extend(b"function ")?;
    out.extend(name)?;
    out.push(b'\n')
}

#[tactic(auto, unfolding(crate::specs::Parts::source_line))]
fn put_source(out: &mut ByteText, source: &Option<ByteText>) -> Result<(), AllocError>
    ensures { OnOk result (out.new ≡ out.old ++ source_line source.now) }
{
    out.extend(b"source ")?;
    match source {
        Some(text) => put_quoted(out, text.bytes())?,
        None => out.extend(b"none")?,
    }
    out.push(b'\n')
}

/// The counts of upvalues and parameters, the vararg flags, and the count of registers.
fn shape_numbers(proto: &Proto) -> [u32; 4]
    ensures { result ≡ shape_of (own (view_proto proto.now)) }
{
    [
        u32::from(proto.upvalues),
        u32::from(proto.params),
        u32::from(proto.vararg),
        u32::from(proto.registers),
    ]
}

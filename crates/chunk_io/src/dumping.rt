// Writing chunks.
ghost use Rattle.std.specs.Prelude.{◌≡◌, ◌++◌, ℕ, map, OnOk, IfOk};
ghost use Rattle.proto.specs.Chunk.{own, functions_of};
ghost use Rattle.proto.specs.View.{view_proto};
ghost use Rattle.chunk_io.specs.Items.{spelling, front_items, shape_items, debug_items, function_items, each_items, Fits, Spelled, le8};

use crate::layout::Layout;
use crate::writing::{
    put_constants, put_count, put_header, put_lines, put_locals, put_names, put_source, put_u32,
    put_words,
};
use lua_num::ByteText;
use proto::Proto;
use std::alloc::{AllocError, Global};

/// The bytes of a chunk in the layout of this suite's own: little endian, sizes of 8 bytes. The time is linear in them.
pub fn dump(alloc: Global, proto: &Proto) -> Result<ByteText, AllocError>
    requires { Fits le8 (view_proto proto.now) }
    ensures { IfOk result (λ text. Spelled text le8 (view_proto proto.now)) }
{
    dump_as(alloc, proto, Layout::le8())
}

/// The bytes of a chunk in a layout. The time is linear in them.
pub fn dump_as(alloc: Global, proto: &Proto, layout: Layout) -> Result<ByteText, AllocError>
    requires { Fits layout (view_proto proto.now) }
    ensures { IfOk result (λ text. Spelled text layout (view_proto proto.now)) }
{
    let mut out = ByteText::new(alloc);
    put_header(&mut out, layout)?;
    put_function(&mut out, layout, proto)?;
    Ok(out)
}

fn put_front(out: &mut ByteText, layout: Layout, proto: &Proto) -> Result<(), AllocError>
    ensures { OnOk result (out.new ≡ out.old ++ spelling (front_items layout (own (view_proto proto.now)))) }
{
    put_source(out, layout, &proto.source)?;
    put_u32(out, layout, proto.line_defined)?;
    put_u32(out, layout, proto.last_line)?;
    put_shape(out, proto)
}

fn put_shape(out: &mut ByteText, proto: &Proto) -> Result<(), AllocError>
    ensures { OnOk result (out.new ≡ out.old ++ spelling (shape_items (own (view_proto proto.now)))) }
{
    out.push(proto.upvalues)?;
    out.push(proto.params)?;
    out.push(proto.vararg)?;
    out.push(proto.registers)
}

fn put_debug(out: &mut ByteText, layout: Layout, proto: &Proto) -> Result<(), AllocError>
    ensures { OnOk result (out.new ≡ out.old ++ spelling (debug_items layout (own (view_proto proto.now)))) }
{
    put_lines(out, layout, proto.lines.items())?;
    put_locals(out, layout, proto.locals.items())?;
    put_names(out, layout, &proto.upvalue_names)
}

#[cycle(writing)]
fn put_function(out: &mut ByteText, layout: Layout, proto: &Proto) -> Result<(), AllocError>
    ensures { (nesting : ℕ) → OnOk result (out.new ≡ out.old ++ spelling (function_items layout nesting (view_proto proto.now))) }
{
    put_front(out, layout, proto)?;
    put_words(out, layout, proto.code.items())?;
    put_constants(out, layout, proto.constants.items())?;
    put_count(out, layout, proto.functions.items().len())?;
    put_functions(out, layout, proto.functions.items())?;
    put_debug(out, layout, proto)
}

#[cycle(writing)]
fn put_functions(out: &mut ByteText, layout: Layout, functions: &[Proto]) -> Result<(), AllocError>
    ensures { (nesting : ℕ) → OnOk result (out.new ≡ out.old ++ spelling (each_items layout nesting (functions_of (map view_proto functions.now)))) }
{
    for function in functions {
        put_function(out, layout, function)?;
    }
    Ok(())
}

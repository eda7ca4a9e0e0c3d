// Whether chunks have a spelling.
ghost use Rattle.std.specs.Prelude.{◌≡◌, ◌<◌, ◌^◌, [], ◌∷◌, map, IsTrue, ◌↔◌, FitsSigned};
ghost use Rattle.std.specs.List.{flat_map, AllByRecursion};
ghost use Rattle.std.specs.Int.{w64};
ghost use Rattle.proto.specs.Chunk.{own, functions_of};
ghost use Rattle.proto.specs.View.{view_proto};
ghost use Rattle.chunk_io.specs.Items.{Allowed, Fits, int, instruction, string_items, source_items, constant_items, local_items, counted, front_items, shape_items, debug_items, function_items, each_items};
ghost use Rattle.chunk_io.specs.Fitting.{code_items, own_items};
ghost use Rattle.chunk_io.specs.declared.layout.Layout.{Layout};

use crate::function::NESTINGS;
use crate::layout::Layout;
use lua_num::ByteText;
use proto::{Constant, LocVar, Proto};

/// Whether a chunk has a spelling in a layout: its counts, lines and places are below 2^31, its functions nest to at most 200, and
/// its strings have a size in the layout. Takes no memory. The time is linear in the chunk.
pub fn fits(proto: &Proto, layout: Layout) -> bool
    ensures { IsTrue result ↔ (Fits layout (view_proto proto.now)) }
{
    function_fits(proto, layout, 1)
}

fn count_fits(count: usize) -> bool
    ensures { IsTrue result ↔ (count < 2 ^ 31) }
{
    count < 0x8000_0000
}

fn int_fits(number: u32) -> bool
    ensures { IsTrue result ↔ (number < 2 ^ 31) }
{
    number < 0x8000_0000
}

// Each byte has a spelling.
fn byte_fits(_byte: u8) -> bool
    ensures { IsTrue result ↔ (_byte < 256) }
{
    true
}

// Each number has a spelling.
fn number_fits(_number: i64) -> bool
    ensures { IsTrue result ↔ FitsSigned w64 _number }
{
    true
}

fn string_fits(text: &ByteText, layout: Layout) -> bool
    ensures { IsTrue result ↔ AllByRecursion Allowed (string_items layout text.now) }
{
    let size = text.bytes().len() + 1;
    layout.size == 8 || size < 0x1_0000_0000
}

fn source_fits(source: &Option<ByteText>, layout: Layout) -> bool
    ensures { IsTrue result ↔ AllByRecursion Allowed (source_items layout source.now) }
{
    match source {
        None => true,
        Some(text) => string_fits(text, layout),
    }
}

fn constant_fits(constant: &Constant, layout: Layout) -> bool
    ensures { IsTrue result ↔ AllByRecursion Allowed (constant_items layout constant.now) }
{
    match constant {
        Constant::Nil | Constant::Bool(_) => true,
        Constant::Number(number) => number_fits(*number),
        Constant::Text(text) => string_fits(text, layout),
    }
}

fn local_fits(local: &LocVar, layout: Layout) -> bool
    ensures { IsTrue result ↔ AllByRecursion Allowed (local_items layout local.now) }
{
    string_fits(&local.name, layout) && int_fits(local.start) && int_fits(local.end)
}

// Of words the count alone is looked at, since each word fits.
fn words_fit(words: &[u32]) -> bool
    ensures { (layout : Layout) → (IsTrue result ↔ AllByRecursion Allowed (counted layout (λ word. instruction layout word ∷ []) words.now)) }
{
    count_fits(words.len())
}

fn constants_fit(constants: &[Constant], layout: Layout) -> bool
    ensures { IsTrue result ↔ AllByRecursion Allowed (counted layout (constant_items layout) constants.now) }
{
    count_fits(constants.len())
        && constants
            .iter()
            .all(|constant| constant_fits(constant, layout))
}

fn lines_fit(lines: &[u32]) -> bool
    ensures { (layout : Layout) → (IsTrue result ↔ AllByRecursion Allowed (counted layout (λ line. int layout line ∷ []) lines.now)) }
{
    count_fits(lines.len()) && lines.iter().all(|line| int_fits(*line))
}

fn locals_fit(locals: &[LocVar], layout: Layout) -> bool
    ensures { IsTrue result ↔ AllByRecursion Allowed (counted layout (local_items layout) locals.now) }
{
    count_fits(locals.len()) && locals.iter().all(|local| local_fits(local, layout))
}

fn names_fit(names: &[ByteText], layout: Layout) -> bool
    ensures { IsTrue result ↔ AllByRecursion Allowed (counted layout (string_items layout) names.now) }
{
    count_fits(names.len()) && names.iter().all(|name| string_fits(name, layout))
}

fn front_fits(proto: &Proto, layout: Layout) -> bool
    ensures { IsTrue result ↔ AllByRecursion Allowed (front_items layout (own (view_proto proto.now))) }
{
    source_fits(&proto.source, layout)
        && int_fits(proto.line_defined)
        && int_fits(proto.last_line)
        && shape_fits(proto)
}

fn shape_fits(proto: &Proto) -> bool
    ensures { IsTrue result ↔ AllByRecursion Allowed (shape_items (own (view_proto proto.now))) }
{
    byte_fits(proto.upvalues)
        && byte_fits(proto.params)
        && byte_fits(proto.vararg)
        && byte_fits(proto.registers)
}

fn debug_fits(proto: &Proto, layout: Layout) -> bool
    ensures { IsTrue result ↔ AllByRecursion Allowed (debug_items layout (own (view_proto proto.now))) }
{
    lines_fit(proto.lines.items())
        && locals_fit(proto.locals.items(), layout)
        && names_fit(proto.upvalue_names.items(), layout)
}

fn code_fits(proto: &Proto, layout: Layout) -> bool
    ensures { IsTrue result ↔ AllByRecursion Allowed (code_items layout (view_proto proto.now)) }
{
    words_fit(proto.code.items())
        && constants_fit(proto.constants.items(), layout)
        && count_fits(proto.functions.items().len())
}

// Everything of a function but the functions in it; of these their count.
fn own_fits(proto: &Proto, layout: Layout) -> bool
    ensures { IsTrue result ↔ AllByRecursion Allowed (own_items layout (view_proto proto.now)) }
{
    front_fits(proto, layout) && code_fits(proto, layout) && debug_fits(proto, layout)
}

// A function at a nesting. It goes no deeper than functions may nest.
#[cycle(fitting)]
fn function_fits(proto: &Proto, layout: Layout, nesting: usize) -> bool
    ensures { IsTrue result ↔ AllByRecursion Allowed (function_items layout nesting (view_proto proto.now)) }
{
    nesting <= NESTINGS
        && own_fits(proto, layout)
        && functions_fit(proto.functions.items(), layout, nesting + 1)
}

#[cycle(fitting)]
fn functions_fit(functions: &[Proto], layout: Layout, nesting: usize) -> bool
    ensures { IsTrue result ↔ AllByRecursion Allowed (each_items layout nesting (functions_of (map view_proto functions.now))) }
{
    for function in functions {
        if !function_fits(function, layout, nesting) {
            return false;
        }
    }
    true
}

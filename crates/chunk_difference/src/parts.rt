// The parts of functions, one by one.
ghost use Rattle.std.specs.Prelude.{◌≡◌, IfOk};
ghost use Rattle.proto.specs.View.{view_proto};
ghost use Rattle.proto.specs.Chunk.{own, functions, function_count as the_function_count};
ghost use Rattle.chunk_difference.specs.Difference.{shape as the_shape};
ghost use Rattle.chunk_difference.specs.Finding.{IsFoundHere};

use crate::difference::Part;
use crate::lists::{
    Unlike, constants_differ, counts_differ, locals_differ, names_differ, numbers_differ,
    sources_differ,
};
use proto::Proto;
use std::alloc::AllocError;

/// The first part in which two functions differ, beside the functions in them.
pub fn own_difference(had: &Proto, got: &Proto) -> Result<Option<(Part, Unlike)>, AllocError>
    ensures { IfOk result (IsFoundHere (view_proto had.now) (view_proto got.now)) }
{
    if let Some(unlike) = numbers_differ(&shape(had), &shape(got))? {
        return Ok(Some((Part::Shape, unlike)));
    }
    if let Some(unlike) = numbers_differ(had.code.items(), got.code.items())? {
        return Ok(Some((Part::Code, unlike)));
    }
    if let Some(unlike) = constants_differ(had.constants.items(), got.constants.items())? {
        return Ok(Some((Part::Constants, unlike)));
    }
    if let Some(unlike) = locals_differ(had.locals.items(), got.locals.items())? {
        return Ok(Some((Part::Locals, unlike)));
    }
    if let Some(unlike) = names_differ(had.upvalue_names.items(), got.upvalue_names.items())? {
        return Ok(Some((Part::Names, unlike)));
    }
    if let Some(unlike) = counts_differ(had.lines.items().len(), got.lines.items().len())? {
        return Ok(Some((Part::LineCount, unlike)));
    }
    if let Some(unlike) = sources_differ(&had.source, &got.source)? {
        return Ok(Some((Part::Source, unlike)));
    }
    if let Some(unlike) = counts_differ(function_count(had), function_count(got))? {
        return Ok(Some((Part::Functions, unlike)));
    }
    Ok(None)
}

// The four bytes of a function's shape.
fn shape(proto: &Proto) -> [u32; 4]
    ensures { result ≡ the_shape (own (view_proto proto.now)) }
{
    [
        u32::from(proto.upvalues),
        u32::from(proto.params),
        u32::from(proto.vararg),
        u32::from(proto.registers),
    ]
}

// How many functions stand directly in one.
fn function_count(proto: &Proto) -> usize
    ensures { result ≡ the_function_count (functions (view_proto proto.now)) }
{
    proto.functions.items().len()
}

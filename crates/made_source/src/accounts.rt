// The account of a source and its chunk.
ghost use Rattle.std.specs.Prelude.{◌≡◌, ◌+◌, ◌++◌, map, IfOk, OnOk};
ghost use Rattle.std.specs.Fmt.{decimal};
ghost use Rattle.proto.specs.Chunk.{functions_of};
ghost use Rattle.proto.specs.View.{view_proto};
ghost use Rattle.made_source.specs.Made.{account, line, functions_in, functions_among, words_in, words_among};

use lua_num::ByteText;
use proto::Proto;
use std::alloc::{AllocError, Global};

/// The lines `source N` with the number of bytes of a source, `functions N` with that of the functions of its chunk, the main one among them, `words N` with that of the
/// words of all of them, and `decompiled`. Fails only where memory runs out; a count past `usize::MAX` is told as that, since no memory has so many words. Linear in the
/// functions; the depth of the stack is linear in theirs.
pub fn account(alloc: Global, source: &[u8], proto: &Proto) -> Result<ByteText, AllocError>
    ensures { IfOk result (λ text. text ≡ account source.now (view_proto proto.now)) }
{
    let size = size_of(proto)?;
    let mut text = ByteText::new(alloc);
    put_line(alloc, &mut text, b"source ", source.len())?;
    put_line(alloc, &mut text, b"functions ", size.functions)?;
    put_line(alloc, &mut text, b"words ", size.words)?;
    text.extend(b"decompiled\n")?;
    Ok(text)
}

// Appends a line of a word and a number.
fn put_line(
    alloc: Global,
    text: &mut ByteText,
    word: &[u8],
    number: usize,
) -> Result<(), AllocError>
    ensures { OnOk result (text.new ≡ text.old ++ line (word.now ++ decimal number)) }
{
    text.extend(word)?;
    text.extend(number.to_string(alloc)?.as_bytes())?;
    text.push(b'\n')
}

// How many functions there are, and how many words they have.
#[derive(Clone, Copy)]
struct Size {
    functions: usize,
    words: usize,
}

// The size of a function, with those in it.
#[cycle(size)]
fn size_of(proto: &Proto) -> Result<Size, AllocError>
    ensures functions { IfOk result (λ size. size.functions ≡ functions_in (view_proto proto.now)) }
    ensures words { IfOk result (λ size. size.words ≡ words_in (view_proto proto.now)) }
{
    let inner = size_among(proto.functions.items())?;
    Ok(Size {
        functions: sum_of(inner.functions, 1)?,
        words: sum_of(proto.code.items().len(), inner.words)?,
    })
}

// The size of functions, with those in them.
#[cycle(size)]
fn size_among(protos: &[Proto]) -> Result<Size, AllocError>
    ensures functions { IfOk result (λ size. size.functions ≡ functions_among (functions_of (map view_proto protos.now))) }
    ensures words { IfOk result (λ size. size.words ≡ words_among (functions_of (map view_proto protos.now))) }
{
    let mut functions = 0;
    let mut words = 0;
    for proto in protos {
        let size = size_of(proto)?;
        functions = sum_of(functions, size.functions)?;
        words = sum_of(words, size.words)?;
    }
    Ok(Size { functions, words })
}

fn sum_of(count: usize, more: usize) -> Result<usize, AllocError>
    ensures { IfOk result (λ sum. sum ≡ count + more) }
{
    count.checked_add(more).ok_or(AllocError)
}

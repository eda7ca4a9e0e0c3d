// The text of the source.
ghost use Rattle.std.specs.Prelude.{◌≡◌, ◌++◌, IfOk, OnOk};
ghost use Rattle.made_source.specs.Made.{made, piece, function_line, function_lines, calling_line};

use lua_num::ByteText;
use std::alloc::{AllocError, Global};

/// The source with so many functions, each of which is called once: `local t, s = {}, 0`, a line `t[I] = function(x) .. end` for each I from 1 on, the loop that calls
/// them, and `print(s)`. Fails only where memory runs out. Linear in the count.
pub fn made(alloc: Global, count: u32) -> Result<ByteText, AllocError>
    ensures { IfOk result (λ text. text ≡ made count) }
{
    let mut text = ByteText::from_slice(alloc, b"local t, s = {}, 0\n")?;
    put_functions(alloc, &mut text, count)?;
    put_calls(alloc, &mut text, count)?;
    text.extend(b"print(s)\n")?;
    Ok(text)
}

// Appends a line for each function.
fn put_functions(alloc: Global, text: &mut ByteText, count: u32) -> Result<(), AllocError>
    ensures { OnOk result (text.new ≡ text.old ++ function_lines count) }
{
    for number in 0..count {
        put_function(alloc, text, number + 1)?;
    }
    Ok(())
}

// Appends the line of the function of a number.
fn put_function(alloc: Global, text: &mut ByteText, number: u32) -> Result<(), AllocError>
    ensures { OnOk result (text.new ≡ text.old ++ function_line number) }
{
    put_piece(alloc, text, b"t[", number)?;
    put_piece(alloc, text, b"] = function(x) if x < ", number)?;
    put_piece(alloc, text, b" then s = s + x else s = s - ", number)?;
    text.extend(b" end return s end\n")
}

// Appends the line of the loop that calls each function.
fn put_calls(alloc: Global, text: &mut ByteText, count: u32) -> Result<(), AllocError>
    ensures { OnOk result (text.new ≡ text.old ++ calling_line count) }
{
    put_piece(alloc, text, b"for i = 1, ", count)?;
    put_piece(alloc, text, b" do t[i](", count)?;
    text.extend(b" + 1 - i) end\n")
}

// Appends a piece of a line, with a number in decimal digits behind it.
fn put_piece(
    alloc: Global,
    text: &mut ByteText,
    words: &[u8],
    number: u32,
) -> Result<(), AllocError>
    ensures { OnOk result (text.new ≡ text.old ++ piece words.now number) }
{
    text.extend(words)?;
    text.extend(number.to_string(alloc)?.as_bytes())
}

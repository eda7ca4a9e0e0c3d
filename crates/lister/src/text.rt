// Numbers, quoted texts and constants as a listing shows them.
ghost use Rattle.std.specs.Prelude.{◌≡◌, ◌++◌, ◌∷◌, [], OnOk};
ghost use Rattle.lister.specs.Listing.{digits, quoted, quoted_byte, constant_text};

use lua_num::{ByteText, decimal};
use proto::Constant;
use std::alloc::{AllocError, Global};

/// Appends a number in decimal digits.
pub fn put_number(alloc: Global, out: &mut ByteText, n: usize) -> Result<(), AllocError>
    ensures { OnOk result (out.new ≡ out.old ++ digits n) }
{
    out.extend(n.to_string(alloc)?.as_bytes())
}

/// Appends a text between quotes.
pub fn put_quoted(out: &mut ByteText, text: &[u8]) -> Result<(), AllocError>
    ensures { OnOk result (out.new ≡ out.old ++ quoted text.now) }
{
    out.push(b'"')?;
    for byte in text {
        put_quoted_byte(out, *byte)?;
    }
    out.push(b'"')
}

fn put_quoted_byte(out: &mut ByteText, byte: u8) -> Result<(), AllocError>
    ensures { OnOk result (out.new ≡ out.old ++ quoted_byte byte) }
{
    match byte {
        b'"' | b'\\' => out.extend(&[b'\\', byte]),
        b'\n' => out.extend(b"\\n"),
        b' '..=b'~' => out.push(byte),
        _ => out.extend(&[
            b'\\',
            b'0' + byte / 100,
            b'0' + byte / 10 % 10,
            b'0' + byte % 10,
        ]),
    }
}

/// Appends a constant.
pub fn put_constant(
    alloc: Global,
    out: &mut ByteText,
    constant: &Constant,
) -> Result<(), AllocError>
    ensures { OnOk result (out.new ≡ out.old ++ constant_text constant.now) }
{
    match constant {
        Constant::Nil => out.extend(b"nil"),
        Constant::Bool(true) => out.extend(b"true"),
        Constant::Bool(false) => out.extend(b"false"),
        Constant::Number(n) => out.extend(decimal(alloc, *n)?.bytes()),
        Constant::Text(text) => put_quoted(out, text.bytes()),
    }
}

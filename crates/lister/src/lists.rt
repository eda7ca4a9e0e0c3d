// The lists of a function as a listing shows them: a line for each item, with its number in front.
ghost use Rattle.std.specs.Prelude.{◌≡◌, ◌++◌, OnOk};
ghost use Rattle.lister.specs.Listing.{numbered, spaced, quoted, local_text, constant_text};
ghost use Rattle.lister.specs.Parts.{numbers_line, lines_line, count_line, list_part};

use crate::text::{put_constant, put_number, put_quoted};
use lua_num::ByteText;
use proto::{Constant, LocVar};
use std::alloc::{AllocError, Global};

/// What has a text in a listing.
pub trait Listed {
    ghost use Rattle.std.specs.Prelude.{List, ℕ};

    ghost text: { Self → List ℕ };

    /// Appends the text.
    fn put(&self, alloc: Global, out: &mut ByteText) -> Result<(), AllocError>
        ensures { OnOk result (out.new ≡ out.old ++ text self.now) };
}

impl Listed for Constant {
    ghost text = { constant_text };

    fn put(&self, alloc: Global, out: &mut ByteText) -> Result<(), AllocError> {
        put_constant(alloc, out, self)
    }
}

impl Listed for LocVar {
    ghost text = { local_text };

    fn put(&self, alloc: Global, out: &mut ByteText) -> Result<(), AllocError> {
        put_quoted(out, self.name.bytes())?;
        put_spaced(alloc, out, &[self.start, self.end])
    }
}

impl Listed for ByteText {
    ghost text = { quoted };

    fn put(&self, _alloc: Global, out: &mut ByteText) -> Result<(), AllocError> {
        put_quoted(out, self.bytes())
    }
}

/// Appends how many items there are, and a line for each.
#[tactic(auto, unfolding(crate::specs::Parts::count_line, crate::specs::Parts::list_part))]
pub fn put_list<T: Listed>(
    alloc: Global,
    out: &mut ByteText,
    what: &str,
    items: &[T],
) -> Result<(), AllocError>
    ensures { OnOk result (out.new ≡ out.old ++ list_part T.text what.now items.now) }
{
    put_count(alloc, out, what, items.len())?;
    put_numbered(alloc, out, items)
}

/// Appends a line for each item.
fn put_numbered<T: Listed>(alloc: Global, out: &mut ByteText, items: &[T]) -> Result<(), AllocError>
    ensures { OnOk result (out.new ≡ out.old ++ numbered T.text 0 items.now) }
{
    for (number, item) in items.iter().enumerate() {
        put_number(alloc, out, number)?;
        out.push(b' ')?;
        item.put(alloc, out)?;
        out.push(b'\n')?;
    }
    Ok(())
}

/// Appends numbers, each behind a space.
pub fn put_spaced(alloc: Global, out: &mut ByteText, numbers: &[u32]) -> Result<(), AllocError>
    ensures { OnOk result (out.new ≡ out.old ++ spaced numbers.now) }
{
    for number in numbers {
        out.push(b' ')?;
        put_number(alloc, out, *number as usize)?;
    }
    Ok(())
}

/// Appends a line of numbers behind a word.
#[tactic(auto, unfolding(crate::specs::Parts::numbers_line))]
pub fn put_numbers(
    alloc: Global,
    out: &mut ByteText,
    what: &str,
    numbers: &[u32],
) -> Result<(), AllocError>
    ensures { OnOk result (out.new ≡ out.old ++ numbers_line what.now numbers.now) }
{
    out.extend(what.as_bytes())?;
    put_spaced(alloc, out, numbers)?;
    out.push(b'\n')
}

/// Appends the line of the lines of words.
#[tactic(auto, unfolding(crate::specs::Parts::lines_line))]
pub fn put_lines(alloc: Global, out: &mut ByteText, lines: &[u32]) -> Result<(), AllocError>
    ensures { OnOk result (out.new ≡ out.old ++ lines_line lines.now) }
{
    out.extend(b"lines ")?;
    put_number(alloc, out, lines.len())?;
    out.push(b':')?;
    put_spaced(alloc, out, lines)?;
    out.push(b'\n')
}

/// Appends the line of a count.
#[tactic(auto, unfolding(crate::specs::Parts::count_line))]
pub fn put_count(
    alloc: Global,
    out: &mut ByteText,
    what: &str,
    count: usize,
) -> Result<(), AllocError>
    ensures { OnOk result (out.new ≡ out.old ++ count_line what.now count) }
{
    out.extend(what.as_bytes())?;
    out.push(b' ')?;
    put_number(alloc, out, count)?;
    out.push(b'\n')
}

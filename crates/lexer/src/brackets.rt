// Long brackets and comments at the front of a text.
ghost use Rattle.std.specs.Prelude.{◌≡◌, ℕ, true, false, List, [], ◌++◌, codes, IfSome, IfNone};
ghost use Rattle.lua_tree.specs.Bytes.{has_front, holds};
ghost use Rattle.lua_tree.specs.Brackets.{opening, closing, opens_long};
ghost use Rattle.lua_tree.specs.Tiling.{IsUnclosed};
ghost use Rattle.lexer.specs.Fronts.{RunFront, LongFront, CommentFront};
ghost use Rattle.lexer.specs.Openings.{is_equals, FirstClosing};

use crate::runs::line_length;

/// An opening has two brackets beside its `=`, and so has a closing.
pub const BRACKETS: usize = 2;

/// The level of the long bracket that opens at the front of a text: the number of `=` between its
/// two `[`.
pub fn opening_level(text: &[u8]) -> Option<usize>
    ensures some { IfSome result (λ level. (after : List ℕ) × (text.now ≡ opening level ++ after)) }
    ensures none { IfNone result (opens_long text.now ≡ false) }
{
    let after = text.strip_prefix(b"[")?;
    let level = equals_length(after);
    if after[level..].starts_with(b"[") {
        Some(level)
    } else {
        None
    }
}

/// The length of the long bracket of this level at the front of a text, from its opening to its
/// closing; `None` where it has no closing. The time is linear in the text.
pub fn long_length(level: usize, text: &[u8]) -> Option<usize>
    requires { (after : List ℕ) × (text.now ≡ opening level ++ after) }
    ensures some { IfSome result (λ n. LongFront level n text.now) }
    ensures none { IfNone result (IsUnclosed [] text.now) }
{
    let size = level + BRACKETS;
    let inside_length = first_closing(level, &text[size..])?;
    Some(size + inside_length + size)
}

/// The length of the comment at the front of a text that begins with `--`: `--` and a long bracket
/// where one opens right after it, else to the end of the line. `None` where the long bracket has
/// no closing. The time is linear in the text.
pub fn comment_length(text: &[u8]) -> Option<usize>
    requires { has_front (codes "--") text.now ≡ true }
    ensures some { IfSome result (λ n. CommentFront n text.now) }
    ensures none { IfNone result (IsUnclosed (codes "--") text.now) }
{
    let (dashes, body) = text.split_at(b"--".len());
    match opening_level(body) {
        Some(level) => Some(dashes.len() + long_length(level, body)?),
        None => Some(dashes.len() + line_length(body)),
    }
}

/// Where the first closing of this level stands. A run of `=` is looked at twice at most: by this
/// loop, and from the `]` before it.
fn first_closing(level: usize, text: &[u8]) -> Option<usize>
    ensures some { IfSome result (λ at. FirstClosing level at text.now) }
    ensures none { IfNone result (holds (closing level) text.now ≡ false) }
{
    for at in 0..text.len() {
        if closes(level, &text[at..]) {
            return Some(at);
        }
    }
    None
}

/// Whether a closing of this level stands at the front.
fn closes(level: usize, text: &[u8]) -> bool
    ensures { result ≡ has_front (closing level) text.now }
{
    match text.strip_prefix(b"]") {
        Some(after) => {
            let count = equals_length(after);
            count == level && after[count..].starts_with(b"]")
        }
        None => false,
    }
}

/// How many `=` stand at the front.
fn equals_length(text: &[u8]) -> usize
    ensures { RunFront is_equals result text.now }
{
    text.iter().take_while(|byte| **byte == b'=').count()
}

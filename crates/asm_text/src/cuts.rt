// Cutting the front off a text.
ghost use Rattle.std.specs.Prelude.{◌≡◌, Some, None, MatchOption};
ghost use Rattle.asm_text.specs.Reading.{Cuts, cut_at, after as after_in, if_empty};

use crate::miss::Unread;

/// What stands before the first of these bytes, and behind it.
pub fn split(mark: u8, text: &[u8]) -> Option<(&[u8], &[u8])>
    ensures { MatchOption result (cut_at mark text.now ≡ None) (λ x. cut_at mark text.now ≡ Some (x.0.now, x.1.now)) }
{
    for (at, byte) in text.iter().enumerate() {
        if *byte == mark {
            return Some((&text[..at], &text[at + 1..]));
        }
    }
    None
}

/// What stands before the first of these bytes, which must be there, and behind it.
pub fn cut(mark: u8, text: &[u8]) -> Result<(&[u8], &[u8]), Unread>
    ensures { Cuts (λ x. (x.0.now, x.1.now)) result (cut_at mark text.now) }
{
    match split(mark, text) {
        Some(parts) => Ok(parts),
        None => Err(Unread::BadForm),
    }
}

/// What stands behind a text, where the other begins with it.
pub fn after<'a>(front: &[u8], text: &'a [u8]) -> Option<&'a [u8]>
    ensures { MatchOption result (after_in front.now text.now ≡ None) (λ rest. after_in front.now text.now ≡ Some rest.now) }
{
    text.strip_prefix(front)
}

/// What stands behind a text that must be there.
pub fn behind<'a>(front: &[u8], text: &'a [u8]) -> Result<&'a [u8], Unread>
    ensures { Cuts (λ x. x.now) result (after_in front.now text.now) }
{
    match after(front, text) {
        Some(rest) => Ok(rest),
        None => Err(Unread::BadForm),
    }
}

/// Refuses what is left of a line.
pub fn nothing(text: &[u8]) -> Result<(), Unread>
    ensures { Cuts (λ u. tt) result (if_empty {A = Unit {0}} tt text.now) }
{
    match text {
        [] => Ok(()),
        [_, ..] => Err(Unread::BadForm),
    }
}

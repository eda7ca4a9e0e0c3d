// The header of a chunk.
ghost use Rattle.std.specs.Prelude.{◌≡◌, ℕ, List, [], ◌∷◌, IsErrOf};
ghost use Rattle.chunk_io.specs.declared.miss.ReadError.{ReadError as OneError};
ghost use Rattle.chunk_io.specs.Items.{is_chunk as the_is_chunk, le4 as the_le4, le8 as the_le8, be4 as the_be4, be8 as the_be8};
ghost use Rattle.chunk_io.specs.Reading.{Gives, sign_at, signs_at, order_at, width_at, integral_at, header_at, layout_of};

use crate::layout::Layout;
use crate::miss::{Miss, ReadError};

/// The first byte of every chunk.
const CHUNK_MARK: u8 = 0x1b;

impl Layout {
    /// Little endian, sizes of 4 bytes.
    pub fn le4() -> Self
        ensures { result ≡ the_le4 }
    {
        Self {
            little: true,
            size: 4,
        }
    }

    /// Little endian, sizes of 8 bytes: the layout of this suite's own chunks.
    pub fn le8() -> Self
        ensures { result ≡ the_le8 }
    {
        Self {
            little: true,
            size: 8,
        }
    }

    /// Big endian, sizes of 4 bytes.
    pub fn be4() -> Self
        ensures { result ≡ the_be4 }
    {
        Self {
            little: false,
            size: 4,
        }
    }

    /// Big endian, sizes of 8 bytes.
    pub fn be8() -> Self
        ensures { result ≡ the_be8 }
    {
        Self {
            little: false,
            size: 8,
        }
    }
}

/// Whether a file of these bytes is a chunk, by its first byte; any other file is source.
pub fn is_chunk(bytes: &[u8]) -> bool
    ensures { result ≡ the_is_chunk bytes.now }
{
    match bytes {
        [first, ..] => *first == CHUNK_MARK,
        [] => false,
    }
}

#[tactic(auto, unfolding(crate::specs::Reading::sign_at))]
fn sign_of(sign: u8, bytes: &[u8]) -> Result<&[u8], ReadError>
    ensures given { Gives (λ x. (tt, x.now)) result (sign_at sign bytes.now) }
    ensures no_memory { IsErrOf result OneError.Memory → ⊥ }
{
    match bytes {
        [] => Err(ReadError::Miss(Miss::Truncated)),
        [byte, rest @ ..] if *byte == sign => Ok(rest),
        [_, ..] => Err(ReadError::Miss(Miss::Header(bytes.len()))),
    }
}

#[tactic(auto, unfolding(crate::specs::Reading::order_at))]
fn order_of(bytes: &[u8]) -> Result<(bool, &[u8]), ReadError>
    ensures given { Gives (λ x. (x.0, x.1.now)) result (order_at bytes.now) }
    ensures no_memory { IsErrOf result OneError.Memory → ⊥ }
{
    match bytes {
        [] => Err(ReadError::Miss(Miss::Truncated)),
        [0, rest @ ..] => Ok((false, rest)),
        [1, rest @ ..] => Ok((true, rest)),
        [_, ..] => Err(ReadError::Miss(Miss::Header(bytes.len()))),
    }
}

// Whether a size has 8 bytes, and not 4.
#[tactic(auto, unfolding(crate::specs::Reading::width_at))]
fn width_of(bytes: &[u8]) -> Result<(bool, &[u8]), ReadError>
    ensures given { Gives (λ x. (x.0, x.1.now)) result (width_at bytes.now) }
    ensures no_memory { IsErrOf result OneError.Memory → ⊥ }
{
    match bytes {
        [] => Err(ReadError::Miss(Miss::Truncated)),
        [8, rest @ ..] => Ok((true, rest)),
        [4, rest @ ..] => Ok((false, rest)),
        [_, ..] => Err(ReadError::Miss(Miss::Header(bytes.len()))),
    }
}

#[tactic(auto, unfolding(crate::specs::Reading::integral_at))]
fn integral_of(bytes: &[u8]) -> Result<&[u8], ReadError>
    ensures given { Gives (λ x. (tt, x.now)) result (integral_at bytes.now) }
    ensures no_memory { IsErrOf result OneError.Memory → ⊥ }
{
    match bytes {
        [] => Err(ReadError::Miss(Miss::Truncated)),
        [0, ..] => Err(ReadError::Miss(Miss::Integral)),
        [1, rest @ ..] => Ok(rest),
        [_, ..] => Err(ReadError::Miss(Miss::Header(bytes.len()))),
    }
}

#[tactic(auto, unfolding(crate::specs::Reading::header_at, crate::specs::Reading::signs_at))]
pub fn header_of(bytes: &[u8]) -> Result<(Layout, &[u8]), ReadError>
    ensures given { Gives (λ x. (x.0, x.1.now)) result (header_at bytes.now) }
    ensures no_memory { IsErrOf result OneError.Memory → ⊥ }
{
    let rest = signature_of(bytes)?;
    let (little, rest) = order_of(rest)?;
    let rest = sign_of(4, rest)?;
    let (wide, rest) = width_of(rest)?;
    let rest = sign_of(4, rest)?;
    let rest = sign_of(8, rest)?;
    let rest = integral_of(rest)?;
    Ok((layout(little, wide), rest))
}

fn layout(little: bool, wide: bool) -> Layout
    ensures { result ≡ layout_of little wide }
{
    if wide {
        Layout { little, size: 8 }
    } else {
        Layout { little, size: 4 }
    }
}

#[tactic(auto, unfolding(crate::specs::Reading::signs_at))]
fn signature_of(bytes: &[u8]) -> Result<&[u8], ReadError>
    ensures given { Gives (λ x. (tt, x.now)) result (signs_at (27 ∷ 76 ∷ 117 ∷ 97 ∷ 81 ∷ 0 ∷ []) bytes.now) }
    ensures no_memory { IsErrOf result OneError.Memory → ⊥ }
{
    let rest = sign_of(CHUNK_MARK, bytes)?;
    let rest = sign_of(b'L', rest)?;
    let rest = sign_of(b'u', rest)?;
    let rest = sign_of(b'a', rest)?;
    let rest = sign_of(0x51, rest)?;
    sign_of(0, rest)
}

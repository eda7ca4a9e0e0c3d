// Why tokens are no tree.
use thiserror::Error;

/// Why tokens are no tree: the first token, by its index, with which no well-formed tree's tokens
/// begin, or the number of tokens, where more of them are wanted at their end. (Manual 8; depth is at
/// most 200.)
#[derive(Clone, Copy, Debug, PartialEq, Eq, Error)]
pub enum SyntaxFault {
    /// At the number of tokens, more of them are wanted: no tree's tokens are exactly these, and they
    /// begin a well-formed tree's. Elsewhere, no tree's tokens begin with those before it and this one,
    /// however deep.
    #[error("Unexpected at token {at}")]
    Unexpected { at: usize },
    /// Only trees of a greater depth have tokens that begin so.
    #[error("TooDeep at token {at}")]
    TooDeep { at: usize },
    #[error("out of memory")]
    OutOfMemory,
}

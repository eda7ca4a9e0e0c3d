// Frames.
use crate::did::{Landing, OpenResults};
use lua_heap::ValueList;
use lua_model::ClosureId;

/// A call of a function that has not ended; its registers stand in the value stack.
#[derive(Drop)]
pub struct Frame {
    /// The number of its function.
    pub function: usize,
    /// Its closure; the main function has none.
    pub closure: Option<ClosureId>,
    /// The pc of the word that is done next.
    pub pc: usize,
    /// The arguments behind its parameters.
    pub extra: ValueList,
    pub results: Option<OpenResults>,
    /// Where its results go. Of the main frame it is not looked at.
    pub landing: Landing,
    /// How many protected calls stand directly around the call that made it.
    pub protections: u32,
}

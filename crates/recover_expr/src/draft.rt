// Steps whose places are pcs still.

use crate::steps::StepPart;

/// A step that goes from one pc up to another, with its part of the source.
#[derive(Drop)]
pub struct Draft {
    pub kind: DraftKind,
    pub pc: u32,
    pub next: u32,
    /// How many locals are active before it, and which is innermost.
    pub base: u32,
    pub innermost: Option<usize>,
    pub levels: u32,
    pub part: StepPart,
}

/// What a step is. Targets are pcs.
#[derive(Clone, Copy)]
pub enum DraftKind {
    Act,
    Return,
    /// So many locals from one of the list on.
    Declaration {
        first: usize,
        count: usize,
    },
    Test {
        when: bool,
        target: u32,
        negated: u32,
    },
    Jump {
        target: u32,
    },
    Close {
        from: u32,
        declared: Option<usize>,
    },
    /// Three hidden locals from one of the list on, and so many variables.
    Head {
        numeric: bool,
        foot: u32,
        first: usize,
        variables: usize,
    },
    Foot {
        numeric: bool,
        target: u32,
    },
}

// Plans: how the statements of a function stand, as numbers of its steps.

/// A body, the branches of an `if` or a condition that was found: its number in the memory, and how many levels it needs.
#[derive(Clone, Copy, Debug, PartialEq, Eq)]
pub struct Found {
    pub number: usize,
    pub levels: u32,
}

/// A statement, and how many levels it needs.
#[derive(Clone, Copy, Debug, PartialEq, Eq)]
pub struct Planned {
    pub plan: Plan,
    pub levels: u32,
}

/// A statement by the numbers of its step, its bodies and its conditions.
#[derive(Clone, Copy, Debug, PartialEq, Eq)]
pub enum Plan {
    /// An act, or locals of the block's own.
    Step {
        step: usize,
    },
    /// What ends a block; `enclosed` in a `do` where it is not last.
    End {
        end: End,
        enclosed: bool,
    },
    /// A `do` that begins with locals.
    Do {
        step: usize,
        body: usize,
    },
    For {
        step: usize,
        numeric: bool,
        body: usize,
    },
    While {
        condition: usize,
        body: usize,
    },
    /// No condition is `true`: a loop for its breaks alone.
    Repeat {
        body: usize,
        condition: Option<usize>,
    },
    If {
        rest: usize,
    },
}

/// A statement that ends a block.
#[derive(Clone, Copy, Debug, PartialEq, Eq)]
pub enum End {
    Return { step: usize },
    Break,
}

/// What stands in an `if` from a place on.
#[derive(Clone, Copy, Debug, PartialEq, Eq)]
pub enum Rest {
    /// Nothing, and no `else` before it.
    Nothing,
    /// The block of an `else`.
    Last {
        body: usize,
    },
    /// An arm, no condition is `true`, and the number of what stands behind it, which is lower.
    Arm {
        condition: Option<usize>,
        body: usize,
        rest: usize,
    },
}

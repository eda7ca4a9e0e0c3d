// What a word did within its frame.
use lua_heap::ValueList;
use lua_model::Value;

/// Where the results of a called function go, in the frame that called it.
#[derive(Clone, Copy, Debug, Drop)]
pub enum Landing {
    /// The first result to a register.
    Into { a: u32 },
    /// The first result's truth, negated or not, to a test with this A.
    Test { a: u32, negated: bool },
    /// The first result is the running value of a CONCAT, which is joined to so many registers from the first on.
    Pairs { a: u32, first: u32, count: u32 },
    /// So many results to the registers from one on.
    Fixed { a: u32, count: u32 },
    /// All results, as open results.
    Open { a: u32 },
    /// The results of a TFORLOOP, its test and its JMP.
    Turn { a: u32, count: u32 },
    Nowhere,
}

/// Values that stand behind the registers, from a register on.
#[derive(Debug, Drop)]
pub struct OpenResults {
    pub first: u32,
    pub values: ValueList,
}

/// What a word did within its frame, or a landing.
#[derive(Debug, Drop)]
pub enum Did {
    /// It went on to the pc after the word.
    Next,
    /// It went on to this pc.
    Jumps(usize),
    /// It went on to the pc after the word, with these open results from a register on.
    Opens(OpenResults),
    /// It asks for a call, whose results land so.
    Calls {
        landing: Landing,
        callee: Value,
        args: ValueList,
    },
    /// It failed with a value.
    Fails(Value),
    /// It left the main frame.
    Ends,
}

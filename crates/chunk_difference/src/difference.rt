// Where two chunks differ.

use proto::Path;

/// The parts of a function, in the order in which they are compared.
#[derive(Clone, Copy, Debug, PartialEq, Eq)]
pub enum Part {
    /// The counts of upvalues and parameters, the vararg flags, and the count of registers.
    Shape,
    Code,
    Constants,
    Locals,
    /// The names of upvalues.
    Names,
    LineCount,
    Source,
    /// How many functions stand directly in it.
    Functions,
}

/// Where two chunks differ first: the path of the function, its part, and the place in that part, which is 0 for a count. Of words,
/// bytes and counts it has both numbers, `None` past an end; of other things none.
#[derive(Debug, Drop)]
pub struct Difference {
    pub path: Path,
    pub part: Part,
    pub at: u32,
    pub had: Option<u32>,
    pub got: Option<u32>,
}

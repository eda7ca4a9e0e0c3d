// Where parts of a function stand, as numbers of its steps: `from` is the first step of a part, and `to` the one behind it.
ghost use Rattle.std.specs.Prelude.{◌≡◌};
ghost use Rattle.recover_flow.specs.Asked.{is_single, plain_body};

/// Where a break goes, and from which register on it closes locals.
#[derive(Clone, Copy, Debug, PartialEq, Eq, Hash)]
pub struct Exit {
    pub place: usize,
    pub locals: u32,
}

/// A body: where its own locals end, whether one of them may be captured, and the exit of its breaks.
#[derive(Clone, Copy, Debug, PartialEq, Eq, Hash)]
pub struct BodyAt {
    pub from: usize,
    pub to: usize,
    pub locals_end: usize,
    pub may_capture: bool,
    pub exit: Option<Exit>,
}

/// A block: before a CLOSE of its own locals, where there may be one, or else up to its end.
#[derive(Clone, Copy, Debug, PartialEq, Eq)]
pub struct BlockAt {
    pub closed: Option<BodyAt>,
    pub whole: BodyAt,
}

/// An `if`; `bare` where there is a bare jump in its first condition.
#[derive(Clone, Copy, Debug, PartialEq, Eq, Hash)]
pub struct BranchesAt {
    pub from: usize,
    pub to: usize,
    pub exit: Option<Exit>,
    pub bare: bool,
}

/// A condition, and the step to which it goes where it is false; else it comes to its end.
#[derive(Clone, Copy, Debug, PartialEq, Eq, Hash)]
pub struct ConditionAt {
    pub from: usize,
    pub to: usize,
    pub target: usize,
}

/// A statement.
#[derive(Clone, Copy, Debug, PartialEq, Eq)]
pub struct Piece {
    pub from: usize,
    pub to: usize,
}

impl Piece {
    /// Whether it is one step.
    pub fn is_single(self) -> bool
        ensures { result ≡ is_single self }
    {
        self.to.checked_sub(1) == Some(self.from)
    }
}

impl BodyAt {
    /// A body to whose end its locals go, and none of them is captured.
    pub fn plain(from: usize, to: usize, exit: Option<Exit>) -> Self
        ensures { result ≡ plain_body from to exit }
    {
        Self {
            from,
            to,
            locals_end: to,
            may_capture: false,
            exit,
        }
    }
}

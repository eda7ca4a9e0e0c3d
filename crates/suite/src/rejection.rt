// Where a chunk is rejected.
use proto::Path;
use rules::Rule;
use std::fmt;

/// Where the chunk of a file is rejected: the path of the function, the pc, and the rule.
#[derive(Debug, Drop)]
pub struct Rejection {
    pub path: Path,
    pub pc: u32,
    pub rule: Rule,
}

impl fmt::Display for Rejection {
    ghost use Rattle.std.specs.Prelude.{Some};
    ghost use Rattle.suite.specs.Rejections.{rejection_text};

    ghost output = { λ rejection. Some (rejection_text rejection) };

    fn fmt<W: fmt::Write>(&self, f: &mut fmt::Formatter<W>) -> fmt::Result {
        let path = &self.path;
        let pc = self.pc;
        let rule = self.rule;
        write!(f, "rejected: function {path} pc {pc}: {rule}")
    }
}

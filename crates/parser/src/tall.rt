// Parts of a tree with their heights.
ghost use Rattle.std.specs.Prelude.{◌≡◌, ◌+◌, ◌≤◌};

/// A part of a tree, and how deep its parts lie below what holds it.
#[derive(Drop)]
pub struct Tall<T> {
    pub part: T,
    pub height: usize,
}

impl<T> Tall<T> {
    /// The depth that the token behind this part needs, where the part is the left operand of what
    /// lies at a depth.
    pub fn needed_behind(&self, depth: usize) -> usize
        requires { depth + self.now.height ≤ 201 }
        ensures { result ≡ depth + 1 + self.now.height }
    {
        depth + 1 + self.height
    }
}

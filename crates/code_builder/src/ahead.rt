// How far a source was gone through.
ghost use Rattle.std.specs.Prelude.{◌≡◌};
ghost use Rattle.scheme.specs.Scheme as scheme;
ghost use Rattle.code_builder.specs.Made.{ahead_of};

use scopes::Scopes;

/// What the names of a source mean, and how many of its names, declarations and functions were passed, in the order of its spelling.
#[derive(Clone, Copy)]
pub struct Ahead<'a> {
    pub scopes: &'a Scopes,
    pub names: usize,
    pub declarations: usize,
    pub functions: usize,
}

impl<'a> Ahead<'a> {
    /// What is ahead of the main chunk, which is the first function.
    pub fn new(scopes: &'a Scopes) -> Self
        ensures { ahead_of result ≡ scheme.ahead_of scopes.now }
    {
        Self {
            scopes,
            names: 0,
            declarations: 0,
            functions: 1,
        }
    }
}

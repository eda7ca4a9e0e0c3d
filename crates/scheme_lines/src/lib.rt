//! That the chunk of a source does not depend on its lines and semicolons, but for the numbers of lines.
#![tactic(auto)]

ghost use Rattle.scheme_lines.specs.Alike.{LinesDoNotMatter, SemicolonsDoNotMatter};

/// Of two sources that differ in the numbers of lines alone, one keeps the rules of scoping and the limits of a chunk where the other does, and their chunks are the same but for the numbers of lines.
/// So it is for two that differ in the semicolons after statements as well.
pub fn lines_do_not_matter()
    ensures lines { LinesDoNotMatter }
    ensures semicolons { SemicolonsDoNotMatter }
{}

// What holds of functions whose steps are all statements by themselves.

ghost use Rattle.recover_flow.specs.Acts.{ActsAreFound, ActsAreBuilt};

/// Where each step is an act or a declaration of locals that end with the function, captured or not, and the last one may be a return, one body stands, of these statements; and it is built of their parts, with a semicolon before a
/// statement that begins with a parenthesis. A law, with nothing to run.
pub fn acts_are_found()
    ensures found { ActsAreFound }
    ensures built { ActsAreBuilt }
{}

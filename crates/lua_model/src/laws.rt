// Laws of the definitions, with nothing to run.
ghost use Rattle.lua_model.specs.Laws.{BorderIsLeast};

/// The border of a table is the least one.
pub fn border_is_least()
    ensures { BorderIsLeast }
{}

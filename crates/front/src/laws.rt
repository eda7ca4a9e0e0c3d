// What holds of sources, chunks and faults.
ghost use Rattle.front.specs.Laws.{SourcesAreOne, ChunksAreOne, NeverBoth, CompiledIsSound, CompiledDoes};

/// Bytes are read as one source at most. A law, with nothing to run.
pub fn sources_are_one()
    ensures { SourcesAreOne }
{
    lua_tree::tokens_are_one();
    parser::trees_are_one();
}

/// The bytes of a source have one chunk at most under a source name. A law, with nothing to run.
pub fn chunks_are_one()
    ensures { ChunksAreOne }
{
    sources_are_one();
}

/// No bytes of a source have a chunk and a fault. A law, with nothing to run.
pub fn never_both()
    ensures { NeverBoth }
{
    lua_tree::tokens_are_one();
    lua_tree::never_both();
    parser::trees_are_one();
    parser::never_both();
}

/// The chunk of a source is sound. A law, with nothing to run.
pub fn compiled_is_sound()
    ensures { CompiledIsSound }
{
    scheme_sound::accepted_source_is_sound();
}

/// The run of the chunk of a source does what the source means, after any number of steps, with all hosts and replies. A law, with
/// nothing to run.
pub fn compiled_does()
    ensures { CompiledDoes }
{
    sources_are_one();
    agrees::accepted_source_does();
}

// What holds of bytes, chunks and faults.
ghost use Rattle.chunk_io.specs.Laws.{LayoutsAreOne, ChunksAreOne, FaultsAreOne, NeverBoth, ChunkOrFault, FittingIsShort};

/// Bytes spell a chunk in one layout at most. A law, with nothing to run.
pub fn layouts_are_one()
    ensures { LayoutsAreOne }
{}

/// Bytes spell one chunk at most. A law, with nothing to run.
pub fn chunks_are_one()
    ensures { ChunksAreOne }
{}

/// Bytes have one fault at most. A law, with nothing to run.
pub fn faults_are_one()
    ensures { FaultsAreOne }
{}

/// No bytes spell a chunk and have a fault. A law, with nothing to run.
pub fn never_both()
    ensures { NeverBoth }
{}

/// Bytes spell a chunk or have a fault. A law, with nothing to run.
pub fn chunk_or_fault()
    ensures { ChunkOrFault }
{}

/// A chunk that has a spelling has fewer than 2^32 entries in each of its lists, at every depth. A law, with nothing to run.
pub fn fitting_is_short()
    ensures { FittingIsShort }
{}

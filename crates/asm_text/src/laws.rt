// What holds of texts, chunks and faults.
ghost use Rattle.asm_text.specs.Laws.{ChunksAreOne, FaultsAreOne, NeverBoth, ListingOrFault};

/// A text is the listing of one chunk at most. A law, with nothing to run.
pub fn chunks_are_one()
    ensures { ChunksAreOne }
{}

/// A text has one fault at most. A law, with nothing to run.
pub fn faults_are_one()
    ensures { FaultsAreOne }
{}

/// No text is the listing of a chunk and has a fault. A law, with nothing to run.
pub fn never_both()
    ensures { NeverBoth }
{}

/// A text of fewer than 2^64 bytes is the listing of a chunk or has a fault. A law, with nothing to run.
pub fn listing_or_fault()
    ensures { ListingOrFault }
{}

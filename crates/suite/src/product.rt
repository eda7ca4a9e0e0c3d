// The texts that are made of a file.
use chunk_io::Layout;

/// A text that is made of the chunk of a file.
#[derive(Clone, Copy)]
pub enum Product {
    /// Its listing.
    Listing,
    /// `ok` and a line end, where it is sound.
    Verdict,
    /// Its spelling in a layout, or that of its stripped form; the file is read as source, whatever it begins with.
    Spelling { strip: bool, layout: Layout },
    /// The text of a source that has it; the file is read as a chunk, whatever it begins with.
    Source,
    /// A line for each global that it names, where it is sound.
    Globals,
    /// The spelling of the chunk of which the file is the listing, whatever the file begins with.
    Assembly,
}

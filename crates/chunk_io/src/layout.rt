// How a chunk writes its numbers.
ghost use Rattle.std.specs.Prelude.{◌≡◌, ◌==◌, ◌||◌, true};

/// A layout of chunks: the order of a number's bytes, and how many bytes a size has. The others are the same in
/// each: an int and an instruction have 4 bytes, a number has 8.
#[derive(Clone, Copy, Debug, PartialEq, Eq)]
pub struct Layout {
    /// The lowest byte comes first.
    pub little: bool,
    /// 4 or 8.
    pub size: u8,
    ghost is_size: { ((size == 4) || (size == 8)) ≡ true },
}

//! Why it isn't known what came of a block.

/// Why it isn't known what came of a block that was to be written. Members may have put it.
#[derive(Clone, Copy, Debug, PartialEq, Eq)]
pub enum Unwritten {
    /// The story has of the line what its worker doesn't know: more was said of its blocks, or less, or more was asked.
    OtherStory,
    OutOfMemory,
}

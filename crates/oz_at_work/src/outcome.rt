//! What a line did.

/// What a line did when it went on.
#[derive(Clone, Copy, Debug, PartialEq, Eq)]
pub enum Did {
    /// It asked, or wrote a block, or read a piece, or knows now what it is told.
    WentOn,
    /// Nothing: what was decided for it isn't stable yet, or the manager's buffer is full, where a flush helps; or others
    /// took the blocks that its stripe was granted.
    Waits,
    /// It was told its answer.
    Ended,
    /// There is no memory in which to tell it.
    OutOfMemory,
}

//! Why an ask isn't put.

/// Why nothing that an id asks is to be decided now.
#[derive(Clone, Copy, Debug, PartialEq, Eq)]
pub enum AskFault {
    /// Not so much was said of the blocks of the id's line, but less or more.
    OtherBlocks,
    /// The law doesn't let the id ask this yet, or any more.
    Early,
    /// The manager had halted before the Ask; `count` is how often its disks had failed.
    Stopped { count: u64 },
    OutOfMemory,
}

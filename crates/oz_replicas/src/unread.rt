//! Why a piece wasn't read.

/// Why a datanode didn't give the bytes of a piece.
#[derive(Clone, Copy, Debug, PartialEq, Eq)]
pub(crate) enum Unread {
    /// It was stopped before: by a line, then the count is 0, or by its disks, which have failed so often.
    Stopped { count: u64 },
    /// Its disk of slots failed in the call: how often both disks have.
    Halted { count: u64 },
    /// A chunk hasn't the digest that is kept of it.
    Bad,
    /// The block isn't held, or not in this length.
    Absent,
    OutOfMemory,
}

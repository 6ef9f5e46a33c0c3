//! Why a block wasn't put.

use oz_core::PutRefusal;

/// Why a datanode didn't put a block.
#[derive(Clone, Copy, Debug, PartialEq, Eq)]
pub(crate) enum Unput {
    /// It refused, and nothing changed.
    Refused(PutRefusal),
    /// One of its disks failed in the call: how often both have.
    Halted { count: u64 },
    OutOfMemory,
}

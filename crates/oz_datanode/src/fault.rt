//! Why a datanode isn't loaded.

use thiserror::Error;

/// Why a datanode wasn't loaded. `slots` tells which of its disks it was: that of the slots, or the journal.
#[derive(Clone, Copy, Debug, PartialEq, Eq, Error)]
pub enum NodeFault {
    #[error("a disk failed")]
    Disk { slots: bool },
    /// The journal is damaged at this place, or the disk of slots ends before a slot that is in use, which begins at
    /// this place and is the lowest such.
    #[error("damaged at {offset}")]
    Damaged { slots: bool, offset: u64 },
    #[error("out of memory")]
    OutOfMemory,
}

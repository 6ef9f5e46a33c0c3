//! Why slots aren't loaded, and why none is taken.

use std::alloc::AllocError;

/// Why the slots of a disk weren't loaded.
#[derive(Clone, Copy, Debug, PartialEq, Eq)]
pub enum SlotFault {
    /// The disk failed.
    Disk,
    /// A slot that is held passes the disk's end. The offset is that at which the lowest such slot begins.
    Past { offset: u64 },
    OutOfMemory,
}

/// No slot is free. All three are numbers of bytes.
#[derive(Clone, Copy, Debug, PartialEq, Eq)]
pub struct SlotFull {
    /// In slots that are taken.
    pub used: u64,
    /// In the slot that was asked for.
    pub asked: u64,
    /// In all slots.
    pub capacity: u64,
}

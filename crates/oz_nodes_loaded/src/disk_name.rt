//! The names of disks.

/// Which disk it is. A datanode goes by its number, from 0.
#[derive(Clone, Copy, Debug, PartialEq, Eq)]
pub enum DiskName {
    Manager,
    /// The storage container manager's.
    Scm,
    /// Where a datanode notes which blocks it holds.
    Meta(u8),
    /// Where it has their bytes.
    Slots(u8),
}

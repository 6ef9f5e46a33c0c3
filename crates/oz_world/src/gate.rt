//! Where a test can hold a thread before it writes.

use std::sync::Wait;

/// Where a thread is about to write to a disk.
#[derive(Clone, Copy, Debug, PartialEq, Eq)]
pub enum Point {
    /// To the manager's journal.
    ManagerWrite,
    /// To the SCM's journal.
    ScmWrite,
    /// To a datanode's journal.
    MetaWrite,
    /// To a datanode's slots.
    SlotWrite,
}

/// What a thread passes before it writes, so that a test can hold it there. No answer depends on it.
pub trait Gate {
    /// Passes, perhaps after a while. `who` is the number of the seat that the thread holds.
    fn pass<R: Wait>(&self, rt: &R, point: Point, who: u16);
}

/// A gate that all pass at once.
#[derive(Clone, Copy, Debug)]
pub struct OpenGate;

impl Gate for OpenGate {
    fn pass<R: Wait>(&self, _rt: &R, _point: Point, _who: u16) {}
}

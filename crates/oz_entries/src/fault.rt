//! Why bodies make nothing.

/// Why the bodies of a journal are no entries of a datanode.
#[derive(Clone, Copy, Debug, PartialEq, Eq)]
pub enum BuildFault {
    /// The body, counted from 0, and the place in its bytes of the first bad field.
    Damaged { body: usize, at: usize },
    OutOfMemory,
}

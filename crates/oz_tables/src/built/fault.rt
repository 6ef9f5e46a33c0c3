//! Why bodies make no tables.

/// Why bodies make no tables.
#[derive(Clone, Copy, Debug, PartialEq, Eq)]
pub enum BuildFault {
    /// The body, counted from 0, and the place in its bytes of the first field that is at fault.
    Damaged { body: usize, at: usize },
    OutOfMemory,
}

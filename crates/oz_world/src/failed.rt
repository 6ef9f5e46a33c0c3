//! How a call of the outside world fails.

/// A call of the outside that failed. The count of faults of the object that was called has risen.
#[derive(Clone, Copy, Debug, PartialEq, Eq)]
pub struct Failed;

//! Why a case doesn't hold.

use std::alloc::{AllocError, AllocFailed};

/// Why a case doesn't hold.
#[derive(Clone, Copy, Debug, PartialEq, Eq)]
pub enum Wrong {
    /// A call answered that memory ran out.
    OutOfMemory,
    /// Something differs, or can't be read, as the text beside it says.
    Line,
}

impl From<AllocError> for Wrong {
    fn from(_error: AllocError) -> Wrong {
        Wrong::OutOfMemory
    }
}

impl<T: Drop> From<AllocFailed<T>> for Wrong {
    fn from(_error: AllocFailed<T>) -> Wrong {
        Wrong::OutOfMemory
    }
}

//! A body, as loading gives it.

use oz_fields::List;

/// A body of a journal.
#[derive(Debug, Drop, PartialEq, Eq)]
pub struct Body {
    /// The place of its first byte on the disk, counted from 0.
    pub at: u64,
    pub bytes: List<u8>,
}

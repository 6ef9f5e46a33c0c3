//! Changes that were entered together.

use oz_fields::List;
use oz_rows::Change;

/// Changes that were entered together, and the epoch that wrote them.
#[derive(Debug, Drop)]
pub struct Batch {
    pub epoch: u64,
    pub changes: List<Change>,
}

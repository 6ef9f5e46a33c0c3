//! What is kept of the replica of a container.

use oz_container::State;

/// The replica of a container on one datanode.
#[derive(Clone, Copy, Debug, PartialEq, Eq)]
pub struct Replica {
    pub state: State,
    /// The greatest number of a transaction that was applied to it, 0 for none.
    pub greatest: u64,
}

//! What is kept of a container.

use oz_container::State;

/// A container that was made.
#[derive(Clone, Copy, Debug, PartialEq, Eq)]
pub struct Container {
    /// The pipeline whose datanodes have its replicas.
    pub pipeline: u8,
    pub state: State,
    /// How many block ids were granted in it.
    pub granted: u64,
}

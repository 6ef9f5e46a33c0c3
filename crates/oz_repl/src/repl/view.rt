//! What is known of a container and of its members at one place of a story.

use oz_container::State;
use oz_fields::List;

/// A container and its three members, which stand in one order throughout.
#[derive(Debug, Drop)]
pub struct View {
    pub state: State,
    /// The numbers of the datanodes that have a replica of the container.
    pub members: [u8; 3],
    /// Which of them are up.
    pub up: [bool; 3],
    /// Which of them have closed their replica.
    pub closed: [bool; 3],
    /// The local ids of the container's blocks that each of them holds, rising. Of one that is down they decide nothing.
    pub held: [List<u64>; 3],
    /// The local ids of blocks of the container that are being deleted, rising. Of those that no member that is up holds some may
    /// be left out.
    pub logged: List<u64>,
}

/// A block of the container is to be copied from one datanode to another.
#[derive(Clone, Copy, Debug, PartialEq, Eq)]
pub struct CopyOrder {
    /// The number of the datanode that holds it.
    pub source: u8,
    /// The number of the datanode that lacks it.
    pub target: u8,
    /// The block's local id.
    pub local: u64,
}

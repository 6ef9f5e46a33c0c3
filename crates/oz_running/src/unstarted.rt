//! What comes back of a run whose work didn't start.

use oz_datanode::Datanode;
use oz_journal::Journal;
use oz_scm::Scm;
use oz_world::Disk;

/// The manager's journal, the storage container manager and the datanodes, as they were handed in.
#[derive(Drop)]
pub struct Unstarted<D: Disk> {
    pub journal: Journal<D>,
    pub scm: Scm<D>,
    pub nodes: Vec<Datanode<D>>,
}

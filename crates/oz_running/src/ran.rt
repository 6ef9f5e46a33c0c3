//! What a run leaves.

use oz_core::Event;
use oz_datanode::Datanode;
use oz_journal::Journal;
use oz_scm::Scm;
use oz_world::Disk;

/// The story that all threads made, and the nodes behind it: the manager's journal, the storage container manager, and each
/// datanode in the place of its number. And whether the work is done: each client of the script was told as many lines as it
/// has, and nothing that was decided is left to be flushed, unless the manager has halted.
#[derive(Drop)]
pub struct Ran<D: Disk> {
    pub story: Vec<Event>,
    pub journal: Journal<D>,
    pub scm: Scm<D>,
    pub nodes: Vec<Datanode<D>>,
    pub is_done: bool,
}

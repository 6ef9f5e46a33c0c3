//! The disks of a run.

use oz_datanode::NodeDisks;
use oz_headline::StoreFault;

/// The disks of a run: the manager's, the storage container manager's, and those of each datanode in the place of its number.
#[derive(Drop)]
pub struct Disks<D> {
    pub manager: D,
    pub scm: D,
    pub nodes: Vec<NodeDisks<D>>,
}

/// The disks of a run that didn't come to its work, and why it didn't.
#[derive(Drop)]
pub struct RefusedStore<D> {
    pub disks: Disks<D>,
    pub fault: StoreFault,
}

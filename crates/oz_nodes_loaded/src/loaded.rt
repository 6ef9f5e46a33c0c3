//! What was loaded, and what comes back where it can't be.

ghost use Rattle.std.specs.Prelude.{◌≡◌, ◌+◌, ◌≤◌, ◌++◌, [], map, length, reverse, vec_len, vec_capacity};
ghost use Rattle.oz_nodes_loaded.specs.Loads.{disks_in};

use crate::fault::StoreFault;
use oz_datanode::{Datanode, NodeDisks};
use oz_scm::Scm;
use oz_world::Disk;

/// The storage container manager and the datanodes, each in the place of its number. In `room`, which is empty, there is
/// room for the disks of all datanodes.
#[derive(Drop)]
pub struct LoadedNodes<D: Disk> {
    pub scm: Scm<D>,
    pub nodes: Vec<Datanode<D>>,
    pub room: Vec<NodeDisks<D>>,
    ghost empty: { room.items ≡ [] },
    ghost enough: { vec_len nodes ≤ vec_capacity room },
}

/// The disks that weren't loaded, in their order, and why.
#[derive(Drop)]
pub struct RefusedNodes<D> {
    pub scm: D,
    pub nodes: Vec<NodeDisks<D>>,
    pub fault: StoreFault,
}

impl<D: Disk> LoadedNodes<D> {
    /// The disks: the storage container manager's, and those of the datanodes in their order. It takes no memory.
    pub fn into_disks(self) -> (D, Vec<NodeDisks<D>>)
        ensures scm { result.0 ≡ self.scm.disk }
        ensures nodes { result.1.items ≡ map disks_in self.nodes.items }
    {
        let LoadedNodes { scm, nodes, room } = self;
        (scm.into_disk(), disks_of(nodes, room))
    }
}

/// The disks of datanodes, in their order, in a list that has room for them. It takes no memory.
pub fn disks_of<D: Disk>(nodes: Vec<Datanode<D>>, room: Vec<NodeDisks<D>>) -> Vec<NodeDisks<D>>
    requires empty { room.items ≡ [] }
    requires enough { vec_len nodes ≤ vec_capacity room }
    ensures { result.items ≡ map disks_in nodes.items }
{
    put_back(nodes, room)
}

/// The disks of datanodes, and behind them those of a list that has them from the last to the first, and has room for all.
pub(crate) fn put_back<D: Disk>(
    nodes: Vec<Datanode<D>>,
    behind: Vec<NodeDisks<D>>,
) -> Vec<NodeDisks<D>>
    requires { vec_len nodes + vec_len behind ≤ vec_capacity behind }
    ensures { result.items ≡ map disks_in nodes.items ++ reverse behind.items }
{
    let mut nodes = nodes;
    let mut disks = behind;
    while let Some(node) = nodes.pop() {
        disks.push_reserved(node.into_disks());
    }
    nodes.destroy_empty();
    disks.reverse();
    disks
}

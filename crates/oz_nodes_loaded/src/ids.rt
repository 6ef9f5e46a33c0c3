//! The local ids of blocks that were loaded.

ghost use Rattle.std.specs.Prelude.{map};
ghost use Rattle.oz_datanode.specs.Datanode.{node_in};
ghost use Rattle.oz_nodes_loaded.specs.Ids.{IsGreatestSeen};

use oz_datanode::Datanode;
use oz_world::Disk;

/// The greatest local id of a block that the manager or a datanode has, where `greatest` is the manager's.
pub(crate) fn greatest_seen<D: Disk>(nodes: &[Datanode<D>], greatest: u64) -> u64
    ensures { IsGreatestSeen greatest (map node_in nodes.now) result }
{
    let mut seen = greatest;
    for node in nodes {
        seen = seen.max(node.greatest_id());
    }
    seen
}

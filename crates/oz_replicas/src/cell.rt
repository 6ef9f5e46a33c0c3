//! A datanode with what is kept beside it.

ghost use Rattle.std.specs.Prelude.{◌≡◌};
ghost use Rattle.oz_replicas.specs.Cells.{IsAtRest};

use crate::kept::Kept;
use oz_datanode::Datanode;
use oz_world::Disk;
use std::marker::Model;

/// A datanode as it lies behind its lock: no chunk was written that isn't put, and `kept` stands for it. Who holds the lock may
/// use both, as long as this holds again at the end.
#[derive(Drop)]
pub struct NodeCell<D: Disk, K: Kept<D>> {
    pub node: Datanode<D>,
    pub kept: K,
}

impl<D: Disk, K: Kept<D>> Model for NodeCell<D, K> {
    ghost use Rattle.oz_replicas.specs.Cells.{CellView, IsAtRest};

    ghost Value = { CellView D K };

    ghost view = { λ cell. record { node = cell.node; kept = cell.kept } };

    ghost invariant = { λ cell. IsAtRest K.stands cell.node cell.kept };
}

impl<D: Disk, K: Kept<D>> NodeCell<D, K> {
    pub fn new(node: Datanode<D>, kept: K) -> NodeCell<D, K>
        requires { IsAtRest K.stands node kept }
        ensures { result ≡ record { node = node; kept = kept } }
    {
        NodeCell { node, kept }
    }

    /// The datanode and what was kept beside it.
    pub fn into_parts(self) -> (Datanode<D>, K)
        ensures node { result.0 ≡ self.node }
        ensures kept { result.1 ≡ self.kept }
        ensures at_rest { IsAtRest K.stands result.0 result.1 }
    {
        let NodeCell { node, kept } = self;
        (node, kept)
    }
}

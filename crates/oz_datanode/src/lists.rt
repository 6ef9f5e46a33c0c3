//! Lists of what a datanode holds.

ghost use Rattle.std.specs.Prelude.{IfOk};
ghost use Rattle.oz_block.specs.Lists.{AreHeld, AreHeldIn, AreReplicas, IsGreatestHeld};

use crate::datanode::Datanode;
use oz_container::State;
use oz_fields::{OutOfMemory, Piece};
use oz_world::Disk;
use std::alloc::Global;

impl<D: Disk> Datanode<D> {
    ghost use Rattle.oz_datanode.specs.Datanode.{node_in};

    /// The blocks that are held, with their lengths.
    pub fn held(&self, alloc: Global) -> Result<Vec<Piece>, OutOfMemory>
        ensures { IfOk result (λ pieces. AreHeld (node_in self.now) pieces.items) }
    {
        self.blocks.pieces(alloc)
    }

    /// The container, the state and the greatest transaction of each replica that an entry names.
    pub fn replicas(&self, alloc: Global) -> Result<Vec<(u64, State, u64)>, OutOfMemory>
        ensures { IfOk result (λ states. AreReplicas self.now.blocks.held states.items) }
    {
        self.blocks.replicas(alloc)
    }

    /// The own numbers of the blocks of a container that are held.
    pub fn blocks(&self, alloc: Global, container: u64) -> Result<Vec<u64>, OutOfMemory>
        ensures { IfOk result (λ locals. AreHeldIn (node_in self.now) container locals.items) }
    {
        self.blocks.locals(alloc, container)
    }

    /// The greatest own number of a block that is held, 0 for none.
    pub fn greatest_id(&self) -> u64
        ensures { IsGreatestHeld (node_in self.now) result }
    {
        self.blocks.greatest_local()
    }
}

//! What is listed of blocks.

ghost use Rattle.std.specs.Prelude.{◌≡◌, ◌<◌, ℕ, true, IfOk};
ghost use Rattle.oz_block.specs.Lists.{AreHeld, AreHeldIn, AreReplicas, IsGreatestHeld};
ghost use Rattle.oz_chunk.specs.declared.table.TheConstants.{SLOTS};
ghost use Rattle.oz_entries.specs.Held.{IsSound};
ghost use Rattle.oz_entries.specs.Node.{is_used};

use crate::blocks::Blocks;
use crate::listing::{greatest, locals, pieces, replicas};
use oz_container::State;
use oz_fields::{OutOfMemory, Piece};
use oz_world::Disk;
use std::alloc::Global;

impl<D: Disk> Blocks<D> {
    ghost use Rattle.oz_block.specs.Blocks.{node_in};

    /// The blocks that are held, with their lengths.
    pub fn pieces(&self, alloc: Global) -> Result<Vec<Piece>, OutOfMemory>
        ensures { IfOk result (λ pieces. AreHeld (node_in self.now) pieces.items) }
    {
        pieces(alloc, self.held.rows())
    }

    /// The own numbers of the blocks of a container that are held.
    pub fn locals(&self, alloc: Global, container: u64) -> Result<Vec<u64>, OutOfMemory>
        ensures { IfOk result (λ locals. AreHeldIn (node_in self.now) container locals.items) }
    {
        locals(alloc, self.held.rows(), container)
    }

    /// The greatest own number of a block that is held, 0 for none.
    pub fn greatest_local(&self) -> u64
        ensures { IsGreatestHeld (node_in self.now) result }
    {
        greatest(self.held.rows())
    }

    /// The container, the state and the greatest transaction of each replica that was named.
    pub fn replicas(&self, alloc: Global) -> Result<Vec<(u64, State, u64)>, OutOfMemory>
        ensures { IfOk result (λ states. AreReplicas self.now.held states.items) }
    {
        replicas(alloc, self.held.replicas())
    }

    /// A block uses the slots of its row, which are among those that there are, and no other slots are used.
    pub fn uses_slots_of_rows(&self)
        ensures sound { IsSound (node_in self.now) }
        ensures within { (slot : ℕ) → is_used (node_in self.now) slot ≡ true → slot < SLOTS }
    {
        self.held.uses_slots_of_rows();
    }
}

//! What a datanode tells of itself.

ghost use Rattle.std.specs.Prelude.{◌≡◌, ◌↔◌, IsTrue};
ghost use Rattle.oz_datanode.specs.Datanode.{Runs};
ghost use Rattle.oz_entries.specs.Node.{is_held};

use crate::datanode::Datanode;
use oz_fields::Block;
use oz_world::Disk;

impl<D: Disk> Datanode<D> {
    ghost use Rattle.oz_datanode.specs.Datanode.{node_in};

    /// Whether neither a line nor a disk has stopped it.
    pub fn running(&self) -> bool
        ensures { IsTrue result ↔ Runs D.faults self.now }
    {
        self.check_running().is_ok()
    }

    /// Whether it holds a block.
    pub fn holds(&self, block: Block) -> bool
        ensures { result ≡ is_held (node_in self.now) block }
    {
        self.blocks.get(block).is_some()
    }
}

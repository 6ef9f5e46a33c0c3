//! Taking everything away.

ghost use Rattle.std.specs.Prelude.{◌≡◌, ℕ, true, false, Err, OnOk};
ghost use Rattle.oz_datanode.specs.Datanode.{DisksGoOn};
ghost use Rattle.oz_datanode.specs.Pairs.{Content, NodeHolds, journal_seen, slots_seen};
ghost use Rattle.oz_datanode.specs.Wiping.{Wipes};
ghost use Rattle.oz_datanode.specs.declared.refusal.NodeRefusal.TheVariants as refusals;
ghost use Rattle.oz_fields.specs.declared.block.Block.{Block as BlockName};

use crate::datanode::Datanode;
use crate::refusal::NodeRefusal;
use oz_block::a_disk_stands_for_one_node;
use oz_world::Disk;

impl<D: Disk> Datanode<D> {
    ghost use Rattle.oz_datanode.specs.Datanode.{is_halted, count_of};

    /// Leaves it without blocks, replicas and slots in use: first the journal, and then the slots. It is served where a
    /// line stopped it too. Nothing is promised of what a stop or a fault in the middle of it leaves on the disks.
    pub fn wipe(&mut self) -> Result<(), NodeRefusal>
        ensures halted { is_halted self.old ≡ true →
            (result ≡ Err (refusals.Stopped (count_of D.faults self.old))) × (self.new ≡ self.old) }
        ensures wipes { is_halted self.old ≡ false →
            Wipes D.faults self.old self.new
            (journal_seen D.told D.clock D.image D.faults self.old)
            (journal_seen D.told D.clock D.image D.faults self.new)
            (slots_seen D.told D.clock D.image D.faults self.old)
            (slots_seen D.told D.clock D.image D.faults self.new) result }
        ensures pairs { OnOk result ((contents : BlockName → Content) →
            NodeHolds D.told D.clock D.image D.faults contents self.new) }
        ensures goes_on { DisksGoOn D.told D.faults self.old self.new }
    {
        a_disk_stands_for_one_node();
        if self.halted() {
            return Err(self.halt());
        }
        let Ok(()) = self.blocks.wipe() else {
            return Err(self.halt());
        };
        let Ok(()) = self.shelf.wipe() else {
            return Err(self.halt());
        };
        Ok(())
    }
}

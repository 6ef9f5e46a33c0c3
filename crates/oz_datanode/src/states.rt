//! The states of replicas.

ghost use Rattle.std.specs.Prelude.{◌≡◌, ℕ, List, false, Err, Some, IfErr, OnOk};
ghost use Rattle.oz_block.specs.Blocks.{StandsFor};
ghost use Rattle.oz_datanode.specs.Changing.{IsJournaled, refusal_of};
ghost use Rattle.oz_datanode.specs.Datanode.{Runs, stop_of, DisksGoOn};
ghost use Rattle.oz_datanode.specs.Pairs.{Content, NodeHolds, journal_seen};
ghost use Rattle.oz_datanode.specs.declared.refusal.NodeRefusal.TheVariants as refusals;
ghost use Rattle.oz_entries.specs.declared.entry.Entry.TheVariants as entries;
ghost use Rattle.oz_fields.specs.declared.block.Block.{Block as BlockName};
ghost use Rattle.oz_world.specs.Disk.{IsStable};

use crate::datanode::Datanode;
use crate::refusal::NodeRefusal;
use oz_block::{BlockFault, a_disk_stands_for_one_node};
use oz_container::State;
use oz_world::Disk;
use std::alloc::Global;

impl<D: Disk> Datanode<D> {
    ghost use Rattle.oz_datanode.specs.Datanode.{node_in, meta_of, is_halted, count_of};

    /// What it answers where its journal answers this.
    pub(crate) fn refusal(&self, fault: BlockFault) -> NodeRefusal
        ensures { result ≡ refusal_of (count_of D.faults self.now) fault }
    {
        match fault {
            BlockFault::Stopped { .. } => self.halt(),
            BlockFault::OutOfMemory => NodeRefusal::OutOfMemory,
        }
    }

    /// Brings a replica to a state. `Ok` is stable.
    pub fn set_state(
        &mut self,
        alloc: Global,
        container: u64,
        state: State,
    ) -> Result<(), NodeRefusal>
        ensures stopped { (count : ℕ) → stop_of D.faults self.old ≡ Some count →
            (result ≡ Err (refusals.Stopped count)) × (self.new ≡ self.old) }
        ensures made { Runs D.faults self.old →
            IsJournaled D.faults (entries.SetState container state) self.old self.new
            (journal_seen D.told D.clock D.image D.faults self.old)
            (journal_seen D.told D.clock D.image D.faults self.new) result }
        ensures shelf { self.new.shelf ≡ self.old.shelf }
        ensures pairs { (contents : BlockName → Content) → NodeHolds D.told D.clock D.image D.faults contents self.old
            → NodeHolds D.told D.clock D.image D.faults contents self.new }
        ensures goes_on { DisksGoOn D.told D.faults self.old self.new }
    {
        a_disk_stands_for_one_node();
        self.check_running()?;
        match self.blocks.set_state(alloc, container, state) {
            Ok(()) => Ok(()),
            Err(fault) => Err(self.refusal(fault)),
        }
    }
}

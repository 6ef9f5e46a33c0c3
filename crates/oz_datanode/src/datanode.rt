//! A datanode over its two disks.

ghost use Rattle.std.specs.Prelude.{◌≡◌, ◌≤◌, ◌+◌, ◌⊎◌, ℕ, List, [], ◌∷◌, true, false, length, Err, Some, IsSome, IsSomeAnd};
ghost use Rattle.std.specs.Prelude.{IfOk, IfErr, OnOk, OnErr, IfSome};
ghost use Rattle.oz_block.specs.Blocks.{StandsFor, IsDamagedDisk};
ghost use Rattle.oz_chunk.specs.Slots.{IsWithin};
ghost use Rattle.oz_datanode.specs.Datanode.{Runs, IsLowestPast, DisksGoOn};
ghost use Rattle.oz_datanode.specs.Pairs.{Content, HaveAll, NodeHolds};
ghost use Rattle.oz_datanode.specs.declared.refusal.NodeRefusal.TheVariants as refusals;
ghost use Rattle.oz_entries.specs.Node.{Node, is_used};
ghost use Rattle.oz_fields.specs.declared.block.Block.{Block};
ghost use Rattle.oz_journal.specs.Load.{IsLoadable, IsLeftAlone, loaded_at};
ghost use Rattle.oz_world.specs.Disk.{Same, TellsAsBefore, IsStable};
ghost use Rattle.oz_world.specs.Faults.{Rose};
ghost use Rattle.oz_world.specs.Moments.{Elapses, Spans};

use crate::disks::NodeDisks;
use crate::fault::NodeFault;
use crate::loading::{journal_fault, slot_fault, used_slots};
use crate::refusal::NodeRefusal;
use oz_block::{Blocks, Shelf, a_disk_stands_for_one_node};
use oz_container::State;
use oz_world::Disk;
use std::alloc::Global;
use std::marker::Model;

/// A datanode.
#[derive(Drop)]
pub struct Datanode<D: Disk> {
    pub(crate) id: u8,
    pub(crate) blocks: Blocks<D>,
    pub(crate) shelf: Shelf<D>,
    pub(crate) stopped: bool,
}

impl<D: Disk> Model for Datanode<D> {
    ghost use Rattle.std.specs.Prelude.{◌≡◌, ◌||◌, false};
    ghost use Rattle.oz_block.specs.Blocks.{node_in as node_in_blocks};
    ghost use Rattle.oz_datanode.specs.Datanode.{State as NodeState};
    ghost use Rattle.oz_datanode.specs.Steps.{is_in_use};
    ghost use Rattle.oz_block.specs.shelf.Shelf.{Rests};
    ghost use Rattle.oz_world.specs.Disk.{seen};

    ghost Value = { NodeState D };

    ghost view = { λ node.
        record { id = node.id; blocks = node.blocks; shelf = node.shelf; stopped = node.stopped } };

    ghost invariant = { λ node. (node.blocks.stopped || node.shelf.failed) ≡ false →
        Rests (is_in_use (node_in_blocks node.blocks)) node.shelf
        (seen (D.told node.shelf.slots.disk) (D.clock node.shelf.slots.disk) (D.image node.shelf.slots.disk)
        (D.faults node.shelf.slots.disk)) };
}

impl<D: Disk> Datanode<D> {
    ghost use Rattle.oz_datanode.specs.Datanode.{node_in, meta_of, slots_of, is_halted, count_of};
    ghost use Rattle.oz_datanode.specs.Datanode.{meta_after, slots_after};

    /// What the disks have. The journal is loaded first, and then the slots that its blocks use. Each is made stable
    /// before it is read; where the journal has at most one byte it gets its closed gate, and nothing else is written.
    /// Both disks come back where it can't.
    pub fn load(
        alloc: Global,
        id: u8,
        disks: NodeDisks<D>,
    ) -> Result<Datanode<D>, (NodeDisks<D>, NodeFault)>
        ensures id { IfOk result (λ node. node.id ≡ id) }
        ensures stands { IfOk result (λ node. IfSome (D.told disks.meta) (λ bytes. StandsFor bytes (node_in node))) }
        ensures running { IfOk result (λ node. Runs D.faults node) }
        ensures written { IfOk result (λ node. node.shelf.written ≡ []) }
        ensures within { IfOk result (λ node. IfSome (D.told disks.slots) (λ slots. (slot : ℕ) →
            is_used (node_in node) slot ≡ true → IsWithin slot slots)) }

        // When each fault comes.
        ensures journal { IfErr result (λ refused. (offset : ℕ) → refused.1 ≡ NodeFault.Damaged false offset →
            IfSome (D.told disks.meta) (λ bytes. IsDamagedDisk bytes offset)) }
        ensures past { IfErr result (λ refused. (offset : ℕ) → refused.1 ≡ NodeFault.Damaged true offset →
            IfSome (D.told disks.meta) (λ bytes. IfSome (D.told disks.slots) (λ slots.
            (node : Node) × StandsFor bytes node × IsLowestPast node (length slots) offset))) }
        ensures journal_stands { IfErr result (λ refused. refused.1 ≡ NodeFault.Disk true →
            IfSome (D.told disks.meta) (λ bytes. (node : Node) × StandsFor bytes node)) }
        ensures journal_disk { IfErr result (λ refused. refused.1 ≡ NodeFault.Disk false →
            Rose (D.faults disks.meta) (D.faults (meta_after result))) }
        ensures slots_disk { IfErr result (λ refused. refused.1 ≡ NodeFault.Disk true →
            Rose (D.faults disks.slots) (D.faults (slots_after result))) }
        ensures meta_never_falls { D.faults disks.meta ≤ D.faults (meta_after result) }
        ensures slots_never_falls { D.faults disks.slots ≤ D.faults (slots_after result) }

        // What the disks tell afterwards. That of the slots is as it was where the fault is the journal's.
        ensures telling { TellsAsBefore (D.told disks.meta) (D.told (meta_after result)) }
        ensures meta_contents { IfSome (D.told disks.meta) (λ bytes.
            2 ≤ length bytes → D.told (meta_after result) ≡ Some bytes) }
        ensures closed { IfSome (D.told disks.meta) (λ bytes.
            length bytes ≤ 1 → OnOk result (D.told (meta_after result) ≡ Some (0 ∷ []))) }
        ensures contents { D.told (slots_after result) ≡ D.told disks.slots }
        ensures slots_untouched { IfErr result (λ refused. (offset : ℕ) →
            (refused.1 ≡ NodeFault.Disk false) ⊎ (refused.1 ≡ NodeFault.Damaged false offset) →
            refused.0.slots ≡ disks.slots) }

        // What a stop may leave of each.
        ensures meta_ended { IfOk result (λ node. IfSome (D.told disks.meta) (λ bytes.
            D.clock (meta_of node) ≡ loaded_at (D.clock disks.meta) bytes)) }
        ensures meta_stable { IfOk result (λ node. (bytes : List ℕ) → D.told (meta_of node) ≡ Some bytes →
            IsStable (D.image (meta_of node)) (D.clock (meta_of node)) bytes) }
        ensures meta_time { Elapses (D.clock disks.meta) (D.clock (meta_after result)) (D.image disks.meta)
            (D.image (meta_after result)) }
        ensures meta_moments { IfSome (D.told disks.meta) (λ bytes.
            IsLoadable bytes (D.image disks.meta (D.clock disks.meta)) →
            Spans IsLeftAlone (D.clock disks.meta) (D.clock (meta_after result)) (D.image disks.meta)
            (D.image (meta_after result))) }
        ensures loadable { IfSome (D.told disks.meta) (λ bytes.
            IsLoadable bytes (D.image disks.meta (D.clock disks.meta)) →
            IsSomeAnd (D.told (meta_after result)) (λ after.
            IsLoadable after (D.image (meta_after result) (D.clock (meta_after result))))) }
        ensures slots_ended { IfOk result (λ node. D.clock (slots_of node) ≡ D.clock disks.slots + 1) }
        ensures slots_stable { IfOk result (λ node. IfSome (D.told disks.slots)
            (IsStable (D.image (slots_of node)) (D.clock (slots_of node)))) }
        ensures slots_time { Spans Same (D.clock disks.slots) (D.clock (slots_after result)) (D.image disks.slots)
            (D.image (slots_after result)) }
    {
        let NodeDisks { meta, slots } = disks;
        let blocks = match Blocks::load(alloc, meta) {
            Ok(blocks) => blocks,
            Err((meta, fault)) => return Err((NodeDisks { meta, slots }, journal_fault(fault))),
        };
        blocks.uses_slots_of_rows();
        let Ok(used) = used_slots(alloc, &blocks) else {
            let meta = blocks.into_disk();
            return Err((NodeDisks { meta, slots }, NodeFault::OutOfMemory));
        };
        match Shelf::load(alloc, slots, &used) {
            Ok(shelf) => Ok(Datanode {
                id,
                blocks,
                shelf,
                stopped: false,
            }),
            Err((slots, fault)) => {
                let meta = blocks.into_disk();
                Err((NodeDisks { meta, slots }, slot_fault(fault)))
            }
        }
    }

    /// Whether a call on one of the disks has failed. While none has, what the journal tells stands for what is held, and
    /// is stable; and what is read of blocks is what a stop leaves of them.
    pub fn halted(&self) -> bool
        ensures halted { result ≡ is_halted self.now }
        ensures at_rest { result ≡ false → (bytes : List ℕ) → D.told (meta_of self.now) ≡ Some bytes →
            StandsFor bytes (node_in self.now)
            × IsStable (D.image (meta_of self.now)) (D.clock (meta_of self.now)) bytes }
        ensures pairs { result ≡ false → (contents : Block → Content) →
            (IsSome (D.told (meta_of self.now)) →
            IfSome (D.told (slots_of self.now)) (HaveAll contents (node_in self.now))) →
            NodeHolds D.told D.clock D.image D.faults contents self.now }
    {
        a_disk_stands_for_one_node();
        self.blocks.stopped() || self.shelf.failed()
    }

    /// The refusal where one of the disks has failed.
    pub(crate) fn halt(&self) -> NodeRefusal
        ensures { result ≡ refusals.Stopped (count_of D.faults self.now) }
    {
        NodeRefusal::Stopped {
            count: self.count(),
        }
    }

    /// How often both disks have failed, at most `u64::MAX`.
    pub fn count(&self) -> u64
        ensures { result ≡ count_of D.faults self.now }
    {
        self.blocks.faults().saturating_add(self.shelf.faults())
    }

    /// The number that it was given.
    pub fn id(&self) -> u8
        ensures { result ≡ self.now.id }
    {
        self.id
    }

    /// The state of a replica.
    pub fn state(&self, container: u64) -> State
        ensures { result ≡ (node_in self.now).states container }
    {
        self.blocks.state(container)
    }

    /// Stops it. It keeps what it holds.
    pub fn stop(&mut self)
        ensures stopped { self.new ≡ record self.old { stopped = true } }
        ensures goes_on { DisksGoOn D.told D.faults self.old self.new }
    {
        self.stopped = true;
    }

    /// Has it run again with what it held. It calls no disk.
    pub fn start(&mut self) -> Result<(), NodeRefusal>
        ensures started { is_halted self.old ≡ false →
            OnErr result ⊥ × (self.new ≡ record self.old { stopped = false }) }
        ensures halted { is_halted self.old ≡ true →
            (result ≡ Err (refusals.Stopped (count_of D.faults self.old))) × (self.new ≡ self.old) }
        ensures goes_on { DisksGoOn D.told D.faults self.old self.new }
    {
        if self.halted() {
            return Err(self.halt());
        }
        self.stopped = false;
        Ok(())
    }

    pub fn into_disks(self) -> NodeDisks<D>
        ensures meta { result.meta ≡ meta_of self }
        ensures slots { result.slots ≡ slots_of self }
    {
        NodeDisks {
            meta: self.blocks.into_disk(),
            slots: self.shelf.into_disk(),
        }
    }
}

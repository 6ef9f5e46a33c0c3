//! Copying blocks from another replica.

ghost use Rattle.std.specs.Prelude.{◌≡◌, ◌≤◌, ◌<◌, ◌*◌, ◌+◌, ◌-◌, min, [], ℕ, true, false, length, slice_range, Some, Err, IfOk, IfErr, OnOk, OnErr, ◌||◌};
ghost use Rattle.oz_chunk.specs.declared.table.TheConstants.{SLOTS as SLOT_COUNT, SLOT_SIZE as SLOT_BYTES};
ghost use Rattle.oz_entries.specs.Node.{is_deleted, is_held, is_used};
ghost use Rattle.oz_fields.specs.declared.block.Block.{Block as BlockName};
ghost use Rattle.oz_fields.specs.declared.block.TheConstants.{LONGEST_PIECE};
ghost use Rattle.oz_rows.specs.Rows.{IsBlock};
ghost use Rattle.oz_entries.specs.Held.{any_in};
ghost use Rattle.oz_chunk.specs.Taken.{is_taken};
ghost use Rattle.oz_block.specs.shelf.Written.{chunks_in, written_of, written_besides};
ghost use Rattle.oz_datanode.specs.Copying.{CopyGoes};
ghost use Rattle.oz_datanode.specs.Datanode.{Runs, stop_of, DisksGoOn};
ghost use Rattle.oz_datanode.specs.Pairs.{Content, NodeHolds, journal_seen, with_content};
ghost use Rattle.oz_datanode.specs.Steps.{AtRest, FillEnds};
ghost use Rattle.oz_datanode.specs.Writing.{state_for, intact};
ghost use Rattle.oz_datanode.specs.declared.refusal.NodeRefusal.TheVariants as refusals;

use crate::datanode::Datanode;
use crate::refusal::NodeRefusal;
use oz_block::a_disk_stands_for_one_node;
use oz_chunk::SLOT_SIZE;
use oz_container::State;
use oz_fields::Block;
use oz_world::Disk;
use sha2::{Digest, Sha256};
use std::alloc::Global;

impl<D: Disk> Datanode<D> {
    ghost use Rattle.oz_datanode.specs.Datanode.{node_in, is_halted};

    /// Holds a block whose bytes come from another replica, in a replica of any state but deleted. What was written of the
    /// block before is let go; what was written of other blocks stays, and its slots with it.
    pub fn copy(&mut self, alloc: Global, block: Block, bytes: &[u8]) -> Result<(), NodeRefusal>
        requires block { IsBlock block }
        requires least { 1 ≤ length bytes.now }
        requires most { length bytes.now ≤ LONGEST_PIECE }
        requires absent { is_held (node_in self.old) block ≡ false }
        ensures stopped { (count : ℕ) → stop_of D.faults self.old ≡ Some count →
            (result ≡ Err (refusals.Stopped count)) × (self.new ≡ self.old) }
        ensures gone { Runs D.faults self.old → is_deleted (state_for self.old block) ≡ true →
            (result ≡ Err (refusals.NotOpen (state_for self.old block))) × (self.new ≡ self.old) }
        ensures goes { Runs D.faults self.old → is_deleted (state_for self.old block) ≡ false →
            CopyGoes D.told D.clock D.image D.faults block bytes.now self.old self.new result }
        ensures cleared { Runs D.faults self.old → is_deleted (state_for self.old block) ≡ false →
            self.new.shelf.written ≡ written_besides block self.old.shelf.written }
        ensures freed { Runs D.faults self.old → is_deleted (state_for self.old block) ≡ false →
            is_halted self.new ≡ false → OnErr result ((slot : ℕ) → slot < SLOT_COUNT →
            is_taken self.new.shelf.slots.taken slot
            ≡ (is_used (node_in self.old) slot
            || any_in (chunks_in (written_besides block self.old.shelf.written)) slot)) }
        ensures pairs { (contents : BlockName → Content) → is_halted self.old ≡ false →
            NodeHolds D.told D.clock D.image D.faults contents self.old →
            NodeHolds D.told D.clock D.image D.faults (with_content block (intact bytes.now) contents) self.new }
        ensures goes_on { DisksGoOn D.told D.faults self.old self.new }
    {
        a_disk_stands_for_one_node();
        self.check_running()?;
        self.check_there(block.container)?;
        self.shelf.let_go(block);
        let copied = self.fill_and_keep(alloc, block, bytes);
        if copied.is_err() {
            self.shelf.let_go(block);
        }
        copied
    }

    /// Whether a replica is there.
    pub(crate) fn check_there(&self, container: u64) -> Result<(), NodeRefusal>
        ensures there { OnOk result (is_deleted ((node_in self.now).states container) ≡ false) }
        ensures gone { IfErr result (λ why. (is_deleted ((node_in self.now).states container) ≡ true)
            × (why ≡ refusals.NotOpen ((node_in self.now).states container))) }
    {
        let state = self.state(container);
        if let State::Deleted = state {
            return Err(NodeRefusal::NotOpen { state });
        }
        Ok(())
    }

    /// Writes the chunks of a block that isn't held, and holds it.
    fn fill_and_keep(
        &mut self,
        alloc: Global,
        block: Block,
        bytes: &[u8],
    ) -> Result<(), NodeRefusal>
        requires running { Runs D.faults self.old }
        requires at_rest { AtRest (node_in self.old) (journal_seen D.told D.clock D.image D.faults self.old) }
        requires empty { written_of block self.old.shelf.written ≡ [] }
        requires takes { is_deleted (state_for self.old block) ≡ false }
        requires absent { is_held (node_in self.old) block ≡ false }
        requires block { IsBlock block }
        requires least { 1 ≤ length bytes.now }
        requires most { length bytes.now ≤ LONGEST_PIECE }
        ensures goes { CopyGoes D.told D.clock D.image D.faults block bytes.now self.old self.new result }
        ensures cleared { OnOk result (self.new.shelf.written ≡ written_besides block self.old.shelf.written) }
        ensures others { written_besides block self.new.shelf.written ≡ written_besides block self.old.shelf.written }
        ensures pairs { (contents : BlockName → Content) → contents block ≡ intact bytes.now →
            NodeHolds D.told D.clock D.image D.faults contents self.old →
            NodeHolds D.told D.clock D.image D.faults contents self.new }
        ensures goes_on { DisksGoOn D.told D.faults self.old self.new }
    {
        self.fill(block, bytes)?;
        self.keep(alloc, block, bytes.len() as u32)
    }

    /// Writes the chunks of a block, one behind the other.
    pub(crate) fn fill(&mut self, block: Block, bytes: &[u8]) -> Result<(), NodeRefusal>
        requires running { Runs D.faults self.old }
        requires at_rest { AtRest (node_in self.old) (journal_seen D.told D.clock D.image D.faults self.old) }
        requires empty { written_of block self.old.shelf.written ≡ [] }
        requires least { 1 ≤ length bytes.now }
        requires most { length bytes.now ≤ LONGEST_PIECE }
        ensures ends { FillEnds D.told D.faults block bytes.now self.old self.new result }
        ensures others { written_besides block self.new.shelf.written ≡ written_besides block self.old.shelf.written }
        ensures pairs { (contents : BlockName → Content) → NodeHolds D.told D.clock D.image D.faults contents self.old
            → NodeHolds D.told D.clock D.image D.faults contents self.new }
        ensures goes_on { DisksGoOn D.told D.faults self.old self.new }
    {
        for place in 0..(bytes.len() + (SLOT_SIZE as usize - 1)) / SLOT_SIZE as usize {
            let part = part_at(bytes, place);
            self.write_part(block, place as u8, part, Sha256::digest(part))?;
        }
        Ok(())
    }
}

/// The chunk in this place of the bytes of a block.
pub(crate) fn part_at(bytes: &[u8], place: usize) -> &[u8]
    requires { place * SLOT_BYTES < length bytes.now }
    ensures part { result.now ≡ slice_range bytes.now (place * SLOT_BYTES)
        (place * SLOT_BYTES + min (length bytes.now - place * SLOT_BYTES) SLOT_BYTES) }
    ensures size { length result.now ≡ min (length bytes.now - place * SLOT_BYTES) SLOT_BYTES }
{
    let from = place * SLOT_SIZE as usize;
    let size = (bytes.len() - from).min(SLOT_SIZE as usize);
    &bytes[from..from + size]
}

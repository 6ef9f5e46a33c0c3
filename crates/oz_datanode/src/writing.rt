//! Writing blocks: chunks that are written, put and abandoned.

ghost use Rattle.std.specs.Prelude.{◌≡◌, ◌≤◌, ◌<◌, ◌*◌, ◌++◌, ◌==◌, ◌&&◌, [], ℕ, List, true, false, length, Some, None, IfSome, IfOk, IfErr, OnOk};
ghost use Rattle.oz_chunk.specs.declared.table.TheConstants.{SLOT_SIZE as SLOT_BYTES};
ghost use Rattle.oz_entries.specs.Node.{is_held, is_deleted, is_same_block};
ghost use Rattle.oz_fields.specs.declared.block.Block.{Block as BlockName};
ghost use Rattle.oz_fields.specs.declared.block.TheConstants.{LONGEST_PIECE};
ghost use Rattle.oz_rows.specs.Rows.{IsBlock};
ghost use Rattle.oz_block.specs.shelf.Written.{makes, row_of, written_of};
ghost use Rattle.oz_datanode.specs.Datanode.{stop_of, Runs, DisksGoOn};
ghost use Rattle.oz_datanode.specs.Pairs.{Content, Has, NodeHolds, journal_seen, with_content};
ghost use Rattle.oz_datanode.specs.Writing.{is_open, state_for, HasPart, MakeBytes, contents_with, WriteEnds, PutEnds, Abandons};
ghost use Rattle.oz_datanode.specs.Steps.{PartEnds, KeepEnds, AtRest};
ghost use Rattle.oz_datanode.specs.declared.refusal.NodeRefusal.TheVariants as refusals;
ghost use Rattle.sha2.specs.Sha256.{sha256};

use crate::datanode::Datanode;
use crate::refusal::NodeRefusal;
use oz_block::{BlockFault, Unwritten, a_disk_stands_for_one_node, each_place_has_its_last_chunk};
use oz_container::State;
use oz_fields::Block;
use oz_world::Disk;
use sha2::{Digest, Sha256};
use std::alloc::Global;

impl<D: Disk> Datanode<D> {
    ghost use Rattle.oz_datanode.specs.Datanode.{node_in, meta_of, slots_of, is_halted, count_of};

    /// Whether neither a line nor a disk has stopped it.
    pub(crate) fn check_running(&self) -> Result<(), NodeRefusal>
        ensures running { OnOk result (Runs D.faults self.now) }
        ensures stopped { IfErr result (λ why. (count : ℕ) × (stop_of D.faults self.now ≡ Some count)
            × (why ≡ refusals.Stopped count)) }
        ensures at_rest { is_halted self.now ≡ false →
            AtRest (node_in self.now) (journal_seen D.told D.clock D.image D.faults self.now) }
    {
        if self.halted() {
            return Err(self.halt());
        }
        if self.stopped {
            return Err(NodeRefusal::Stopped { count: 0 });
        }
        Ok(())
    }

    /// Whether a replica takes blocks that are written.
    fn check_open(&self, container: u64) -> Result<(), NodeRefusal>
        ensures open { OnOk result (is_open ((node_in self.now).states container) ≡ true) }
        ensures not_open { IfErr result (λ why. (is_open ((node_in self.now).states container) ≡ false)
            × (why ≡ refusals.NotOpen ((node_in self.now).states container))) }
    {
        let state = self.state(container);
        if let State::Open = state {
            return Ok(());
        }
        Err(NodeRefusal::NotOpen { state })
    }

    /// Writes a chunk of a block, from 0, in any order. It isn't stable before the block is put. One that was written before
    /// in the same place is let go.
    pub fn write(
        &mut self,
        _alloc: Global,
        block: Block,
        chunk: u8,
        bytes: &[u8],
    ) -> Result<(), NodeRefusal>
        requires chunk { chunk < 4 }
        requires least { 1 ≤ length bytes.now }
        requires most { length bytes.now ≤ SLOT_BYTES }
        ensures ends { WriteEnds D.told D.faults block chunk bytes.now self.old self.new result }
        ensures first { OnOk result (chunk ≡ 0 → written_of block self.old.shelf.written ≡ [] →
            MakeBytes D.told block bytes.now self.new.shelf) }
        ensures next { OnOk result ((front : List ℕ) → MakeBytes D.told block front self.old.shelf →
            length front ≡ chunk * SLOT_BYTES → MakeBytes D.told block (front ++ bytes.now) self.new.shelf) }
        ensures others { OnOk result ((other : BlockName) (made : List ℕ) → is_same_block block other ≡ false →
            MakeBytes D.told other made self.old.shelf → MakeBytes D.told other made self.new.shelf) }
        ensures part { OnOk result
            (HasPart block chunk bytes.now self.new.shelf.written (D.told (slots_of self.new))) }
        ensures parts { OnOk result ((other : BlockName) (place : ℕ) (part : List ℕ) →
            (is_same_block block other && (chunk == place)) ≡ false →
            HasPart other place part self.old.shelf.written (D.told (slots_of self.old)) →
            HasPart other place part self.new.shelf.written (D.told (slots_of self.new))) }
        ensures pairs { (contents : BlockName → Content) → NodeHolds D.told D.clock D.image D.faults contents self.old
            → NodeHolds D.told D.clock D.image D.faults contents self.new }
        ensures goes_on { DisksGoOn D.told D.faults self.old self.new }
    {
        self.write_digested(block, chunk, bytes, Sha256::digest(bytes))
    }

    /// Does what `write` does with a chunk whose SHA-256 the caller has made.
    pub fn write_digested(
        &mut self,
        block: Block,
        chunk: u8,
        bytes: &[u8],
        digest: [u8; 32],
    ) -> Result<(), NodeRefusal>
        requires chunk { chunk < 4 }
        requires least { 1 ≤ length bytes.now }
        requires most { length bytes.now ≤ SLOT_BYTES }
        requires digest { digest ≡ sha256 bytes.now }
        ensures ends { WriteEnds D.told D.faults block chunk bytes.now self.old self.new result }
        ensures first { OnOk result (chunk ≡ 0 → written_of block self.old.shelf.written ≡ [] →
            MakeBytes D.told block bytes.now self.new.shelf) }
        ensures next { OnOk result ((front : List ℕ) → MakeBytes D.told block front self.old.shelf →
            length front ≡ chunk * SLOT_BYTES → MakeBytes D.told block (front ++ bytes.now) self.new.shelf) }
        ensures others { OnOk result ((other : BlockName) (made : List ℕ) → is_same_block block other ≡ false →
            MakeBytes D.told other made self.old.shelf → MakeBytes D.told other made self.new.shelf) }
        ensures part { OnOk result
            (HasPart block chunk bytes.now self.new.shelf.written (D.told (slots_of self.new))) }
        ensures parts { OnOk result ((other : BlockName) (place : ℕ) (part : List ℕ) →
            (is_same_block block other && (chunk == place)) ≡ false →
            HasPart other place part self.old.shelf.written (D.told (slots_of self.old)) →
            HasPart other place part self.new.shelf.written (D.told (slots_of self.new))) }
        ensures pairs { (contents : BlockName → Content) → NodeHolds D.told D.clock D.image D.faults contents self.old
            → NodeHolds D.told D.clock D.image D.faults contents self.new }
        ensures goes_on { DisksGoOn D.told D.faults self.old self.new }
    {
        self.check_running()?;
        self.check_open(block.container)?;
        self.write_part(block, chunk, bytes, digest)
    }

    /// Writes a chunk where it is known that it runs.
    pub(crate) fn write_part(
        &mut self,
        block: Block,
        chunk: u8,
        bytes: &[u8],
        digest: [u8; 32],
    ) -> Result<(), NodeRefusal>
        requires running { Runs D.faults self.old }
        requires at_rest { AtRest (node_in self.old) (journal_seen D.told D.clock D.image D.faults self.old) }
        requires chunk { chunk < 4 }
        requires least { 1 ≤ length bytes.now }
        requires most { length bytes.now ≤ SLOT_BYTES }
        requires digest { digest ≡ sha256 bytes.now }
        ensures ends { PartEnds D.told D.faults block chunk bytes.now self.old self.new result }
        ensures first { OnOk result (chunk ≡ 0 → written_of block self.old.shelf.written ≡ [] →
            MakeBytes D.told block bytes.now self.new.shelf) }
        ensures next { OnOk result ((front : List ℕ) → MakeBytes D.told block front self.old.shelf →
            length front ≡ chunk * SLOT_BYTES → MakeBytes D.told block (front ++ bytes.now) self.new.shelf) }
        ensures others { OnOk result ((other : BlockName) (made : List ℕ) → is_same_block block other ≡ false →
            MakeBytes D.told other made self.old.shelf → MakeBytes D.told other made self.new.shelf) }
        ensures part { OnOk result
            (HasPart block chunk bytes.now self.new.shelf.written (D.told (slots_of self.new))) }
        ensures parts { OnOk result ((other : BlockName) (place : ℕ) (part : List ℕ) →
            (is_same_block block other && (chunk == place)) ≡ false →
            HasPart other place part self.old.shelf.written (D.told (slots_of self.old)) →
            HasPart other place part self.new.shelf.written (D.told (slots_of self.new))) }
        ensures pairs { (contents : BlockName → Content) → NodeHolds D.told D.clock D.image D.faults contents self.old
            → NodeHolds D.told D.clock D.image D.faults contents self.new }
        ensures goes_on { DisksGoOn D.told D.faults self.old self.new }
    {
        a_disk_stands_for_one_node();
        each_place_has_its_last_chunk();
        match self.shelf.write(block, chunk, bytes, digest) {
            Ok(()) => Ok(()),
            Err(Unwritten::Full(full)) => Err(NodeRefusal::Full {
                used: full.used,
                asked: full.asked,
                capacity: full.capacity,
            }),
            Err(Unwritten::Failed) => Err(self.halt()),
            Err(Unwritten::OutOfMemory) => Err(NodeRefusal::OutOfMemory),
        }
    }

    /// Holds a block whose chunks were written. What was written is stable before the block is held.
    pub fn put(&mut self, alloc: Global, block: Block, length: u32) -> Result<(), NodeRefusal>
        requires block { IsBlock block }
        requires least { 1 ≤ length }
        requires most { length ≤ LONGEST_PIECE }
        ensures ends { PutEnds D.told D.clock D.image D.faults block length self.old self.new result }
        ensures pairs { (contents : BlockName → Content) (content : Content) → is_halted self.old ≡ false →
            IfSome (D.told (slots_of self.old)) (Has content (row_of self.old.shelf.written block length)) →
            NodeHolds D.told D.clock D.image D.faults contents self.old →
            NodeHolds D.told D.clock D.image D.faults (contents_with block content contents self.old) self.new }
        ensures refused { is_halted self.old ≡ true → self.new ≡ self.old }
        ensures goes_on { DisksGoOn D.told D.faults self.old self.new }
    {
        a_disk_stands_for_one_node();
        self.check_running()?;
        if !self.shelf.makes(block, length) {
            return Err(NodeRefusal::NoBlock);
        }
        self.check_open(block.container)?;
        if self.blocks.get(block).is_some() {
            self.shelf.let_go(block);
            return Ok(());
        }
        self.keep(alloc, block, length)
    }

    /// Holds a block that isn't held, with the chunks that were written of it, in a replica that takes it.
    pub(crate) fn keep(
        &mut self,
        alloc: Global,
        block: Block,
        length: u32,
    ) -> Result<(), NodeRefusal>
        requires running { Runs D.faults self.old }
        requires at_rest { AtRest (node_in self.old) (journal_seen D.told D.clock D.image D.faults self.old) }
        requires made { makes self.old.shelf.written block length ≡ true }
        requires takes { is_deleted (state_for self.old block) ≡ false }
        requires absent { is_held (node_in self.old) block ≡ false }
        requires block { IsBlock block }
        requires least { 1 ≤ length }
        requires most { length ≤ LONGEST_PIECE }
        ensures ends { KeepEnds D.told D.clock D.image D.faults block (row_of self.old.shelf.written block length)
            self.old self.new result }
        ensures pairs { (contents : BlockName → Content) (content : Content) →
            IfSome (D.told (slots_of self.old)) (Has content (row_of self.old.shelf.written block length)) →
            NodeHolds D.told D.clock D.image D.faults contents self.old →
            NodeHolds D.told D.clock D.image D.faults (with_content block content contents) self.new }
        ensures goes_on { DisksGoOn D.told D.faults self.old self.new }
    {
        a_disk_stands_for_one_node();
        let row = self.shelf.row(alloc, block, length)?;
        let Ok(()) = self.shelf.sync() else {
            return Err(self.halt());
        };
        match self.blocks.put(alloc, block, row) {
            Ok(()) => {
                self.shelf.forget(block);
                Ok(())
            }
            Err(BlockFault::Stopped { .. }) => Err(self.halt()),
            Err(BlockFault::OutOfMemory) => Err(NodeRefusal::OutOfMemory),
        }
    }

    /// Sets the slots of the chunks free that were written of a block and not put.
    pub fn abandon(&mut self, block: Block)
        ensures abandons { Abandons block self.old self.new }
        ensures pairs { (contents : BlockName → Content) → NodeHolds D.told D.clock D.image D.faults contents self.old
            → NodeHolds D.told D.clock D.image D.faults contents self.new }
        ensures goes_on { DisksGoOn D.told D.faults self.old self.new }
    {
        self.shelf.let_go(block);
    }
}

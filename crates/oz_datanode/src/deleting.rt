//! Deleting blocks, and dropping replicas.

ghost use Rattle.std.specs.Prelude.{◌≡◌, ◌≤◌, ◌<◌, ◌^◌, ◌+◌, ◌==◌, ◌&&◌, ◌||◌, not, ℕ, true, false, length, Ok, Err, Some, IfOk, OnOk, OnErr, if◌then◌else◌};
ghost use Rattle.std.specs.List.{AllByRecursion, list_any};
ghost use Rattle.oz_block.specs.Blocks.{node_in as node_in_blocks};
ghost use Rattle.oz_datanode.specs.Changing.{IsJournaled, Frees, held_count};
ghost use Rattle.oz_datanode.specs.Datanode.{Runs, stop_of, DisksGoOn};
ghost use Rattle.oz_datanode.specs.Pairs.{Content, NodeHolds, journal_seen};
ghost use Rattle.oz_datanode.specs.declared.refusal.NodeRefusal.TheVariants as refusals;
ghost use Rattle.oz_dellog.specs.declared.txn.TheConstants.{MOST_LOCALS as MOST};
ghost use Rattle.oz_entries.specs.declared.entry.Entry.TheVariants as entries;
ghost use Rattle.oz_entries.specs.Node.{is_held, names, names_held};
ghost use Rattle.oz_entries.specs.Reading.{is_due};
ghost use Rattle.oz_fields.specs.declared.block.Block.{Block as BlockName};

use crate::datanode::Datanode;
use crate::refusal::NodeRefusal;
use oz_block::{Blocks, a_disk_stands_for_one_node};
use oz_dellog::Txn;
use oz_fields::Block;
use oz_world::Disk;
use std::alloc::Global;

impl<D: Disk> Datanode<D> {
    ghost use Rattle.oz_datanode.specs.Datanode.{node_in};

    /// Applies a transaction: none of its blocks is held afterwards, and their slots are free, which happens once this is
    /// stable. It answers how many were held. One that was applied before, of whose blocks none is held, changes nothing.
    pub fn apply_deletes(&mut self, alloc: Global, txn: &Txn) -> Result<u32, NodeRefusal>
        requires number { 1 ≤ txn.now.number }
        requires least { 1 ≤ length txn.now.locals }
        requires most { length txn.now.locals ≤ MOST }
        ensures stopped { (count : ℕ) → stop_of D.faults self.old ≡ Some count →
            (result ≡ Err (refusals.Stopped count)) × (self.new ≡ self.old) }
        ensures not_due { Runs D.faults self.old → is_due (node_in self.old) txn.now ≡ false →
            (result ≡ Ok 0) × (self.new ≡ self.old) }
        ensures applied { Runs D.faults self.old → is_due (node_in self.old) txn.now ≡ true →
            IsJournaled D.faults (entries.Apply txn.now) self.old self.new
            (journal_seen D.told D.clock D.image D.faults self.old)
            (journal_seen D.told D.clock D.image D.faults self.new) result }
        ensures freed { Runs D.faults self.old → is_due (node_in self.old) txn.now ≡ true →
            OnOk result (Frees (names txn.now) (node_in self.old) self.old.shelf self.new.shelf) }
        ensures shelf { OnErr result (self.new.shelf ≡ self.old.shelf) }
        ensures count { IfOk result (λ count.
            count ≡ held_count (node_in self.old) txn.now.container txn.now.locals) }
        ensures gone { OnOk result (names_held (node_in self.new) txn.now ≡ false) }
        ensures pairs { (contents : BlockName → Content) → NodeHolds D.told D.clock D.image D.faults contents self.old
            → NodeHolds D.told D.clock D.image D.faults contents self.new }
        ensures goes_on { DisksGoOn D.told D.faults self.old self.new }
    {
        a_disk_stands_for_one_node();
        self.check_running()?;
        let count = held_count(&self.blocks, txn.container, txn.locals.items());
        if !is_due(&self.blocks, txn, count) {
            return Ok(0);
        }
        has_numbers(txn);
        self.blocks.uses_slots_of_rows();
        match self.blocks.delete(alloc, txn) {
            Ok(slots) => {
                self.shelf.release(&slots);
                Ok(count)
            }
            Err(fault) => Err(self.refusal(fault)),
        }
    }

    /// Drops a replica, which is deleted. Whoever calls this has seen that it holds no block. `Ok` is stable.
    pub fn drop_container(&mut self, alloc: Global, container: u64) -> Result<(), NodeRefusal>
        requires { (local : ℕ) → is_held (node_in self.old) (record { container = container; local = local }) ≡ false }
        ensures stopped { (count : ℕ) → stop_of D.faults self.old ≡ Some count →
            (result ≡ Err (refusals.Stopped count)) × (self.new ≡ self.old) }
        ensures made { Runs D.faults self.old →
            IsJournaled D.faults (entries.Drop container) self.old self.new
            (journal_seen D.told D.clock D.image D.faults self.old)
            (journal_seen D.told D.clock D.image D.faults self.new) result }
        ensures shelf { self.new.shelf ≡ self.old.shelf }
        ensures pairs { (contents : BlockName → Content) → NodeHolds D.told D.clock D.image D.faults contents self.old
            → NodeHolds D.told D.clock D.image D.faults contents self.new }
        ensures goes_on { DisksGoOn D.told D.faults self.old self.new }
    {
        a_disk_stands_for_one_node();
        self.check_running()?;
        self.blocks.uses_slots_of_rows();
        match self.blocks.drop_container(alloc, container) {
            Ok(()) => Ok(()),
            Err(fault) => Err(self.refusal(fault)),
        }
    }
}

/// The numbers of a transaction have 64 bits.
fn has_numbers(txn: &Txn)
    ensures container { txn.now.container < 2 ^ 64 }
    ensures number { txn.now.number < 2 ^ 64 }
    ensures locals { AllByRecursion (λ local. local < 2 ^ 64) txn.now.locals }
{
    let _container = txn.container;
    let _number = txn.number;
    are_numbers(txn.locals.items());
}

fn are_numbers(locals: &[u64])
    ensures { AllByRecursion (λ local. local < 2 ^ 64) locals.now }
{
    let _count = locals.len();
}

/// Whether a transaction is above the greatest of its container, or names a block that is held, of which there are so
/// many.
fn is_due<D: Disk>(blocks: &Blocks<D>, txn: &Txn, count: u32) -> bool
    requires { count ≡ held_count (node_in_blocks blocks.now) txn.now.container txn.now.locals }
    ensures { result ≡ is_due (node_in_blocks blocks.now) txn.now }
{
    either(blocks.greatest(txn.container) < txn.number, count > 0)
}

fn either(one: bool, other: bool) -> bool
    ensures { result ≡ (one || other) }
{
    one || other
}

/// How many blocks of a container are held, by their own numbers. One that is named more often counts once.
fn held_count<D: Disk>(blocks: &Blocks<D>, container: u64, locals: &[u64]) -> u32
    requires { length locals.now ≤ MOST }
    ensures { result ≡ held_count (node_in_blocks blocks.now) container locals.now }
{
    let mut count = 0;
    for i in 0..locals.len() {
        let (_, later) = locals.split_at(i + 1);
        count += counted(blocks, container, locals[i], later);
    }
    count
}

/// 1 where the block is held and isn't among those that follow.
fn counted<D: Disk>(blocks: &Blocks<D>, container: u64, local: u64, later: &[u64]) -> u32
    ensures { result ≡ (if is_held (node_in_blocks blocks.now) (record { container = container; local = local })
        && not (list_any (λ other. other == local) later.now) then 1 else 0) }
{
    let is_held = blocks.get(Block { container, local }).is_some();
    if is_held && !is_among(local, later) {
        return 1;
    }
    0
}

fn is_among(local: u64, locals: &[u64]) -> bool
    ensures { result ≡ list_any (λ other. other == local) locals.now }
{
    locals.iter().any(|other| *other == local)
}

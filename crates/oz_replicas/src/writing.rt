//! Writing a block at one datanode, under one hold of its lock.

ghost use Rattle.std.specs.Prelude.{◌≡◌, ◌≤◌, [], List, length, Contains, IfOk, OnErr};
ghost use Rattle.oz_fields.specs.declared.block.TheConstants.{LONGEST_PIECE};
ghost use Rattle.oz_replicas.specs.Cells.{IsAtRest};
ghost use Rattle.oz_replicas.specs.Stays.{IsIdle, Stays};
ghost use Rattle.oz_replicas.specs.Writing.{Answers};
ghost use Rattle.oz_replicas.specs.declared.note.Note.{Note as AnyNote};
ghost use Rattle.oz_rows.specs.Rows.{IsBlock};

use crate::cell::NodeCell;
use crate::halting::note_halt;
use crate::kept::Kept;
use crate::note::Note;
use crate::noter::Noter;
use crate::unput::Unput;
use crate::whole::{has_already, write_whole};
use oz_core::PutRefusal;
use oz_datanode::{Datanode, Hashed};
use oz_fields::{Block, OutOfMemory};
use oz_world::Disk;
use std::alloc::Global;

/// Writes a block at the datanode of a cell whose lock is held, and notes what came of it: None where it has the block now.
/// A datanode that has it already gets no second put, and nothing is noted. The noter knows then what is kept beside it.
pub fn write_at<D: Disk, K: Kept<D>, N: Noter<D, K>>(
    alloc: Global,
    cell: &mut NodeCell<D, K>,
    block: Block,
    bytes: &[u8],
    noter: &mut N,
) -> Result<Option<PutRefusal>, OutOfMemory>
    requires block { IsBlock block }
    requires least { 1 ≤ length bytes.now }
    requires most { length bytes.now ≤ LONGEST_PIECE }
    requires its_block { (N.subject noter.old).block ≡ block }
    requires its_bytes { (N.subject noter.old).bytes ≡ bytes.now }
    requires member { Contains (N.subject noter.old).members cell.old.node.id }
    ensures answers { IfOk result (λ answer. (notes : List AnyNote) × (N.noted noter.old notes noter.new
        × Answers D.told D.clock D.image D.faults (N.subject noter.old) cell.old.node cell.new.node answer notes)) }
    ensures lacks { OnErr result (N.noted noter.old [] noter.new
        × Stays D.told D.clock D.image D.faults cell.old.node cell.new.node) }
    ensures knows { N.knows noter.new cell.new.kept }
    ensures subject { N.subject noter.new ≡ N.subject noter.old }
    ensures before { IsAtRest K.stands cell.old.node cell.old.kept }
    ensures after { IsAtRest K.stands cell.new.node cell.new.kept }
{
    let hashed = Hashed::new(bytes);
    write_hashed_at(alloc, cell, block, &hashed, noter)
}

/// The same, with the digests of the block's chunks made before.
pub(crate) fn write_hashed_at<D: Disk, K: Kept<D>, N: Noter<D, K>>(
    alloc: Global,
    cell: &mut NodeCell<D, K>,
    block: Block,
    bytes: &Hashed<'_>,
    noter: &mut N,
) -> Result<Option<PutRefusal>, OutOfMemory>
    requires block { IsBlock block }
    requires least { 1 ≤ length bytes.now }
    requires most { length bytes.now ≤ LONGEST_PIECE }
    requires its_block { (N.subject noter.old).block ≡ block }
    requires its_bytes { (N.subject noter.old).bytes ≡ bytes.now }
    requires member { Contains (N.subject noter.old).members cell.old.node.id }
    ensures answers { IfOk result (λ answer. (notes : List AnyNote) × (N.noted noter.old notes noter.new
        × Answers D.told D.clock D.image D.faults (N.subject noter.old) cell.old.node cell.new.node answer notes)) }
    ensures lacks { OnErr result (N.noted noter.old [] noter.new
        × Stays D.told D.clock D.image D.faults cell.old.node cell.new.node) }
    ensures knows { N.knows noter.new cell.new.kept }
    ensures subject { N.subject noter.new ≡ N.subject noter.old }
    ensures before { IsAtRest K.stands cell.old.node cell.old.kept }
    ensures after { IsAtRest K.stands cell.new.node cell.new.kept }
{
    write_beside(alloc, &mut cell.node, &mut cell.kept, block, bytes, noter)
}

/// Writes a block at a datanode beside which this is kept.
fn write_beside<D: Disk, K: Kept<D>, N: Noter<D, K>>(
    alloc: Global,
    node: &mut Datanode<D>,
    kept: &mut K,
    block: Block,
    bytes: &Hashed<'_>,
    noter: &mut N,
) -> Result<Option<PutRefusal>, OutOfMemory>
    requires block { IsBlock block }
    requires least { 1 ≤ length bytes.now }
    requires most { length bytes.now ≤ LONGEST_PIECE }
    requires its_block { (N.subject noter.old).block ≡ block }
    requires its_bytes { (N.subject noter.old).bytes ≡ bytes.now }
    requires member { Contains (N.subject noter.old).members node.old.id }
    requires idle { IsIdle node.old }
    requires stood { K.stands kept.old node.old }
    ensures answers { IfOk result (λ answer. (notes : List AnyNote) × (N.noted noter.old notes noter.new
        × Answers D.told D.clock D.image D.faults (N.subject noter.old) node.old node.new answer notes)) }
    ensures lacks { OnErr result (N.noted noter.old [] noter.new
        × Stays D.told D.clock D.image D.faults node.old node.new) }
    ensures knows { N.knows noter.new kept.new }
    ensures subject { N.subject noter.new ≡ N.subject noter.old }
    ensures idle { IsIdle node.new }
    ensures stands { K.stands kept.new node.new }
{
    noter.ready(kept)?;
    if has_already(node, block) {
        return Ok(None);
    }
    let dn = node.id();
    let length = bytes.len() as u32;
    match write_whole(alloc, node, block, bytes) {
        Ok(()) => {
            noter.note(kept, Note::Put { dn, block, length });
            Ok(None)
        }
        Err(Unput::Refused(refusal)) => {
            noter.note(kept, Note::Refused { dn, block, refusal });
            Ok(Some(refusal))
        }
        Err(Unput::Halted { count }) => Ok(Some(note_halt(node, kept, block, count, noter))),
        Err(Unput::OutOfMemory) => Err(OutOfMemory),
    }
}

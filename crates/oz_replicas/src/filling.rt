//! Writing the chunks of a block at a datanode, and putting it.

ghost use Rattle.std.specs.Prelude.{◌≡◌, ◌≤◌, length, OnOk};
ghost use Rattle.oz_datanode.specs.Writing.{IsOpen, MakeBytes};
ghost use Rattle.oz_fields.specs.declared.block.TheConstants.{LONGEST_PIECE};
ghost use Rattle.oz_replicas.specs.Nodes.{AreOf, FillGoes, PutGoes};
ghost use Rattle.oz_replicas.specs.Outcomes.{HasAlready};
ghost use Rattle.oz_replicas.specs.Stays.{IsIdle};
ghost use Rattle.oz_rows.specs.Rows.{IsBlock};

use oz_chunk::SLOT_SIZE;
use oz_datanode::{Datanode, Hashed, NodeRefusal};
use oz_fields::Block;
use oz_world::Disk;
use std::alloc::Global;

/// Writes the chunks of a block and puts it.
pub(crate) fn fill_and_put<D: Disk>(
    alloc: Global,
    node: &mut Datanode<D>,
    block: Block,
    bytes: &Hashed<'_>,
) -> Result<(), NodeRefusal>
    requires block { IsBlock block }
    requires least { 1 ≤ length bytes.now }
    requires most { length bytes.now ≤ LONGEST_PIECE }
    requires idle { IsIdle node.old }
    requires wanted { ¬ HasAlready D.faults block node.old }
    ensures goes { PutGoes D.told D.clock D.image D.faults block bytes.now node.old node.new result }
    ensures own { AreOf block node.new.shelf }
    ensures idle { OnOk result (IsIdle node.new) }
{
    fill(node, block, bytes)?;
    put(alloc, node, block, bytes)
}

/// Puts a block whose chunks are written.
fn put<D: Disk>(
    alloc: Global,
    node: &mut Datanode<D>,
    block: Block,
    bytes: &Hashed<'_>,
) -> Result<(), NodeRefusal>
    requires block { IsBlock block }
    requires least { 1 ≤ length bytes.now }
    requires most { length bytes.now ≤ LONGEST_PIECE }
    requires opened { IsOpen D.faults block node.old }
    requires made { MakeBytes D.told block bytes.now node.old.shelf }
    requires own { AreOf block node.old.shelf }
    requires wanted { ¬ HasAlready D.faults block node.old }
    ensures goes { PutGoes D.told D.clock D.image D.faults block bytes.now node.old node.new result }
    ensures own { AreOf block node.new.shelf }
    ensures idle { OnOk result (IsIdle node.new) }
{
    node.put(alloc, block, bytes.len() as u32)
}

/// Writes the chunks of a block, one behind the other.
fn fill<D: Disk>(
    node: &mut Datanode<D>,
    block: Block,
    bytes: &Hashed<'_>,
) -> Result<(), NodeRefusal>
    requires least { 1 ≤ length bytes.now }
    requires most { length bytes.now ≤ LONGEST_PIECE }
    requires idle { IsIdle node.old }
    requires wanted { ¬ HasAlready D.faults block node.old }
    ensures goes { FillGoes D.told D.clock D.image D.faults block bytes.now node.old node.new result }
    ensures own { AreOf block node.new.shelf }
{
    for place in 0..(bytes.len() + (SLOT_SIZE as usize - 1)) / SLOT_SIZE as usize {
        node.write_digested(block, place as u8, bytes.part(place), bytes.digest(place))?;
    }
    Ok(())
}

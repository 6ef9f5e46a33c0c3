//! Writing a whole block at a datanode, or nothing of it.

ghost use Rattle.std.specs.Prelude.{◌≡◌, ◌≤◌, ◌↔◌, ◌&&◌, length, not, IsTrue};
ghost use Rattle.oz_fields.specs.declared.block.TheConstants.{LONGEST_PIECE};
ghost use Rattle.oz_replicas.specs.Nodes.{WriteGoes, unput_of};
ghost use Rattle.oz_replicas.specs.Outcomes.{HasAlready};
ghost use Rattle.oz_replicas.specs.Stays.{IsIdle};
ghost use Rattle.oz_rows.specs.Rows.{IsBlock};

use crate::filling::fill_and_put;
use crate::unput::Unput;
use oz_container::State;
use oz_core::PutRefusal;
use oz_datanode::{Datanode, Hashed, NodeRefusal};
use oz_fields::Block;
use oz_world::Disk;
use std::alloc::Global;

/// Whether a datanode that would take a block has it already.
pub(crate) fn has_already<D: Disk>(node: &Datanode<D>, block: Block) -> bool
    ensures { IsTrue result ↔ HasAlready D.faults block node.now }
{
    node.running() && node.state(block.container) == State::Open && node.holds(block)
}

/// Writes the chunks of a block that a datanode hasn't, and puts it. Where it isn't put its chunks are abandoned.
pub(crate) fn write_whole<D: Disk>(
    alloc: Global,
    node: &mut Datanode<D>,
    block: Block,
    bytes: &Hashed<'_>,
) -> Result<(), Unput>
    requires block { IsBlock block }
    requires least { 1 ≤ length bytes.now }
    requires most { length bytes.now ≤ LONGEST_PIECE }
    requires idle { IsIdle node.old }
    requires wanted { ¬ HasAlready D.faults block node.old }
    ensures goes { WriteGoes D.told D.clock D.image D.faults block bytes.now node.old node.new result }
    ensures idle { IsIdle node.new }
{
    let was_halted = node.halted();
    let Err(refusal) = fill_and_put(alloc, node, block, bytes) else {
        return Ok(());
    };
    node.abandon(block);
    let halted = node.halted();
    Err(unput(refusal, was_halted, halted))
}

/// What a refusal says of a datanode that was halted before the call or wasn't, and is or isn't after it.
fn unput(refusal: NodeRefusal, was_halted: bool, halted: bool) -> Unput
    ensures { result ≡ unput_of (not was_halted && halted) refusal }
{
    match refusal {
        NodeRefusal::Stopped { count } if !was_halted && halted => Unput::Halted { count },
        NodeRefusal::Stopped { count } => Unput::Refused(PutRefusal::Stopped { count }),
        NodeRefusal::Full {
            used,
            asked,
            capacity,
        } => Unput::Refused(PutRefusal::Full {
            used,
            asked,
            capacity,
        }),
        NodeRefusal::NotOpen { state } => Unput::Refused(PutRefusal::NotOpen { state }),
        NodeRefusal::NoBlock | NodeRefusal::Bad { .. } | NodeRefusal::OutOfMemory => {
            Unput::OutOfMemory
        }
    }
}

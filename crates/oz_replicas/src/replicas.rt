//! Writing a block at its three members.

ghost use Rattle.std.specs.Prelude.{◌≡◌, ◌≤◌, ◌<◌, [], length, All, Contains, IfOk, OnErr};
ghost use Rattle.oz_fields.specs.declared.block.TheConstants.{LONGEST_PIECE};
ghost use Rattle.oz_replicas.specs.Writing.{Answered, AllAnswered, StopsShort};
ghost use Rattle.oz_rows.specs.Rows.{IsBlock};

use crate::kept::Kept;
use crate::nodes::Nodes;
use crate::noter::Noter;
use crate::writing::write_hashed_at;
use oz_client::Written;
use oz_core::PutRefusal;
use oz_datanode::Hashed;
use oz_fields::{Block, OutOfMemory};
use oz_world::{Disk, Gate, Point};
use std::alloc::Global;
use std::sync::Wait;

/// The seat of datanode 0. Those of the others follow it.
const FIRST_DATANODE_SEAT: u16 = 4;

/// Writes a block at its members in their order, each under one hold of its lock, and notes what comes of it there. It makes the
/// digests of the block's chunks once, before it waits for the first lock, and passes the gate before it waits for each. Where there
/// is no memory the members that answered have been noted.
pub fn write_block<D: Disk, K: Kept<D>, N: Noter<D, K>, G: Gate, W: Wait>(
    rt: &W,
    alloc: Global,
    nodes: &Nodes<D, K>,
    members: [u8; 3],
    block: Block,
    bytes: &[u8],
    gate: &G,
    noter: &mut N,
) -> Result<Written, OutOfMemory>
    requires members { All (λ dn. dn < nodes.now) members }
    requires block { IsBlock block }
    requires least { 1 ≤ length bytes.now }
    requires most { length bytes.now ≤ LONGEST_PIECE }
    requires its_members { (N.subject noter.old).members ≡ members }
    requires its_block { (N.subject noter.old).block ≡ block }
    requires its_bytes { (N.subject noter.old).bytes ≡ bytes.now }
    ensures written { IfOk result (λ written. AllAnswered D.told D.clock D.image D.faults K.stands N.noted N.knows
        (N.subject noter.old) members written.answers noter.old noter.new) }
    ensures lacks { OnErr result (StopsShort D.told D.clock D.image D.faults K.stands N.noted N.knows (N.subject noter.old)
        members noter.old noter.new) }
    ensures subject { N.subject noter.new ≡ N.subject noter.old }
{
    let hashed = Hashed::new(bytes);
    let first = write_member(rt, alloc, nodes, members[0], block, &hashed, gate, noter)?;
    let second = write_member(rt, alloc, nodes, members[1], block, &hashed, gate, noter)?;
    let third = write_member(rt, alloc, nodes, members[2], block, &hashed, gate, noter)?;
    Ok(Written {
        answers: [first, second, third],
    })
}

/// Writes a block at one of its members.
fn write_member<D: Disk, K: Kept<D>, N: Noter<D, K>, G: Gate, W: Wait>(
    rt: &W,
    alloc: Global,
    nodes: &Nodes<D, K>,
    dn: u8,
    block: Block,
    bytes: &Hashed<'_>,
    gate: &G,
    noter: &mut N,
) -> Result<Option<PutRefusal>, OutOfMemory>
    requires there { dn < nodes.now }
    requires member { Contains (N.subject noter.old).members dn }
    requires block { IsBlock block }
    requires least { 1 ≤ length bytes.now }
    requires most { length bytes.now ≤ LONGEST_PIECE }
    requires its_block { (N.subject noter.old).block ≡ block }
    requires its_bytes { (N.subject noter.old).bytes ≡ bytes.now }
    ensures answered { IfOk result (λ answer. Answered D.told D.clock D.image D.faults K.stands N.noted N.knows
        (N.subject noter.old) dn answer noter.old noter.new) }
    ensures lacks { OnErr result (N.noted noter.old [] noter.new) }
    ensures subject { N.subject noter.new ≡ N.subject noter.old }
{
    gate.pass(rt, Point::SlotWrite, FIRST_DATANODE_SEAT + u16::from(dn));
    let mut cell = nodes.lock(rt, dn);
    write_hashed_at(alloc, &mut cell, block, bytes, noter)
}

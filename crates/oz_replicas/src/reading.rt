//! Reading a piece from one datanode, under one hold of its lock.

ghost use Rattle.std.specs.Prelude.{◌≡◌, [], List, Contains, IfOk, IfErr, OnErr};
ghost use Rattle.std.specs.Option.{option_map};
ghost use Rattle.oz_replicas.specs.Cells.{IsAtRest};
ghost use Rattle.oz_replicas.specs.Nodes.{Loses, unread_of};
ghost use Rattle.oz_replicas.specs.Notes.{Goes};
ghost use Rattle.oz_replicas.specs.Outcomes.{Gives};
ghost use Rattle.oz_replicas.specs.Reading.{IsGiven};
ghost use Rattle.oz_replicas.specs.Stays.{IsIdle, Stays};
ghost use Rattle.oz_replicas.specs.declared.note.Note.{Note as AnyNote};

use crate::cell::NodeCell;
use crate::halting::note_halt;
use crate::kept::Kept;
use crate::note::Note;
use crate::noter::Noter;
use crate::unread::Unread;
use oz_core::PutRefusal;
use oz_datanode::{Datanode, NodeRefusal};
use oz_fields::{OutOfMemory, Piece};
use oz_world::Disk;
use std::alloc::Global;

/// Reads a piece from the datanode of a cell whose lock is held, and notes what came of it. It is None where the datanode
/// doesn't give so many bytes. The noter knows then what is kept beside it.
pub fn read_at<D: Disk, K: Kept<D>, N: Noter<D, K>>(
    alloc: Global,
    cell: &mut NodeCell<D, K>,
    piece: Piece,
    noter: &mut N,
) -> Result<Option<Vec<u8>>, OutOfMemory>
    requires its_block { (N.subject noter.old).block ≡ piece.block }
    requires member { Contains (N.subject noter.old).members cell.old.node.id }
    ensures given { IfOk result (λ given. (notes : List AnyNote) × (N.noted noter.old notes noter.new
        × Goes D.told D.clock D.image D.faults (N.subject noter.old) notes cell.old.node cell.new.node
        × IsGiven D.told D.clock D.image D.faults (N.subject noter.old) piece.length cell.old.node cell.new.node
        (option_map (λ bytes. bytes.items) given) notes)) }
    ensures lacks { OnErr result (N.noted noter.old [] noter.new
        × Stays D.told D.clock D.image D.faults cell.old.node cell.new.node) }
    ensures knows { N.knows noter.new cell.new.kept }
    ensures subject { N.subject noter.new ≡ N.subject noter.old }
    ensures before { IsAtRest K.stands cell.old.node cell.old.kept }
    ensures after { IsAtRest K.stands cell.new.node cell.new.kept }
{
    read_beside(alloc, &mut cell.node, &mut cell.kept, piece, noter)
}

/// Reads a piece from a datanode beside which this is kept.
fn read_beside<D: Disk, K: Kept<D>, N: Noter<D, K>>(
    alloc: Global,
    node: &mut Datanode<D>,
    kept: &mut K,
    piece: Piece,
    noter: &mut N,
) -> Result<Option<Vec<u8>>, OutOfMemory>
    requires its_block { (N.subject noter.old).block ≡ piece.block }
    requires member { Contains (N.subject noter.old).members node.old.id }
    requires idle { IsIdle node.old }
    requires stood { K.stands kept.old node.old }
    ensures given { IfOk result (λ given. (notes : List AnyNote) × (N.noted noter.old notes noter.new
        × Goes D.told D.clock D.image D.faults (N.subject noter.old) notes node.old node.new
        × IsGiven D.told D.clock D.image D.faults (N.subject noter.old) piece.length node.old node.new
        (option_map (λ bytes. bytes.items) given) notes)) }
    ensures lacks { OnErr result (N.noted noter.old [] noter.new
        × Stays D.told D.clock D.image D.faults node.old node.new) }
    ensures knows { N.knows noter.new kept.new }
    ensures subject { N.subject noter.new ≡ N.subject noter.old }
    ensures idle { IsIdle node.new }
    ensures stands { K.stands kept.new node.new }
{
    noter.ready(kept)?;
    let dn = node.id();
    let block = piece.block;
    match read_whole(alloc, node, piece) {
        Ok(bytes) => Ok(Some(bytes)),
        Err(Unread::Stopped { count }) => {
            let refusal = PutRefusal::Stopped { count };
            noter.note(kept, Note::Refused { dn, block, refusal });
            Ok(None)
        }
        Err(Unread::Halted { count }) => {
            note_halt(node, kept, block, count, noter);
            Ok(None)
        }
        Err(Unread::Bad) => {
            noter.note(kept, Note::Bad { dn, block });
            Ok(None)
        }
        Err(Unread::Absent) => Ok(None),
        Err(Unread::OutOfMemory) => Err(OutOfMemory),
    }
}

/// Reads so many bytes of a block, all that it has.
fn read_whole<D: Disk>(
    alloc: Global,
    node: &mut Datanode<D>,
    piece: Piece,
) -> Result<Vec<u8>, Unread>
    ensures gives { IfOk result (λ bytes.
        Gives D.told D.clock D.image D.faults piece.block piece.length bytes.items node.old node.new) }
    ensures loses { IfErr result (Loses D.told D.clock D.image D.faults piece.block piece.length node.old node.new) }
    ensures idle { IsIdle node.old → IsIdle node.new }
{
    let ran = !node.halted();
    match node.read(alloc, piece.block) {
        Ok(bytes) if bytes.len() == piece.length as usize => Ok(bytes),
        Ok(_) => Err(Unread::Absent),
        Err(refusal) => Err(unread(refusal, ran && node.halted())),
    }
}

/// What a refusal says of a datanode one of whose disks failed in the call or didn't.
pub(crate) fn unread(refusal: NodeRefusal, halts: bool) -> Unread
    ensures { result ≡ unread_of halts refusal }
{
    match refusal {
        NodeRefusal::Stopped { count } if halts => Unread::Halted { count },
        NodeRefusal::Stopped { count } => Unread::Stopped { count },
        NodeRefusal::Bad { .. } => Unread::Bad,
        NodeRefusal::OutOfMemory => Unread::OutOfMemory,
        NodeRefusal::NoBlock | NodeRefusal::Full { .. } | NodeRefusal::NotOpen { .. } => {
            Unread::Absent
        }
    }
}

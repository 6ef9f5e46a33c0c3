//! Copying a block out of one datanode, under one hold of its lock, and verifying it without one.

ghost use Rattle.std.specs.Prelude.{◌≡◌, [], ℕ, List, Option, None, Some, length, Contains, IfOk, IfErr, IfSome, IfNone, OnErr};
ghost use Rattle.std.specs.Option.{option_map};
ghost use Rattle.oz_datanode.specs.Unverified.{AreAsKept, joined};
ghost use Rattle.oz_replicas.specs.Cells.{IsAtRest};
ghost use Rattle.oz_replicas.specs.Nodes.{Loses};
ghost use Rattle.oz_replicas.specs.Notes.{Goes};
ghost use Rattle.oz_replicas.specs.Outcomes.{Gives};
ghost use Rattle.oz_replicas.specs.Reading.{IsGiven, Opens};
ghost use Rattle.oz_replicas.specs.Stays.{IsIdle, Stays};
ghost use Rattle.oz_replicas.specs.declared.note.Note.{Note as AnyNote};

use crate::cell::NodeCell;
use crate::halting::note_halt;
use crate::kept::Kept;
use crate::note::Note;
use crate::noter::Noter;
use crate::reading::unread;
use crate::unread::Unread;
use oz_core::PutRefusal;
use oz_datanode::{Datanode, Unverified, verified};
use oz_fields::{OutOfMemory, Piece};
use oz_world::Disk;
use std::alloc::Global;

/// Copies the chunks of a piece's block out of the datanode of a cell whose lock is held, with the digests that are kept of
/// them, and notes what came of it. It is None where the datanode doesn't give them. Whether the digests are those of the
/// chunks is left to `verified_piece`, which needs no lock. The noter knows then what is kept beside the datanode.
pub fn copy_at<D: Disk, K: Kept<D>, N: Noter<D, K>>(
    alloc: Global,
    cell: &mut NodeCell<D, K>,
    piece: Piece,
    noter: &mut N,
) -> Result<Option<Vec<Unverified>>, OutOfMemory>
    requires its_block { (N.subject noter.old).block ≡ piece.block }
    requires member { Contains (N.subject noter.old).members cell.old.node.id }
    ensures copied { IfOk result (λ copied. (notes : List AnyNote) × (N.noted noter.old notes noter.new
        × Goes D.told D.clock D.image D.faults (N.subject noter.old) notes cell.old.node cell.new.node
        × ((given : Option (List ℕ)) → Opens piece.length (option_map (λ chunks. chunks.items) copied) given →
        IsGiven D.told D.clock D.image D.faults (N.subject noter.old) piece.length cell.old.node cell.new.node
        given notes))) }
    ensures lacks { OnErr result (N.noted noter.old [] noter.new
        × Stays D.told D.clock D.image D.faults cell.old.node cell.new.node) }
    ensures knows { N.knows noter.new cell.new.kept }
    ensures subject { N.subject noter.new ≡ N.subject noter.old }
    ensures before { IsAtRest K.stands cell.old.node cell.old.kept }
    ensures after { IsAtRest K.stands cell.new.node cell.new.kept }
{
    copy_beside(alloc, &mut cell.node, &mut cell.kept, piece, noter)
}

/// Copies them out of a datanode beside which this is kept.
fn copy_beside<D: Disk, K: Kept<D>, N: Noter<D, K>>(
    alloc: Global,
    node: &mut Datanode<D>,
    kept: &mut K,
    piece: Piece,
    noter: &mut N,
) -> Result<Option<Vec<Unverified>>, OutOfMemory>
    requires its_block { (N.subject noter.old).block ≡ piece.block }
    requires member { Contains (N.subject noter.old).members node.old.id }
    requires idle { IsIdle node.old }
    requires stood { K.stands kept.old node.old }
    ensures copied { IfOk result (λ copied. (notes : List AnyNote) × (N.noted noter.old notes noter.new
        × Goes D.told D.clock D.image D.faults (N.subject noter.old) notes node.old node.new
        × ((given : Option (List ℕ)) → Opens piece.length (option_map (λ chunks. chunks.items) copied) given →
        IsGiven D.told D.clock D.image D.faults (N.subject noter.old) piece.length node.old node.new given notes))) }
    ensures lacks { OnErr result (N.noted noter.old [] noter.new
        × Stays D.told D.clock D.image D.faults node.old node.new) }
    ensures knows { N.knows noter.new kept.new }
    ensures subject { N.subject noter.new ≡ N.subject noter.old }
    ensures idle { IsIdle node.new }
    ensures stands { K.stands kept.new node.new }
{
    noter.ready(kept)?;
    let dn = node.id();
    let block = piece.block;
    match copy_whole(alloc, node, piece) {
        Ok(chunks) => Ok(Some(chunks)),
        Err(Unread::Stopped { count }) => {
            let refusal = PutRefusal::Stopped { count };
            noter.note(kept, Note::Refused { dn, block, refusal });
            Ok(None)
        }
        Err(Unread::Halted { count }) => {
            note_halt(node, kept, block, count, noter);
            Ok(None)
        }
        Err(Unread::Bad) => {
            noter.note(kept, Note::Bad { dn, block });
            Ok(None)
        }
        Err(Unread::Absent) => Ok(None),
        Err(Unread::OutOfMemory) => Err(OutOfMemory),
    }
}

/// Copies the chunks of a block.
fn copy_whole<D: Disk>(
    alloc: Global,
    node: &mut Datanode<D>,
    piece: Piece,
) -> Result<Vec<Unverified>, Unread>
    ensures gives { IfOk result (λ chunks. AreAsKept chunks.items → length (joined chunks.items) ≡ piece.length →
        Gives D.told D.clock D.image D.faults piece.block piece.length (joined chunks.items) node.old node.new) }
    ensures stays { IfOk result (λ chunks. Stays D.told D.clock D.image D.faults node.old node.new) }
    ensures loses { IfErr result (Loses D.told D.clock D.image D.faults piece.block piece.length node.old node.new) }
    ensures idle { IsIdle node.old → IsIdle node.new }
{
    let ran = !node.halted();
    match node.read_unverified(alloc, piece.block) {
        Ok(chunks) => Ok(chunks),
        Err(refusal) => Err(unread(refusal, ran && node.halted())),
    }
}

/// The bytes of a piece whose block was copied, where each chunk has the digest that is kept of it and they are as many as
/// the piece has. Where it is None the piece is to be read from the datanode, which says why.
pub fn verified_piece(
    alloc: Global,
    piece: Piece,
    chunks: &[Unverified],
) -> Result<Option<Vec<u8>>, OutOfMemory>
    ensures opens { IfOk result (λ given. IfSome given (λ bytes.
        Opens piece.length (Some chunks.now) (Some bytes.items))) }
    ensures differs { IfOk result (λ given. IfNone given
        ((bytes : List ℕ) → Opens piece.length (Some chunks.now) (Some bytes) → ⊥)) }
{
    let Some(bytes) = verified(alloc, chunks)? else {
        return Ok(None);
    };
    if bytes.len() != piece.length as usize {
        return Ok(None);
    }
    Ok(Some(bytes))
}

//! Noting that a disk failed.

ghost use Rattle.std.specs.Prelude.{◌≡◌, ◌≤◌, [], ◌∷◌};
ghost use Rattle.oz_core.specs.declared.event.PutRefusal.TheVariants as refusals;
ghost use Rattle.oz_datanode.specs.Datanode.{State};
ghost use Rattle.oz_replicas.specs.Notes.{IsMember};
ghost use Rattle.oz_replicas.specs.Outcomes.{Halts};
ghost use Rattle.oz_replicas.specs.Stays.{Stays};
ghost use Rattle.oz_replicas.specs.declared.note.Note.TheVariants as notes;

use crate::kept::Kept;
use crate::note::Note;
use crate::noter::Noter;
use oz_core::PutRefusal;
use oz_datanode::Datanode;
use oz_fields::Block;
use oz_world::Disk;

/// Notes that a disk of the datanode failed in a call, and that this is its answer.
pub(crate) fn note_halt<D: Disk, K: Kept<D>, N: Noter<D, K>>(
    node: &Datanode<D>,
    kept: &mut K,
    block: Block,
    count: u64,
    noter: &mut N,
) -> PutRefusal
    requires block { (N.subject noter.old).block ≡ block }
    requires room { 2 ≤ K.room kept.old }
    requires halts { (old : State D) × ((after : State D) × (K.stands kept.old old
        × IsMember (N.subject noter.old) node.now.id old
        × Halts D.told D.clock D.image D.faults block (N.subject noter.old).bytes old after count
        × Stays D.told D.clock D.image D.faults after node.now)) }
    ensures answer { result ≡ refusals.Stopped count }
    ensures noted { N.noted noter.old (notes.Halt node.now.id count
        ∷ notes.Refused node.now.id block (refusals.Stopped count) ∷ []) noter.new }
    ensures knows { N.knows noter.new kept.new }
    ensures subject { N.subject noter.new ≡ N.subject noter.old }
    ensures stands { K.stands kept.new node.now }
{
    let dn = node.id();
    let refusal = PutRefusal::Stopped { count };
    noter.note(kept, Note::Halt { dn, count });
    noter.note(kept, Note::Refused { dn, block, refusal });
    refusal
}

//! Who is told what comes of a block at its datanodes.

ghost use Rattle.std.specs.Prelude.{◌≡◌, ◌≤◌, ◌+◌, List, [], ◌∷◌, ◌++◌, OnOk};
ghost use Rattle.oz_datanode.specs.Datanode.{State};
ghost use Rattle.oz_replicas.specs.Notes.{Subject, IfPut, Leads};
ghost use Rattle.oz_replicas.specs.declared.note.Note.{Note as AnyNote};

use crate::kept::Kept;
use crate::note::Note;
use oz_fields::OutOfMemory;
use oz_world::Disk;

/// Notes what comes of one block, while the datanode's lock is held. What it notes changes the value that is kept beside the
/// datanode.
pub trait Noter<D: Disk, K: Kept<D>> {
    /// The block, the datanodes that are asked for it, and the bytes that are put.
    ghost subject: { Self → Subject };

    /// These notes, in their order, lead from the first to the second.
    ghost noted: { Self → List AnyNote → Self → Type 0 };

    /// It knows all that is kept beside a datanode.
    ghost knows: { Self → K → Type 0 };

    /// It may note that the block came to be held at the datanode beside which this is kept.
    ghost may_put: { Self → K → Type 0 };

    /// Makes room for two notes, and sees that the block may be put. It is called once under each lock before anything is done
    /// there.
    fn ready(&mut self, kept: &mut K) -> Result<(), OutOfMemory>
        ensures subject { subject self.new ≡ subject self.old }
        ensures noted { noted self.old [] self.new }
        ensures knows { knows self.new kept.new }
        ensures room { OnOk result (2 ≤ K.room kept.new) }
        ensures may_put { OnOk result (may_put self.new kept.new) }
        ensures stands { (node : State D) → K.stands kept.old node → K.stands kept.new node };

    /// Notes what happened: at most twice after each time that it was made ready, and of these first that the block came to be held.
    fn note(&mut self, kept: &mut K, note: Note)
        requires room { 1 ≤ K.room kept.old }
        requires may_put { IfPut note (may_put self.old kept.old) }
        requires happened { (old : State D) × ((new : State D) × (K.stands kept.old old
            × Leads D.told D.clock D.image D.faults (subject self.old) note old new)) }
        ensures room { K.room kept.old ≤ K.room kept.new + 1 }
        ensures subject { subject self.new ≡ subject self.old }
        ensures noted { noted self.old (note ∷ []) self.new }
        ensures knows { knows self.new kept.new }
        ensures stands { (old new : State D) → K.stands kept.old old →
            Leads D.told D.clock D.image D.faults (subject self.old) note old new → K.stands kept.new new };

    /// What led on from one to the next led from the first to the last.
    ghost joins: { (first second third : Self) (before after : List AnyNote) → noted first before second
        → noted second after third → noted first (before ++ after) third };
}

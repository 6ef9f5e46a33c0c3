//! What is kept beside a datanode.

ghost use Rattle.std.specs.Prelude.{ℕ};
ghost use Rattle.oz_datanode.specs.Datanode.{State};
ghost use Rattle.oz_replicas.specs.Stays.{Stays};

use oz_world::Disk;

/// A value that is kept beside a datanode, such as the seat whose events are those of this datanode, and stands for it.
pub trait Kept<D: Disk> {
    /// The datanodes for which a value stands.
    ghost stands: { Self → State D → Type 0 };

    /// How many notes a value has room for.
    ghost room: { Self → ℕ };

    /// It stands for a datanode as long as nothing happens there that is noted.
    ghost stays: { (kept : Self) (old new : State D) → Stays D.told D.clock D.image D.faults old new → stands kept old
        → stands kept new };
}

/// Stands for every datanode.
impl<D: Disk> Kept<D> for () {
    ghost stands = { λ kept node. Unit {0} };

    ghost room = { λ kept. 2 };

    ghost stays = { λ kept old new same stood. tt };
}

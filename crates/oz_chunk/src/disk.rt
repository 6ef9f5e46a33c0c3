//! What is done with the disk of slots.

ghost use Rattle.std.specs.Prelude.{◌≡◌, ◌+◌, ◌≤◌, ◌<◌, length, IfOk, IfSome, OnOk};
ghost use Rattle.oz_chunk.specs.Disk.{Writes, Syncs, Empties};
ghost use Rattle.oz_chunk.specs.Slots.{start_of};
ghost use Rattle.oz_world.specs.Disk.{seen, Same, Stands};
ghost use Rattle.oz_world.specs.Faults.{HasCause};

use crate::table::SLOT_SIZE;
use oz_world::{Disk, Failed};

/// Fills a slot.
pub(crate) fn put<D: Disk>(disk: &mut D, slot: u32, filling: &[u8]) -> Result<(), Failed>
    requires there { IfSome (D.told disk.old) (λ before. start_of slot ≤ length before) }
    requires size { length filling.now ≡ SLOT_SIZE }
    ensures { Writes slot filling.now
        (seen (D.told disk.old) (D.clock disk.old) (D.image disk.old) (D.faults disk.old))
        (seen (D.told disk.new) (D.clock disk.new) (D.image disk.new) (D.faults disk.new))
        result }
{
    disk.write_at(slot as u64 * SLOT_SIZE, filling)
}

/// Makes all that was written stable.
pub(crate) fn settle<D: Disk>(disk: &mut D) -> Result<(), Failed>
    ensures { Syncs
        (seen (D.told disk.old) (D.clock disk.old) (D.image disk.old) (D.faults disk.old))
        (seen (D.told disk.new) (D.clock disk.new) (D.image disk.new) (D.faults disk.new))
        result }
{
    disk.sync()
}

/// The length of the disk, once all of it is stable.
pub(crate) fn stable_size<D: Disk>(disk: &mut D) -> Result<u64, Failed>
    ensures size { IfOk result (λ size. IfSome (D.told disk.old) (λ bytes. size ≡ length bytes)) }
    ensures synced { Syncs
        (seen (D.told disk.old) (D.clock disk.old) (D.image disk.old) (D.faults disk.old))
        (seen (D.told disk.new) (D.clock disk.new) (D.image disk.new) (D.faults disk.new))
        result }
{
    settle(disk)?;
    disk.len()
}

/// Leaves no byte.
pub(crate) fn empty<D: Disk>(disk: &mut D) -> Result<(), Failed>
    ensures { Empties
        (seen (D.told disk.old) (D.clock disk.old) (D.image disk.old) (D.faults disk.old))
        (seen (D.told disk.new) (D.clock disk.new) (D.image disk.new) (D.faults disk.new))
        result }
{
    disk.cut(0)?;
    disk.sync()
}

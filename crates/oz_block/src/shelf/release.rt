//! How slots are set free whose blocks are gone.

ghost use Rattle.std.specs.Prelude.{◌≡◌, ℕ, false, if◌then◌else◌};
ghost use Rattle.oz_chunk.specs.Taken.{is_taken};
ghost use Rattle.oz_block.specs.shelf.Release.{is_one_of};

use crate::shelf::shelf::Shelf;
use oz_chunk::Slots;
use oz_world::Disk;

impl<D: Disk> Shelf<D> {
    /// Sets slots free, without taking memory. Their bytes stay. Whoever calls this has seen that no block uses them, and
    /// that this is stable.
    pub fn release(&mut self, slots: &[u32])
        ensures free { (slot : ℕ) → is_taken self.new.slots.taken slot
            ≡ (if is_one_of slots.now slot then false else is_taken self.old.slots.taken slot) }
        ensures disk { self.new.slots.disk ≡ self.old.slots.disk }
        ensures written { self.new.written ≡ self.old.written }
        ensures failed { self.new.failed ≡ self.old.failed }
    {
        free_each(&mut self.slots, slots);
    }
}

fn free_each<D: Disk>(slots: &mut Slots<D>, numbers: &[u32])
    ensures free { (slot : ℕ) → is_taken slots.new.taken slot
        ≡ (if is_one_of numbers.now slot then false else is_taken slots.old.taken slot) }
    ensures disk { slots.new.disk ≡ slots.old.disk }
{
    for number in numbers {
        slots.free(*number);
    }
}

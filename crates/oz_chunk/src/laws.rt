//! What writes do to the slots of a disk.

ghost use Rattle.std.specs.Prelude.{◌≡◌, ◌≤◌, ℕ, Bool, false, List, length, take};
ghost use Rattle.oz_chunk.specs.Slots.{start_of, slot_bytes, padded, IsWithin, Keeps};
ghost use Rattle.oz_chunk.specs.declared.table.TheConstants.{SLOT_SIZE};
ghost use Rattle.oz_world.specs.Disk.{overwritten, Torn};

/// What was written to a slot stands in it, and begins with the chunk.
pub fn a_chunk_is_read_as_it_was_written()
    ensures stands { (slot : ℕ) (chunk bytes : List ℕ) →
        start_of slot ≤ length bytes → length chunk ≤ SLOT_SIZE →
        IsWithin slot (overwritten (start_of slot) (padded chunk) bytes)
        × (slot_bytes slot (overwritten (start_of slot) (padded chunk) bytes) ≡ padded chunk) }
    ensures begins { (chunk : List ℕ) → take (length chunk) (padded chunk) ≡ chunk }
{}

/// A write to a slot, or a part of it, keeps the others; writes one after another keep what each of them keeps.
pub fn writes_keep_the_other_slots()
    ensures one { (kept : ℕ → Bool) (slot : ℕ) (before after : List ℕ) → kept slot ≡ false →
        Torn (start_of slot) SLOT_SIZE before after → Keeps kept before after }
    ensures many { (kept : ℕ → Bool) (before between after : List ℕ) →
        Keeps kept before between → Keeps kept between after → Keeps kept before after }
{}

//! What a write or a cut leaves as it was, where a stop comes in its middle.

ghost use Rattle.std.specs.Prelude.{◌≡◌, ◌≤◌, ◌+◌, ℕ, List, length, take, slice_range};
ghost use Rattle.oz_world.specs.Disk.{overwritten, Torn, CutShort};

/// A write that was done in part keeps each stretch of bytes that ends where it begins or before, and
/// each that begins where it ends or after.
pub fn a_torn_write_keeps_the_rest()
    ensures before_it { (pos count from to : ℕ) (before after : List ℕ) →
        Torn pos count before after → to ≤ pos → to ≤ length before →
        slice_range after from to ≡ slice_range before from to }
    ensures past_it { (pos count from to : ℕ) (before after : List ℕ) →
        Torn pos count before after → pos + count ≤ from →
        slice_range after from to ≡ slice_range before from to }
{}

/// All of a write is a part of it, and so is nothing.
pub fn a_write_may_come_about_wholly_or_not_at_all()
    ensures wholly { (pos : ℕ) (others bytes : List ℕ) →
        Torn pos (length others) bytes (overwritten pos others bytes) }
    ensures not_at_all { (pos count : ℕ) (bytes : List ℕ) → Torn pos count bytes bytes }
{}

/// A cut that was done in part keeps each stretch of bytes that ends at its size or before.
pub fn a_cut_in_part_keeps_what_stands_before_it()
    ensures { (size from to : ℕ) (before after : List ℕ) →
        CutShort size before after → to ≤ size → to ≤ length before →
        slice_range after from to ≡ slice_range before from to }
{}

/// All of a cut is a part of it, and so is nothing.
pub fn a_cut_may_come_about_wholly_or_not_at_all()
    ensures wholly { (size : ℕ) (bytes : List ℕ) → CutShort size bytes (take size bytes) }
    ensures not_at_all { (size : ℕ) (bytes : List ℕ) → CutShort size bytes bytes }
{}

//! What the bytes of the storage container manager's journal stand for.

ghost use Rattle.std.specs.Prelude.{◌≡◌, ◌≢◌, ℕ, List};
ghost use Rattle.oz_scm.specs.grants.Made.{Made};
ghost use Rattle.oz_scm.specs.Scm.{StandsFor, IsOfNodes, IsDamagedDisk};

use crate::grants::bodies_make_one_thing;
use oz_journal::bytes_stand_for_one_thing;

/// With one number of datanodes, bytes stand for one thing, or name another number, or are damaged at one place, and
/// for no two of these.
pub fn a_disk_stands_for_one_thing()
    ensures one_thing { (given : ℕ) (bytes : List ℕ) (made other : Made) →
        StandsFor given bytes made → StandsFor given bytes other → made ≡ other }
    ensures one_number { (given recorded : ℕ) (bytes : List ℕ) (made : Made) →
        StandsFor given bytes made → IsOfNodes recorded bytes → recorded ≡ given }
    ensures not_both { (given : ℕ) (bytes : List ℕ) (made : Made) (offset : ℕ) →
        StandsFor given bytes made → IsDamagedDisk bytes offset → ⊥ }
    ensures neither { (recorded : ℕ) (bytes : List ℕ) (offset : ℕ) →
        IsOfNodes recorded bytes → IsDamagedDisk bytes offset → ⊥ }
    ensures one_fault { (bytes : List ℕ) (offset place : ℕ) →
        IsDamagedDisk bytes offset → IsDamagedDisk bytes place → offset ≡ place }
{
    bytes_stand_for_one_thing();
    bodies_make_one_thing();
}

//! What the bytes of a datanode's journal stand for.

ghost use Rattle.std.specs.Prelude.{◌≡◌, ℕ, List};
ghost use Rattle.oz_block.specs.Blocks.{StandsFor, IsDamagedDisk};
ghost use Rattle.oz_entries.specs.Node.{Node};

use oz_entries::bodies_make_one_node;
use oz_journal::bytes_stand_for_one_thing;

/// Bytes stand for one node, or are damaged at one place, and not both.
pub fn a_disk_stands_for_one_node()
    ensures one_node { (bytes : List ℕ) (node other : Node) →
        StandsFor bytes node → StandsFor bytes other → node ≡ other }
    ensures not_both { (bytes : List ℕ) (node : Node) (offset : ℕ) →
        StandsFor bytes node → IsDamagedDisk bytes offset → ⊥ }
    ensures one_fault { (bytes : List ℕ) (offset place : ℕ) →
        IsDamagedDisk bytes offset → IsDamagedDisk bytes place → offset ≡ place }
{
    bytes_stand_for_one_thing();
    bodies_make_one_node();
}

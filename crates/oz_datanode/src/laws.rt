//! What the bytes of a block are whose chunks came in any order, and what two disks stand for.

ghost use Rattle.std.specs.Prelude.{◌≡◌, ◌*◌, ◌<◌, ◌≤◌, ◌⊎◌, ℕ, Bool, List, true, length, take, drop, Option, IfSome};
ghost use Rattle.oz_block.specs.Blocks.{StandsFor};
ghost use Rattle.oz_chunk.specs.declared.table.TheConstants.{SLOT_SIZE};
ghost use Rattle.oz_datanode.specs.Datanode.{State, BothStandFor, AreDamaged, DisksGoOn, meta_of, slots_of, count_of};
ghost use Rattle.oz_datanode.specs.Pairs.{Content, Has, HaveAll};
ghost use Rattle.oz_datanode.specs.Writing.{HasPart, intact};
ghost use Rattle.oz_entries.specs.Node.{Node};
ghost use Rattle.oz_fields.specs.declared.block.Block.{Block};
ghost use Rattle.oz_journal.specs.Load.{IsLeftAlone};
ghost use Rattle.oz_block.specs.shelf.Written.{makes, row_of};
ghost use Rattle.oz_block.specs.declared.shelf.written.Written.{Written};
ghost use Rattle.oz_world.specs.Faults.{Rose};

use oz_block::a_disk_stands_for_one_node;
use oz_journal::bytes_left_alone_stand_for_the_same;
use oz_world::Disk;

/// Where the chunks that were written of a block make as many bytes as these are, and each was written with its part of
/// them, they make these bytes, with their digests.
pub fn parts_make_a_block()
    ensures { (block : Block) (bytes : List ℕ) (written : List Written) (told : Option (List ℕ)) →
        makes written block (length bytes) ≡ true →
        ((place : ℕ) → place * SLOT_SIZE < length bytes →
        HasPart block place (take SLOT_SIZE (drop (place * SLOT_SIZE) bytes)) written told) →
        IfSome told (Has (intact bytes) (row_of written block (length bytes))) }
{}

/// Two disks stand for one node, or are damaged in one place of one of them, and not both.
pub fn what_loads_is_not_damaged()
    ensures one_node { (journal slots : List ℕ) (node other : Node) →
        BothStandFor journal slots node → BothStandFor journal slots other → node ≡ other }
    ensures one_fault { (journal slots : List ℕ) (of_slots of_others : Bool) (offset place : ℕ) →
        AreDamaged of_slots journal slots offset → AreDamaged of_others journal slots place →
        (of_slots ≡ of_others) × (offset ≡ place) }
    ensures not_both { (journal slots : List ℕ) (node : Node) (of_slots : Bool) (offset : ℕ) →
        BothStandFor journal slots node → AreDamaged of_slots journal slots offset → ⊥ }
    ensures one_of_them { (journal slots : List ℕ) (node : Node) → StandsFor journal node →
        BothStandFor journal slots node ⊎ ((offset : ℕ) × AreDamaged true journal slots offset) }
{
    a_disk_stands_for_one_node();
}

/// Where a load left the journal alone, both disks stand for the node for which they stood, with the same blocks, or are
/// damaged where they were.
pub fn what_a_load_leaves_loads_alike()
    ensures node { (before after slots : List ℕ) (node : Node) → IsLeftAlone before after →
        BothStandFor before slots node → BothStandFor after slots node }
    ensures damaged { (before after slots : List ℕ) (of_slots : Bool) (offset : ℕ) → IsLeftAlone before after →
        AreDamaged of_slots before slots offset → AreDamaged of_slots after slots offset }
    ensures blocks { (before after slots : List ℕ) (contents : Block → Content) → IsLeftAlone before after →
        ((kept : Node) → StandsFor before kept → HaveAll contents kept slots) →
        (kept : Node) → StandsFor after kept → HaveAll contents kept slots }
{
    bytes_left_alone_stand_for_the_same();
}

/// Disks go on from one call to the next. How often both have failed never falls, and rises where that of one of them does.
pub fn disks_go_on_and_count<D: Disk>()
    ensures same { (node : State D) → DisksGoOn D.told D.faults node node }
    ensures joined { (one two three : State D) → DisksGoOn D.told D.faults one two →
        DisksGoOn D.told D.faults two three → DisksGoOn D.told D.faults one three }
    ensures never_falls { (old new : State D) → DisksGoOn D.told D.faults old new →
        count_of D.faults old ≤ count_of D.faults new }
    ensures rises { (old new : State D) → DisksGoOn D.told D.faults old new →
        Rose (D.faults (meta_of old)) (D.faults (meta_of new)) ⊎ Rose (D.faults (slots_of old)) (D.faults (slots_of new)) →
        Rose (count_of D.faults old) (count_of D.faults new) }
{}

/// A count that rose has risen since each one that was no greater before, and until each one that is no smaller after.
pub fn a_count_that_rose_has_risen()
    ensures since { (first before after : ℕ) → first ≤ before → Rose before after → Rose first after }
    ensures until { (before after last : ℕ) → Rose before after → after ≤ last → Rose before last }
{}

//! What holds of all datanodes whose rows are what a story says.

ghost use Rattle.std.specs.Prelude.{◌≤◌, ℕ, List, Ok, length};
ghost use Rattle.oz_block.specs.Blocks.{StandsFor};
ghost use Rattle.oz_block.specs.Changes.{Changes, Wipes};
ghost use Rattle.oz_core.specs.declared.event.Event.{Event as AnyEvent};
ghost use Rattle.oz_core.specs.declared.opening.Opening.{Opening as AnyOpening};
ghost use Rattle.oz_core.specs.Law.{IsFull};
ghost use Rattle.oz_datanode.specs.Copying.{Copies};
ghost use Rattle.oz_datanode.specs.Datanode.{State as NodeState, Runs, node_in};
ghost use Rattle.oz_datanode.specs.Pairs.{journal_seen};
ghost use Rattle.oz_entries.specs.Node.{MayFollow, Node};
ghost use Rattle.oz_entries.specs.declared.entry.Entry.{Entry as AnyEntry};
ghost use Rattle.oz_fields.specs.declared.block.Block.{Block as AnyBlock};
ghost use Rattle.oz_fields.specs.declared.block.TheConstants.{LONGEST_PIECE};
ghost use Rattle.oz_node_events.specs.filled.Filled.{BlocksHaveSlots};
ghost use Rattle.oz_node_events.specs.full.Full.{JournalStands, RowsAreHeld};
ghost use Rattle.oz_replicas.specs.Outcomes.{IsFull as IsFilled};

use crate::filled::{blocks_have_slots_of_their_own, slots_are_taken_by_blocks_or_chunks};
use oz_entries::{an_entry_is_one_body_more, bodies_make_one_node};
use oz_journal::bytes_stand_for_one_thing;
use oz_world::Disk;

/// A datanode that refuses a block since no slot is left for it is full by the law, where its rows are those of the blocks that
/// the story says it holds.
pub fn a_filled_datanode_is_full<D: Disk>()
    ensures { (opening : AnyOpening) (story : List AnyEvent) (dn : ℕ) (node : NodeState D) (block : AnyBlock)
        (bytes : List ℕ) (used asked capacity : ℕ) →
        BlocksHaveSlots (node_in node) → RowsAreHeld opening story dn (node_in node) →
        length bytes ≤ LONGEST_PIECE → IsFilled D.faults block bytes node used asked capacity →
        IsFull opening story dn used asked capacity }
{
    slots_are_taken_by_blocks_or_chunks();
}

/// Where a journal stands for what a datanode holds each block has its slots. It stands for it still behind a put or a copy of a
/// block, behind another change that may follow, and behind a wipe.
pub fn a_journal_keeps_slots_apart<D: Disk>()
    ensures loaded { (bytes : List ℕ) (node : Node) → StandsFor bytes node → BlocksHaveSlots node }
    ensures apart { (node : NodeState D) → JournalStands D.told node → BlocksHaveSlots (node_in node) }
    ensures put { (block : AnyBlock) (bytes : List ℕ) (old new : NodeState D) → Runs D.faults old →
        JournalStands D.told old → Copies D.told D.clock D.image D.faults block bytes old new →
        JournalStands D.told new }
    ensures changed { (entry : AnyEntry) (old new : NodeState D) → MayFollow (node_in old) entry →
        JournalStands D.told old →
        Changes {T = Unit {0}} entry old.blocks new.blocks (journal_seen D.told D.clock D.image D.faults old)
        (journal_seen D.told D.clock D.image D.faults new) (Ok tt) →
        JournalStands D.told new }
    ensures wiped { (old new : NodeState D) → JournalStands D.told old →
        Wipes {T = Unit {0}} old.blocks new.blocks (journal_seen D.told D.clock D.image D.faults old)
        (journal_seen D.told D.clock D.image D.faults new) (Ok tt) →
        JournalStands D.told new }
{
    blocks_have_slots_of_their_own();
    bytes_stand_for_one_thing();
    bodies_make_one_node();
    an_entry_is_one_body_more();
}

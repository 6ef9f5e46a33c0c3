//! What holds of the slots of all datanodes.

ghost use Rattle.std.specs.Prelude.{◌≡◌, ◌+◌, ◌≤◌, ◌<◌, ◌||◌, ℕ, List, true, length, map, sum};
ghost use Rattle.oz_chunk.specs.declared.table.TheConstants.{SLOTS as SLOT_COUNT};
ghost use Rattle.oz_container.specs.declared.state.State.{State as AnyState};
ghost use Rattle.oz_dellog.specs.declared.txn.Txn.{Txn as AnyTxn};
ghost use Rattle.oz_entries.specs.Build.{Makes};
ghost use Rattle.oz_entries.specs.Held.{any_in};
ghost use Rattle.oz_entries.specs.Node.{Node, MayFollow, after_entry, empty_node, is_used};
ghost use Rattle.oz_entries.specs.declared.entry.Entry.{Entry as AnyEntry};
ghost use Rattle.oz_entries.specs.declared.entry.Entry.TheVariants.{Apply, Drop, SetState};
ghost use Rattle.oz_entries.specs.declared.row.Chunk.{Chunk as AnyChunk};
ghost use Rattle.oz_fields.specs.declared.block.Block.{Block as AnyBlock};
ghost use Rattle.oz_node_events.specs.filled.Filled.{BlocksHaveSlots, AreHeldIn, slots_in};

/// Where nothing is held each block has its slots, and it does so behind each entry that may follow: so it is with
/// whatever the bodies of a journal make. Behind an entry that puts no block it does so whether or not that may follow.
pub fn blocks_have_slots_of_their_own()
    ensures none { BlocksHaveSlots empty_node }
    ensures kept { (node : Node) (entry : AnyEntry) → BlocksHaveSlots node → MayFollow node entry →
        BlocksHaveSlots (after_entry entry node) }
    ensures state { (node : Node) (container : ℕ) (state : AnyState) → BlocksHaveSlots node →
        BlocksHaveSlots (after_entry (SetState container state) node) }
    ensures applied { (node : Node) (txn : AnyTxn) → BlocksHaveSlots node →
        BlocksHaveSlots (after_entry (Apply txn) node) }
    ensures dropped { (node : Node) (container : ℕ) → BlocksHaveSlots node →
        BlocksHaveSlots (after_entry (Drop container) node) }
    ensures made { (bodies : List (List ℕ)) (node : Node) → Makes bodies node → BlocksHaveSlots node }
{}

/// The blocks that are held take no more slots than there are. Where each slot is used by a block or has one of these
/// chunks, those that blocks don't use are no more than the chunks.
pub fn slots_are_taken_by_blocks_or_chunks()
    ensures within { (node : Node) (blocks : List AnyBlock) → BlocksHaveSlots node → AreHeldIn node blocks →
        sum (map (slots_in node) blocks) ≤ SLOT_COUNT }
    ensures full { (node : Node) (blocks : List AnyBlock) (chunks : List AnyChunk) →
        BlocksHaveSlots node → AreHeldIn node blocks →
        ((slot : ℕ) → slot < SLOT_COUNT → (is_used node slot || any_in chunks slot) ≡ true) →
        (others : ℕ) × (others ≤ length chunks)
        × (SLOT_COUNT ≡ sum (map (slots_in node) blocks) + others) }
{}

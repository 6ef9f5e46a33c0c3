//! The blocks that live snapshots have, read bucket by bucket.

ghost use Rattle.std.specs.Prelude.{◌≡◌, ◌||◌, ◌↔◌, true, OnOk, IfOk};
ghost use Rattle.std.specs.List.{list_any};
ghost use Rattle.oz_effects.specs.changes.Steps.{holds as does_hold};
ghost use Rattle.oz_fields.specs.declared.block.Block.{Block as AnyBlock};
ghost use Rattle.oz_reclaim.specs.sweep.Filing.{Forgets, ForgetsOf, Loses, keeps};
ghost use Rattle.oz_reclaim.specs.sweep.Kept.{AreKept, AreRight, IsKept, set_of};
ghost use Rattle.oz_reclaim.specs.sweep.Notes.{up_to};
ghost use Rattle.oz_rows.specs.RowMaps.{row_of};

use crate::reaching::{add_row, is_of_live};
use crate::sweep::notes::Note;
use oz_effects::{Part, RowRef, first_key, part_rows};
use oz_fields::{Block, Name, OutOfMemory};
use oz_rows::RowKey;
use oz_sorted::SortedMap;
use oz_tables::Tables;
use std::alloc::Global;
use std::collections::BTreeSet;

/// Whether a live snapshot of the bucket has the block. The blocks of the bucket's live snapshots are read once, where the
/// block of a deleted row is first asked for.
pub(crate) fn is_kept(
    alloc: Global,
    durable: &Tables,
    sets: &mut SortedMap<RowKey, BTreeSet<Block>>,
    volume: &Name,
    bucket: &Name,
    block: &Block,
) -> Result<bool, OutOfMemory>
    ensures told { IfOk result (λ kept. AreRight (row_of durable.now.rows) sets.old.entries
        → (kept ≡ true) ↔ IsKept (row_of durable.now.rows) volume.now bucket.now block.now) }
    ensures still { AreRight (row_of durable.now.rows) sets.old.entries → AreRight (row_of durable.now.rows) sets.new.entries }
{
    let of_bucket = RowKey::of_bucket(alloc, volume, bucket)?;
    if let Some(blocks) = sets.get(&of_bucket) {
        return Ok(is_held(blocks, block));
    }
    let blocks = kept_blocks(alloc, durable, volume, bucket)?;
    let kept = is_held(&blocks, block);
    sets.reserve(alloc, 1)?;
    sets.insert(of_bucket, blocks);
    Ok(kept)
}

pub(crate) fn is_held(blocks: &BTreeSet<Block>, block: &Block) -> bool
    ensures { result ≡ does_hold blocks.now block.now }
{
    blocks.contains(block)
}

/// The blocks that live snapshots of the bucket have.
fn kept_blocks(
    alloc: Global,
    durable: &Tables,
    volume: &Name,
    bucket: &Name,
) -> Result<BTreeSet<Block>, OutOfMemory>
    ensures { IfOk result (AreKept (row_of durable.now.rows) volume.now bucket.now) }
{
    durable.rows_are_in_order();
    let start = first_key(alloc, Part::SnapshotKeys, volume, bucket)?;
    let found = part_rows(alloc, durable, Part::SnapshotKeys, volume, bucket, &start)?;
    let mut blocks = BTreeSet::new(alloc);
    add_live(alloc, durable, &mut blocks, found.as_slice())?;
    Ok(blocks)
}

/// Adds the blocks of those rows that are the keys of live snapshots.
fn add_live(
    alloc: Global,
    durable: &Tables,
    blocks: &mut BTreeSet<Block>,
    found: &[RowRef],
) -> Result<(), OutOfMemory>
    ensures { OnOk result ((block : AnyBlock) → does_hold blocks.new block
        ≡ (does_hold blocks.old block || list_any (keeps (row_of durable.now.rows) block) found.now)) }
{
    for entry in found {
        add_entry(alloc, durable, blocks, entry)?;
    }
    Ok(())
}

fn add_entry(
    alloc: Global,
    durable: &Tables,
    blocks: &mut BTreeSet<Block>,
    entry: &RowRef,
) -> Result<(), OutOfMemory>
    ensures { OnOk result ((block : AnyBlock) → does_hold blocks.new block
        ≡ (does_hold blocks.old block || keeps (row_of durable.now.rows) block entry.now)) }
{
    if is_of_live(alloc, durable, entry.key)? {
        return add_row(blocks, entry.row);
    }
    Ok(())
}

/// Lets the sets go that were read of buckets of whose snapshots there are notes up to this index.
pub(crate) fn forget_touched(
    alloc: Global,
    sets: &mut SortedMap<RowKey, BTreeSet<Block>>,
    notes: &[Note],
    upto: u64,
) -> Result<(), OutOfMemory>
    ensures forgets { OnOk result (Forgets (up_to upto notes.now) sets.old.entries sets.new.entries) }
    ensures fewer { Loses sets.old.entries sets.new.entries }
{
    for note in notes {
        if note.index <= upto {
            forget(alloc, sets, &note.key)?;
        }
    }
    Ok(())
}

/// Lets the set of the bucket go of which this snapshot is, where a snapshot has the key.
fn forget(
    alloc: Global,
    sets: &mut SortedMap<RowKey, BTreeSet<Block>>,
    key: &RowKey,
) -> Result<(), OutOfMemory>
    ensures forgets { OnOk result (ForgetsOf key.now sets.old.entries sets.new.entries) }
    ensures fewer { Loses sets.old.entries sets.new.entries }
{
    match key {
        RowKey::Snapshot { volume, bucket, .. } => {
            let of_bucket = RowKey::of_bucket(alloc, volume, bucket)?;
            sets.remove(&of_bucket);
            Ok(())
        }
        _ => Ok(()),
    }
}

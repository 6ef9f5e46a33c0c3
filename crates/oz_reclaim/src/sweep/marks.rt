//! What deleted snapshots let go.

ghost use Rattle.std.specs.Prelude.{◌≡◌, ◌||◌, ◌↔◌, List, true, OnOk, IfOk};
ghost use Rattle.std.specs.List.{list_any};
ghost use Rattle.oz_effects.specs.changes.Steps.{holds as does_hold};
ghost use Rattle.oz_fields.specs.declared.block.Block.{Block as AnyBlock};
ghost use Rattle.oz_reclaim.specs.sweep.Dates.{SnapshotNames};
ghost use Rattle.oz_reclaim.specs.sweep.Filing.{AddsLetGo, AreLetGo, IsGreatest, is_of_number as of_number, later, names_block};
ghost use Rattle.oz_reclaim.specs.sweep.Notes.{up_to};
ghost use Rattle.oz_rows.specs.declared.key.RowKey.{RowKey as AnyKey};
ghost use Rattle.oz_rows.specs.RowMaps.{row_of};

use crate::reaching::add_row;
use crate::sweep::kept::is_held;
use crate::sweep::notes::Note;
use crate::working::is_marked;
use oz_effects::{Part, RowRef, first_key, part_rows};
use oz_fields::{Block, Name, OutOfMemory};
use oz_rows::RowKey;
use oz_tables::Tables;
use std::alloc::Global;
use std::collections::BTreeSet;

/// The blocks of a snapshot that the transaction of this index deleted.
#[derive(Drop)]
pub struct LetGo {
    pub index: u64,
    pub blocks: BTreeSet<Block>,
}

/// The blocks of the deleted snapshots of which there are notes up to an index, and whose rows are still there.
pub(crate) fn let_go(
    alloc: Global,
    durable: &Tables,
    notes: &[Note],
    upto: u64,
) -> Result<Vec<LetGo>, OutOfMemory>
    ensures { IfOk result (λ entries. AreLetGo (row_of durable.now.rows) (up_to upto notes.now) entries.items) }
{
    let mut entries = Vec::new(alloc);
    for note in notes {
        if note.index <= upto {
            add_let_go(alloc, durable, note, &mut entries)?;
        }
    }
    Ok(entries)
}

fn add_let_go(
    alloc: Global,
    durable: &Tables,
    note: &Note,
    entries: &mut Vec<LetGo>,
) -> Result<(), OutOfMemory>
    ensures { OnOk result (AddsLetGo (row_of durable.now.rows) note.now entries.old.items entries.new.items) }
{
    let RowKey::Snapshot {
        volume,
        bucket,
        number,
    } = &note.key
    else {
        return Ok(());
    };
    if !is_marked(durable.get(&note.key)) {
        return Ok(());
    }
    let blocks = snapshot_blocks(alloc, durable, volume, bucket, *number)?;
    entries.push(LetGo {
        index: note.index,
        blocks,
    })?;
    Ok(())
}

/// The blocks of the bucket's snapshot of this number.
fn snapshot_blocks(
    alloc: Global,
    durable: &Tables,
    volume: &Name,
    bucket: &Name,
    number: u64,
) -> Result<BTreeSet<Block>, OutOfMemory>
    ensures { IfOk result (λ blocks. (block : AnyBlock) → (does_hold blocks block ≡ true)
        ↔ SnapshotNames (row_of durable.now.rows) (AnyKey.Snapshot volume.now bucket.now number) block) }
{
    durable.rows_are_in_order();
    let start = first_key(alloc, Part::SnapshotKeys, volume, bucket)?;
    let found = part_rows(alloc, durable, Part::SnapshotKeys, volume, bucket, &start)?;
    let mut blocks = BTreeSet::new(alloc);
    add_of_number(&mut blocks, number, found.as_slice())?;
    Ok(blocks)
}

fn add_of_number(
    blocks: &mut BTreeSet<Block>,
    number: u64,
    found: &[RowRef],
) -> Result<(), OutOfMemory>
    ensures { OnOk result ((block : AnyBlock) → does_hold blocks.new block
        ≡ (does_hold blocks.old block || list_any (names_block number block) found.now)) }
{
    for entry in found {
        add_if_of_number(blocks, number, entry)?;
    }
    Ok(())
}

fn add_if_of_number(
    blocks: &mut BTreeSet<Block>,
    number: u64,
    entry: &RowRef,
) -> Result<(), OutOfMemory>
    ensures { OnOk result ((block : AnyBlock) → does_hold blocks.new block
        ≡ (does_hold blocks.old block || names_block number block entry.now)) }
{
    if is_of_number(number, entry.key) {
        return add_row(blocks, entry.row);
    }
    Ok(())
}

fn is_of_number(number: u64, key: &RowKey) -> bool
    ensures { result ≡ of_number number key.now }
{
    match key {
        RowKey::SnapshotKey { snapshot, .. } => *snapshot == number,
        _ => false,
    }
}

/// The last index at which a block was let go, 0 where it wasn't.
pub(crate) fn left_at(entries: &[LetGo], block: &Block) -> u64
    ensures { IsGreatest entries.now block.now result }
{
    let mut left = 0;
    for entry in entries {
        left = later_of(left, entry, block);
    }
    left
}

/// The index of the entry, where it has the block and that is later.
fn later_of(left: u64, entry: &LetGo, block: &Block) -> u64
    ensures { result ≡ later left entry.now block.now }
{
    if is_held(&entry.blocks, block) && entry.index > left {
        entry.index
    } else {
        left
    }
}

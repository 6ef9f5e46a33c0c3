//! What DropOpen changes.

ghost use Rattle.std.specs.Prelude.{◌≡◌, ◌++◌, ◌&&◌, List, not, OnOk, IfOk};
ghost use Rattle.std.specs.List.{flat_map};
ghost use Rattle.oz_fields.specs.declared.block.Block.{Block as AnyBlock};
ghost use Rattle.oz_rows.specs.declared.entry.RowEntry.{RowEntry as AnyEntry};
ghost use Rattle.oz_rows.specs.declared.operation.Operation.{Operation as AnyOperation};
ghost use Rattle.oz_rows.specs.RowMaps.{AreRows};
ghost use Rattle.oz_effects.specs.Effects.{closed, is_in_a_key, operation_changes as changed_by};
ghost use Rattle.oz_effects.specs.Parts.{IsPart};
ghost use Rattle.oz_effects.specs.changes.Steps.{freed_if, freed_block, in_bucket, is_in_a_session, holds as does_hold};

use crate::changes::blocks::{free_blocks, is_held};
use crate::changes::bucket::is_bucket;
use crate::{Part, RowRef, first_key, part_rows};
use oz_fields::{Block, List, Name, OutOfMemory};
use oz_rows::{Change, Row, RowKey, RowMap};
use std::alloc::Global;
use std::collections::BTreeSet;

/// A bucket's open rows gone, and then their blocks that no key row has as deleted rows, each in the order of the open
/// rows. Where the open rows have no blocks it looks at no key row, and else at those of all buckets.
pub fn closed_sessions<M: RowMap>(
    alloc: Global,
    rows: &M,
    volume: &Name,
    bucket: &Name,
) -> Result<Vec<Change>, OutOfMemory>
    ensures { IfOk result (λ changes. (all : List AnyEntry) → AreRows all (M.rows rows.now)
        → changes.items ≡ changed_by all (AnyOperation.DropOpen volume.now bucket.now)) }
{
    let start = first_key(alloc, Part::Sessions, volume, bucket)?;
    let sessions = part_rows(alloc, rows, Part::Sessions, volume, bucket, &start)?;
    let free = free_blocks(alloc, rows, sessions.as_slice())?;
    closings(alloc, sessions.as_slice(), &free, volume, bucket)
}

/// The same of the bucket's open rows, where it is known which of their blocks no key row has.
fn closings(
    alloc: Global,
    sessions: &[RowRef],
    free: &BTreeSet<Block>,
    volume: &Name,
    bucket: &Name,
) -> Result<Vec<Change>, OutOfMemory>
    ensures { IfOk result (λ changes. (all : List AnyEntry)
        → IsPart all (in_bucket 4 volume.now bucket.now) sessions.now
        → ((block : AnyBlock) → does_hold free.now block
        ≡ (is_in_a_session sessions.now block && not (is_in_a_key all block)))
        → changes.items ≡ changed_by all (AnyOperation.DropOpen volume.now bucket.now)) }
{
    let mut changes = Vec::new(alloc);
    for entry in sessions {
        add_closed(alloc, &mut changes, entry.key, volume, bucket)?;
    }
    add_freed(alloc, &mut changes, free, sessions, volume, bucket)?;
    Ok(changes)
}

fn add_closed(
    alloc: Global,
    changes: &mut Vec<Change>,
    key: &RowKey,
    volume: &Name,
    bucket: &Name,
) -> Result<(), OutOfMemory>
    ensures { OnOk result (changes.new.items ≡ changes.old.items ++ closed volume.now bucket.now key.now) }
{
    let RowKey::Open {
        volume: of_volume,
        bucket: of_bucket,
        key,
        number,
    } = key
    else {
        return Ok(());
    };
    if !is_bucket(volume, bucket, of_volume, of_bucket) {
        return Ok(());
    }
    let made = RowKey::of_session(alloc, volume, bucket, key, *number)?;
    changes.push(Change {
        key: made,
        row: None,
    })?;
    Ok(())
}

fn add_freed(
    alloc: Global,
    changes: &mut Vec<Change>,
    free: &BTreeSet<Block>,
    sessions: &[RowRef],
    volume: &Name,
    bucket: &Name,
) -> Result<(), OutOfMemory>
    ensures { OnOk result (changes.new.items ≡ changes.old.items
        ++ flat_map (λ entry. freed_if (does_hold free.now) volume.now bucket.now entry.key entry.row) sessions.now) }
{
    for entry in sessions {
        add_freed_of(alloc, changes, free, entry, volume, bucket)?;
    }
    Ok(())
}

fn add_freed_of(
    alloc: Global,
    changes: &mut Vec<Change>,
    free: &BTreeSet<Block>,
    entry: &RowRef,
    volume: &Name,
    bucket: &Name,
) -> Result<(), OutOfMemory>
    ensures { OnOk result (changes.new.items ≡ changes.old.items
        ++ freed_if (does_hold free.now) volume.now bucket.now entry.now.key entry.now.row) }
{
    let RowKey::Open {
        volume: of_volume,
        bucket: of_bucket,
        key,
        ..
    } = entry.key
    else {
        return Ok(());
    };
    let Row::Open { blocks } = entry.row else {
        return Ok(());
    };
    if !is_bucket(volume, bucket, of_volume, of_bucket) {
        return Ok(());
    }
    add_blocks(alloc, changes, free, blocks.items(), volume, bucket, key)
}

fn add_blocks(
    alloc: Global,
    changes: &mut Vec<Change>,
    free: &BTreeSet<Block>,
    blocks: &[Block],
    volume: &Name,
    bucket: &Name,
    key: &Name,
) -> Result<(), OutOfMemory>
    ensures { OnOk result (changes.new.items ≡ changes.old.items
        ++ flat_map (freed_block (does_hold free.now) volume.now bucket.now key.now) blocks.now) }
{
    for block in blocks {
        add_block(alloc, changes, free, block, volume, bucket, key)?;
    }
    Ok(())
}

fn add_block(
    alloc: Global,
    changes: &mut Vec<Change>,
    free: &BTreeSet<Block>,
    block: &Block,
    volume: &Name,
    bucket: &Name,
    key: &Name,
) -> Result<(), OutOfMemory>
    ensures { OnOk result (changes.new.items ≡ changes.old.items
        ++ freed_block (does_hold free.now) volume.now bucket.now key.now block.now) }
{
    if !is_held(free, block) {
        return Ok(());
    }
    let made = RowKey::of_deleted(alloc, volume, bucket, 0, key, block.local)?;
    let only_block = Vec::from_slice(alloc, &[*block])?;
    changes.push(Change {
        key: made,
        row: Some(Row::Deleted {
            blocks: List::of(only_block),
        }),
    })?;
    Ok(())
}

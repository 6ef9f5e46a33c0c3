//! What CopyKeys changes.

ghost use Rattle.std.specs.Prelude.{◌≡◌, ◌++◌, List, OnOk, IfOk};
ghost use Rattle.std.specs.List.{flat_map};
ghost use Rattle.oz_rows.specs.declared.entry.RowEntry.{RowEntry as AnyEntry};
ghost use Rattle.oz_rows.specs.declared.operation.Operation.{Operation as AnyOperation};
ghost use Rattle.oz_rows.specs.RowMaps.{AreRows};
ghost use Rattle.oz_effects.specs.Effects.{copied, operation_changes as changed_by};

use crate::changes::bucket::is_bucket;
use crate::{Part, RowRef, first_key, part_rows};
use oz_fields::{Name, OutOfMemory, TryClone};
use oz_rows::{Change, Row, RowKey, RowMap};
use std::alloc::Global;

/// Each key row of a bucket as a row of the snapshot with this number, in the order of the keys.
pub fn copied_keys<M: RowMap>(
    alloc: Global,
    rows: &M,
    volume: &Name,
    bucket: &Name,
    number: u64,
) -> Result<Vec<Change>, OutOfMemory>
    ensures { IfOk result (λ changes. (all : List AnyEntry) → AreRows all (M.rows rows.now)
        → changes.items ≡ changed_by all (AnyOperation.CopyKeys volume.now bucket.now number)) }
{
    let start = first_key(alloc, Part::Keys, volume, bucket)?;
    let keys = part_rows(alloc, rows, Part::Keys, volume, bucket, &start)?;
    copies(alloc, keys.as_slice(), volume, bucket, number)
}

/// The key rows as a snapshot keeps them.
fn copies(
    alloc: Global,
    rows: &[RowRef],
    volume: &Name,
    bucket: &Name,
    number: u64,
) -> Result<Vec<Change>, OutOfMemory>
    ensures { IfOk result (λ changes. changes.items
        ≡ flat_map (λ entry. copied volume.now bucket.now number entry.key entry.row) rows.now) }
{
    let mut changes = Vec::new(alloc);
    for entry in rows {
        add_copy(alloc, &mut changes, entry, volume, bucket, number)?;
    }
    Ok(changes)
}

fn add_copy(
    alloc: Global,
    changes: &mut Vec<Change>,
    entry: &RowRef,
    volume: &Name,
    bucket: &Name,
    number: u64,
) -> Result<(), OutOfMemory>
    ensures { OnOk result (changes.new.items ≡ changes.old.items
        ++ copied volume.now bucket.now number entry.now.key entry.now.row) }
{
    let RowKey::Key {
        volume: of_volume,
        bucket: of_bucket,
        key,
    } = entry.key
    else {
        return Ok(());
    };
    let Row::Key {
        number: made,
        pieces,
    } = entry.row
    else {
        return Ok(());
    };
    if !is_bucket(volume, bucket, of_volume, of_bucket) {
        return Ok(());
    }
    let kept = RowKey::of_snapshot_key(alloc, volume, bucket, number, key)?;
    let pieces = pieces.try_clone(alloc)?;
    changes.push(Change {
        key: kept,
        row: Some(Row::SnapshotKey {
            number: *made,
            pieces,
        }),
    })?;
    Ok(())
}

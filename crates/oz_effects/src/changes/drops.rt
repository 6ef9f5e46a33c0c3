//! What DropKeys changes.

ghost use Rattle.std.specs.Prelude.{◌≡◌, ◌++◌, List, OnOk, IfOk};
ghost use Rattle.std.specs.List.{flat_map};
ghost use Rattle.oz_rows.specs.declared.entry.RowEntry.{RowEntry as AnyEntry};
ghost use Rattle.oz_rows.specs.declared.operation.Operation.{Operation as AnyOperation};
ghost use Rattle.oz_rows.specs.RowMaps.{AreRows};
ghost use Rattle.oz_effects.specs.Effects.{dropped, operation_changes as changed_by};

use crate::changes::bucket::is_bucket;
use crate::{Part, RowRef, first_key, part_rows};
use oz_fields::{Name, OutOfMemory};
use oz_rows::{Change, RowKey, RowMap};
use std::alloc::Global;

/// The key rows of the snapshot with this number gone, in the order of their keys. It looks at those of all the
/// bucket's snapshots.
pub fn dropped_keys<M: RowMap>(
    alloc: Global,
    rows: &M,
    volume: &Name,
    bucket: &Name,
    number: u64,
) -> Result<Vec<Change>, OutOfMemory>
    ensures { IfOk result (λ changes. (all : List AnyEntry) → AreRows all (M.rows rows.now)
        → changes.items ≡ changed_by all (AnyOperation.DropKeys volume.now bucket.now number)) }
{
    let start = first_key(alloc, Part::SnapshotKeys, volume, bucket)?;
    let kept = part_rows(alloc, rows, Part::SnapshotKeys, volume, bucket, &start)?;
    drops(alloc, kept.as_slice(), volume, bucket, number)
}

/// The snapshot's key rows, gone.
fn drops(
    alloc: Global,
    rows: &[RowRef],
    volume: &Name,
    bucket: &Name,
    number: u64,
) -> Result<Vec<Change>, OutOfMemory>
    ensures { IfOk result (λ changes. changes.items
        ≡ flat_map (λ entry. dropped volume.now bucket.now number entry.key) rows.now) }
{
    let mut changes = Vec::new(alloc);
    for entry in rows {
        add_drop(alloc, &mut changes, entry.key, volume, bucket, number)?;
    }
    Ok(changes)
}

fn add_drop(
    alloc: Global,
    changes: &mut Vec<Change>,
    key: &RowKey,
    volume: &Name,
    bucket: &Name,
    number: u64,
) -> Result<(), OutOfMemory>
    ensures { OnOk result (changes.new.items ≡ changes.old.items ++ dropped volume.now bucket.now number key.now) }
{
    let RowKey::SnapshotKey {
        volume: of_volume,
        bucket: of_bucket,
        snapshot,
        key,
    } = key
    else {
        return Ok(());
    };
    if !is_bucket(volume, bucket, of_volume, of_bucket) || *snapshot != number {
        return Ok(());
    }
    let made = RowKey::of_snapshot_key(alloc, volume, bucket, number, key)?;
    changes.push(Change {
        key: made,
        row: None,
    })?;
    Ok(())
}

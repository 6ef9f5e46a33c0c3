//! What MoveDeleted changes.

ghost use Rattle.std.specs.Prelude.{◌≡◌, ◌∷◌, ◌++◌, ◌||◌, [], ℕ, List, OnOk, IfOk, false};
ghost use Rattle.std.specs.Prelude.{◌==◌};
ghost use Rattle.std.specs.List.{flat_map, list_any};
ghost use Rattle.oz_rows.specs.declared.entry.RowEntry.{RowEntry as AnyEntry};
ghost use Rattle.oz_rows.specs.declared.key.RowKey.{RowKey as AnyKey};
ghost use Rattle.oz_rows.specs.declared.operation.Operation.{Operation as AnyOperation};
ghost use Rattle.oz_rows.specs.RowMaps.{AreRows, put, gone, is_same};
ghost use Rattle.oz_effects.specs.Effects.{operation_changes as changed_by};
ghost use Rattle.oz_effects.specs.Parts.{IsPart};
ghost use Rattle.oz_effects.specs.changes.Steps.{moved_but, renamed_moved, in_bucket, has};

use crate::changes::bucket::is_bucket;
use crate::{Part, RowRef, first_key, part_rows};
use oz_fields::{Name, OutOfMemory, TryClone};
use oz_rows::{Change, Row, RowKey, RowMap};
use std::alloc::Global;
use std::collections::BTreeSet;

/// A bucket's deleted and renamed rows of one owner under another, those that are deleted first. It looks at those of
/// all owners in the bucket.
pub fn moved_rows<M: RowMap>(
    alloc: Global,
    rows: &M,
    volume: &Name,
    bucket: &Name,
    from: u64,
    to: u64,
) -> Result<Vec<Change>, OutOfMemory>
    ensures { IfOk result (λ changes. (all : List AnyEntry) → AreRows all (M.rows rows.now)
        → changes.items ≡ changed_by all (AnyOperation.MoveDeleted volume.now bucket.now from to)) }
{
    if from == to {
        return Ok(Vec::new(alloc));
    }
    let first_deleted = first_key(alloc, Part::Deleted, volume, bucket)?;
    let deleted = part_rows(alloc, rows, Part::Deleted, volume, bucket, &first_deleted)?;
    let first_renamed = first_key(alloc, Part::Renamed, volume, bucket)?;
    let renamed = part_rows(alloc, rows, Part::Renamed, volume, bucket, &first_renamed)?;
    moves(
        alloc,
        deleted.as_slice(),
        renamed.as_slice(),
        volume,
        bucket,
        from,
        to,
    )
}

/// The same of the bucket's deleted and renamed rows.
fn moves(
    alloc: Global,
    deleted: &[RowRef],
    renamed: &[RowRef],
    volume: &Name,
    bucket: &Name,
    from: u64,
    to: u64,
) -> Result<Vec<Change>, OutOfMemory>
    requires { (from == to) ≡ false }
    ensures { IfOk result (λ changes. (all : List AnyEntry)
        → IsPart all (in_bucket 5 volume.now bucket.now) deleted.now
        → IsPart all (in_bucket 8 volume.now bucket.now) renamed.now
        → changes.items ≡ changed_by all (AnyOperation.MoveDeleted volume.now bucket.now from to)) }
{
    let others = renamed_of(alloc, renamed, volume, bucket, to)?;
    let mut changes = Vec::new(alloc);
    add_moves(
        alloc,
        &mut changes,
        &others,
        deleted,
        volume,
        bucket,
        from,
        to,
    )?;
    add_moves(
        alloc,
        &mut changes,
        &others,
        renamed,
        volume,
        bucket,
        from,
        to,
    )?;
    Ok(changes)
}

/// The numbers of the renamed rows that an owner has.
fn renamed_of(
    alloc: Global,
    renamed: &[RowRef],
    volume: &Name,
    bucket: &Name,
    owner: u64,
) -> Result<BTreeSet<u64>, OutOfMemory>
    ensures { IfOk result (λ numbers. (local : ℕ) → has numbers local
        ≡ list_any (λ entry. is_same entry.key (AnyKey.Renamed volume.now bucket.now owner local)) renamed.now) }
{
    let mut numbers = BTreeSet::new(alloc);
    for entry in renamed {
        add_number(&mut numbers, entry.key, volume, bucket, owner)?;
    }
    Ok(numbers)
}

fn add_number(
    numbers: &mut BTreeSet<u64>,
    key: &RowKey,
    volume: &Name,
    bucket: &Name,
    owner: u64,
) -> Result<(), OutOfMemory>
    ensures { OnOk result ((local : ℕ) → has numbers.new local
        ≡ (has numbers.old local || is_same key.now (AnyKey.Renamed volume.now bucket.now owner local))) }
{
    match key {
        RowKey::Renamed {
            volume: of_volume,
            bucket: of_bucket,
            owner: of_owner,
            local,
        } if is_bucket(of_volume, of_bucket, volume, bucket) && *of_owner == owner => {
            insert(numbers, *local)
        }
        _ => Ok(()),
    }
}

fn insert(numbers: &mut BTreeSet<u64>, number: u64) -> Result<(), OutOfMemory>
    ensures { OnOk result ((other : ℕ) → has numbers.new other ≡ (has numbers.old other || number == other)) }
{
    numbers.insert(number)?;
    Ok(())
}

fn is_there(numbers: &BTreeSet<u64>, number: u64) -> bool
    ensures { result ≡ has numbers.now number }
{
    numbers.contains(&number)
}

fn add_moves(
    alloc: Global,
    changes: &mut Vec<Change>,
    others: &BTreeSet<u64>,
    rows: &[RowRef],
    volume: &Name,
    bucket: &Name,
    from: u64,
    to: u64,
) -> Result<(), OutOfMemory>
    ensures { OnOk result (changes.new.items ≡ changes.old.items
        ++ flat_map (λ entry. moved_but (has others.now) volume.now bucket.now from to entry.key entry.row) rows.now) }
{
    for entry in rows {
        add_moved(alloc, changes, others, entry, volume, bucket, from, to)?;
    }
    Ok(())
}

fn add_moved(
    alloc: Global,
    changes: &mut Vec<Change>,
    others: &BTreeSet<u64>,
    entry: &RowRef,
    volume: &Name,
    bucket: &Name,
    from: u64,
    to: u64,
) -> Result<(), OutOfMemory>
    ensures { OnOk result (changes.new.items ≡ changes.old.items
        ++ moved_but (has others.now) volume.now bucket.now from to entry.now.key entry.now.row) }
{
    match entry.key {
        RowKey::Deleted {
            volume: of_volume,
            bucket: of_bucket,
            owner,
            key,
            local,
        } if is_bucket(volume, bucket, of_volume, of_bucket) && *owner == from => {
            let old = RowKey::of_deleted(alloc, volume, bucket, from, key, *local)?;
            let new = RowKey::of_deleted(alloc, volume, bucket, to, key, *local)?;
            add_move(alloc, changes, old, new, entry.row)
        }
        RowKey::Renamed {
            volume: of_volume,
            bucket: of_bucket,
            owner,
            local,
        } if is_bucket(volume, bucket, of_volume, of_bucket) && *owner == from => add_renamed(
            alloc, changes, others, entry.row, volume, bucket, *local, from, to,
        ),
        _ => Ok(()),
    }
}

/// Of two renamed rows for one block one stays.
fn add_renamed(
    alloc: Global,
    changes: &mut Vec<Change>,
    others: &BTreeSet<u64>,
    row: &Row,
    volume: &Name,
    bucket: &Name,
    local: u64,
    from: u64,
    to: u64,
) -> Result<(), OutOfMemory>
    ensures { OnOk result (changes.new.items ≡ changes.old.items
        ++ renamed_moved (has others.now) volume.now bucket.now from to local row.now) }
{
    let old = RowKey::of_renamed(alloc, volume, bucket, from, local)?;
    let new = RowKey::of_renamed(alloc, volume, bucket, to, local)?;
    if from == 0 && is_there(others, local) {
        changes.push(Change {
            key: old,
            row: None,
        })?;
        return Ok(());
    }
    add_move(alloc, changes, old, new, row)
}

fn add_move(
    alloc: Global,
    changes: &mut Vec<Change>,
    old: RowKey,
    new: RowKey,
    row: &Row,
) -> Result<(), OutOfMemory>
    ensures { OnOk result (changes.new.items ≡ changes.old.items ++ gone old ∷ put new row.now ∷ []) }
{
    let row = row.try_clone(alloc)?;
    changes.push(Change {
        key: old,
        row: None,
    })?;
    changes.push(Change {
        key: new,
        row: Some(row),
    })?;
    Ok(())
}

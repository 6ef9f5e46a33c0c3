//! The deleted rows that are looked at anew: those that notes name, and those of buckets whose snapshots changed.

ghost use Rattle.std.specs.Prelude.{◌≡◌, ◌↔◌, ◌++◌, [], ◌∷◌, List, true, IsTrue, OnOk, IfOk, None};
ghost use Rattle.oz_reclaim.specs.sweep.Dead.{IsDead, IsDeadRow, first_of};
ghost use Rattle.oz_reclaim.specs.sweep.Filing.{AreFilings, Files, IsAmong, IsAtHome, IsDeletedIn, IsDeletedThere, IsTouched, touches_bucket};
ghost use Rattle.oz_reclaim.specs.sweep.Kept.{AreRight};
ghost use Rattle.oz_reclaim.specs.sweep.Notes.{is_snapshot_of as snapshot_of, names, touches as touches_so, up_to};
ghost use Rattle.oz_rows.specs.declared.entry.RowEntry.{RowEntry as AnyEntry};
ghost use Rattle.oz_rows.specs.declared.key.RowKey.{RowKey as AnyKey};
ghost use Rattle.oz_rows.specs.RowMaps.{row_of};

use crate::gathering::rows_of_kind;
use crate::owning::is_bucket;
use crate::sweep::kept::is_kept;
use crate::sweep::notes::Note;
use oz_effects::{Part, RowRef, first_key, part_rows};
use oz_fields::{Block, Name, OutOfMemory, TryClone};
use oz_rows::{Change, Row, RowKey};
use oz_sorted::SortedMap;
use oz_tables::Tables;
use std::alloc::Global;
use std::collections::BTreeSet;

/// The changes by which dead rows become those of these tables: of all rows that notes up to an index name, of all deleted rows
/// in buckets of whose snapshots there are notes, and of all deleted rows where none was looked at before.
pub(crate) fn filings(
    alloc: Global,
    durable: &Tables,
    sets: &mut SortedMap<RowKey, BTreeSet<Block>>,
    notes: &[Note],
    upto: u64,
    is_new: bool,
) -> Result<Vec<Change>, OutOfMemory>
    ensures filed { IfOk result (λ changes. AreRight (row_of durable.now.rows) sets.old.entries
        → AreFilings (row_of durable.now.rows) (up_to upto notes.now) is_new changes.items) }
    ensures still { AreRight (row_of durable.now.rows) sets.old.entries → AreRight (row_of durable.now.rows) sets.new.entries }
{
    let mut changes = Vec::new(alloc);
    file_named(alloc, durable, sets, notes, upto, &mut changes)?;
    file_touched(alloc, durable, sets, notes, upto, &mut changes)?;
    if is_new {
        file_all(alloc, durable, sets, &mut changes)?;
    }
    Ok(changes)
}

/// Files what notes up to an index name.
fn file_named(
    alloc: Global,
    durable: &Tables,
    sets: &mut SortedMap<RowKey, BTreeSet<Block>>,
    notes: &[Note],
    upto: u64,
    changes: &mut Vec<Change>,
) -> Result<(), OutOfMemory>
    ensures files { OnOk result (AreRight (row_of durable.now.rows) sets.old.entries
        → Files (row_of durable.now.rows) (λ key. names (up_to upto notes.now) key ≡ true) changes.old.items changes.new.items) }
    ensures still { AreRight (row_of durable.now.rows) sets.old.entries → AreRight (row_of durable.now.rows) sets.new.entries }
{
    for note in notes {
        if note.index <= upto {
            file_key(alloc, durable, sets, &note.key, changes)?;
        }
    }
    Ok(())
}

/// Files the deleted rows in buckets of whose snapshots there are notes up to an index.
fn file_touched(
    alloc: Global,
    durable: &Tables,
    sets: &mut SortedMap<RowKey, BTreeSet<Block>>,
    notes: &[Note],
    upto: u64,
    changes: &mut Vec<Change>,
) -> Result<(), OutOfMemory>
    ensures files { OnOk result (AreRight (row_of durable.now.rows) sets.old.entries
        → Files (row_of durable.now.rows) (IsTouched (row_of durable.now.rows) (up_to upto notes.now)) changes.old.items
        changes.new.items) }
    ensures still { AreRight (row_of durable.now.rows) sets.old.entries → AreRight (row_of durable.now.rows) sets.new.entries }
{
    for (i, note) in notes.iter().enumerate() {
        if note.index <= upto && !is_touched(&notes[..i], upto, &note.key) {
            file_home(alloc, durable, sets, &note.key, changes)?;
        }
    }
    Ok(())
}

/// Whether one of the notes up to an index is of a snapshot of the same bucket.
fn is_touched(notes: &[Note], upto: u64, key: &RowKey) -> bool
    ensures { IsTrue result → touches_bucket (up_to upto notes.now) key.now ≡ true }
{
    match key {
        RowKey::Snapshot { volume, bucket, .. } => touches(notes, upto, volume, bucket),
        _ => false,
    }
}

fn touches(notes: &[Note], upto: u64, volume: &Name, bucket: &Name) -> bool
    ensures { IsTrue result → touches_so (up_to upto notes.now) volume.now bucket.now ≡ true }
{
    for note in notes {
        if note.index <= upto && is_snapshot_of(volume, bucket, &note.key) {
            return true;
        }
    }
    false
}

fn is_snapshot_of(volume: &Name, bucket: &Name, key: &RowKey) -> bool
    ensures { result ≡ snapshot_of volume.now bucket.now key.now }
{
    match key {
        RowKey::Snapshot {
            volume: of_volume,
            bucket: of_bucket,
            ..
        } => is_bucket(volume, bucket, of_volume, of_bucket),
        _ => false,
    }
}

/// Files the deleted rows of the bucket of which this snapshot is, where a snapshot has the key.
fn file_home(
    alloc: Global,
    durable: &Tables,
    sets: &mut SortedMap<RowKey, BTreeSet<Block>>,
    key: &RowKey,
    changes: &mut Vec<Change>,
) -> Result<(), OutOfMemory>
    ensures files { OnOk result (AreRight (row_of durable.now.rows) sets.old.entries
        → Files (row_of durable.now.rows) (IsAtHome (row_of durable.now.rows) key.now) changes.old.items changes.new.items) }
    ensures still { AreRight (row_of durable.now.rows) sets.old.entries → AreRight (row_of durable.now.rows) sets.new.entries }
{
    match key {
        RowKey::Snapshot { volume, bucket, .. } => {
            file_bucket(alloc, durable, sets, volume, bucket, changes)
        }
        _ => Ok(()),
    }
}

/// Files the deleted rows of a bucket.
fn file_bucket(
    alloc: Global,
    durable: &Tables,
    sets: &mut SortedMap<RowKey, BTreeSet<Block>>,
    volume: &Name,
    bucket: &Name,
    changes: &mut Vec<Change>,
) -> Result<(), OutOfMemory>
    ensures files { OnOk result (AreRight (row_of durable.now.rows) sets.old.entries
        → Files (row_of durable.now.rows) (IsDeletedIn (row_of durable.now.rows) volume.now bucket.now) changes.old.items
        changes.new.items) }
    ensures still { AreRight (row_of durable.now.rows) sets.old.entries → AreRight (row_of durable.now.rows) sets.new.entries }
{
    durable.rows_are_in_order();
    let start = first_key(alloc, Part::Deleted, volume, bucket)?;
    let found = part_rows(alloc, durable, Part::Deleted, volume, bucket, &start)?;
    file_each(alloc, durable, sets, found.as_slice(), changes)
}

/// Files all deleted rows.
fn file_all(
    alloc: Global,
    durable: &Tables,
    sets: &mut SortedMap<RowKey, BTreeSet<Block>>,
    changes: &mut Vec<Change>,
) -> Result<(), OutOfMemory>
    ensures files { OnOk result (AreRight (row_of durable.now.rows) sets.old.entries
        → Files (row_of durable.now.rows) (IsDeletedThere (row_of durable.now.rows)) changes.old.items changes.new.items) }
    ensures still { AreRight (row_of durable.now.rows) sets.old.entries → AreRight (row_of durable.now.rows) sets.new.entries }
{
    let none = Name::copy(alloc, b"")?;
    let start = RowKey::of_deleted(alloc, &none, &none, 0, &none, 0)?;
    let found = rows_of_kind(alloc, durable, &start)?;
    file_each(alloc, durable, sets, found.as_slice(), changes)
}

fn file_each(
    alloc: Global,
    durable: &Tables,
    sets: &mut SortedMap<RowKey, BTreeSet<Block>>,
    found: &[RowRef],
    changes: &mut Vec<Change>,
) -> Result<(), OutOfMemory>
    ensures files { OnOk result (AreRight (row_of durable.now.rows) sets.old.entries
        → Files (row_of durable.now.rows) (IsAmong found.now) changes.old.items changes.new.items) }
    ensures still { AreRight (row_of durable.now.rows) sets.old.entries → AreRight (row_of durable.now.rows) sets.new.entries }
{
    for entry in found {
        file_key(alloc, durable, sets, entry.key, changes)?;
    }
    Ok(())
}

/// Puts the key's dead row among the changes, or takes it away where there is none.
fn file_key(
    alloc: Global,
    durable: &Tables,
    sets: &mut SortedMap<RowKey, BTreeSet<Block>>,
    key: &RowKey,
    changes: &mut Vec<Change>,
) -> Result<(), OutOfMemory>
    ensures files { OnOk result (AreRight (row_of durable.now.rows) sets.old.entries
        → Files (row_of durable.now.rows) (λ other. other ≡ key.now) changes.old.items changes.new.items) }
    ensures still { AreRight (row_of durable.now.rows) sets.old.entries → AreRight (row_of durable.now.rows) sets.new.entries }
{
    let row = dead_row(alloc, durable, sets, key)?;
    let key = key.try_clone(alloc)?;
    changes.push(Change { key, row })?;
    Ok(())
}

/// The key's dead row.
fn dead_row(
    alloc: Global,
    durable: &Tables,
    sets: &mut SortedMap<RowKey, BTreeSet<Block>>,
    key: &RowKey,
) -> Result<Option<Row>, OutOfMemory>
    ensures told { IfOk result (λ row. AreRight (row_of durable.now.rows) sets.old.entries
        → IsDeadRow (row_of durable.now.rows) key.now row) }
    ensures still { AreRight (row_of durable.now.rows) sets.old.entries → AreRight (row_of durable.now.rows) sets.new.entries }
{
    let Some(row) = durable.get(key) else {
        return Ok(None);
    };
    if !is_dead(alloc, durable, sets, key, row)? {
        return Ok(None);
    }
    Ok(Some(row.try_clone(alloc)?))
}

/// Whether this is a deleted row whose first block no live snapshot of its bucket has.
fn is_dead(
    alloc: Global,
    durable: &Tables,
    sets: &mut SortedMap<RowKey, BTreeSet<Block>>,
    key: &RowKey,
    row: &Row,
) -> Result<bool, OutOfMemory>
    ensures told { IfOk result (λ dead. AreRight (row_of durable.now.rows) sets.old.entries
        → (dead ≡ true) ↔ IsDead (row_of durable.now.rows) key.now row.now) }
    ensures still { AreRight (row_of durable.now.rows) sets.old.entries → AreRight (row_of durable.now.rows) sets.new.entries }
{
    let Some(first) = first_block(row) else {
        return Ok(false);
    };
    match key {
        RowKey::Deleted { volume, bucket, .. } => {
            let kept = is_kept(alloc, durable, sets, volume, bucket, &first)?;
            Ok(!kept)
        }
        _ => Ok(false),
    }
}

/// The first block of a deleted row.
pub(crate) fn first_block(row: &Row) -> Option<Block>
    ensures { result ≡ first_of row.now }
{
    match row {
        Row::Deleted { blocks } => blocks.items().first().copied(),
        _ => None,
    }
}

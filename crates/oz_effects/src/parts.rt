//! The rows of one kind in a bucket, in a volume or in all, gathered one after another.

ghost use Rattle.std.specs.Prelude.{◌≡◌, [], ◌∷◌, List, option_copied, IfOk};
ghost use Rattle.std.specs.Ordering.{is_eq};
ghost use Rattle.oz_rows.specs.declared.entry.RowEntry.{RowEntry as AnyEntry};
ghost use Rattle.oz_rows.specs.RowMaps.{AreRows, is_bucket as is_same_bucket};
ghost use Rattle.oz_effects.specs.Parts.{IsPart, IsFirst, front_of, part_order, own_row};

use oz_fields::{Name, OutOfMemory};
use oz_rows::{Row, RowKey, RowMap};
use std::alloc::Global;
use std::marker::Model;

/// A row of a map and its key, both lent.
#[derive(Debug, Drop)]
pub struct RowRef<'m> {
    pub key: &'m RowKey,
    pub row: &'m Row,
}

impl<'m> Model for RowRef<'m> {
    ghost use Rattle.oz_rows.specs.declared.entry.RowEntry.{RowEntry as AnyEntry};

    ghost Value = { AnyEntry };

    ghost view = { λ r. record { key = r.key.now; row = r.row.now } };
}

/// Which rows are gathered: all key rows, the buckets of a volume, or the rows of a kind in a bucket.
#[derive(Clone, Copy, Debug, PartialEq, Eq)]
pub enum Part {
    AllKeys,
    Buckets,
    Keys,
    Sessions,
    Deleted,
    Snapshots,
    SnapshotKeys,
    Renamed,
}

/// The rows of a part, in order. `start` is a key of the part that none of it is below.
pub fn part_rows<'m, M: RowMap>(
    alloc: Global,
    rows: &'m M,
    part: Part,
    volume: &Name,
    bucket: &Name,
    start: &'m RowKey,
) -> Result<Vec<RowRef<'m>>, OutOfMemory>
    requires { IsFirst (front_of part volume.now bucket.now) start.now }
    ensures { IfOk result (λ found. (all : List AnyEntry) → AreRows all (M.rows rows.now)
        → IsPart all (front_of part volume.now bucket.now) found.items) }
{
    let mut found = own(alloc, rows, start)?;
    let mut last = start;
    for _ in 0..u64::MAX {
        let Some((key, row)) = rows.next(last) else {
            return Ok(found);
        };
        if !is_within(part, volume, bucket, key) {
            return Ok(found);
        }
        found.push(RowRef { key, row })?;
        last = key;
    }
    Err(OutOfMemory)
}

/// The row that a key has itself.
fn own<'m, M: RowMap>(
    alloc: Global,
    rows: &'m M,
    start: &'m RowKey,
) -> Result<Vec<RowRef<'m>>, OutOfMemory>
    ensures { IfOk result (λ found. found.items ≡ own_row start.now (M.rows rows.now start.now)) }
{
    let mut found = Vec::new(alloc);
    if let Some(row) = rows.get(start) {
        found.push(RowRef { key: start, row })?;
    }
    Ok(found)
}

/// A key of a part that none of the part is below. No row that keeps the rules of the grammar has it.
pub fn first_key(
    alloc: Global,
    part: Part,
    volume: &Name,
    bucket: &Name,
) -> Result<RowKey, OutOfMemory>
    ensures { IfOk result (IsFirst (front_of part volume.now bucket.now)) }
{
    let none = Name::copy(alloc, b"")?;
    match part {
        Part::AllKeys => RowKey::of_key(alloc, &none, &none, &none),
        Part::Buckets => RowKey::of_bucket(alloc, volume, &none),
        Part::Keys => RowKey::of_key(alloc, volume, bucket, &none),
        Part::Sessions => RowKey::of_session(alloc, volume, bucket, &none, 0),
        Part::Deleted => RowKey::of_deleted(alloc, volume, bucket, 0, &none, 0),
        Part::Snapshots => RowKey::of_snapshot(alloc, volume, bucket, 0),
        Part::SnapshotKeys => RowKey::of_snapshot_key(alloc, volume, bucket, 0, &none),
        Part::Renamed => RowKey::of_renamed(alloc, volume, bucket, 0, 0),
    }
}

/// Whether a key is one of the part.
fn is_within(part: Part, volume: &Name, bucket: &Name, key: &RowKey) -> bool
    ensures { result ≡ is_eq (part_order (front_of part volume.now bucket.now) key.now) }
{
    let this_volume = volume;
    let this_bucket = bucket;
    match (part, key) {
        (Part::AllKeys, RowKey::Key { .. }) => true,
        (Part::Buckets, RowKey::Bucket { volume, .. }) => this_volume.cmp(volume).is_eq(),
        (Part::Keys, RowKey::Key { volume, bucket, .. })
        | (Part::Sessions, RowKey::Open { volume, bucket, .. })
        | (Part::Deleted, RowKey::Deleted { volume, bucket, .. })
        | (Part::Snapshots, RowKey::Snapshot { volume, bucket, .. })
        | (Part::SnapshotKeys, RowKey::SnapshotKey { volume, bucket, .. })
        | (Part::Renamed, RowKey::Renamed { volume, bucket, .. }) => {
            is_bucket(this_volume, this_bucket, volume, bucket)
        }
        _ => false,
    }
}

/// Whether the two are the same bucket of the same volume.
fn is_bucket(volume: &Name, bucket: &Name, other_volume: &Name, other_bucket: &Name) -> bool
    ensures { result ≡ is_same_bucket volume.now bucket.now other_volume.now other_bucket.now }
{
    volume.cmp(other_volume).is_eq() && bucket.cmp(other_bucket).is_eq()
}

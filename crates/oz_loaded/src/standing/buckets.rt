//! Buckets out of tables.

ghost use Rattle.std.specs.Prelude.{◌≡◌, [], None, IfOk, OnOk};
ghost use Rattle.oz_effects.specs.declared.parts.Part.TheVariants as parts;
ghost use Rattle.oz_loaded.specs.standing.Made.{bucket_made, bucket_shown, buckets_made, entered, filled};
ghost use Rattle.oz_loaded.specs.standing.Made.{pieces_shown, rows_in, session_shown, snapshots_in_order};

use crate::standing::entries::{pieces_of, sessions_of, snapshots_of};
use oz_effects::{Part, RowRef, first_key, part_rows};
use oz_fields::{List, Name, OutOfMemory, Piece, TryClone};
use oz_namespace::{Bucket, NameMap, NumberMap, Session, Snapshot};
use oz_rows::RowKey;
use oz_tables::Tables;
use std::alloc::Global;

/// The buckets of a volume.
pub(crate) fn buckets_of(
    alloc: Global,
    tables: &Tables,
    volume: &Name,
) -> Result<NameMap<Bucket>, OutOfMemory>
    ensures { IfOk result (λ made. made ≡ buckets_made tables.now.rows volume.now) }
{
    tables.rows_are_in_order();
    let none = Name::copy(alloc, b"")?;
    let start = first_key(alloc, Part::Buckets, volume, &none)?;
    let found = part_rows(alloc, tables, Part::Buckets, volume, &none, &start)?;
    in_rows(alloc, tables, &found)
}

/// The buckets that these rows name.
fn in_rows(alloc: Global, tables: &Tables, rows: &[RowRef]) -> Result<NameMap<Bucket>, OutOfMemory>
    ensures { IfOk result (λ made. made ≡ filled (bucket_shown tables.now.rows) rows.now) }
{
    let mut made = NameMap::new(alloc);
    for entry in rows {
        put_bucket(alloc, tables, entry, &mut made)?;
    }
    Ok(made)
}

fn put_bucket(
    alloc: Global,
    tables: &Tables,
    entry: &RowRef,
    made: &mut NameMap<Bucket>,
) -> Result<(), OutOfMemory>
    ensures { OnOk result (made.new ≡ entered made.old (bucket_shown tables.now.rows entry.now)) }
{
    let RowKey::Bucket { volume, bucket } = entry.key else {
        return Ok(());
    };
    let whole = bucket_of(alloc, tables, volume, bucket)?;
    made.insert(alloc, bucket.try_clone(alloc)?, whole)
}

/// A bucket of its rows.
fn bucket_of(
    alloc: Global,
    tables: &Tables,
    volume: &Name,
    bucket: &Name,
) -> Result<Bucket, OutOfMemory>
    ensures { IfOk result (λ made. made ≡ bucket_made tables.now.rows volume.now bucket.now) }
{
    Ok(Bucket {
        keys: keys_in(alloc, tables, volume, bucket)?,
        sessions: sessions_in(alloc, tables, volume, bucket)?,
        snapshots: snapshots_in(alloc, tables, volume, bucket)?,
    })
}

fn keys_in(
    alloc: Global,
    tables: &Tables,
    volume: &Name,
    bucket: &Name,
) -> Result<NameMap<List<Piece>>, OutOfMemory>
    ensures { IfOk result (λ made. made
        ≡ filled (pieces_shown None) (rows_in parts.Keys volume.now bucket.now tables.now.rows)) }
{
    tables.rows_are_in_order();
    let start = first_key(alloc, Part::Keys, volume, bucket)?;
    let found = part_rows(alloc, tables, Part::Keys, volume, bucket, &start)?;
    pieces_of(alloc, &found, None)
}

fn sessions_in(
    alloc: Global,
    tables: &Tables,
    volume: &Name,
    bucket: &Name,
) -> Result<NumberMap<Session>, OutOfMemory>
    ensures { IfOk result (λ made. made
        ≡ filled session_shown (rows_in parts.Sessions volume.now bucket.now tables.now.rows)) }
{
    tables.rows_are_in_order();
    let start = first_key(alloc, Part::Sessions, volume, bucket)?;
    let found = part_rows(alloc, tables, Part::Sessions, volume, bucket, &start)?;
    sessions_of(alloc, &found)
}

fn snapshots_in(
    alloc: Global,
    tables: &Tables,
    volume: &Name,
    bucket: &Name,
) -> Result<List<Snapshot>, OutOfMemory>
    ensures { IfOk result (λ made. made
        ≡ snapshots_in_order (rows_in parts.SnapshotKeys volume.now bucket.now tables.now.rows)
        (rows_in parts.Snapshots volume.now bucket.now tables.now.rows)) }
{
    tables.rows_are_in_order();
    let start = first_key(alloc, Part::Snapshots, volume, bucket)?;
    let start_of_keys = first_key(alloc, Part::SnapshotKeys, volume, bucket)?;
    let found = part_rows(alloc, tables, Part::Snapshots, volume, bucket, &start)?;
    let kept = part_rows(
        alloc,
        tables,
        Part::SnapshotKeys,
        volume,
        bucket,
        &start_of_keys,
    )?;
    snapshots_of(alloc, &found, &kept)
}

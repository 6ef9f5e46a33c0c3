//! Volumes out of tables.

ghost use Rattle.std.specs.Prelude.{◌≡◌, [], OnOk};
ghost use Rattle.oz_rows.specs.RowMaps.{row_of};
ghost use Rattle.oz_loaded.specs.standing.Made.{entered, volume_in};
ghost use Rattle.oz_loaded.specs.standing.Standing.{AddsVolumes};

use crate::standing::buckets::buckets_of;
use oz_fields::{Name, OutOfMemory, TryClone};
use oz_namespace::{Bucket, NameMap};
use oz_rows::RowKey;
use oz_tables::Tables;
use std::alloc::Global;

/// Puts the volumes of tables into a map, by a walk from each to the next.
pub(crate) fn put_volumes(
    alloc: Global,
    tables: &Tables,
    made: &mut NameMap<NameMap<Bucket>>,
) -> Result<(), OutOfMemory>
    ensures { OnOk result (AddsVolumes (row_of tables.now.rows) made.old made.new) }
{
    let none = Name::copy(alloc, b"")?;
    let start = RowKey::of_volume(alloc, &none)?;
    put_from(alloc, tables, &start, made)
}

/// Begins with the least key that a volume could have.
fn put_from<'m>(
    alloc: Global,
    tables: &'m Tables,
    start: &'m RowKey,
    made: &mut NameMap<NameMap<Bucket>>,
) -> Result<(), OutOfMemory>
    requires { start.now ≡ RowKey.Volume [] }
    ensures { OnOk result (AddsVolumes (row_of tables.now.rows) made.old made.new) }
{
    tables.rows_are_in_order();
    put_volume(alloc, tables, start, made)?;
    let mut last = start;
    for _ in 0..u64::MAX {
        let Some((key, _row)) = tables.next(last) else {
            return Ok(());
        };
        put_volume(alloc, tables, key, made)?;
        last = key;
    }
    Err(OutOfMemory)
}

/// Puts the volume of a key, where it has a row.
fn put_volume(
    alloc: Global,
    tables: &Tables,
    key: &RowKey,
    made: &mut NameMap<NameMap<Bucket>>,
) -> Result<(), OutOfMemory>
    ensures { OnOk result (made.new ≡ entered made.old (volume_in tables.now.rows key.now)) }
{
    let RowKey::Volume { volume } = key else {
        return Ok(());
    };
    if tables.get(key).is_none() {
        return Ok(());
    }
    let buckets = buckets_of(alloc, tables, volume)?;
    made.insert(alloc, volume.try_clone(alloc)?, buckets)
}

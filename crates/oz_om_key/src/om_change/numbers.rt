//! The numbers of a bucket's snapshots.

ghost use Rattle.std.specs.Prelude.{◌≡◌, IfOk};
ghost use Rattle.oz_om_key.specs.om_change.Noting.{AreSnapshotNumbers};
ghost use Rattle.oz_om_key.specs.om_change.Numbers.{number_of};
ghost use Rattle.oz_reclaim.specs.Work.{IsNextOwner};
ghost use Rattle.oz_rows.specs.declared.key.RowKey.{RowKey as AnyKey};

use oz_fields::{Name, OutOfMemory};
use oz_rows::{RowKey, RowMap};
use std::alloc::Global;

/// The numbers of all snapshot rows of the bucket, live or marked, in order. Where there is none it takes no memory.
pub(crate) fn snapshot_numbers<M: RowMap>(
    alloc: Global,
    rows: &M,
    volume: &Name,
    bucket: &Name,
) -> Result<Vec<u64>, OutOfMemory>
    ensures { IfOk result (λ numbers. AreSnapshotNumbers (M.rows rows.now) volume.now bucket.now numbers.items) }
{
    let mut numbers = Vec::new(alloc);
    let mut last = 0;
    for _ in 0..u64::MAX {
        let of_last = RowKey::of_snapshot(alloc, volume, bucket, last)?;
        let number = number_behind(rows, &of_last, volume, bucket, last);
        if number == 0 {
            return Ok(numbers);
        }
        numbers.push(number)?;
        last = number;
    }
    Err(OutOfMemory)
}

/// The number of the bucket's next snapshot behind this one, whose row is named. 0 where there is none.
fn number_behind<M: RowMap>(
    rows: &M,
    of_last: &RowKey,
    volume: &Name,
    bucket: &Name,
    last: u64,
) -> u64
    requires { of_last.now ≡ AnyKey.Snapshot volume.now bucket.now last }
    ensures { IsNextOwner (M.rows rows.now) volume.now bucket.now last result }
{
    match rows.next(of_last) {
        Some((key, _row)) => number_in(key, volume, bucket),
        None => 0,
    }
}

/// The number of a snapshot of the bucket, 0 for any other key.
fn number_in(key: &RowKey, volume: &Name, bucket: &Name) -> u64
    ensures { result ≡ number_of volume.now bucket.now key.now }
{
    match key {
        RowKey::Snapshot {
            volume: of_volume,
            bucket: of_bucket,
            number,
        } => {
            if *of_volume == *volume && *of_bucket == *bucket {
                *number
            } else {
                0
            }
        }
        _ => 0,
    }
}

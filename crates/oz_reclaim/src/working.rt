//! What is to be done next with deleted snapshots.

ghost use Rattle.std.specs.Prelude.{◌≡◌, MatchOption, IfOk, option_copied};
ghost use Rattle.oz_cache.specs.Cache.{newest};
ghost use Rattle.oz_reclaim.specs.Firsts.{IsFirstOf, NoneMarked, IsOfSnapshot};
ghost use Rattle.oz_reclaim.specs.Gathered.{IsLeast};
ghost use Rattle.oz_reclaim.specs.Work.{IsChainWork, WorksOff, is_marked as marked};

use crate::owning::{next_owner, owns_row};
use oz_cache::Cached;
use oz_fields::{Name, OutOfMemory, TryClone};
use oz_requests::Request;
use oz_rows::{Row, RowKey, RowMap, SnapshotState};
use std::alloc::Global;

/// The request by which the manager works off the first of the deleted snapshots, by the order of row keys.
pub fn chain_work(alloc: Global, cached: &Cached) -> Result<Option<Request>, OutOfMemory>
    ensures { IfOk result (IsChainWork (newest cached.now)) }
{
    work_over(alloc, cached)
}

fn work_over<M: RowMap>(alloc: Global, rows: &M) -> Result<Option<Request>, OutOfMemory>
    ensures { IfOk result (IsChainWork (M.rows rows.now)) }
{
    let none = Name::copy(alloc, b"")?;
    let start = RowKey::of_snapshot(alloc, &none, &none, 0)?;
    match first_marked(rows, &start)? {
        None => Ok(None),
        Some(
            RowKey::Snapshot {
                volume,
                bucket,
                number,
            },
        ) => {
            let request = work_for(alloc, rows, volume, bucket, *number)?;
            Ok(Some(request))
        }
        Some(_) => unreachable!(),
    }
}

/// The key of the first row of a deleted snapshot.
fn first_marked<'m, M: RowMap>(
    rows: &'m M,
    start: &'m RowKey,
) -> Result<Option<&'m RowKey>, OutOfMemory>
    requires least { IsLeast start.now }
    requires snapshot { IsOfSnapshot start.now }
    ensures { IfOk result (λ found. MatchOption found
        (NoneMarked (M.rows rows.now))
        (λ key. IsFirstOf (M.rows rows.now) key.now)) }
{
    if is_marked(rows.get(start)) {
        return Ok(Some(start));
    }
    let mut last = start;
    for _ in 0..u64::MAX {
        let Some((key, row)) = rows.next(last) else {
            return Ok(None);
        };
        if is_marked(Some(row)) {
            return Ok(Some(key));
        }
        last = key;
    }
    Err(OutOfMemory)
}

/// Whether a row is there and that of a deleted snapshot.
pub(crate) fn is_marked(row: Option<&Row>) -> bool
    ensures { result ≡ marked (option_copied row.entry) }
{
    match row {
        Some(Row::Snapshot { state, .. }) => *state == SnapshotState::Marked,
        _ => false,
    }
}

/// The request by which the bucket's deleted snapshot of this number is worked off.
fn work_for<M: RowMap>(
    alloc: Global,
    rows: &M,
    volume: &Name,
    bucket: &Name,
    number: u64,
) -> Result<Request, OutOfMemory>
    ensures { IfOk result (WorksOff (M.rows rows.now) volume.now bucket.now number) }
{
    let of_volume = volume.try_clone(alloc)?;
    let of_bucket = bucket.try_clone(alloc)?;
    let owns = owns_row(alloc, rows, volume, bucket, number)?;
    if owns {
        let to = next_owner(alloc, rows, volume, bucket, number)?;
        return Ok(Request::MoveDeleted {
            volume: of_volume,
            bucket: of_bucket,
            number,
            to,
        });
    }
    Ok(Request::PurgeSnapshot {
        volume: of_volume,
        bucket: of_bucket,
        number,
    })
}

//! What a snapshot owns, and who owns it next.

ghost use Rattle.std.specs.Prelude.{◌≡◌, ◌↔◌, ℕ, List as AnyList, IsTrue, IsSome, IfOk};
ghost use Rattle.oz_reclaim.specs.Owners.{HasOwned, IsFirstOwned, is_owned as owned, number_of};
ghost use Rattle.oz_reclaim.specs.Work.{IsNextOwner, OwnsRow};
ghost use Rattle.oz_rows.specs.declared.key.RowKey.{RowKey as AnyKey};
ghost use Rattle.oz_rows.specs.Rows.{kind_of};
ghost use Rattle.oz_rows.specs.RowMaps.{is_bucket as is_same_bucket};

use oz_fields::{Name, OutOfMemory};
use oz_rows::{RowKey, RowMap};
use std::alloc::Global;

/// Whether a deleted or a renamed row of the bucket has this owner.
pub(crate) fn owns_row<M: RowMap>(
    alloc: Global,
    rows: &M,
    volume: &Name,
    bucket: &Name,
    owner: u64,
) -> Result<bool, OutOfMemory>
    ensures { IfOk result (λ owns. IsTrue owns ↔ OwnsRow (M.rows rows.now) volume.now bucket.now owner) }
{
    let none = Name::copy(alloc, b"")?;
    let first_deleted = RowKey::of_deleted(alloc, volume, bucket, owner, &none, 0)?;
    let first_renamed = RowKey::of_renamed(alloc, volume, bucket, owner, 0)?;
    if stands_from(rows, &first_deleted, volume, bucket, owner) {
        return Ok(true);
    }
    Ok(stands_from(rows, &first_renamed, volume, bucket, owner))
}

/// Whether a row of the owner's stands from this key on, of its kind.
fn stands_from<M: RowMap>(
    rows: &M,
    start: &RowKey,
    volume: &Name,
    bucket: &Name,
    owner: u64,
) -> bool
    requires { IsFirstOwned volume.now bucket.now owner start.now }
    ensures { IsTrue result ↔ HasOwned (M.rows rows.now) (kind_of start.now) volume.now bucket.now owner }
{
    if rows.get(start).is_some() {
        return true;
    }
    match rows.next(start) {
        Some((key, _row)) => is_owned(key, volume, bucket, owner),
        None => false,
    }
}

fn is_owned(key: &RowKey, volume: &Name, bucket: &Name, owner: u64) -> bool
    ensures { result ≡ owned volume.now bucket.now owner key.now }
{
    match key {
        RowKey::Deleted {
            volume: of_volume,
            bucket: of_bucket,
            owner: of_owner,
            ..
        }
        | RowKey::Renamed {
            volume: of_volume,
            bucket: of_bucket,
            owner: of_owner,
            ..
        } => is_bucket(volume, bucket, of_volume, of_bucket) && *of_owner == owner,
        _ => false,
    }
}

/// Whether the two are the same bucket of the same volume.
pub(crate) fn is_bucket(
    volume: &Name,
    bucket: &Name,
    other_volume: &Name,
    other_bucket: &Name,
) -> bool
    ensures { result ≡ is_same_bucket volume.now bucket.now other_volume.now other_bucket.now }
{
    volume.cmp(other_volume).is_eq() && bucket.cmp(other_bucket).is_eq()
}

/// To whom the rows of the bucket's snapshot of this number go: the number of the next one, or 0 for the bucket itself.
pub(crate) fn next_owner<M: RowMap>(
    alloc: Global,
    rows: &M,
    volume: &Name,
    bucket: &Name,
    number: u64,
) -> Result<u64, OutOfMemory>
    ensures { IfOk result (IsNextOwner (M.rows rows.now) volume.now bucket.now number) }
{
    let of_snapshot = RowKey::of_snapshot(alloc, volume, bucket, number)?;
    Ok(number_behind(rows, &of_snapshot, volume, bucket, number))
}

/// The number of the bucket's snapshot behind this one, whose row is named.
fn number_behind<M: RowMap>(
    rows: &M,
    of_snapshot: &RowKey,
    volume: &Name,
    bucket: &Name,
    number: u64,
) -> u64
    requires { of_snapshot.now ≡ AnyKey.Snapshot volume.now bucket.now number }
    ensures { IsNextOwner (M.rows rows.now) volume.now bucket.now number result }
{
    match rows.next(of_snapshot) {
        Some((key, _row)) => number_in(key, volume, bucket),
        None => 0,
    }
}

/// The number of a snapshot of the bucket, 0 for any other key.
fn number_in(key: &RowKey, volume: &Name, bucket: &Name) -> u64
    ensures { result ≡ number_of volume.now bucket.now key.now }
{
    match key {
        RowKey::Snapshot {
            volume: of_volume,
            bucket: of_bucket,
            number,
        } if is_bucket(volume, bucket, of_volume, of_bucket) => *number,
        _ => 0,
    }
}

//! What the newest rows say of a volume or a bucket.

ghost use Rattle.std.specs.Prelude.{◌≡◌, ◌<◌, ◌^◌, ◌∷◌, ◌++◌, [], ℕ, List as AnyList, None, length, is_some, IsSome, IfOk};
ghost use Rattle.std.specs.FinMap.{len, keys};
ghost use Rattle.oz_model.specs.Buckets.{buckets_at, bucket_at};
ghost use Rattle.oz_model.specs.Refusals.{first_of, no_volume, no_bucket};
ghost use Rattle.oz_model.specs.Scope.{scope_of};
ghost use Rattle.oz_rows.specs.Counts.{IsCount};
ghost use Rattle.oz_decision.specs.Meets.{AreInGrammar};
ghost use Rattle.oz_decision.specs.Replies.{ShowsThat};
ghost use Rattle.oz_sound.specs.StandsFor.{IsLive};

use crate::walking::{buckets_named, keys_between, live_count};
use oz_fields::{List, Name, OutOfMemory, TryClone};
use oz_names::Code;
use oz_rows::{RowKey, RowMap};
use std::alloc::Global;

/// Whether a key has a row.
pub fn has_row<M: RowMap>(rows: &M, key: &RowKey) -> bool
    ensures { result ≡ is_some (M.rows rows.now key.now) }
{
    rows.get(key).is_some()
}

/// The code where the volume isn't there, or the bucket, whose row has this key. Most requests begin with it.
pub fn missing_bucket<M: RowMap>(
    alloc: Global,
    rows: &M,
    volume: &Name,
    bucket: &Name,
    key: &RowKey,
) -> Result<Option<Code>, OutOfMemory>
    requires { key.now ≡ RowKey.Bucket volume.now bucket.now }
    ensures code { IfOk result (λ code. ShowsThat (M.rows rows.now)
        (λ namespace. code ≡ first_of (no_volume (scope_of namespace volume.now) ∷ no_bucket (scope_of namespace volume.now) bucket.now ∷ []))) }
    ensures none { IfOk result (λ code. code ≡ None → IsSome (M.rows rows.now (RowKey.Bucket volume.now bucket.now))) }
{
    let of_volume = RowKey::of_volume(alloc, volume)?;
    if !has_row(rows, &of_volume) {
        return Ok(Some(Code::VolumeNotFound));
    }
    if has_row(rows, key) {
        Ok(None)
    } else {
        Ok(Some(Code::BucketNotFound))
    }
}

/// The name that comes next in the order of names: the same, with a byte 0 behind it.
fn next_name(alloc: Global, name: &Name) -> Result<Name, OutOfMemory>
    ensures { IfOk result (λ next. next ≡ name.now ++ 0 ∷ []) }
{
    let mut bytes = Vec::from_slice(alloc, name.bytes())?;
    bytes.push(0)?;
    Name::copy(alloc, &bytes)
}

fn empty_name(alloc: Global) -> Result<Name, OutOfMemory>
    ensures { IfOk result (λ name. name ≡ []) }
{
    Name::copy(alloc, b"")
}

fn in_u32(count: usize) -> u32
    ensures same { count < 2 ^ 32 → result ≡ count }
    ensures none { result ≡ 0 → count ≡ 0 }
{
    u32::try_from(count).unwrap_or(u32::MAX)
}

/// How many keys from one on and below another have a row.
fn counted<M: RowMap>(rows: &M, from: RowKey, to: RowKey) -> u32
    ensures { (count : ℕ) × IsCount (M.rows rows.now) from to count × (count < 2 ^ 32 → result ≡ count) × (result ≡ 0 → count ≡ 0) }
{
    in_u32(rows.count(&from, &to))
}

/// The keys between which the rows of a volume's buckets stand.
fn bucket_bounds(alloc: Global, volume: &Name) -> Result<(RowKey, RowKey), OutOfMemory>
    ensures from { IfOk result (λ bounds. bounds.0 ≡ RowKey.Bucket volume.now []) }
    ensures to { IfOk result (λ bounds. bounds.1 ≡ RowKey.Bucket (volume.now ++ 0 ∷ []) []) }
{
    let from = RowKey::Bucket {
        volume: volume.try_clone(alloc)?,
        bucket: empty_name(alloc)?,
    };
    let to = RowKey::Bucket {
        volume: next_name(alloc, volume)?,
        bucket: empty_name(alloc)?,
    };
    Ok((from, to))
}

/// How many buckets a volume has.
pub fn bucket_count<M: RowMap>(alloc: Global, rows: &M, volume: &Name) -> Result<u32, OutOfMemory>
    ensures shows { IfOk result (λ count. ShowsThat (M.rows rows.now) (λ namespace. count ≡ len (buckets_at namespace volume.now))) }
    ensures none { IfOk result (λ count. count ≡ 0 → (bucket : AnyList ℕ) → M.rows rows.now (RowKey.Bucket volume.now bucket) ≡ None) }
{
    let (from, to) = bucket_bounds(alloc, volume)?;
    Ok(counted(rows, from, to))
}

/// The names of a volume's buckets, in order.
pub fn bucket_names<M: RowMap>(
    alloc: Global,
    rows: &M,
    volume: &Name,
) -> Result<List<Name>, OutOfMemory>
    ensures { IfOk result (λ names. ShowsThat (M.rows rows.now) (λ namespace. names ≡ keys (buckets_at namespace volume.now))) }
{
    let (from, to) = bucket_bounds(alloc, volume)?;
    let found = keys_between(alloc, rows, from, to)?;
    buckets_named(alloc, &found)
}

/// How many keys a bucket has.
pub fn key_count<M: RowMap>(
    alloc: Global,
    rows: &M,
    volume: &Name,
    bucket: &Name,
) -> Result<u32, OutOfMemory>
    ensures shows { IfOk result (λ count. ShowsThat (M.rows rows.now) (λ namespace. count ≡ len (bucket_at namespace volume.now bucket.now).keys)) }
    ensures none { IfOk result (λ count. count ≡ 0 → (key : AnyList ℕ) → M.rows rows.now (RowKey.Key volume.now bucket.now key) ≡ None) }
{
    let from = first_key(alloc, volume, bucket.try_clone(alloc)?)?;
    let to = first_key(alloc, volume, next_name(alloc, bucket)?)?;
    Ok(counted(rows, from, to))
}

/// The least key of a key row of a bucket, which no row has.
fn first_key(alloc: Global, volume: &Name, bucket: Name) -> Result<RowKey, OutOfMemory>
    ensures { IfOk result (λ key. key ≡ RowKey.Key volume.now bucket []) }
{
    Ok(RowKey::Key {
        volume: volume.try_clone(alloc)?,
        bucket,
        key: empty_name(alloc)?,
    })
}

/// How many sessions a bucket has.
pub fn session_count<M: RowMap>(
    alloc: Global,
    rows: &M,
    volume: &Name,
    bucket: &Name,
) -> Result<u32, OutOfMemory>
    ensures shows { IfOk result (λ count. ShowsThat (M.rows rows.now) (λ namespace. count ≡ len (bucket_at namespace volume.now bucket.now).sessions)) }
    ensures none { IfOk result (λ count. count ≡ 0 → (key : AnyList ℕ) (number : ℕ) → M.rows rows.now (RowKey.Open volume.now bucket.now key number) ≡ None) }
{
    let from = first_open(alloc, volume, bucket.try_clone(alloc)?)?;
    let to = first_open(alloc, volume, next_name(alloc, bucket)?)?;
    Ok(counted(rows, from, to))
}

/// The least key of an open row of a bucket, which no row has.
fn first_open(alloc: Global, volume: &Name, bucket: Name) -> Result<RowKey, OutOfMemory>
    ensures { IfOk result (λ key. key ≡ RowKey.Open volume.now bucket [] 0) }
{
    Ok(RowKey::Open {
        volume: volume.try_clone(alloc)?,
        bucket,
        key: empty_name(alloc)?,
        number: 0,
    })
}

/// How many live snapshots a bucket has.
pub fn snapshot_count<M: RowMap>(
    alloc: Global,
    rows: &M,
    volume: &Name,
    bucket: &Name,
) -> Result<u32, OutOfMemory>
    ensures shows { IfOk result (λ count. ShowsThat (M.rows rows.now) (λ namespace. count ≡ length (bucket_at namespace volume.now bucket.now).snapshots)) }
    ensures none { IfOk result (λ count. count ≡ 0 → AreInGrammar (M.rows rows.now) → (number : ℕ) → IsLive (M.rows rows.now) volume.now bucket.now number
        → ⊥) }
{
    let from = first_snapshot(alloc, volume, bucket.try_clone(alloc)?)?;
    let to = first_snapshot(alloc, volume, next_name(alloc, bucket)?)?;
    let found = keys_between(alloc, rows, from, to)?;
    Ok(in_u32(live_count(rows, &found)))
}

/// The least key of a snapshot's row of a bucket, which no row has.
fn first_snapshot(alloc: Global, volume: &Name, bucket: Name) -> Result<RowKey, OutOfMemory>
    ensures { IfOk result (λ key. key ≡ RowKey.Snapshot volume.now bucket 0) }
{
    Ok(RowKey::Snapshot {
        volume: volume.try_clone(alloc)?,
        bucket,
        number: 0,
    })
}

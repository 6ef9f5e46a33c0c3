//! What the buckets of a volume have, counted over rows.

ghost use Rattle.std.specs.Prelude.{◌≡◌, ◌+◌, ◌++◌, [], ◌∷◌, map, IfOk, option_copied};
ghost use Rattle.std.specs.List.{sum_by};
ghost use Rattle.oz_decision.specs.Replies.{ShowsThat};
ghost use Rattle.oz_model.specs.Buckets.{bucket_at};
ghost use Rattle.oz_om.specs.Tallies.{bytes_at, bytes_in, length_of, tally_in, tally_of, together};

use oz_decision::{bucket_names, key_count, keys_between, snapshot_count};
use oz_fields::{Name, OutOfMemory, Piece, TryClone};
use oz_rows::{Row, RowKey, RowMap};
use std::alloc::Global;

/// How many keys, bytes of keys and snapshots the buckets of a volume have.
#[derive(Clone, Copy, Debug, PartialEq, Eq)]
pub struct Tally {
    pub keys: u64,
    pub bytes: u64,
    pub snapshots: u64,
}

/// What the buckets of a volume have, nothing where there is no such volume. Where a sum passes a `u64` it answers as for want of
/// memory, since no memory holds so many keys.
pub(crate) fn tally_in_rows<M: RowMap>(
    alloc: Global,
    rows: &M,
    volume: &Name,
) -> Result<Tally, OutOfMemory>
    ensures { IfOk result (λ tally. ShowsThat (M.rows rows.now) (λ namespace. tally ≡ tally_of namespace volume.now)) }
{
    let names = bucket_names(alloc, rows, volume)?;
    tally_of_buckets(alloc, rows, volume, names.items())
}

/// What the buckets of these names have.
fn tally_of_buckets<M: RowMap>(
    alloc: Global,
    rows: &M,
    volume: &Name,
    names: &[Name],
) -> Result<Tally, OutOfMemory>
    ensures { IfOk result (λ tally. ShowsThat (M.rows rows.now) (λ namespace. tally ≡ tally_in (map (bucket_at namespace volume.now) names.now))) }
{
    let mut tally = Tally {
        keys: 0,
        bytes: 0,
        snapshots: 0,
    };
    for bucket in names {
        let one = bucket_tally(alloc, rows, volume, bucket)?;
        let sum = together(tally, one)?;
        tally = sum;
    }
    Ok(tally)
}

/// What one bucket has.
fn bucket_tally<M: RowMap>(
    alloc: Global,
    rows: &M,
    volume: &Name,
    bucket: &Name,
) -> Result<Tally, OutOfMemory>
    ensures { IfOk result (λ tally. ShowsThat (M.rows rows.now) (λ namespace. tally ≡ tally_in (bucket_at namespace volume.now bucket.now ∷ []))) }
{
    let keys = key_count(alloc, rows, volume, bucket)?;
    let bytes = bucket_bytes(alloc, rows, volume, bucket)?;
    let snapshots = snapshot_count(alloc, rows, volume, bucket)?;
    Ok(Tally {
        keys: u64::from(keys),
        bytes,
        snapshots: u64::from(snapshots),
    })
}

/// How many bytes the keys of a bucket have.
fn bucket_bytes<M: RowMap>(
    alloc: Global,
    rows: &M,
    volume: &Name,
    bucket: &Name,
) -> Result<u64, OutOfMemory>
    ensures { IfOk result (λ bytes. ShowsThat (M.rows rows.now) (λ namespace. bytes ≡ bytes_in (bucket_at namespace volume.now bucket.now))) }
{
    let from = first_key(alloc, volume, bucket.try_clone(alloc)?)?;
    let to = first_key(alloc, volume, next_name(alloc, bucket)?)?;
    let found = keys_between(alloc, rows, from, to)?;
    bytes_of_all(rows, &found)
}

/// The least key of a key row of a bucket, which no row has.
fn first_key(alloc: Global, volume: &Name, bucket: Name) -> Result<RowKey, OutOfMemory>
    ensures { IfOk result (λ key. key ≡ RowKey.Key volume.now bucket []) }
{
    Ok(RowKey::Key {
        volume: volume.try_clone(alloc)?,
        bucket,
        key: Name::copy(alloc, b"")?,
    })
}

/// The name that comes next in the order of names: the same, with a byte 0 behind it.
fn next_name(alloc: Global, name: &Name) -> Result<Name, OutOfMemory>
    ensures { IfOk result (λ next. next ≡ name.now ++ 0 ∷ []) }
{
    let mut bytes = Vec::from_slice(alloc, name.bytes())?;
    bytes.push(0)?;
    Name::copy(alloc, &bytes)
}

/// How many bytes the rows of these keys have.
fn bytes_of_all<M: RowMap>(rows: &M, keys: &[RowKey]) -> Result<u64, OutOfMemory>
    ensures { IfOk result (λ bytes. bytes ≡ sum_by (λ key. bytes_at (M.rows rows.now key)) keys.now) }
{
    let mut bytes = 0;
    for key in keys {
        bytes = plus(bytes, bytes_of(rows.get(key))?)?;
    }
    Ok(bytes)
}

/// How many bytes a row of a key has, none where there is no such row.
fn bytes_of(row: Option<&Row>) -> Result<u64, OutOfMemory>
    ensures { IfOk result (λ bytes. bytes ≡ bytes_at (option_copied row.entry)) }
{
    match row {
        Some(Row::Key { pieces, .. } | Row::SnapshotKey { pieces, .. }) => {
            length_of(pieces.items())
        }
        _ => Ok(0),
    }
}

/// How many bytes the pieces of a key have.
fn length_of(pieces: &[Piece]) -> Result<u64, OutOfMemory>
    ensures { IfOk result (λ length. length ≡ length_of pieces.now) }
{
    let mut length = 0;
    for piece in pieces {
        length = plus(length, piece.length as u64)?;
    }
    Ok(length)
}

/// What one has and another.
fn together(one: Tally, other: Tally) -> Result<Tally, OutOfMemory>
    ensures { IfOk result (λ sum. sum ≡ together one other) }
{
    Ok(Tally {
        keys: plus(one.keys, other.keys)?,
        bytes: plus(one.bytes, other.bytes)?,
        snapshots: plus(one.snapshots, other.snapshots)?,
    })
}

fn plus(one: u64, other: u64) -> Result<u64, OutOfMemory>
    ensures { IfOk result (λ sum. sum ≡ one + other) }
{
    one.checked_add(other).ok_or(OutOfMemory)
}

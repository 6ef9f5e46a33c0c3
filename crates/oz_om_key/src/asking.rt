//! Which rows a look-up or a list looks at.

ghost use Rattle.std.specs.Prelude.{◌≡◌, ◌++◌, ◌∷◌, [], None, Some, IsSome, IfOk};
ghost use Rattle.oz_model.specs.Refusals.{first_of, no_volume, no_bucket};
ghost use Rattle.oz_model.specs.Scope.{scope_of};
ghost use Rattle.oz_decision.specs.Replies.{ShowsThat};
ghost use Rattle.oz_model.specs.Buckets.{bucket_at, keys_asked};
ghost use Rattle.oz_om_key.specs.Places.{IsAsked, first_named, is_named as named_so, number_in as number_of};

use crate::place::Source;
use oz_decision::{keys_between, missing_bucket};
use oz_fields::{Name, OutOfMemory};
use oz_names::Code;
use oz_rows::{Row, RowKey, RowMap, SnapshotState};
use std::alloc::Global;

/// The code where the volume isn't there, or the bucket.
pub(crate) fn missing_code<M: RowMap>(
    alloc: Global,
    rows: &M,
    volume: &Name,
    bucket: &Name,
) -> Result<Option<Code>, OutOfMemory>
    ensures code { IfOk result (λ code. ShowsThat (M.rows rows.now)
        (λ namespace. code ≡ first_of (no_volume (scope_of namespace volume.now) ∷ no_bucket (scope_of namespace volume.now) bucket.now ∷ []))) }
    ensures none { IfOk result (λ code. code ≡ None → IsSome (M.rows rows.now (RowKey.Bucket volume.now bucket.now))) }
{
    let of_bucket = RowKey::of_bucket(alloc, volume, bucket)?;
    missing_bucket(alloc, rows, volume, bucket, &of_bucket)
}

/// Where the keys of the bucket itself stand, or those of its snapshot of a name. None where no live snapshot has it.
pub(crate) fn asked_source<M: RowMap>(
    alloc: Global,
    rows: &M,
    volume: &Name,
    bucket: &Name,
    snapshot: &Option<Name>,
) -> Result<Option<Source>, OutOfMemory>
    ensures { IfOk result (λ found. ShowsThat (M.rows rows.now)
        (λ namespace. IsAsked (M.rows rows.now) volume.now bucket.now (keys_asked (bucket_at namespace volume.now bucket.now) snapshot.now) found)) }
{
    match snapshot {
        Some(name) => snapshot_named(alloc, rows, volume, bucket, name),
        None => Ok(Some(Source::Bucket)),
    }
}

/// Where the keys of the live snapshot of this name stand.
fn snapshot_named<M: RowMap>(
    alloc: Global,
    rows: &M,
    volume: &Name,
    bucket: &Name,
    name: &Name,
) -> Result<Option<Source>, OutOfMemory>
    ensures { IfOk result (λ found. ShowsThat (M.rows rows.now)
        (λ namespace. IsAsked (M.rows rows.now) volume.now bucket.now (keys_asked (bucket_at namespace volume.now bucket.now) (Some name.now)) found)) }
{
    let from = RowKey::of_snapshot(alloc, volume, bucket, 0)?;
    let after = next_name(alloc, bucket)?;
    let to = RowKey::of_snapshot(alloc, volume, &after, 0)?;
    let found = keys_between(alloc, rows, from, to)?;
    Ok(named_among(rows, &found, name))
}

/// The name that comes next in the order of names: the same, with a byte 0 behind it.
fn next_name(alloc: Global, name: &Name) -> Result<Name, OutOfMemory>
    ensures { IfOk result (λ next. next ≡ name.now ++ 0 ∷ []) }
{
    let mut bytes = Vec::from_slice(alloc, name.bytes())?;
    bytes.push(0)?;
    Name::copy(alloc, &bytes)
}

/// The first of these keys whose row is that of a live snapshot of the name.
fn named_among<M: RowMap>(rows: &M, keys: &[RowKey], name: &Name) -> Option<Source>
    ensures { result ≡ first_named (M.rows rows.now) keys.now name.now }
{
    for key in keys {
        if is_named(rows, key, name) {
            return Some(Source::Snapshot(number_in(key)));
        }
    }
    None
}

fn is_named<M: RowMap>(rows: &M, key: &RowKey, name: &Name) -> bool
    ensures { result ≡ named_so (M.rows rows.now key.now) name.now }
{
    match rows.get(key) {
        Some(
            Row::Snapshot {
                name: other,
                state,
                ..
            },
        ) => *state == SnapshotState::Live && *other == *name,
        _ => false,
    }
}

fn number_in(key: &RowKey) -> u64
    ensures { result ≡ number_of key.now }
{
    match key {
        RowKey::Snapshot { number, .. } => *number,
        _ => 0,
    }
}

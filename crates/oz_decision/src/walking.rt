//! The keys between two keys, gathered one after another.

ghost use Rattle.std.specs.Prelude.{◌≡◌, [], None, map, count_by, IfOk, OnOk};
ghost use Rattle.oz_rows.specs.Rows.{kind_of};
ghost use Rattle.oz_rows.specs.Counts.{AreKeys};
ghost use Rattle.oz_decision.specs.Walking.{last_or as last_key, IsStep, bucket_named, is_live};

use oz_fields::{List, Name, OutOfMemory, TryClone};
use oz_rows::{Row, RowKey, RowMap, SnapshotState};
use std::alloc::Global;

/// The keys from one on and below another that have a row, in order. The first key itself has none.
pub fn keys_between<M: RowMap>(
    alloc: Global,
    rows: &M,
    from: RowKey,
    to: RowKey,
) -> Result<Vec<RowKey>, OutOfMemory>
    requires { kind_of to ≡ kind_of from }
    ensures { IfOk result (λ keys. M.rows rows.now from ≡ None → AreKeys (M.rows rows.now) from to keys.items) }
{
    walked(alloc, rows, &from, &to)
}

fn walked<M: RowMap>(
    alloc: Global,
    rows: &M,
    from: &RowKey,
    to: &RowKey,
) -> Result<Vec<RowKey>, OutOfMemory>
    requires { kind_of to.now ≡ kind_of from.now }
    ensures { IfOk result (λ keys. M.rows rows.now from.now ≡ None → AreKeys (M.rows rows.now) from.now to.now keys.items) }
{
    let count = rows.count(from, to);
    let mut found = Vec::new(alloc);
    for _ in 0..count {
        step(alloc, rows, from, &mut found)?;
    }
    Ok(found)
}

fn step<M: RowMap>(
    alloc: Global,
    rows: &M,
    from: &RowKey,
    found: &mut Vec<RowKey>,
) -> Result<(), OutOfMemory>
    ensures { OnOk result (IsStep (M.rows rows.now) from.now found.old.items found.new.items) }
{
    if let Some((key, _row)) = rows.next(last_or(found, from)) {
        found.push(key.try_clone(alloc)?)?;
    }
    Ok(())
}

fn last_or<'a>(keys: &'a [RowKey], before: &'a RowKey) -> &'a RowKey
    ensures { result.now ≡ last_key before.now keys.now }
{
    match keys {
        [.., last] => last,
        [] => before,
    }
}

/// The buckets that keys of buckets' rows name.
pub(crate) fn buckets_named(alloc: Global, keys: &[RowKey]) -> Result<List<Name>, OutOfMemory>
    ensures { IfOk result (λ names. names ≡ map bucket_named keys.now) }
{
    let mut names = Vec::with_capacity(alloc, keys.len())?;
    for key in keys {
        names.push(name_in(alloc, key)?)?;
    }
    Ok(List::of(names))
}

fn name_in(alloc: Global, key: &RowKey) -> Result<Name, OutOfMemory>
    ensures { IfOk result (λ name. name ≡ bucket_named key.now) }
{
    match key {
        RowKey::Bucket { bucket, .. } => bucket.try_clone(alloc),
        _ => Name::copy(alloc, b""),
    }
}

/// How many of these have the row of a snapshot that isn't marked.
pub(crate) fn live_count<M: RowMap>(rows: &M, keys: &[RowKey]) -> usize
    ensures { result ≡ count_by (λ key. is_live (M.rows rows.now key)) keys.now }
{
    let mut count = 0;
    for key in keys {
        if has_live(rows, key) {
            count += 1;
        }
    }
    count
}

fn has_live<M: RowMap>(rows: &M, key: &RowKey) -> bool
    ensures { result ≡ is_live (M.rows rows.now key.now) }
{
    match rows.get(key) {
        Some(Row::Snapshot { state, .. }) => *state == SnapshotState::Live,
        _ => false,
    }
}

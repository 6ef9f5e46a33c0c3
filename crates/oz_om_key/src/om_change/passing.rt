//! Which snapshots of a bucket may have a block of a key: the others aren't looked at for each block.

ghost use Rattle.std.specs.Prelude.{◌≡◌, ◌||◌, IfOk, drop};
ghost use Rattle.std.specs.Bool.{OnFalse};
ghost use Rattle.std.specs.List.{AllByRecursion};
ghost use Rattle.oz_model.specs.Reach.{blocks_of};
ghost use Rattle.oz_om_key.specs.om_change.Passing.{IsHeldAlike, IsInSpan, HasNoneRenamed, has_its_name, is_within as within};

use crate::om_change::path::KeyPath;
use oz_decision::has_row;
use oz_fields::{OutOfMemory, Piece};
use oz_rows::{RowKey, RowMap};
use std::alloc::Global;

/// Local ids, from the least to the greatest.
#[derive(Clone, Copy)]
pub(crate) struct Span {
    pub least: u64,
    pub greatest: u64,
}

/// Of the numbers of the bucket's snapshots those that tell of the key's blocks what all tell. A snapshot is left out where it has
/// no row of the key's name, and neither it nor a later one has a renamed row of one of the blocks. So the snapshots are gone through
/// once for all blocks.
pub(crate) fn numbers_in_question<M: RowMap>(
    alloc: Global,
    rows: &M,
    of: &KeyPath,
    numbers: &[u64],
    pieces: &[Piece],
) -> Result<Vec<u64>, OutOfMemory>
    ensures { IfOk result (λ kept. AllByRecursion
        (IsHeldAlike (M.rows rows.now) of.now.volume.now of.now.bucket.now of.now.key.now numbers.now kept.items)
        (blocks_of pieces.now)) }
{
    let below = renamed_below(alloc, rows, of, numbers, span_of(pieces))?;
    let mut kept = Vec::new(alloc);
    for i in 0..numbers.len() {
        let number = numbers[i];
        if is_in_question(alloc, rows, of, number, i < below)? {
            kept.push(number)?;
        }
    }
    Ok(kept)
}

/// Whether the snapshot is always in question, or has a row of the key's name.
fn is_in_question<M: RowMap>(
    alloc: Global,
    rows: &M,
    of: &KeyPath,
    number: u64,
    always: bool,
) -> Result<bool, OutOfMemory>
    ensures { IfOk result (λ it. it
        ≡ (always || has_its_name (M.rows rows.now) of.now.volume.now of.now.bucket.now of.now.key.now number)) }
{
    if always {
        return Ok(true);
    }
    let of_key = RowKey::of_snapshot_key(alloc, of.volume, of.bucket, number, of.key)?;
    Ok(has_row(rows, &of_key))
}

/// The local ids of the blocks, all between these two.
fn span_of(pieces: &[Piece]) -> Span
    ensures { AllByRecursion (IsInSpan result) (blocks_of pieces.now) }
{
    let mut span = Span {
        least: u64::MAX,
        greatest: 0,
    };
    for piece in pieces {
        let local = piece.block.local;
        span = Span {
            least: span.least.min(local),
            greatest: span.greatest.max(local),
        };
    }
    span
}

/// How many of the numbers, from the first on, there are up to the last one whose snapshot has a renamed row of an id in the span.
fn renamed_below<M: RowMap>(
    alloc: Global,
    rows: &M,
    of: &KeyPath,
    numbers: &[u64],
    span: Span,
) -> Result<usize, OutOfMemory>
    ensures { IfOk result (λ below. AllByRecursion
        (HasNoneRenamed (M.rows rows.now) of.now.volume.now of.now.bucket.now span) (drop below numbers.now)) }
{
    for i in (0..numbers.len()).rev() {
        if is_renamed(alloc, rows, of, numbers[i], span)? {
            return Ok(i + 1);
        }
    }
    Ok(0)
}

/// Whether the snapshot may have a renamed row of an id in the span.
fn is_renamed<M: RowMap>(
    alloc: Global,
    rows: &M,
    of: &KeyPath,
    number: u64,
    span: Span,
) -> Result<bool, OutOfMemory>
    ensures { IfOk result (λ it. OnFalse it
        (HasNoneRenamed (M.rows rows.now) of.now.volume.now of.now.bucket.now span number)) }
{
    let Some(before) = span.least.checked_sub(1) else {
        return Ok(true);
    };
    let of_renamed = RowKey::of_renamed(alloc, of.volume, of.bucket, number, before)?;
    match rows.next(&of_renamed) {
        Some((key, _row)) => Ok(is_within(key, of, number, span.greatest)),
        None => Ok(false),
    }
}

/// Whether this is the key of a renamed row of the snapshot, of an id up to the greatest.
fn is_within(key: &RowKey, of: &KeyPath, number: u64, greatest: u64) -> bool
    ensures { result ≡ within of.now.volume.now of.now.bucket.now number greatest key.now }
{
    match key {
        RowKey::Renamed {
            volume,
            bucket,
            owner,
            local,
        } => {
            *volume == *of.volume && *bucket == *of.bucket && *owner == number && *local <= greatest
        }
        _ => false,
    }
}

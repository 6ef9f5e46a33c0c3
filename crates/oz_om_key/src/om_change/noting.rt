//! The name that a key had is noted for the snapshots that have its blocks.

ghost use Rattle.std.specs.Prelude.{◌≡◌, ◌++◌, ◌∷◌, ◌&&◌, [], None, IfOk, option_copied};
ghost use Rattle.std.specs.Bool.{OnTrue};
ghost use Rattle.std.specs.List.{AllByRecursion, list_any};
ghost use Rattle.oz_decision.specs.Drafts.{row_by_row};
ghost use Rattle.oz_decision.specs.Versions.{version_at};
ghost use Rattle.oz_decision.specs.Walking.{is_live as live};
ghost use Rattle.oz_model.specs.Reach.{blocks_of};
ghost use Rattle.oz_om_key.specs.om_change.Noting.{is_wanted as wanted, noted};
ghost use Rattle.oz_om_key.specs.om_change.Numbers.{MayBeNoted};
ghost use Rattle.oz_om_key.specs.om_change.Passing.{IsLiveIn};
ghost use Rattle.oz_reclaim.specs.Held.{has_there, is_held as held, name_or as named_or};
ghost use Rattle.oz_rows.specs.Operations.{batch_bytes};
ghost use Rattle.oz_rows.specs.RowMaps.{is_block};
ghost use Rattle.oz_sound.specs.Sound.{blocks_of as all_blocks_of};
ghost use Rattle.oz_sound.specs.frames.Sessions.{blocks_in};

use crate::om_change::passing::numbers_in_question;
use crate::om_change::path::KeyPath;
use oz_decision::{Draft, has_row};
use oz_fields::{Block, Name, OutOfMemory, Piece, TryClone};
use oz_rows::{Row, RowKey, RowMap, SnapshotState};
use std::alloc::Global;

/// Behind a draft, the renamed row of each block of the key that a live snapshot has, where the bucket itself has none yet.
/// The row is the key's, and the numbers are those of the bucket's snapshots.
pub(crate) fn note_names<M: RowMap>(
    alloc: Global,
    rows: &M,
    draft: Draft,
    of: &KeyPath,
    numbers: &[u64],
    row: Option<&Row>,
) -> Result<Draft, OutOfMemory>
    requires { AllByRecursion (MayBeNoted of.now.volume.now of.now.bucket.now of.now.key.now) (version_at (option_copied row)) }
    ensures bytes { IfOk result (λ more. more.bytes ≡ draft.bytes ++ batch_bytes (row_by_row
        (noted (M.rows rows.now) of.now.volume.now of.now.bucket.now of.now.key.now numbers.now (version_at (option_copied row.entry))))) }
    ensures changes { IfOk result (λ more. more.changes ≡ draft.changes
        ++ noted (M.rows rows.now) of.now.volume.now of.now.bucket.now of.now.key.now numbers.now (version_at (option_copied row.entry))) }
{
    if numbers.is_empty() {
        return Ok(draft);
    }
    match row {
        Some(Row::Key { pieces, .. }) => {
            note_key(alloc, rows, draft, of, numbers, pieces.items())
        }
        _ => Ok(draft),
    }
}

/// The same of these pieces. Where the newest snapshot has them all no other is looked at; else the snapshots that may have one
/// are found first.
fn note_key<M: RowMap>(
    alloc: Global,
    rows: &M,
    before: Draft,
    of: &KeyPath,
    numbers: &[u64],
    pieces: &[Piece],
) -> Result<Draft, OutOfMemory>
    requires { AllByRecursion (MayBeNoted of.now.volume.now of.now.bucket.now of.now.key.now) (blocks_of pieces.now) }
    ensures bytes { IfOk result (λ more. more.bytes ≡ before.bytes ++ batch_bytes (row_by_row
        (noted (M.rows rows.now) of.now.volume.now of.now.bucket.now of.now.key.now numbers.now (blocks_of pieces.now)))) }
    ensures changes { IfOk result (λ more. more.changes ≡ before.changes
        ++ noted (M.rows rows.now) of.now.volume.now of.now.bucket.now of.now.key.now numbers.now (blocks_of pieces.now)) }
{
    let count = numbers.len();
    if count > 0 {
        let last = numbers[count - 1];
        if has_all(alloc, rows, of, last, pieces)? {
            return note_pieces(alloc, rows, before, of, &[last], pieces);
        }
    }
    let kept = numbers_in_question(alloc, rows, of, numbers, pieces)?;
    note_pieces(alloc, rows, before, of, &kept, pieces)
}

/// Whether the snapshot of this number is live, and has the blocks of all these pieces under the key's name.
fn has_all<M: RowMap>(
    alloc: Global,
    rows: &M,
    of: &KeyPath,
    number: u64,
    pieces: &[Piece],
) -> Result<bool, OutOfMemory>
    ensures { IfOk result (λ it. OnTrue it (AllByRecursion
        (IsLiveIn (M.rows rows.now) of.now.volume.now of.now.bucket.now of.now.key.now number) (blocks_of pieces.now))) }
{
    let of_snapshot = RowKey::of_snapshot(alloc, of.volume, of.bucket, number)?;
    if !is_live(rows, &of_snapshot) {
        return Ok(false);
    }
    let of_key = RowKey::of_snapshot_key(alloc, of.volume, of.bucket, number, of.key)?;
    for piece in pieces {
        if !is_there(rows, &of_key, piece.block) {
            return Ok(false);
        }
    }
    Ok(true)
}

fn note_pieces<M: RowMap>(
    alloc: Global,
    rows: &M,
    before: Draft,
    of: &KeyPath,
    numbers: &[u64],
    pieces: &[Piece],
) -> Result<Draft, OutOfMemory>
    requires { AllByRecursion (MayBeNoted of.now.volume.now of.now.bucket.now of.now.key.now) (blocks_of pieces.now) }
    ensures bytes { IfOk result (λ more. more.bytes ≡ before.bytes ++ batch_bytes (row_by_row
        (noted (M.rows rows.now) of.now.volume.now of.now.bucket.now of.now.key.now numbers.now (blocks_of pieces.now)))) }
    ensures changes { IfOk result (λ more. more.changes ≡ before.changes
        ++ noted (M.rows rows.now) of.now.volume.now of.now.bucket.now of.now.key.now numbers.now (blocks_of pieces.now)) }
{
    let mut draft = before;
    for piece in pieces {
        draft = note_block(alloc, rows, draft, of, numbers, piece.block)?;
    }
    Ok(draft)
}

fn note_block<M: RowMap>(
    alloc: Global,
    rows: &M,
    draft: Draft,
    of: &KeyPath,
    numbers: &[u64],
    block: Block,
) -> Result<Draft, OutOfMemory>
    requires { MayBeNoted of.now.volume.now of.now.bucket.now of.now.key.now block }
    ensures bytes { IfOk result (λ more. more.bytes ≡ draft.bytes ++ batch_bytes (row_by_row
        (noted (M.rows rows.now) of.now.volume.now of.now.bucket.now of.now.key.now numbers.now (block ∷ [])))) }
    ensures changes { IfOk result (λ more. more.changes ≡ draft.changes
        ++ noted (M.rows rows.now) of.now.volume.now of.now.bucket.now of.now.key.now numbers.now (block ∷ [])) }
{
    let of_renamed = RowKey::of_renamed(alloc, of.volume, of.bucket, 0, block.local)?;
    if !is_wanted(alloc, rows, &of_renamed, of, numbers, block)? {
        return Ok(draft);
    }
    let key = of.key.try_clone(alloc)?;
    draft.put(alloc, of_renamed, Row::Renamed { key })
}

/// Whether a live snapshot has the block of the key, and the bucket itself has no renamed row of it, which is named.
fn is_wanted<M: RowMap>(
    alloc: Global,
    rows: &M,
    of_renamed: &RowKey,
    of: &KeyPath,
    numbers: &[u64],
    block: Block,
) -> Result<bool, OutOfMemory>
    requires { of_renamed.now ≡ RowKey.Renamed of.now.volume.now of.now.bucket.now 0 block.local }
    ensures { IfOk result (λ it. it ≡ wanted (M.rows rows.now) of.now.volume.now of.now.bucket.now of.now.key.now numbers.now block) }
{
    if has_row(rows, of_renamed) {
        return Ok(false);
    }
    is_held(alloc, rows, of, numbers, block)
}

/// Whether a live snapshot has the block of the key: a pass from the last number to the first, which carries the name that the
/// block had there. The bucket itself has no renamed row of it.
fn is_held<'m, M: RowMap>(
    alloc: Global,
    rows: &'m M,
    of: &KeyPath<'m>,
    numbers: &[u64],
    block: Block,
) -> Result<bool, OutOfMemory>
    requires { M.rows rows.now (RowKey.Renamed of.now.volume.now of.now.bucket.now 0 block.local) ≡ None }
    ensures { IfOk result (λ it. it ≡ held (M.rows rows.now) of.now.volume.now of.now.bucket.now block of.now.key.now numbers.now) }
{
    let mut name = of.key;
    for i in (0..numbers.len()).rev() {
        let number = numbers[i];
        if is_in_snapshot(alloc, rows, of, number, name, block)? {
            return Ok(true);
        }
        let of_renamed = RowKey::of_renamed(alloc, of.volume, of.bucket, number, block.local)?;
        name = name_or(rows, &of_renamed, name);
    }
    Ok(false)
}

/// Whether the snapshot of this number is live, and has the block under this name.
fn is_in_snapshot<M: RowMap>(
    alloc: Global,
    rows: &M,
    of: &KeyPath,
    number: u64,
    name: &Name,
    block: Block,
) -> Result<bool, OutOfMemory>
    ensures { IfOk result (λ it. it ≡ (live (M.rows rows.now (RowKey.Snapshot of.now.volume.now of.now.bucket.now number))
        && has_there block (M.rows rows.now (RowKey.SnapshotKey of.now.volume.now of.now.bucket.now number name.now)))) }
{
    let of_key = RowKey::of_snapshot_key(alloc, of.volume, of.bucket, number, name)?;
    if !is_there(rows, &of_key, block) {
        return Ok(false);
    }
    let of_snapshot = RowKey::of_snapshot(alloc, of.volume, of.bucket, number)?;
    Ok(is_live(rows, &of_snapshot))
}

fn is_live<M: RowMap>(rows: &M, of_snapshot: &RowKey) -> bool
    ensures { result ≡ live (M.rows rows.now of_snapshot.now) }
{
    match rows.get(of_snapshot) {
        Some(Row::Snapshot { state, .. }) => *state == SnapshotState::Live,
        _ => false,
    }
}

/// Whether there is such a row, and it names the block.
fn is_there<M: RowMap>(rows: &M, key: &RowKey, block: Block) -> bool
    ensures { result ≡ has_there block (M.rows rows.now key.now) }
{
    match rows.get(key) {
        Some(row) => names(row, block),
        None => false,
    }
}

fn names(row: &Row, block: Block) -> bool
    ensures { result ≡ list_any (is_block block) (all_blocks_of row.now) }
{
    match row {
        Row::Key { pieces, .. } | Row::SnapshotKey { pieces, .. } => {
            is_in_pieces(pieces.items(), block)
        }
        Row::Open { blocks } | Row::Deleted { blocks } => is_among(blocks.items(), block),
        _ => false,
    }
}

fn is_in_pieces(pieces: &[Piece], block: Block) -> bool
    ensures { result ≡ list_any (is_block block) (blocks_in pieces.now) }
{
    for piece in pieces {
        if is_same(piece.block, block) {
            return true;
        }
    }
    false
}

fn is_among(blocks: &[Block], block: Block) -> bool
    ensures { result ≡ list_any (is_block block) blocks.now }
{
    blocks.iter().any(|other| is_same(*other, block))
}

fn is_same(other: Block, block: Block) -> bool
    ensures { result ≡ is_block block other }
{
    other.container == block.container && other.local == block.local
}

/// The name in a renamed row, or the one that is carried where there is no such row.
fn name_or<'m, M: RowMap>(rows: &'m M, of_renamed: &RowKey, carried: &'m Name) -> &'m Name
    ensures { result.now ≡ named_or (M.rows rows.now of_renamed.now) carried.now }
{
    match rows.get(of_renamed) {
        Some(Row::Renamed { key }) => key,
        _ => carried,
    }
}

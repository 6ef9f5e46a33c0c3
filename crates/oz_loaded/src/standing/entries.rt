//! Keys, sessions and snapshots out of rows that were gathered.

ghost use Rattle.std.specs.Prelude.{◌≡◌, ◌++◌, Some, option_copied, IfOk, OnOk};
ghost use Rattle.oz_sound.specs.StandsFor.{pieces_in};
ghost use Rattle.oz_loaded.specs.standing.Made.{entered, filled, name_shown, pieces_shown, session_shown, snapshot_in};
ghost use Rattle.oz_loaded.specs.standing.Made.{snapshots_in_order};

use oz_effects::RowRef;
use oz_fields::{List, Name, OutOfMemory, Piece, TryClone};
use oz_namespace::{NameMap, NumberMap, Session, Snapshot};
use oz_rows::{Row, RowKey, SnapshotState};
use std::alloc::Global;

/// The pieces of a bucket's keys, or of a snapshot's where its number is given.
pub(crate) fn pieces_of(
    alloc: Global,
    rows: &[RowRef],
    snapshot: Option<u64>,
) -> Result<NameMap<List<Piece>>, OutOfMemory>
    ensures { IfOk result (λ made. made ≡ filled (pieces_shown snapshot) rows.now) }
{
    let mut made = NameMap::new(alloc);
    for entry in rows {
        put_pieces(alloc, entry, snapshot, &mut made)?;
    }
    Ok(made)
}

fn put_pieces(
    alloc: Global,
    entry: &RowRef,
    snapshot: Option<u64>,
    made: &mut NameMap<List<Piece>>,
) -> Result<(), OutOfMemory>
    ensures { OnOk result (made.new ≡ entered made.old (pieces_shown snapshot entry.now)) }
{
    let Some(name) = shown_name(entry.key, snapshot) else {
        return Ok(());
    };
    let Some(pieces) = shown_pieces(entry.row) else {
        return Ok(());
    };
    made.insert(alloc, name.try_clone(alloc)?, pieces.try_clone(alloc)?)
}

fn shown_name(key: &RowKey, snapshot: Option<u64>) -> Option<&Name>
    ensures { option_copied result ≡ name_shown snapshot key.now }
{
    match (key, snapshot) {
        (RowKey::Key { key, .. }, None) => Some(key),
        (
            RowKey::SnapshotKey {
                snapshot: number,
                key,
                ..
            },
            Some(snapshot),
        ) => { if *number == snapshot { Some(key) } else { None } }
        _ => None,
    }
}

fn shown_pieces(row: &Row) -> Option<&List<Piece>>
    ensures { option_copied result ≡ pieces_in (Some row.now) }
{
    match row {
        Row::Key { pieces, .. } | Row::SnapshotKey { pieces, .. } => Some(pieces),
        _ => None,
    }
}

/// The sessions by their numbers.
pub(crate) fn sessions_of(alloc: Global, rows: &[RowRef]) -> Result<NumberMap<Session>, OutOfMemory>
    ensures { IfOk result (λ made. made ≡ filled session_shown rows.now) }
{
    let mut made = NumberMap::new(alloc);
    for entry in rows {
        put_session(alloc, entry, &mut made)?;
    }
    Ok(made)
}

fn put_session(
    alloc: Global,
    entry: &RowRef,
    made: &mut NumberMap<Session>,
) -> Result<(), OutOfMemory>
    ensures { OnOk result (made.new ≡ entered made.old (session_shown entry.now)) }
{
    let (RowKey::Open { key, number, .. }, Row::Open { blocks }) = (entry.key, entry.row) else {
        return Ok(());
    };
    let session = Session {
        key: key.try_clone(alloc)?,
        blocks: blocks.try_clone(alloc)?,
    };
    made.insert(alloc, *number, session)
}

/// The live snapshots in the order of their rows. Each goes through all rows that are kept for snapshots of the bucket,
/// of which there are few.
pub(crate) fn snapshots_of(
    alloc: Global,
    rows: &[RowRef],
    kept: &[RowRef],
) -> Result<List<Snapshot>, OutOfMemory>
    ensures { IfOk result (λ made. made ≡ snapshots_in_order kept.now rows.now) }
{
    let mut made = Vec::new(alloc);
    for entry in rows {
        put_snapshot(alloc, entry, kept, &mut made)?;
    }
    Ok(List::of(made))
}

fn put_snapshot(
    alloc: Global,
    entry: &RowRef,
    kept: &[RowRef],
    made: &mut Vec<Snapshot>,
) -> Result<(), OutOfMemory>
    ensures { OnOk result (made.new.items ≡ made.old.items ++ snapshot_in kept.now entry.now.key entry.now.row) }
{
    let (RowKey::Snapshot { number, .. }, Row::Snapshot { name, state, .. }) = (
        entry.key, entry.row,
    ) else {
        return Ok(());
    };
    match state {
        SnapshotState::Live => {
            let keys = pieces_of(alloc, kept, Some(*number))?;
            let name = name.try_clone(alloc)?;
            made.push(Snapshot { name, keys })?;
            Ok(())
        }
        SnapshotState::Marked => Ok(()),
    }
}

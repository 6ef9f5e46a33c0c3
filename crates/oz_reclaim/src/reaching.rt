//! The blocks in reach, gathered from the rows that show them.

ghost use Rattle.std.specs.Prelude.{◌≡◌, ◌||◌, ◌&&◌, ◌↔◌, List, IsTrue, OnOk, IfOk, option_copied};
ghost use Rattle.std.specs.List.{list_any};
ghost use Rattle.oz_decision.specs.Walking.{is_live as live};
ghost use Rattle.oz_effects.specs.changes.Steps.{holds as does_hold};
ghost use Rattle.oz_fields.specs.declared.block.Block.{Block as AnyBlock};
ghost use Rattle.oz_reclaim.specs.Gathered.{IsLeast};
ghost use Rattle.oz_reclaim.specs.Reach.{IsShown, is_shown as shown};
ghost use Rattle.oz_reclaim.specs.Shown.{IsShownIn, shows};
ghost use Rattle.oz_reclaim.specs.sweep.Filing.{is_of_live as of_live};
ghost use Rattle.oz_rows.specs.Rows.{kind_of};
ghost use Rattle.oz_rows.specs.RowMaps.{is_block};
ghost use Rattle.oz_sound.specs.Sound.{blocks_of as all_blocks_of};
ghost use Rattle.oz_sound.specs.frames.Sessions.{blocks_in};

use crate::gathering::rows_of_kind;
use oz_effects::RowRef;
use oz_fields::{Block, Name, OutOfMemory, Piece};
use oz_rows::{Row, RowKey, RowMap, SnapshotState};
use std::alloc::Global;
use std::collections::BTreeSet;

/// The blocks of all keys, sessions and live snapshots.
pub(crate) fn shown_blocks<M: RowMap>(
    alloc: Global,
    rows: &M,
) -> Result<BTreeSet<Block>, OutOfMemory>
    ensures { IfOk result (λ blocks. (block : AnyBlock) → IsTrue (does_hold blocks block) ↔ IsShown (M.rows rows.now) block) }
{
    let none = Name::copy(alloc, b"")?;
    let first_key = RowKey::of_key(alloc, &none, &none, &none)?;
    let first_session = RowKey::of_session(alloc, &none, &none, &none, 0)?;
    let first_snapshot_key = RowKey::of_snapshot_key(alloc, &none, &none, 0, &none)?;
    let mut blocks = BTreeSet::new(alloc);
    add_kind(alloc, rows, &mut blocks, &first_key)?;
    add_kind(alloc, rows, &mut blocks, &first_session)?;
    add_kind(alloc, rows, &mut blocks, &first_snapshot_key)?;
    Ok(blocks)
}

/// The blocks that rows of the kind of `start` show.
fn add_kind<M: RowMap>(
    alloc: Global,
    rows: &M,
    blocks: &mut BTreeSet<Block>,
    start: &RowKey,
) -> Result<(), OutOfMemory>
    requires { IsLeast start.now }
    ensures { OnOk result ((block : AnyBlock)
        → IsShownIn (M.rows rows.now) (kind_of start.now) block (does_hold blocks.old block) (does_hold blocks.new block)) }
{
    let found = rows_of_kind(alloc, rows, start)?;
    add_shown(alloc, rows, blocks, found.as_slice())?;
    Ok(())
}

fn add_shown<M: RowMap>(
    alloc: Global,
    rows: &M,
    blocks: &mut BTreeSet<Block>,
    found: &[RowRef],
) -> Result<(), OutOfMemory>
    ensures { OnOk result ((block : AnyBlock) → does_hold blocks.new block
        ≡ (does_hold blocks.old block || list_any (shows (M.rows rows.now) block) found.now)) }
{
    for entry in found {
        add_entry(alloc, rows, blocks, entry)?;
    }
    Ok(())
}

fn add_entry<M: RowMap>(
    alloc: Global,
    rows: &M,
    blocks: &mut BTreeSet<Block>,
    entry: &RowRef,
) -> Result<(), OutOfMemory>
    ensures { OnOk result ((block : AnyBlock) → does_hold blocks.new block
        ≡ (does_hold blocks.old block || shows (M.rows rows.now) block entry.now)) }
{
    if is_shown(alloc, rows, entry.key)? {
        return add_row(blocks, entry.row);
    }
    Ok(())
}

/// Whether what the row of this key names is in reach.
fn is_shown<M: RowMap>(alloc: Global, rows: &M, key: &RowKey) -> Result<bool, OutOfMemory>
    ensures { IfOk result (λ it. it ≡ shown (M.rows rows.now) key.now) }
{
    match key {
        RowKey::Key { .. } | RowKey::Open { .. } => Ok(true),
        _ => is_of_live(alloc, rows, key),
    }
}

/// Whether a row is that of a key of a live snapshot.
pub(crate) fn is_of_live<M: RowMap>(
    alloc: Global,
    rows: &M,
    key: &RowKey,
) -> Result<bool, OutOfMemory>
    ensures { IfOk result (λ it. it ≡ of_live (M.rows rows.now) key.now) }
{
    match key {
        RowKey::SnapshotKey {
            volume,
            bucket,
            snapshot,
            ..
        } => {
            let of_snapshot = RowKey::of_snapshot(alloc, volume, bucket, *snapshot)?;
            Ok(is_live(rows.get(&of_snapshot)))
        }
        _ => Ok(false),
    }
}

/// Whether a row is there and that of a snapshot that wasn't deleted.
fn is_live(row: Option<&Row>) -> bool
    ensures { result ≡ live (option_copied row.entry) }
{
    match row {
        Some(Row::Snapshot { state, .. }) => *state == SnapshotState::Live,
        _ => false,
    }
}

/// Adds the blocks of a row.
pub(crate) fn add_row(blocks: &mut BTreeSet<Block>, row: &Row) -> Result<(), OutOfMemory>
    ensures { OnOk result ((block : AnyBlock) → does_hold blocks.new block
        ≡ (does_hold blocks.old block || list_any (is_block block) (all_blocks_of row.now))) }
{
    match row {
        Row::Key { pieces, .. } | Row::SnapshotKey { pieces, .. } => {
            add_pieces(blocks, pieces.items())
        }
        Row::Open { blocks: others } | Row::Deleted { blocks: others } => {
            add_each(blocks, others.items())
        }
        _ => Ok(()),
    }
}

fn add_pieces(blocks: &mut BTreeSet<Block>, pieces: &[Piece]) -> Result<(), OutOfMemory>
    ensures { OnOk result ((block : AnyBlock) → does_hold blocks.new block
        ≡ (does_hold blocks.old block || list_any (is_block block) (blocks_in pieces.now))) }
{
    for piece in pieces {
        add_one(blocks, piece.block)?;
    }
    Ok(())
}

pub(crate) fn add_each(blocks: &mut BTreeSet<Block>, others: &[Block]) -> Result<(), OutOfMemory>
    ensures { OnOk result ((block : AnyBlock) → does_hold blocks.new block
        ≡ (does_hold blocks.old block || list_any (is_block block) others.now)) }
{
    for other in others {
        add_one(blocks, *other)?;
    }
    Ok(())
}

fn add_one(blocks: &mut BTreeSet<Block>, block: Block) -> Result<(), OutOfMemory>
    ensures { OnOk result ((other : AnyBlock) → does_hold blocks.new other
        ≡ (does_hold blocks.old other || is_block other block)) }
{
    blocks.insert(block)?;
    Ok(())
}

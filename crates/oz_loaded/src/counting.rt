//! What is counted of rows as they are loaded.

ghost use Rattle.std.specs.Prelude.{◌≡◌, map, IfOk};
ghost use Rattle.oz_fields.specs.declared.block.Piece.{Piece as AnyPiece};
ghost use Rattle.oz_loaded.specs.Counted.{IsGreatestId, deleted_blocks as blocks_of_deleted};
ghost use Rattle.oz_loaded.specs.Counted.{greatest_in as greatest_of_all, greatest_local, greatest_of as greatest_of_one};
ghost use Rattle.oz_loaded.specs.Counted.{left_in as blocks_left, or_none};
ghost use Rattle.oz_rows.specs.RowMaps.{KeysRise, row_of};
ghost use Rattle.oz_sound.specs.Sound.{blocks_of};
ghost use Rattle.oz_store.specs.Store.{local_in};

use oz_effects::RowRef;
use oz_fields::{Block, List, OutOfMemory, Piece};
use oz_rows::{Row, RowKey};
use std::alloc::Global;

/// The blocks of all deleted rows, in the order of the rows.
pub(crate) fn left_in(alloc: Global, rows: &[RowRef]) -> Result<List<Block>, OutOfMemory>
    ensures { IfOk result (λ left. left ≡ blocks_left rows.now) }
{
    let mut left = Vec::new(alloc);
    for entry in rows {
        left.extend_from_slice(deleted_blocks(entry))?;
    }
    Ok(List::of(left))
}

/// The blocks of a deleted row, and none of another.
fn deleted_blocks<'m>(entry: &RowRef<'m>) -> &'m [Block]
    ensures { result.now ≡ blocks_of_deleted entry.now.key entry.now.row }
{
    match (entry.key, entry.row) {
        (RowKey::Deleted { .. }, Row::Deleted { blocks }) => blocks.items(),
        _ => &[],
    }
}

/// The greatest local id in any of the rows, which stand in order; 0 where there is none.
pub(crate) fn greatest_in(rows: &[RowRef]) -> u64
    requires { KeysRise rows.now }
    ensures { IsGreatestId (row_of rows.now) result }
{
    greatest_of_rows(rows)
}

fn greatest_of_rows(rows: &[RowRef]) -> u64
    ensures { result ≡ greatest_of_all rows.now }
{
    let mut greatest = 0;
    for entry in rows {
        greatest = greatest.max(greatest_of(entry));
    }
    greatest
}

/// The greatest local id in one row and its key.
fn greatest_of(entry: &RowRef) -> u64
    ensures { result ≡ greatest_of_one entry.now }
{
    in_key(entry.key).max(in_row(entry.row))
}

fn in_key(key: &RowKey) -> u64
    ensures { result ≡ or_none (local_in key.now) }
{
    match key {
        RowKey::Deleted { local, .. } | RowKey::Renamed { local, .. } => *local,
        _ => 0,
    }
}

fn in_row(row: &Row) -> u64
    ensures { result ≡ greatest_local (blocks_of row.now) }
{
    match row {
        Row::Key { pieces, .. } | Row::SnapshotKey { pieces, .. } => in_pieces(pieces.items()),
        Row::Open { blocks } | Row::Deleted { blocks } => in_blocks(blocks.items()),
        _ => 0,
    }
}

fn in_pieces(pieces: &[Piece]) -> u64
    ensures { result ≡ greatest_local (map (λ (piece : AnyPiece). piece.block) pieces.now) }
{
    let mut greatest = 0;
    for piece in pieces {
        greatest = greatest.max(piece.block.local);
    }
    greatest
}

fn in_blocks(blocks: &[Block]) -> u64
    ensures { result ≡ greatest_local blocks.now }
{
    let mut greatest = 0;
    for block in blocks {
        greatest = greatest.max(block.local);
    }
    greatest
}

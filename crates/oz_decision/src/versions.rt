//! The row of a key.

ghost use Rattle.std.specs.Prelude.{◌≡◌, IfOk};
ghost use Rattle.std.specs.List.{list_all};
ghost use Rattle.oz_decision.specs.Sessions.{is_good};
ghost use Rattle.oz_decision.specs.Versions.{have_good, is_version, version_at};
ghost use Rattle.oz_fields.specs.declared.block.Piece.{Piece as AnyPiece};
ghost use Rattle.oz_model.specs.Reach.{blocks_of};

use crate::sessions::is_good;
use oz_fields::{Block, List, OutOfMemory, Piece};
use oz_names::MOST_BLOCKS;
use oz_rows::{Row, RowKey, RowMap};
use std::alloc::Global;

/// Whether the row of this key, if there is one, keeps the rules of rows in its blocks.
pub fn is_version<M: RowMap>(rows: &M, of_key: &RowKey) -> bool
    ensures { result ≡ is_version (M.rows rows.now of_key.now) }
{
    match rows.get(of_key) {
        Some(Row::Key { pieces, .. }) => have_good_blocks(pieces.items()),
        _ => true,
    }
}

/// The blocks of the key's version, none where there is no such key.
pub fn version_blocks<M: RowMap>(
    alloc: Global,
    rows: &M,
    of_key: &RowKey,
) -> Result<List<Block>, OutOfMemory>
    ensures { IfOk result (λ blocks. blocks ≡ version_at (M.rows rows.now of_key.now)) }
{
    match rows.get(of_key) {
        Some(Row::Key { pieces, .. }) => blocks_in(alloc, pieces.items()),
        _ => Ok(List::new(alloc)),
    }
}

/// Whether there are no more pieces than a key may have, in blocks whose numbers are as those of blocks have to be.
fn have_good_blocks(pieces: &[Piece]) -> bool
    ensures { result ≡ have_good pieces.now }
{
    pieces.len() <= MOST_BLOCKS as usize && each_has_good(pieces)
}

fn each_has_good(pieces: &[Piece]) -> bool
    ensures { result ≡ list_all (λ (piece : AnyPiece). is_good piece.block) pieces.now }
{
    pieces.iter().all(|piece| is_good(piece.block))
}

/// The blocks in which pieces stand, in their order.
fn blocks_in(alloc: Global, pieces: &[Piece]) -> Result<List<Block>, OutOfMemory>
    ensures { IfOk result (λ blocks. blocks ≡ blocks_of pieces.now) }
{
    let mut blocks = Vec::with_capacity(alloc, pieces.len())?;
    for piece in pieces {
        blocks.push(piece.block)?;
    }
    Ok(List::of(blocks))
}

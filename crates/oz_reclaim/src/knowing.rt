//! Of which local ids it is known that no deleted row with one has a block in reach.

ghost use Rattle.std.specs.Prelude.{◌≡◌, ◌↔◌, IsTrue, IfOk, not};
ghost use Rattle.std.specs.List.{AllByRecursion, list_any};
ghost use Rattle.oz_effects.specs.changes.Steps.{holds as does_hold};
ghost use Rattle.oz_fields.specs.declared.block.Piece.{Piece as AnyPiece};
ghost use Rattle.oz_reclaim.specs.Known.{IsClearIfKnown, IsOfKnown};
ghost use Rattle.oz_reclaim.specs.Service.{AreUnreached};
ghost use Rattle.oz_sound.specs.Sound.{blocks_of as all_blocks_of};
ghost use Rattle.oz_sound.specs.frames.Sessions.{blocks_in};

use crate::finding::{is_used, none_used};
use crate::gathering::rows_of_kind;
use crate::reaching::shown_blocks;
use oz_effects::RowRef;
use oz_fields::{Block, Name, OutOfMemory, Piece};
use oz_rows::{Row, RowKey, RowMap};
use std::alloc::Global;
use std::collections::BTreeSet;

/// Whether no deleted row with one of these local ids has a block in reach. It goes through all keys and all deleted rows.
pub(crate) fn none_reached<M: RowMap>(
    alloc: Global,
    rows: &M,
    known: &[u64],
) -> Result<bool, OutOfMemory>
    ensures { IfOk result (λ none. IsTrue none ↔ AreUnreached (M.rows rows.now) known.now) }
{
    let shown = shown_blocks(alloc, rows)?;
    let none = Name::copy(alloc, b"")?;
    let start = RowKey::of_deleted(alloc, &none, &none, 0, &none, 0)?;
    let found = rows_of_kind(alloc, rows, &start)?;
    Ok(are_clear(found.as_slice(), known, &shown))
}

/// Whether those of the rows whose local ids are known have none of these blocks.
fn are_clear(rows: &[RowRef], known: &[u64], shown: &BTreeSet<Block>) -> bool
    ensures { IsTrue result ↔ AllByRecursion (IsClearIfKnown known.now (does_hold shown.now)) rows.now }
{
    rows.iter()
        .all(|entry| is_clear_if_known(entry, known, shown))
}

fn is_clear_if_known(entry: &RowRef, known: &[u64], shown: &BTreeSet<Block>) -> bool
    ensures { IsTrue result ↔ IsClearIfKnown known.now (does_hold shown.now) entry.now }
{
    !is_of_known(entry.key, known) || is_clear(entry.row, shown)
}

fn is_of_known(key: &RowKey, known: &[u64]) -> bool
    ensures { IsTrue result ↔ IsOfKnown known.now key.now }
{
    match key {
        RowKey::Deleted { local, .. } => known.contains(local),
        _ => false,
    }
}

/// Whether a row has none of these blocks.
fn is_clear(row: &Row, shown: &BTreeSet<Block>) -> bool
    ensures { result ≡ not (list_any (does_hold shown.now) (all_blocks_of row.now)) }
{
    match row {
        Row::Key { pieces, .. } | Row::SnapshotKey { pieces, .. } => {
            are_pieces_clear(pieces.items(), shown)
        }
        Row::Open { blocks } | Row::Deleted { blocks } => none_used(blocks.items(), shown),
        _ => true,
    }
}

fn are_pieces_clear(pieces: &[Piece], shown: &BTreeSet<Block>) -> bool
    ensures { result ≡ not (list_any (does_hold shown.now) (blocks_in pieces.now)) }
{
    !is_one_shown(pieces, shown)
}

fn is_one_shown(pieces: &[Piece], shown: &BTreeSet<Block>) -> bool
    ensures { result ≡ list_any (λ (piece : AnyPiece). does_hold shown.now piece.block) pieces.now }
{
    pieces.iter().any(|piece| is_used(shown, &piece.block))
}

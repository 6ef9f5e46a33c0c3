//! What a sweep finds.

ghost use Rattle.std.specs.Prelude.{◌≡◌, ◌||◌, ◌&&◌, not, false, IfOk, option_copied};
ghost use Rattle.std.specs.List.{list_any};
ghost use Rattle.oz_effects.specs.changes.Steps.{holds as does_hold};
ghost use Rattle.oz_reclaim.specs.Gathered.{IsLeast};
ghost use Rattle.oz_reclaim.specs.sweep.Found.{TellsOfHomes, TellsPartly, is_partly, is_partly_at, is_partly_row};
ghost use Rattle.oz_rows.specs.declared.entry.RowEntry.{RowEntry as AnyEntry};
ghost use Rattle.oz_rows.specs.RowMaps.{row_of};
ghost use Rattle.oz_rows.specs.Rows.{kind_of};

use crate::gathering::rows_of_kind;
use crate::sweep::homes::Homes;
use oz_effects::RowRef;
use oz_fields::{Block, OutOfMemory};
use oz_rows::{Row, RowKey};
use oz_sorted::SortedMap;
use oz_tables::Tables;
use std::alloc::Global;
use std::collections::BTreeSet;

/// Dead rows of which no block is pinned, each with the index since which its blocks are out of reach, and whether there is one
/// of which some blocks are pinned and others aren't.
#[derive(Debug, Drop)]
pub struct Found {
    pub rows: Vec<(RowKey, u64)>,
    pub is_partly_pinned: bool,
}

/// Whether one of the rows of the kind of `start` has blocks that are pinned, and others that aren't. It looks at the rows that have
/// pinned blocks alone, unless rows shared blocks.
pub(crate) fn is_one_partly_pinned(
    alloc: Global,
    rows: &Tables,
    homes: &Homes,
    start: &RowKey,
    pinned: &[Block],
    pins: &BTreeSet<Block>,
) -> Result<bool, OutOfMemory>
    requires { IsLeast start.now }
    ensures { IfOk result (λ is. TellsPartly (row_of rows.now.rows) (kind_of start.now) homes.now pinned.now (does_hold pins.now) is) }
{
    if pinned.is_empty() {
        return Ok(false);
    }
    if homes.is_shared {
        let found = rows_of_kind(alloc, rows, start)?;
        return Ok(has_partly_pinned(found.as_slice(), pins));
    }
    Ok(is_one_at_home(rows, &homes.keys, pinned, pins))
}

fn is_one_at_home(
    rows: &Tables,
    keys: &SortedMap<Block, RowKey>,
    pinned: &[Block],
    pins: &BTreeSet<Block>,
) -> bool
    ensures { TellsOfHomes (row_of rows.now.rows) keys.now.entries pinned.now (does_hold pins.now) result }
{
    pinned
        .iter()
        .any(|block| is_home_partly_pinned(rows, keys.get(block), pins))
}

fn is_home_partly_pinned(rows: &Tables, key: Option<&RowKey>, pins: &BTreeSet<Block>) -> bool
    ensures { result ≡ is_partly_at (row_of rows.now.rows) (does_hold pins.now) (option_copied key.entry) }
{
    match key {
        Some(key) => is_row_partly_pinned(rows.get(key), pins),
        None => false,
    }
}

fn is_row_partly_pinned(row: Option<&Row>, pins: &BTreeSet<Block>) -> bool
    ensures { result ≡ is_partly_row (does_hold pins.now) (option_copied row.entry) }
{
    match row {
        Some(row) => is_partly_pinned(row, pins),
        None => false,
    }
}

fn has_partly_pinned(rows: &[RowRef], pins: &BTreeSet<Block>) -> bool
    ensures { result ≡ list_any (λ (entry : AnyEntry). is_partly (does_hold pins.now) entry.row) rows.now }
{
    rows.iter().any(|entry| is_partly_pinned(entry.row, pins))
}

fn is_partly_pinned(row: &Row, pins: &BTreeSet<Block>) -> bool
    ensures { result ≡ is_partly (does_hold pins.now) row.now }
{
    match row {
        Row::Deleted { blocks } => {
            is_one_pinned(blocks.items(), pins) && is_one_free(blocks.items(), pins)
        }
        _ => false,
    }
}

fn is_one_pinned(blocks: &[Block], pins: &BTreeSet<Block>) -> bool
    ensures { result ≡ list_any (does_hold pins.now) blocks.now }
{
    blocks.iter().any(|block| is_pinned(pins, block))
}

fn is_one_free(blocks: &[Block], pins: &BTreeSet<Block>) -> bool
    ensures { result ≡ list_any (λ block. not (does_hold pins.now block)) blocks.now }
{
    blocks.iter().any(|block| !is_pinned(pins, block))
}

fn is_pinned(pins: &BTreeSet<Block>, block: &Block) -> bool
    ensures { result ≡ does_hold pins.now block.now }
{
    pins.contains(block)
}

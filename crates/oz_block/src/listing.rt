//! Lists of what is held.

ghost use Rattle.std.specs.Prelude.{◌≡◌, ◌&&◌, ◌++◌, max, map, filter_map, is_some, IfOk, OnOk, if◌then◌else◌};
ghost use Rattle.std.specs.Option.{option_to_list};
ghost use Rattle.std.specs.BTreeMap.{keys};
ghost use Rattle.std.specs.List.Sorted.{IsStrictlySortedBy};
ghost use Rattle.std.specs.Ordering.{nat_cmp};
ghost use Rattle.oz_block.specs.Lists.{piece_of, local_of, greatest_local, replica_state};
ghost use Rattle.oz_entries.specs.Held.{block_order};

use oz_container::State;
use oz_entries::{BlockRow, Replica};
use oz_fields::{Block, OutOfMemory, Piece};
use std::alloc::Global;
use std::collections::BTreeMap;

/// The rows of blocks, None where there is only room for one.
type Rows = BTreeMap<Block, Option<BlockRow>>;

/// The blocks that have rows, with their lengths.
pub(crate) fn pieces(alloc: Global, rows: &Rows) -> Result<Vec<Piece>, OutOfMemory>
    ensures pieces { IfOk result (λ pieces. pieces.items ≡ filter_map piece_of rows.now.entries) }
    ensures ordered { IsStrictlySortedBy block_order (keys rows.now) }
{
    let mut pieces = Vec::new(alloc);
    for (block, row) in rows {
        push_some(&mut pieces, piece(*block, row))?;
    }
    Ok(pieces)
}

fn piece(block: Block, row: &Option<BlockRow>) -> Option<Piece>
    ensures { result ≡ piece_of (block, row.now) }
{
    match row {
        Some(row) => Some(Piece {
            block,
            length: row.length,
        }),
        None => None,
    }
}

fn push_some<T: Drop>(items: &mut Vec<T>, item: Option<T>) -> Result<(), OutOfMemory>
    ensures { OnOk result (items.new.items ≡ items.old.items ++ option_to_list item) }
{
    if let Some(item) = item {
        items.push(item)?;
    }
    Ok(())
}

/// The own numbers of the blocks of a container that have rows.
pub(crate) fn locals(alloc: Global, rows: &Rows, container: u64) -> Result<Vec<u64>, OutOfMemory>
    ensures locals { IfOk result (λ locals. locals.items ≡ filter_map (local_of container) rows.now.entries) }
    ensures ordered { IsStrictlySortedBy block_order (keys rows.now) }
{
    let mut locals = Vec::new(alloc);
    for (block, row) in rows {
        push_some(&mut locals, local(container, *block, row))?;
    }
    Ok(locals)
}

fn local(container: u64, block: Block, row: &Option<BlockRow>) -> Option<u64>
    ensures { result ≡ local_of container (block, row.now) }
{
    if container == block.container && row.is_some() {
        return Some(block.local);
    }
    None
}

/// The greatest own number of a block that has a row, 0 for none.
pub(crate) fn greatest(rows: &Rows) -> u64
    ensures greatest { result ≡ greatest_local rows.now.entries }
    ensures ordered { IsStrictlySortedBy block_order (keys rows.now) }
{
    let mut greatest = 0;
    for (block, row) in rows {
        greatest = greater(greatest, *block, row);
    }
    greatest
}

fn greater(greatest: u64, block: Block, row: &Option<BlockRow>) -> u64
    ensures { result ≡ max greatest (if is_some row.now then block.local else 0) }
{
    if row.is_some() {
        return greatest.max(block.local);
    }
    greatest
}

/// The container, the state and the greatest transaction of replicas.
pub(crate) fn replicas(
    alloc: Global,
    replicas: &BTreeMap<u64, Replica>,
) -> Result<Vec<(u64, State, u64)>, OutOfMemory>
    ensures replicas { IfOk result (λ states. states.items ≡ map replica_state replicas.now.entries) }
    ensures ordered { IsStrictlySortedBy nat_cmp (keys replicas.now) }
{
    let mut states = Vec::new(alloc);
    for (container, replica) in replicas {
        states.push((*container, replica.state, replica.greatest))?;
    }
    Ok(states)
}

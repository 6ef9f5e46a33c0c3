//! Which deleted rows may go.

ghost use Rattle.std.specs.Prelude.{◌≡◌, ◌≤◌, ◌++◌, Some, length, not, IfOk, OnOk};
ghost use Rattle.std.specs.List.{AllByRecursion, list_any};
ghost use Rattle.oz_decision.specs.Meets.{AreInGrammar};
ghost use Rattle.oz_effects.specs.changes.Steps.{holds as does_hold};
ghost use Rattle.oz_namespace.specs.declared.namespace.Namespace.{Namespace as AnyNamespace};
ghost use Rattle.oz_reclaim.specs.Found.{AreFirstFree, free_key, is_free as free};
ghost use Rattle.oz_reclaim.specs.Gathered.{IsLeast};
ghost use Rattle.oz_reclaim.specs.Reclaimable.{IsAmongFirst, IsReclaimable};
ghost use Rattle.oz_rows.specs.Counts.{AllRise};
ghost use Rattle.oz_rows.specs.declared.key.RowKey.{RowKey as AnyKey};
ghost use Rattle.oz_rows.specs.Rows.{kind_of};
ghost use Rattle.oz_rows.specs.RowMaps.{row_of};
ghost use Rattle.oz_sound.specs.StandsFor.{StandsFor};

use crate::reaching::{add_each, shown_blocks};
use oz_fields::{Block, Name, OutOfMemory, TryClone};
use oz_rows::{Row, RowKey, RowMap};
use oz_tables::Tables;
use std::alloc::Global;
use std::collections::BTreeSet;

/// How many deleted rows are taken at a time.
pub const MOST_PURGED: u16 = 1_024;

/// Deleted rows none of whose blocks is in reach, by what is durable alone, or pinned: the first `most` of them by the
/// order of row keys, all where there are fewer.
pub fn reclaimable(
    alloc: Global,
    durable: &Tables,
    pinned: &[Block],
    most: u16,
) -> Result<Vec<RowKey>, OutOfMemory>
    requires some { 1 ≤ most }
    requires few { most ≤ MOST_PURGED }
    ensures only { IfOk result (λ keys. (namespace : AnyNamespace) → AreInGrammar (row_of durable.now.rows)
        → StandsFor (row_of durable.now.rows) namespace
        → AllByRecursion (IsReclaimable (row_of durable.now.rows) namespace pinned.now) keys.items) }
    // Fewer than `most` are all of them, so there are none exactly where none may go.
    ensures first { IfOk result (λ keys. (namespace : AnyNamespace) → AreInGrammar (row_of durable.now.rows)
        → StandsFor (row_of durable.now.rows) namespace → (key : AnyKey)
        → IsReclaimable (row_of durable.now.rows) namespace pinned.now key → IsAmongFirst most keys.items key) }
    ensures few { IfOk result (λ keys. length keys.items ≤ most) }
    // Each stands there once.
    ensures in_order { IfOk result (λ keys. AllRise keys.items) }
{
    let mut used = shown_blocks(alloc, durable)?;
    add_each(&mut used, pinned)?;
    let none = Name::copy(alloc, b"")?;
    let start = RowKey::of_deleted(alloc, &none, &none, 0, &none, 0)?;
    let keys = first_free(alloc, durable, &start, &used, most)?;
    Ok(keys)
}

/// The keys of the first deleted rows, at most so many, of whose blocks none is used.
pub(crate) fn first_free<M: RowMap>(
    alloc: Global,
    rows: &M,
    start: &RowKey,
    used: &BTreeSet<Block>,
    most: u16,
) -> Result<Vec<RowKey>, OutOfMemory>
    requires some { 1 ≤ most }
    requires least { IsLeast start.now }
    requires deleted { kind_of start.now ≡ 5 }
    ensures { IfOk result (λ keys. AreFirstFree (M.rows rows.now) (does_hold used.now) most keys.items) }
{
    let mut keys = own_free(alloc, rows, start, used)?;
    let mut last = start;
    for _ in 0..u64::MAX {
        if keys.len() == most as usize {
            return Ok(keys);
        }
        let Some((key, row)) = rows.next(last) else {
            return Ok(keys);
        };
        add_free(alloc, key, row, used, &mut keys)?;
        last = key;
    }
    Err(OutOfMemory)
}

/// A key, where it has such a row itself.
fn own_free<M: RowMap>(
    alloc: Global,
    rows: &M,
    key: &RowKey,
    used: &BTreeSet<Block>,
) -> Result<Vec<RowKey>, OutOfMemory>
    ensures { IfOk result (λ keys. keys.items ≡ free_key (does_hold used.now) key.now (M.rows rows.now key.now)) }
{
    let mut keys = Vec::new(alloc);
    if let Some(row) = rows.get(key) {
        add_free(alloc, key, row, used, &mut keys)?;
    }
    Ok(keys)
}

fn add_free(
    alloc: Global,
    key: &RowKey,
    row: &Row,
    used: &BTreeSet<Block>,
    keys: &mut Vec<RowKey>,
) -> Result<(), OutOfMemory>
    ensures { OnOk result (keys.new.items ≡ keys.old.items ++ free_key (does_hold used.now) key.now (Some row.now)) }
{
    if is_free(row, used) {
        keys.push(key.try_clone(alloc)?)?;
    }
    Ok(())
}

/// Whether a row is a deleted one of whose blocks none is used.
pub(crate) fn is_free(row: &Row, used: &BTreeSet<Block>) -> bool
    ensures { result ≡ free (does_hold used.now) row.now }
{
    match row {
        Row::Deleted { blocks } => none_used(blocks.items(), used),
        _ => false,
    }
}

pub(crate) fn none_used(blocks: &[Block], used: &BTreeSet<Block>) -> bool
    ensures { result ≡ not (list_any (does_hold used.now) blocks.now) }
{
    !one_used(blocks, used)
}

fn one_used(blocks: &[Block], used: &BTreeSet<Block>) -> bool
    ensures { result ≡ list_any (does_hold used.now) blocks.now }
{
    blocks.iter().any(|block| is_used(used, block))
}

pub(crate) fn is_used(used: &BTreeSet<Block>, block: &Block) -> bool
    ensures { result ≡ does_hold used.now block.now }
{
    used.contains(block)
}

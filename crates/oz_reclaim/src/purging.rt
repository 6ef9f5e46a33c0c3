//! Deleted rows go.

ghost use Rattle.std.specs.Prelude.{◌≡◌, ◌↔◌, List as AnyList, ℕ, Contains, IsTrue, map, OnOk, IfOk};
ghost use Rattle.std.specs.List.{AllByRecursion, list_any};
ghost use Rattle.oz_decision.specs.Drafts.{row_by_row};
ghost use Rattle.oz_effects.specs.changes.Steps.{holds as does_hold};
ghost use Rattle.oz_reclaim.specs.Found.{HasFree};
ghost use Rattle.oz_reclaim.specs.Going.{Tells, Goes, IsPut, AreKnown};
ghost use Rattle.oz_reclaim.specs.Service.{ArePurged, AreUnreached, key_named};
ghost use Rattle.oz_rows.specs.Counts.{AllRise};
ghost use Rattle.oz_rows.specs.declared.key.RowKey.{RowKey as AnyKey};
ghost use Rattle.oz_rows.specs.Operations.{batch_bytes};
ghost use Rattle.oz_rows.specs.RowMaps.{IsBelow, gone, is_same};
ghost use Rattle.oz_rows.specs.Rows.{KeyFits};

use crate::finding::is_free;
use crate::reaching::shown_blocks;
use oz_decision::{Decision, Draft};
use oz_fields::{Block, GREATEST_BLOCK_NUMBER, Name, OutOfMemory};
use oz_names::{bucket_name, key_name, volume_name};
use oz_requests::{PurgeRow, Reply};
use oz_rows::{RowKey, RowMap};
use std::alloc::Global;
use std::collections::BTreeSet;

/// Decides that those of the named deleted rows go that are there and have no block in reach.
pub(crate) fn purge<M: RowMap>(
    alloc: Global,
    rows: &M,
    volume: &Name,
    named: &[PurgeRow],
    known: &[u64],
) -> Result<Decision, OutOfMemory>
    requires { AreUnreached (M.rows rows.now) known.now }
    ensures reply { IfOk result (λ decision. decision.reply ≡ Reply.Done) }
    ensures purged { IfOk result (λ decision. ArePurged (M.rows rows.now) volume.now named.now decision.changes) }
    ensures operations { IfOk result (λ decision. decision.bytes ≡ batch_bytes (row_by_row decision.changes)) }
{
    let shown = blocks_to_ask(alloc, rows, named, known)?;
    let keys = keys_to_go(alloc, rows, volume, named, &shown)?;
    let draft = removals(alloc, keys)?;
    Ok(draft.with_reply(Reply::Done))
}

/// The blocks in reach; none where it is known that no named row has one.
fn blocks_to_ask<M: RowMap>(
    alloc: Global,
    rows: &M,
    named: &[PurgeRow],
    known: &[u64],
) -> Result<BTreeSet<Block>, OutOfMemory>
    requires { AreUnreached (M.rows rows.now) known.now }
    ensures { IfOk result (λ shown. (volume : AnyList ℕ)
        → AllByRecursion (λ row. Tells (M.rows rows.now) (does_hold shown) (key_named volume row)) named.now) }
{
    if are_known(named, known) {
        return Ok(BTreeSet::new(alloc));
    }
    let shown = shown_blocks(alloc, rows)?;
    Ok(shown)
}

fn are_known(named: &[PurgeRow], known: &[u64]) -> bool
    ensures { IsTrue result → AreKnown named.now known.now }
{
    for place in 0..named.len() {
        if !is_known(known, place, named[place].local) {
            return false;
        }
    }
    true
}

/// Whether a local id is known. It is looked for at this place first, where it stands if the ids come as the rows do.
fn is_known(known: &[u64], place: usize, local: u64) -> bool
    ensures { IsTrue result ↔ Contains known.now local }
{
    known.get(place) == Some(&local) || known.contains(&local)
}

/// The keys of the named rows that go.
fn keys_to_go<M: RowMap>(
    alloc: Global,
    rows: &M,
    volume: &Name,
    named: &[PurgeRow],
    shown: &BTreeSet<Block>,
) -> Result<Vec<RowKey>, OutOfMemory>
    requires { AllByRecursion (λ row. Tells (M.rows rows.now) (does_hold shown.now) (key_named volume.now row)) named.now }
    ensures purged { IfOk result (λ keys. ArePurged (M.rows rows.now) volume.now named.now (map gone keys.items)) }
    ensures fit { IfOk result (λ keys. AllByRecursion KeyFits keys.items) }
{
    let mut keys = Vec::new(alloc);
    let mut rise = true;
    for row in named {
        let key = RowKey::of_deleted(alloc, volume, &row.bucket, row.owner, &row.key, row.local)?;
        if !goes(rows, volume, row, &key, shown) {
            continue;
        }
        rise = put_key(&mut keys, key, rise)?;
    }
    Ok(keys)
}

/// Puts a key behind others, where it isn't among them. It is looked for only where they don't rise up to it, and the answer is
/// whether they do.
fn put_key(keys: &mut Vec<RowKey>, key: RowKey, rise: bool) -> Result<bool, OutOfMemory>
    requires { IsTrue rise → AllRise keys.now.items }
    ensures rise { IfOk result (λ rise. IsTrue rise → AllRise keys.new.items) }
    ensures put { OnOk result (IsPut key keys.old.items keys.new.items) }
{
    if rises_to(keys, &key, rise) {
        keys.push(key)?;
        return Ok(true);
    }
    put_new(keys, key)?;
    Ok(false)
}

/// Puts a key behind others, where it isn't among them.
fn put_new(keys: &mut Vec<RowKey>, key: RowKey) -> Result<(), OutOfMemory>
    ensures { OnOk result (IsPut key keys.old.items keys.new.items) }
{
    if is_among(keys, &key) {
        return Ok(());
    }
    keys.push(key)?;
    Ok(())
}

/// Whether keys, of which it may be known that they rise, rise up to this one.
fn rises_to(keys: &[RowKey], key: &RowKey, rise: bool) -> bool
    requires { IsTrue rise → AllRise keys.now }
    ensures { IsTrue result → AllRise keys.now × AllByRecursion (λ other. IsBelow other key.now) keys.now }
{
    if !rise {
        return false;
    }
    is_behind(keys, key)
}

/// Whether a key is above all of these, which rise.
fn is_behind(keys: &[RowKey], key: &RowKey) -> bool
    requires { AllRise keys.now }
    ensures { IsTrue result → AllByRecursion (λ other. IsBelow other key.now) keys.now }
{
    match keys.len() {
        0 => true,
        count => is_below(&keys[count - 1], key),
    }
}

fn is_below(key: &RowKey, other: &RowKey) -> bool
    ensures { IsTrue result ↔ IsBelow key.now other.now }
{
    key.cmp(other).is_lt()
}

/// Whether the row with this key goes.
fn goes<M: RowMap>(
    rows: &M,
    volume: &Name,
    row: &PurgeRow,
    key: &RowKey,
    shown: &BTreeSet<Block>,
) -> bool
    requires { key.now ≡ key_named volume.now row.now }
    ensures { IsTrue result ↔ Goes (M.rows rows.now) (does_hold shown.now) key.now }
{
    if !is_key(volume, &row.bucket, row.owner, &row.key, row.local) {
        return false;
    }
    is_unreached(rows, key, shown)
}

/// Whether the key of a deleted row with these fields keeps the rules of rows.
fn is_key(volume: &Name, bucket: &Name, owner: u64, key: &Name, local: u64) -> bool
    ensures { IsTrue result ↔ KeyFits (AnyKey.Deleted volume.now bucket.now owner key.now local) }
{
    let _owner = owner;
    volume_name(volume.bytes()).is_ok()
        && bucket_name(bucket.bytes()).is_ok()
        && key_name(key.bytes()).is_ok()
        && local >= 1
        && local <= GREATEST_BLOCK_NUMBER
}

/// Whether a deleted row has this key, and none of these blocks.
fn is_unreached<M: RowMap>(rows: &M, key: &RowKey, shown: &BTreeSet<Block>) -> bool
    ensures { IsTrue result ↔ HasFree (M.rows rows.now) (does_hold shown.now) key.now }
{
    match rows.get(key) {
        Some(row) => is_free(row, shown),
        None => false,
    }
}

fn is_among(keys: &[RowKey], key: &RowKey) -> bool
    ensures { result ≡ list_any (λ other. is_same other key.now) keys.now }
{
    keys.iter().any(|other| is_same_key(other, key))
}

fn is_same_key(key: &RowKey, other: &RowKey) -> bool
    ensures { result ≡ is_same key.now other.now }
{
    key.cmp(other).is_eq()
}

/// The removal of the rows with these keys.
fn removals(alloc: Global, keys: Vec<RowKey>) -> Result<Draft, OutOfMemory>
    requires { AllByRecursion KeyFits keys.items }
    ensures bytes { IfOk result (λ draft. draft.bytes ≡ batch_bytes (row_by_row (map gone keys.items))) }
    ensures changes { IfOk result (λ draft. draft.changes ≡ map gone keys.items) }
{
    let mut draft = Draft::new(alloc);
    for key in keys {
        draft = draft.remove(alloc, key)?;
    }
    Ok(draft)
}

//! The rows of a cache, and those that a namespace has to have.

use crate::lines::{Place, add_deleted_name, add_row_line, add_stripe, add_volume};
use crate::said::add_blocks;
use crate::store::Store;
use crate::wrong::Wrong;
use oz_cache::Cached;
use oz_fields::{Block, Name};
use oz_model::{Bucket, NameMap, Namespace, Snapshot, reach};
use oz_rows::{Row, RowKey, SnapshotState};
use std::alloc::{AllocError, Global};

/// The rows of a cache, a line each, and all blocks that stand in them.
#[derive(Drop)]
pub struct Rows {
    pub lines: Vec<String>,
    /// The deleted ones, each by its volume and as a Purge names it.
    pub deleted: Vec<String>,
    blocks: Vec<Block>,
}

/// Adds the least keys of what a bucket has.
fn push_least_keys(alloc: Global, keys: &mut Vec<RowKey>, none: &Name) -> Result<(), AllocError> {
    keys.push(RowKey::of_key(alloc, none, none, none)?)?;
    keys.push(RowKey::of_session(alloc, none, none, none, 0)?)?;
    keys.push(RowKey::of_deleted(alloc, none, none, 0, none, 0)?)?;
    keys.push(RowKey::of_snapshot(alloc, none, none, 0)?)?;
    keys.push(RowKey::of_snapshot_key(alloc, none, none, 0, none)?)?;
    keys.push(RowKey::of_renamed(alloc, none, none, 0, 0)?)?;
    Ok(())
}

/// The least keys of the kinds that requests make.
fn least_keys(alloc: Global) -> Result<Vec<RowKey>, AllocError> {
    let none = Name::copy(alloc, b"")?;
    let mut keys = Vec::new(alloc);
    keys.push(RowKey::of_volume(alloc, &none)?)?;
    keys.push(RowKey::of_bucket(alloc, &none, &none)?)?;
    push_least_keys(alloc, &mut keys, &none)?;
    keys.push(RowKey::Stripe { stripe: 0 })?;
    Ok(keys)
}

/// The rows of a cache in the order of their keys.
pub fn row_lines(alloc: Global, cached: &Cached) -> Result<Rows, AllocError> {
    let mut rows = Rows {
        lines: Vec::new(alloc),
        deleted: Vec::new(alloc),
        blocks: Vec::new(alloc),
    };
    for least in &least_keys(alloc)? {
        push_kind(alloc, &mut rows, cached, least)?;
    }
    Ok(rows)
}

/// Adds the rows of a kind, whose least key this is.
fn push_kind(
    alloc: Global,
    rows: &mut Rows,
    cached: &Cached,
    least: &RowKey,
) -> Result<(), AllocError> {
    if let Some(row) = cached.get(least) {
        push_row(alloc, rows, cached, least, row)?;
    }
    let mut from = least;
    for _ in 0..u64::MAX {
        let Some((key, row)) = cached.next(from) else {
            return Ok(());
        };
        push_row(alloc, rows, cached, key, row)?;
        from = key;
    }
    Ok(())
}

fn push_row(
    alloc: Global,
    rows: &mut Rows,
    cached: &Cached,
    key: &RowKey,
    row: &Row,
) -> Result<(), AllocError> {
    let mut line = String::new(alloc);
    add_row_line(alloc, cached, &mut line, key, row)?;
    rows.lines.push(line)?;
    if matches!(key, RowKey::Deleted { .. }) {
        push_deleted(alloc, &mut rows.deleted, key)?;
    }
    push_blocks(&mut rows.blocks, row)
}

fn push_deleted(alloc: Global, deleted: &mut Vec<String>, key: &RowKey) -> Result<(), AllocError> {
    let mut named = String::new(alloc);
    add_deleted_name(alloc, &mut named, key)?;
    deleted.push(named)?;
    Ok(())
}

/// Adds the blocks that stand in a row.
fn push_blocks(all: &mut Vec<Block>, row: &Row) -> Result<(), AllocError> {
    match row {
        Row::Key { pieces, .. } => {
            for piece in pieces {
                all.push(piece.block)?;
            }
            Ok(())
        }
        Row::Open { blocks } | Row::Deleted { blocks } => all.extend_from_slice(blocks.items()),
        _ => Ok(()),
    }
}

fn push_volume(alloc: Global, lines: &mut Vec<String>, volume: &Name) -> Result<(), AllocError> {
    let mut line = String::new(alloc);
    add_volume(alloc, &mut line, volume)?;
    lines.push(line)?;
    Ok(())
}

/// Adds the lines of the stripes of which a number was drawn.
fn push_stripes(alloc: Global, lines: &mut Vec<String>, stripes: &[u64]) -> Result<(), AllocError> {
    for (stripe, number) in stripes.iter().enumerate() {
        if *number > 0 {
            let mut line = String::new(alloc);
            add_stripe(&mut line, stripe, *number)?;
            lines.push(line)?;
        }
    }
    Ok(())
}

/// Adds the rows that a namespace has to have, but for those of what is deleted.
fn push_namespace(
    alloc: Global,
    lines: &mut Vec<String>,
    namespace: &Namespace,
) -> Result<(), AllocError> {
    for volume in &namespace.volumes.names(alloc)? {
        push_volume(alloc, lines, volume)?;
        if let Some(buckets) = namespace.volumes.get(volume) {
            push_buckets(alloc, lines, volume, buckets)?;
        }
    }
    push_stripes(alloc, lines, &namespace.stripes)
}

fn push_buckets(
    alloc: Global,
    lines: &mut Vec<String>,
    volume: &Name,
    buckets: &NameMap<Bucket>,
) -> Result<(), AllocError> {
    for name in &buckets.names(alloc)? {
        let place = Place {
            volume,
            bucket: name,
        };
        push_bucket(alloc, lines, place)?;
        if let Some(bucket) = buckets.get(name) {
            push_bucket_rows(alloc, lines, place, bucket)?;
        }
    }
    Ok(())
}

fn push_bucket(alloc: Global, lines: &mut Vec<String>, place: Place<'_>) -> Result<(), AllocError> {
    let mut line = String::new(alloc);
    place.add_bucket(alloc, &mut line)?;
    lines.push(line)?;
    Ok(())
}

/// Adds what a bucket has.
fn push_bucket_rows(
    alloc: Global,
    lines: &mut Vec<String>,
    place: Place<'_>,
    bucket: &Bucket,
) -> Result<(), AllocError> {
    push_keys(alloc, lines, place, bucket)?;
    for snapshot in &bucket.snapshots {
        push_snapshot(alloc, lines, place, &snapshot.name)?;
        push_kept(alloc, lines, place, snapshot)?;
    }
    push_sessions(alloc, lines, place, bucket)
}

fn push_keys(
    alloc: Global,
    lines: &mut Vec<String>,
    place: Place<'_>,
    bucket: &Bucket,
) -> Result<(), AllocError> {
    for (key, pieces) in bucket.keys.names(alloc)?.iter().zip(bucket.keys.values()) {
        let mut line = String::new(alloc);
        place.add_key(alloc, &mut line, key, pieces.items())?;
        lines.push(line)?;
    }
    Ok(())
}

fn push_snapshot(
    alloc: Global,
    lines: &mut Vec<String>,
    place: Place<'_>,
    name: &Name,
) -> Result<(), AllocError> {
    let mut line = String::new(alloc);
    place.add_snapshot(alloc, &mut line, name, SnapshotState::Live)?;
    lines.push(line)?;
    Ok(())
}

/// Adds the keys that a snapshot keeps.
fn push_kept(
    alloc: Global,
    lines: &mut Vec<String>,
    place: Place<'_>,
    snapshot: &Snapshot,
) -> Result<(), AllocError> {
    let keys = &snapshot.keys;
    for (key, pieces) in keys.names(alloc)?.iter().zip(keys.values()) {
        let mut line = String::new(alloc);
        place.add_kept(alloc, &mut line, &snapshot.name, key, pieces.items())?;
        lines.push(line)?;
    }
    Ok(())
}

fn push_sessions(
    alloc: Global,
    lines: &mut Vec<String>,
    place: Place<'_>,
    bucket: &Bucket,
) -> Result<(), AllocError> {
    let sessions = &bucket.sessions;
    for (number, session) in sessions.numbers(alloc)?.iter().zip(sessions.values()) {
        let mut line = String::new(alloc);
        place.add_session(
            alloc,
            &mut line,
            *number,
            &session.key,
            session.blocks.items(),
        )?;
        lines.push(line)?;
    }
    Ok(())
}

fn line_at(lines: &[String], place: usize) -> &str {
    match lines.get(place) {
        Some(line) => line.as_str(),
        None => "nothing",
    }
}

/// The first line that differs from what is wanted, and that one.
pub fn first_other<'a>(lines: &'a [String], wanted: &'a [String]) -> Option<(&'a str, &'a str)> {
    for place in 0..lines.len().max(wanted.len()) {
        let (line, wanted) = (line_at(lines, place), line_at(wanted, place));
        if line != wanted {
            return Some((line, wanted));
        }
    }
    None
}

/// These rows are the wanted ones.
pub fn are_wanted(lines: &[String], wanted: &[String], why: &mut String) -> Result<(), Wrong> {
    match first_other(lines, wanted) {
        None => Ok(()),
        Some((row, wanted)) => {
            write!(why, "wanted the row `{wanted}`, there is `{row}`")?;
            Err(Wrong::Line)
        }
    }
}

/// These rows, but for those of what is deleted, are those of the namespace.
fn are_of_namespace(
    alloc: Global,
    namespace: &Namespace,
    lines: &mut Vec<String>,
    why: &mut String,
) -> Result<(), Wrong> {
    lines.retain(|line| !(line.starts_with("deleted") || line.starts_with("renamed")));
    lines.sort()?;
    let mut wanted = Vec::new(alloc);
    push_namespace(alloc, &mut wanted, namespace)?;
    wanted.sort()?;
    are_wanted(lines, &wanted, why)
}

/// The rows are those of the namespace, and each block that was granted stands in them once, but that a Purge took away what
/// nothing reaches.
pub fn stand_alike(alloc: Global, store: &mut Store) -> Result<(), Wrong> {
    let mut rows = row_lines(alloc, &store.cached)?;
    are_of_namespace(alloc, &store.namespace, &mut rows.lines, &mut store.why)?;
    each_stands_once(alloc, store, &mut rows.blocks)
}

/// The blocks that were granted, rising.
fn granted_blocks(alloc: Global, store: &Store) -> Result<Vec<Block>, AllocError> {
    let mut granted = Vec::new(alloc);
    for grant in &store.grants {
        granted.push(grant.block)?;
    }
    granted.sort()?;
    Ok(granted)
}

/// These are the blocks that were granted, each once; and some more of them that nothing reaches, where something was purged.
fn each_stands_once(
    alloc: Global,
    store: &mut Store,
    standing: &mut Vec<Block>,
) -> Result<(), Wrong> {
    if store.is_purged {
        push_purged(alloc, store, standing)?;
    }
    standing.sort()?;
    let granted = granted_blocks(alloc, store)?;
    if standing.as_slice() == granted.as_slice() {
        return Ok(());
    }
    let why = &mut store.why;
    why.push_str("the granted blocks don't each stand once in the rows: ")?;
    add_blocks(why, standing)?;
    Err(Wrong::Line)
}

/// Adds the blocks that were granted, stand nowhere, and aren't reached.
fn push_purged(alloc: Global, store: &Store, standing: &mut Vec<Block>) -> Result<(), AllocError> {
    let reached = reach(alloc, &store.namespace)?;
    let before = standing.len();
    for grant in &store.grants {
        let stands = standing
            .iter()
            .take(before)
            .any(|block| *block == grant.block);
        if !stands && !reached.contains(&grant.block) {
            standing.push(grant.block)?;
        }
    }
    Ok(())
}

//! The sweep beside the rows of a case of requests: behind each flush it has to find what a walk over the tables finds, with the index at
//! which the blocks of each row left reach.

use crate::lines::add_deleted_key;
use crate::reclaiming::push_key;
use crate::rows::first_other;
use crate::store::{Grant, Store};
use crate::wrong::Wrong;
use oz_fields::Block;
use oz_model::reach;
use oz_reclaim::{Found, MOST_PURGED, reclaimable};
use oz_requests::Request;
use oz_rows::{Row, RowKey};
use std::alloc::{AllocError, Global};

/// Notes since when blocks are out of reach, once a request was decided.
pub fn note_left(alloc: Global, store: &mut Store, request: &Request) -> Result<(), AllocError> {
    let index = store.cached.last_epoch();
    let reached = reach(alloc, &store.namespace)?;
    for grant in &mut store.grants {
        grant.left = match (reached.contains(&grant.block), grant.left) {
            (true, _) => None,
            (false, Some(left)) => Some(left),
            (false, None) => Some(index),
        };
    }
    match request {
        Request::DeleteSnapshot { .. } => store.is_marked = true,
        Request::MoveDeleted { .. } | Request::PurgeSnapshot { .. } => {
            store.is_early |= store.is_marked;
        }
        _ => {}
    }
    Ok(())
}

/// Brings the sweep on to the tables, and compares what it finds.
pub fn sweep(alloc: Global, store: &mut Store) -> Result<(), Wrong> {
    let index = store.cached.last_epoch();
    store.sweep.bring(alloc, store.cached.durable(), index)?;
    store.is_marked = false;
    let found = store.sweep.find(alloc, &[], MOST_PURGED)?;
    let walked = reclaimable(alloc, store.cached.durable(), &[], MOST_PURGED)?;
    are_alike(alloc, &found, &walked, &mut store.why)?;
    if store.is_early {
        return Ok(());
    }
    for (key, since) in &found.rows {
        is_dated(alloc, store, key, *since)?;
    }
    Ok(())
}

/// The rows that were found are those that a walk finds.
fn are_alike(
    alloc: Global,
    found: &Found,
    walked: &[RowKey],
    why: &mut String,
) -> Result<(), Wrong> {
    let swept = lines_of_found(alloc, found)?;
    let wanted = lines_of(alloc, walked)?;
    match first_other(&swept, &wanted) {
        None => Ok(()),
        Some((row, wanted)) => {
            write!(why, "a walk finds the row `{wanted}`, the sweep `{row}`")?;
            Err(Wrong::Line)
        }
    }
}

/// The keys of the rows that were found, a line each.
fn lines_of_found(alloc: Global, found: &Found) -> Result<Vec<String>, AllocError> {
    let mut lines = Vec::new(alloc);
    for (key, _) in &found.rows {
        push_key(alloc, &mut lines, key)?;
    }
    Ok(lines)
}

/// These keys, a line each.
fn lines_of(alloc: Global, keys: &[RowKey]) -> Result<Vec<String>, AllocError> {
    let mut lines = Vec::new(alloc);
    for key in keys {
        push_key(alloc, &mut lines, key)?;
    }
    Ok(lines)
}

/// The blocks of a row left reach at this index.
fn is_dated(alloc: Global, store: &mut Store, key: &RowKey, since: u64) -> Result<(), Wrong> {
    let left = match store.cached.durable().get(key) {
        Some(Row::Deleted { blocks }) => left_last(&store.grants, blocks.items()),
        _ => None,
    };
    if left == Some(since) {
        return Ok(());
    }
    let why = &mut store.why;
    why.push('`')?;
    add_deleted_key(alloc, why, key)?;
    write!(
        why,
        "` is out of reach since {left:?}, and by the sweep since {since}"
    )?;
    Err(Wrong::Line)
}

/// When the last of these blocks left reach.
fn left_last(grants: &[Grant], blocks: &[Block]) -> Option<u64> {
    let mut last = None;
    for grant in grants {
        if blocks.contains(&grant.block) {
            last = grant.left.max(last);
        }
    }
    last
}

//! A Purge, decided once more with what is known of the rows that it names.

ghost use Rattle.std.specs.Prelude.{IsTrue};
ghost use Rattle.oz_reclaim.specs.Service.{IsPurge, NamesFew};

use crate::said::cannot;
use crate::store::Store;
use crate::wrong::Wrong;
use oz_cache::Cached;
use oz_decision::Decision;
use oz_reclaim::{are_unreached, decide_purge};
use oz_requests::Request;
use oz_rows::MOST_REMOVALS;
use std::alloc::{AllocError, Global};

/// A Purge is decided as it was where it is known of all its rows that none of their blocks is in reach.
pub fn is_decided_alike(
    alloc: Global,
    store: &mut Store,
    request: &Request,
    decision: &Decision,
) -> Result<(), Wrong> {
    if is_alike(alloc, &store.cached, request, decision)? {
        return Ok(());
    }
    cannot(
        &mut store.why,
        "what is known of rows changes what is decided of them",
    )
}

fn is_alike(
    alloc: Global,
    cached: &Cached,
    request: &Request,
    decision: &Decision,
) -> Result<bool, AllocError> {
    if !is_small_purge(request) {
        return Ok(true);
    }
    let locals = locals_in(alloc, request)?;
    let known = locals.as_slice();
    let are = are_unreached(alloc, cached, known)?;
    if are {
        let again = decide_purge(alloc, cached, request, known)?;
        return Ok(again.bytes.items() == decision.bytes.items());
    }
    Ok(true)
}

/// The local ids of the rows that a Purge names.
fn locals_in(alloc: Global, request: &Request) -> Result<Vec<u64>, AllocError> {
    let mut locals = Vec::new(alloc);
    if let Request::Purge { rows, .. } = request {
        for row in rows.items() {
            locals.push(row.local)?;
        }
    }
    Ok(locals)
}

/// Whether it is a Purge that names no more rows than may be removed at a time.
fn is_small_purge(request: &Request) -> bool
    ensures purge { IsTrue result → IsPurge request.now }
    ensures few { IsTrue result → NamesFew request.now }
{
    match request {
        Request::Purge { rows, .. } => rows.len() <= MOST_REMOVALS,
        _ => false,
    }
}

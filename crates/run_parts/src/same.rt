//! Whether two namespaces are the same.

use oz_fields::{List, OutOfMemory, Piece};
use oz_model::{Bucket, NameMap, Namespace, NumberMap, Session, Snapshot};
use std::alloc::Global;

/// Whether two maps of keys are the same.
fn are_same_keys(
    alloc: Global,
    keys: &NameMap<List<Piece>>,
    others: &NameMap<List<Piece>>,
) -> Result<bool, OutOfMemory> {
    if keys.names(alloc)?.items() != others.names(alloc)?.items() {
        return Ok(false);
    }
    Ok(
        keys.values()
            .zip(others.values())
            .all(|(pieces, other)| pieces.items() == other.items()),
    )
}

fn is_same_session(session: &Session, other: &Session) -> bool {
    session.key == other.key && session.blocks.items() == other.blocks.items()
}

/// Whether two maps of sessions are the same.
fn are_same_sessions(
    alloc: Global,
    sessions: &NumberMap<Session>,
    others: &NumberMap<Session>,
) -> Result<bool, OutOfMemory> {
    if sessions.numbers(alloc)?.items() != others.numbers(alloc)?.items() {
        return Ok(false);
    }
    Ok(
        sessions
            .values()
            .zip(others.values())
            .all(|(session, other)| is_same_session(session, other)),
    )
}

/// Whether two lists of snapshots are the same.
fn are_same_snapshots(
    alloc: Global,
    snapshots: &[Snapshot],
    others: &[Snapshot],
) -> Result<bool, OutOfMemory> {
    if snapshots.len() != others.len() {
        return Ok(false);
    }
    for (snapshot, other) in snapshots.iter().zip(others) {
        if snapshot.name != other.name || !are_same_keys(alloc, &snapshot.keys, &other.keys)? {
            return Ok(false);
        }
    }
    Ok(true)
}

fn is_same_bucket(alloc: Global, bucket: &Bucket, other: &Bucket) -> Result<bool, OutOfMemory> {
    Ok(
        are_same_keys(alloc, &bucket.keys, &other.keys)?
            && are_same_sessions(alloc, &bucket.sessions, &other.sessions)?
            && are_same_snapshots(alloc, bucket.snapshots.items(), other.snapshots.items())?,
    )
}

/// Whether two maps of buckets are the same.
fn are_same_buckets(
    alloc: Global,
    buckets: &NameMap<Bucket>,
    others: &NameMap<Bucket>,
) -> Result<bool, OutOfMemory> {
    if buckets.names(alloc)?.items() != others.names(alloc)?.items() {
        return Ok(false);
    }
    for (bucket, other) in buckets.values().zip(others.values()) {
        if !is_same_bucket(alloc, bucket, other)? {
            return Ok(false);
        }
    }
    Ok(true)
}

/// Whether two namespaces have the same volumes, buckets, keys, sessions and snapshots, and drew as many numbers.
pub fn is_same(
    alloc: Global,
    namespace: &Namespace,
    other: &Namespace,
) -> Result<bool, OutOfMemory> {
    if namespace.stripes != other.stripes {
        return Ok(false);
    }
    if namespace.volumes.names(alloc)?.items() != other.volumes.names(alloc)?.items() {
        return Ok(false);
    }
    for (buckets, others) in namespace.volumes.values().zip(other.volumes.values()) {
        if !are_same_buckets(alloc, buckets, others)? {
            return Ok(false);
        }
    }
    Ok(true)
}

//! Volumes at their limits, which requests would make too slowly.

use crate::said::cannot;
use crate::store::{Store, flush};
use crate::wrong::Wrong;
use case_files::Statement;
use oz_fields::{List, Name, TryClone};
use oz_model::{Bucket, NameMap, Session};
use oz_rows::{Change, Row, RowKey};
use std::alloc::{AllocError, Global};

/// `full VOLUME BUCKETS KEYS SESSIONS`: a volume with so many buckets, `b-1` and so on; the first has so many keys, `k-1` and so
/// on, and so many sessions on the key `k`, from the number 1,000,001 on.
pub fn give_full(alloc: Global, store: &mut Store, statement: &Statement) -> Result<(), Wrong> {
    let (Some(count), Some(keys), Some(sessions)) = (
        statement.number(2),
        statement.number(3),
        statement.number(4),
    ) else {
        return cannot(&mut store.why, "a full volume has three counts");
    };
    let volume = Name::copy(alloc, statement.word(1).as_bytes())?;
    Ok(enter_full(alloc, store, volume, [count, keys, sessions])?)
}

/// Enters the rows of a volume, and the volume itself in the namespace.
fn enter_full(
    alloc: Global,
    store: &mut Store,
    volume: Name,
    counts: [u64; 3],
) -> Result<(), AllocError> {
    let mut changes = Vec::new(alloc);
    let buckets = made_full(alloc, &mut changes, &volume, counts)?;
    store.namespace.volumes.insert(alloc, volume, buckets)?;
    store.enter(alloc, List::of(changes))?;
    flush(&mut store.cached);
    Ok(())
}

/// The buckets of a volume, of which the first is full.
fn made_full(
    alloc: Global,
    changes: &mut Vec<Change>,
    volume: &Name,
    counts: [u64; 3],
) -> Result<NameMap<Bucket>, AllocError> {
    let [count, keys, sessions] = counts;
    changes.push(put(RowKey::of_volume(alloc, volume)?, Row::Volume))?;
    let mut buckets = with_buckets(alloc, changes, volume, count)?;
    let bucket = first_bucket(alloc, changes, volume, keys, sessions)?;
    buckets.insert(alloc, Name::copy(alloc, b"b-1")?, bucket)?;
    Ok(buckets)
}

/// The first bucket.
fn first_bucket(
    alloc: Global,
    changes: &mut Vec<Change>,
    volume: &Name,
    keys: u64,
    sessions: u64,
) -> Result<Bucket, AllocError> {
    let mut bucket = Bucket::new(alloc);
    add_keys(alloc, changes, volume, &mut bucket, keys)?;
    add_sessions(alloc, changes, volume, &mut bucket, sessions)?;
    Ok(bucket)
}

fn put(key: RowKey, row: Row) -> Change {
    Change {
        key,
        row: Some(row),
    }
}

fn numbered(alloc: Global, letter: char, number: u64) -> Result<Name, AllocError> {
    Name::copy(alloc, format!(in alloc; "{letter}-{number}")?.as_bytes())
}

fn with_buckets(
    alloc: Global,
    changes: &mut Vec<Change>,
    volume: &Name,
    count: u64,
) -> Result<NameMap<Bucket>, AllocError> {
    let mut buckets = NameMap::new(alloc);
    for number in 1..=count {
        let name = numbered(alloc, 'b', number)?;
        changes.push(put(RowKey::of_bucket(alloc, volume, &name)?, Row::Bucket))?;
        buckets.insert(alloc, name, Bucket::new(alloc))?;
    }
    Ok(buckets)
}

fn add_keys(
    alloc: Global,
    changes: &mut Vec<Change>,
    volume: &Name,
    bucket: &mut Bucket,
    count: u64,
) -> Result<(), AllocError> {
    let first = Name::copy(alloc, b"b-1")?;
    for number in 1..=count {
        let key = numbered(alloc, 'k', number)?;
        let pieces = List::new(alloc);
        changes.push(put(
            RowKey::of_key(alloc, volume, &first, &key)?,
            Row::Key { number, pieces },
        ))?;
        bucket.keys.insert(alloc, key, List::new(alloc))?;
    }
    Ok(())
}

fn add_sessions(
    alloc: Global,
    changes: &mut Vec<Change>,
    volume: &Name,
    bucket: &mut Bucket,
    count: u64,
) -> Result<(), AllocError> {
    let first = Name::copy(alloc, b"b-1")?;
    let key = Name::copy(alloc, b"k")?;
    for number in 1_000_001..=1_000_000u64.saturating_add(count) {
        let blocks = List::new(alloc);
        let of_session = RowKey::of_session(alloc, volume, &first, &key, number)?;
        changes.push(put(of_session, Row::Open { blocks }))?;
        let session = Session {
            key: key.try_clone(alloc)?,
            blocks: List::new(alloc),
        };
        bucket.sessions.insert(alloc, number, session)?;
    }
    Ok(())
}

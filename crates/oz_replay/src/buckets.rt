//! What requests leave of one bucket.

ghost use Rattle.std.specs.Prelude.{◌≡◌, ◌++◌, IfOk, filter, nat_eq, not};
ghost use Rattle.std.specs.Cmp.Lexicographic.{pointwise};
ghost use Rattle.std.specs.FinMap.{remove};
ghost use Rattle.oz_namespace.specs.declared.namespace.Snapshot.{Snapshot as AnySnapshot};
ghost use Rattle.oz_model.specs.Buckets.{committed, granted_by, is_same_name, pieces_in, renamed, session_blocks};
ghost use Rattle.oz_model.specs.Buckets.{with_keys, with_session, with_snapshot, without_sessions, without_snapshot};

use oz_fields::{Block, List, Name, OutOfMemory, Piece, TryClone};
use oz_namespace::{Bucket, NameMap, NumberMap, Session, Snapshot};
use oz_requests::Reply;
use std::alloc::{AllocError, Global};

fn is_same_name(one: &Name, other: &Name) -> bool
    ensures { result ≡ is_same_name one.now other.now }
{
    *one == *other
}

fn pieces_copied(
    alloc: Global,
    keys: &NameMap<List<Piece>>,
    key: &Name,
) -> Result<List<Piece>, OutOfMemory>
    ensures { IfOk result (λ pieces. pieces ≡ pieces_in keys.now key.now) }
{
    match keys.get(key) {
        Some(pieces) => pieces.try_clone(alloc),
        None => Ok(List::new(alloc)),
    }
}

fn with_keys(bucket: Bucket, keys: NameMap<List<Piece>>) -> Bucket
    ensures { result ≡ with_keys bucket keys }
{
    Bucket {
        keys,
        sessions: bucket.sessions,
        snapshots: bucket.snapshots,
    }
}

fn keys_without(
    alloc: Global,
    keys: &NameMap<List<Piece>>,
    key: &Name,
) -> Result<NameMap<List<Piece>>, OutOfMemory>
    ensures { IfOk result (λ left. left ≡ remove keys.now key.now) }
{
    let mut left = keys.try_clone(alloc)?;
    left.remove(key);
    Ok(left)
}

/// The key is gone.
pub(crate) fn without_key(alloc: Global, bucket: Bucket, key: &Name) -> Result<Bucket, OutOfMemory>
    ensures { IfOk result (λ it. it ≡ with_keys bucket (remove bucket.keys key.now)) }
{
    let keys = keys_without(alloc, &bucket.keys, key)?;
    Ok(with_keys(bucket, keys))
}

fn keys_renamed(
    alloc: Global,
    keys: &NameMap<List<Piece>>,
    key: &Name,
    to: &Name,
) -> Result<NameMap<List<Piece>>, OutOfMemory>
    ensures { IfOk result (λ left. left ≡ renamed keys.now key.now to.now) }
{
    let pieces = pieces_copied(alloc, keys, key)?;
    let mut left = keys_without(alloc, keys, key)?;
    left.insert(alloc, to.try_clone(alloc)?, pieces)?;
    Ok(left)
}

/// The key has the other name.
pub(crate) fn with_key_renamed(
    alloc: Global,
    bucket: Bucket,
    key: &Name,
    to: &Name,
) -> Result<Bucket, OutOfMemory>
    ensures { IfOk result (λ it. it ≡ with_keys bucket (renamed bucket.keys key.now to.now)) }
{
    let keys = keys_renamed(alloc, &bucket.keys, key, to)?;
    Ok(with_keys(bucket, keys))
}

/// A session of this number writes the key, and has these blocks.
pub(crate) fn with_session(
    alloc: Global,
    bucket: Bucket,
    number: u64,
    key: &Name,
    blocks: List<Block>,
) -> Result<Bucket, OutOfMemory>
    ensures { IfOk result (λ it. it ≡ with_session bucket number key.now blocks) }
{
    let session = Session {
        key: key.try_clone(alloc)?,
        blocks,
    };
    let mut bucket = bucket;
    bucket.sessions.insert(alloc, number, session)?;
    Ok(bucket)
}

fn blocks_copied(alloc: Global, bucket: &Bucket, number: u64) -> Result<List<Block>, OutOfMemory>
    ensures { IfOk result (λ blocks. blocks ≡ session_blocks bucket.now number) }
{
    match bucket.sessions.get(number) {
        Some(session) => session.blocks.try_clone(alloc),
        None => Ok(List::new(alloc)),
    }
}

fn with_granted(
    alloc: Global,
    blocks: List<Block>,
    reply: &Reply,
) -> Result<List<Block>, OutOfMemory>
    ensures { IfOk result (λ more. more ≡ blocks ++ granted_by reply.now) }
{
    let mut blocks = blocks;
    match reply {
        Reply::Granted(block, _) => match blocks.push(alloc, *block) {
            Ok(()) => Ok(blocks),
            Err(_) => Err(AllocError),
        },
        _ => Ok(blocks),
    }
}

/// The session has the block that the reply grants, too.
pub(crate) fn with_block(
    alloc: Global,
    bucket: Bucket,
    key: &Name,
    session: u64,
    reply: &Reply,
) -> Result<Bucket, OutOfMemory>
    ensures { IfOk result (λ it. it ≡
        with_session bucket session key.now (session_blocks bucket session ++ granted_by reply.now)) }
{
    let had = blocks_copied(alloc, &bucket, session)?;
    let blocks = with_granted(alloc, had, reply)?;
    with_session(alloc, bucket, session, key, blocks)
}

/// The key has these pieces, and the session is gone.
pub(crate) fn committed(
    alloc: Global,
    bucket: Bucket,
    key: &Name,
    session: u64,
    pieces: &List<Piece>,
) -> Result<Bucket, OutOfMemory>
    ensures { IfOk result (λ it. it ≡ committed bucket key.now session pieces.now) }
{
    let mut it = bucket;
    it.keys
        .insert(alloc, key.try_clone(alloc)?, pieces.try_clone(alloc)?)?;
    it.sessions.remove(session);
    Ok(it)
}

/// All sessions are gone.
pub(crate) fn without_sessions(alloc: Global, bucket: Bucket) -> Bucket
    ensures { result ≡ without_sessions bucket }
{
    Bucket {
        keys: bucket.keys,
        sessions: NumberMap::new(alloc),
        snapshots: bucket.snapshots,
    }
}

/// A copy of the keys is the last snapshot.
pub(crate) fn with_snapshot(
    alloc: Global,
    bucket: Bucket,
    name: &Name,
) -> Result<Bucket, OutOfMemory>
    ensures { IfOk result (λ it. it ≡ with_snapshot bucket name.now) }
{
    let snapshot = Snapshot {
        name: name.try_clone(alloc)?,
        keys: bucket.keys.try_clone(alloc)?,
    };
    let mut it = bucket;
    match it.snapshots.push(alloc, snapshot) {
        Ok(()) => Ok(it),
        Err(_) => Err(AllocError),
    }
}

fn others(alloc: Global, snapshots: &[Snapshot], name: &Name) -> Result<Vec<Snapshot>, OutOfMemory>
    ensures { IfOk result (λ found. found.items
        ≡ filter (λ (it : AnySnapshot). not (is_same_name it.name name.now)) snapshots.now) }
{
    let mut found = Vec::new(alloc);
    for snapshot in snapshots {
        if !is_same_name(&snapshot.name, name) {
            found.push(snapshot.try_clone(alloc)?)?;
        }
    }
    Ok(found)
}

/// The snapshots of this name are gone.
pub(crate) fn without_snapshot(
    alloc: Global,
    bucket: Bucket,
    name: &Name,
) -> Result<Bucket, OutOfMemory>
    ensures { IfOk result (λ it. it ≡ without_snapshot bucket name.now) }
{
    let snapshots = others(alloc, bucket.snapshots.items(), name)?;
    Ok(Bucket {
        keys: bucket.keys,
        sessions: bucket.sessions,
        snapshots: List::of(snapshots),
    })
}

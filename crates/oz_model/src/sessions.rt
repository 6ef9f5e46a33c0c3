//! The requests on sessions, each by its row. The names are good, and the bucket is there. In a row the volume's name
//! plays no part.

ghost use Rattle.std.specs.Prelude.{◌≡◌, [], IfOk};
ghost use Rattle.oz_model.specs.Answers.{Replies, reply_from, scope_after};
ghost use Rattle.oz_model.specs.Buckets.{committed as commit_made, without_sessions};
ghost use Rattle.oz_model.specs.Refusals.{codes, first_of};

use crate::scope::Scope;
use crate::words::{
    Answered, are_pieces_of, blocks_copied, has_session, is_full, refused, told, with_block,
    with_session,
};
use oz_fields::{Block, List, Name, OutOfMemory, Piece, TryClone};
use oz_names::{Code, MOST_BLOCKS, MOST_NUMBERS};
use oz_namespace::{Bucket, NumberMap};
use oz_requests::{Exclude, Reply, Request};
use std::alloc::Global;

pub(crate) fn create_key(
    alloc: Global,
    scope: Scope,
    bucket: &Name,
    key: &Name,
) -> Result<Answered, OutOfMemory>
    ensures reply { IfOk result (λ it. Replies (first_of (codes scope (Request.CreateKey [] bucket.now key.now))) scope
        (Request.CreateKey [] bucket.now key.now) it.reply) }
    ensures left { IfOk result (λ it. it.left ≡ scope_after scope (Request.CreateKey [] bucket.now key.now) it.reply) }
{
    let it = scope.bucket_copied(alloc, bucket)?;
    if is_full(&it) {
        return Ok(refused(Code::BucketFull, scope));
    }
    if scope.drawn >= MOST_NUMBERS {
        return Ok(refused(Code::NumbersSpent, scope));
    }
    let number = scope.drawn + 1;
    let it = with_session(alloc, it, number, key, List::new(alloc))?;
    let left = scope.with_bucket(alloc, bucket, it)?;
    Ok(Answered {
        reply: Reply::Session(number),
        left: left.with_number_drawn(),
    })
}

/// The block that is granted is the given one, on the given pipeline.
pub(crate) fn allocate_block(
    alloc: Global,
    scope: Scope,
    bucket: &Name,
    key: &Name,
    session: u64,
    exclude: &Exclude,
    pick: (Block, u8),
) -> Result<Answered, OutOfMemory>
    ensures reply { IfOk result (λ it. it.reply ≡ reply_from
        (first_of (codes scope (Request.AllocateBlock [] bucket.now key.now session exclude.now)))
        (Reply.Granted pick.0 pick.1)) }
    ensures left { IfOk result (λ it. it.left ≡ scope_after scope
        (Request.AllocateBlock [] bucket.now key.now session exclude.now) it.reply) }
{
    let _unused = exclude;
    let it = scope.bucket_copied(alloc, bucket)?;
    if !has_session(&it, key, session) {
        return Ok(refused(Code::KeyNotFound, scope));
    }
    let blocks = blocks_copied(alloc, &it, session)?;
    if blocks.len() >= MOST_BLOCKS as usize {
        return Ok(refused(Code::SessionFull, scope));
    }
    let (block, pipeline) = pick;
    let blocks = with_block(alloc, blocks, block)?;
    let it = with_session(alloc, it, session, key, blocks)?;
    Ok(Answered {
        reply: Reply::Granted(block, pipeline),
        left: scope.with_bucket(alloc, bucket, it)?,
    })
}

pub(crate) fn commit_key(
    alloc: Global,
    scope: Scope,
    bucket: &Name,
    key: &Name,
    session: u64,
    pieces: &List<Piece>,
) -> Result<Answered, OutOfMemory>
    ensures reply { IfOk result (λ it. Replies (first_of (codes scope (Request.CommitKey [] bucket.now key.now session pieces.now)))
        scope (Request.CommitKey [] bucket.now key.now session pieces.now) it.reply) }
    ensures left { IfOk result (λ it. it.left ≡ scope_after scope
        (Request.CommitKey [] bucket.now key.now session pieces.now) it.reply) }
{
    let it = scope.bucket_copied(alloc, bucket)?;
    if !has_session(&it, key, session) {
        return Ok(refused(Code::KeyNotFound, scope));
    }
    let blocks = blocks_copied(alloc, &it, session)?;
    if !are_pieces_of(blocks.items(), pieces.items()) {
        return Ok(refused(Code::InvalidBlock, scope));
    }
    let it = committed(alloc, it, key, session, pieces)?;
    Ok(Answered {
        reply: Reply::Done,
        left: scope.with_bucket(alloc, bucket, it)?,
    })
}

/// The bucket in which the key has these pieces and the session is gone.
fn committed(
    alloc: Global,
    bucket: Bucket,
    key: &Name,
    session: u64,
    pieces: &List<Piece>,
) -> Result<Bucket, OutOfMemory>
    ensures { IfOk result (λ it. it ≡ commit_made bucket key.now session pieces.now) }
{
    let mut it = bucket;
    it.keys
        .insert(alloc, key.try_clone(alloc)?, pieces.try_clone(alloc)?)?;
    it.sessions.remove(session);
    Ok(it)
}

pub(crate) fn expire_open(
    alloc: Global,
    scope: Scope,
    bucket: &Name,
) -> Result<Answered, OutOfMemory>
    ensures reply { IfOk result (λ it. Replies (first_of (codes scope (Request.ExpireOpen [] bucket.now))) scope
        (Request.ExpireOpen [] bucket.now) it.reply) }
    ensures left { IfOk result (λ it. it.left ≡ scope_after scope (Request.ExpireOpen [] bucket.now) it.reply) }
{
    let it = scope.bucket_copied(alloc, bucket)?;
    let count = told(it.sessions.len())?;
    let it = expired(alloc, it);
    Ok(Answered {
        reply: Reply::Count(count),
        left: scope.with_bucket(alloc, bucket, it)?,
    })
}

fn expired(alloc: Global, bucket: Bucket) -> Bucket
    ensures { result ≡ without_sessions bucket }
{
    Bucket {
        keys: bucket.keys,
        sessions: NumberMap::new(alloc),
        snapshots: bucket.snapshots,
    }
}

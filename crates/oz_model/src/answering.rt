//! The reply of one thread to each request, and what it leaves.

ghost use Rattle.std.specs.Prelude.{◌≡◌, ◌≢◌, [], ◌∷◌, IfOk, IsSome};
ghost use Rattle.oz_requests.specs.Families.{family_of};
ghost use Rattle.oz_model.specs.Answers.{Answers, AnswersIn, Replies, after, scope_after};
ghost use Rattle.oz_model.specs.Grants.{IsPicked};
ghost use Rattle.oz_model.specs.Refusals.{codes, first_of, missing as what_is_missing, no_bucket, no_volume};

use crate::keys::{delete_key, list_keys, lookup_key, rename_key};
use crate::scope::{Scope, put_back};
use crate::sessions::{allocate_block, commit_key, create_key, expire_open};
use crate::snapshots::{create_snapshot, delete_snapshot, info_snapshot, list_snapshots};
use crate::volumes::{
    create_bucket, create_volume, delete_bucket, delete_volume, info_bucket, info_volume,
    list_buckets,
};
use crate::words::{Answered, refused};
use oz_fields::{Block, Name, OutOfMemory};
use oz_names::Code;
use oz_namespace::Namespace;
use oz_requests::{Exclude, Family, Reply, Request};
use std::alloc::Global;

/// The reply of one thread to a request, and the namespace that is left. The block and the pipeline of a grant are picked
/// by the caller. A reply that would count 2^32 things or more can't be written; there it answers that memory ran out.
pub fn answer(
    alloc: Global,
    namespace: &Namespace,
    request: &Request,
    pick: Option<(Block, u8)>,
) -> Result<(Reply, Namespace), OutOfMemory>
    requires { family_of request.now ≡ Family.Allocation → IsSome pick }
    ensures reply { IfOk result (λ answered. Answers namespace.now request.now answered.0) }
    ensures left { IfOk result (λ answered. answered.1 ≡ after namespace.now request.now answered.0) }
    ensures picked { IfOk result (λ answered. IsPicked pick answered.0) }
{
    let volume = Name::copy(alloc, request.volume())?;
    let scope = Scope::of(alloc, namespace, &volume)?;
    let answered = answered(alloc, scope, request, pick)?;
    let left = put_back(alloc, namespace, &volume, answered.left)?;
    Ok((answered.reply, left))
}

fn answered(
    alloc: Global,
    scope: Scope,
    request: &Request,
    pick: Option<(Block, u8)>,
) -> Result<Answered, OutOfMemory>
    requires { family_of request.now ≡ Family.Allocation → IsSome pick }
    ensures reply { IfOk result (λ it. AnswersIn scope request.now it.reply) }
    ensures left { IfOk result (λ it. it.left ≡ scope_after scope request.now it.reply) }
    ensures picked { IfOk result (λ it. IsPicked pick it.reply) }
{
    if let Some(code) = request.name_fault() {
        return Ok(refused(code, scope));
    }
    if let Some(code) = missing(&scope, request) {
        return Ok(refused(code, scope));
    }
    by_row(alloc, scope, request, pick)
}

/// The code where the volume isn't there, or the bucket, that the request needs.
fn missing(scope: &Scope, request: &Request) -> Option<Code>
    ensures { result ≡ first_of (what_is_missing scope.now request.now) }
{
    match request {
        Request::CreateVolume { .. }
        | Request::Purge { .. }
        | Request::MoveDeleted { .. }
        | Request::PurgeSnapshot { .. } => None,
        Request::InfoVolume { .. }
        | Request::DeleteVolume { .. }
        | Request::ListBuckets { .. }
        | Request::CreateBucket { .. } => volume_missing(scope),
        Request::InfoBucket { bucket, .. }
        | Request::DeleteBucket { bucket, .. }
        | Request::CreateKey { bucket, .. }
        | Request::AllocateBlock { bucket, .. }
        | Request::CommitKey { bucket, .. }
        | Request::DeleteKey { bucket, .. }
        | Request::RenameKey { bucket, .. }
        | Request::LookupKey { bucket, .. }
        | Request::ListKeys { bucket, .. }
        | Request::ExpireOpen { bucket, .. }
        | Request::CreateSnapshot { bucket, .. }
        | Request::DeleteSnapshot { bucket, .. }
        | Request::ListSnapshots { bucket, .. }
        | Request::InfoSnapshot { bucket, .. } => bucket_missing(scope, bucket),
    }
}

fn volume_missing(scope: &Scope) -> Option<Code>
    ensures { result ≡ first_of (no_volume scope.now ∷ []) }
{
    if scope.buckets.is_some() {
        None
    } else {
        Some(Code::VolumeNotFound)
    }
}

fn bucket_missing(scope: &Scope, bucket: &Name) -> Option<Code>
    ensures { result ≡ first_of (no_volume scope.now ∷ no_bucket scope.now bucket.now ∷ []) }
{
    if let Some(code) = volume_missing(scope) {
        return Some(code);
    }
    if scope.bucket(bucket).is_some() {
        None
    } else {
        Some(Code::BucketNotFound)
    }
}

/// What a request is answered whose names are good and that lacks nothing.
fn by_row(
    alloc: Global,
    scope: Scope,
    request: &Request,
    pick: Option<(Block, u8)>,
) -> Result<Answered, OutOfMemory>
    requires { family_of request.now ≡ Family.Allocation → IsSome pick }
    ensures reply { IfOk result (λ it. Replies (first_of (codes scope request.now)) scope request.now it.reply) }
    ensures left { IfOk result (λ it. it.left ≡ scope_after scope request.now it.reply) }
    ensures picked { IfOk result (λ it. IsPicked pick it.reply) }
{
    match request {
        Request::AllocateBlock {
            bucket,
            key,
            session,
            exclude,
            ..
        } => granted(alloc, scope, bucket, key, *session, exclude, pick),
        _ => other_row(alloc, scope, request),
    }
}

fn granted(
    alloc: Global,
    scope: Scope,
    bucket: &Name,
    key: &Name,
    session: u64,
    exclude: &Exclude,
    pick: Option<(Block, u8)>,
) -> Result<Answered, OutOfMemory>
    requires { IsSome pick }
    ensures reply { IfOk result (λ it. Replies
        (first_of (codes scope (Request.AllocateBlock [] bucket.now key.now session exclude.now))) scope
        (Request.AllocateBlock [] bucket.now key.now session exclude.now) it.reply) }
    ensures left { IfOk result (λ it. it.left ≡ scope_after scope
        (Request.AllocateBlock [] bucket.now key.now session exclude.now) it.reply) }
    ensures picked { IfOk result (λ it. IsPicked pick it.reply) }
{
    let Some(pick) = pick else {
        unreachable!();
    };
    allocate_block(alloc, scope, bucket, key, session, exclude, pick)
}

/// The same, but for the one that grants a block.
fn other_row(alloc: Global, scope: Scope, request: &Request) -> Result<Answered, OutOfMemory>
    requires { family_of request.now ≢ Family.Allocation }
    ensures reply { IfOk result (λ it. Replies (first_of (codes scope request.now)) scope request.now it.reply) }
    ensures left { IfOk result (λ it. it.left ≡ scope_after scope request.now it.reply) }
{
    match request {
        Request::CreateVolume { .. } => Ok(create_volume(alloc, scope)),
        Request::InfoVolume { .. } => info_volume(scope),
        Request::DeleteVolume { .. } => Ok(delete_volume(scope)),
        Request::CreateBucket { bucket, .. } => create_bucket(alloc, scope, bucket),
        Request::InfoBucket { bucket, .. } => info_bucket(alloc, scope, bucket),
        Request::DeleteBucket { bucket, .. } => delete_bucket(alloc, scope, bucket),
        Request::ListBuckets { .. } => list_buckets(alloc, scope),
        Request::CreateKey { bucket, key, .. } => create_key(alloc, scope, bucket, key),
        Request::AllocateBlock { .. } => unreachable!(),
        Request::CommitKey {
            bucket,
            key,
            session,
            pieces,
            ..
        } => commit_key(alloc, scope, bucket, key, *session, pieces),
        Request::DeleteKey { bucket, key, .. } => delete_key(alloc, scope, bucket, key),
        Request::RenameKey {
            bucket,
            key,
            to,
            ..
        } => rename_key(alloc, scope, bucket, key, to),
        Request::LookupKey {
            bucket,
            snapshot,
            key,
            ..
        } => lookup_key(alloc, scope, bucket, snapshot, key),
        Request::ListKeys {
            bucket,
            snapshot,
            prefix,
            start,
            count,
            ..
        } => list_keys(alloc, scope, bucket, snapshot, prefix, start, *count),
        Request::ExpireOpen { bucket, .. } => expire_open(alloc, scope, bucket),
        Request::CreateSnapshot {
            bucket,
            snapshot,
            ..
        } => create_snapshot(alloc, scope, bucket, snapshot),
        Request::DeleteSnapshot {
            bucket,
            snapshot,
            ..
        } => delete_snapshot(alloc, scope, bucket, snapshot),
        Request::ListSnapshots { bucket, .. } => list_snapshots(alloc, scope, bucket),
        Request::InfoSnapshot {
            bucket,
            snapshot,
            ..
        } => info_snapshot(alloc, scope, bucket, snapshot),
        Request::Purge { .. } | Request::MoveDeleted { .. } | Request::PurgeSnapshot { .. } => {
            Ok(done(scope))
        }
    }
}

/// It is done, and all is as it was.
fn done(scope: Scope) -> Answered
    ensures { result ≡ record { reply = Reply.Done; left = scope } }
{
    Answered {
        reply: Reply::Done,
        left: scope,
    }
}

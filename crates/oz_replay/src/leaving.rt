//! What a request leaves that had any reply, that of one thread or not.

ghost use Rattle.std.specs.Prelude.{◌≡◌, [], IfOk, option_copied};
ghost use Rattle.oz_requests.specs.declared.request.Request.{Request as AnyRequest};
ghost use Rattle.oz_model.specs.Answers.{after, left, scope_after};
ghost use Rattle.oz_core.specs.Manager.{namespace_after};
ghost use Rattle.oz_model.specs.Buckets.{bucket_in, buckets_in, with_bucket, with_number_drawn};
ghost use Rattle.oz_model.specs.Scope.{volumes_with, with_scope};

use crate::buckets::{
    committed, with_block, with_key_renamed, with_session, with_snapshot, without_key,
    without_sessions, without_snapshot,
};
use oz_fields::{List, Name, OutOfMemory, Piece, TryClone};
use oz_model::Scope;
use oz_names::stripe_of;
use oz_namespace::{Bucket, NameMap, Namespace};
use oz_requests::{Exclude, Reply, Request};
use std::alloc::{AllocError, Global};

/// A copy of a bucket, an empty one where there is no such bucket.
fn bucket_copied(alloc: Global, scope: &Scope, name: &Name) -> Result<Bucket, OutOfMemory>
    ensures { IfOk result (λ bucket. bucket ≡ bucket_in scope.now name.now) }
{
    match &scope.buckets {
        None => Ok(Bucket::new(alloc)),
        Some(buckets) => match buckets.get(name) {
            Some(bucket) => bucket.try_clone(alloc),
            None => Ok(Bucket::new(alloc)),
        },
    }
}

fn buckets_or_none(alloc: Global, buckets: Option<NameMap<Bucket>>) -> NameMap<Bucket>
    ensures { result ≡ buckets_in buckets }
{
    match buckets {
        Some(buckets) => buckets,
        None => NameMap::new(alloc),
    }
}

fn with_bucket(
    alloc: Global,
    scope: Scope,
    name: &Name,
    bucket: Bucket,
) -> Result<Scope, OutOfMemory>
    ensures { IfOk result (λ it. it ≡ with_bucket scope name.now bucket) }
{
    let drawn = scope.drawn;
    let mut buckets = buckets_or_none(alloc, scope.buckets);
    buckets.insert(alloc, name.try_clone(alloc)?, bucket)?;
    Ok(Scope {
        buckets: Some(buckets),
        drawn,
    })
}

/// One number more is drawn. Where that would be the number 2^64 it answers that memory ran out.
fn with_number_drawn(scope: Scope) -> Result<Scope, OutOfMemory>
    ensures { IfOk result (λ it. it ≡ with_number_drawn scope) }
{
    match scope.drawn.checked_add(1) {
        Some(drawn) => Ok(Scope {
            buckets: scope.buckets,
            drawn,
        }),
        None => Err(AllocError),
    }
}

fn with_key_created(
    alloc: Global,
    scope: Scope,
    bucket: &Name,
    key: &Name,
) -> Result<Scope, OutOfMemory>
    ensures { IfOk result (λ it. it ≡ left scope (AnyRequest.CreateKey [] bucket.now key.now) Reply.Done) }
{
    let Some(number) = scope.drawn.checked_add(1) else {
        return Err(AllocError);
    };
    let it = bucket_copied(alloc, &scope, bucket)?;
    let it = with_session(alloc, it, number, key, List::new(alloc))?;
    with_number_drawn(with_bucket(alloc, scope, bucket, it)?)
}

fn with_block_granted(
    alloc: Global,
    scope: Scope,
    bucket: &Name,
    key: &Name,
    session: u64,
    exclude: &Exclude,
    reply: &Reply,
) -> Result<Scope, OutOfMemory>
    ensures { IfOk result (λ it. it ≡ left scope (AnyRequest.AllocateBlock [] bucket.now key.now session exclude.now) reply.now) }
{
    let _unused = exclude;
    let it = bucket_copied(alloc, &scope, bucket)?;
    let it = with_block(alloc, it, key, session, reply)?;
    with_bucket(alloc, scope, bucket, it)
}

fn with_key_committed(
    alloc: Global,
    scope: Scope,
    bucket: &Name,
    key: &Name,
    session: u64,
    pieces: &List<Piece>,
) -> Result<Scope, OutOfMemory>
    ensures { IfOk result (λ it. it ≡ left scope (AnyRequest.CommitKey [] bucket.now key.now session pieces.now) Reply.Done) }
{
    let it = bucket_copied(alloc, &scope, bucket)?;
    let it = committed(alloc, it, key, session, pieces)?;
    with_bucket(alloc, scope, bucket, it)
}

fn with_key_deleted(
    alloc: Global,
    scope: Scope,
    bucket: &Name,
    key: &Name,
) -> Result<Scope, OutOfMemory>
    ensures { IfOk result (λ it. it ≡ left scope (AnyRequest.DeleteKey [] bucket.now key.now) Reply.Done) }
{
    let it = bucket_copied(alloc, &scope, bucket)?;
    let it = without_key(alloc, it, key)?;
    with_bucket(alloc, scope, bucket, it)
}

fn with_key_moved(
    alloc: Global,
    scope: Scope,
    bucket: &Name,
    key: &Name,
    to: &Name,
) -> Result<Scope, OutOfMemory>
    ensures { IfOk result (λ it. it ≡ left scope (AnyRequest.RenameKey [] bucket.now key.now to.now) Reply.Done) }
{
    let it = bucket_copied(alloc, &scope, bucket)?;
    let it = with_key_renamed(alloc, it, key, to)?;
    with_bucket(alloc, scope, bucket, it)
}

fn with_sessions_ended(alloc: Global, scope: Scope, bucket: &Name) -> Result<Scope, OutOfMemory>
    ensures { IfOk result (λ it. it ≡ left scope (AnyRequest.ExpireOpen [] bucket.now) Reply.Done) }
{
    let it = bucket_copied(alloc, &scope, bucket)?;
    let it = without_sessions(alloc, it);
    with_bucket(alloc, scope, bucket, it)
}

fn with_snapshot_deleted(
    alloc: Global,
    scope: Scope,
    bucket: &Name,
    snapshot: &Name,
) -> Result<Scope, OutOfMemory>
    ensures { IfOk result (λ it. it ≡ left scope (AnyRequest.DeleteSnapshot [] bucket.now snapshot.now) Reply.Done) }
{
    let it = bucket_copied(alloc, &scope, bucket)?;
    let it = without_snapshot(alloc, it, snapshot)?;
    with_bucket(alloc, scope, bucket, it)
}

fn with_snapshot_created(
    alloc: Global,
    scope: Scope,
    bucket: &Name,
    snapshot: &Name,
) -> Result<Scope, OutOfMemory>
    ensures { IfOk result (λ it. it ≡ left scope (AnyRequest.CreateSnapshot [] bucket.now snapshot.now) Reply.Done) }
{
    let it = bucket_copied(alloc, &scope, bucket)?;
    let it = with_snapshot(alloc, it, snapshot)?;
    with_number_drawn(with_bucket(alloc, scope, bucket, it)?)
}

fn with_volume_created(alloc: Global, scope: Scope) -> Scope
    ensures { result ≡ left scope (AnyRequest.CreateVolume []) Reply.Done }
{
    Scope {
        buckets: Some(NameMap::new(alloc)),
        drawn: scope.drawn,
    }
}

fn with_volume_deleted(scope: Scope) -> Scope
    ensures { result ≡ left scope (AnyRequest.DeleteVolume []) Reply.Done }
{
    Scope {
        buckets: None,
        drawn: scope.drawn,
    }
}

fn with_bucket_deleted(alloc: Global, scope: Scope, bucket: &Name) -> Scope
    ensures { result ≡ left scope (AnyRequest.DeleteBucket [] bucket.now) Reply.Done }
{
    let drawn = scope.drawn;
    let mut buckets = buckets_or_none(alloc, scope.buckets);
    buckets.remove(bucket);
    Scope {
        buckets: Some(buckets),
        drawn,
    }
}

/// What a request leaves that isn't refused.
fn left(alloc: Global, scope: Scope, request: &Request, reply: &Reply) -> Result<Scope, OutOfMemory>
    ensures { IfOk result (λ it. it ≡ left scope request.now reply.now) }
{
    match request {
        Request::CreateVolume { .. } => Ok(with_volume_created(alloc, scope)),
        Request::DeleteVolume { .. } => Ok(with_volume_deleted(scope)),
        Request::CreateBucket { bucket, .. } => {
            with_bucket(alloc, scope, bucket, Bucket::new(alloc))
        }
        Request::DeleteBucket { bucket, .. } => Ok(with_bucket_deleted(alloc, scope, bucket)),
        Request::CreateKey { bucket, key, .. } => with_key_created(alloc, scope, bucket, key),
        Request::AllocateBlock {
            bucket,
            key,
            session,
            exclude,
            ..
        } => with_block_granted(alloc, scope, bucket, key, *session, exclude, reply),
        Request::CommitKey {
            bucket,
            key,
            session,
            pieces,
            ..
        } => with_key_committed(alloc, scope, bucket, key, *session, pieces),
        Request::DeleteKey { bucket, key, .. } => with_key_deleted(alloc, scope, bucket, key),
        Request::RenameKey {
            bucket,
            key,
            to,
            ..
        } => with_key_moved(alloc, scope, bucket, key, to),
        Request::ExpireOpen { bucket, .. } => with_sessions_ended(alloc, scope, bucket),
        Request::CreateSnapshot {
            bucket,
            snapshot,
            ..
        } => with_snapshot_created(alloc, scope, bucket, snapshot),
        Request::DeleteSnapshot {
            bucket,
            snapshot,
            ..
        } => with_snapshot_deleted(alloc, scope, bucket, snapshot),
        _ => Ok(scope),
    }
}

fn scope_after(
    alloc: Global,
    scope: Scope,
    request: &Request,
    reply: &Reply,
) -> Result<Scope, OutOfMemory>
    ensures { IfOk result (λ it. it ≡ scope_after scope request.now reply.now) }
{
    match reply {
        Reply::Code(_) => Ok(scope),
        _ => left(alloc, scope, request, reply),
    }
}

fn volumes_with(
    alloc: Global,
    volumes: NameMap<NameMap<Bucket>>,
    volume: &Name,
    buckets: Option<NameMap<Bucket>>,
) -> Result<NameMap<NameMap<Bucket>>, OutOfMemory>
    ensures { IfOk result (λ left. left ≡ volumes_with volumes volume.now buckets) }
{
    let mut left = volumes;
    match buckets {
        Some(buckets) => {
            left.insert(alloc, volume.try_clone(alloc)?, buckets)?;
            Ok(left)
        }
        None => {
            left.remove(volume);
            Ok(left)
        }
    }
}

fn with_scope(
    alloc: Global,
    namespace: Namespace,
    volume: &Name,
    scope: Scope,
) -> Result<Namespace, OutOfMemory>
    ensures { IfOk result (λ left. left ≡ with_scope namespace volume.now scope) }
{
    let mut stripes = namespace.stripes;
    let volumes = volumes_with(alloc, namespace.volumes, volume, scope.buckets)?;
    stripes[stripe_of(volume.bytes()) as usize] = scope.drawn;
    Ok(Namespace { volumes, stripes })
}

/// The namespace that a request leaves that had this reply.
fn after(
    alloc: Global,
    namespace: Namespace,
    request: &Request,
    reply: &Reply,
) -> Result<Namespace, OutOfMemory>
    ensures { IfOk result (λ it. it ≡ after namespace request.now reply.now) }
{
    let volume = Name::copy(alloc, request.volume())?;
    let scope = Scope::of(alloc, &namespace, &volume)?;
    let left = scope_after(alloc, scope, request, reply)?;
    with_scope(alloc, namespace, &volume, left)
}

/// What a Decide leaves of a namespace that was asked this.
pub(crate) fn namespace_after(
    alloc: Global,
    request: Option<&Request>,
    namespace: Namespace,
    reply: &Reply,
) -> Result<Namespace, OutOfMemory>
    ensures { IfOk result (λ it. it ≡ namespace_after (option_copied request.entry) namespace reply.now) }
{
    match request {
        None => Ok(namespace),
        Some(request) => after(alloc, namespace, request, reply),
    }
}

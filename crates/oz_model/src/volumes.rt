//! The requests on volumes and buckets, each by its row. The names are good, and what the request needs is there. In a
//! row the volume's name plays no part.

ghost use Rattle.std.specs.Prelude.{◌≡◌, [], IfOk};
ghost use Rattle.std.specs.FinMap.{keys};
ghost use Rattle.oz_model.specs.Answers.{Replies, scope_after};
ghost use Rattle.oz_model.specs.Buckets.{buckets_in};
ghost use Rattle.oz_model.specs.Refusals.{codes, first_of};

use crate::scope::{Scope, buckets_or_none};
use crate::words::{Answered, bucket_count, in_use, refused, told};
use oz_fields::{List, Name, OutOfMemory};
use oz_names::{Code, MOST_BUCKETS};
use oz_namespace::{Bucket, NameMap};
use oz_requests::{Counts, Reply, Request};
use std::alloc::Global;

pub(crate) fn create_volume(alloc: Global, scope: Scope) -> Answered
    ensures reply { Replies (first_of (codes scope (Request.CreateVolume []))) scope (Request.CreateVolume []) result.reply }
    ensures left { result.left ≡ scope_after scope (Request.CreateVolume []) result.reply }
{
    if scope.buckets.is_some() {
        return refused(Code::VolumeAlreadyExists, scope);
    }
    Answered {
        reply: Reply::Done,
        left: Scope {
            buckets: Some(NameMap::new(alloc)),
            drawn: scope.drawn,
        },
    }
}

pub(crate) fn info_volume(scope: Scope) -> Result<Answered, OutOfMemory>
    ensures reply { IfOk result (λ it. Replies (first_of (codes scope (Request.InfoVolume []))) scope (Request.InfoVolume []) it.reply) }
    ensures left { IfOk result (λ it. it.left ≡ scope_after scope (Request.InfoVolume []) it.reply) }
{
    Ok(Answered {
        reply: Reply::Count(told(bucket_count(&scope))?),
        left: scope,
    })
}

pub(crate) fn delete_volume(scope: Scope) -> Answered
    ensures reply { Replies (first_of (codes scope (Request.DeleteVolume []))) scope (Request.DeleteVolume []) result.reply }
    ensures left { result.left ≡ scope_after scope (Request.DeleteVolume []) result.reply }
{
    if bucket_count(&scope) > 0 {
        return refused(Code::VolumeNotEmpty, scope);
    }
    Answered {
        reply: Reply::Done,
        left: Scope {
            buckets: None,
            drawn: scope.drawn,
        },
    }
}

pub(crate) fn create_bucket(
    alloc: Global,
    scope: Scope,
    bucket: &Name,
) -> Result<Answered, OutOfMemory>
    ensures reply { IfOk result (λ it. Replies (first_of (codes scope (Request.CreateBucket [] bucket.now))) scope
        (Request.CreateBucket [] bucket.now) it.reply) }
    ensures left { IfOk result (λ it. it.left ≡ scope_after scope (Request.CreateBucket [] bucket.now) it.reply) }
{
    if scope.bucket(bucket).is_some() {
        return Ok(refused(Code::BucketAlreadyExists, scope));
    }
    if bucket_count(&scope) >= MOST_BUCKETS as usize {
        return Ok(refused(Code::BucketLimit, scope));
    }
    Ok(Answered {
        reply: Reply::Done,
        left: scope.with_bucket(alloc, bucket, Bucket::new(alloc))?,
    })
}

pub(crate) fn info_bucket(
    alloc: Global,
    scope: Scope,
    bucket: &Name,
) -> Result<Answered, OutOfMemory>
    ensures reply { IfOk result (λ it. Replies (first_of (codes scope (Request.InfoBucket [] bucket.now))) scope
        (Request.InfoBucket [] bucket.now) it.reply) }
    ensures left { IfOk result (λ it. it.left ≡ scope_after scope (Request.InfoBucket [] bucket.now) it.reply) }
{
    let it = scope.bucket_copied(alloc, bucket)?;
    let counts = Counts {
        keys: told(it.keys.len())?,
        sessions: told(it.sessions.len())?,
        snapshots: told(it.snapshots.len())?,
    };
    Ok(Answered {
        reply: Reply::Counts(counts),
        left: scope,
    })
}

pub(crate) fn delete_bucket(
    alloc: Global,
    scope: Scope,
    bucket: &Name,
) -> Result<Answered, OutOfMemory>
    ensures reply { IfOk result (λ it. Replies (first_of (codes scope (Request.DeleteBucket [] bucket.now))) scope
        (Request.DeleteBucket [] bucket.now) it.reply) }
    ensures left { IfOk result (λ it. it.left ≡ scope_after scope (Request.DeleteBucket [] bucket.now) it.reply) }
{
    let it = scope.bucket_copied(alloc, bucket)?;
    if in_use(&it) {
        return Ok(refused(Code::BucketNotEmpty, scope));
    }
    if it.snapshots.len() > 0 {
        return Ok(refused(Code::ContainsSnapshot, scope));
    }
    Ok(Answered {
        reply: Reply::Done,
        left: without_bucket(alloc, scope, bucket),
    })
}

fn without_bucket(alloc: Global, scope: Scope, bucket: &Name) -> Scope
    ensures { result ≡ scope_after scope (Request.DeleteBucket [] bucket.now) Reply.Done }
{
    let drawn = scope.drawn;
    let mut buckets = buckets_or_none(alloc, scope.buckets);
    buckets.remove(bucket);
    Scope {
        buckets: Some(buckets),
        drawn,
    }
}

#[tactic(auto, using(crate::proofs::Empty::no_names))]
pub(crate) fn list_buckets(alloc: Global, scope: Scope) -> Result<Answered, OutOfMemory>
    ensures reply { IfOk result (λ it. Replies (first_of (codes scope (Request.ListBuckets []))) scope (Request.ListBuckets []) it.reply) }
    ensures left { IfOk result (λ it. it.left ≡ scope_after scope (Request.ListBuckets []) it.reply) }
{
    let names = bucket_names(alloc, &scope)?;
    Ok(Answered {
        reply: Reply::Names(names),
        left: scope,
    })
}

/// The names of a volume's buckets, none where there is no such volume.
#[tactic(auto, using(crate::proofs::Empty::no_names))]
fn bucket_names(alloc: Global, scope: &Scope) -> Result<List<Name>, OutOfMemory>
    ensures { IfOk result (λ names. names ≡ keys (buckets_in scope.now.buckets)) }
{
    match &scope.buckets {
        Some(buckets) => buckets.names(alloc),
        None => Ok(List::new(alloc)),
    }
}

//! The requests on snapshots, each by its row. The names are good, and the bucket is there. In a row the volume's name
//! plays no part.

ghost use Rattle.std.specs.Prelude.{◌≡◌, [], IfOk, filter, map, not, Some};
ghost use Rattle.oz_namespace.specs.declared.namespace.Snapshot.{Snapshot as AnySnapshot};
ghost use Rattle.oz_model.specs.Answers.{Replies, scope_after};
ghost use Rattle.oz_model.specs.Buckets.{is_same_name as same_name, with_snapshot as snapshot_put, without_snapshot as snapshot_gone};
ghost use Rattle.oz_model.specs.Refusals.{codes, first_of};

use crate::scope::Scope;
use crate::words::{Answered, is_same_name, refused, snapshot_keys, told};
use oz_fields::{List, Name, OutOfMemory, TryClone};
use oz_names::{Code, MOST_NUMBERS, MOST_SNAPSHOTS};
use oz_namespace::{Bucket, Snapshot};
use oz_requests::{Reply, Request};
use std::alloc::{AllocError, Global};

pub(crate) fn create_snapshot(
    alloc: Global,
    scope: Scope,
    bucket: &Name,
    name: &Name,
) -> Result<Answered, OutOfMemory>
    ensures reply { IfOk result (λ it. Replies (first_of (codes scope (Request.CreateSnapshot [] bucket.now name.now))) scope
        (Request.CreateSnapshot [] bucket.now name.now) it.reply) }
    ensures left { IfOk result (λ it. it.left ≡ scope_after scope (Request.CreateSnapshot [] bucket.now name.now) it.reply) }
{
    let it = scope.bucket_copied(alloc, bucket)?;
    if snapshot_keys(it.snapshots.items(), name).is_some() {
        return Ok(refused(Code::SnapshotAlreadyExists, scope));
    }
    if it.snapshots.len() >= MOST_SNAPSHOTS as usize {
        return Ok(refused(Code::SnapshotLimit, scope));
    }
    if scope.drawn >= MOST_NUMBERS {
        return Ok(refused(Code::NumbersSpent, scope));
    }
    let it = with_snapshot(alloc, it, name)?;
    let left = scope.with_bucket(alloc, bucket, it)?;
    Ok(Answered {
        reply: Reply::Done,
        left: left.with_number_drawn(),
    })
}

/// The bucket in which a copy of the keys is the last snapshot.
fn with_snapshot(alloc: Global, bucket: Bucket, name: &Name) -> Result<Bucket, OutOfMemory>
    ensures { IfOk result (λ it. it ≡ snapshot_put bucket name.now) }
{
    let snapshot = Snapshot {
        name: name.try_clone(alloc)?,
        keys: bucket.keys.try_clone(alloc)?,
    };
    let mut it = bucket;
    match it.snapshots.push(alloc, snapshot) {
        Ok(()) => Ok(it),
        Err(_) => Err(AllocError),
    }
}

pub(crate) fn delete_snapshot(
    alloc: Global,
    scope: Scope,
    bucket: &Name,
    name: &Name,
) -> Result<Answered, OutOfMemory>
    ensures reply { IfOk result (λ it. Replies (first_of (codes scope (Request.DeleteSnapshot [] bucket.now name.now))) scope
        (Request.DeleteSnapshot [] bucket.now name.now) it.reply) }
    ensures left { IfOk result (λ it. it.left ≡ scope_after scope (Request.DeleteSnapshot [] bucket.now name.now) it.reply) }
{
    let it = scope.bucket_copied(alloc, bucket)?;
    if snapshot_keys(it.snapshots.items(), name).is_none() {
        return Ok(refused(Code::SnapshotNotFound, scope));
    }
    let it = without_snapshot(alloc, it, name)?;
    Ok(Answered {
        reply: Reply::Done,
        left: scope.with_bucket(alloc, bucket, it)?,
    })
}

/// The bucket without the snapshots of this name.
fn without_snapshot(alloc: Global, bucket: Bucket, name: &Name) -> Result<Bucket, OutOfMemory>
    ensures { IfOk result (λ it. it ≡ snapshot_gone bucket name.now) }
{
    let snapshots = others(alloc, bucket.snapshots.items(), name)?;
    Ok(Bucket {
        keys: bucket.keys,
        sessions: bucket.sessions,
        snapshots: List::of(snapshots),
    })
}

/// Copies of the snapshots of other names.
fn others(alloc: Global, snapshots: &[Snapshot], name: &Name) -> Result<Vec<Snapshot>, OutOfMemory>
    ensures { IfOk result (λ found. found.items ≡ filter (λ (it : AnySnapshot). not (same_name it.name name.now)) snapshots.now) }
{
    let mut found = Vec::new(alloc);
    for snapshot in snapshots {
        if !is_same_name(&snapshot.name, name) {
            found.push(snapshot.try_clone(alloc)?)?;
        }
    }
    Ok(found)
}

pub(crate) fn list_snapshots(
    alloc: Global,
    scope: Scope,
    bucket: &Name,
) -> Result<Answered, OutOfMemory>
    ensures reply { IfOk result (λ it. Replies (first_of (codes scope (Request.ListSnapshots [] bucket.now))) scope
        (Request.ListSnapshots [] bucket.now) it.reply) }
    ensures left { IfOk result (λ it. it.left ≡ scope_after scope (Request.ListSnapshots [] bucket.now) it.reply) }
{
    let it = scope.bucket_copied(alloc, bucket)?;
    let names = snapshot_names(alloc, it.snapshots.items())?;
    Ok(Answered {
        reply: Reply::Names(List::of(names)),
        left: scope,
    })
}

fn snapshot_names(alloc: Global, snapshots: &[Snapshot]) -> Result<Vec<Name>, OutOfMemory>
    ensures { IfOk result (λ names. names.items ≡ map (λ (it : AnySnapshot). it.name) snapshots.now) }
{
    let mut names = Vec::new(alloc);
    for snapshot in snapshots {
        names.push(snapshot.name.try_clone(alloc)?)?;
    }
    Ok(names)
}

pub(crate) fn info_snapshot(
    alloc: Global,
    scope: Scope,
    bucket: &Name,
    name: &Name,
) -> Result<Answered, OutOfMemory>
    ensures reply { IfOk result (λ it. Replies (first_of (codes scope (Request.InfoSnapshot [] bucket.now name.now))) scope
        (Request.InfoSnapshot [] bucket.now name.now) it.reply) }
    ensures left { IfOk result (λ it. it.left ≡ scope_after scope (Request.InfoSnapshot [] bucket.now name.now) it.reply) }
{
    let it = scope.bucket_copied(alloc, bucket)?;
    let Some(keys) = snapshot_keys(it.snapshots.items(), name) else {
        return Ok(refused(Code::SnapshotNotFound, scope));
    };
    Ok(Answered {
        reply: Reply::Count(told(keys.len())?),
        left: scope,
    })
}

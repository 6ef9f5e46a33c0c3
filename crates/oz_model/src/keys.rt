//! The requests on keys, each by its row. The names are good, and the bucket is there. In a row the volume's name plays
//! no part.

ghost use Rattle.std.specs.Prelude.{◌≡◌, ◌&&◌, [], IfOk, filter, nat_eq};
ghost use Rattle.std.specs.Cmp.Lexicographic.{slice_cmp};
ghost use Rattle.std.specs.FinMap.{remove};
ghost use Rattle.std.specs.List.{starts_with};
ghost use Rattle.std.specs.Ordering.{nat_cmp, is_lt};
ghost use Rattle.oz_model.specs.Answers.{Replies, scope_after};
ghost use Rattle.oz_model.specs.Buckets.{is_listed as listed_so, listed as listed_in, renamed};
ghost use Rattle.oz_model.specs.Refusals.{codes, first_of};

use crate::scope::Scope;
use crate::words::{Answered, has_key, keys_asked, pieces_copied, refused, with_keys};
use oz_fields::{List, Name, OutOfMemory, Piece, TryClone};
use oz_names::Code;
use oz_namespace::NameMap;
use oz_requests::{Reply, Request};
use std::alloc::Global;

pub(crate) fn delete_key(
    alloc: Global,
    scope: Scope,
    bucket: &Name,
    key: &Name,
) -> Result<Answered, OutOfMemory>
    ensures reply { IfOk result (λ it. Replies (first_of (codes scope (Request.DeleteKey [] bucket.now key.now))) scope
        (Request.DeleteKey [] bucket.now key.now) it.reply) }
    ensures left { IfOk result (λ it. it.left ≡ scope_after scope (Request.DeleteKey [] bucket.now key.now) it.reply) }
{
    let it = scope.bucket_copied(alloc, bucket)?;
    if !has_key(&it.keys, key) {
        return Ok(refused(Code::KeyNotFound, scope));
    }
    let keys = keys_without(alloc, &it.keys, key)?;
    Ok(Answered {
        reply: Reply::Done,
        left: scope.with_bucket(alloc, bucket, with_keys(it, keys))?,
    })
}

fn keys_without(
    alloc: Global,
    keys: &NameMap<List<Piece>>,
    key: &Name,
) -> Result<NameMap<List<Piece>>, OutOfMemory>
    ensures { IfOk result (λ left. left ≡ remove keys.now key.now) }
{
    let mut left = keys.try_clone(alloc)?;
    left.remove(key);
    Ok(left)
}

pub(crate) fn rename_key(
    alloc: Global,
    scope: Scope,
    bucket: &Name,
    key: &Name,
    to: &Name,
) -> Result<Answered, OutOfMemory>
    ensures reply { IfOk result (λ it. Replies (first_of (codes scope (Request.RenameKey [] bucket.now key.now to.now))) scope
        (Request.RenameKey [] bucket.now key.now to.now) it.reply) }
    ensures left { IfOk result (λ it. it.left ≡ scope_after scope (Request.RenameKey [] bucket.now key.now to.now) it.reply) }
{
    let it = scope.bucket_copied(alloc, bucket)?;
    if !has_key(&it.keys, key) {
        return Ok(refused(Code::KeyNotFound, scope));
    }
    if has_key(&it.keys, to) {
        return Ok(refused(Code::KeyAlreadyExists, scope));
    }
    let keys = keys_renamed(alloc, &it.keys, key, to)?;
    Ok(Answered {
        reply: Reply::Done,
        left: scope.with_bucket(alloc, bucket, with_keys(it, keys))?,
    })
}

fn keys_renamed(
    alloc: Global,
    keys: &NameMap<List<Piece>>,
    key: &Name,
    to: &Name,
) -> Result<NameMap<List<Piece>>, OutOfMemory>
    ensures { IfOk result (λ left. left ≡ renamed keys.now key.now to.now) }
{
    let pieces = pieces_copied(alloc, keys, key)?;
    let mut left = keys_without(alloc, keys, key)?;
    left.insert(alloc, to.try_clone(alloc)?, pieces)?;
    Ok(left)
}

pub(crate) fn lookup_key(
    alloc: Global,
    scope: Scope,
    bucket: &Name,
    snapshot: &Option<Name>,
    key: &Name,
) -> Result<Answered, OutOfMemory>
    ensures reply { IfOk result (λ it. Replies (first_of (codes scope (Request.LookupKey [] bucket.now snapshot.now key.now))) scope
        (Request.LookupKey [] bucket.now snapshot.now key.now) it.reply) }
    ensures left { IfOk result (λ it. it.left ≡ scope_after scope (Request.LookupKey [] bucket.now snapshot.now key.now) it.reply) }
{
    let it = scope.bucket_copied(alloc, bucket)?;
    let Some(keys) = keys_asked(&it, snapshot) else {
        return Ok(refused(Code::SnapshotNotFound, scope));
    };
    if !has_key(keys, key) {
        return Ok(refused(Code::KeyNotFound, scope));
    }
    Ok(Answered {
        reply: Reply::Pieces(pieces_copied(alloc, keys, key)?),
        left: scope,
    })
}

pub(crate) fn list_keys(
    alloc: Global,
    scope: Scope,
    bucket: &Name,
    snapshot: &Option<Name>,
    prefix: &Name,
    start: &Name,
    count: u16,
) -> Result<Answered, OutOfMemory>
    ensures reply { IfOk result (λ it. Replies
        (first_of (codes scope (Request.ListKeys [] bucket.now snapshot.now prefix.now start.now count))) scope
        (Request.ListKeys [] bucket.now snapshot.now prefix.now start.now count) it.reply) }
    ensures left { IfOk result (λ it. it.left ≡ scope_after scope
        (Request.ListKeys [] bucket.now snapshot.now prefix.now start.now count) it.reply) }
{
    let it = scope.bucket_copied(alloc, bucket)?;
    let Some(keys) = keys_asked(&it, snapshot) else {
        return Ok(refused(Code::SnapshotNotFound, scope));
    };
    Ok(Answered {
        reply: Reply::Names(listed(alloc, keys, prefix, start, count)?),
        left: scope,
    })
}

/// The names with a prefix and above a start, at most so many.
fn listed(
    alloc: Global,
    keys: &NameMap<List<Piece>>,
    prefix: &Name,
    start: &Name,
    count: u16,
) -> Result<List<Name>, OutOfMemory>
    ensures { IfOk result (λ names. names ≡ listed_in keys.now prefix.now start.now count) }
{
    let all = keys.names(alloc)?;
    let mut found = chosen(alloc, all.items(), prefix, start)?;
    found.truncate(count as usize);
    Ok(List::of(found))
}

fn chosen(
    alloc: Global,
    names: &[Name],
    prefix: &Name,
    start: &Name,
) -> Result<Vec<Name>, OutOfMemory>
    ensures { IfOk result (λ found. found.items ≡ filter (listed_so prefix.now start.now) names.now) }
{
    let mut found = Vec::new(alloc);
    for name in names {
        if is_listed(name, prefix, start) {
            found.push(name.try_clone(alloc)?)?;
        }
    }
    Ok(found)
}

fn is_listed(name: &Name, prefix: &Name, start: &Name) -> bool
    ensures { result ≡ listed_so prefix.now start.now name.now }
{
    name.bytes().starts_with(prefix.bytes()) && *start < *name
}

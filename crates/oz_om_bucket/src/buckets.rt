//! The requests on a bucket. The names were tested before.

ghost use Rattle.std.specs.Prelude.{◌≡◌, false, true, None, IfOk};
ghost use Rattle.oz_decision.specs.Drafts.{row_by_row};
ghost use Rattle.oz_decision.specs.Replies.{IsReply, ShowsThat};
ghost use Rattle.oz_model.specs.Answers.{counts_of};
ghost use Rattle.oz_model.specs.Buckets.{is_in_use, bucket_at};
ghost use Rattle.oz_model.specs.Refusals.{refusal};
ghost use Rattle.oz_model.specs.Scope.{scope_of};
ghost use Rattle.oz_names.specs.Names.{is_volume_name};
ghost use Rattle.oz_om_bucket.specs.Records.{recorded_changes};
ghost use Rattle.oz_om_bucket.specs.Allowed.{HasNoUse, IsAllowed, MayRecord};
ghost use Rattle.oz_rows.specs.Operations.{batch_bytes};

use oz_decision::{
    Decision, Draft, bucket_count, has_row, key_count, missing_bucket, session_count,
    snapshot_count,
};
use oz_fields::{Name, OutOfMemory};
use oz_names::{Code, MOST_BUCKETS};
use oz_requests::{Counts, Reply, Request};
use oz_rows::{Row, RowKey, RowMap};
use std::alloc::Global;

pub(crate) fn create_bucket<M: RowMap>(
    alloc: Global,
    rows: &M,
    volume: &Name,
    bucket: &Name,
) -> Result<Decision, OutOfMemory>
    requires volume { is_volume_name volume.now ≡ true }
    requires bucket { is_volume_name bucket.now ≡ true }
    ensures reply { IfOk result (λ decision. IsReply (M.rows rows.now) (Request.CreateBucket volume.now bucket.now) decision.reply) }
    ensures allowed { IfOk result (λ decision. MayRecord (M.rows rows.now) (Request.CreateBucket volume.now bucket.now) decision.reply) }
    ensures changes { IfOk result (λ decision. decision.changes ≡ recorded_changes (Request.CreateBucket volume.now bucket.now) decision.reply) }
    ensures operations { IfOk result (λ decision. decision.bytes ≡ batch_bytes (row_by_row decision.changes)) }
{
    let key = RowKey::of_bucket(alloc, volume, bucket)?;
    if let Some(code) = not_made(alloc, rows, volume, bucket, &key)? {
        return Ok(Decision::unchanged(alloc, Reply::Code(code)));
    }
    let draft = Draft::new(alloc).put(alloc, key, Row::Bucket)?;
    Ok(draft.with_reply(Reply::Done))
}

/// Why a bucket, whose row has this key, isn't made, where it isn't.
fn not_made<M: RowMap>(
    alloc: Global,
    rows: &M,
    volume: &Name,
    bucket: &Name,
    key: &RowKey,
) -> Result<Option<Code>, OutOfMemory>
    requires volume { is_volume_name volume.now ≡ true }
    requires bucket { is_volume_name bucket.now ≡ true }
    requires key { key.now ≡ RowKey.Bucket volume.now bucket.now }
    ensures code { IfOk result (λ code. ShowsThat (M.rows rows.now)
        (λ namespace. code ≡ refusal (scope_of namespace volume.now) (Request.CreateBucket volume.now bucket.now))) }
    ensures none { IfOk result (λ code. code ≡ None → IsAllowed (M.rows rows.now) (Request.CreateBucket volume.now bucket.now)) }
{
    let of_volume = RowKey::of_volume(alloc, volume)?;
    if !has_row(rows, &of_volume) {
        return Ok(Some(Code::VolumeNotFound));
    }
    if has_row(rows, key) {
        return Ok(Some(Code::BucketAlreadyExists));
    }
    if bucket_count(alloc, rows, volume)? >= MOST_BUCKETS {
        return Ok(Some(Code::BucketLimit));
    }
    Ok(None)
}

pub(crate) fn info_bucket<M: RowMap>(
    alloc: Global,
    rows: &M,
    volume: &Name,
    bucket: &Name,
) -> Result<Decision, OutOfMemory>
    requires volume { is_volume_name volume.now ≡ true }
    requires bucket { is_volume_name bucket.now ≡ true }
    ensures reply { IfOk result (λ decision. IsReply (M.rows rows.now) (Request.InfoBucket volume.now bucket.now) decision.reply) }
    ensures allowed { IfOk result (λ decision. MayRecord (M.rows rows.now) (Request.InfoBucket volume.now bucket.now) decision.reply) }
    ensures changes { IfOk result (λ decision. decision.changes ≡ recorded_changes (Request.InfoBucket volume.now bucket.now) decision.reply) }
    ensures operations { IfOk result (λ decision. decision.bytes ≡ batch_bytes (row_by_row decision.changes)) }
{
    let key = RowKey::of_bucket(alloc, volume, bucket)?;
    if let Some(code) = missing_bucket(alloc, rows, volume, bucket, &key)? {
        return Ok(Decision::unchanged(alloc, Reply::Code(code)));
    }
    let counts = counted(alloc, rows, volume, bucket)?;
    Ok(Decision::unchanged(alloc, Reply::Counts(counts)))
}

/// How many keys, sessions and snapshots a bucket has.
fn counted<M: RowMap>(
    alloc: Global,
    rows: &M,
    volume: &Name,
    bucket: &Name,
) -> Result<Counts, OutOfMemory>
    ensures { IfOk result (λ counts. ShowsThat (M.rows rows.now) (λ namespace. counts ≡ counts_of (bucket_at namespace volume.now bucket.now))) }
{
    Ok(Counts {
        keys: key_count(alloc, rows, volume, bucket)?,
        sessions: session_count(alloc, rows, volume, bucket)?,
        snapshots: snapshot_count(alloc, rows, volume, bucket)?,
    })
}

pub(crate) fn delete_bucket<M: RowMap>(
    alloc: Global,
    rows: &M,
    volume: &Name,
    bucket: &Name,
) -> Result<Decision, OutOfMemory>
    requires volume { is_volume_name volume.now ≡ true }
    requires bucket { is_volume_name bucket.now ≡ true }
    ensures reply { IfOk result (λ decision. IsReply (M.rows rows.now) (Request.DeleteBucket volume.now bucket.now) decision.reply) }
    ensures allowed { IfOk result (λ decision. MayRecord (M.rows rows.now) (Request.DeleteBucket volume.now bucket.now) decision.reply) }
    ensures changes { IfOk result (λ decision. decision.changes ≡ recorded_changes (Request.DeleteBucket volume.now bucket.now) decision.reply) }
    ensures operations { IfOk result (λ decision. decision.bytes ≡ batch_bytes (row_by_row decision.changes)) }
{
    let key = RowKey::of_bucket(alloc, volume, bucket)?;
    if let Some(code) = kept(alloc, rows, volume, bucket, &key)? {
        return Ok(Decision::unchanged(alloc, Reply::Code(code)));
    }
    let draft = Draft::new(alloc).remove(alloc, key)?;
    Ok(draft.with_reply(Reply::Done))
}

/// Why a bucket, whose row has this key, doesn't go, where it doesn't.
fn kept<M: RowMap>(
    alloc: Global,
    rows: &M,
    volume: &Name,
    bucket: &Name,
    key: &RowKey,
) -> Result<Option<Code>, OutOfMemory>
    requires volume { is_volume_name volume.now ≡ true }
    requires bucket { is_volume_name bucket.now ≡ true }
    requires key { key.now ≡ RowKey.Bucket volume.now bucket.now }
    ensures code { IfOk result (λ code. ShowsThat (M.rows rows.now)
        (λ namespace. code ≡ refusal (scope_of namespace volume.now) (Request.DeleteBucket volume.now bucket.now))) }
    ensures none { IfOk result (λ code. code ≡ None → IsAllowed (M.rows rows.now) (Request.DeleteBucket volume.now bucket.now)) }
{
    if let Some(code) = missing_bucket(alloc, rows, volume, bucket, key)? {
        return Ok(Some(code));
    }
    if in_use(alloc, rows, volume, bucket)? {
        return Ok(Some(Code::BucketNotEmpty));
    }
    if snapshot_count(alloc, rows, volume, bucket)? > 0 {
        return Ok(Some(Code::ContainsSnapshot));
    }
    Ok(None)
}

/// Whether the bucket has a key or a session.
fn in_use<M: RowMap>(
    alloc: Global,
    rows: &M,
    volume: &Name,
    bucket: &Name,
) -> Result<bool, OutOfMemory>
    ensures shows { IfOk result (λ used. ShowsThat (M.rows rows.now) (λ namespace. used ≡ is_in_use (bucket_at namespace volume.now bucket.now))) }
    ensures none { IfOk result (λ used. used ≡ false → HasNoUse (M.rows rows.now) volume.now bucket.now) }
{
    if key_count(alloc, rows, volume, bucket)? > 0 {
        return Ok(true);
    }
    Ok(session_count(alloc, rows, volume, bucket)? > 0)
}

//! The requests on a volume. Its name was tested before.

ghost use Rattle.std.specs.Prelude.{◌≡◌, true, IfOk};
ghost use Rattle.oz_decision.specs.Drafts.{row_by_row};
ghost use Rattle.oz_decision.specs.Replies.{IsReply};
ghost use Rattle.oz_names.specs.Names.{is_volume_name};
ghost use Rattle.oz_om_bucket.specs.Records.{recorded_changes};
ghost use Rattle.oz_om_bucket.specs.Allowed.{MayRecord};
ghost use Rattle.oz_rows.specs.Operations.{batch_bytes};

use oz_decision::{Decision, Draft, bucket_count, bucket_names, has_row};
use oz_fields::{Name, OutOfMemory};
use oz_names::Code;
use oz_requests::{Reply, Request};
use oz_rows::{Row, RowKey, RowMap};
use std::alloc::Global;

pub(crate) fn create_volume<M: RowMap>(
    alloc: Global,
    rows: &M,
    volume: &Name,
) -> Result<Decision, OutOfMemory>
    requires { is_volume_name volume.now ≡ true }
    ensures reply { IfOk result (λ decision. IsReply (M.rows rows.now) (Request.CreateVolume volume.now) decision.reply) }
    ensures allowed { IfOk result (λ decision. MayRecord (M.rows rows.now) (Request.CreateVolume volume.now) decision.reply) }
    ensures changes { IfOk result (λ decision. decision.changes ≡ recorded_changes (Request.CreateVolume volume.now) decision.reply) }
    ensures operations { IfOk result (λ decision. decision.bytes ≡ batch_bytes (row_by_row decision.changes)) }
{
    let key = RowKey::of_volume(alloc, volume)?;
    if has_row(rows, &key) {
        let taken = Reply::Code(Code::VolumeAlreadyExists);
        return Ok(Decision::unchanged(alloc, taken));
    }
    let draft = Draft::new(alloc).put(alloc, key, Row::Volume)?;
    Ok(draft.with_reply(Reply::Done))
}

pub(crate) fn info_volume<M: RowMap>(
    alloc: Global,
    rows: &M,
    volume: &Name,
) -> Result<Decision, OutOfMemory>
    requires { is_volume_name volume.now ≡ true }
    ensures reply { IfOk result (λ decision. IsReply (M.rows rows.now) (Request.InfoVolume volume.now) decision.reply) }
    ensures allowed { IfOk result (λ decision. MayRecord (M.rows rows.now) (Request.InfoVolume volume.now) decision.reply) }
    ensures changes { IfOk result (λ decision. decision.changes ≡ recorded_changes (Request.InfoVolume volume.now) decision.reply) }
    ensures operations { IfOk result (λ decision. decision.bytes ≡ batch_bytes (row_by_row decision.changes)) }
{
    let key = RowKey::of_volume(alloc, volume)?;
    if !has_row(rows, &key) {
        let missing = Reply::Code(Code::VolumeNotFound);
        return Ok(Decision::unchanged(alloc, missing));
    }
    let count = bucket_count(alloc, rows, volume)?;
    Ok(Decision::unchanged(alloc, Reply::Count(count)))
}

pub(crate) fn delete_volume<M: RowMap>(
    alloc: Global,
    rows: &M,
    volume: &Name,
) -> Result<Decision, OutOfMemory>
    requires { is_volume_name volume.now ≡ true }
    ensures reply { IfOk result (λ decision. IsReply (M.rows rows.now) (Request.DeleteVolume volume.now) decision.reply) }
    ensures allowed { IfOk result (λ decision. MayRecord (M.rows rows.now) (Request.DeleteVolume volume.now) decision.reply) }
    ensures changes { IfOk result (λ decision. decision.changes ≡ recorded_changes (Request.DeleteVolume volume.now) decision.reply) }
    ensures operations { IfOk result (λ decision. decision.bytes ≡ batch_bytes (row_by_row decision.changes)) }
{
    let key = RowKey::of_volume(alloc, volume)?;
    if !has_row(rows, &key) {
        let missing = Reply::Code(Code::VolumeNotFound);
        return Ok(Decision::unchanged(alloc, missing));
    }
    if bucket_count(alloc, rows, volume)? > 0 {
        let in_use = Reply::Code(Code::VolumeNotEmpty);
        return Ok(Decision::unchanged(alloc, in_use));
    }
    let draft = Draft::new(alloc).remove(alloc, key)?;
    Ok(draft.with_reply(Reply::Done))
}

pub(crate) fn list_buckets<M: RowMap>(
    alloc: Global,
    rows: &M,
    volume: &Name,
) -> Result<Decision, OutOfMemory>
    requires { is_volume_name volume.now ≡ true }
    ensures reply { IfOk result (λ decision. IsReply (M.rows rows.now) (Request.ListBuckets volume.now) decision.reply) }
    ensures allowed { IfOk result (λ decision. MayRecord (M.rows rows.now) (Request.ListBuckets volume.now) decision.reply) }
    ensures changes { IfOk result (λ decision. decision.changes ≡ recorded_changes (Request.ListBuckets volume.now) decision.reply) }
    ensures operations { IfOk result (λ decision. decision.bytes ≡ batch_bytes (row_by_row decision.changes)) }
{
    let key = RowKey::of_volume(alloc, volume)?;
    if !has_row(rows, &key) {
        let missing = Reply::Code(Code::VolumeNotFound);
        return Ok(Decision::unchanged(alloc, missing));
    }
    let names = bucket_names(alloc, rows, volume)?;
    Ok(Decision::unchanged(alloc, Reply::Names(names)))
}

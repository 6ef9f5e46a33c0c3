//! What a deleted snapshot owns goes on to the next owner.

ghost use Rattle.std.specs.Prelude.{◌≡◌, ◌↔◌, IsTrue, IfOk};
ghost use Rattle.oz_names.specs.Names.{IsVolumeName, IsBucketName};
ghost use Rattle.oz_reclaim.specs.Service.{AreMoved, MayMove, operations_for};
ghost use Rattle.oz_reclaim.specs.Work.{IsMarked};
ghost use Rattle.oz_requests.specs.declared.request.Request.{Request as AnyRequest};
ghost use Rattle.oz_rows.specs.Operations.{batch_bytes};

use crate::owning::next_owner;
use crate::working::is_marked;
use oz_decision::{Decision, Draft};
use oz_effects::moved_rows;
use oz_fields::{Name, OutOfMemory, TryClone};
use oz_names::{bucket_name, volume_name};
use oz_requests::Reply;
use oz_rows::{Operation, RowKey, RowMap};
use std::alloc::Global;

/// Decides that the rows of the bucket's deleted snapshot of this number go to another owner, where that is the next one.
pub(crate) fn move_deleted<M: RowMap>(
    alloc: Global,
    rows: &M,
    volume: &Name,
    bucket: &Name,
    number: u64,
    to: u64,
) -> Result<Decision, OutOfMemory>
    ensures reply { IfOk result (λ decision. decision.reply ≡ Reply.Done) }
    ensures moved { IfOk result (λ decision. AreMoved (M.rows rows.now) volume.now bucket.now number to decision.changes) }
    ensures operations { IfOk result (λ decision. decision.bytes
        ≡ batch_bytes (operations_for (AnyRequest.MoveDeleted volume.now bucket.now number to) decision.changes)) }
{
    let may = may_move(alloc, rows, volume, bucket, number, to)?;
    if !may {
        return Ok(Decision::unchanged(alloc, Reply::Done));
    }
    let changes = moved_rows(alloc, rows, volume, bucket, number, to)?;
    if changes.as_slice().is_empty() {
        return Ok(Decision::unchanged(alloc, Reply::Done));
    }
    let operation = Operation::MoveDeleted {
        volume: volume.try_clone(alloc)?,
        bucket: bucket.try_clone(alloc)?,
        from: number,
        to,
    };
    let draft = Draft::new(alloc).apply(alloc, &operation, changes)?;
    Ok(draft.with_reply(Reply::Done))
}

/// Whether the snapshot was deleted, and its rows go to this owner.
fn may_move<M: RowMap>(
    alloc: Global,
    rows: &M,
    volume: &Name,
    bucket: &Name,
    number: u64,
    to: u64,
) -> Result<bool, OutOfMemory>
    ensures { IfOk result (λ may. IsTrue may ↔ MayMove (M.rows rows.now) volume.now bucket.now number to) }
{
    let deleted = is_deleted(alloc, rows, volume, bucket, number)?;
    if !deleted {
        return Ok(false);
    }
    let next = next_owner(alloc, rows, volume, bucket, number)?;
    Ok(next == to)
}

/// Whether the bucket's snapshot of this number was deleted, and is still there. The names may be none.
pub(crate) fn is_deleted<M: RowMap>(
    alloc: Global,
    rows: &M,
    volume: &Name,
    bucket: &Name,
    number: u64,
) -> Result<bool, OutOfMemory>
    ensures { IfOk result (λ it. IsTrue it
        ↔ (IsVolumeName volume.now × IsBucketName bucket.now × IsMarked (M.rows rows.now) volume.now bucket.now number)) }
{
    if !is_path(volume, bucket) {
        return Ok(false);
    }
    let of_snapshot = RowKey::of_snapshot(alloc, volume, bucket, number)?;
    Ok(is_marked(rows.get(&of_snapshot)))
}

/// Whether these may be the names of a volume and a bucket.
fn is_path(volume: &Name, bucket: &Name) -> bool
    ensures { IsTrue result ↔ (IsVolumeName volume.now × IsBucketName bucket.now) }
{
    volume_name(volume.bytes()).is_ok() && bucket_name(bucket.bytes()).is_ok()
}

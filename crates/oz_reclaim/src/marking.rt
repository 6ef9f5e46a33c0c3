//! A snapshot is deleted: its row is marked.

ghost use Rattle.std.specs.Prelude.{◌≡◌, None, IfOk};
ghost use Rattle.oz_decision.specs.Replies.{IsReply};
ghost use Rattle.oz_reclaim.specs.Snapshots.{AreRecorded};
ghost use Rattle.oz_requests.specs.Names.{name_fault};
ghost use Rattle.oz_requests.specs.declared.request.Request.{Request as AnyRequest};

use crate::naming::{number_named, previous_in};
use oz_decision::{Decision, Draft, missing_bucket};
use oz_fields::{Name, OutOfMemory, TryClone};
use oz_names::Code;
use oz_requests::Reply;
use oz_rows::{Row, RowKey, RowMap, SnapshotState};
use std::alloc::Global;

/// Decides that the bucket's live snapshot of this name is deleted. The names were tested.
pub(crate) fn delete_snapshot<M: RowMap>(
    alloc: Global,
    rows: &M,
    volume: &Name,
    bucket: &Name,
    name: &Name,
) -> Result<Decision, OutOfMemory>
    requires { name_fault (AnyRequest.DeleteSnapshot volume.now bucket.now name.now) ≡ None }
    ensures reply { IfOk result (λ decision.
        IsReply (M.rows rows.now) (AnyRequest.DeleteSnapshot volume.now bucket.now name.now) decision.reply) }
    ensures exact { IfOk result (λ decision. AreRecorded (M.rows rows.now)
        (AnyRequest.DeleteSnapshot volume.now bucket.now name.now) decision.reply decision.bytes decision.changes) }
{
    let of_bucket = RowKey::of_bucket(alloc, volume, bucket)?;
    let missing = missing_bucket(alloc, rows, volume, bucket, &of_bucket)?;
    if let Some(code) = missing {
        return Ok(Decision::unchanged(alloc, Reply::Code(code)));
    }
    let found = number_named(alloc, rows, volume, bucket, name)?;
    let Some(number) = found else {
        return Ok(Decision::unchanged(alloc, Reply::Code(Code::SnapshotNotFound)));
    };
    let of_snapshot = RowKey::of_snapshot(alloc, volume, bucket, number)?;
    let previous = previous_in(rows.get(&of_snapshot));
    let row = Row::Snapshot {
        name: name.try_clone(alloc)?,
        previous,
        state: SnapshotState::Marked,
    };
    let draft = Draft::new(alloc).put(alloc, of_snapshot, row)?;
    Ok(draft.with_reply(Reply::Done))
}

//! The rows of a deleted snapshot go.

ghost use Rattle.std.specs.Prelude.{◌≡◌, ◌↔◌, IsTrue, IfOk};
ghost use Rattle.oz_reclaim.specs.Service.{AreDropped, IsWorkedOff, operations_for};
ghost use Rattle.oz_requests.specs.declared.request.Request.{Request as AnyRequest};
ghost use Rattle.oz_rows.specs.Operations.{batch_bytes};

use crate::moving::is_deleted;
use crate::owning::owns_row;
use oz_decision::{Decision, Draft};
use oz_effects::dropped_keys;
use oz_fields::{Name, OutOfMemory, TryClone};
use oz_requests::Reply;
use oz_rows::{Operation, RowKey, RowMap};
use std::alloc::Global;

/// Decides that the bucket's deleted snapshot of this number goes with its keys, where it owns nothing any more.
pub(crate) fn purge_snapshot<M: RowMap>(
    alloc: Global,
    rows: &M,
    volume: &Name,
    bucket: &Name,
    number: u64,
) -> Result<Decision, OutOfMemory>
    ensures reply { IfOk result (λ decision. decision.reply ≡ Reply.Done) }
    ensures dropped { IfOk result (λ decision. AreDropped (M.rows rows.now) volume.now bucket.now number decision.changes) }
    ensures operations { IfOk result (λ decision. decision.bytes
        ≡ batch_bytes (operations_for (AnyRequest.PurgeSnapshot volume.now bucket.now number) decision.changes)) }
{
    let may = is_worked_off(alloc, rows, volume, bucket, number)?;
    if !may {
        return Ok(Decision::unchanged(alloc, Reply::Done));
    }
    let changes = dropped_keys(alloc, rows, volume, bucket, number)?;
    let operation = Operation::DropKeys {
        volume: volume.try_clone(alloc)?,
        bucket: bucket.try_clone(alloc)?,
        number,
    };
    let of_snapshot = RowKey::of_snapshot(alloc, volume, bucket, number)?;
    let keys_dropped = Draft::new(alloc).apply(alloc, &operation, changes)?;
    let draft = keys_dropped.remove(alloc, of_snapshot)?;
    Ok(draft.with_reply(Reply::Done))
}

/// Whether the snapshot was deleted and owns nothing.
fn is_worked_off<M: RowMap>(
    alloc: Global,
    rows: &M,
    volume: &Name,
    bucket: &Name,
    number: u64,
) -> Result<bool, OutOfMemory>
    ensures { IfOk result (λ may. IsTrue may ↔ IsWorkedOff (M.rows rows.now) volume.now bucket.now number) }
{
    if number == 0 {
        return Ok(false);
    }
    let deleted = is_deleted(alloc, rows, volume, bucket, number)?;
    if !deleted {
        return Ok(false);
    }
    let owns = owns_row(alloc, rows, volume, bucket, number)?;
    Ok(!owns)
}

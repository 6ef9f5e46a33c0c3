//! The sessions of a bucket end. The names were tested before.

ghost use Rattle.std.specs.Prelude.{◌≡◌, List as AnyList, None, IfOk};
ghost use Rattle.oz_decision.specs.Replies.{IsReply};
ghost use Rattle.oz_effects.specs.Effects.{operation_changes};
ghost use Rattle.oz_om_session.specs.om_open.Allowed.{MayRecord};
ghost use Rattle.oz_om_session.specs.om_open.Records.{AreRecorded, operations_for};
ghost use Rattle.oz_requests.specs.Names.{name_fault};
ghost use Rattle.oz_rows.specs.declared.entry.RowEntry.{RowEntry as AnyEntry};
ghost use Rattle.oz_rows.specs.declared.operation.Operation.{Operation as AnyOperation};
ghost use Rattle.oz_rows.specs.Operations.{batch_bytes};
ghost use Rattle.oz_rows.specs.RowMaps.{AreRows};

use oz_decision::{Decision, Draft, missing_bucket, session_count};
use oz_effects::closed_sessions;
use oz_fields::{Name, OutOfMemory, TryClone};
use oz_requests::{Reply, Request};
use oz_rows::{Operation, RowKey, RowMap};
use std::alloc::Global;

pub(crate) fn expire_open<M: RowMap>(
    alloc: Global,
    rows: &M,
    volume: &Name,
    bucket: &Name,
) -> Result<Decision, OutOfMemory>
    requires { name_fault (Request.ExpireOpen volume.now bucket.now) ≡ None }
    ensures reply { IfOk result (λ decision. IsReply (M.rows rows.now) (Request.ExpireOpen volume.now bucket.now) decision.reply) }
    ensures allowed { IfOk result (λ decision. MayRecord (M.rows rows.now) (Request.ExpireOpen volume.now bucket.now) decision.reply) }
    ensures changes { IfOk result (λ decision. AreRecorded (M.rows rows.now) (Request.ExpireOpen volume.now bucket.now) decision.reply decision.changes) }
    ensures operations { IfOk result (λ decision. decision.bytes ≡ batch_bytes (operations_for (Request.ExpireOpen volume.now bucket.now) decision.changes)) }
{
    let of_bucket = RowKey::of_bucket(alloc, volume, bucket)?;
    if let Some(code) = missing_bucket(alloc, rows, volume, bucket, &of_bucket)? {
        return Ok(Decision::unchanged(alloc, Reply::Code(code)));
    }
    let count = session_count(alloc, rows, volume, bucket)?;
    let draft = drop_sessions(alloc, rows, volume, bucket)?;
    Ok(draft.with_reply(Reply::Count(count)))
}

/// One operation by which all sessions of a bucket go, none where it has none.
fn drop_sessions<M: RowMap>(
    alloc: Global,
    rows: &M,
    volume: &Name,
    bucket: &Name,
) -> Result<Draft, OutOfMemory>
    requires { name_fault (Request.ExpireOpen volume.now bucket.now) ≡ None }
    ensures bytes { IfOk result (λ draft. draft.bytes ≡ batch_bytes (operations_for (Request.ExpireOpen volume.now bucket.now) draft.changes)) }
    ensures changes { IfOk result (λ draft. (entries : AnyList AnyEntry) → AreRows entries (M.rows rows.now)
        → draft.changes ≡ operation_changes entries (AnyOperation.DropOpen volume.now bucket.now)) }
{
    let changes = closed_sessions(alloc, rows, volume, bucket)?;
    if changes.is_empty() {
        return Ok(Draft::new(alloc));
    }
    let operation = Operation::DropOpen {
        volume: volume.try_clone(alloc)?,
        bucket: bucket.try_clone(alloc)?,
    };
    Draft::new(alloc).apply(alloc, &operation, changes)
}

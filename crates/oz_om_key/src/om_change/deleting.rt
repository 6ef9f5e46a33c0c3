//! A key is deleted.

ghost use Rattle.std.specs.Prelude.{◌≡◌, ◌∷◌, None, IfOk};
ghost use Rattle.oz_decision.specs.Drafts.{row_by_row};
ghost use Rattle.oz_decision.specs.Replies.{IsReply};
ghost use Rattle.oz_decision.specs.Versions.{deleted, version_at};
ghost use Rattle.oz_om_key.specs.om_change.Keys.{MayRecordChange};
ghost use Rattle.oz_om_key.specs.om_change.Records.{AreRecorded};
ghost use Rattle.oz_requests.specs.declared.request.Request.{Request};
ghost use Rattle.oz_requests.specs.Names.{name_fault};
ghost use Rattle.oz_rows.specs.Operations.{batch_bytes};
ghost use Rattle.oz_rows.specs.RowMaps.{gone};
ghost use Rattle.oz_rows.specs.Rows.{AreItems, IsBlock, KeyFits};

use crate::om_change::keys::missing_key;
use oz_decision::{Decision, Draft, put_deleted, version_blocks};
use oz_fields::{Name, OutOfMemory};
use oz_requests::Reply;
use oz_rows::{RowKey, RowMap};
use std::alloc::Global;

/// Decides that a key is deleted: its row goes, and its blocks stand in a deleted row.
pub(crate) fn delete_key<M: RowMap>(
    alloc: Global,
    rows: &M,
    volume: &Name,
    bucket: &Name,
    key: &Name,
) -> Result<Decision, OutOfMemory>
    requires { name_fault (Request.DeleteKey volume.now bucket.now key.now) ≡ None }
    ensures reply { IfOk result (λ decision. IsReply (M.rows rows.now) (Request.DeleteKey volume.now bucket.now key.now) decision.reply) }
    ensures allowed { IfOk result (λ decision. MayRecordChange (M.rows rows.now) (Request.DeleteKey volume.now bucket.now key.now) decision.reply) }
    ensures changes { IfOk result (λ decision.
        AreRecorded (M.rows rows.now) (Request.DeleteKey volume.now bucket.now key.now) decision.reply decision.changes) }
    ensures operations { IfOk result (λ decision. decision.bytes ≡ batch_bytes (row_by_row decision.changes)) }
{
    let of_key = RowKey::of_key(alloc, volume, bucket, key)?;
    if let Some(code) = missing_key(alloc, rows, volume, bucket, key, &of_key)? {
        return Ok(Decision::unchanged(alloc, Reply::Code(code)));
    }
    let draft = delete_row(alloc, rows, volume, bucket, key, of_key)?;
    Ok(draft.with_reply(Reply::Done))
}

/// The key's row goes, and its blocks stand in a deleted row.
fn delete_row<M: RowMap>(
    alloc: Global,
    rows: &M,
    volume: &Name,
    bucket: &Name,
    key: &Name,
    of_key: RowKey,
) -> Result<Draft, OutOfMemory>
    requires key { KeyFits of_key }
    requires named { name_fault (Request.DeleteKey volume.now bucket.now key.now) ≡ None }
    requires blocks { AreItems IsBlock (version_at (M.rows rows.now of_key)) }
    ensures bytes { IfOk result (λ draft. draft.bytes
        ≡ batch_bytes (row_by_row (gone of_key ∷ deleted volume.now bucket.now key.now (version_at (M.rows rows.now of_key))))) }
    ensures changes { IfOk result (λ draft. draft.changes ≡ gone of_key ∷ deleted volume.now bucket.now key.now (version_at (M.rows rows.now of_key))) }
{
    let blocks = version_blocks(alloc, rows, &of_key)?;
    let draft = Draft::new(alloc).remove(alloc, of_key)?;
    put_deleted(alloc, draft, volume, bucket, key, blocks)
}

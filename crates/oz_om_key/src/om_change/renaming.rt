//! A key gets another name.

ghost use Rattle.std.specs.Prelude.{◌≡◌, ◌∷◌, ◌++◌, None, Some, IfOk};
ghost use Rattle.oz_decision.specs.Drafts.{row_by_row};
ghost use Rattle.oz_decision.specs.Replies.{IsReply, ShowsThat};
ghost use Rattle.oz_model.specs.Refusals.{refusal};
ghost use Rattle.oz_model.specs.Scope.{scope_of};
ghost use Rattle.oz_om_key.specs.om_change.Keys.{MayRecordChange, MayRename};
ghost use Rattle.oz_om_key.specs.om_change.Records.{AreRecorded, moved};
ghost use Rattle.oz_requests.specs.declared.request.Request.{Request};
ghost use Rattle.oz_requests.specs.Names.{name_fault};
ghost use Rattle.oz_rows.specs.Operations.{batch_bytes};
ghost use Rattle.oz_rows.specs.declared.row.Row.{Row as AnyRow};
ghost use Rattle.oz_rows.specs.RowMaps.{gone};
ghost use Rattle.oz_rows.specs.Rows.{KeyFits, RowFits};

use crate::om_change::keys::missing_key;
use crate::om_change::noting::note_names;
use crate::om_change::numbers::snapshot_numbers;
use crate::om_change::path::KeyPath;
use oz_decision::{Decision, Draft, has_row};
use oz_fields::{Name, OutOfMemory, TryClone};
use oz_names::Code;
use oz_requests::Reply;
use oz_rows::{Row, RowKey, RowMap};
use std::alloc::Global;

/// Decides that a key gets another name: what stood in its row stands in one of that name. The old name is noted for those of
/// its blocks that a live snapshot has.
pub(crate) fn rename_key<M: RowMap>(
    alloc: Global,
    rows: &M,
    volume: &Name,
    bucket: &Name,
    key: &Name,
    to: &Name,
) -> Result<Decision, OutOfMemory>
    requires { name_fault (Request.RenameKey volume.now bucket.now key.now to.now) ≡ None }
    ensures reply { IfOk result (λ decision. IsReply (M.rows rows.now) (Request.RenameKey volume.now bucket.now key.now to.now) decision.reply) }
    ensures allowed { IfOk result (λ decision. MayRecordChange (M.rows rows.now) (Request.RenameKey volume.now bucket.now key.now to.now) decision.reply) }
    ensures changes { IfOk result (λ decision.
        AreRecorded (M.rows rows.now) (Request.RenameKey volume.now bucket.now key.now to.now) decision.reply decision.changes) }
    ensures operations { IfOk result (λ decision. decision.bytes ≡ batch_bytes (row_by_row decision.changes)) }
{
    let of_key = RowKey::of_key(alloc, volume, bucket, key)?;
    let of_new = RowKey::of_key(alloc, volume, bucket, to)?;
    if let Some(code) = not_renamed(alloc, rows, volume, bucket, key, to, &of_key, &of_new)? {
        return Ok(Decision::unchanged(alloc, Reply::Code(code)));
    }
    let numbers = snapshot_numbers(alloc, rows, volume, bucket)?;
    let row = rows.get(&of_key);
    let moved = move_row(alloc, rows, of_key, of_new)?;
    let of = KeyPath {
        volume,
        bucket,
        key,
    };
    let draft = note_names(alloc, rows, moved, &of, &numbers, row)?;
    Ok(draft.with_reply(Reply::Done))
}

/// Why a key gets no other name, where it doesn't. The rows of both names are named.
fn not_renamed<M: RowMap>(
    alloc: Global,
    rows: &M,
    volume: &Name,
    bucket: &Name,
    key: &Name,
    to: &Name,
    of_key: &RowKey,
    of_new: &RowKey,
) -> Result<Option<Code>, OutOfMemory>
    requires named { name_fault (Request.RenameKey volume.now bucket.now key.now to.now) ≡ None }
    requires key { of_key.now ≡ RowKey.Key volume.now bucket.now key.now }
    requires new { of_new.now ≡ RowKey.Key volume.now bucket.now to.now }
    ensures code { IfOk result (λ code. ShowsThat (M.rows rows.now)
        (λ namespace. code ≡ refusal (scope_of namespace volume.now) (Request.RenameKey volume.now bucket.now key.now to.now))) }
    ensures none { IfOk result (λ code. code ≡ None → MayRename (M.rows rows.now) volume.now bucket.now key.now to.now) }
{
    if let Some(code) = missing_key(alloc, rows, volume, bucket, key, of_key)? {
        return Ok(Some(code));
    }
    if has_row(rows, of_new) {
        return Ok(Some(Code::KeyAlreadyExists));
    }
    Ok(None)
}

/// One row goes, and what stood in it stands in that of another key.
fn move_row<M: RowMap>(
    alloc: Global,
    rows: &M,
    from: RowKey,
    to: RowKey,
) -> Result<Draft, OutOfMemory>
    requires from { KeyFits from }
    requires to { (row : AnyRow) → M.rows rows.now from ≡ Some row → RowFits to row }
    ensures bytes { IfOk result (λ draft. draft.bytes ≡ batch_bytes (row_by_row (gone from ∷ moved to (M.rows rows.now from)))) }
    ensures changes { IfOk result (λ draft. draft.changes ≡ gone from ∷ moved to (M.rows rows.now from)) }
{
    let row = copied_row(alloc, rows, &from)?;
    let draft = Draft::new(alloc).remove(alloc, from)?;
    put_moved(alloc, draft, to, row)
}

fn copied_row<M: RowMap>(alloc: Global, rows: &M, key: &RowKey) -> Result<Option<Row>, OutOfMemory>
    ensures { IfOk result (λ row. row ≡ M.rows rows.now key.now) }
{
    match rows.get(key) {
        Some(row) => Ok(Some(row.try_clone(alloc)?)),
        None => Ok(None),
    }
}

/// What stood in a row, if there was one, stands in that of this key.
fn put_moved(
    alloc: Global,
    draft: Draft,
    to: RowKey,
    row: Option<Row>,
) -> Result<Draft, OutOfMemory>
    requires { (stood : AnyRow) → row ≡ Some stood → RowFits to stood }
    ensures bytes { IfOk result (λ more. more.bytes ≡ draft.bytes ++ batch_bytes (row_by_row (moved to row))) }
    ensures changes { IfOk result (λ more. more.changes ≡ draft.changes ++ moved to row) }
{
    match row {
        Some(row) => draft.put(alloc, to, row),
        None => Ok(draft),
    }
}

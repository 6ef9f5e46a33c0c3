//! The snapshots of a bucket are listed.

ghost use Rattle.std.specs.Prelude.{◌≡◌, ◌++◌, None, IfOk, OnOk, option_copied};
ghost use Rattle.oz_decision.specs.Replies.{IsReply};
ghost use Rattle.oz_reclaim.specs.Numbered.{AreListed, name_in};
ghost use Rattle.oz_requests.specs.Names.{name_fault};
ghost use Rattle.oz_requests.specs.declared.request.Request.{Request as AnyRequest};

use crate::owning::next_owner;
use oz_decision::missing_bucket;
use oz_fields::{List, Name, OutOfMemory, TryClone};
use oz_requests::Reply;
use oz_rows::{Row, RowKey, RowMap, SnapshotState};
use std::alloc::Global;

/// The names of the bucket's live snapshots. The names of the volume and the bucket were tested.
pub(crate) fn list_snapshots<M: RowMap>(
    alloc: Global,
    rows: &M,
    volume: &Name,
    bucket: &Name,
) -> Result<Reply, OutOfMemory>
    requires { name_fault (AnyRequest.ListSnapshots volume.now bucket.now) ≡ None }
    ensures { IfOk result (IsReply (M.rows rows.now) (AnyRequest.ListSnapshots volume.now bucket.now)) }
{
    let of_bucket = RowKey::of_bucket(alloc, volume, bucket)?;
    let missing = missing_bucket(alloc, rows, volume, bucket, &of_bucket)?;
    if let Some(code) = missing {
        return Ok(Reply::Code(code));
    }
    let names = snapshot_names(alloc, rows, volume, bucket)?;
    Ok(Reply::Names(List::of(names)))
}

fn snapshot_names<M: RowMap>(
    alloc: Global,
    rows: &M,
    volume: &Name,
    bucket: &Name,
) -> Result<Vec<Name>, OutOfMemory>
    ensures { IfOk result (λ names. AreListed (M.rows rows.now) volume.now bucket.now names.items) }
{
    let mut names = Vec::new(alloc);
    let mut last = 0;
    for _ in 0..u64::MAX {
        let number = next_owner(alloc, rows, volume, bucket, last)?;
        if number == 0 {
            return Ok(names);
        }
        let of_snapshot = RowKey::of_snapshot(alloc, volume, bucket, number)?;
        add_name(alloc, rows.get(&of_snapshot), &mut names)?;
        last = number;
    }
    Err(OutOfMemory)
}

/// Adds the name where the row is that of a live snapshot.
fn add_name(alloc: Global, row: Option<&Row>, names: &mut Vec<Name>) -> Result<(), OutOfMemory>
    ensures { OnOk result (names.new.items ≡ names.old.items ++ name_in (option_copied row.entry)) }
{
    if let Some(Row::Snapshot { name, state, .. }) = row
        && *state == SnapshotState::Live
    {
        names.push(name.try_clone(alloc)?)?;
    }
    Ok(())
}

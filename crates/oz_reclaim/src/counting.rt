//! The keys of a snapshot are counted.

ghost use Rattle.std.specs.Prelude.{◌≡◌, ◌<◌, ◌^◌, None, IfOk};
ghost use Rattle.oz_decision.specs.Replies.{IsReply};
ghost use Rattle.oz_reclaim.specs.Numbered.{IsKeyCount};
ghost use Rattle.oz_requests.specs.Names.{name_fault};
ghost use Rattle.oz_requests.specs.declared.request.Request.{Request as AnyRequest};

use crate::naming::number_named;
use oz_decision::missing_bucket;
use oz_fields::{Name, OutOfMemory};
use oz_names::Code;
use oz_requests::Reply;
use oz_rows::{RowKey, RowMap};
use std::alloc::Global;

/// How many keys the bucket's live snapshot of a name has. The names were tested.
pub(crate) fn info_snapshot<M: RowMap>(
    alloc: Global,
    rows: &M,
    volume: &Name,
    bucket: &Name,
    name: &Name,
) -> Result<Reply, OutOfMemory>
    requires { name_fault (AnyRequest.InfoSnapshot volume.now bucket.now name.now) ≡ None }
    ensures { IfOk result (IsReply (M.rows rows.now) (AnyRequest.InfoSnapshot volume.now bucket.now name.now)) }
{
    let of_bucket = RowKey::of_bucket(alloc, volume, bucket)?;
    let missing = missing_bucket(alloc, rows, volume, bucket, &of_bucket)?;
    if let Some(code) = missing {
        return Ok(Reply::Code(code));
    }
    let found = number_named(alloc, rows, volume, bucket, name)?;
    let Some(number) = found else {
        return Ok(Reply::Code(Code::SnapshotNotFound));
    };
    let count = key_count(alloc, rows, volume, bucket, number)?;
    Ok(Reply::Count(count))
}

/// How many keys the bucket's snapshot of this number has, where the number isn't the last of all.
fn key_count<M: RowMap>(
    alloc: Global,
    rows: &M,
    volume: &Name,
    bucket: &Name,
    number: u64,
) -> Result<u32, OutOfMemory>
    ensures { IfOk result (IsKeyCount (M.rows rows.now) volume.now bucket.now number) }
{
    if number == u64::MAX {
        return Ok(0);
    }
    let none = Name::copy(alloc, b"")?;
    let from = RowKey::of_snapshot_key(alloc, volume, bucket, number, &none)?;
    let to = RowKey::of_snapshot_key(alloc, volume, bucket, number + 1, &none)?;
    Ok(in_u32(rows.count(&from, &to)))
}

fn in_u32(count: usize) -> u32
    ensures { count < 2 ^ 32 → result ≡ count }
{
    u32::try_from(count).unwrap_or(u32::MAX)
}

//! The requests that look at keys. Their names were tested before.

ghost use Rattle.std.specs.Prelude.{◌≡◌, None, IfOk, option_copied};
ghost use Rattle.oz_decision.specs.Replies.{IsReply};
ghost use Rattle.oz_om_key.specs.Places.{place_of};
ghost use Rattle.oz_requests.specs.Names.{name_fault};
ghost use Rattle.oz_sound.specs.StandsFor.{pieces_in};

use crate::asking::{asked_source, missing_code};
use crate::listing::listed_names;
use crate::place::Place;
use oz_fields::{List, Name, OutOfMemory, Piece, TryClone};
use oz_names::Code;
use oz_requests::{Reply, Request};
use oz_rows::{Row, RowKey, RowMap};
use std::alloc::Global;

/// The pieces of a key, of the bucket itself or of its snapshot of a name.
pub(crate) fn lookup_key<M: RowMap>(
    alloc: Global,
    rows: &M,
    volume: &Name,
    bucket: &Name,
    snapshot: &Option<Name>,
    key: &Name,
) -> Result<Reply, OutOfMemory>
    requires { name_fault (Request.LookupKey volume.now bucket.now snapshot.now key.now) ≡ None }
    ensures { IfOk result (λ reply. IsReply (M.rows rows.now) (Request.LookupKey volume.now bucket.now snapshot.now key.now) reply) }
{
    if let Some(code) = missing_code(alloc, rows, volume, bucket)? {
        return Ok(Reply::Code(code));
    }
    let Some(source) = asked_source(alloc, rows, volume, bucket, snapshot)? else {
        return Ok(Reply::Code(Code::SnapshotNotFound));
    };
    let place = Place {
        volume,
        bucket,
        source,
    };
    let Some(pieces) = pieces_copied(alloc, rows, &place, key)? else {
        return Ok(Reply::Code(Code::KeyNotFound));
    };
    Ok(Reply::Pieces(pieces))
}

/// The pieces of a key, where its row is there.
fn pieces_copied<M: RowMap>(
    alloc: Global,
    rows: &M,
    place: &Place<'_>,
    key: &Name,
) -> Result<Option<List<Piece>>, OutOfMemory>
    ensures { IfOk result (λ found. found ≡ pieces_in (M.rows rows.now (place_of place.now.volume.now place.now.bucket.now place.now.source key.now))) }
{
    let of_key = place.row_key(alloc, key)?;
    match pieces_at(rows, &of_key) {
        Some(pieces) => Ok(Some(pieces.try_clone(alloc)?)),
        None => Ok(None),
    }
}

/// The pieces that stand in the row of a key, or in that of a snapshot's key.
fn pieces_at<'r, M: RowMap>(rows: &'r M, key: &RowKey) -> Option<&'r List<Piece>>
    ensures { option_copied result ≡ pieces_in (M.rows rows.now key.now) }
{
    match rows.get(key) {
        Some(Row::Key { pieces, .. } | Row::SnapshotKey { pieces, .. }) => Some(pieces),
        _ => None,
    }
}

/// The names of keys, of the bucket itself or of its snapshot of a name.
pub(crate) fn list_keys<M: RowMap>(
    alloc: Global,
    rows: &M,
    volume: &Name,
    bucket: &Name,
    snapshot: &Option<Name>,
    prefix: &Name,
    start: &Name,
    count: u16,
) -> Result<Reply, OutOfMemory>
    requires { name_fault (Request.ListKeys volume.now bucket.now snapshot.now prefix.now start.now count) ≡ None }
    ensures { IfOk result (λ reply. IsReply (M.rows rows.now) (Request.ListKeys volume.now bucket.now snapshot.now prefix.now start.now count) reply) }
{
    if let Some(code) = missing_code(alloc, rows, volume, bucket)? {
        return Ok(Reply::Code(code));
    }
    let Some(source) = asked_source(alloc, rows, volume, bucket, snapshot)? else {
        return Ok(Reply::Code(Code::SnapshotNotFound));
    };
    let place = Place {
        volume,
        bucket,
        source,
    };
    let names = listed_names(alloc, rows, &place, prefix, start, count)?;
    Ok(Reply::Names(names))
}

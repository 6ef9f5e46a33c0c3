//! The decision on a request of the manager's own.

ghost use Rattle.std.specs.Prelude.{◌≡◌, ◌↔◌, None, IsTrue, IfOk};
ghost use Rattle.oz_cache.specs.Cache.{newest};
ghost use Rattle.oz_decision.specs.Replies.{IsReply};
ghost use Rattle.oz_reclaim.specs.Decisions.{IsServed};
ghost use Rattle.oz_reclaim.specs.Service.{AreServed, AreUnreached, IsPurge, NamesFew, operations_for};
ghost use Rattle.oz_reclaim.specs.Snapshots.{AreRecorded, IsOnSnapshots, IsSnapshotDecision};
ghost use Rattle.oz_requests.specs.declared.request.Family.TheVariants.{Service};
ghost use Rattle.oz_requests.specs.Families.{family_of};
ghost use Rattle.oz_requests.specs.Names.{name_fault};
ghost use Rattle.oz_rows.specs.Operations.{batch_bytes};

use crate::counting::info_snapshot;
use crate::dropping::purge_snapshot;
use crate::knowing::none_reached;
use crate::listing::list_snapshots;
use crate::making::create_snapshot;
use crate::marking::delete_snapshot;
use crate::moving::move_deleted;
use crate::purging::purge;
use oz_cache::Cached;
use oz_decision::Decision;
use oz_fields::OutOfMemory;
use oz_requests::{Reply, Request};
use oz_rows::RowMap;
use std::alloc::Global;

/// Decides a request of the manager's own over the newest rows. It changes nothing. A Purge goes through all keys of the
/// rows; `decide_purge` needn't.
pub fn decide(alloc: Global, cached: &Cached, request: &Request) -> Result<Decision, OutOfMemory>
    requires service { family_of request.now ≡ Service }
    requires few { NamesFew request.now }
    ensures { IfOk result (IsServed (newest cached.now) request.now) }
{
    cached.durable().rows_are_in_order();
    let decision = serve(alloc, cached, request, &[])?;
    Ok(decision)
}

/// Decides a Purge, where it is known of rows with these local ids that none of their blocks is in reach. It goes through
/// the keys of the rows only where it names others besides.
pub fn decide_purge(
    alloc: Global,
    cached: &Cached,
    request: &Request,
    known: &[u64],
) -> Result<Decision, OutOfMemory>
    requires purge { IsPurge request.now }
    requires few { NamesFew request.now }
    requires known { AreUnreached (newest cached.now) known.now }
    ensures { IfOk result (IsServed (newest cached.now) request.now) }
{
    cached.durable().rows_are_in_order();
    let decision = serve(alloc, cached, request, known)?;
    Ok(decision)
}

/// Whether no deleted row with one of these local ids has a block in reach. It goes through all keys and all deleted rows.
pub fn are_unreached(alloc: Global, cached: &Cached, known: &[u64]) -> Result<bool, OutOfMemory>
    ensures { IfOk result (λ are. IsTrue are ↔ AreUnreached (newest cached.now) known.now) }
{
    let are = none_reached(alloc, cached, known)?;
    Ok(are)
}

/// Decides a request on snapshots over the newest rows. It changes nothing.
pub fn decide_snapshot(
    alloc: Global,
    cached: &Cached,
    request: &Request,
) -> Result<Decision, OutOfMemory>
    requires { IsOnSnapshots request.now }
    ensures { IfOk result (IsSnapshotDecision (newest cached.now) request.now) }
{
    if let Some(code) = request.name_fault() {
        return Ok(Decision::unchanged(alloc, Reply::Code(code)));
    }
    cached.durable().rows_are_in_order();
    let decision = decide_named(alloc, cached, request)?;
    Ok(decision)
}

/// Decides a request of the manager's own. Of rows with the known local ids no block is in reach.
fn serve<M: RowMap>(
    alloc: Global,
    rows: &M,
    request: &Request,
    known: &[u64],
) -> Result<Decision, OutOfMemory>
    requires service { family_of request.now ≡ Service }
    requires known { AreUnreached (M.rows rows.now) known.now }
    ensures done { IfOk result (λ decision. decision.reply ≡ Reply.Done) }
    ensures exact { IfOk result (λ decision. AreServed (M.rows rows.now) request.now decision.changes) }
    ensures operations { IfOk result (λ decision.
        decision.bytes ≡ batch_bytes (operations_for request.now decision.changes)) }
{
    match request {
        Request::Purge {
            volume,
            rows: named,
        } => purge(alloc, rows, volume, named.items(), known),
        Request::MoveDeleted {
            volume,
            bucket,
            number,
            to,
        } => move_deleted(alloc, rows, volume, bucket, *number, *to),
        Request::PurgeSnapshot {
            volume,
            bucket,
            number,
        } => purge_snapshot(alloc, rows, volume, bucket, *number),
        _ => unreachable!(),
    }
}

/// Decides a request on snapshots whose names were tested.
fn decide_named<M: RowMap>(
    alloc: Global,
    rows: &M,
    request: &Request,
) -> Result<Decision, OutOfMemory>
    requires asked { IsOnSnapshots request.now }
    requires named { name_fault request.now ≡ None }
    ensures reply { IfOk result (λ decision. IsReply (M.rows rows.now) request.now decision.reply) }
    ensures exact { IfOk result (λ decision.
        AreRecorded (M.rows rows.now) request.now decision.reply decision.bytes decision.changes) }
{
    match request {
        Request::CreateSnapshot {
            volume,
            bucket,
            snapshot,
        } => create_snapshot(alloc, rows, volume, bucket, snapshot),
        Request::DeleteSnapshot {
            volume,
            bucket,
            snapshot,
        } => delete_snapshot(alloc, rows, volume, bucket, snapshot),
        Request::ListSnapshots { volume, bucket } => {
            let reply = list_snapshots(alloc, rows, volume, bucket)?;
            Ok(Decision::unchanged(alloc, reply))
        }
        Request::InfoSnapshot {
            volume,
            bucket,
            snapshot,
        } => {
            let reply = info_snapshot(alloc, rows, volume, bucket, snapshot)?;
            Ok(Decision::unchanged(alloc, reply))
        }
        _ => unreachable!(),
    }
}

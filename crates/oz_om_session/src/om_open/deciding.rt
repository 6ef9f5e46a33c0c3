//! The decision on a request.

ghost use Rattle.std.specs.Prelude.{◌≡◌, ◌≤◌, ◌*◌, ◌↔◌, [], None, length, IfOk};
ghost use Rattle.oz_cache.specs.Cache.{newest};
ghost use Rattle.oz_decision.specs.Meets.{AreInGrammar, IsSafe, Stand, Meets};
ghost use Rattle.oz_decision.specs.Replies.{IsReply};
ghost use Rattle.oz_namespace.specs.declared.namespace.Namespace.{Namespace as AnyNamespace};
ghost use Rattle.oz_om_session.specs.om_open.Allowed.{MayRecord};
ghost use Rattle.oz_om_session.specs.om_open.Opens.{IsOpening};
ghost use Rattle.oz_om_session.specs.om_open.Records.{AreRecorded, operations_for};
ghost use Rattle.oz_requests.specs.Names.{name_fault};
ghost use Rattle.oz_rows.specs.declared.operation.TheConstants.{LONGEST_OPERATION};
ghost use Rattle.oz_rows.specs.Operations.{batch_bytes};
ghost use Rattle.oz_sound.specs.Sound.{IsSound, IsSoundButRenames};

use crate::om_open::creating::create_key;
use crate::om_open::expiring::expire_open;
use oz_cache::Cached;
use oz_decision::Decision;
use oz_fields::OutOfMemory;
use oz_requests::{Reply, Request};
use oz_rows::RowMap;
use std::alloc::Global;

/// Decides a request that opens a session, or that ends all of a bucket, over the newest rows: at most two operations.
/// It changes nothing.
pub fn decide_open(
    alloc: Global,
    cached: &Cached,
    request: &Request,
) -> Result<Decision, OutOfMemory>
    requires { IsOpening request.now }
    ensures meets { IfOk result (λ decision. (namespace : AnyNamespace) →
        Stand IsSound (newest cached.now) namespace →
        Meets IsSound (newest cached.now) namespace request.now decision.reply decision.bytes decision.changes) }
    // Nor does it need what renamed rows say.
    ensures but_renames { IfOk result (λ decision. (namespace : AnyNamespace) →
        Stand IsSoundButRenames (newest cached.now) namespace →
        Meets IsSoundButRenames (newest cached.now) namespace request.now
        decision.reply decision.bytes decision.changes) }
    // Rows that stand for no namespace stay such that a journal may hold them.
    ensures safe { IfOk result (λ decision.
        AreInGrammar (newest cached.now) → IsSafe (newest cached.now) decision.bytes decision.changes) }
    // Of the rows that no namespace shows, the deleted rows of blocks come whose sessions end, and no other changes.
    ensures exact { IfOk result (λ decision.
        AreRecorded (newest cached.now) request.now decision.reply decision.changes) }
    ensures operations { IfOk result (λ decision.
        decision.bytes ≡ batch_bytes (operations_for request.now decision.changes)) }
    ensures recorded { IfOk result (λ decision. (decision.bytes ≡ []) ↔ (decision.changes ≡ [])) }
    ensures size { IfOk result (λ decision. length decision.bytes ≤ 2 * LONGEST_OPERATION) }
{
    if let Some(code) = request.name_fault() {
        return Ok(Decision::unchanged(alloc, Reply::Code(code)));
    }
    cached.durable().rows_are_in_order();
    open_named(alloc, cached, request)
}

/// Decides a request whose names were tested.
fn open_named<M: RowMap>(
    alloc: Global,
    rows: &M,
    request: &Request,
) -> Result<Decision, OutOfMemory>
    requires opening { IsOpening request.now }
    requires named { name_fault request.now ≡ None }
    ensures reply { IfOk result (λ decision. IsReply (M.rows rows.now) request.now decision.reply) }
    ensures allowed { IfOk result (λ decision. MayRecord (M.rows rows.now) request.now decision.reply) }
    ensures changes { IfOk result (λ decision. AreRecorded (M.rows rows.now) request.now decision.reply decision.changes) }
    ensures operations { IfOk result (λ decision. decision.bytes ≡ batch_bytes (operations_for request.now decision.changes)) }
{
    match request {
        Request::CreateKey {
            volume,
            bucket,
            key,
        } => create_key(alloc, rows, volume, bucket, key),
        Request::ExpireOpen { volume, bucket } => expire_open(alloc, rows, volume, bucket),
        _ => unreachable!(),
    }
}

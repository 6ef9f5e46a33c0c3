//! The decision on a request that changes a key.

ghost use Rattle.std.specs.Prelude.{◌≡◌, ◌≤◌, ◌*◌, ◌↔◌, [], None, length, IfOk};
ghost use Rattle.oz_cache.specs.Cache.{newest};
ghost use Rattle.oz_decision.specs.Drafts.{row_by_row};
ghost use Rattle.oz_decision.specs.Meets.{AreInGrammar, IsSafe, Stand, Meets};
ghost use Rattle.oz_decision.specs.Replies.{IsReply};
ghost use Rattle.oz_namespace.specs.declared.namespace.Namespace.{Namespace as AnyNamespace};
ghost use Rattle.oz_om_key.specs.om_change.Changes.{IsChange};
ghost use Rattle.oz_om_key.specs.om_change.Keys.{MayRecordChange};
ghost use Rattle.oz_om_key.specs.om_change.Records.{AreRecorded};
ghost use Rattle.oz_requests.specs.Names.{name_fault};
ghost use Rattle.oz_rows.specs.declared.operation.TheConstants.{LONGEST_OPERATION};
ghost use Rattle.oz_rows.specs.Operations.{batch_bytes};
ghost use Rattle.oz_sound.specs.Sound.{IsSound, IsSoundButRenames};

use crate::om_change::deleting::delete_key;
use crate::om_change::renaming::rename_key;
use oz_cache::Cached;
use oz_decision::Decision;
use oz_fields::OutOfMemory;
use oz_requests::{Reply, Request};
use oz_rows::RowMap;
use std::alloc::Global;

/// Decides over the newest rows that a key is deleted, or gets another name. It changes nothing. A deletion has at most two
/// operations. Another name has two, and behind them one more for each block of the key whose old name a snapshot needs: a block
/// that a live snapshot of the bucket has, and of which the bucket itself has no renamed row yet.
pub fn decide_change(
    alloc: Global,
    cached: &Cached,
    request: &Request,
) -> Result<Decision, OutOfMemory>
    requires { IsChange request.now }
    ensures meets { IfOk result (λ decision. (namespace : AnyNamespace) →
        Stand IsSound (newest cached.now) namespace →
        Meets IsSound (newest cached.now) namespace request.now decision.reply decision.bytes decision.changes) }
    // All else that makes rows sound needs nothing of what renamed rows say.
    ensures but_renames { IfOk result (λ decision. (namespace : AnyNamespace) →
        Stand IsSoundButRenames (newest cached.now) namespace →
        Meets IsSoundButRenames (newest cached.now) namespace request.now
        decision.reply decision.bytes decision.changes) }
    // Rows that stand for no namespace stay such that a journal may hold them.
    ensures safe { IfOk result (λ decision.
        AreInGrammar (newest cached.now) → IsSafe (newest cached.now) decision.bytes decision.changes) }
    // Of the rows that no namespace shows, the deleted row of a deleted key comes, and the renamed rows that are wanted of one
    // with another name. No other changes.
    ensures exact { IfOk result (λ decision. AreRecorded (newest cached.now) request.now decision.reply decision.changes) }
    ensures operations { IfOk result (λ decision. decision.bytes ≡ batch_bytes (row_by_row decision.changes)) }
    ensures recorded { IfOk result (λ decision. (decision.bytes ≡ []) ↔ (decision.changes ≡ [])) }
    ensures size { IfOk result (λ decision. length decision.bytes ≤ 258 * LONGEST_OPERATION) }
{
    if let Some(code) = request.name_fault() {
        return Ok(Decision::unchanged(alloc, Reply::Code(code)));
    }
    change_named(alloc, cached, request)
}

/// Decides a request whose names were tested.
fn change_named<M: RowMap>(
    alloc: Global,
    rows: &M,
    request: &Request,
) -> Result<Decision, OutOfMemory>
    requires change { IsChange request.now }
    requires named { name_fault request.now ≡ None }
    ensures reply { IfOk result (λ decision. IsReply (M.rows rows.now) request.now decision.reply) }
    ensures allowed { IfOk result (λ decision. MayRecordChange (M.rows rows.now) request.now decision.reply) }
    ensures changes { IfOk result (λ decision. AreRecorded (M.rows rows.now) request.now decision.reply decision.changes) }
    ensures operations { IfOk result (λ decision. decision.bytes ≡ batch_bytes (row_by_row decision.changes)) }
{
    match request {
        Request::DeleteKey {
            volume,
            bucket,
            key,
        } => delete_key(alloc, rows, volume, bucket, key),
        Request::RenameKey {
            volume,
            bucket,
            key,
            to,
        } => rename_key(alloc, rows, volume, bucket, key, to),
        _ => unreachable!(),
    }
}

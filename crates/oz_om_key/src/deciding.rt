//! The decision on a request.

ghost use Rattle.std.specs.Prelude.{◌≡◌, ◌≤◌, ◌↔◌, [], true, None, length, IfOk};
ghost use Rattle.oz_cache.specs.Cache.{newest};
ghost use Rattle.oz_decision.specs.Drafts.{row_by_row};
ghost use Rattle.oz_decision.specs.Meets.{AreInGrammar, IsSafe, Stand, Meets};
ghost use Rattle.oz_decision.specs.Replies.{IsReply};
ghost use Rattle.oz_namespace.specs.declared.namespace.Namespace.{Namespace as AnyNamespace};
ghost use Rattle.oz_om_key.specs.Requests.{is_on_keys};
ghost use Rattle.oz_requests.specs.Names.{name_fault};
ghost use Rattle.oz_rows.specs.declared.operation.TheConstants.{LONGEST_OPERATION};
ghost use Rattle.oz_rows.specs.Operations.{batch_bytes};
ghost use Rattle.oz_sound.specs.Sound.{IsSound, IsSoundButRenames};

use crate::reading::{list_keys, lookup_key};
use oz_cache::Cached;
use oz_decision::Decision;
use oz_fields::OutOfMemory;
use oz_requests::{Reply, Request};
use oz_rows::RowMap;
use std::alloc::Global;

/// Decides a request on keys over the newest rows. It changes nothing.
pub fn decide(alloc: Global, cached: &Cached, request: &Request) -> Result<Decision, OutOfMemory>
    requires { is_on_keys request.now ≡ true }
    ensures meets { IfOk result (λ decision. (namespace : AnyNamespace) →
        Stand IsSound (newest cached.now) namespace →
        Meets IsSound (newest cached.now) namespace request.now decision.reply decision.bytes decision.changes) }
    // Nor does it need what renamed rows say.
    ensures but_renames { IfOk result (λ decision. (namespace : AnyNamespace) →
        Stand IsSoundButRenames (newest cached.now) namespace →
        Meets IsSoundButRenames (newest cached.now) namespace request.now
        decision.reply decision.bytes decision.changes) }
    // Rows that stand for no namespace stay such that a journal may hold them.
    ensures safe { IfOk result (λ decision.
        AreInGrammar (newest cached.now) → IsSafe (newest cached.now) decision.bytes decision.changes) }
    // Of the rows that no namespace shows, none changes either.
    ensures exact { IfOk result (λ decision. decision.changes ≡ []) }
    ensures operations { IfOk result (λ decision. decision.bytes ≡ batch_bytes (row_by_row decision.changes)) }
    ensures recorded { IfOk result (λ decision. (decision.bytes ≡ []) ↔ (decision.changes ≡ [])) }
    ensures size { IfOk result (λ decision. length decision.bytes ≤ LONGEST_OPERATION) }
{
    if let Some(code) = request.name_fault() {
        return Ok(Decision::unchanged(alloc, Reply::Code(code)));
    }
    decide_named(alloc, cached, request)
}

/// Decides a request whose names were tested.
fn decide_named<M: RowMap>(
    alloc: Global,
    rows: &M,
    request: &Request,
) -> Result<Decision, OutOfMemory>
    requires on_keys { is_on_keys request.now ≡ true }
    requires named { name_fault request.now ≡ None }
    ensures reply { IfOk result (λ decision. IsReply (M.rows rows.now) request.now decision.reply) }
    ensures changes { IfOk result (λ decision. decision.changes ≡ []) }
    ensures bytes { IfOk result (λ decision. decision.bytes ≡ []) }
{
    match request {
        Request::LookupKey {
            volume,
            bucket,
            snapshot,
            key,
        } => {
            let reply = lookup_key(alloc, rows, volume, bucket, snapshot, key)?;
            Ok(Decision::unchanged(alloc, reply))
        }
        Request::ListKeys {
            volume,
            bucket,
            snapshot,
            prefix,
            start,
            count,
        } => {
            let reply = list_keys(alloc, rows, volume, bucket, snapshot, prefix, start, *count)?;
            Ok(Decision::unchanged(alloc, reply))
        }
        _ => unreachable!(),
    }
}

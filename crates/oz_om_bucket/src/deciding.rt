//! The decision on a request.

ghost use Rattle.std.specs.Prelude.{◌≡◌, ◌≤◌, ◌↔◌, [], None, length, IfOk};
ghost use Rattle.oz_cache.specs.Cache.{newest};
ghost use Rattle.oz_decision.specs.Drafts.{row_by_row};
ghost use Rattle.oz_decision.specs.Meets.{AreInGrammar, IsSafe, Stand, Meets};
ghost use Rattle.oz_decision.specs.Replies.{IsReply};
ghost use Rattle.oz_namespace.specs.declared.namespace.Namespace.{Namespace as AnyNamespace};
ghost use Rattle.oz_om_bucket.specs.Records.{recorded_changes};
ghost use Rattle.oz_om_bucket.specs.Allowed.{MayRecord};
ghost use Rattle.oz_requests.specs.Families.{family_of};
ghost use Rattle.oz_requests.specs.Names.{name_fault};
ghost use Rattle.oz_rows.specs.declared.operation.TheConstants.{LONGEST_OPERATION};
ghost use Rattle.oz_rows.specs.Operations.{batch_bytes};
ghost use Rattle.oz_sound.specs.Sound.{IsSound, IsSoundButRenames};

use crate::buckets::{create_bucket, delete_bucket, info_bucket};
use crate::volumes::{create_volume, delete_volume, info_volume, list_buckets};
use oz_cache::Cached;
use oz_decision::Decision;
use oz_fields::OutOfMemory;
use oz_requests::{Family, Reply, Request};
use oz_rows::RowMap;
use std::alloc::Global;

/// Decides a request on volumes and buckets over the newest rows. It changes nothing.
pub fn decide(alloc: Global, cached: &Cached, request: &Request) -> Result<Decision, OutOfMemory>
    requires { family_of request.now ≡ Family.Buckets }
    ensures meets { IfOk result (λ decision. (namespace : AnyNamespace) →
        Stand IsSound (newest cached.now) namespace →
        Meets IsSound (newest cached.now) namespace request.now decision.reply decision.bytes decision.changes) }
    // Nor does it need what renamed rows say.
    ensures but_renames { IfOk result (λ decision. (namespace : AnyNamespace) →
        Stand IsSoundButRenames (newest cached.now) namespace →
        Meets IsSoundButRenames (newest cached.now) namespace request.now
        decision.reply decision.bytes decision.changes) }
    // Rows that stand for no namespace stay such that a journal may hold them.
    ensures safe { IfOk result (λ decision.
        AreInGrammar (newest cached.now) → IsSafe (newest cached.now) decision.bytes decision.changes) }
    // Of the rows that no namespace shows, none changes.
    ensures exact { IfOk result (λ decision. decision.changes ≡ recorded_changes request.now decision.reply) }
    ensures operations { IfOk result (λ decision. decision.bytes ≡ batch_bytes (row_by_row decision.changes)) }
    ensures recorded { IfOk result (λ decision. (decision.bytes ≡ []) ↔ (decision.changes ≡ [])) }
    ensures size { IfOk result (λ decision. length decision.bytes ≤ LONGEST_OPERATION) }
{
    if let Some(code) = request.name_fault() {
        return Ok(Decision::unchanged(alloc, Reply::Code(code)));
    }
    decide_named(alloc, cached, request)
}

/// Decides a request whose names were tested.
fn decide_named<M: RowMap>(
    alloc: Global,
    rows: &M,
    request: &Request,
) -> Result<Decision, OutOfMemory>
    requires family { family_of request.now ≡ Family.Buckets }
    requires named { name_fault request.now ≡ None }
    ensures reply { IfOk result (λ decision. IsReply (M.rows rows.now) request.now decision.reply) }
    ensures allowed { IfOk result (λ decision. MayRecord (M.rows rows.now) request.now decision.reply) }
    ensures changes { IfOk result (λ decision. decision.changes ≡ recorded_changes request.now decision.reply) }
    ensures operations { IfOk result (λ decision. decision.bytes ≡ batch_bytes (row_by_row decision.changes)) }
{
    match request {
        Request::CreateVolume { volume } => create_volume(alloc, rows, volume),
        Request::InfoVolume { volume } => info_volume(alloc, rows, volume),
        Request::DeleteVolume { volume } => delete_volume(alloc, rows, volume),
        Request::CreateBucket { volume, bucket } => create_bucket(alloc, rows, volume, bucket),
        Request::InfoBucket { volume, bucket } => info_bucket(alloc, rows, volume, bucket),
        Request::DeleteBucket { volume, bucket } => delete_bucket(alloc, rows, volume, bucket),
        Request::ListBuckets { volume } => list_buckets(alloc, rows, volume),
        _ => unreachable!(),
    }
}

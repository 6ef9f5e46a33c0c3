//! The decision on any request.

ghost use Rattle.std.specs.Prelude.{◌≡◌, ◌↔◌, ℕ, Option as Perhaps, true, false, IfOk};
ghost use Rattle.oz_cache.specs.Cache.{newest};
ghost use Rattle.oz_om.specs.decider.Decided.{is_decided};
ghost use Rattle.oz_om.specs.decider.Deciders.{decider_of, decides_alone};
ghost use Rattle.oz_om.specs.decider.Outcomes.{IfDecided, WantsBlock};
ghost use Rattle.oz_om.specs.decider.Promises.{IsDecision};
ghost use Rattle.oz_decision.specs.Meets.{Stand};
ghost use Rattle.oz_fields.specs.declared.block.Block.{Block as AnyBlock};
ghost use Rattle.oz_namespace.specs.declared.namespace.Namespace.{Namespace as AnyNamespace};
ghost use Rattle.oz_om_session.specs.Picks.{IsPick};
ghost use Rattle.oz_requests.specs.declared.request.Family.{Family as AnyFamily};
ghost use Rattle.oz_requests.specs.declared.request.Family.TheVariants as families;
ghost use Rattle.oz_requests.specs.Families.{family_of};
ghost use Rattle.oz_sound.specs.Sound.{IsSoundButRenames};

use crate::decider::decider::{Decider, who_decides};
use crate::decider::outcome::Outcome;
use oz_cache::Cached;
use oz_decision::Decision;
use oz_fields::{Block, OutOfMemory};
use oz_om_key::decide_change;
use oz_om_session::{decide_allocate, decide_commit, decide_open};
use oz_reclaim::decide_snapshot;
use oz_requests::Request;
use std::alloc::Global;

/// Decides a request over the newest rows. A session that isn't refused a block is granted the picked block, on the picked
/// pipeline; whoever picks keeps to the stripe's grants and to what the request excludes. It changes nothing.
pub fn decide(
    alloc: Global,
    cached: &Cached,
    request: &Request,
    pick: Option<(Block, u8)>,
) -> Result<Outcome, OutOfMemory>
    requires { IsPick pick }
    ensures decision { IfOk result (λ outcome. IfDecided outcome (λ decision.
        IsDecision (newest cached.now) request.now pick decision)) }
    ensures no_block { IfOk result (λ outcome. (namespace : AnyNamespace) →
        Stand IsSoundButRenames (newest cached.now) namespace →
        (outcome ≡ Outcome.NoBlock) ↔ WantsBlock namespace request.now pick) }
    ensures of_sessions { IfOk result (λ outcome. outcome ≡ Outcome.NoBlock → family_of request.now ≡ families.Allocation) }
    ensures not_yet { IfOk result (λ outcome. (outcome ≡ Outcome.NotYet) ↔ (is_decided request.now ≡ false)) }
{
    match who_decides(request) {
        Decider::Nobody => Ok(Outcome::NotYet),
        Decider::Granting => grant(alloc, cached, request, pick),
        _ => Ok(Outcome::Decided(decide_alone(alloc, cached, request)?)),
    }
}

/// Decides a request for a block.
fn grant(
    alloc: Global,
    cached: &Cached,
    request: &Request,
    pick: Option<(Block, u8)>,
) -> Result<Outcome, OutOfMemory>
    requires granting { decider_of request.now ≡ Decider.Granting }
    requires pick { IsPick pick }
    ensures decision { IfOk result (λ outcome. IfDecided outcome (λ decision.
        IsDecision (newest cached.now) request.now pick decision)) }
    ensures no_block { IfOk result (λ outcome. (namespace : AnyNamespace) →
        Stand IsSoundButRenames (newest cached.now) namespace →
        (outcome ≡ Outcome.NoBlock) ↔ WantsBlock namespace request.now pick) }
    ensures decided { IfOk result (λ outcome. outcome ≡ Outcome.NotYet → ⊥) }
{
    match decide_allocate(alloc, cached, request, pick)? {
        Some(decision) => Ok(Outcome::Decided(decision)),
        None => Ok(Outcome::NoBlock),
    }
}

/// Decides a request that gets no block.
fn decide_alone(alloc: Global, cached: &Cached, request: &Request) -> Result<Decision, OutOfMemory>
    requires { decides_alone (decider_of request.now) ≡ true }
    ensures { IfOk result (λ decision. (pick : Perhaps (AnyBlock × ℕ)) →
        IsDecision (newest cached.now) request.now pick decision) }
{
    match who_decides(request) {
        Decider::Buckets => oz_om_bucket::decide(alloc, cached, request),
        Decider::Reading => oz_om_key::decide(alloc, cached, request),
        Decider::Changing => decide_change(alloc, cached, request),
        Decider::Opening => open(alloc, cached, request),
        Decider::Committing => decide_commit(alloc, cached, request),
        Decider::Snapshots => on_snapshots(alloc, cached, request),
        Decider::Reclaiming => reclaim(alloc, cached, request),
        Decider::Granting | Decider::Nobody => unreachable!(),
    }
}

/// Decides a request that opens sessions or ends them.
fn open(alloc: Global, cached: &Cached, request: &Request) -> Result<Decision, OutOfMemory>
    requires { decider_of request.now ≡ Decider.Opening }
    ensures { IfOk result (λ decision. (pick : Perhaps (AnyBlock × ℕ)) →
        IsDecision (newest cached.now) request.now pick decision) }
{
    cached.durable().rows_are_in_order();
    decide_open(alloc, cached, request)
}

/// Decides a request on snapshots.
fn on_snapshots(alloc: Global, cached: &Cached, request: &Request) -> Result<Decision, OutOfMemory>
    requires { decider_of request.now ≡ Decider.Snapshots }
    ensures { IfOk result (λ decision. (pick : Perhaps (AnyBlock × ℕ)) →
        IsDecision (newest cached.now) request.now pick decision) }
{
    cached.durable().rows_are_in_order();
    let decision = decide_snapshot(alloc, cached, request)?;
    Ok(decision)
}

/// Decides a request of the manager's own.
fn reclaim(alloc: Global, cached: &Cached, request: &Request) -> Result<Decision, OutOfMemory>
    requires { decider_of request.now ≡ Decider.Reclaiming }
    ensures { IfOk result (λ decision. (pick : Perhaps (AnyBlock × ℕ)) →
        IsDecision (newest cached.now) request.now pick decision) }
{
    cached.durable().rows_are_in_order();
    let decision = oz_reclaim::decide(alloc, cached, request)?;
    Ok(decision)
}

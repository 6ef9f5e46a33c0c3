//! The decision on a request for a block.

ghost use Rattle.std.specs.Prelude.{◌≡◌, ◌<◌, ◌≤◌, ◌↔◌, ◌∷◌, ◌++◌, [], None, Some, length, IfOk, IfSome, IfNone};
ghost use Rattle.oz_cache.specs.Cache.{newest};
ghost use Rattle.oz_decision.specs.Drafts.{row_by_row};
ghost use Rattle.oz_decision.specs.Meets.{AreInGrammar, IsSafe, Stand, Meets};
ghost use Rattle.oz_decision.specs.Replies.{IsReply, ShowsThat};
ghost use Rattle.oz_model.specs.Grants.{IsPicked};
ghost use Rattle.oz_model.specs.Refusals.{first_of, missing, codes, refusal};
ghost use Rattle.oz_model.specs.Scope.{scope_of};
ghost use Rattle.oz_namespace.specs.declared.namespace.Namespace.{Namespace as AnyNamespace};
ghost use Rattle.oz_om_session.specs.Picks.{IsPick, IsNew};
ghost use Rattle.oz_decision.specs.Sessions.{blocks_at};
ghost use Rattle.oz_om_session.specs.Records.{recorded_grant};
ghost use Rattle.oz_om_session.specs.Sessions.{HasRoom, MayRecordGrant};
ghost use Rattle.oz_requests.specs.Families.{family_of};
ghost use Rattle.oz_requests.specs.Names.{name_fault, volume_in};
ghost use Rattle.oz_rows.specs.declared.operation.TheConstants.{LONGEST_OPERATION};
ghost use Rattle.oz_rows.specs.Operations.{batch_bytes};
ghost use Rattle.oz_sound.specs.Sound.{IsSound, IsSoundButRenames};

use oz_cache::Cached;
use oz_decision::{Decision, Draft, missing_session, session_blocks};
use oz_fields::{Block, List, Name, OutOfMemory};
use oz_names::{Code, MOST_BLOCKS};
use oz_requests::{Exclude, Family, Reply, Request};
use oz_rows::{Row, RowKey, RowMap};
use std::alloc::Global;

/// Decides a request for a block over the newest rows. A session that isn't refused is granted the picked block, on the
/// picked pipeline; None where there is none. Whoever picks keeps to what the request excludes. It changes nothing.
pub fn decide_allocate(
    alloc: Global,
    cached: &Cached,
    request: &Request,
    pick: Option<(Block, u8)>,
) -> Result<Option<Decision>, OutOfMemory>
    requires family { family_of request.now ≡ Family.Allocation }
    requires pick { IsPick pick }
    ensures meets { IfOk result (λ decided. IfSome decided (λ decision. IsNew (newest cached.now) pick →
        (namespace : AnyNamespace) → Stand IsSound (newest cached.now) namespace →
        Meets IsSound (newest cached.now) namespace request.now decision.reply decision.bytes decision.changes)) }
    // Nor does it need what renamed rows say.
    ensures but_renames { IfOk result (λ decided. IfSome decided (λ decision. IsNew (newest cached.now) pick →
        (namespace : AnyNamespace) → Stand IsSoundButRenames (newest cached.now) namespace →
        Meets IsSoundButRenames (newest cached.now) namespace request.now
        decision.reply decision.bytes decision.changes)) }
    // No block is granted but the picked one.
    ensures picked { IfOk result (λ decided. IfSome decided (λ decision. IsPicked pick decision.reply)) }
    // There is no decision exactly where no code applies and there is no pick.
    ensures none { IfOk result (λ decided. (namespace : AnyNamespace) →
        Stand IsSoundButRenames (newest cached.now) namespace →
        (decided ≡ None) ↔ ((refusal (scope_of namespace (volume_in request.now)) request.now ≡ None) × (pick ≡ None))) }
    // Rows that stand for no namespace stay such that a journal may hold them.
    ensures safe { IfOk result (λ decided. IfSome decided (λ decision.
        AreInGrammar (newest cached.now) → IsSafe (newest cached.now) decision.bytes decision.changes)) }
    // Of the rows that no namespace shows, none changes.
    ensures exact { IfOk result (λ decided. IfSome decided (λ decision.
        decision.changes ≡ recorded_grant (newest cached.now) request.now decision.reply)) }
    ensures operations { IfOk result (λ decided. IfSome decided (λ decision.
        decision.bytes ≡ batch_bytes (row_by_row decision.changes))) }
    ensures recorded { IfOk result (λ decided. IfSome decided (λ decision.
        (decision.bytes ≡ []) ↔ (decision.changes ≡ []))) }
    ensures size { IfOk result (λ decided. IfSome decided (λ decision. length decision.bytes ≤ LONGEST_OPERATION)) }
{
    if let Some(code) = request.name_fault() {
        return Ok(Some(Decision::unchanged(alloc, Reply::Code(code))));
    }
    allocate_named(alloc, cached, request, pick)
}

/// Decides a request whose names were tested.
fn allocate_named<M: RowMap>(
    alloc: Global,
    rows: &M,
    request: &Request,
    pick: Option<(Block, u8)>,
) -> Result<Option<Decision>, OutOfMemory>
    requires family { family_of request.now ≡ Family.Allocation }
    requires named { name_fault request.now ≡ None }
    requires pick { IsPick pick }
    ensures reply { IfOk result (λ decided. IfSome decided (λ decision. IsReply (M.rows rows.now) request.now decision.reply)) }
    ensures allowed { IfOk result (λ decided. IfSome decided (λ decision. MayRecordGrant (M.rows rows.now) request.now decision.reply)) }
    ensures picked { IfOk result (λ decided. IfSome decided (λ decision. IsPicked pick decision.reply)) }
    ensures none { IfOk result (λ decided. IfNone decided ((pick ≡ None) × ShowsThat (M.rows rows.now) (λ namespace.
        refusal (scope_of namespace (volume_in request.now)) request.now ≡ None))) }
    ensures changes { IfOk result (λ decided. IfSome decided (λ decision. decision.changes ≡ recorded_grant (M.rows rows.now) request.now decision.reply)) }
    ensures operations { IfOk result (λ decided. IfSome decided (λ decision. decision.bytes ≡ batch_bytes (row_by_row decision.changes))) }
{
    match request {
        Request::AllocateBlock {
            volume,
            bucket,
            key,
            session,
            exclude,
        } => allocate(alloc, rows, volume, bucket, key, *session, exclude, pick),
        _ => unreachable!(),
    }
}

fn allocate<M: RowMap>(
    alloc: Global,
    rows: &M,
    volume: &Name,
    bucket: &Name,
    key: &Name,
    session: u64,
    exclude: &Exclude,
    pick: Option<(Block, u8)>,
) -> Result<Option<Decision>, OutOfMemory>
    requires named { name_fault (Request.AllocateBlock volume.now bucket.now key.now session exclude.now) ≡ None }
    requires pick { IsPick pick }
    ensures reply { IfOk result (λ decided. IfSome decided
        (λ decision. IsReply (M.rows rows.now) (Request.AllocateBlock volume.now bucket.now key.now session exclude.now) decision.reply)) }
    ensures allowed { IfOk result (λ decided. IfSome decided
        (λ decision. MayRecordGrant (M.rows rows.now) (Request.AllocateBlock volume.now bucket.now key.now session exclude.now) decision.reply)) }
    ensures picked { IfOk result (λ decided. IfSome decided (λ decision. IsPicked pick decision.reply)) }
    ensures none { IfOk result (λ decided. IfNone decided ((pick ≡ None) × ShowsThat (M.rows rows.now) (λ namespace.
        refusal (scope_of namespace volume.now) (Request.AllocateBlock volume.now bucket.now key.now session exclude.now) ≡ None))) }
    ensures changes { IfOk result (λ decided. IfSome decided
        (λ decision. decision.changes ≡ recorded_grant (M.rows rows.now)
        (Request.AllocateBlock volume.now bucket.now key.now session exclude.now) decision.reply)) }
    ensures operations { IfOk result (λ decided. IfSome decided (λ decision. decision.bytes ≡ batch_bytes (row_by_row decision.changes))) }
{
    let _unused = exclude;
    let of_session = RowKey::of_session(alloc, volume, bucket, key, session)?;
    if let Some(code) = not_granted(
        alloc,
        rows,
        volume,
        bucket,
        key,
        session,
        exclude,
        &of_session,
    )? {
        return Ok(Some(Decision::unchanged(alloc, Reply::Code(code))));
    }
    let Some((block, pipeline)) = pick else {
        return Ok(None);
    };
    let blocks = with_block(alloc, session_blocks(rows, &of_session), block)?;
    let draft = Draft::new(alloc).put(alloc, of_session, Row::Open { blocks })?;
    Ok(Some(draft.with_reply(Reply::Granted(block, pipeline))))
}

/// Why a session, whose row has this key, gets no block, where it doesn't.
fn not_granted<M: RowMap>(
    alloc: Global,
    rows: &M,
    volume: &Name,
    bucket: &Name,
    key: &Name,
    session: u64,
    exclude: &Exclude,
    of_session: &RowKey,
) -> Result<Option<Code>, OutOfMemory>
    requires named { name_fault (Request.AllocateBlock volume.now bucket.now key.now session exclude.now) ≡ None }
    requires key { of_session.now ≡ RowKey.Open volume.now bucket.now key.now session }
    ensures code { IfOk result (λ code. ShowsThat (M.rows rows.now)
        (λ namespace. code ≡ refusal (scope_of namespace volume.now) (Request.AllocateBlock volume.now bucket.now key.now session exclude.now))) }
    ensures none { IfOk result (λ code. code ≡ None → HasRoom (M.rows rows.now) volume.now bucket.now key.now session) }
{
    let _unused = exclude;
    if let Some(code) = missing_session(alloc, rows, volume, bucket, key, session, of_session)? {
        return Ok(Some(code));
    }
    if session_blocks(rows, of_session).len() >= MOST_BLOCKS as usize {
        return Ok(Some(Code::SessionFull));
    }
    Ok(None)
}

/// A block more behind the others.
fn with_block(alloc: Global, blocks: &[Block], block: Block) -> Result<List<Block>, OutOfMemory>
    ensures { IfOk result (λ more. more ≡ blocks.now ++ block ∷ []) }
{
    let mut more = Vec::with_capacity(alloc, blocks.len() + 1)?;
    more.extend_from_slice(blocks)?;
    more.push(block)?;
    Ok(List::of(more))
}

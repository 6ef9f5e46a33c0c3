//! The decision on a commit.

ghost use Rattle.std.specs.Prelude.{◌≡◌, ◌≤◌, ◌*◌, ◌↔◌, ◌++◌, ◌∷◌, [], None, true, false, length, IfOk, IfSome, IfNone};
ghost use Rattle.oz_cache.specs.Cache.{newest};
ghost use Rattle.oz_decision.specs.Drafts.{row_by_row};
ghost use Rattle.oz_decision.specs.Meets.{AreInGrammar, IsSafe, Stand, Meets};
ghost use Rattle.oz_decision.specs.Replies.{IsReply};
ghost use Rattle.oz_namespace.specs.declared.namespace.Namespace.{Namespace as AnyNamespace};
ghost use Rattle.oz_om_session.specs.Commits.{IsCommit};
ghost use Rattle.oz_decision.specs.Sessions.{IsOpen, blocks_at};
ghost use Rattle.oz_om_session.specs.Records.{changes_of_left, recorded_commit};
ghost use Rattle.oz_om_session.specs.Sessions.{are_committed, MayRecordCommit};
ghost use Rattle.oz_requests.specs.Names.{name_fault};
ghost use Rattle.oz_rows.specs.declared.operation.TheConstants.{LONGEST_OPERATION};
ghost use Rattle.oz_rows.specs.Operations.{batch_bytes};
ghost use Rattle.oz_rows.specs.declared.row.Row.{Row as AnyRow};
ghost use Rattle.oz_rows.specs.RowMaps.{put, gone};
ghost use Rattle.oz_rows.specs.Rows.{AreItems, IsBlock, KeyFits, RowFits};
ghost use Rattle.oz_sound.specs.Sound.{IsSound, IsSoundButRenames};

use crate::pieces::{are_pieces_of, unused_blocks};
use oz_cache::Cached;
use oz_decision::{
    Decision, Draft, is_version, missing_session, put_deleted, session_blocks, version_blocks,
};
use oz_fields::{List, Name, OutOfMemory, Piece, TryClone};
use oz_names::Code;
use oz_requests::{Reply, Request};
use oz_rows::{Row, RowKey, RowMap};
use std::alloc::Global;

/// Decides a commit over the newest rows: at most four operations. It changes nothing.
pub fn decide_commit(
    alloc: Global,
    cached: &Cached,
    request: &Request,
) -> Result<Decision, OutOfMemory>
    requires { IsCommit request.now }
    ensures meets { IfOk result (λ decision. (namespace : AnyNamespace) →
        Stand IsSound (newest cached.now) namespace →
        Meets IsSound (newest cached.now) namespace request.now decision.reply decision.bytes decision.changes) }
    // Nor does it need what renamed rows say.
    ensures but_renames { IfOk result (λ decision. (namespace : AnyNamespace) →
        Stand IsSoundButRenames (newest cached.now) namespace →
        Meets IsSoundButRenames (newest cached.now) namespace request.now
        decision.reply decision.bytes decision.changes) }
    // Rows that stand for no namespace stay such that a journal may hold them.
    ensures safe { IfOk result (λ decision.
        AreInGrammar (newest cached.now) → IsSafe (newest cached.now) decision.bytes decision.changes) }
    // Of the rows that no namespace shows, the deleted rows of the blocks that are left come, and no other changes.
    ensures exact { IfOk result (λ decision. decision.changes ≡ recorded_commit (newest cached.now) request.now decision.reply) }
    ensures operations { IfOk result (λ decision. decision.bytes ≡ batch_bytes (row_by_row decision.changes)) }
    ensures recorded { IfOk result (λ decision. (decision.bytes ≡ []) ↔ (decision.changes ≡ [])) }
    ensures size { IfOk result (λ decision. length decision.bytes ≤ 4 * LONGEST_OPERATION) }
{
    if let Some(code) = request.name_fault() {
        return Ok(Decision::unchanged(alloc, Reply::Code(code)));
    }
    commit_named(alloc, cached, request)
}

/// Decides a request whose names were tested.
fn commit_named<M: RowMap>(
    alloc: Global,
    rows: &M,
    request: &Request,
) -> Result<Decision, OutOfMemory>
    requires commit { IsCommit request.now }
    requires named { name_fault request.now ≡ None }
    ensures reply { IfOk result (λ decision. IsReply (M.rows rows.now) request.now decision.reply) }
    ensures allowed { IfOk result (λ decision. MayRecordCommit (M.rows rows.now) request.now decision.reply) }
    ensures changes { IfOk result (λ decision. decision.changes ≡ recorded_commit (M.rows rows.now) request.now decision.reply) }
    ensures operations { IfOk result (λ decision. decision.bytes ≡ batch_bytes (row_by_row decision.changes)) }
{
    match request {
        Request::CommitKey {
            volume,
            bucket,
            key,
            session,
            pieces,
        } => commit(alloc, rows, volume, bucket, key, *session, pieces),
        _ => unreachable!(),
    }
}

fn commit<M: RowMap>(
    alloc: Global,
    rows: &M,
    volume: &Name,
    bucket: &Name,
    key: &Name,
    session: u64,
    pieces: &List<Piece>,
) -> Result<Decision, OutOfMemory>
    requires { name_fault (Request.CommitKey volume.now bucket.now key.now session pieces.now) ≡ None }
    ensures reply { IfOk result (λ decision. IsReply (M.rows rows.now) (Request.CommitKey volume.now bucket.now key.now session pieces.now) decision.reply) }
    ensures allowed { IfOk result (λ decision. MayRecordCommit (M.rows rows.now)
        (Request.CommitKey volume.now bucket.now key.now session pieces.now) decision.reply) }
    ensures changes { IfOk result (λ decision. decision.changes
        ≡ recorded_commit (M.rows rows.now) (Request.CommitKey volume.now bucket.now key.now session pieces.now) decision.reply) }
    ensures operations { IfOk result (λ decision. decision.bytes ≡ batch_bytes (row_by_row decision.changes)) }
{
    let of_session = RowKey::of_session(alloc, volume, bucket, key, session)?;
    if let Some(code) = missing_session(alloc, rows, volume, bucket, key, session, &of_session)? {
        return Ok(Decision::unchanged(alloc, Reply::Code(code)));
    }
    commit_open(
        alloc, rows, volume, bucket, key, session, pieces, of_session,
    )
}

/// Decides a commit of the session whose row has this key, which is there.
fn commit_open<M: RowMap>(
    alloc: Global,
    rows: &M,
    volume: &Name,
    bucket: &Name,
    key: &Name,
    session: u64,
    pieces: &List<Piece>,
    of_session: RowKey,
) -> Result<Decision, OutOfMemory>
    requires named { name_fault (Request.CommitKey volume.now bucket.now key.now session pieces.now) ≡ None }
    requires key { of_session ≡ RowKey.Open volume.now bucket.now key.now session }
    requires there { IsOpen (M.rows rows.now) volume.now bucket.now key.now session }
    ensures reply { IfOk result (λ decision. IsReply (M.rows rows.now) (Request.CommitKey volume.now bucket.now key.now session pieces.now) decision.reply) }
    ensures allowed { IfOk result (λ decision. MayRecordCommit (M.rows rows.now)
        (Request.CommitKey volume.now bucket.now key.now session pieces.now) decision.reply) }
    ensures changes { IfOk result (λ decision. decision.changes
        ≡ recorded_commit (M.rows rows.now) (Request.CommitKey volume.now bucket.now key.now session pieces.now) decision.reply) }
    ensures operations { IfOk result (λ decision. decision.bytes ≡ batch_bytes (row_by_row decision.changes)) }
{
    let of_key = RowKey::of_key(alloc, volume, bucket, key)?;
    let Some(draft) = put_left(
        alloc,
        rows,
        volume,
        bucket,
        key,
        pieces.items(),
        &of_session,
        &of_key,
    )?
    else {
        return Ok(Decision::unchanged(alloc, Reply::Code(Code::InvalidBlock)));
    };
    let draft = put_key(alloc, draft, of_session, of_key, session, pieces)?;
    Ok(draft.with_reply(Reply::Done))
}

/// The older version and the unused blocks stand in deleted rows; None where the pieces aren't such of the session.
fn put_left<M: RowMap>(
    alloc: Global,
    rows: &M,
    volume: &Name,
    bucket: &Name,
    key: &Name,
    pieces: &[Piece],
    of_session: &RowKey,
    of_key: &RowKey,
) -> Result<Option<Draft>, OutOfMemory>
    requires named { name_fault (Request.DeleteKey volume.now bucket.now key.now) ≡ None }
    requires blocks { AreItems IsBlock (blocks_at (M.rows rows.now of_session.now)) }
    ensures none { IfOk result (λ left. IfNone left (are_committed (M.rows rows.now of_session.now) (M.rows rows.now of_key.now) pieces.now ≡ false)) }
    ensures some { IfOk result (λ left. IfSome left (λ draft. are_committed (M.rows rows.now of_session.now) (M.rows rows.now of_key.now) pieces.now ≡ true)) }
    ensures bytes { IfOk result (λ left. IfSome left
        (λ draft. draft.bytes ≡ batch_bytes (row_by_row
        (changes_of_left volume.now bucket.now key.now (M.rows rows.now of_key.now) (M.rows rows.now of_session.now) pieces.now)))) }
    ensures changes { IfOk result (λ left. IfSome left
        (λ draft. draft.changes ≡ changes_of_left volume.now bucket.now key.now (M.rows rows.now of_key.now) (M.rows rows.now of_session.now) pieces.now)) }
{
    if !are_committed(rows, of_session, of_key, pieces) {
        return Ok(None);
    }
    let older = version_blocks(alloc, rows, of_key)?;
    let unused = unused_blocks(alloc, session_blocks(rows, of_session), pieces)?;
    let draft = put_deleted(alloc, Draft::new(alloc), volume, bucket, key, older)?;
    Ok(Some(put_deleted(alloc, draft, volume, bucket, key, unused)?))
}

/// Whether the pieces are such of the session, and the key's row, if there is one, keeps the rules of rows.
fn are_committed<M: RowMap>(
    rows: &M,
    of_session: &RowKey,
    of_key: &RowKey,
    pieces: &[Piece],
) -> bool
    ensures { result ≡ are_committed (M.rows rows.now of_session.now) (M.rows rows.now of_key.now) pieces.now }
{
    are_pieces_of(session_blocks(rows, of_session), pieces) && is_version(rows, of_key)
}

/// The session's row goes, and the key has the pieces.
fn put_key(
    alloc: Global,
    draft: Draft,
    of_session: RowKey,
    of_key: RowKey,
    number: u64,
    pieces: &List<Piece>,
) -> Result<Draft, OutOfMemory>
    requires session { KeyFits of_session }
    requires key { RowFits of_key (AnyRow.Key number pieces.now) }
    ensures bytes { IfOk result (λ more. more.bytes ≡ draft.bytes
        ++ batch_bytes (row_by_row (gone of_session ∷ put of_key (AnyRow.Key number pieces.now) ∷ []))) }
    ensures changes { IfOk result (λ more. more.changes ≡ draft.changes ++ gone of_session ∷ put of_key (AnyRow.Key number pieces.now) ∷ []) }
{
    let draft = draft.remove(alloc, of_session)?;
    let row = Row::Key {
        number,
        pieces: pieces.try_clone(alloc)?,
    };
    draft.put(alloc, of_key, row)
}

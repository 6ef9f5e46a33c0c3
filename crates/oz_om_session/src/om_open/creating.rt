//! A session is opened. The names were tested before.

ghost use Rattle.std.specs.Prelude.{◌≡◌, ◌+◌, ◌<◌, ◌≤◌, ◌∷◌, [], None, IsSome, IfOk};
ghost use Rattle.oz_decision.specs.Drafts.{row_by_row};
ghost use Rattle.oz_decision.specs.Replies.{IsReply, ShowsThat};
ghost use Rattle.oz_model.specs.Buckets.{bucket_at, is_full as is_full_bucket};
ghost use Rattle.oz_model.specs.Refusals.{refusal};
ghost use Rattle.oz_model.specs.Scope.{scope_of};
ghost use Rattle.oz_names.specs.declared.limits.TheConstants.{MOST_NUMBERS};
ghost use Rattle.oz_names.specs.Names.{stripe_of as stripe_number};
ghost use Rattle.oz_om_session.specs.om_open.Allowed.{MayRecord};
ghost use Rattle.oz_om_session.specs.om_open.Records.{AreRecorded, changes_of_create, operations_for};
ghost use Rattle.oz_requests.specs.Names.{name_fault};
ghost use Rattle.oz_rows.specs.Operations.{batch_bytes};
ghost use Rattle.oz_sound.specs.StandsFor.{drawn_in};

use oz_decision::{Decision, Draft, key_count, missing_bucket, session_count};
use oz_fields::{List, Name, OutOfMemory};
use oz_names::{Code, MOST_KEYS, MOST_NUMBERS, stripe_of};
use oz_requests::{Reply, Request};
use oz_rows::{Row, RowKey, RowMap};
use std::alloc::Global;

pub(crate) fn create_key<M: RowMap>(
    alloc: Global,
    rows: &M,
    volume: &Name,
    bucket: &Name,
    key: &Name,
) -> Result<Decision, OutOfMemory>
    requires { name_fault (Request.CreateKey volume.now bucket.now key.now) ≡ None }
    ensures reply { IfOk result (λ decision. IsReply (M.rows rows.now) (Request.CreateKey volume.now bucket.now key.now) decision.reply) }
    ensures allowed { IfOk result (λ decision. MayRecord (M.rows rows.now) (Request.CreateKey volume.now bucket.now key.now) decision.reply) }
    ensures changes { IfOk result (λ decision. AreRecorded (M.rows rows.now)
        (Request.CreateKey volume.now bucket.now key.now) decision.reply decision.changes) }
    ensures operations { IfOk result (λ decision. decision.bytes
        ≡ batch_bytes (operations_for (Request.CreateKey volume.now bucket.now key.now) decision.changes)) }
{
    let drawn = drawn_numbers(rows, volume);
    if let Some(code) = not_opened(alloc, rows, volume, bucket, key, drawn)? {
        return Ok(Decision::unchanged(alloc, Reply::Code(code)));
    }
    let draft = put_session(alloc, volume, bucket, key, drawn + 1)?;
    Ok(draft.with_reply(Reply::Session(drawn + 1)))
}

/// How many numbers were drawn in the stripe of a volume.
fn drawn_numbers<M: RowMap>(rows: &M, volume: &Name) -> u64
    ensures { result ≡ drawn_in (M.rows rows.now (RowKey.Stripe (stripe_number volume.now))) }
{
    let of_stripe = RowKey::Stripe {
        stripe: stripe_of(volume.bytes()),
    };
    match rows.get(&of_stripe) {
        Some(Row::Stripe { number }) => *number,
        _ => 0,
    }
}

/// Why no session is opened, where none is. So many numbers were drawn in the stripe.
fn not_opened<M: RowMap>(
    alloc: Global,
    rows: &M,
    volume: &Name,
    bucket: &Name,
    key: &Name,
    drawn: u64,
) -> Result<Option<Code>, OutOfMemory>
    requires named { name_fault (Request.CreateKey volume.now bucket.now key.now) ≡ None }
    requires drawn { drawn ≡ drawn_in (M.rows rows.now (RowKey.Stripe (stripe_number volume.now))) }
    ensures code { IfOk result (λ code. ShowsThat (M.rows rows.now)
        (λ namespace. code ≡ refusal (scope_of namespace volume.now) (Request.CreateKey volume.now bucket.now key.now))) }
    ensures there { IfOk result (λ code. code ≡ None → IsSome (M.rows rows.now (RowKey.Bucket volume.now bucket.now))) }
    ensures few { IfOk result (λ code. code ≡ None → drawn < MOST_NUMBERS) }
{
    let _unused = key;
    let of_bucket = RowKey::of_bucket(alloc, volume, bucket)?;
    if let Some(code) = missing_bucket(alloc, rows, volume, bucket, &of_bucket)? {
        return Ok(Some(code));
    }
    if is_full(alloc, rows, volume, bucket)? {
        return Ok(Some(Code::BucketFull));
    }
    if drawn >= MOST_NUMBERS {
        return Ok(Some(Code::NumbersSpent));
    }
    Ok(None)
}

/// Whether a bucket has no room for a further key or session.
fn is_full<M: RowMap>(
    alloc: Global,
    rows: &M,
    volume: &Name,
    bucket: &Name,
) -> Result<bool, OutOfMemory>
    ensures { IfOk result (λ full. ShowsThat (M.rows rows.now) (λ namespace. full ≡ is_full_bucket (bucket_at namespace volume.now bucket.now))) }
{
    let keys = key_count(alloc, rows, volume, bucket)?;
    let sessions = session_count(alloc, rows, volume, bucket)?;
    Ok(u64::from(keys) + u64::from(sessions) >= u64::from(MOST_KEYS))
}

/// A session of this number without blocks, which was the last that was drawn.
fn put_session(
    alloc: Global,
    volume: &Name,
    bucket: &Name,
    key: &Name,
    number: u64,
) -> Result<Draft, OutOfMemory>
    requires named { name_fault (Request.CreateKey volume.now bucket.now key.now) ≡ None }
    requires least { 1 ≤ number }
    requires few { number ≤ MOST_NUMBERS }
    ensures bytes { IfOk result (λ draft. draft.bytes ≡ batch_bytes (row_by_row draft.changes)) }
    ensures changes { IfOk result (λ draft. draft.changes ≡ changes_of_create (Request.CreateKey volume.now bucket.now key.now) number) }
{
    let of_session = RowKey::of_session(alloc, volume, bucket, key, number)?;
    let blocks = List::new(alloc);
    let draft = Draft::new(alloc).put(alloc, of_session, Row::Open { blocks })?;
    let of_stripe = RowKey::Stripe {
        stripe: stripe_of(volume.bytes()),
    };
    draft.put(alloc, of_stripe, Row::Stripe { number })
}

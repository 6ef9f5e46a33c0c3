//! A snapshot is made.

ghost use Rattle.std.specs.Prelude.{◌≡◌, ◌<◌, ◌≤◌, List as AnyList, [], ◌∷◌, ◌++◌, None, IsSome, IfOk};
ghost use Rattle.oz_decision.specs.Drafts.{row_by_row};
ghost use Rattle.oz_decision.specs.Replies.{IsReply, ShowsThat};
ghost use Rattle.oz_effects.specs.Effects.{operation_changes};
ghost use Rattle.oz_model.specs.Refusals.{refusal};
ghost use Rattle.oz_model.specs.Scope.{scope_of};
ghost use Rattle.oz_names.specs.Names.{stripe_of as stripe_number};
ghost use Rattle.oz_names.specs.declared.limits.TheConstants.{MOST_NUMBERS};
ghost use Rattle.oz_reclaim.specs.Creates.{IsLastNumber};
ghost use Rattle.oz_reclaim.specs.Marks.{HasNumber};
ghost use Rattle.oz_reclaim.specs.Snapshots.{AreRecorded};
ghost use Rattle.oz_requests.specs.Names.{name_fault};
ghost use Rattle.oz_requests.specs.declared.request.Request.{Request as AnyRequest};
ghost use Rattle.oz_rows.specs.declared.entry.RowEntry.{RowEntry as AnyEntry};
ghost use Rattle.oz_rows.specs.declared.operation.Operation.{Operation as AnyOperation};
ghost use Rattle.oz_rows.specs.Operations.{OperationFits, batch_bytes};
ghost use Rattle.oz_rows.specs.RowMaps.{AreRows, put};
ghost use Rattle.oz_rows.specs.Rows.{IsOwner};
ghost use Rattle.oz_sound.specs.StandsFor.{drawn_in};

use crate::naming::number_named;
use crate::owning::next_owner;
use oz_decision::{Decision, Draft, missing_bucket, snapshot_count};
use oz_effects::{copied_keys, moved_rows};
use oz_fields::{Name, OutOfMemory, TryClone};
use oz_names::{Code, MOST_NUMBERS, MOST_SNAPSHOTS, stripe_of};
use oz_requests::Reply;
use oz_rows::{Operation, Row, RowKey, RowMap, SnapshotState};
use std::alloc::Global;

/// Decides that the bucket has a snapshot of this name. The names were tested.
pub(crate) fn create_snapshot<M: RowMap>(
    alloc: Global,
    rows: &M,
    volume: &Name,
    bucket: &Name,
    name: &Name,
) -> Result<Decision, OutOfMemory>
    requires { name_fault (AnyRequest.CreateSnapshot volume.now bucket.now name.now) ≡ None }
    ensures reply { IfOk result (λ decision.
        IsReply (M.rows rows.now) (AnyRequest.CreateSnapshot volume.now bucket.now name.now) decision.reply) }
    ensures exact { IfOk result (λ decision. AreRecorded (M.rows rows.now)
        (AnyRequest.CreateSnapshot volume.now bucket.now name.now) decision.reply decision.bytes decision.changes) }
{
    let drawn = drawn_numbers(rows, volume);
    if let Some(code) = not_made(alloc, rows, volume, bucket, name, drawn)? {
        return Ok(Decision::unchanged(alloc, Reply::Code(code)));
    }
    let previous = last_number(alloc, rows, volume, bucket)?;
    let first = put_snapshot(alloc, volume, bucket, name, drawn + 1, previous)?;
    let draft = take_over(alloc, rows, first, volume, bucket, drawn + 1)?;
    Ok(draft.with_reply(Reply::Done))
}

/// How many numbers were drawn in the stripe of a volume.
fn drawn_numbers<M: RowMap>(rows: &M, volume: &Name) -> u64
    ensures { result ≡ drawn_in (M.rows rows.now (RowKey.Stripe (stripe_number volume.now))) }
{
    let of_stripe = RowKey::Stripe {
        stripe: stripe_of(volume.bytes()),
    };
    match rows.get(&of_stripe) {
        Some(Row::Stripe { number }) => *number,
        _ => 0,
    }
}

/// Why no snapshot is made, where none is. So many numbers were drawn in the stripe.
fn not_made<M: RowMap>(
    alloc: Global,
    rows: &M,
    volume: &Name,
    bucket: &Name,
    name: &Name,
    drawn: u64,
) -> Result<Option<Code>, OutOfMemory>
    requires named { name_fault (AnyRequest.CreateSnapshot volume.now bucket.now name.now) ≡ None }
    requires drawn { drawn ≡ drawn_in (M.rows rows.now (RowKey.Stripe (stripe_number volume.now))) }
    ensures code { IfOk result (λ code. ShowsThat (M.rows rows.now) (λ namespace. code ≡ refusal
        (scope_of namespace volume.now) (AnyRequest.CreateSnapshot volume.now bucket.now name.now))) }
    ensures there { IfOk result (λ code. code ≡ None → IsSome (M.rows rows.now (RowKey.Bucket volume.now bucket.now))) }
    ensures free { IfOk result (λ code. code ≡ None → HasNumber (M.rows rows.now) volume.now bucket.now name.now None) }
    ensures few { IfOk result (λ code. code ≡ None → drawn < MOST_NUMBERS) }
{
    let of_bucket = RowKey::of_bucket(alloc, volume, bucket)?;
    if let Some(code) = missing_bucket(alloc, rows, volume, bucket, &of_bucket)? {
        return Ok(Some(code));
    }
    let found = number_named(alloc, rows, volume, bucket, name)?;
    if found.is_some() {
        return Ok(Some(Code::SnapshotAlreadyExists));
    }
    let count = snapshot_count(alloc, rows, volume, bucket)?;
    if count >= MOST_SNAPSHOTS {
        return Ok(Some(Code::SnapshotLimit));
    }
    if drawn >= MOST_NUMBERS {
        return Ok(Some(Code::NumbersSpent));
    }
    Ok(None)
}

/// The greatest number of the bucket's snapshots, live or marked, and 0 where there is none.
fn last_number<M: RowMap>(
    alloc: Global,
    rows: &M,
    volume: &Name,
    bucket: &Name,
) -> Result<u64, OutOfMemory>
    ensures { IfOk result (IsLastNumber (M.rows rows.now) volume.now bucket.now) }
{
    let mut last = 0;
    for _ in 0..u64::MAX {
        let number = next_owner(alloc, rows, volume, bucket, last)?;
        if number == 0 {
            return Ok(last);
        }
        last = number;
    }
    Err(OutOfMemory)
}

/// The number, which is the last that was drawn, and the row of a live snapshot that has it.
fn put_snapshot(
    alloc: Global,
    volume: &Name,
    bucket: &Name,
    name: &Name,
    number: u64,
    previous: u64,
) -> Result<Draft, OutOfMemory>
    requires named { name_fault (AnyRequest.CreateSnapshot volume.now bucket.now name.now) ≡ None }
    requires least { 1 ≤ number }
    requires few { number ≤ MOST_NUMBERS }
    requires owner { IsOwner previous }
    ensures bytes { IfOk result (λ draft. draft.bytes ≡ batch_bytes (row_by_row draft.changes)) }
    ensures changes { IfOk result (λ draft. draft.changes
        ≡ put (RowKey.Stripe (stripe_number volume.now)) (Row.Stripe number)
        ∷ put (RowKey.Snapshot volume.now bucket.now number) (Row.Snapshot name.now previous SnapshotState.Live) ∷ []) }
{
    let of_stripe = RowKey::Stripe {
        stripe: stripe_of(volume.bytes()),
    };
    let of_snapshot = RowKey::of_snapshot(alloc, volume, bucket, number)?;
    let row = Row::Snapshot {
        name: name.try_clone(alloc)?,
        previous,
        state: SnapshotState::Live,
    };
    let draft = Draft::new(alloc).put(alloc, of_stripe, Row::Stripe { number })?;
    draft.put(alloc, of_snapshot, row)
}

/// The snapshot gets a copy of each key, and all that the bucket itself owned.
fn take_over<M: RowMap>(
    alloc: Global,
    rows: &M,
    draft: Draft,
    volume: &Name,
    bucket: &Name,
    number: u64,
) -> Result<Draft, OutOfMemory>
    requires fits { OperationFits (AnyOperation.CopyKeys volume.now bucket.now number) }
    ensures bytes { IfOk result (λ made. made.bytes ≡ draft.bytes ++ batch_bytes
        (AnyOperation.CopyKeys volume.now bucket.now number ∷ AnyOperation.MoveDeleted volume.now bucket.now 0 number ∷ [])) }
    ensures changes { IfOk result (λ made. (entries : AnyList AnyEntry) → AreRows entries (M.rows rows.now)
        → made.changes ≡ draft.changes ++ (operation_changes entries (AnyOperation.CopyKeys volume.now bucket.now number)
        ++ operation_changes entries (AnyOperation.MoveDeleted volume.now bucket.now 0 number))) }
{
    let copies = copied_keys(alloc, rows, volume, bucket, number)?;
    let moves = moved_rows(alloc, rows, volume, bucket, 0, number)?;
    let copying = Operation::CopyKeys {
        volume: volume.try_clone(alloc)?,
        bucket: bucket.try_clone(alloc)?,
        number,
    };
    let moving = Operation::MoveDeleted {
        volume: volume.try_clone(alloc)?,
        bucket: bucket.try_clone(alloc)?,
        from: 0,
        to: number,
    };
    let copied = draft.apply(alloc, &copying, copies)?;
    let moved = copied.apply(alloc, &moving, moves)?;
    Ok(moved)
}

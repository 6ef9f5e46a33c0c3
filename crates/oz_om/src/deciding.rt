//! Deciding under the lock of one stripe.

ghost use Rattle.std.specs.Prelude.{◌≡◌, ◌≢◌, ℕ, ◌<◌, true, slice_index, IfOk, IfErr, IfSome, OnOk, OnErr, None};
ghost use Rattle.oz_locks.specs.Stripe.{IsAtRest};
ghost use Rattle.oz_names.specs.declared.limits.TheConstants.{STRIPES};
ghost use Rattle.oz_core.specs.Seats.{stripe_seat};
ghost use Rattle.oz_om.specs.Held.{IsDraft, IsDrafting, IsHeld};
ghost use Rattle.oz_om.specs.Opens.{Opens};
ghost use Rattle.oz_om.specs.Refusals.{RefusalHolds};
ghost use Rattle.oz_om.specs.Shown.{HasSeen};
ghost use Rattle.oz_turn.specs.Seat.{IsReady, seen_of};
ghost use Rattle.oz_turn.specs.Turn.{turn_id};

use crate::draft::Draft;
use crate::drafting::draft;
use crate::making::make;
use crate::refusal::Refusal;
use crate::telling::{bring_down, tell};
use oz_buffer::{Ledger, Opened};
use oz_locks::{Loaded, Stripe, Stripes};
use oz_requests::{AskId, Reply};
use oz_turn::{Ring, Seat, Turn};
use std::alloc::Global;
use std::sync::Wait;

/// Decides what an id asked at a place of the story, under the lock of its stripe. Answers the length of the story with
/// the Decide at its end, and the reply. It waits until the story that the stripe's seat takes has the Ask, which it
/// has at once. Where the stripe refuses, the asker's seat, whose number is `by`, has seen the story that it refused over.
pub(crate) fn decide_locked<O: Opened, L: Loaded, R: Ring, W: Wait>(
    rt: &W,
    alloc: Global,
    turn: &Turn<Ledger<O>>,
    stripes: &Stripes<Ledger<O>, L, R>,
    stripe: u8,
    seat: &mut Seat<Ledger<O>>,
    by: u16,
    place: usize,
    id: AskId,
) -> Result<(u64, Reply), Refusal>
    requires turn { turn_id turn.now ≡ R.turn }
    requires opens { Opens O.coherent O.opening O.bytes L.rows L.last_index L.coherent L.keeps }
    requires stripe { stripe < STRIPES }
    requires ready { IsReady R.turn by seat.old }
    ensures same { OnOk result (seat.new ≡ seat.old) }
    ensures shown { OnErr result (HasSeen R.turn O.coherent O.opening O.bytes O.script by seat.old seat.new) }
    ensures refused { IfErr result (RefusalHolds O.coherent O.opening (seen_of seat.new) id) }
{
    let mut guard = stripes.lock(rt, stripe);
    let resting = &mut *guard;
    let Some(mut inside) = resting.take_out() else {
        unreachable!()
    };
    let decided = decide(rt, alloc, turn, &mut inside, seat, by, place, id);
    resting.put_back(inside);
    decided
}

/// Decides once the Ask is there.
fn decide<O: Opened, L: Loaded, R: Ring, W: Wait>(
    rt: &W,
    alloc: Global,
    turn: &Turn<Ledger<O>>,
    stripe: &mut Stripe<Ledger<O>, L, R>,
    seat: &mut Seat<Ledger<O>>,
    by: u16,
    place: usize,
    id: AskId,
) -> Result<(u64, Reply), Refusal>
    requires turn { turn_id turn.now ≡ R.turn }
    requires opens { Opens O.coherent O.opening O.bytes L.rows L.last_index L.coherent L.keeps }
    requires rests { IsAtRest L.last_index L.coherent L.keeps stripe.old }
    requires ready { IsReady R.turn by seat.old }
    ensures rests { IsAtRest L.last_index L.coherent L.keeps stripe.new }
    ensures same { OnOk result (seat.new ≡ seat.old) }
    ensures shown { OnErr result (HasSeen R.turn O.coherent O.opening O.bytes O.script by seat.old seat.new) }
    ensures refused { IfErr result (RefusalHolds O.coherent O.opening (seen_of seat.new) id) }
{
    for _ in rt.forever() {
        if let Some(decided) = decide_once(rt, alloc, turn, stripe, seat, by, place, id) {
            return decided;
        }
    }
    unreachable!()
}

/// Takes the turn and decides, where the Ask is there.
fn decide_once<O: Opened, L: Loaded, R: Ring, W: Wait>(
    rt: &W,
    alloc: Global,
    turn: &Turn<Ledger<O>>,
    stripe: &mut Stripe<Ledger<O>, L, R>,
    seat: &mut Seat<Ledger<O>>,
    by: u16,
    place: usize,
    id: AskId,
) -> Option<Result<(u64, Reply), Refusal>>
    requires turn { turn_id turn.now ≡ R.turn }
    requires opens { Opens O.coherent O.opening O.bytes L.rows L.last_index L.coherent L.keeps }
    requires rests { IsAtRest L.last_index L.coherent L.keeps stripe.old }
    requires ready { IsReady R.turn by seat.old }
    ensures rests { IsAtRest L.last_index L.coherent L.keeps stripe.new }
    ensures waits { result ≡ None → seat.new ≡ seat.old }
    ensures same { IfSome result (λ decided. OnOk decided (seat.new ≡ seat.old)) }
    ensures shown { IfSome result (λ decided. OnErr decided
        (HasSeen R.turn O.coherent O.opening O.bytes O.script by seat.old seat.new)) }
    ensures refused { IfSome result (λ decided.
        IfErr decided (RefusalHolds O.coherent O.opening (seen_of seat.new) id)) }
{
    let (mut ledger, held) = stripe.take(rt, turn);
    ledger.all_follow();
    let durable = ledger.durable_index();
    let decided = match draft_at(alloc, stripe, &mut ledger, place, id) {
        Ok(Some(draft)) => Some(Ok(tell(turn, stripe, ledger, held, id, draft))),
        Ok(None) => {
            stripe.give_back(turn, ledger, held);
            None
        }
        Err(refusal) => {
            stripe.show(turn, seat);
            stripe.give_back(turn, ledger, held);
            Some(Err(refusal))
        }
    };
    bring_down(stripe, durable);
    decided
}

/// Decides what an id asked at a place, with the memory that it takes to tell it. None where no Ask stands there that
/// the stripe may decide.
fn draft_at<O: Opened, L: Loaded, R: Ring>(
    alloc: Global,
    stripe: &mut Stripe<Ledger<O>, L, R>,
    ledger: &mut Ledger<O>,
    place: usize,
    id: AskId,
) -> Result<Option<Draft>, Refusal>
    requires opens { Opens O.coherent O.opening O.bytes L.rows L.last_index L.coherent L.keeps }
    requires held { IsHeld O.coherent O.opening O.bytes O.script L.rows stripe.old ledger.old.story }
    ensures same { IsDrafting stripe.old stripe.new }
    ensures story { ledger.new.story ≡ ledger.old.story }
    ensures others { (n : ℕ) → n ≢ stripe_seat stripe.old.number →
        slice_index ledger.new.rooms n ≡ slice_index ledger.old.rooms n }
    ensures draft { IfOk result (λ found. IfSome found (λ draft. IsDraft O.coherent O.opening L.rows
        stripe.new ledger.new.story id
        (slice_index ledger.new.rooms (stripe_seat stripe.new.number)) ledger.new.spare draft)) }
    ensures refused { IfErr result (RefusalHolds O.coherent O.opening ledger.old.story id) }
{
    match make(alloc, stripe, ledger, place, id)? {
        Some(made) => Ok(Some(draft(alloc, stripe, ledger, id, made)?)),
        None => Ok(None),
    }
}

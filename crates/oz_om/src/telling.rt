//! Telling a decision: the Decide, and the changes of its batch.

ghost use Rattle.std.specs.Prelude.{◌≡◌, ◌≢◌, ℕ, ◌+◌, ◌<◌, ◌≤◌, [], ◌∷◌, ◌++◌, None, length, slice_index, IsTrue, ◌↔◌};
ghost use Rattle.oz_buffer.specs.Books.{Book};
ghost use Rattle.oz_buffer.specs.Buffer.{AllFollow, Follows, IsDecide, batch_in};
ghost use Rattle.oz_cache.specs.Cache.{newest};
ghost use Rattle.oz_core.specs.declared.event.Event.{Event as AnyEvent};
ghost use Rattle.oz_core.specs.declared.event.EventKind.TheVariants as events;
ghost use Rattle.oz_core.specs.Seats.{stripe_seat};
ghost use Rattle.oz_locks.specs.Flushes.{flushed_in};
ghost use Rattle.oz_om.specs.Held.{IsDraft, IsHeld, IsTold};
ghost use Rattle.oz_om.specs.Opens.{Opens};
ghost use Rattle.oz_rows.specs.declared.key.RowKey.{RowKey as AnyKey};
ghost use Rattle.oz_turn.specs.Told.{KeepsOtherRooms};
ghost use Rattle.oz_turn.specs.Turn.{turn_id};

use crate::draft::Draft;
use crate::drafting::FIRST_STRIPE_SEAT;
use oz_buffer::{Ledger, Opened};
use oz_core::{Event, EventKind};
use oz_epochs::Steps;
use oz_locks::{Loaded, Stripe};
use oz_requests::{AskId, Reply};
use oz_turn::{Held, Ring, Told, Turn};
use std::marker::Brand;
use std::sync::ledger::{Blank, Ledger as Counting};

/// Gives the value back with the Decide, and enters what it changes. Answers the new length of the story, and the
/// reply.
pub(crate) fn tell<O: Opened, L: Loaded, R: Ring>(
    turn: &Turn<Ledger<O>>,
    stripe: &mut Stripe<Ledger<O>, L, R>,
    ledger: Ledger<O>,
    held: Held,
    id: AskId,
    draft: Draft,
) -> (u64, Reply)
    requires turn { turn_id turn.now ≡ R.turn }
    requires opens { Opens O.coherent O.opening O.bytes L.rows L.last_index L.coherent L.keeps }
    requires held { IsHeld O.coherent O.opening O.bytes O.script L.rows stripe.old ledger.story }
    requires rooms { KeepsOtherRooms (λ (l : Book) n. slice_index l.rooms n) (stripe_seat stripe.old.number)
        stripe.old.taken ledger }
    requires draft { IsDraft O.coherent O.opening L.rows stripe.old ledger.story id
        (slice_index ledger.rooms (stripe_seat stripe.old.number)) ledger.spare draft }
    ensures told { IsTold O.coherent O.opening O.bytes O.script L.rows stripe.old stripe.new }
    ensures free { stripe.new.taken ≡ None }
    ensures flushed { flushed_in L.last_index stripe.new.seen ≡ flushed_in L.last_index stripe.old.seen }
    ensures brought { stripe.new.flushed ≡ stripe.old.flushed }
{
    let seat = FIRST_STRIPE_SEAT + u16::from(stripe.number());
    let Draft {
        reply,
        told,
        batch,
        changes,
        granted,
        pins,
        index,
    } = draft;
    let is_empty = batch.is_empty();
    let kind = EventKind::Decide {
        id,
        index,
        reply,
        batch,
    };
    let mut ledger = ledger;
    decide(&mut ledger, Event { seat, kind }, is_empty);
    ledger.all_follow();
    let length = if is_empty {
        stripe.note(turn, ledger, held, &pins)
    } else {
        stripe.enter(turn, ledger, held, index, changes, granted, &pins)
    };
    (length, told)
}

/// Appends a Decide from a room of four, and gives back what it leaves of that.
fn decide<O: Opened>(ledger: &mut Ledger<O>, event: Event, is_empty: bool)
    requires seat { event.seat < 64 }
    requires decides { IsDecide event.kind }
    requires empty { IsTrue is_empty ↔ (batch_in event.kind ≡ []) }
    requires room { 4 ≤ slice_index ledger.old.rooms event.seat }
    requires spare { length (batch_in event.kind) ≤ ledger.old.spare }
    requires follows { Follows O.coherent O.opening O.bytes O.script ledger.old.story event }
    ensures story { ledger.new.story ≡ ledger.old.story ++ event ∷ [] }
    ensures room { slice_index ledger.new.rooms event.seat + 4 ≡ slice_index ledger.old.rooms event.seat }
    ensures others { (n : ℕ) → n ≢ event.seat → slice_index ledger.new.rooms n ≡ slice_index ledger.old.rooms n }
{
    let seat = event.seat;
    let left = if is_empty || ledger.has_buffered() {
        3
    } else {
        0
    };
    ledger.decide(event);
    ledger.release(seat, left);
}

/// Brings down into the tables what the story says is flushed.
pub(crate) fn bring_down<O: Opened, L: Loaded, R: Ring>(
    stripe: &mut Stripe<Ledger<O>, L, R>,
    durable: u64,
)
    requires index { durable ≡ flushed_in L.last_index stripe.old.seen }
    ensures newest { (key : AnyKey) → newest stripe.new.cache key ≡ newest stripe.old.cache key }
    ensures brought { stripe.old.flushed ≤ durable → stripe.new.flushed ≡ durable }
    ensures same { stripe.new ≡ record stripe.old { cache = stripe.new.cache; flushed = stripe.new.flushed } }
{
    if stripe.brought_down() <= durable {
        bring_down_in::<O, L, R, Brand>(stripe, durable, Blank::new(1));
    }
}

fn bring_down_in<O: Opened, L: Loaded, R: Ring, C: Counting>(
    stripe: &mut Stripe<Ledger<O>, L, R>,
    durable: u64,
    blank: Blank,
)
    requires name { blank.name ≡ C.name }
    requires parts { blank.parts ≡ C.parts }
    requires some { 0 < C.parts }
    requires index { durable ≡ flushed_in L.last_index stripe.old.seen }
    requires rises { stripe.old.flushed ≤ durable }
    ensures newest { (key : AnyKey) → newest stripe.new.cache key ≡ newest stripe.old.cache key }
    ensures same { stripe.new ≡ record stripe.old { cache = stripe.new.cache; flushed = durable } }
{
    let mut steps = Steps::<C>::start(blank);
    stripe.flushed(durable, &mut steps);
}

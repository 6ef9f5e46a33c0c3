//! The memory that it takes to tell a decision.

ghost use Rattle.std.specs.Prelude.{◌≡◌, ◌≢◌, true, ◌≤◌, ◌<◌, ℕ, ◌+◌, [], length, None, Err};
ghost use Rattle.std.specs.Prelude.{IfOk, IfErr, IfSome, OnOk, slice_index};
ghost use Rattle.oz_journal.specs.declared.batches.batches.TheConstants.{LARGEST_BUFFER, LONGEST_BATCH};
ghost use Rattle.oz_buffer.specs.Buffer.{buffer_of};
ghost use Rattle.oz_core.specs.Manager.{last_index};
ghost use Rattle.oz_core.specs.Seats.{stripe_seat};
ghost use Rattle.oz_names.specs.declared.limits.TheConstants.{STRIPES};
ghost use Rattle.oz_om.specs.Held.{IsAbove, IsDraft, IsGrantOf, IsHeld, IsMade, IsNextIndex, IsRoomier};
ghost use Rattle.oz_om.specs.Opens.{Opens};
ghost use Rattle.oz_om.specs.declared.refusal.Refusal.TheVariants as refusals;
ghost use Rattle.oz_om.specs.Refusals.{IsOfRoom, RefusalHolds};

use crate::draft::{Draft, Made};
use crate::refusal::Refusal;
use oz_buffer::{Ledger, Opened, Reserve};
use oz_core::Event;
use oz_decision::Decision;
use oz_fields::{OutOfMemory, TryClone};
use oz_locks::{Loaded, Stripe, a_pool_has_what_is_free, pins_for};
use oz_requests::AskId;
use oz_rows::END_OF_INDEXES;
use oz_turn::{Ring, Told};
use std::alloc::Global;

/// The seat of the first stripe; those of the others follow.
pub(crate) const FIRST_STRIPE_SEAT: u16 = 20;

/// Takes all memory that it takes to tell a decision, the ledger's last.
pub(crate) fn draft<O: Opened, L: Loaded, R: Ring>(
    alloc: Global,
    stripe: &mut Stripe<Ledger<O>, L, R>,
    ledger: &mut Ledger<O>,
    id: AskId,
    made: Made,
) -> Result<Draft, Refusal>
    requires opens { Opens O.coherent O.opening O.bytes L.rows L.last_index L.coherent L.keeps }
    requires held { IsHeld O.coherent O.opening O.bytes O.script L.rows stripe.old ledger.old.story }
    requires made { (place : ℕ) × IsMade L.coherent stripe.old ledger.old.story place id made.decision }
    requires quiet { made.decision.bytes ≡ [] → made.granted ≡ None }
    requires granted { IsGrantOf stripe.old.pool made.decision.reply made.granted }
    ensures same { stripe.new ≡ record stripe.old {
      cache = stripe.new.cache;
      pin_room = stripe.new.pin_room;
      reclaim = stripe.new.reclaim;
    } }
    ensures rows { IsRoomier stripe.old.cache stripe.new.cache }
    ensures story { ledger.new.story ≡ ledger.old.story }
    ensures others { (n : ℕ) → n ≢ stripe_seat stripe.old.number →
        slice_index ledger.new.rooms n ≡ slice_index ledger.old.rooms n }
    ensures draft { IfOk result (λ draft. IsDraft O.coherent O.opening L.rows stripe.new ledger.new.story id
        (slice_index ledger.new.rooms (stripe_seat stripe.new.number)) ledger.new.spare draft) }
    ensures refused { IfErr result (RefusalHolds O.coherent O.opening ledger.old.story id) }
{
    a_pool_has_what_is_free();
    let Made { decision, granted } = made;
    let Decision {
        reply,
        bytes,
        changes,
    } = decision;
    let Some(index) = next_index(stripe, ledger, bytes.is_empty()) else {
        return Err(Refusal::OutOfMemory);
    };
    let (Ok(told), Ok(pins)) = (reply.try_clone(alloc), pins_for(alloc, id, &reply)) else {
        return Err(Refusal::OutOfMemory);
    };
    let Ok(()) = stripe.reserve_pins(pins.len()) else {
        return Err(Refusal::OutOfMemory);
    };
    let Ok(changes) = stripe.prepare(alloc, changes.into_items()) else {
        return Err(Refusal::OutOfMemory);
    };
    match reserve(alloc, ledger, stripe.number(), bytes.len()) {
        Ok(()) => Ok(Draft {
            reply,
            told,
            batch: bytes,
            changes,
            granted,
            pins,
            index,
        }),
        Err(refusal) => Err(refusal),
    }
}

/// The index of a decision: the last one, or, where it changes rows, the next, which is above all that the stripe has
/// entered.
fn next_index<O: Opened, L: Loaded, R: Ring>(
    stripe: &Stripe<Ledger<O>, L, R>,
    ledger: &Ledger<O>,
    is_empty: bool,
) -> Option<u64>
    ensures { IfSome result (λ index. IsNextIndex stripe.now (last_index O.opening ledger.now.story) is_empty index) }
{
    let last = ledger.last_index();
    if is_empty {
        return Some(last);
    }
    let index = last.checked_add(1)?;
    let is_above = stripe.cached().last_epoch() < index && stripe.brought_down() < index;
    if is_above && index < END_OF_INDEXES {
        Some(index)
    } else {
        None
    }
}

/// Room in the ledger for a Decide with so many bytes.
fn reserve<O: Opened>(
    alloc: Global,
    ledger: &mut Ledger<O>,
    stripe: u8,
    bytes: usize,
) -> Result<(), Refusal>
    requires stripe { stripe < STRIPES }
    requires bytes { bytes ≤ LONGEST_BATCH }
    ensures story { ledger.new.story ≡ ledger.old.story }
    ensures others { (n : ℕ) → n ≢ stripe_seat stripe →
        slice_index ledger.new.rooms n ≡ slice_index ledger.old.rooms n }
    ensures room { OnOk result (4 ≤ slice_index ledger.new.rooms (stripe_seat stripe)) }
    ensures spare { OnOk result (bytes ≤ ledger.new.spare) }
    ensures later { (held asked : ℕ) → result ≡ Err (refusals.Later held asked) →
        (held ≡ length (buffer_of ledger.old.story)) × (asked ≡ bytes) × (LARGEST_BUFFER < held + asked) }
    ensures refused { IfErr result IsOfRoom }
{
    match ledger.reserve(alloc, FIRST_STRIPE_SEAT + u16::from(stripe), bytes as u32) {
        Ok(()) => Ok(()),
        Err(Reserve::Later { held, asked }) => Err(Refusal::Later { held, asked }),
        Err(Reserve::OutOfMemory) => Err(Refusal::OutOfMemory),
    }
}

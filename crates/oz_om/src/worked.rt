//! Whether anything of the manager's rows is left to be worked off.

ghost use Rattle.std.specs.Prelude.{◌≡◌, ◌<◌, [], Contains, false, IfOk};
ghost use Rattle.oz_buffer.specs.Buffer.{AllFollow, Follows};
ghost use Rattle.oz_core.specs.Asks.{is_told};
ghost use Rattle.oz_locks.specs.declared.pins.Pin.{Pin as AnyPin};
ghost use Rattle.oz_locks.specs.Stripe.{IsAtRest};
ghost use Rattle.oz_names.specs.declared.limits.TheConstants.{STRIPES};
ghost use Rattle.oz_om.specs.Opens.{Opens};
ghost use Rattle.oz_om.specs.Shown.{HasSeen};
ghost use Rattle.oz_om.specs.Worked.{AreAnswered, IsAnswered};
ghost use Rattle.oz_turn.specs.Seat.{IsReady, mine_of, room_of, seen_of};
ghost use Rattle.oz_turn.specs.Told.{BeginsWith};
ghost use Rattle.oz_turn.specs.Turn.{turn_id};

use crate::looking::look;
use crate::manager::Manager;
use oz_buffer::{Ledger, Opened};
use oz_fields::OutOfMemory;
use oz_locks::{Loaded, Stripe, Stripes};
use oz_names::STRIPES;
use oz_turn::{Ring, Seat, Turn};
use std::alloc::Global;
use std::sync::Wait;

impl<O: Opened, L: Loaded, R: Ring> Manager<Ledger<O>, O, L, R> {
    /// Whether all rows are worked off: what was decided is flushed, no snapshot is deleted, and no deleted row may go. Where all lines
    /// are told, so that they work on no block, each deleted row has a block in reach then. Each stripe is looked at as a story ends
    /// that the seat, whose number is `by`, sees here, up to the first of which something is left. Nothing is appended. It walks over
    /// no rows but those that changed since the last sweep, and over snapshots where one may be deleted.
    pub fn is_worked_off<W: Wait>(
        &self,
        rt: &W,
        alloc: Global,
        turn: &Turn<Ledger<O>>,
        seat: &mut Seat<Ledger<O>>,
        by: u16,
    ) -> Result<bool, OutOfMemory>
        requires turn { turn_id turn.now ≡ R.turn }
        requires ready { IsReady R.turn by seat.old }
        ensures ready { IsReady R.turn by seat.new }
        ensures room { room_of seat.new ≡ room_of seat.old }
        ensures mine { mine_of seat.new ≡ mine_of seat.old }
        ensures goes_on { BeginsWith (seen_of seat.new) (seen_of seat.old) }
        ensures answered { IfOk result (λ is_over. O.coherent → AreAnswered O.opening L.rows (seen_of seat.old) (seen_of seat.new) is_over) }
    {
        self.opens();
        for stripe in 0..STRIPES {
            let is_over = is_worked_off_in(rt, alloc, turn, &self.stripes, stripe, seat, by)?;
            if !is_over {
                return Ok(false);
            }
        }
        Ok(true)
    }
}

/// The same of one stripe.
fn is_worked_off_in<O: Opened, L: Loaded, R: Ring, W: Wait>(
    rt: &W,
    alloc: Global,
    turn: &Turn<Ledger<O>>,
    stripes: &Stripes<Ledger<O>, L, R>,
    stripe: u8,
    seat: &mut Seat<Ledger<O>>,
    by: u16,
) -> Result<bool, OutOfMemory>
    requires turn { turn_id turn.now ≡ R.turn }
    requires opens { Opens O.coherent O.opening O.bytes L.rows L.last_index L.coherent L.keeps }
    requires stripe { stripe < STRIPES }
    requires ready { IsReady R.turn by seat.old }
    ensures shown { HasSeen R.turn O.coherent O.opening O.bytes O.script by seat.old seat.new }
    ensures answered { IfOk result (λ is_over. O.coherent → IsAnswered O.opening L.rows stripe (seen_of seat.new) is_over) }
{
    let mut guard = stripes.lock(rt, stripe);
    let resting = &mut *guard;
    let Some(mut inside) = resting.take_out() else {
        unreachable!()
    };
    let is_over = is_worked_off_of(rt, alloc, turn, &mut inside, seat, by);
    resting.put_back(inside);
    is_over
}

fn is_worked_off_of<O: Opened, L: Loaded, R: Ring, W: Wait>(
    rt: &W,
    alloc: Global,
    turn: &Turn<Ledger<O>>,
    stripe: &mut Stripe<Ledger<O>, L, R>,
    seat: &mut Seat<Ledger<O>>,
    by: u16,
) -> Result<bool, OutOfMemory>
    requires turn { turn_id turn.now ≡ R.turn }
    requires opens { Opens O.coherent O.opening O.bytes L.rows L.last_index L.coherent L.keeps }
    requires rests { IsAtRest L.last_index L.coherent L.keeps stripe.old }
    requires ready { IsReady R.turn by seat.old }
    ensures rests { IsAtRest L.last_index L.coherent L.keeps stripe.new }
    ensures shown { HasSeen R.turn O.coherent O.opening O.bytes O.script by seat.old seat.new }
    ensures answered { IfOk result (λ is_over. O.coherent → IsAnswered O.opening L.rows stripe.old.number (seen_of seat.new) is_over) }
{
    look(rt, turn, stripe, seat, by);
    has_none_left(alloc, stripe)
}

/// Whether nothing is left of a stripe that has just seen the story.
fn has_none_left<O: Opened, L: Loaded, R: Ring>(
    alloc: Global,
    stripe: &mut Stripe<Ledger<O>, L, R>,
) -> Result<bool, OutOfMemory>
    requires opens { Opens O.coherent O.opening O.bytes L.rows L.last_index L.coherent L.keeps }
    requires rests { IsAtRest L.last_index L.coherent L.keeps stripe.old }
    requires follow { AllFollow (Follows O.coherent O.opening O.bytes O.script) [] stripe.old.seen }
    requires untold { (pin : AnyPin) → Contains stripe.old.pins pin → is_told pin.client pin.line stripe.old.seen ≡ false }
    ensures same { stripe.new ≡ record stripe.old { reclaim = stripe.new.reclaim } }
    ensures answered { IfOk result (λ is_over. O.coherent → IsAnswered O.opening L.rows stripe.old.number stripe.old.seen is_over) }
{
    stripe.is_kept();
    let waits = stripe.brought_down() < stripe.cached().last_epoch();
    if waits {
        return Ok(false);
    }
    let work = stripe.next_work(alloc)?;
    if work.is_some() {
        return Ok(false);
    }
    stripe.sweep(alloc)?;
    let found = stripe.found(alloc, 1)?;
    Ok(found.rows.is_empty())
}

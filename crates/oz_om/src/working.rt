//! What the manager is to do next with deleted snapshots.

ghost use Rattle.std.specs.Prelude.{◌≡◌, ◌<◌, IfOk};
ghost use Rattle.oz_buffer.specs.Buffer.{AllFollow, Follows};
ghost use Rattle.oz_locks.specs.Stripe.{IsAtRest};
ghost use Rattle.oz_names.specs.declared.limits.TheConstants.{STRIPES};
ghost use Rattle.oz_om.specs.Opens.{Opens};
ghost use Rattle.oz_om.specs.Shown.{HasSeen};
ghost use Rattle.oz_om.specs.Working.{HadWork, IsFirstWork};
ghost use Rattle.oz_turn.specs.Seat.{IsReady, mine_of, room_of, seen_of};
ghost use Rattle.oz_turn.specs.Told.{BeginsWith};
ghost use Rattle.oz_turn.specs.Turn.{turn_id};

use crate::looking::look;
use crate::manager::Manager;
use oz_buffer::{Ledger, Opened};
use oz_fields::OutOfMemory;
use oz_locks::{Loaded, Stripe, Stripes};
use oz_names::STRIPES;
use oz_requests::Request;
use oz_turn::{Ring, Seat, Turn};
use std::alloc::Global;
use std::sync::Wait;

impl<O: Opened, L: Loaded, R: Ring> Manager<Ledger<O>, O, L, R> {
    /// The request by which the first deleted snapshot of the first stripe that has one is worked off; None where no stripe has
    /// one. Each stripe is looked at as a story ends that the seat, whose number is `by`, sees here. Nothing is appended.
    pub fn chain_work<W: Wait>(
        &self,
        rt: &W,
        alloc: Global,
        turn: &Turn<Ledger<O>>,
        seat: &mut Seat<Ledger<O>>,
        by: u16,
    ) -> Result<Option<Request>, OutOfMemory>
        requires turn { turn_id turn.now ≡ R.turn }
        requires ready { IsReady R.turn by seat.old }
        ensures ready { IsReady R.turn by seat.new }
        ensures room { room_of seat.new ≡ room_of seat.old }
        ensures mine { mine_of seat.new ≡ mine_of seat.old }
        ensures goes_on { BeginsWith (seen_of seat.new) (seen_of seat.old) }
        ensures work { IfOk result (λ request. O.coherent
            → IsFirstWork O.opening L.rows (seen_of seat.old) (seen_of seat.new) request) }
    {
        self.opens();
        for stripe in 0..STRIPES {
            let work = work_in(rt, alloc, turn, &self.stripes, stripe, seat, by)?;
            if work.is_some() {
                return Ok(work);
            }
        }
        Ok(None)
    }
}

/// The request by which the first of a stripe's deleted snapshots is worked off.
fn work_in<O: Opened, L: Loaded, R: Ring, W: Wait>(
    rt: &W,
    alloc: Global,
    turn: &Turn<Ledger<O>>,
    stripes: &Stripes<Ledger<O>, L, R>,
    stripe: u8,
    seat: &mut Seat<Ledger<O>>,
    by: u16,
) -> Result<Option<Request>, OutOfMemory>
    requires turn { turn_id turn.now ≡ R.turn }
    requires opens { Opens O.coherent O.opening O.bytes L.rows L.last_index L.coherent L.keeps }
    requires stripe { stripe < STRIPES }
    requires ready { IsReady R.turn by seat.old }
    ensures shown { HasSeen R.turn O.coherent O.opening O.bytes O.script by seat.old seat.new }
    ensures work { IfOk result (λ request. O.coherent → HadWork O.opening L.rows stripe (seen_of seat.new) request) }
{
    let mut guard = stripes.lock(rt, stripe);
    let resting = &mut *guard;
    let Some(mut inside) = resting.take_out() else {
        unreachable!()
    };
    let work = work_of(rt, alloc, turn, &mut inside, seat, by);
    resting.put_back(inside);
    work
}

fn work_of<O: Opened, L: Loaded, R: Ring, W: Wait>(
    rt: &W,
    alloc: Global,
    turn: &Turn<Ledger<O>>,
    stripe: &mut Stripe<Ledger<O>, L, R>,
    seat: &mut Seat<Ledger<O>>,
    by: u16,
) -> Result<Option<Request>, OutOfMemory>
    requires turn { turn_id turn.now ≡ R.turn }
    requires opens { Opens O.coherent O.opening O.bytes L.rows L.last_index L.coherent L.keeps }
    requires rests { IsAtRest L.last_index L.coherent L.keeps stripe.old }
    requires ready { IsReady R.turn by seat.old }
    ensures rests { IsAtRest L.last_index L.coherent L.keeps stripe.new }
    ensures shown { HasSeen R.turn O.coherent O.opening O.bytes O.script by seat.old seat.new }
    ensures work { IfOk result (λ request. O.coherent
        → HadWork O.opening L.rows stripe.old.number (seen_of seat.new) request) }
{
    look(rt, turn, stripe, seat, by);
    let work = stripe.next_work(alloc)?;
    Ok(work)
}

//! What the buckets of a volume have, by the newest rows of its stripe.

ghost use Rattle.std.specs.Prelude.{◌≡◌, IfOk};
ghost use Rattle.oz_core.specs.Manager.{namespace_of};
ghost use Rattle.oz_locks.specs.Stripe.{IsAtRest};
ghost use Rattle.oz_names.specs.Names.{stripe_of};
ghost use Rattle.oz_om.specs.Opens.{Opens};
ghost use Rattle.oz_om.specs.Tallies.{tally_of};
ghost use Rattle.oz_turn.specs.Seat.{IsReady, mine_of, room_of, seen_of};
ghost use Rattle.oz_turn.specs.Told.{BeginsWith};
ghost use Rattle.oz_turn.specs.Turn.{turn_id};

use crate::looking::look;
use crate::manager::Manager;
use crate::tally::{Tally, tally_in_rows};
use oz_buffer::{Ledger, Opened};
use oz_fields::{Name, OutOfMemory};
use oz_locks::{Loaded, Stripe};
use oz_names::stripe_of;
use oz_turn::{Ring, Seat, Turn};
use std::alloc::Global;
use std::sync::Wait;

impl<O: Opened, L: Loaded, R: Ring> Manager<Ledger<O>, O, L, R> {
    /// How many keys, bytes of these and snapshots the buckets of a volume have, nothing where there is no such volume, as the story
    /// ends that the seat, whose number is `by`, sees here. Keys that a snapshot alone has don't count. Nothing is appended. Where a
    /// sum passes a `u64` it answers as for want of memory, since no memory holds so many keys.
    pub fn tally<W: Wait>(
        &self,
        rt: &W,
        alloc: Global,
        turn: &Turn<Ledger<O>>,
        seat: &mut Seat<Ledger<O>>,
        by: u16,
        volume: &Name,
    ) -> Result<Tally, OutOfMemory>
        requires turn { turn_id turn.now ≡ R.turn }
        requires ready { IsReady R.turn by seat.old }
        ensures ready { IsReady R.turn by seat.new }
        ensures room { room_of seat.new ≡ room_of seat.old }
        ensures mine { mine_of seat.new ≡ mine_of seat.old }
        ensures goes_on { BeginsWith (seen_of seat.new) (seen_of seat.old) }
        ensures tally { IfOk result (λ tally. O.coherent → tally ≡ tally_of (namespace_of O.opening (seen_of seat.new)) volume.now) }
    {
        self.opens();
        let mut guard = self.stripes.lock(rt, stripe_of(volume.bytes()));
        let resting = &mut *guard;
        let Some(mut inside) = resting.take_out() else {
            unreachable!()
        };
        look(rt, turn, &mut inside, seat, by);
        let tally = tally_of_stripe::<O, L, R>(alloc, &inside, volume);
        resting.put_back(inside);
        tally
    }
}

/// What a volume of the stripe has by its newest rows.
fn tally_of_stripe<O: Opened, L: Loaded, R: Ring>(
    alloc: Global,
    stripe: &Stripe<Ledger<O>, L, R>,
    volume: &Name,
) -> Result<Tally, OutOfMemory>
    requires opens { Opens O.coherent O.opening O.bytes L.rows L.last_index L.coherent L.keeps }
    requires rests { IsAtRest L.last_index L.coherent L.keeps stripe.now }
    requires its { stripe.now.number ≡ stripe_of volume.now }
    ensures { IfOk result (λ tally. O.coherent → tally ≡ tally_of (namespace_of O.opening stripe.now.seen) volume.now) }
{
    tally_in_rows(alloc, stripe.cached(), volume)
}

//! Seating the manager: its stripes are made of what was loaded and of their seats, and leave these again.

ghost use Rattle.std.specs.Prelude.{◌≡◌, ◌≤◌, ◌<◌, [], length, vec_capacity, IfErr};
ghost use Rattle.oz_locks.specs.Stripe.{AreInOrder};
ghost use Rattle.oz_names.specs.declared.limits.TheConstants.{STRIPES};
ghost use Rattle.oz_om.specs.Opens.{Opens};
ghost use Rattle.oz_om.specs.Seated.{AreNewStripeSeats, ArePlaced, AreReadyStripeSeats, AreUnusedStripeSeats};
ghost use Rattle.oz_om.specs.Seated.{HasStoodIn, WasKept};
ghost use Rattle.oz_om.specs.Seated.{ArePartsOf, IsNewStripeSeat, IsPartOf, IsReadyStripeSeat, IsUndecided};
ghost use Rattle.oz_om.specs.Seated.{IsUnused, caches_of};

use crate::manager::{EmptySeats, Manager};
use oz_buffer::{Ledger, Opened};
use oz_cache::Cached;
use oz_core::Event;
use oz_fields::OutOfMemory;
use oz_loaded::{Unseated, a_stripes_rows_are_sound};
use oz_locks::{Loaded, Stripe, Stripes};
use oz_names::STRIPES;
use oz_turn::{Ring, Seat, Told};
use std::alloc::Global;
use std::marker::PhantomData;
use std::sync::{Mutex, Wait};

/// The stripe of a part and a new seat.
fn stripe_over<O: Opened, L: Loaded, R: Ring>(
    alloc: Global,
    number: u8,
    part: Cached,
    seat: Seat<Ledger<O>>,
) -> Stripe<Ledger<O>, L, R>
    requires number { number < STRIPES }
    requires opens { Opens O.coherent O.opening O.bytes L.rows L.last_index L.coherent L.keeps }
    requires part { IsPartOf L.rows L.last_index number part }
    requires seat { IsNewStripeSeat R.turn number seat }
    ensures stripe { IsUndecided L.last_index L.coherent L.keeps number result }
    ensures cache { result.cache ≡ part }
{
    a_stripes_rows_are_sound();
    part.durable().rows_are_in_order();
    Stripe::make(alloc, number, part, seat)
}

/// The stripes of so many parts and new seats, in order, in a list with room for them. It takes no memory.
fn stripes_below<O: Opened, L: Loaded, R: Ring>(
    alloc: Global,
    parts: &mut Vec<Cached>,
    seats: &mut Vec<Seat<Ledger<O>>>,
    stripes: &mut Vec<Stripe<Ledger<O>, L, R>>,
    count: u8,
)
    requires few { count ≤ STRIPES }
    requires opens { Opens O.coherent O.opening O.bytes L.rows L.last_index L.coherent L.keeps }
    requires part_count { length parts.old.items ≡ count }
    requires parts { ArePlaced (IsPartOf L.rows L.last_index) parts.old.items }
    requires seat_count { length seats.old.items ≡ count }
    requires seats { ArePlaced (IsNewStripeSeat R.turn) seats.old.items }
    requires none { stripes.old.items ≡ [] }
    requires room { count ≤ vec_capacity stripes.old }
    ensures count { length stripes.new.items ≡ count }
    ensures undecided { ArePlaced (IsUndecided L.last_index L.coherent L.keeps) stripes.new.items }
    ensures caches { caches_of stripes.new.items ≡ parts.old.items }
    ensures no_parts { parts.new.items ≡ [] }
    ensures no_seats { seats.new.items ≡ [] }
    ensures part_room { vec_capacity parts.new ≡ vec_capacity parts.old }
    ensures seat_room { vec_capacity seats.new ≡ vec_capacity seats.old }
    ensures room { vec_capacity stripes.new ≡ vec_capacity stripes.old }
{
    if count == 0 {
        return;
    }
    let Some(part) = parts.pop() else {
        unreachable!()
    };
    let Some(seat) = seats.pop() else {
        unreachable!()
    };
    let stripe = stripe_over(alloc, count - 1, part, seat);
    stripes_below(alloc, parts, seats, stripes, count - 1);
    stripes.push_reserved(stripe);
}

/// The parts and the seats of so many stripes that have decided nothing, in order, in lists with room for them. It
/// takes no memory.
fn unseated_below<T: Told<Entry = Event>, L: Loaded, R: Ring>(
    stripes: &mut Vec<Stripe<T, L, R>>,
    parts: &mut Vec<Cached>,
    seats: &mut Vec<Seat<T>>,
    count: u8,
)
    requires count { length stripes.old.items ≡ count }
    requires undecided { ArePlaced (IsUndecided L.last_index L.coherent L.keeps) stripes.old.items }
    requires no_parts { parts.old.items ≡ [] }
    requires no_seats { seats.old.items ≡ [] }
    requires part_room { count ≤ vec_capacity parts.old }
    requires seat_room { count ≤ vec_capacity seats.old }
    ensures part_count { length parts.new.items ≡ count }
    ensures parts { parts.new.items ≡ caches_of stripes.old.items }
    ensures seat_count { length seats.new.items ≡ count }
    ensures seats { ArePlaced (IsUnused R.turn) seats.new.items }
    ensures part_room { vec_capacity parts.new ≡ vec_capacity parts.old }
    ensures seat_room { vec_capacity seats.new ≡ vec_capacity seats.old }
{
    if count == 0 {
        return;
    }
    let Some(stripe) = stripes.pop() else {
        unreachable!()
    };
    let (part, seat) = stripe.into_parts();
    unseated_below(stripes, parts, seats, count - 1);
    parts.push_reserved(part);
    seats.push_reserved(seat);
}

/// The seats of so many stripes, in order, in a list with room for them. It takes no memory.
fn seats_below<T: Told<Entry = Event>, L: Loaded, R: Ring>(
    stripes: &mut Vec<Stripe<T, L, R>>,
    seats: &mut Vec<Seat<T>>,
    count: u8,
)
    requires count { length stripes.old.items ≡ count }
    requires in_order { AreInOrder L.last_index L.coherent L.keeps stripes.old.items }
    requires none { seats.old.items ≡ [] }
    requires room { count ≤ vec_capacity seats.old }
    ensures count { length seats.new.items ≡ count }
    ensures ready { ArePlaced (IsReadyStripeSeat R.turn) seats.new.items }
    ensures kept { ArePlaced (WasKept L.keeps) seats.new.items }
    ensures room { vec_capacity seats.new ≡ vec_capacity seats.old }
{
    if count == 0 {
        return;
    }
    let Some(stripe) = stripes.pop() else {
        unreachable!()
    };
    let (_, seat) = stripe.into_parts();
    seats_below(stripes, seats, count - 1);
    seats.push_reserved(seat);
}

impl<O: Opened, L: Loaded, R: Ring> Manager<Ledger<O>, O, L, R> {
    /// The manager of what was loaded, with the seats of its stripes. Where memory runs out, what was loaded comes
    /// back, and the seats come back unused.
    pub fn seat(
        alloc: Global,
        unseated: Unseated,
        mut seats: Vec<Seat<Ledger<O>>>,
    ) -> Result<Manager<Ledger<O>, O, L, R>, (Unseated, Vec<Seat<Ledger<O>>>, OutOfMemory)>
        requires opens { Opens O.coherent O.opening O.bytes L.rows L.last_index L.coherent L.keeps }
        requires parts { ArePartsOf L.rows L.last_index unseated.parts }
        requires seats { AreNewStripeSeats R.turn seats.items }
        ensures unseated { IfErr result (λ error. error.0 ≡ unseated) }
        ensures seats { IfErr result (λ error. AreUnusedStripeSeats R.turn error.1.items) }
    {
        let Ok(mut stripes) = Vec::with_capacity(alloc, usize::from(STRIPES)) else {
            return Err((unseated, seats, OutOfMemory));
        };
        let (mut parts, counted) = unseated.into_parts();
        stripes_below(alloc, &mut parts, &mut seats, &mut stripes, STRIPES);
        match Stripes::make(alloc, stripes) {
            Ok(stripes) => Ok(Manager {
                stripes,
                seats: Mutex::new(EmptySeats { seats }),
                of: PhantomData,
            }),
            Err((mut stripes, error)) => {
                unseated_below(&mut stripes, &mut parts, &mut seats, STRIPES);
                Err((Unseated::from_parts(parts, counted), seats, error))
            }
        }
    }

    /// The seats of the stripes, in order, in the list that they came in. It takes no memory.
    pub fn into_seats<W: Wait>(self, rt: &W) -> Vec<Seat<Ledger<O>>>
        ensures ready { AreReadyStripeSeats R.turn result.items }
        ensures stood { O.coherent → ArePlaced (HasStoodIn O.opening L.rows) result.items }
    {
        self.opens();
        let Manager {
            stripes,
            seats,
            of: _,
        } = self;
        let EmptySeats { mut seats } = seats.into_inner();
        let mut stripes = stripes.into_parts(rt);
        seats_below(&mut stripes, &mut seats, STRIPES);
        seats
    }

    /// What was loaded is what the run has opened. It does nothing when it runs.
    pub fn opens(&self)
        ensures { Opens O.coherent O.opening O.bytes L.rows L.last_index L.coherent L.keeps }
    {
        let _stripes = &self.stripes;
    }

    /// The stripes, each behind its lock.
    pub fn stripes(&self) -> &Stripes<Ledger<O>, L, R> {
        &self.stripes
    }
}

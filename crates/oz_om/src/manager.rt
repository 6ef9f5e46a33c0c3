//! The manager with its seats.

ghost use Rattle.std.specs.Prelude.{◌≡◌, ◌≤◌, [], vec_capacity};
ghost use Rattle.oz_names.specs.declared.limits.TheConstants.{STRIPES};

use oz_buffer::Opened;
use oz_core::Event;
use oz_locks::{Loaded, Stripes};
use oz_turn::{Ring, Seat, Told};
use std::marker::{Model, PhantomData};
use std::sync::Mutex;

/// The rows of the manager's disk in sixteen stripes, each behind a lock of its own with its seat of the turn. `T` is
/// what the turn holds, `O` what the run has opened, `L` what was loaded from the manager's disk, and `R` the turn.
#[derive(Drop)]
pub struct Manager<T: Told<Entry = Event>, O: Opened, L: Loaded, R: Ring> {
    pub(crate) stripes: Stripes<T, L, R>,
    pub(crate) seats: Mutex<EmptySeats<T>>,
    pub(crate) of: PhantomData<O>,
}

/// Nothing is seen of a manager but that what was loaded is what the run has opened.
impl<T: Told<Entry = Event>, O: Opened, L: Loaded, R: Ring> Model for Manager<T, O, L, R> {
    ghost use Rattle.oz_om.specs.Opens.{Opens};

    ghost Value = { Unit {0} };

    ghost view = { λ manager. tt };

    ghost invariant = { λ manager. Opens O.coherent O.opening O.bytes L.rows L.last_index L.coherent L.keeps };
}

/// The list that the seats came in, empty, for when they leave. It is locked, since two threads may not look at a list
/// of seats at once.
#[derive(Drop)]
pub(crate) struct EmptySeats<T: Told<Entry = Event>> {
    pub(crate) seats: Vec<Seat<T>>,
    pub(crate) ghost empty: { seats.items ≡ [] },
    pub(crate) ghost room: { STRIPES ≤ vec_capacity seats },
}

//! Who takes which seat of a turn.

ghost use Rattle.std.specs.Prelude.{◌≡◌, ◌≤◌, ◌+◌, [], length, vec_capacity, vec_len, IfOk, OnOk};
ghost use Rattle.oz_core.specs.Seats.{caller_seat, datanode_seat, first_worker_seat, flusher_seat, scm_seat, service_seat};
ghost use Rattle.oz_nodes.specs.declared.nodes.TheConstants.{MOST_NODES};
ghost use Rattle.oz_headline.specs.Seated.{AreNewStripeSeats, ArePlaced};
ghost use Rattle.oz_running.specs.Seats.{AreNewFrom};
ghost use Rattle.oz_turn.specs.Seat.{AreNewSeats, IsNewSeat};

use oz_core::Event;
use oz_fields::OutOfMemory;
use oz_turn::{Ring, Seat, Told};

/// The first seat of the workers.
pub(crate) const FIRST_WORKER_SEAT: u16 = 36;

// The first seats of the stripes and of the datanodes, and the seats before those.
const FIRST_STRIPE_SEAT: usize = 20;

const FIRST_DATANODE_SEAT: usize = 4;

const SCM_SEAT: usize = 3;

const CALLER_SEAT: usize = 2;

const SERVICE_SEAT: usize = 1;

/// The seats of a run, by who takes them.
#[derive(Drop)]
pub(crate) struct Parted<T: Told<Entry = Event>> {
    pub(crate) flusher: Seat<T>,
    pub(crate) service: Seat<T>,
    pub(crate) caller: Seat<T>,
    pub(crate) scm: Seat<T>,
    pub(crate) nodes: Vec<Seat<T>>,
    /// Of datanodes that aren't there.
    pub(crate) absent: Vec<Seat<T>>,
    pub(crate) stripes: Vec<Seat<T>>,
    pub(crate) workers: Vec<Seat<T>>,
}

/// The seats leave their list, by who takes them, where there are so many datanodes.
pub(crate) fn parted_seats<T: Told<Entry = Event>, R: Ring>(
    seats: &mut Vec<Seat<T>>,
    count: u8,
) -> Result<Parted<T>, OutOfMemory>
    requires many { first_worker_seat ≤ vec_len seats.old }
    requires new { AreNewSeats R.turn seats.old.items }
    requires most { count ≤ MOST_NODES }
    ensures flusher { IfOk result (λ parted. IsNewSeat R.turn flusher_seat parted.flusher) }
    ensures service { IfOk result (λ parted. IsNewSeat R.turn service_seat parted.service) }
    ensures caller { IfOk result (λ parted. IsNewSeat R.turn caller_seat parted.caller) }
    ensures scm { IfOk result (λ parted. IsNewSeat R.turn scm_seat parted.scm) }
    ensures node_count { IfOk result (λ parted. vec_len parted.nodes ≡ count) }
    ensures nodes { IfOk result (λ parted. ArePlaced (λ dn s. IsNewSeat R.turn (datanode_seat dn) s)
        parted.nodes.items) }
    ensures absent_count { IfOk result (λ parted. count + vec_len parted.absent ≡ MOST_NODES) }
    ensures absent { IfOk result (λ parted. AreNewFrom R.turn (datanode_seat count) parted.absent.items) }
    ensures stripes { IfOk result (λ parted. AreNewStripeSeats R.turn parted.stripes.items) }
    ensures worker_count { IfOk result (λ parted. first_worker_seat + vec_len parted.workers ≡ vec_len seats.old) }
    ensures workers { IfOk result (λ parted. AreNewFrom R.turn first_worker_seat parted.workers.items) }
    ensures none { OnOk result (seats.new.items ≡ []) }
    ensures room { vec_capacity seats.new ≡ vec_capacity seats.old }
{
    let workers = seats_from::<T, R>(seats, usize::from(FIRST_WORKER_SEAT))?;
    let stripes = seats_from::<T, R>(seats, FIRST_STRIPE_SEAT)?;
    let absent = seats_from::<T, R>(seats, FIRST_DATANODE_SEAT + usize::from(count))?;
    let nodes = seats_from::<T, R>(seats, FIRST_DATANODE_SEAT)?;
    let scm = last_seat::<T, R>(seats, SCM_SEAT);
    let caller = last_seat::<T, R>(seats, CALLER_SEAT);
    let service = last_seat::<T, R>(seats, SERVICE_SEAT);
    let Some(flusher) = seats.pop() else {
        unreachable!()
    };
    Ok(Parted {
        flusher,
        service,
        caller,
        scm,
        nodes,
        absent,
        stripes,
        workers,
    })
}

/// The seats from a number on leave.
fn seats_from<T: Told<Entry = Event>, R: Ring>(
    seats: &mut Vec<Seat<T>>,
    first: usize,
) -> Result<Vec<Seat<T>>, OutOfMemory>
    requires many { first ≤ vec_len seats.old }
    requires new { AreNewSeats R.turn seats.old.items }
    ensures count { OnOk result (vec_len seats.new ≡ first) }
    ensures rest_count { IfOk result (λ rest. first + vec_len rest ≡ vec_len seats.old) }
    ensures new { OnOk result (AreNewSeats R.turn seats.new.items) }
    ensures rest { IfOk result (λ rest. AreNewFrom R.turn first rest.items) }
    ensures room { vec_capacity seats.new ≡ vec_capacity seats.old }
{
    seats.split_off(first)
}

/// The last seat leaves, which has this number.
fn last_seat<T: Told<Entry = Event>, R: Ring>(seats: &mut Vec<Seat<T>>, number: usize) -> Seat<T>
    requires count { vec_len seats.old ≡ number + 1 }
    requires new { AreNewSeats R.turn seats.old.items }
    ensures seat { IsNewSeat R.turn number result }
    ensures count { vec_len seats.new ≡ number }
    ensures new { AreNewSeats R.turn seats.new.items }
    ensures room { vec_capacity seats.new ≡ vec_capacity seats.old }
{
    let Some(seat) = seats.pop() else {
        unreachable!()
    };
    seat
}

//! A manager over an empty disk, its flusher, and who asks, each with its seat of the turn.

ghost use Rattle.std.specs.Prelude.{◌≡◌, ◌≤◌, ◌<◌, ◌+◌, None, vec_len, IfOk, OnOk};
ghost use Rattle.oz_om.specs.Seated.{ArePartsOf, AreNewStripeSeats};
ghost use Rattle.oz_turn.specs.Seat.{AreNewSeats, IsReady};
ghost use Rattle.oz_turn.specs.Turn.{turn_id};

use oz_buffer::{Ledger, Opened};
use oz_flusher::Flusher;
use oz_loaded::{Unseated, load};
use oz_locks::Loaded;
use oz_om::Manager;
use oz_turn::{Ring, Seat, Turn, new_seats_are_ready};
use oz_world::{Gate, MemoryDisk};
use std::alloc::Global;
use std::marker::PhantomData;
use std::sync::Wait;
use std::test::Fail;

/// An opening of which nothing is asked.
pub struct AnyOpening;

impl Opened for AnyOpening {
    ghost use Rattle.std.specs.Prelude.{[], None};
    ghost use Rattle.oz_buffer.specs.Openings.{no_opening, no_script};

    ghost opening = { no_opening };

    ghost bodies = { [] };

    ghost bytes = { λ dn block. None };

    ghost faults = { λ node. 0 };

    ghost script = { no_script };

    ghost coherent = { ⊥ };
}

/// A disk without rows.
pub struct NoRows;

impl Loaded for NoRows {
    ghost use Rattle.std.specs.Prelude.{None};
    ghost use Rattle.oz_buffer.specs.Openings.{no_opening};
    ghost use Rattle.oz_om.specs.Keeps.{KeepsRows};

    ghost rows = { λ key. None };

    ghost last_index = { 0 };

    ghost coherent = { ⊥ };

    ghost keeps = { KeepsRows ⊥ no_opening (λ key. None) };
}

pub type Book = Ledger<AnyOpening>;

pub type Office<R> = Manager<Book, AnyOpening, NoRows, R>;

/// A flusher with its seat.
#[derive(Drop)]
pub struct Desk<R: Ring> {
    flusher: Flusher<MemoryDisk>,
    seat: Seat<Book>,
    of: PhantomData<R>,
    ghost ready: { IsReady R.turn 0 seat },
}

/// Who asks, from a seat behind those of the stripes.
#[derive(Drop)]
pub struct Worker<R: Ring> {
    pub seat: Seat<Book>,
    pub number: u16,
    of: PhantomData<R>,
    ghost ready: { IsReady R.turn number seat },
    ghost worker: { (36 ≤ number) × (number < 64) },
}

/// A turn of an empty story, and its seats: 36 up to those of the sixteen stripes, and then those of workers.
pub fn made(alloc: Global, seats: u16) -> Result<(Turn<Book>, Vec<Seat<Book>>), Fail>
    requires some { 1 ≤ seats }
    requires few { seats ≤ 64 }
    ensures count { IfOk result (λ r. vec_len r.1 ≡ seats) }
    ensures new { IfOk result (λ r. AreNewSeats (turn_id r.0) r.1.items) }
{
    match Turn::make(alloc, Book::over(alloc, 0), seats) {
        Ok(made) => Ok(made),
        Err((_, error)) => Err(error.into()),
    }
}

/// What is loaded of an empty disk.
fn loaded(alloc: Global) -> Result<(Unseated, Flusher<MemoryDisk>), Fail>
    ensures { IfOk result (λ r. ArePartsOf (λ key. None) 0 r.0.parts) }
{
    let disk = MemoryDisk::new(alloc, Vec::new(alloc), Vec::new(alloc), 16_384)?;
    match load(alloc, disk) {
        Ok(loaded) => Ok(loaded),
        Err(_) => Err("a disk".into()),
    }
}

/// The seats of the stripes, which are the last, leave.
fn stripe_seats<R: Ring>(seats: &mut Vec<Seat<Book>>) -> Result<Vec<Seat<Book>>, Fail>
    requires count { vec_len seats.old ≡ 36 }
    requires new { AreNewSeats R.turn seats.old.items }
    ensures count { OnOk result (vec_len seats.new ≡ 20) }
    ensures new { OnOk result (AreNewSeats R.turn seats.new.items) }
    ensures stripes { IfOk result (λ stripes. AreNewStripeSeats R.turn stripes.items) }
{
    Ok(seats.split_off(20)?)
}

/// Who asks from the last seat.
pub fn last_worker<R: Ring>(seats: &mut Vec<Seat<Book>>) -> Result<Worker<R>, Fail>
    requires some { 37 ≤ vec_len seats.old }
    requires few { vec_len seats.old ≤ 64 }
    requires new { AreNewSeats R.turn seats.old.items }
    ensures count { OnOk result (vec_len seats.new + 1 ≡ vec_len seats.old) }
    ensures new { OnOk result (AreNewSeats R.turn seats.new.items) }
{
    new_seats_are_ready::<Book>();
    let Some(seat) = seats.pop() else {
        return Err("a seat".into());
    };
    Ok(Worker {
        seat,
        number: seats.len() as u16,
        of: PhantomData,
    })
}

/// The flusher's seat, which is the first of all.
fn first_seat<R: Ring>(mut seats: Vec<Seat<Book>>) -> Seat<Book>
    requires some { 1 ≤ vec_len seats }
    requires new { AreNewSeats R.turn seats.items }
    ensures { IsReady R.turn 0 result }
{
    new_seats_are_ready::<Book>();
    seats.swap_remove(0)
}

/// The flusher with its seat.
fn desk_of<R: Ring>(flusher: Flusher<MemoryDisk>, seats: Vec<Seat<Book>>) -> Desk<R>
    requires some { 1 ≤ vec_len seats }
    requires new { AreNewSeats R.turn seats.items }
{
    let seat = first_seat::<R>(seats);
    Desk {
        flusher,
        seat,
        of: PhantomData,
    }
}

/// The manager of what was loaded.
fn seated<R: Ring>(
    alloc: Global,
    unseated: Unseated,
    seats: Vec<Seat<Book>>,
) -> Result<Office<R>, Fail>
    requires parts { ArePartsOf (λ key. None) 0 unseated.parts }
    requires seats { AreNewStripeSeats R.turn seats.items }
{
    match Manager::seat(alloc, unseated, seats) {
        Ok(manager) => Ok(manager),
        Err((_, _, error)) => Err(error.into()),
    }
}

/// The manager of an empty disk, and its flusher.
pub fn opened<R: Ring>(
    alloc: Global,
    mut seats: Vec<Seat<Book>>,
) -> Result<(Office<R>, Desk<R>), Fail>
    requires count { vec_len seats ≡ 36 }
    requires new { AreNewSeats R.turn seats.items }
{
    let stripes = stripe_seats::<R>(&mut seats)?;
    let (unseated, flusher) = loaded(alloc)?;
    let office = seated::<R>(alloc, unseated, stripes)?;
    Ok((office, desk_of::<R>(flusher, seats)))
}

/// Flushes once, and says whether the disk took it.
pub fn flushes<R: Ring, W: Wait, G: Gate>(
    rt: &W,
    turn: &Turn<Book>,
    desk: &mut Desk<R>,
    gate: &G,
) -> bool
    requires turn { turn_id turn.now ≡ R.turn }
{
    if desk.flusher.stopped() {
        return false;
    }
    desk.flusher
        .flush_once(rt, turn, &mut desk.seat, gate)
        .is_ok()
}

//! Sixteen stripes, of which two are locked at once.

ghost use Rattle.std.specs.Prelude.{◌≡◌, ◌≤◌, ◌<◌, ◌+◌, vec_len, length, IfOk, IfSome};
ghost use Rattle.beside_tests.specs.Stripes.{AreNoMore, IsNew};
ghost use Rattle.oz_core.specs.Seats.{stripe_seat};
ghost use Rattle.oz_locks.specs.Stripe.{AreInOrder};
ghost use Rattle.oz_turn.specs.Seat.{AreNewSeats};
ghost use Rattle.oz_turn.specs.Turn.{turn_id};

use crate::book::{Book, holds, made};
use oz_cache::Cached;
use oz_locks::{Loaded, Stripe, Stripes, stripes_stay_in_order};
use oz_tables::Tables;
use oz_turn::{Ring, Seat, Turn, new_seats_are_ready};
use std::alloc::Global;
use std::marker::Brand;
use std::process::Abort;
use std::sync::atomic::{AtomicBool, Ordering};
use std::sync::{Barrier, Wait};
use std::test::Fail;
use std::thread::{Threads, join, yield_now};

/// A disk without rows, which agrees with all others.
#[derive(Drop)]
struct NoRows;

impl Loaded for NoRows {
    ghost use Rattle.std.specs.Prelude.{None};
    ghost use Rattle.beside_tests.specs.Stripes.{AreNoMore};

    ghost rows = { λ key. None };

    ghost last_index = { 0 };

    ghost coherent = { Unit {0} };

    ghost keeps = { AreNoMore };
}

type OneStripe<R> = Stripe<Book, NoRows, R>;

/// How many seats a turn has where those of the stripes are the last.
const ALL_SEATS: u16 = 36;

/// The stripe whose seat is the last.
fn last_stripe<R: Ring>(
    alloc: Global,
    seats: &mut Vec<Seat<Book>>,
    number: u8,
) -> Option<OneStripe<R>>
    requires number { number < 16 }
    requires count { vec_len seats.old ≡ stripe_seat number + 1 }
    requires new { AreNewSeats R.turn seats.old.items }
    ensures stripe { IfSome result (λ stripe. IsNew number stripe) }
    ensures count { IfSome result (λ stripe. vec_len seats.new ≡ stripe_seat number) }
    ensures new { IfSome result (λ stripe. AreNewSeats R.turn seats.new.items) }
{
    new_seats_are_ready::<Book>();
    let seat = seats.pop()?;
    let cached = Cached::over(alloc, Tables::new(alloc));
    Some(Stripe::make(alloc, number, cached, seat))
}

/// So many stripes, in order.
fn stripes_below<R: Ring>(
    alloc: Global,
    seats: &mut Vec<Seat<Book>>,
    count: u8,
) -> Result<Vec<OneStripe<R>>, Fail>
    requires few { count ≤ 16 }
    requires count { vec_len seats.old ≡ stripe_seat count }
    requires new { AreNewSeats R.turn seats.old.items }
    ensures count { IfOk result (λ stripes. length stripes.items ≡ count) }
    ensures in_order { IfOk result (λ stripes. AreInOrder 0 (Unit {0}) AreNoMore stripes.items) }
{
    if count == 0 {
        return Ok(Vec::new(alloc));
    }
    stripes_stay_in_order::<Book, NoRows>();
    let Some(stripe) = last_stripe::<R>(alloc, seats, count - 1) else {
        return Err("a seat".into());
    };
    let mut stripes = stripes_below::<R>(alloc, seats, count - 1)?;
    stripes.push(stripe)?;
    Ok(stripes)
}

/// Sixteen stripes, each behind its lock.
fn locked<R: Ring>(
    alloc: Global,
    mut seats: Vec<Seat<Book>>,
) -> Result<Stripes<Book, NoRows, R>, Fail>
    requires count { vec_len seats ≡ 36 }
    requires new { AreNewSeats R.turn seats.items }
{
    let parts = stripes_below::<R>(alloc, &mut seats, 16)?;
    match Stripes::make(alloc, parts) {
        Ok(stripes) => Ok(stripes),
        Err((_, error)) => Err(error.into()),
    }
}

/// How often the holder looks whether the other thread is done.
const MOST_TURNS: u32 = 1_000_000;

/// Holds the lock of stripe 2 until another thread is done, and says whether it was within the turns.
fn hold<R: Ring, W: Wait>(
    rt: &W,
    stripes: &Stripes<Book, NoRows, R>,
    held: &Barrier,
    done: &AtomicBool,
) -> bool {
    let _guard = stripes.lock(rt, 2);
    let _ = held.wait(rt);
    for _ in 0..MOST_TURNS {
        if done.load(Ordering::SeqCst) {
            return true;
        }
        yield_now();
    }
    false
}

/// Takes the lock of stripe 3 and gives it back, once that of stripe 2 is held.
fn pass<R: Ring, W: Wait>(
    rt: &W,
    stripes: &Stripes<Book, NoRows, R>,
    held: &Barrier,
    done: &AtomicBool,
) -> Option<u8> {
    let _ = held.wait(rt);
    let number = stripes.lock(rt, 3).number();
    done.store(true, Ordering::SeqCst);
    number
}

fn both<R: Ring + Send + Sync, W: Threads + Wait + Sync>(
    rt: &W,
    stripes: &Stripes<Book, NoRows, R>,
    held: &Barrier,
    done: &AtomicBool,
) -> (bool, Option<u8>) {
    join(
        rt,
        || -> bool { hold(rt, stripes, held, done) },
        || -> Option<u8> { pass(rt, stripes, held, done) },
    )
}

/// One stripe of a turn's seats is held while another is locked.
fn hold_beside<R: Ring + Send + Sync, W: Threads + Wait + Abort + Sync>(
    rt: &W,
    alloc: Global,
    _turn: &Turn<Book>,
    seats: Vec<Seat<Book>>,
) -> Result<(), Fail>
    requires turn { turn_id _turn.now ≡ R.turn }
    requires count { vec_len seats ≡ 36 }
    requires new { AreNewSeats R.turn seats.items }
{
    let stripes = locked::<R>(alloc, seats)?;
    let (within, number) = both(rt, &stripes, &Barrier::new(2), &AtomicBool::new(false));
    holds(rt, number == Some(3), "the other stripe");
    holds(rt, within, "taken and given back within the turns");
    holds(rt, stripes.into_parts(rt).len() == 16, "all leave");
    Ok(())
}

#[test]
fn a_stripe_is_locked_while_another_is_held(rt: HostRuntime) -> Result<(), Fail> {
    let (turn, seats) = made(rt.alloc(), ALL_SEATS)?;
    hold_beside::<Brand, _>(&rt, rt.alloc(), &turn, seats)
}

//! Two threads at one turn.

ghost use Rattle.std.specs.Prelude.{◌≡◌, ◌<◌};
ghost use Rattle.oz_turn.specs.Seat.{IsReady};
ghost use Rattle.oz_turn.specs.Turn.{turn_id};

use crate::book::{Book, decides, holds, story_of, two_seats};
use oz_core::{Event, EventKind};
use oz_turn::{Seat, Turn};
use std::alloc::Global;
use std::process::Abort;
use std::sync::atomic::{AtomicBool, Ordering};
use std::sync::{Barrier, Wait};
use std::test::Fail;
use std::thread::{Threads, join, sleep};
use std::time::{Clock, Duration};

/// How often each thread decides.
const EACH: u64 = 1_000;

fn decide_many<R: Wait>(
    rt: &R,
    alloc: Global,
    turn: &Turn<Book>,
    mut seat: Seat<Book>,
    number: u16,
) -> Seat<Book>
    requires number { number < 64 }
    requires ready { IsReady (turn_id turn.now) number seat }
    ensures { IsReady (turn_id turn.now) number result }
{
    for index in 0..EACH {
        let _ = decides(rt, alloc, turn, &mut seat, number, index);
    }
    seat
}

fn both_decide<R: Threads + Wait + Sync>(
    rt: &R,
    alloc: Global,
    turn: &Turn<Book>,
    one: Seat<Book>,
    two: Seat<Book>,
) -> (Seat<Book>, Seat<Book>)
    requires one { IsReady (turn_id turn.now) 0 one }
    requires two { IsReady (turn_id turn.now) 1 two }
    ensures one { IsReady (turn_id turn.now) 0 result.0 }
    ensures two { IsReady (turn_id turn.now) 1 result.1 }
{
    join(
        rt,
        move || -> Seat<Book>
            requires { IsReady (turn_id turn.now) 0 one }
            ensures { IsReady (turn_id turn.entry.now) 0 result }
        { decide_many(rt, alloc, turn, one, 0) },
        move || -> Seat<Book>
            requires { IsReady (turn_id turn.now) 1 two }
            ensures { IsReady (turn_id turn.entry.now) 1 result }
        { decide_many(rt, alloc, turn, two, 1) },
    )
}

/// How often a seat decided: its indexes count up from 0.
fn times_decided(rt: &impl Abort, story: &[Event], seat: u16) -> u64 {
    let mut times = 0u64;
    for event in story {
        if event.seat == seat {
            holds(rt, has_index(&event.kind, times), "in its order");
            times = times.wrapping_add(1);
        }
    }
    times
}

fn has_index(kind: &EventKind, wanted: u64) -> bool {
    match kind {
        EventKind::Decide { index, .. } => *index == wanted,
        _ => false,
    }
}

#[test]
fn two_threads_decide_a_thousand_times_each(rt: HostRuntime) -> Result<(), Fail> {
    let (turn, one, two) = two_seats(rt.alloc())?;
    let (one, two) = both_decide(&rt, rt.alloc(), &turn, one, two);
    let story = story_of(rt.alloc(), turn, one, two)?;
    holds(&rt, story.len() == 2_000, "all stand");
    holds(
        &rt,
        times_decided(&rt, &story, 0) == EACH,
        "those of the first",
    );
    holds(
        &rt,
        times_decided(&rt, &story, 1) == EACH,
        "those of the second",
    );
    Ok(())
}

/// How many milliseconds the ledger is held while another seat waits: enough for that seat's thread to fall asleep.
const HELD_FOR: u64 = 300;

/// Tells that it has taken the ledger, and holds it for a while.
fn hold<R: Wait + Clock>(
    rt: &R,
    turn: &Turn<Book>,
    mut seat: Seat<Book>,
    taken: &Barrier,
    given: &AtomicBool,
) -> Seat<Book>
    requires { IsReady (turn_id turn.now) 0 seat }
    ensures { IsReady (turn_id turn.now) 0 result }
{
    let (ledger, held) = turn.take(rt, &mut seat);
    let _ = taken.wait(rt);
    sleep(rt, Duration::from_millis(HELD_FOR));
    given.store(true, Ordering::SeqCst);
    turn.give_back(&mut seat, ledger, held);
    seat
}

/// Takes the ledger once another seat has it, and says whether that one was about to give it back.
fn take_behind<R: Wait>(
    rt: &R,
    turn: &Turn<Book>,
    mut seat: Seat<Book>,
    taken: &Barrier,
    given: &AtomicBool,
) -> (Seat<Book>, bool)
    requires { IsReady (turn_id turn.now) 1 seat }
    ensures { IsReady (turn_id turn.now) 1 result.0 }
{
    let _ = taken.wait(rt);
    let (ledger, held) = turn.take(rt, &mut seat);
    let behind = given.load(Ordering::SeqCst);
    turn.give_back(&mut seat, ledger, held);
    (seat, behind)
}

/// One thread takes the ledger behind the other.
fn one_behind_the_other<R: Threads + Wait + Clock + Sync>(
    rt: &R,
    turn: &Turn<Book>,
    one: Seat<Book>,
    two: Seat<Book>,
    taken: &Barrier,
    given: &AtomicBool,
) -> bool
    requires one { IsReady (turn_id turn.now) 0 one }
    requires two { IsReady (turn_id turn.now) 1 two }
{
    let (_one, two) = join(
        rt,
        move || -> Seat<Book>
            requires { IsReady (turn_id turn.now) 0 one }
        { hold(rt, turn, one, taken, given) },
        move || -> (Seat<Book>, bool)
            requires { IsReady (turn_id turn.now) 1 two }
        { take_behind(rt, turn, two, taken, given) },
    );
    two.1
}

#[test]
fn a_seat_sleeps_until_the_ledger_is_given_back(rt: HostRuntime) -> Result<(), Fail> {
    let (turn, one, two) = two_seats(rt.alloc())?;
    let (taken, given) = (Barrier::new(2), AtomicBool::new(false));
    let behind = one_behind_the_other(&rt, &turn, one, two, &taken, &given);
    holds(&rt, behind, "not before");
    Ok(())
}

//! A ledger, a turn of it, and what seats decide.

ghost use Rattle.std.specs.Prelude.{◌≡◌, ◌≤◌, ◌<◌, ◌+◌, vec_len, IfOk, IfSome, OnSome, OnOk};
ghost use Rattle.oz_buffer.specs.Buffer.{IsDecide, batch_in};
ghost use Rattle.oz_turn.specs.Seat.{IsReady, AreReady, AreNewSeats};
ghost use Rattle.oz_turn.specs.Turn.{turn_id, seats_of};

use oz_buffer::{Ledger, Opened, a_reserve_is_room_enough};
use oz_core::{Event, EventKind};
use oz_fields::List;
use oz_requests::{AskId, Reply};
use oz_turn::{Seat, Turn, new_seats_are_ready, ready_seats_may_close, seats_stay_ready};
use std::alloc::{AllocError, Global};
use std::process::Abort;
use std::sync::Wait;
use std::test::Fail;

/// An opening of which nothing is asked.
pub struct AnyOpening;

impl Opened for AnyOpening {
    ghost use Rattle.std.specs.Prelude.{[], None};
    ghost use Rattle.oz_buffer.specs.Openings.{no_opening, no_script};

    ghost opening = { no_opening };

    ghost bodies = { [] };

    ghost bytes = { λ dn block. None };

    ghost faults = { λ node. 0 };

    ghost script = { no_script };

    ghost coherent = { ⊥ };
}

pub type Book = Ledger<AnyOpening>;

pub fn holds(rt: &impl Abort, it: bool, what: &str) {
    assert!(rt; it, "{what}");
}

/// The first ask of a client is decided, with this batch.
pub fn decide_of(seat: u16, index: u64, batch: Vec<u8>) -> Event
    ensures seat { result.seat ≡ seat }
    ensures kind { IsDecide result.kind }
    ensures batch { batch_in result.kind ≡ batch.items }
{
    Event {
        seat,
        kind: EventKind::Decide {
            id: AskId {
                client: 1,
                line: 1,
                step: 1,
            },
            index,
            reply: Reply::Done,
            batch: List::of(batch),
        },
    }
}

/// A turn of an empty ledger.
pub fn made(alloc: Global, seats: u16) -> Result<(Turn<Book>, Vec<Seat<Book>>), Fail>
    requires { (1 ≤ seats) × (seats ≤ 64) }
    ensures seats { IfOk result (λ r. (seats_of r.0 ≡ seats) × (vec_len r.1 ≡ seats)) }
    ensures new { IfOk result (λ r. AreNewSeats (turn_id r.0) r.1.items) }
{
    match Turn::make(alloc, Book::over(alloc, 0), seats) {
        Ok(made) => Ok(made),
        Err((_, error)) => Err(error.into()),
    }
}

fn pop_last(turn: &Turn<Book>, seats: &mut Vec<Seat<Book>>) -> Option<Seat<Book>>
    requires { AreReady (turn_id turn.now) seats.old.items }
    ensures seat { IfSome result (λ s. IsReady (turn_id turn.now) (vec_len seats.new) s) }
    ensures count { OnSome result (vec_len seats.new + 1 ≡ vec_len seats.old) }
    ensures rest { AreReady (turn_id turn.now) seats.new.items }
{
    seats_stay_ready::<Book>();
    seats.pop()
}

fn push_next(
    turn: &Turn<Book>,
    seats: &mut Vec<Seat<Book>>,
    seat: Seat<Book>,
) -> Result<(), AllocError>
    requires seats { AreReady (turn_id turn.now) seats.old.items }
    requires seat { IsReady (turn_id turn.now) (vec_len seats.old) seat }
    ensures seats { OnOk result (AreReady (turn_id turn.now) seats.new.items) }
    ensures count { OnOk result (vec_len seats.new ≡ vec_len seats.old + 1) }
{
    seats_stay_ready::<Book>();
    seats.push(seat)?;
    Ok(())
}

/// A turn of two seats.
pub fn two_seats(alloc: Global) -> Result<(Turn<Book>, Seat<Book>, Seat<Book>), Fail>
    ensures count { IfOk result (λ r. seats_of r.0 ≡ 2) }
    ensures one { IfOk result (λ r. IsReady (turn_id r.0) 0 r.1) }
    ensures two { IfOk result (λ r. IsReady (turn_id r.0) 1 r.2) }
{
    new_seats_are_ready::<Book>();
    let (turn, mut seats) = made(alloc, 2)?;
    let Some(two) = pop_last(&turn, &mut seats) else {
        return Err("a second seat".into());
    };
    let Some(one) = pop_last(&turn, &mut seats) else {
        return Err("a first seat".into());
    };
    Ok((turn, one, two))
}

/// The story at the end of a turn of two seats.
pub fn story_of(
    alloc: Global,
    turn: Turn<Book>,
    one: Seat<Book>,
    two: Seat<Book>,
) -> Result<Vec<Event>, AllocError>
    requires count { seats_of turn ≡ 2 }
    requires one { IsReady (turn_id turn) 0 one }
    requires two { IsReady (turn_id turn) 1 two }
{
    let seats = both_seats(alloc, &turn, one, two)?;
    Ok(ended(turn, seats))
}

fn both_seats(
    alloc: Global,
    turn: &Turn<Book>,
    one: Seat<Book>,
    two: Seat<Book>,
) -> Result<Vec<Seat<Book>>, AllocError>
    requires one { IsReady (turn_id turn.now) 0 one }
    requires two { IsReady (turn_id turn.now) 1 two }
    ensures count { IfOk result (λ seats. vec_len seats ≡ 2) }
    ensures ready { IfOk result (λ seats. AreReady (turn_id turn.now) seats.items) }
{
    let mut seats = Vec::new(alloc);
    push_next(turn, &mut seats, one)?;
    push_next(turn, &mut seats, two)?;
    Ok(seats)
}

fn ended(turn: Turn<Book>, seats: Vec<Seat<Book>>) -> Vec<Event>
    requires seats { vec_len seats ≡ seats_of turn }
    requires ready { AreReady (turn_id turn) seats.items }
{
    ready_seats_may_close::<Book>();
    turn.close(seats).into_story()
}

/// Whether a seat decides, with a batch of one byte.
pub fn decides<R: Wait>(
    rt: &R,
    alloc: Global,
    turn: &Turn<Book>,
    seat: &mut Seat<Book>,
    number: u16,
    index: u64,
) -> bool
    requires number { number < 64 }
    requires ready { IsReady (turn_id turn.now) number seat.old }
    ensures { IsReady (turn_id turn.now) number seat.new }
{
    a_reserve_is_room_enough();
    let Ok(batch) = one_byte(alloc, (index % 256) as u8) else {
        return false;
    };
    let (mut ledger, held) = turn.take(rt, seat);
    if ledger.reserve(alloc, number, 1).is_err() {
        turn.give_back(seat, ledger, held);
        return false;
    }
    ledger.decide(decide_of(number, index, batch));
    turn.give(seat, ledger, held);
    true
}

fn one_byte(alloc: Global, byte: u8) -> Result<Vec<u8>, AllocError>
    ensures { IfOk result (λ batch. vec_len batch ≡ 1) }
{
    vec![in alloc; byte; 1]
}

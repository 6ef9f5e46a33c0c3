//! A request that isn't decided, for causes that no run meets.

ghost use Rattle.std.specs.Prelude.{◌≡◌, vec_len};
ghost use Rattle.oz_turn.specs.Seat.{AreNewSeats};
ghost use Rattle.oz_turn.specs.Turn.{turn_id};

use crate::book::holds;
use crate::om_beside::request;
use crate::om_store::{Book, Office, Worker, last_worker, made, opened};
use oz_om::Refusal;
use oz_requests::AskId;
use oz_turn::{Ring, Seat, Turn};
use std::alloc::Global;
use std::marker::Brand;
use std::process::Abort;
use std::sync::Wait;
use std::test::Fail;

/// The first line of the worker's client asks for a volume, where the worker takes so much for said of its blocks. Answers why it isn't
/// made, and nothing where it is.
fn refusal<R: Ring, W: Wait>(
    rt: &W,
    alloc: Global,
    turn: &Turn<Book>,
    office: &Office<R>,
    worker: &mut Worker<R>,
    said: u64,
) -> Option<Refusal>
    requires turn { turn_id turn.now ≡ R.turn }
{
    let Ok(request) = request(alloc, b"vol1") else {
        return Some(Refusal::OutOfMemory);
    };
    let (by, seat) = (worker.number, &mut worker.seat);
    let id = AskId {
        client: by,
        line: 1,
        step: 1,
    };
    match office.ask(rt, alloc, turn, seat, by, id, request, said) {
        Ok(_reply) => None,
        Err(refusal) => Some(refusal),
    }
}

/// Who knows of more than was said asks nothing, and what was decided isn't decided again.
fn refuse<R: Ring, W: Wait + Abort>(
    rt: &W,
    alloc: Global,
    turn: &Turn<Book>,
    mut seats: Vec<Seat<Book>>,
) -> Result<(), Fail>
    requires turn { turn_id turn.now ≡ R.turn }
    requires count { vec_len seats ≡ 37 }
    requires new { AreNewSeats R.turn seats.items }
{
    let mut worker = last_worker::<R>(&mut seats)?;
    let (office, _desk) = opened::<R>(alloc, seats)?;
    let other = refusal(rt, alloc, turn, &office, &mut worker, 1);
    holds(rt, other == Some(Refusal::OtherBlocks), "nothing was said");
    let made = refusal(rt, alloc, turn, &office, &mut worker, 0);
    holds(rt, made.is_none(), "a volume");
    let again = refusal(rt, alloc, turn, &office, &mut worker, 0);
    holds(rt, again == Some(Refusal::Early), "it was decided");
    Ok(())
}

#[test]
fn who_asks_again_or_knows_of_more_is_refused(rt: HostRuntime) -> Result<(), Fail> {
    let (turn, seats) = made(rt.alloc(), 37)?;
    refuse::<Brand, _>(&rt, rt.alloc(), &turn, seats)
}

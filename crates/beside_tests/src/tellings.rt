//! Lines that are told, or aren't, for each cause that no run meets.

ghost use Rattle.std.specs.Prelude.{◌≡◌, vec_len, IfOk};
ghost use Rattle.oz_turn.specs.Seat.{AreReady};
ghost use Rattle.oz_turn.specs.Turn.{turn_id};

use crate::book::{Book, decides, holds, made};
use crate::flushes::flusher;
use oz_asker::{
    AskFault, Settlement, Still, Untold, Unwritten, put_ask, settle_line, story_length, tell,
    tell_written, times_said,
};
use oz_fields::{Block, Name};
use oz_flusher::Flusher;
use oz_requests::{Answer, AskId, Request, Values};
use oz_turn::{Seat, Turn, new_seats_are_ready, seats_stay_ready};
use oz_world::{MemoryDisk, OpenGate};
use std::alloc::Global;
use std::process::Abort;
use std::sync::Wait;
use std::test::Fail;

/// A turn of an empty ledger, and seats for the flusher, who decides, and who asks and is told.
fn three_seats(alloc: Global) -> Result<(Turn<Book>, Vec<Seat<Book>>), Fail>
    ensures seats { IfOk result (λ r. vec_len r.1 ≡ 3) }
    ensures ready { IfOk result (λ r. AreReady (turn_id r.0) r.1.items) }
{
    new_seats_are_ready::<Book>();
    made(alloc, 3)
}

/// The first ask of a line of the client 1.
fn first_id(line: u16) -> AskId
    ensures { result.client ≡ 1 }
{
    AskId {
        client: 1,
        line,
        step: 1,
    }
}

/// Flushes once, and says whether the disk took it.
fn flush<R: Wait>(
    rt: &R,
    turn: &Turn<Book>,
    seats: &mut Vec<Seat<Book>>,
    flusher: &mut Flusher<MemoryDisk>,
) -> bool
    requires count { vec_len seats.old ≡ 3 }
    requires ready { AreReady (turn_id turn.now) seats.old.items }
    ensures count { vec_len seats.new ≡ 3 }
    ensures ready { AreReady (turn_id turn.now) seats.new.items }
{
    seats_stay_ready::<Book>();
    if flusher.stopped() {
        return false;
    }
    flusher
        .flush_once(rt, turn, &mut seats[0], &OpenGate)
        .is_ok()
}

/// The first line asks for a volume, where its worker takes so much for said of its blocks.
fn asks<R: Wait>(
    rt: &R,
    alloc: Global,
    turn: &Turn<Book>,
    seats: &mut Vec<Seat<Book>>,
    said: u64,
) -> Result<(), AskFault>
    requires count { vec_len seats.old ≡ 3 }
    requires ready { AreReady (turn_id turn.now) seats.old.items }
    ensures count { vec_len seats.new ≡ 3 }
    ensures ready { AreReady (turn_id turn.now) seats.new.items }
{
    seats_stay_ready::<Book>();
    let Ok(volume) = Name::copy(alloc, b"vol") else {
        return Err(AskFault::OutOfMemory);
    };
    let (id, request) = (first_id(1), Request::CreateVolume { volume });
    match put_ask(rt, alloc, turn, &mut seats[2], 2, id, request, said) {
        Ok(_place) => Ok(()),
        Err(fault) => Err(fault),
    }
}

/// Its worker says that a block is written for a line, where it takes so much for said of its blocks.
fn say_wrote<R: Wait>(
    rt: &R,
    alloc: Global,
    turn: &Turn<Book>,
    seats: &mut Vec<Seat<Book>>,
    line: u16,
    said: u64,
) -> Result<(), Unwritten>
    requires count { vec_len seats.old ≡ 3 }
    requires ready { AreReady (turn_id turn.now) seats.old.items }
    ensures count { vec_len seats.new ≡ 3 }
    ensures ready { AreReady (turn_id turn.now) seats.new.items }
{
    seats_stay_ready::<Book>();
    let block = Block {
        container: 1,
        local: 1,
    };
    let id = first_id(line);
    tell_written(rt, alloc, turn, &mut seats[2], 2, id, block, said)
}

/// What a line's worker takes for what it asked last, and for how often something was said of its blocks.
#[derive(Clone, Copy)]
struct Known {
    line: u16,
    last: Option<AskId>,
    said: u64,
}

/// What is known of the first line, which asked once.
fn asked_once(said: u64) -> Known {
    Known {
        line: 1,
        last: Some(first_id(1)),
        said,
    }
}

/// A line of which so much is known is told this.
fn told<R: Wait>(
    rt: &R,
    alloc: Global,
    turn: &Turn<Book>,
    seats: &mut Vec<Seat<Book>>,
    known: Known,
    answer: Answer,
) -> Result<(), Untold>
    requires count { vec_len seats.old ≡ 3 }
    requires ready { AreReady (turn_id turn.now) seats.old.items }
    ensures count { vec_len seats.new ≡ 3 }
    ensures ready { AreReady (turn_id turn.now) seats.new.items }
{
    seats_stay_ready::<Book>();
    let Known { line, last, said } = known;
    match tell(
        rt,
        alloc,
        turn,
        &mut seats[2],
        2,
        1,
        line,
        last,
        said,
        &[],
        answer,
    ) {
        Ok(()) => Ok(()),
        Err((_answer, cause)) => Err(cause),
    }
}

/// What stands of the first line, which asked once.
fn settled<R: Wait>(rt: &R, turn: &Turn<Book>, seats: &mut Vec<Seat<Book>>) -> Settlement
    requires count { vec_len seats.old ≡ 3 }
    requires ready { AreReady (turn_id turn.now) seats.old.items }
    ensures count { vec_len seats.new ≡ 3 }
    ensures ready { AreReady (turn_id turn.now) seats.new.items }
{
    seats_stay_ready::<Book>();
    settle_line(rt, turn, &mut seats[2], 2, 1, 1, Some(first_id(1)))
}

/// How often something was said of the first line's blocks.
fn said<R: Wait>(rt: &R, turn: &Turn<Book>, seats: &mut Vec<Seat<Book>>) -> u64
    requires count { vec_len seats.old ≡ 3 }
    requires ready { AreReady (turn_id turn.now) seats.old.items }
    ensures count { vec_len seats.new ≡ 3 }
    ensures ready { AreReady (turn_id turn.now) seats.new.items }
{
    seats_stay_ready::<Book>();
    times_said(rt, turn, &mut seats[2], 2, 1, 1)
}

/// A line that asked nothing is told, while a seat stands still.
fn told_while<R: Wait>(
    rt: &R,
    alloc: Global,
    turn: &Turn<Book>,
    seats: &mut Vec<Seat<Book>>,
    line: u16,
    still: Still,
) -> Result<(), Untold>
    requires count { vec_len seats.old ≡ 3 }
    requires ready { AreReady (turn_id turn.now) seats.old.items }
    ensures count { vec_len seats.new ≡ 3 }
    ensures ready { AreReady (turn_id turn.now) seats.new.items }
{
    seats_stay_ready::<Book>();
    let (stills, answer) = ([still], Answer::OutOfMemory);
    match tell(
        rt,
        alloc,
        turn,
        &mut seats[2],
        2,
        1,
        line,
        None,
        0,
        &stills,
        answer,
    ) {
        Ok(()) => Ok(()),
        Err((_answer, cause)) => Err(cause),
    }
}

/// How long the story is.
fn length<R: Wait>(rt: &R, turn: &Turn<Book>, seats: &mut Vec<Seat<Book>>) -> u64
    requires count { vec_len seats.old ≡ 3 }
    requires ready { AreReady (turn_id turn.now) seats.old.items }
    ensures count { vec_len seats.new ≡ 3 }
    ensures ready { AreReady (turn_id turn.now) seats.new.items }
{
    seats_stay_ready::<Book>();
    story_length(rt, turn, &mut seats[2], 2)
}

fn done() -> Answer {
    Answer::Ok(Values::Done)
}

/// The first line asks, and is decided with the index 1.
fn begin<R: Wait + Abort>(rt: &R, alloc: Global, turn: &Turn<Book>, seats: &mut Vec<Seat<Book>>)
    requires count { vec_len seats.old ≡ 3 }
    requires ready { AreReady (turn_id turn.now) seats.old.items }
    ensures count { vec_len seats.new ≡ 3 }
    ensures ready { AreReady (turn_id turn.now) seats.new.items }
{
    seats_stay_ready::<Book>();
    holds(rt, asks(rt, alloc, turn, seats, 0).is_ok(), "it asks");
    let decided = decides(rt, alloc, turn, &mut seats[1], 1, 1);
    holds(rt, decided, "it is decided");
}

#[test]
fn a_line_is_told_once_and_behind_its_flush(rt: HostRuntime) -> Result<(), Fail> {
    let alloc = rt.alloc();
    let (turn, mut seats) = three_seats(alloc)?;
    let mut flusher = flusher(alloc)?;
    begin(&rt, alloc, &turn, &mut seats);
    let waits = settled(&rt, &turn, &mut seats);
    holds(&rt, waits == Settlement::Waits, "not flushed");
    let known = asked_once(0);
    let early = told(&rt, alloc, &turn, &mut seats, known, done());
    holds(&rt, early == Err(Untold::Unstable), "so it isn't told");
    holds(&rt, flush(&rt, &turn, &mut seats, &mut flusher), "a flush");
    let stable = settled(&rt, &turn, &mut seats);
    holds(&rt, stable == Settlement::Stable, "flushed");
    let nothing = Known {
        last: None,
        ..known
    };
    let other = told(&rt, alloc, &turn, &mut seats, nothing, done());
    holds(&rt, other == Err(Untold::OtherAsk), "it asked something");
    let lost = Answer::Unacknowledged;
    let early = told(&rt, alloc, &turn, &mut seats, known, lost);
    holds(&rt, early == Err(Untold::NotDue), "no halt");
    let it = told(&rt, alloc, &turn, &mut seats, known, done());
    holds(&rt, it.is_ok(), "told");
    let again = told(&rt, alloc, &turn, &mut seats, known, done());
    holds(&rt, again == Err(Untold::Told), "once");
    Ok(())
}

#[test]
fn who_knows_another_count_neither_asks_nor_is_told(rt: HostRuntime) -> Result<(), Fail> {
    let alloc = rt.alloc();
    let (turn, mut seats) = three_seats(alloc)?;
    let wrote = say_wrote(&rt, alloc, &turn, &mut seats, 1, 0);
    holds(&rt, wrote.is_ok(), "written");
    holds(&rt, said(&rt, &turn, &mut seats) == 1, "said once");
    let wrote = say_wrote(&rt, alloc, &turn, &mut seats, 1, 0);
    holds(&rt, wrote == Err(Unwritten::OtherBlocks), "not written");
    let asked = asks(&rt, alloc, &turn, &mut seats, 0);
    holds(&rt, asked == Err(AskFault::OtherBlocks), "not asked");
    holds(&rt, asks(&rt, alloc, &turn, &mut seats, 1).is_ok(), "asked");
    let asked = asks(&rt, alloc, &turn, &mut seats, 0);
    holds(&rt, asked == Err(AskFault::OtherBlocks), "its ask stands");
    holds(
        &rt,
        asks(&rt, alloc, &turn, &mut seats, 1).is_ok(),
        "undecided",
    );
    let memory = Answer::OutOfMemory;
    let other = told(&rt, alloc, &turn, &mut seats, asked_once(0), memory);
    holds(&rt, other == Err(Untold::OtherBlocks), "not told");
    let memory = Answer::OutOfMemory;
    let it = told(&rt, alloc, &turn, &mut seats, asked_once(1), memory);
    holds(
        &rt,
        it.is_ok(),
        "want of memory is told though nothing is decided",
    );
    Ok(())
}

#[test]
fn a_line_is_told_while_a_seat_stands_still(rt: HostRuntime) -> Result<(), Fail> {
    let alloc = rt.alloc();
    let (turn, mut seats) = three_seats(alloc)?;
    let wrote = say_wrote(&rt, alloc, &turn, &mut seats, 2, 0);
    holds(&rt, wrote.is_ok(), "written");
    let place = length(&rt, &turn, &mut seats);
    holds(&rt, place == 1, "one event");
    let before = Still::Seat { seat: 2, place: 0 };
    let moved = told_while(&rt, alloc, &turn, &mut seats, 1, before);
    holds(&rt, moved == Err(Untold::Moved), "it gave one since");
    let since = Still::Seat { seat: 2, place };
    let it = told_while(&rt, alloc, &turn, &mut seats, 1, since);
    holds(&rt, it.is_ok(), "and none behind it");
    let other = Still::Seat { seat: 1, place: 0 };
    let it = told_while(&rt, alloc, &turn, &mut seats, 3, other);
    holds(&rt, it.is_ok(), "another gave none");
    Ok(())
}

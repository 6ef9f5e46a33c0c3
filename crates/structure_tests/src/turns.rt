//! A turn by one thread: what seats add, see and are shown.

ghost use Rattle.std.specs.Prelude.{◌≡◌, ◌+◌, ◌≤◌, ◌<◌, length, vec_len, IfOk, OnOk, IfSome, OnSome};
ghost use Rattle.oz_turn.specs.Seat.{IsReady, AreReady};
ghost use Rattle.oz_turn.specs.Turn.{turn_id, seats_of};

use oz_turn::{Seat, Told, Turn, new_seats_are_ready, ready_seats_may_close, seats_stay_ready};
use std::alloc::{AllocError as OutOfMemory, Global};
use std::process::Abort;
use std::sync::Wait;
use std::test::Fail;

#[derive(Clone, Copy, PartialEq, Eq, Debug)]
struct Note {
    seat: u64,
    text: u64,
}

/// Notes that seats add, with a room for the seat 0.
#[derive(Drop)]
struct Notes {
    list: Vec<Note>,
    room: u64,
}

impl Told for Notes {
    ghost use Rattle.structure_tests.specs.Notes.{room_of_first};

    type Entry = Note;

    ghost entries = { λ s. s.list.items };

    ghost seat_of = { λ e. e.seat };

    ghost room = { λ s. room_of_first s.room };

    fn entries(&self) -> &[Note] {
        self.list.as_slice()
    }

    fn copy(_alloc: Global, entry: &Note) -> Result<Note, OutOfMemory> {
        Ok(*entry)
    }
}

fn holds(rt: &impl Abort, it: bool, what: &str) {
    assert!(rt; it, "{what}");
}

fn made(alloc: Global, seats: u16) -> Result<(Turn<Notes>, Vec<Seat<Notes>>), Fail>
    requires { (1 ≤ seats) × (seats ≤ 64) }
    ensures seats { IfOk result (λ r. (seats_of r.0 ≡ seats) × (vec_len r.1 ≡ seats)) }
    ensures ready { IfOk result (λ r. AreReady (turn_id r.0) r.1.items) }
{
    let notes = Notes {
        list: Vec::new(alloc),
        room: 0,
    };
    match Turn::make(alloc, notes, seats) {
        Ok(made) => {
            new_seats_are_ready::<Notes>();
            Ok(made)
        }
        Err((_, error)) => Err(error.into()),
    }
}

fn pop_last(turn: &Turn<Notes>, seats: &mut Vec<Seat<Notes>>) -> Option<Seat<Notes>>
    requires { AreReady (turn_id turn.now) seats.old.items }
    ensures seat { IfSome result (λ s. IsReady (turn_id turn.now) (vec_len seats.new) s) }
    ensures count { OnSome result (vec_len seats.new + 1 ≡ vec_len seats.old) }
    ensures rest { AreReady (turn_id turn.now) seats.new.items }
{
    seats_stay_ready::<Notes>();
    seats.pop()
}

fn push_next(
    turn: &Turn<Notes>,
    seats: &mut Vec<Seat<Notes>>,
    seat: Seat<Notes>,
) -> Result<(), OutOfMemory>
    requires seats { AreReady (turn_id turn.now) seats.old.items }
    requires seat { IsReady (turn_id turn.now) (vec_len seats.old) seat }
    ensures seats { OnOk result (AreReady (turn_id turn.now) seats.new.items) }
    ensures count { OnOk result (vec_len seats.new ≡ vec_len seats.old + 1) }
{
    seats_stay_ready::<Notes>();
    seats.push(seat)?;
    Ok(())
}

fn ended(turn: Turn<Notes>, seats: Vec<Seat<Notes>>) -> Notes
    requires seats { vec_len seats ≡ seats_of turn }
    requires ready { AreReady (turn_id turn) seats.items }
{
    ready_seats_may_close::<Notes>();
    turn.close(seats)
}

/// How many notes there are once the seat has added one.
fn add<R: Wait>(
    rt: &R,
    turn: &Turn<Notes>,
    seat: &mut Seat<Notes>,
    number: u64,
    text: u64,
) -> Option<u64>
    requires { IsReady (turn_id turn.now) number seat.old }
    ensures { IsReady (turn_id turn.now) number seat.new }
{
    let (mut notes, held) = turn.take(rt, seat);
    match notes.list.push(Note { seat: number, text }) {
        Ok(()) => Some(turn.give(seat, notes, held)),
        Err(_) => {
            turn.give_back(seat, notes, held);
            None
        }
    }
}

/// The room of the seat 0 before it is changed.
fn change_room<R: Wait>(rt: &R, turn: &Turn<Notes>, seat: &mut Seat<Notes>, room: u64) -> u64
    requires { IsReady (turn_id turn.now) 0 seat.old }
    ensures { IsReady (turn_id turn.now) 0 seat.new }
{
    let (mut notes, held) = turn.take(rt, seat);
    let before = notes.room;
    notes.room = room;
    turn.give_back(seat, notes, held);
    before
}

/// While the seat 0 has the value, the seat 1 is shown its list, with so many notes.
fn show_beside<R: Wait>(
    rt: &R,
    turn: &Turn<Notes>,
    holder: &mut Seat<Notes>,
    other: &mut Seat<Notes>,
) -> usize
    requires holder { IsReady (turn_id turn.now) 0 holder.old }
    requires other { IsReady (turn_id turn.now) 1 other.old }
    ensures holder { IsReady (turn_id turn.now) 0 holder.new }
    ensures other { IsReady (turn_id turn.now) 1 other.new }
{
    let (notes, held) = turn.take(rt, holder);
    turn.show(holder, other);
    let count = notes.list.len();
    turn.give_back(holder, notes, held);
    count
}

/// What two seats add.
const NOTES: [Note; 3] = [
    Note { seat: 0, text: 5 },
    Note { seat: 1, text: 6 },
    Note { seat: 0, text: 7 },
];

/// Two seats add three notes in turn.
fn two_add<R: Wait + Abort>(
    rt: &R,
    turn: &Turn<Notes>,
    one: &mut Seat<Notes>,
    two: &mut Seat<Notes>,
)
    requires one { IsReady (turn_id turn.now) 0 one.old }
    requires two { IsReady (turn_id turn.now) 1 two.old }
    ensures one { IsReady (turn_id turn.now) 0 one.new }
    ensures two { IsReady (turn_id turn.now) 1 two.new }
{
    holds(rt, add(rt, turn, one, 0, 5) == Some(1), "the first note");
    holds(rt, show_beside(rt, turn, one, two) == 1, "it is shown");
    holds(
        rt,
        add(rt, turn, two, 1, 6) == Some(2),
        "by who was shown it",
    );
    holds(rt, change_room(rt, turn, one, 7) == 0, "a room is changed");
    holds(rt, change_room(rt, turn, one, 9) == 7, "and once more");
    holds(rt, add(rt, turn, one, 0, 7) == Some(3), "the last note");
}

/// So many notes from a place on.
fn seen_from<R: Wait>(
    rt: &R,
    alloc: Global,
    turn: &Turn<Notes>,
    seat: &mut Seat<Notes>,
    first: u64,
) -> Result<usize, OutOfMemory>
    requires { IsReady (turn_id turn.now) 1 seat.old }
    ensures { IsReady (turn_id turn.now) 1 seat.new }
{
    let seen = turn.look(rt, alloc, seat, first)?;
    Ok(seen.len())
}

#[test]
fn two_seats_add_see_and_are_shown(rt: HostRuntime) -> Result<(), Fail> {
    let alloc = rt.alloc();
    let (turn, mut seats) = made(alloc, 2)?;
    let Some(mut two) = pop_last(&turn, &mut seats) else {
        return Err("a second seat".into());
    };
    let Some(mut one) = pop_last(&turn, &mut seats) else {
        return Err("a first seat".into());
    };
    two_add(&rt, &turn, &mut one, &mut two);
    let all = seen_from(&rt, alloc, &turn, &mut two, 0)?;
    let last = seen_from(&rt, alloc, &turn, &mut two, 2)?;
    let behind = seen_from(&rt, alloc, &turn, &mut two, 3)?;
    let far = seen_from(&rt, alloc, &turn, &mut two, u64::MAX)?;
    holds(
        &rt,
        [all, last, behind, far] == [3, 1, 0, 0],
        "what a look finds",
    );
    push_next(&turn, &mut seats, one)?;
    push_next(&turn, &mut seats, two)?;
    let notes = ended(turn, seats);
    holds(&rt, notes.list.as_slice() == NOTES.as_slice(), "all notes");
    holds(&rt, notes.room == 9, "its room");
    Ok(())
}

/// Each of 64 seats adds a note.
fn add_round<R: Wait>(rt: &R, turn: &Turn<Notes>, seats: &mut Vec<Seat<Notes>>) -> Option<u64>
    requires count { vec_len seats.old ≡ 64 }
    requires ready { AreReady (turn_id turn.now) seats.old.items }
    ensures count { vec_len seats.new ≡ 64 }
    ensures ready { AreReady (turn_id turn.now) seats.new.items }
{
    let mut last = None;
    for n in 0..64usize {
        last = add_at(rt, turn, seats, n);
    }
    last
}

fn add_at<R: Wait>(
    rt: &R,
    turn: &Turn<Notes>,
    seats: &mut Vec<Seat<Notes>>,
    n: usize,
) -> Option<u64>
    requires within { n < vec_len seats.old }
    requires ready { AreReady (turn_id turn.now) seats.old.items }
    ensures count { vec_len seats.new ≡ vec_len seats.old }
    ensures ready { AreReady (turn_id turn.now) seats.new.items }
{
    seats_stay_ready::<Notes>();
    add(rt, turn, &mut seats[n], n as u64, 1)
}

#[test]
fn sixty_four_seats_add_a_note_each(rt: HostRuntime) -> Result<(), Fail> {
    let (turn, mut seats) = made(rt.alloc(), 64)?;
    holds(
        &rt,
        add_round(&rt, &turn, &mut seats) == Some(64),
        "all add",
    );
    let notes = ended(turn, seats);
    let last = Note { seat: 63, text: 1 };
    holds(&rt, notes.list.last() == Some(&last), "in turn");
    Ok(())
}

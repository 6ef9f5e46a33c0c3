//! What is decided while the flusher is at its gate, and what it writes.

ghost use Rattle.std.specs.Prelude.{◌≡◌, false, not, IfOk};
ghost use Rattle.oz_turn.specs.Seat.{IsReady};
ghost use Rattle.oz_turn.specs.Turn.{turn_id};

use crate::book::{Book, decides, holds, story_of, two_seats};
use oz_buffer::Ready;
use oz_core::{Event, EventKind};
use oz_flusher::Flusher;
use oz_journal::Journal;
use oz_turn::{Seat, Turn};
use oz_world::{Gate, MemoryDisk, OpenGate, Point};
use std::alloc::Global;
use std::process::Abort;
use std::sync::{Barrier, Wait};
use std::test::Fail;
use std::thread::{Threads, join};

/// A gate at which the flusher waits until another thread has decided.
#[derive(Drop)]
struct WaitingGate {
    reached: Barrier,
    decided: Barrier,
}

impl Gate for WaitingGate {
    fn pass<R: Wait>(&self, rt: &R, _point: Point, _who: u16) {
        let _ = self.reached.wait(rt);
        let _ = self.decided.wait(rt);
    }
}

/// A flusher over an empty disk in memory.
pub fn flusher(alloc: Global) -> Result<Flusher<MemoryDisk>, Fail>
    ensures { IfOk result (λ flusher. flusher.stopped ≡ false) }
{
    let disk = MemoryDisk::new(alloc, Vec::new(alloc), Vec::new(alloc), 1000)?;
    match Journal::load(alloc, disk) {
        Ok((journal, _)) => Ok(Flusher::new(journal, Ready::new(alloc))),
        Err(_) => Err("a journal".into()),
    }
}

/// Flushes at a gate, and then with none.
fn flush_twice<R: Wait>(
    rt: &R,
    turn: &Turn<Book>,
    mut seat: Seat<Book>,
    mut flusher: Flusher<MemoryDisk>,
    gate: &WaitingGate,
) -> (Seat<Book>, Flusher<MemoryDisk>)
    requires seat { IsReady (turn_id turn.now) 0 seat }
    requires running { flusher.stopped ≡ false }
    ensures { IsReady (turn_id turn.now) 0 result.0 }
{
    if flusher.flush_once(rt, turn, &mut seat, gate).is_ok() {
        let _ = flusher.flush_once(rt, turn, &mut seat, &OpenGate);
    }
    (seat, flusher)
}

/// Decides twice while the flusher is at the gate.
fn decide_beside<R: Wait>(
    rt: &R,
    alloc: Global,
    turn: &Turn<Book>,
    mut seat: Seat<Book>,
    gate: &WaitingGate,
) -> Seat<Book>
    requires { IsReady (turn_id turn.now) 1 seat }
    ensures { IsReady (turn_id turn.now) 1 result }
{
    let _ = gate.reached.wait(rt);
    let _ = decides(rt, alloc, turn, &mut seat, 1, 2);
    let _ = decides(rt, alloc, turn, &mut seat, 1, 3);
    let _ = gate.decided.wait(rt);
    seat
}

fn both<R: Threads + Wait + Sync>(
    rt: &R,
    alloc: Global,
    turn: &Turn<Book>,
    one: Seat<Book>,
    two: Seat<Book>,
    flusher: Flusher<MemoryDisk>,
    gate: &WaitingGate,
) -> ((Seat<Book>, Flusher<MemoryDisk>), Seat<Book>)
    requires one { IsReady (turn_id turn.now) 0 one }
    requires two { IsReady (turn_id turn.now) 1 two }
    requires running { flusher.stopped ≡ false }
    ensures one { IsReady (turn_id turn.now) 0 result.0.0 }
    ensures two { IsReady (turn_id turn.now) 1 result.1 }
{
    join(
        rt,
        move || -> (Seat<Book>, Flusher<MemoryDisk>)
            requires seat { IsReady (turn_id turn.now) 0 one }
            requires running { flusher.stopped ≡ false }
            ensures { IsReady (turn_id turn.entry.now) 0 result.0 }
        { flush_twice(rt, turn, one, flusher, gate) },
        move || -> Seat<Book>
            requires { IsReady (turn_id turn.now) 1 two }
            ensures { IsReady (turn_id turn.entry.now) 1 result }
        { decide_beside(rt, alloc, turn, two, gate) },
    )
}

/// The letter and the index of an event.
fn shown(event: &Event) -> (char, u64) {
    match &event.kind {
        EventKind::Decide { index, .. } => ('d', *index),
        EventKind::Swap { index } => ('s', *index),
        EventKind::Flushed { index, .. } => ('f', *index),
        _ => ('?', 0),
    }
}

/// The story says this.
fn tells(rt: &impl Abort, story: &[Event], wanted: &[(char, u64)]) {
    holds(rt, story.len() == wanted.len(), "so many events");
    for (event, wanted) in story.iter().zip(wanted) {
        holds(rt, shown(event) == *wanted, "its event");
    }
}

/// What was decided first is one body, and what was decided beside its flush is the next.
const BODIES: &[u8] =
    b"\x01\0\0\0\x0a\x01\0\0\0\0\0\0\0\x01\x01\x01\0\0\0\x0b\x01\0\0\0\0\0\0\0\x03\x02\x03\0";

#[test]
fn what_is_decided_beside_a_flush_is_the_next_body(rt: HostRuntime) -> Result<(), Fail> {
    let alloc = rt.alloc();
    let (turn, one, mut two) = two_seats(alloc)?;
    let gate = WaitingGate {
        reached: Barrier::new(2),
        decided: Barrier::new(2),
    };
    let first = decides(&rt, alloc, &turn, &mut two, 1, 1);
    holds(&rt, first, "a first decision");
    let (one, two) = both(&rt, alloc, &turn, one, two, flusher(alloc)?, &gate);
    let story = story_of(alloc, turn, one.0, two)?;
    let wanted = [
        ('d', 1),
        ('s', 1),
        ('d', 2),
        ('d', 3),
        ('f', 1),
        ('s', 3),
        ('f', 3),
    ];
    tells(&rt, &story, &wanted);
    let disk = one.1.into_journal().into_disk();
    holds(&rt, disk.bytes() == BODIES, "what was written");
    Ok(())
}

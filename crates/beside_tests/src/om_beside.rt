//! A request is decided while another stripe is held, and while the flusher writes.

ghost use Rattle.std.specs.Prelude.{◌≡◌, ◌≢◌, vec_len, IfOk};
ghost use Rattle.oz_requests.specs.declared.request.Family.TheVariants.{Service};
ghost use Rattle.oz_requests.specs.Families.{family_of};
ghost use Rattle.oz_turn.specs.Seat.{AreNewSeats};
ghost use Rattle.oz_turn.specs.Turn.{turn_id};

use crate::om_store::{Book, Office, Worker, flushes, last_worker, made, opened};
use oz_fields::Name;
use oz_requests::{AskId, Reply, Request};
use oz_turn::{Ring, Seat, Turn};
use oz_world::{Gate, Point};
use std::alloc::{AllocError, Global};
use std::marker::Brand;
use std::sync::atomic::{AtomicBool, Ordering};
use std::sync::{Barrier, Wait};
use std::test::Fail;
use std::thread::{Threads, join, yield_now};

/// How often a thread looks whether the other is done.
const MOST_TURNS: u32 = 1_000_000;

/// Where one thread waits until the other was answered.
#[derive(Drop)]
struct Meeting {
    reached: Barrier,
    answered: AtomicBool,
    within: AtomicBool,
}

impl Meeting {
    fn new() -> Meeting {
        Meeting {
            reached: Barrier::new(2),
            answered: AtomicBool::new(false),
            within: AtomicBool::new(false),
        }
    }

    /// Waits for the answer, and notes whether it came within the turns.
    fn wait<W: Wait>(&self, rt: &W) {
        let _ = self.reached.wait(rt);
        for _ in 0..MOST_TURNS {
            if self.answered.load(Ordering::SeqCst) {
                self.within.store(true, Ordering::SeqCst);
                return;
            }
            yield_now();
        }
    }
}

impl Gate for Meeting {
    fn pass<W: Wait>(&self, rt: &W, point: Point, _who: u16) {
        if point == Point::ManagerWrite {
            self.wait(rt);
        }
    }
}

/// A request for a volume of this name.
pub fn request(alloc: Global, volume: &[u8]) -> Result<Request, AllocError>
    ensures { IfOk result (λ request. family_of request ≢ Service) }
{
    Ok(Request::CreateVolume {
        volume: Name::copy(alloc, volume)?,
    })
}

/// A line of the worker's client asks for a volume. Answers whether it is made.
fn makes<R: Ring, W: Wait>(
    rt: &W,
    alloc: Global,
    turn: &Turn<Book>,
    office: &Office<R>,
    worker: &mut Worker<R>,
    line: u16,
    volume: &[u8],
) -> bool
    requires turn { turn_id turn.now ≡ R.turn }
{
    let Ok(request) = request(alloc, volume) else {
        return false;
    };
    let (by, seat) = (worker.number, &mut worker.seat);
    let id = AskId {
        client: by,
        line,
        step: 1,
    };
    match &office.ask(rt, alloc, turn, seat, by, id, request, 0) {
        Ok(reply) => matches!(reply, Reply::Done),
        Err(_) => false,
    }
}

/// Once the other thread waits, a line asks for `vol1`, whose stripe is 2. Answers whether it is made, and the other thread hears of it.
fn ask_there<R: Ring, W: Wait>(
    rt: &W,
    alloc: Global,
    turn: &Turn<Book>,
    office: &Office<R>,
    worker: &mut Worker<R>,
    meeting: &Meeting,
) -> bool
    requires turn { turn_id turn.now ≡ R.turn }
{
    let _ = meeting.reached.wait(rt);
    let is_made = makes(rt, alloc, turn, office, worker, 2, b"vol1");
    meeting.answered.store(true, Ordering::SeqCst);
    is_made
}

/// Holds the lock of stripe 3 until the other thread is answered.
fn hold<R: Ring, W: Wait>(rt: &W, office: &Office<R>, meeting: &Meeting) {
    let _guard = office.stripes().lock(rt, 3);
    meeting.wait(rt);
}

fn ask_beside_a_stripe<R: Ring + Send + Sync, W: Threads + Wait + Sync>(
    rt: &W,
    alloc: Global,
    turn: &Turn<Book>,
    mut seats: Vec<Seat<Book>>,
    meeting: &Meeting,
) -> Result<bool, Fail>
    requires turn { turn_id turn.now ≡ R.turn }
    requires count { vec_len seats ≡ 37 }
    requires new { AreNewSeats R.turn seats.items }
{
    let mut worker = last_worker::<R>(&mut seats)?;
    let (office, _desk) = opened::<R>(alloc, seats)?;
    let (_, is_made) = join(
        rt,
        || { hold(rt, &office, meeting) },
        || -> bool
            requires { turn_id turn.now ≡ R.turn }
        { ask_there(rt, alloc, turn, &office, &mut worker, meeting) },
    );
    Ok(is_made)
}

#[test]
fn a_stripe_decides_while_another_is_held(rt: HostRuntime) -> Result<(), Fail> {
    let meeting = Meeting::new();
    let (turn, seats) = made(rt.alloc(), 37)?;
    let is_made = ask_beside_a_stripe::<Brand, _>(&rt, rt.alloc(), &turn, seats, &meeting)?;
    assert!(rt; is_made, "a volume");
    assert!(rt; meeting.within.load(Ordering::SeqCst), "within the turns");
    Ok(())
}

/// Something is to be written, and while it is a line asks. Answers whether it was to be, was written, and the line's volume was made.
fn ask_beside_a_write<R: Ring + Send + Sync, W: Threads + Wait + Sync>(
    rt: &W,
    alloc: Global,
    turn: &Turn<Book>,
    mut seats: Vec<Seat<Book>>,
    meeting: &Meeting,
) -> Result<(bool, bool, bool), Fail>
    requires turn { turn_id turn.now ≡ R.turn }
    requires count { vec_len seats ≡ 37 }
    requires new { AreNewSeats R.turn seats.items }
{
    let mut worker = last_worker::<R>(&mut seats)?;
    let (office, mut desk) = opened::<R>(alloc, seats)?;
    let is_there = makes(rt, alloc, turn, &office, &mut worker, 1, b"vol2");
    let (is_written, is_made) = join(
        rt,
        || -> bool
            requires { turn_id turn.now ≡ R.turn }
        { flushes(rt, turn, &mut desk, meeting) },
        || -> bool
            requires { turn_id turn.now ≡ R.turn }
        { ask_there(rt, alloc, turn, &office, &mut worker, meeting) },
    );
    Ok((is_there, is_written, is_made))
}

#[test]
fn a_line_asks_while_the_flusher_writes(rt: HostRuntime) -> Result<(), Fail> {
    let meeting = Meeting::new();
    let (turn, seats) = made(rt.alloc(), 37)?;
    let done = ask_beside_a_write::<Brand, _>(&rt, rt.alloc(), &turn, seats, &meeting)?;
    assert!(rt; done == (true, true, true), "written, and a volume");
    assert!(rt; meeting.within.load(Ordering::SeqCst), "within the turns");
    Ok(())
}

//! What the manager is asked by the service job.

ghost use Rattle.std.specs.Prelude.{◌≡◌, ◌≢◌, ◌⊎◌, ◌+◌, ℕ, [], List, true, None, Some, Err, length};
ghost use Rattle.std.specs.Prelude.{is_some, slice_index, IfOk, IfErr, IfSome, IsSome, OnOk, OnErr};
ghost use Rattle.oz_buffer.specs.Buffer.{AllFollow, Follows};
ghost use Rattle.oz_buffer.specs.Became.{index_of};
ghost use Rattle.oz_core.specs.declared.event.Node.TheVariants as nodes;
ghost use Rattle.oz_core.specs.Asks.{pending};
ghost use Rattle.oz_core.specs.Law.{PurgesLogged};
ghost use Rattle.oz_core.specs.Manager.{halt_of};
ghost use Rattle.oz_core.specs.Seats.{service_seat};
ghost use Rattle.oz_om.specs.Decided.{IsTooMuch};
ghost use Rattle.oz_om.specs.Refusals.{IsOfAsking};
ghost use Rattle.oz_om.specs.Served.{AddsAsk, CannotServe, IsDecidedBehind, IsServed, WaitsForNoOther, service_id};
ghost use Rattle.oz_om.specs.Shown.{HasSeen};
ghost use Rattle.oz_om.specs.declared.refusal.Refusal.TheVariants as refusals;
ghost use Rattle.oz_requests.specs.declared.request.Family.TheVariants.{Service};
ghost use Rattle.oz_requests.specs.Families.{family_of};
ghost use Rattle.oz_turn.specs.Seat.{IsReady, mine_of, room_of, seen_of};
ghost use Rattle.oz_turn.specs.Told.{BeginsWith};
ghost use Rattle.oz_turn.specs.Turn.{turn_id};

use crate::deciding::decide_locked;
use crate::finding::{decided_behind, last_ask_of};
use crate::manager::Manager;
use crate::refusal::Refusal;
use oz_buffer::{Ledger, Opened};
use oz_core::{Event, EventKind, Node, SERVICE_CLIENT};
use oz_locks::Loaded;
use oz_names::stripe_of;
use oz_requests::{AskId, Request};
use oz_turn::{Ring, Seat, Told, Turn};
use std::alloc::Global;
use std::sync::Wait;

/// The seat of the service job.
const SERVICE_SEAT: u16 = 1;

/// The id by which the service job asks.
const SERVICE_ID: AskId = AskId {
    client: SERVICE_CLIENT,
    line: 0,
    step: 0,
};

impl<O: Opened, L: Loaded, R: Ring> Manager<Ledger<O>, O, L, R> {
    /// Asks for the service job, and answers the index of the Decide: the stripe of the request's volume decides it at one
    /// place of the story, as one thread would. A new Ask is appended, unless one stands undecided: that is decided then, and
    /// no other is appended. So after a refusal the next request is the same one, until it is decided.
    ///
    /// A Purge names only rows whose blocks are logged, as far as the seat has seen.
    pub fn ask_service<W: Wait>(
        &self,
        rt: &W,
        alloc: Global,
        turn: &Turn<Ledger<O>>,
        seat: &mut Seat<Ledger<O>>,
        request: Request,
    ) -> Result<u64, Refusal>
        requires turn { turn_id turn.now ≡ R.turn }
        requires ready { IsReady R.turn service_seat seat.old }
        requires of_service { family_of request ≡ Service }
        requires logged { O.coherent → PurgesLogged (seen_of seat.old) request }
        requires same { O.coherent → WaitsForNoOther (seen_of seat.old) request }
        ensures ready { IsReady R.turn service_seat seat.new }
        ensures room { room_of seat.new ≡ room_of seat.old }
        ensures goes_on { BeginsWith (seen_of seat.new) (seen_of seat.old) }
        ensures follow { AllFollow (Follows O.coherent O.opening O.bytes O.script) [] (seen_of seat.new) }

        // At most one Ask is appended, and none beside one that is undecided. What was decided the seat has seen, at its one
        // place of the story, behind all that it had seen before; then nothing is undecided.
        ensures own { (mine_of seat.new ≡ mine_of seat.old)
            ⊎ AddsAsk (seen_of seat.new) (mine_of seat.old) (mine_of seat.new) request }
        ensures ok { O.coherent → IfOk result (IsServed O.opening (seen_of seat.old) (seen_of seat.new) request) }
        ensures seen { IfOk result (λ _. IsSome (index_of service_id (seen_of seat.new))) }
        ensures decided { O.coherent → IfOk result (λ _. pending service_id (seen_of seat.new) ≡ None) }
        ensures same { O.coherent → WaitsForNoOther (seen_of seat.new) request }

        // When each refusal comes, in the story that the seat has seen then.
        ensures stopped { (count : ℕ) → result ≡ Err (refusals.Stopped count) →
            (mine_of seat.new ≡ mine_of seat.old) × CannotServe (seen_of seat.new) count }
        ensures later { (held asked : ℕ) → result ≡ Err (refusals.Later held asked) →
            IsTooMuch O.coherent O.opening (seen_of seat.new) service_id held asked }
        ensures other_blocks { result ≢ Err Refusal.OtherBlocks }
        ensures early { result ≢ Err Refusal.Early }
        ensures pool_empty { (stripe : ℕ) → O.coherent → result ≢ Err (refusals.PoolEmpty stripe) }
    {
        let stripe = stripe_of(request.volume());
        let asked = match put_ask(rt, alloc, turn, seat, request) {
            Ok(asked) => asked,
            Err(refusal) => return Err(refusal),
        };
        seat.knows_own();
        self.opens();
        if let Err(refusal) = decide_locked(
            rt,
            alloc,
            turn,
            &self.stripes,
            stripe,
            seat,
            SERVICE_SEAT,
            asked.place,
            SERVICE_ID,
        ) {
            seat.knows_own();
            return Err(refusal);
        }
        let index = see_index(rt, turn, seat, asked.length);
        seat.knows_own();
        Ok(index)
    }
}

/// Where an Ask stands in a story of so many events.
#[derive(Clone, Copy)]
struct Asked {
    place: usize,
    length: usize,
}

/// Appends the service job's Ask, unless one stands undecided.
fn put_ask<O: Opened, W: Wait>(
    rt: &W,
    alloc: Global,
    turn: &Turn<Ledger<O>>,
    seat: &mut Seat<Ledger<O>>,
    request: Request,
) -> Result<Asked, Refusal>
    requires ready { IsReady (turn_id turn.now) service_seat seat.old }
    requires of_service { family_of request ≡ Service }
    requires logged { O.coherent → PurgesLogged (seen_of seat.old) request }
    requires same { O.coherent → WaitsForNoOther (seen_of seat.old) request }
    ensures ready { IsReady (turn_id turn.now) service_seat seat.new }
    ensures room { room_of seat.new ≡ room_of seat.old }
    ensures goes_on { BeginsWith (seen_of seat.new) (seen_of seat.old) }
    ensures follow { AllFollow (Follows O.coherent O.opening O.bytes O.script) [] (seen_of seat.new) }
    ensures own { (mine_of seat.new ≡ mine_of seat.old)
        ⊎ AddsAsk (seen_of seat.new) (mine_of seat.old) (mine_of seat.new) request }
    ensures length { IfOk result (λ asked. asked.length ≡ length (seen_of seat.new)) }
    ensures ok { O.coherent → IfOk result (λ _. pending service_id (seen_of seat.new) ≡ Some request) }
    ensures same { O.coherent → WaitsForNoOther (seen_of seat.new) request }
    ensures stopped { (count : ℕ) → result ≡ Err (refusals.Stopped count) →
        (mine_of seat.new ≡ mine_of seat.old) × CannotServe (seen_of seat.new) count }
    ensures refused { IfErr result IsOfAsking }
{
    seat.knows_own();
    let (mut ledger, held) = turn.take(rt, seat);
    ledger.all_follow();
    if ledger.is_pending(SERVICE_ID) {
        let answer = undecided_ask(&ledger);
        turn.give_back(seat, ledger, held);
        return answer;
    }
    if let Err(refusal) = make_room(alloc, &mut ledger) {
        turn.give_back(seat, ledger, held);
        return Err(refusal);
    }
    let place = ledger.entries().len();
    let kind = EventKind::Ask {
        id: SERVICE_ID,
        request,
    };
    ledger.note(Event {
        seat: SERVICE_SEAT,
        kind,
    });
    ledger.all_follow();
    let length = ledger.entries().len();
    turn.give(seat, ledger, held);
    Ok(Asked { place, length })
}

/// Where the service job's Ask stands that is undecided, unless the manager had halted before it.
fn undecided_ask<O: Opened>(ledger: &Ledger<O>) -> Result<Asked, Refusal>
    requires { is_some (pending service_id ledger.now.story) ≡ true }
    ensures length { IfOk result (λ asked. asked.length ≡ length ledger.now.story) }
    ensures stopped { (count : ℕ) → result ≡ Err (refusals.Stopped count) → CannotServe ledger.now.story count }
    ensures refused { IfErr result IsOfAsking }
{
    let Some(place) = last_ask_of(ledger.entries(), SERVICE_ID) else {
        unreachable!()
    };
    if !ledger.asked_late(SERVICE_ID) {
        return Ok(Asked {
            place,
            length: ledger.entries().len(),
        });
    }
    match ledger.halt(Node::Manager) {
        Some(count) => Err(Refusal::Stopped { count }),
        None => unreachable!(),
    }
}

/// Makes room for the service job's Ask, where the manager hasn't halted.
fn make_room<O: Opened>(alloc: Global, ledger: &mut Ledger<O>) -> Result<(), Refusal>
    ensures story { ledger.new.story ≡ ledger.old.story }
    ensures room { OnOk result (slice_index ledger.new.rooms service_seat ≡ slice_index ledger.old.rooms service_seat + 1) }
    ensures others { (n : ℕ) → n ≢ service_seat → slice_index ledger.new.rooms n ≡ slice_index ledger.old.rooms n }
    ensures same { OnErr result (ledger.new ≡ ledger.old) }
    ensures stopped { (count : ℕ) → result ≡ Err (refusals.Stopped count) → halt_of nodes.Manager ledger.old.story ≡ Some count }
    ensures refused { IfErr result IsOfAsking }
{
    if let Some(count) = ledger.halt(Node::Manager) {
        return Err(Refusal::Stopped { count });
    }
    match ledger.reserve_notes(alloc, SERVICE_SEAT, 1) {
        Ok(()) => Ok(()),
        Err(_error) => Err(Refusal::OutOfMemory),
    }
}

/// Takes the turn again and again, until what the service job asked is decided behind so many events. Answers the index.
fn see_index<O: Opened, W: Wait>(
    rt: &W,
    turn: &Turn<Ledger<O>>,
    seat: &mut Seat<Ledger<O>>,
    length: usize,
) -> u64
    requires { IsReady (turn_id turn.now) service_seat seat.old }
    ensures shown { HasSeen (turn_id turn.now) O.coherent O.opening O.bytes O.script service_seat seat.old seat.new }
    ensures decided { IsDecidedBehind (seen_of seat.new) length service_id result }
{
    for _ in rt.forever() {
        if let Some(index) = sees_index(rt, turn, seat, length) {
            return index;
        }
    }
    unreachable!()
}

/// One look.
fn sees_index<O: Opened, W: Wait>(
    rt: &W,
    turn: &Turn<Ledger<O>>,
    seat: &mut Seat<Ledger<O>>,
    length: usize,
) -> Option<u64>
    requires { IsReady (turn_id turn.now) service_seat seat.old }
    ensures shown { HasSeen (turn_id turn.now) O.coherent O.opening O.bytes O.script service_seat seat.old seat.new }
    ensures decided { IfSome result (IsDecidedBehind (seen_of seat.new) length service_id) }
{
    let (ledger, held) = turn.take(rt, seat);
    ledger.all_follow();
    let index = decided_behind(ledger.entries(), length, SERVICE_ID);
    turn.give_back(seat, ledger, held);
    index
}

//! Asking: what the asker's seat appends.

ghost use Rattle.std.specs.Prelude.{◌≡◌, ◌≢◌, ◌↔◌, ◌+◌, ◌<◌, ℕ, [], List, true, false, None, Some, Err};
ghost use Rattle.std.specs.Prelude.{is_some, slice_index, IfOk, IfErr, OnOk, OnErr, IfSome, IfNone, IsTrue};
ghost use Rattle.oz_asker.specs.Asked.{IsAskAt, IsEarly, IsLate, IsSaidOtherwise, MayAdd, MayAsk};
ghost use Rattle.oz_asker.specs.declared.fault.AskFault.TheVariants as faults;
ghost use Rattle.oz_buffer.specs.Buffer.{AllFollow, Follows};
ghost use Rattle.oz_buffer.specs.Became.{times_said};
ghost use Rattle.oz_core.specs.declared.event.Event.{Event as AnyEvent};
ghost use Rattle.oz_core.specs.declared.event.EventKind.TheVariants as events;
ghost use Rattle.oz_core.specs.Asks.{is_script, pending};
ghost use Rattle.oz_core.specs.Fits.{EventFits};
ghost use Rattle.oz_core.specs.Law.{AskIsEnabled};
ghost use Rattle.oz_core.specs.Manager.{asked_late};
ghost use Rattle.oz_core.specs.Seats.{IsAskSeat};
ghost use Rattle.oz_requests.specs.declared.request.Family.TheVariants.{Service};
ghost use Rattle.oz_requests.specs.declared.request.Request.{Request as AnyRequest};
ghost use Rattle.oz_requests.specs.Families.{family_of};
ghost use Rattle.oz_turn.specs.Seat.{IsReady, mine_of, room_of, seen_of};
ghost use Rattle.oz_turn.specs.Told.{BeginsWith};
ghost use Rattle.oz_turn.specs.Turn.{turn_id};

use crate::fault::AskFault;
use crate::finding::last_ask_of;
use oz_buffer::{Ledger, Opened};
use oz_core::{Event, EventKind, Node};
use oz_requests::{AskId, Request};
use oz_turn::{Seat, Told, Turn};
use std::alloc::Global;
use std::sync::Wait;

/// Appends the Ask, unless one of the id stands undecided, and answers the place of the one or the other. `by` is the
/// seat's number, and `said` is how often something was said of the blocks of the id's line, as far as its worker knows:
/// that is compared first. Then, where none stands undecided, it is seen whether the law lets the id ask, and room is made.
pub fn put_ask<O: Opened, W: Wait>(
    rt: &W,
    alloc: Global,
    turn: &Turn<Ledger<O>>,
    seat: &mut Seat<Ledger<O>>,
    by: u16,
    id: AskId,
    request: Request,
    said: u64,
) -> Result<usize, AskFault>
    requires ready { IsReady (turn_id turn.now) by seat.old }
    requires seats { by < 64 }
    requires asker { IsAskSeat id by }
    requires script { is_script id ≡ true }
    requires of_client { family_of request ≢ Service }
    requires same { O.coherent → (story : List AnyEvent) → BeginsWith story (seen_of seat.old)
        → AllFollow (Follows O.coherent O.opening O.bytes O.script) [] story
        → times_said id.client id.line story ≡ said
        → (other : AnyRequest) → pending id story ≡ Some other → other ≡ request }
    requires fits { O.coherent → (story : List AnyEvent) → BeginsWith story (seen_of seat.old)
        → AllFollow (Follows O.coherent O.opening O.bytes O.script) [] story
        → times_said id.client id.line story ≡ said
        → AskIsEnabled O.opening story by id request
        → EventFits O.opening O.bytes O.script story (events.Ask id request) }
    ensures ready { IsReady (turn_id turn.now) by seat.new }
    ensures room { room_of seat.new ≡ room_of seat.old }
    ensures goes_on { BeginsWith (seen_of seat.new) (seen_of seat.old) }
    ensures follow { AllFollow (Follows O.coherent O.opening O.bytes O.script) [] (seen_of seat.new) }
    ensures own { MayAdd by id request (mine_of seat.old) (mine_of seat.new) }
    ensures ok { O.coherent → IfOk result (λ place. IsAskAt (seen_of seat.new) place id request) }
    ensures undecided { O.coherent → IfOk result (λ _. pending id (seen_of seat.new) ≡ Some request) }
    ensures in_time { IfOk result (λ _. asked_late id (seen_of seat.new) ≡ false) }
    ensures other_blocks { result ≡ Err AskFault.OtherBlocks ↔ IsSaidOtherwise (seen_of seat.new) id said }
    ensures unasked { result ≡ Err AskFault.OtherBlocks → mine_of seat.new ≡ mine_of seat.old }
    ensures as_said { result ≢ Err AskFault.OtherBlocks → times_said id.client id.line (seen_of seat.new) ≡ said }
    ensures early { result ≡ Err AskFault.Early → (mine_of seat.new ≡ mine_of seat.old)
        × (O.coherent → IsEarly O.opening (seen_of seat.new) by id request) }
    ensures stopped { (count : ℕ) → result ≡ Err (faults.Stopped count) → IsLate (seen_of seat.new) id count
        × (O.coherent → (pending id (seen_of seat.new) ≡ Some request)
        × ((place : ℕ) × IsAskAt (seen_of seat.new) place id request)) }
    ensures memory { result ≡ Err AskFault.OutOfMemory → mine_of seat.new ≡ mine_of seat.old }
{
    let (mut ledger, held) = turn.take(rt, seat);
    ledger.all_follow();
    if ledger.times_said(id.client, id.line) != said {
        turn.give_back(seat, ledger, held);
        return Err(AskFault::OtherBlocks);
    }
    if let Some(place) = undecided_ask(&ledger, id) {
        let answer = in_time(&ledger, id, place);
        turn.give_back(seat, ledger, held);
        return answer;
    }
    if let Err(fault) = make_room(alloc, &mut ledger, by, id) {
        turn.give_back(seat, ledger, held);
        return Err(fault);
    }
    let place = ledger.entries().len();
    let kind = EventKind::Ask { id, request };
    ledger.note(Event { seat: by, kind });
    ledger.all_follow();
    let answer = in_time(&ledger, id, place);
    turn.give(seat, ledger, held);
    answer
}

/// Where the Ask of an id stands that is undecided.
fn undecided_ask<O: Opened>(ledger: &Ledger<O>, id: AskId) -> Option<usize>
    ensures place { IfSome result (λ place. (request : AnyRequest) × IsAskAt ledger.now.story place id request) }
    ensures some { IfSome result (λ _. is_some (pending id ledger.now.story) ≡ true) }
    ensures none { IfNone result (pending id ledger.now.story ≡ None) }
{
    if !ledger.is_pending(id) {
        return None;
    }
    match last_ask_of(ledger.entries(), id) {
        Some(place) => Some(place),
        None => unreachable!(),
    }
}

/// Makes room for an Ask, where the law lets a script's id ask.
fn make_room<O: Opened>(
    alloc: Global,
    ledger: &mut Ledger<O>,
    by: u16,
    id: AskId,
) -> Result<(), AskFault>
    requires seat { by < 64 }
    requires script { is_script id ≡ true }
    ensures story { ledger.new.story ≡ ledger.old.story }
    ensures room { OnOk result (slice_index ledger.new.rooms by ≡ slice_index ledger.old.rooms by + 1) }
    ensures others { (n : ℕ) → n ≢ by → slice_index ledger.new.rooms n ≡ slice_index ledger.old.rooms n }
    ensures may { O.coherent → OnOk result (MayAsk O.opening ledger.old.story id) }
    ensures same { OnErr result (ledger.new ≡ ledger.old) }
    ensures early { O.coherent → result ≡ Err AskFault.Early → MayAsk O.opening ledger.old.story id → ⊥ }
    ensures as_said { IfErr result (λ fault. fault ≢ AskFault.OtherBlocks) }
    ensures running { IfErr result (λ fault. (count : ℕ) → fault ≢ faults.Stopped count) }
{
    if !may_ask(ledger, id) {
        return Err(AskFault::Early);
    }
    match ledger.reserve_notes(alloc, by, 1) {
        Ok(()) => Ok(()),
        Err(_error) => Err(AskFault::OutOfMemory),
    }
}

/// Whether the law lets a script's id ask now.
fn may_ask<O: Opened>(ledger: &Ledger<O>, id: AskId) -> bool
    requires { is_script id ≡ true }
    ensures { O.coherent → (IsTrue result ↔ MayAsk O.opening ledger.now.story id) }
{
    !ledger.is_asked(id)
        && !ledger.is_told(id.client, id.line)
        && ledger.all_decided(id.client, id.line)
        && ledger.line_index(id.client, id.line) <= ledger.durable_index()
}

/// This place, unless the manager had halted before the id asked.
fn in_time<O: Opened>(ledger: &Ledger<O>, id: AskId, place: usize) -> Result<usize, AskFault>
    ensures ok { IfOk result (λ found. (found ≡ place) × (asked_late id ledger.now.story ≡ false)) }
    ensures err { IfErr result (λ fault. (count : ℕ) × (fault ≡ faults.Stopped count)
        × IsLate ledger.now.story id count) }
{
    if !ledger.asked_late(id) {
        return Ok(place);
    }
    match ledger.halt(Node::Manager) {
        Some(count) => Err(AskFault::Stopped { count }),
        None => unreachable!(),
    }
}

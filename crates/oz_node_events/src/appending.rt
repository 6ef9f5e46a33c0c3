//! What a datanode's seat does while it holds the turn.

ghost use Rattle.std.specs.Prelude.{◌≡◌, ◌+◌, ◌<◌, ◌≤◌, ◌≢◌, ◌++◌, ◌∷◌, [], ℕ, List, None, OnOk, OnErr, length, slice_index};
ghost use Rattle.oz_buffer.specs.Buffer.{AllFollow, Follows, IsNote};
ghost use Rattle.oz_core.specs.declared.event.Event.{Event as AnyEvent};
ghost use Rattle.oz_node_events.specs.NodeSeat.{IsAppended, IsUntold};
ghost use Rattle.oz_turn.specs.Seat.{IsReady, IsSameSeat, mine_of, room_of, seen_of, taken_of, turn_of};
ghost use Rattle.oz_turn.specs.Told.{own_entries, BeginsWith};
ghost use Rattle.oz_turn.specs.Turn.{turn_id};

use oz_buffer::{Ledger, Opened};
use oz_core::{Event, EventKind};
use oz_fields::OutOfMemory;
use oz_requests::AskId;
use oz_turn::{Seat, Told, Turn};
use std::alloc::Global;
use std::sync::Wait;

/// The seat of datanode 0. Those of the others follow it.
pub(crate) const FIRST_DATANODE_SEAT: u16 = 4;

/// The room that a seat is to have: the seat's number, how many events more, and the ask for which they are, if they are for one.
#[derive(Clone, Copy)]
pub(crate) struct Wanted {
    pub(crate) by: u16,
    pub(crate) events: u32,
    pub(crate) id: Option<AskId>,
}

/// Makes a seat's room greater, and another seat sees all that this one has.
///
/// Errors: `OutOfMemory`, also where the line of the ask is told.
pub(crate) fn reserve<O: Opened, W: Wait>(
    rt: &W,
    alloc: Global,
    turn: &Turn<Ledger<O>>,
    seat: &mut Seat<Ledger<O>>,
    other: &mut Seat<Ledger<O>>,
    wanted: Wanted,
) -> Result<(), OutOfMemory>
    requires ready { IsReady (turn_id turn.now) wanted.by seat.old }
    requires seats { wanted.by < 64 }
    requires other_turn { turn_of other.old ≡ turn_id turn.now }
    requires other_free { taken_of other.old ≡ None }
    requires events { wanted.events ≤ 64 }
    ensures ready { IsReady (turn_id turn.now) wanted.by seat.new }
    ensures room { OnOk result (room_of seat.new ≡ room_of seat.old + wanted.events) }
    ensures lacks { OnErr result (room_of seat.new ≡ room_of seat.old) }
    ensures untold { OnOk result (IsUntold wanted.id (seen_of seat.new)) }
    ensures goes_on { BeginsWith (seen_of seat.new) (seen_of seat.old) }
    ensures mine { mine_of seat.new ≡ mine_of seat.old }
    ensures known { own_entries (λ event. event.seat) wanted.by (seen_of seat.new) ≡ mine_of seat.new }
    ensures follow { AllFollow (Follows O.coherent O.opening O.bytes O.script) [] (seen_of seat.new) }
    ensures other { IsSameSeat other.old other.new }
    ensures other_free { taken_of other.new ≡ None }
    ensures other_begins { BeginsWith (seen_of other.new) (seen_of other.old) }
    ensures other_seen { seen_of other.new ≡ seen_of seat.new }
    ensures other_mine { mine_of other.new ≡ mine_of other.old }
    ensures other_room { room_of other.new ≡ room_of other.old }
{
    let (mut ledger, held) = turn.take(rt, seat);
    ledger.all_follow();
    let made = make_room(&mut ledger, alloc, wanted);
    turn.show(seat, other);
    turn.give_back(seat, ledger, held);
    seat.knows_own();
    made
}

/// Makes room for events of a seat, for an ask whose line isn't told.
fn make_room<O: Opened>(
    ledger: &mut Ledger<O>,
    alloc: Global,
    wanted: Wanted,
) -> Result<(), OutOfMemory>
    requires seats { wanted.by < 64 }
    requires events { wanted.events ≤ 64 }
    ensures story { ledger.new.story ≡ ledger.old.story }
    ensures room { OnOk result (slice_index ledger.new.rooms wanted.by
        ≡ slice_index ledger.old.rooms wanted.by + wanted.events) }
    ensures others { (n : ℕ) → n ≢ wanted.by → slice_index ledger.new.rooms n ≡ slice_index ledger.old.rooms n }
    ensures err { OnErr result (ledger.new ≡ ledger.old) }
    ensures untold { OnOk result (IsUntold wanted.id ledger.old.story) }
{
    if let Some(id) = wanted.id {
        if ledger.is_told(id.client, id.line) {
            return Err(OutOfMemory);
        }
    }
    ledger.reserve_notes(alloc, wanted.by, wanted.events)
}

/// Appends an event, of which another seat has seen what stands before it. `by` is the number of the seat that gives it.
pub(crate) fn append<O: Opened, W: Wait>(
    rt: &W,
    turn: &Turn<Ledger<O>>,
    seat: &mut Seat<Ledger<O>>,
    other: &mut Seat<Ledger<O>>,
    by: u16,
    kind: EventKind,
)
    requires ready { IsReady (turn_id turn.now) by seat.old }
    requires seats { by < 64 }
    requires other_turn { turn_of other.old ≡ turn_id turn.now }
    requires other_free { taken_of other.old ≡ None }
    requires room { 1 ≤ room_of seat.old }
    requires kind { IsNote kind }
    requires follows { (story : List AnyEvent) → BeginsWith story (seen_of seat.old) → BeginsWith story (seen_of other.old)
        → AllFollow (Follows O.coherent O.opening O.bytes O.script) [] story
        → own_entries (λ event. event.seat) by story ≡ mine_of seat.old
        → Follows O.coherent O.opening O.bytes O.script story (record { seat = by; kind = kind }) }
    ensures ready { IsReady (turn_id turn.now) by seat.new }
    ensures room { room_of seat.new + 1 ≡ room_of seat.old }
    ensures told { IsAppended (record { seat = by; kind = kind }) (seen_of seat.old) (seen_of other.old) (seen_of seat.new) }
    ensures mine { mine_of seat.new ≡ mine_of seat.old ++ record { seat = by; kind = kind } ∷ [] }
    ensures known { own_entries (λ event. event.seat) by (seen_of seat.new) ≡ mine_of seat.new }
    ensures follow { AllFollow (Follows O.coherent O.opening O.bytes O.script) [] (seen_of seat.new) }
    ensures other { IsSameSeat other.old other.new }
    ensures other_free { taken_of other.new ≡ None }
    ensures other_begins { BeginsWith (seen_of seat.new) (seen_of other.new) }
    ensures other_mine { mine_of other.new ≡ mine_of other.old }
    ensures other_room { room_of other.new ≡ room_of other.old }
{
    let (mut ledger, held) = turn.take(rt, seat);
    ledger.all_follow();
    turn.show(seat, other);
    ledger.note(Event { seat: by, kind });
    ledger.all_follow();
    turn.give(seat, ledger, held);
    seat.knows_own();
}

/// Another seat sees all that this one has, and the answer is how many events that is.
pub(crate) fn show<O: Opened, W: Wait>(
    rt: &W,
    turn: &Turn<Ledger<O>>,
    seat: &mut Seat<Ledger<O>>,
    other: &mut Seat<Ledger<O>>,
    by: u16,
) -> u64
    requires ready { IsReady (turn_id turn.now) by seat.old }
    requires other_turn { turn_of other.old ≡ turn_id turn.now }
    requires other_free { taken_of other.old ≡ None }
    ensures ready { IsReady (turn_id turn.now) by seat.new }
    ensures room { room_of seat.new ≡ room_of seat.old }
    ensures goes_on { BeginsWith (seen_of seat.new) (seen_of seat.old) }
    ensures mine { mine_of seat.new ≡ mine_of seat.old }
    ensures known { own_entries (λ event. event.seat) by (seen_of seat.new) ≡ mine_of seat.new }
    ensures follow { AllFollow (Follows O.coherent O.opening O.bytes O.script) [] (seen_of seat.new) }
    ensures other { IsSameSeat other.old other.new }
    ensures other_free { taken_of other.new ≡ None }
    ensures other_begins { BeginsWith (seen_of other.new) (seen_of other.old) }
    ensures other_seen { seen_of other.new ≡ seen_of seat.new }
    ensures other_mine { mine_of other.new ≡ mine_of other.old }
    ensures other_room { room_of other.new ≡ room_of other.old }
    ensures length { result ≡ length (seen_of seat.new) }
{
    let (ledger, held) = turn.take(rt, seat);
    ledger.all_follow();
    turn.show(seat, other);
    let length = ledger.entries().len() as u64;
    turn.give_back(seat, ledger, held);
    seat.knows_own();
    length
}

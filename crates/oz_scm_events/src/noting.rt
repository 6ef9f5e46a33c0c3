//! What the storage container manager's seat does at the turn.

ghost use Rattle.std.specs.Prelude.{◌≡◌, ◌+◌, ◌≤◌, [], ◌∷◌, ◌++◌, List, IfSome, OnErr, OnOk};
ghost use Rattle.oz_buffer.specs.Buffer.{AllFollow, Follows, IsNote};
ghost use Rattle.oz_core.specs.declared.event.Event.{Event as AnyEvent};
ghost use Rattle.oz_core.specs.Seats.{scm_seat};
ghost use Rattle.oz_scm_events.specs.Granted.{by_scm, with_told};
ghost use Rattle.oz_scm_events.specs.Telling.{StandsLast};
ghost use Rattle.oz_turn.specs.Seat.{IsReady, mine_of, number_of, room_of, seen_of};
ghost use Rattle.oz_turn.specs.Told.{own_entries, BeginsWith};
ghost use Rattle.oz_turn.specs.Turn.{turn_id};

use oz_buffer::{Ledger, Opened, OutOfMemory};
use oz_core::{Event, EventKind};
use oz_turn::{Seat, Turn};
use std::alloc::Global;
use std::sync::Wait;

// The seat of the storage container manager.
const SCM_SEAT: u16 = 3;

/// Makes room for one event more.
pub(crate) fn reserve<O: Opened, W: Wait>(
    rt: &W,
    alloc: Global,
    turn: &Turn<Ledger<O>>,
    seat: &mut Seat<Ledger<O>>,
) -> Result<(), OutOfMemory>
    requires ready { IsReady (turn_id turn.now) scm_seat seat.old }
    ensures ready { IsReady (turn_id turn.now) scm_seat seat.new }
    ensures room { OnOk result (room_of seat.new ≡ room_of seat.old + 1) }
    ensures none { OnErr result (room_of seat.new ≡ room_of seat.old) }
    ensures mine { mine_of seat.new ≡ mine_of seat.old }
    ensures goes_on { BeginsWith (seen_of seat.new) (seen_of seat.old) }
    ensures known { own_entries (λ event. event.seat) scm_seat (seen_of seat.new) ≡ mine_of seat.new }
{
    let (mut ledger, held) = turn.take(rt, seat);
    let made = ledger.reserve_notes(alloc, SCM_SEAT, 1);
    turn.give_back(seat, ledger, held);
    seat.knows_own();
    made
}

/// Gives back the room for an event that doesn't come.
pub(crate) fn release<O: Opened, W: Wait>(
    rt: &W,
    turn: &Turn<Ledger<O>>,
    seat: &mut Seat<Ledger<O>>,
)
    requires ready { IsReady (turn_id turn.now) scm_seat seat.old }
    requires room { 1 ≤ room_of seat.old }
    ensures ready { IsReady (turn_id turn.now) scm_seat seat.new }
    ensures room { room_of seat.new + 1 ≡ room_of seat.old }
    ensures mine { mine_of seat.new ≡ mine_of seat.old }
    ensures goes_on { BeginsWith (seen_of seat.new) (seen_of seat.old) }
    ensures known { own_entries (λ event. event.seat) scm_seat (seen_of seat.new) ≡ mine_of seat.new }
{
    let (mut ledger, held) = turn.take(rt, seat);
    ledger.release(SCM_SEAT, 1);
    turn.give_back(seat, ledger, held);
    seat.knows_own();
}

/// Appends an event for which there is room. Another seat has seen what is before it.
fn note<O: Opened, W: Wait>(
    rt: &W,
    turn: &Turn<Ledger<O>>,
    seat: &mut Seat<Ledger<O>>,
    other: &mut Seat<Ledger<O>>,
    kind: EventKind,
)
    requires ready { IsReady (turn_id turn.now) scm_seat seat.old }
    requires room { 1 ≤ room_of seat.old }
    requires kind { IsNote kind }
    requires other { IsReady (turn_id turn.now) (number_of other.old) other.old }
    requires follows { (story : List AnyEvent) → BeginsWith story (seen_of other.old)
        → AllFollow (Follows O.coherent O.opening O.bytes O.script) [] story
        → own_entries (λ event. event.seat) (number_of other.old) story ≡ mine_of other.old
        → own_entries (λ event. event.seat) scm_seat story ≡ mine_of seat.old
        → Follows O.coherent O.opening O.bytes O.script story (by_scm kind) }
    ensures ready { IsReady (turn_id turn.now) scm_seat seat.new }
    ensures room { room_of seat.new + 1 ≡ room_of seat.old }
    ensures mine { mine_of seat.new ≡ mine_of seat.old ++ by_scm kind ∷ [] }
    ensures goes_on { BeginsWith (seen_of seat.new) (seen_of seat.old) }
    ensures known { own_entries (λ event. event.seat) scm_seat (seen_of seat.new) ≡ mine_of seat.new }
    ensures other { IsReady (turn_id turn.now) (number_of other.old) other.new }
    ensures other_begins { BeginsWith (seen_of other.new) (seen_of other.old) }
    ensures other_mine { mine_of other.new ≡ mine_of other.old }
    ensures other_room { room_of other.new ≡ room_of other.old }
    ensures told { StandsLast (Follows O.coherent O.opening O.bytes O.script) (number_of other.old) (seen_of other.old)
        (mine_of other.old) (mine_of seat.old) (seen_of seat.new) kind }
{
    let (mut ledger, held) = turn.take(rt, seat);
    turn.show(seat, other);
    ledger.all_follow();
    ledger.note(Event {
        seat: SCM_SEAT,
        kind,
    });
    turn.give(seat, ledger, held);
    seat.knows_own();
}

/// Appends what is to be told, and where it is nothing gives back the room for it.
pub(crate) fn tell<O: Opened, W: Wait>(
    rt: &W,
    turn: &Turn<Ledger<O>>,
    seat: &mut Seat<Ledger<O>>,
    other: &mut Seat<Ledger<O>>,
    told: Option<EventKind>,
)
    requires ready { IsReady (turn_id turn.now) scm_seat seat.old }
    requires room { 1 ≤ room_of seat.old }
    requires kind { IfSome told IsNote }
    requires other { IsReady (turn_id turn.now) (number_of other.old) other.old }
    requires follows { IfSome told (λ kind. (story : List AnyEvent) → BeginsWith story (seen_of other.old)
        → AllFollow (Follows O.coherent O.opening O.bytes O.script) [] story
        → own_entries (λ event. event.seat) (number_of other.old) story ≡ mine_of other.old
        → own_entries (λ event. event.seat) scm_seat story ≡ mine_of seat.old
        → Follows O.coherent O.opening O.bytes O.script story (by_scm kind)) }
    ensures ready { IsReady (turn_id turn.now) scm_seat seat.new }
    ensures room { room_of seat.new + 1 ≡ room_of seat.old }
    ensures mine { mine_of seat.new ≡ with_told told (mine_of seat.old) }
    ensures goes_on { BeginsWith (seen_of seat.new) (seen_of seat.old) }
    ensures known { own_entries (λ event. event.seat) scm_seat (seen_of seat.new) ≡ mine_of seat.new }
    ensures other { IsReady (turn_id turn.now) (number_of other.old) other.new }
    ensures other_begins { BeginsWith (seen_of other.new) (seen_of other.old) }
    ensures other_mine { mine_of other.new ≡ mine_of other.old }
    ensures other_room { room_of other.new ≡ room_of other.old }
    ensures told { IfSome told (StandsLast (Follows O.coherent O.opening O.bytes O.script) (number_of other.old)
        (seen_of other.old) (mine_of other.old) (mine_of seat.old) (seen_of seat.new)) }
{
    match told {
        Some(kind) => note(rt, turn, seat, other, kind),
        None => release(rt, turn, seat),
    }
}

/// Lets another seat see all that happened until now.
pub(crate) fn show<O: Opened, W: Wait>(
    rt: &W,
    turn: &Turn<Ledger<O>>,
    seat: &mut Seat<Ledger<O>>,
    other: &mut Seat<Ledger<O>>,
)
    requires ready { IsReady (turn_id turn.now) scm_seat seat.old }
    requires other { IsReady (turn_id turn.now) (number_of other.old) other.old }
    ensures ready { IsReady (turn_id turn.now) scm_seat seat.new }
    ensures room { room_of seat.new ≡ room_of seat.old }
    ensures mine { mine_of seat.new ≡ mine_of seat.old }
    ensures goes_on { BeginsWith (seen_of seat.new) (seen_of seat.old) }
    ensures known { own_entries (λ event. event.seat) scm_seat (seen_of seat.new) ≡ mine_of seat.new }
    ensures other { IsReady (turn_id turn.now) (number_of other.old) other.new }
    ensures seen { seen_of other.new ≡ seen_of seat.new }
    ensures other_begins { BeginsWith (seen_of other.new) (seen_of other.old) }
    ensures other_mine { mine_of other.new ≡ mine_of other.old }
    ensures other_room { room_of other.new ≡ room_of other.old }
    ensures follow { AllFollow (Follows O.coherent O.opening O.bytes O.script) [] (seen_of other.new) }
{
    let (ledger, held) = turn.take(rt, seat);
    turn.show(seat, other);
    ledger.all_follow();
    turn.give_back(seat, ledger, held);
    seat.knows_own();
}

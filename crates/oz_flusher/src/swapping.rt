//! What the flusher does while it holds the turn.

ghost use Rattle.std.specs.Prelude.{◌≡◌, ◌+◌, ◌<◌, ◌≤◌, [], List, IfSome, IfNone};
ghost use Rattle.oz_buffer.specs.Buffer.{AllFollow, Follows, IsNote, buffer_of};
ghost use Rattle.oz_core.specs.declared.event.Event.{Event as AnyEvent};
ghost use Rattle.oz_core.specs.Manager.{swapped_index};
ghost use Rattle.oz_core.specs.Seats.{flusher_seat};
ghost use Rattle.oz_flusher.specs.Steps.{by_flusher, IsNoted, IsSwapped};
ghost use Rattle.oz_flusher.specs.Quiet.{IsSettled};
ghost use Rattle.oz_turn.specs.Seat.{mine_of, room_of, seen_of, IsReady};
ghost use Rattle.oz_turn.specs.Told.{own_entries, BeginsWith};
ghost use Rattle.oz_turn.specs.Turn.{turn_id};

use oz_buffer::{Ledger, Opened, Ready};
use oz_core::{Event, EventKind};
use oz_turn::{Seat, Turn};
use std::sync::Wait;

/// The seat of the flusher.
pub const FLUSHER_SEAT: u16 = 0;

/// Takes what was decided and not taken yet, and answers its last index. None, and nothing is appended, where there is
/// nothing.
pub fn swap<O: Opened, W: Wait>(
    rt: &W,
    turn: &Turn<Ledger<O>>,
    seat: &mut Seat<Ledger<O>>,
    ready: &mut Ready,
) -> Option<u64>
    requires ready { IsReady (turn_id turn.now) flusher_seat seat.old }
    requires empty { ready.old.bytes ≡ [] }
    requires settled { O.coherent → IsSettled O.opening (mine_of seat.old) }
    ensures ready { IsReady (turn_id turn.now) flusher_seat seat.new }
    ensures none { IfNone result ((buffer_of (seen_of seat.new) ≡ []) × (mine_of seat.new ≡ mine_of seat.old)
        × (room_of seat.new ≡ room_of seat.old) × (ready.new.bytes ≡ [])) }
    ensures some { IfSome result (λ index. IsSwapped O.opening index (seen_of seat.old) (mine_of seat.old)
        (seen_of seat.new) (mine_of seat.new) ready.new.bytes) }
    ensures room { IfSome result (λ _. room_of seat.new ≡ room_of seat.old + 2) }
    ensures begins { BeginsWith (seen_of seat.new) (seen_of seat.old) }
    ensures rises { O.coherent → IfSome result (λ index. swapped_index O.opening (mine_of seat.old) < index) }
    ensures known { own_entries (λ event. event.seat) flusher_seat (seen_of seat.old) ≡ mine_of seat.old }
    ensures known_after { own_entries (λ event. event.seat) flusher_seat (seen_of seat.new) ≡ mine_of seat.new }
    ensures follow { AllFollow (Follows O.coherent O.opening O.bytes O.script) [] (seen_of seat.new) }
{
    seat.knows_own();
    let (mut ledger, held) = turn.take(rt, seat);
    ledger.all_follow();
    if !ledger.has_buffered() {
        turn.give_back(seat, ledger, held);
        seat.knows_own();
        return None;
    }
    let index = ledger.last_index();
    let kind = EventKind::Swap { index };
    ledger.swap(
        Event {
            seat: FLUSHER_SEAT,
            kind,
        },
        ready,
    );
    ledger.all_follow();
    turn.give(seat, ledger, held);
    seat.knows_own();
    Some(index)
}

/// Appends what came of the write, and gives back the room that isn't needed then.
pub fn note<O: Opened, W: Wait>(
    rt: &W,
    turn: &Turn<Ledger<O>>,
    seat: &mut Seat<Ledger<O>>,
    kind: EventKind,
)
    requires ready { IsReady (turn_id turn.now) flusher_seat seat.old }
    requires room { 2 ≤ room_of seat.old }
    requires kind { IsNote kind }
    requires follows { (story : List AnyEvent) → AllFollow (Follows O.coherent O.opening O.bytes O.script) [] story
        → own_entries (λ event. event.seat) flusher_seat story ≡ mine_of seat.old
        → Follows O.coherent O.opening O.bytes O.script story (by_flusher kind) }
    ensures ready { IsReady (turn_id turn.now) flusher_seat seat.new }
    ensures noted { IsNoted (by_flusher kind) (seen_of seat.old) (mine_of seat.old) (seen_of seat.new) (mine_of seat.new) }
    ensures room { room_of seat.new + 2 ≡ room_of seat.old }
    ensures known { own_entries (λ event. event.seat) flusher_seat (seen_of seat.new) ≡ mine_of seat.new }
    ensures follow { AllFollow (Follows O.coherent O.opening O.bytes O.script) [] (seen_of seat.new) }
{
    let (mut ledger, held) = turn.take(rt, seat);
    ledger.all_follow();
    ledger.note(Event {
        seat: FLUSHER_SEAT,
        kind,
    });
    ledger.release(FLUSHER_SEAT, 1);
    ledger.all_follow();
    turn.give(seat, ledger, held);
    seat.knows_own();
}

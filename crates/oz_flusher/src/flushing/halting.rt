//! With which count the manager halted.

ghost use Rattle.std.specs.Prelude.{◌≡◌, ℕ, []};
ghost use Rattle.oz_buffer.specs.Buffer.{AllFollow, Follows};
ghost use Rattle.oz_core.specs.declared.event.EventKind.TheVariants.{Halt};
ghost use Rattle.oz_core.specs.declared.event.Node.TheVariants.{Manager};
ghost use Rattle.oz_core.specs.Seats.{flusher_seat};
ghost use Rattle.oz_flusher.specs.flushing.Halts.{EndsInHalt};
ghost use Rattle.oz_turn.specs.Seat.{mine_of, seen_of, IsReady};
ghost use Rattle.oz_turn.specs.Told.{own_entries, BeginsWith};
ghost use Rattle.oz_turn.specs.Turn.{turn_id};

use oz_buffer::{Ledger, Opened};
use oz_core::{Event, EventKind, Node};
use oz_turn::{Seat, Told, Turn};
use std::sync::Wait;

// The seat of the flusher.
const FLUSHER_SEAT: u16 = 0;

/// The count of the Halt that the flusher gave last. It looks for it in the story.
pub(crate) fn halted_count<O: Opened, W: Wait>(
    rt: &W,
    turn: &Turn<Ledger<O>>,
    seat: &mut Seat<Ledger<O>>,
) -> u64
    requires ready { IsReady (turn_id turn.now) flusher_seat seat.old }
    requires halted { (count : ℕ) × EndsInHalt (mine_of seat.old) count }
    ensures count { EndsInHalt (mine_of seat.new) result }
    ensures ready { IsReady (turn_id turn.now) flusher_seat seat.new }
    ensures mine { mine_of seat.new ≡ mine_of seat.old }
    ensures goes_on { BeginsWith (seen_of seat.new) (seen_of seat.old) }
    ensures known { own_entries (λ event. event.seat) flusher_seat (seen_of seat.old) ≡ mine_of seat.old }
    ensures known_after { own_entries (λ event. event.seat) flusher_seat (seen_of seat.new) ≡ mine_of seat.new }
    ensures follow { AllFollow (Follows O.coherent O.opening O.bytes O.script) [] (seen_of seat.new) }
{
    seat.knows_own();
    let (ledger, held) = turn.take(rt, seat);
    ledger.all_follow();
    let count = last_halt(ledger.entries());
    turn.give_back(seat, ledger, held);
    seat.knows_own();
    count
}

/// The count of the last event that the flusher gave, which is a Halt. It looks from the end on.
fn last_halt(story: &[Event]) -> u64
    requires { (count : ℕ) × EndsInHalt (own_entries (λ event. event.seat) flusher_seat story.now) count }
    ensures { EndsInHalt (own_entries (λ event. event.seat) flusher_seat story.now) result }
{
    let mut place = story.len();
    while place > 0 {
        place -= 1;
        let event = &story[place];
        if event.seat == FLUSHER_SEAT {
            return count_in(&event.kind);
        }
    }
    unreachable!()
}

/// The count of a Halt.
fn count_in(kind: &EventKind) -> u64
    requires { (count : ℕ) × (kind.now ≡ Halt Manager count) }
    ensures { kind.now ≡ Halt Manager result }
{
    match kind {
        EventKind::Halt {
            node: Node::Manager,
            count,
        } => *count,
        _ => unreachable!(),
    }
}

//! Looking until an id is decided.

ghost use Rattle.std.specs.Prelude.{◌≡◌, [], IsTrue, IsSome};
ghost use Rattle.oz_asker.specs.Decided.{IsDecideAt};
ghost use Rattle.oz_buffer.specs.Buffer.{AllFollow, Follows};
ghost use Rattle.oz_buffer.specs.Became.{index_of};
ghost use Rattle.oz_turn.specs.Seat.{IsReady, mine_of, room_of, seen_of};
ghost use Rattle.oz_turn.specs.Told.{BeginsWith};
ghost use Rattle.oz_turn.specs.Turn.{turn_id};

use crate::finding::is_decided_at;
use oz_buffer::{Ledger, Opened};
use oz_requests::{AskId, Reply};
use oz_turn::{Seat, Told, Turn};
use std::sync::Wait;

/// Takes the turn again and again, until the event at this place decides the id with this reply. `by` is the seat's
/// number.
pub fn see<O: Opened, W: Wait>(
    rt: &W,
    turn: &Turn<Ledger<O>>,
    seat: &mut Seat<Ledger<O>>,
    by: u16,
    place: usize,
    id: AskId,
    reply: &Reply,
)
    requires { IsReady (turn_id turn.now) by seat.old }
    ensures ready { IsReady (turn_id turn.now) by seat.new }
    ensures room { room_of seat.new ≡ room_of seat.old }
    ensures goes_on { BeginsWith (seen_of seat.new) (seen_of seat.old) }
    ensures mine { mine_of seat.new ≡ mine_of seat.old }
    ensures follow { AllFollow (Follows O.coherent O.opening O.bytes O.script) [] (seen_of seat.new) }
    ensures seen { IsDecideAt (seen_of seat.new) place id reply.now }
    ensures decided { IsSome (index_of id (seen_of seat.new)) }
{
    for _ in rt.forever() {
        if sees(rt, turn, seat, by, place, id, reply) {
            return;
        }
    }
    unreachable!()
}

/// One look.
fn sees<O: Opened, W: Wait>(
    rt: &W,
    turn: &Turn<Ledger<O>>,
    seat: &mut Seat<Ledger<O>>,
    by: u16,
    place: usize,
    id: AskId,
    reply: &Reply,
) -> bool
    requires { IsReady (turn_id turn.now) by seat.old }
    ensures ready { IsReady (turn_id turn.now) by seat.new }
    ensures room { room_of seat.new ≡ room_of seat.old }
    ensures goes_on { BeginsWith (seen_of seat.new) (seen_of seat.old) }
    ensures mine { mine_of seat.new ≡ mine_of seat.old }
    ensures follow { AllFollow (Follows O.coherent O.opening O.bytes O.script) [] (seen_of seat.new) }
    ensures seen { IsTrue result → IsDecideAt (seen_of seat.new) place id reply.now }
{
    let (ledger, held) = turn.take(rt, seat);
    ledger.all_follow();
    let decided = is_decided_at(ledger.entries(), place, id, reply);
    turn.give_back(seat, ledger, held);
    decided
}

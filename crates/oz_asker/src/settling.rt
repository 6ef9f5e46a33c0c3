//! Whether what was decided is stable.

ghost use Rattle.std.specs.Prelude.{◌≡◌, [], IsSome};
ghost use Rattle.oz_asker.specs.Settled.{IsSettlement};
ghost use Rattle.oz_buffer.specs.Buffer.{AllFollow, Follows};
ghost use Rattle.oz_buffer.specs.Became.{index_of};
ghost use Rattle.oz_turn.specs.Seat.{IsReady, mine_of, room_of, seen_of};
ghost use Rattle.oz_turn.specs.Told.{BeginsWith};
ghost use Rattle.oz_turn.specs.Turn.{turn_id};

use oz_buffer::{Ledger, Opened};
use oz_core::Node;
use oz_requests::AskId;
use oz_turn::{Seat, Turn};
use std::sync::Wait;

/// Whether the last Decide of an id is stable. Where it isn't, and the manager has halted, it never will be: the answer
/// is how often its disks had failed. `by` is the seat's number.
pub fn settle<O: Opened, W: Wait>(
    rt: &W,
    turn: &Turn<Ledger<O>>,
    seat: &mut Seat<Ledger<O>>,
    by: u16,
    id: AskId,
) -> Result<bool, u64>
    requires ready { IsReady (turn_id turn.now) by seat.old }
    requires decided { IsSome (index_of id (seen_of seat.old)) }
    ensures ready { IsReady (turn_id turn.now) by seat.new }
    ensures room { room_of seat.new ≡ room_of seat.old }
    ensures goes_on { BeginsWith (seen_of seat.new) (seen_of seat.old) }
    ensures mine { mine_of seat.new ≡ mine_of seat.old }
    ensures follow { AllFollow (Follows O.coherent O.opening O.bytes O.script) [] (seen_of seat.new) }
    ensures told { IsSettlement O.opening (seen_of seat.new) id result }
{
    let (ledger, held) = turn.take(rt, seat);
    ledger.all_follow();
    let settled = settlement(&ledger, id);
    turn.give_back(seat, ledger, held);
    settled
}

fn settlement<O: Opened>(ledger: &Ledger<O>, id: AskId) -> Result<bool, u64>
    requires { IsSome (index_of id ledger.now.story) }
    ensures { IsSettlement O.opening ledger.now.story id result }
{
    let Some(index) = ledger.index_of(id) else {
        unreachable!()
    };
    if index <= ledger.durable_index() {
        return Ok(true);
    }
    match ledger.halt(Node::Manager) {
        Some(count) => Err(count),
        None => Ok(false),
    }
}

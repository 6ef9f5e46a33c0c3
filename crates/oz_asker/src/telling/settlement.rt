//! Whether what was decided for a line is stable, and will be.

ghost use Rattle.std.specs.Prelude.{◌≡◌, []};
ghost use Rattle.oz_buffer.specs.Buffer.{AllFollow, Follows};
ghost use Rattle.oz_asker.specs.telling.Settled.{IsLineSettlement};
ghost use Rattle.oz_turn.specs.Seat.{IsReady, mine_of, room_of, seen_of};
ghost use Rattle.oz_turn.specs.Told.{BeginsWith};
ghost use Rattle.oz_turn.specs.Turn.{turn_id};

use crate::telling::manager::{had_stopped, is_stable};
use oz_buffer::{Ledger, Opened};
use oz_core::Node;
use oz_requests::AskId;
use oz_turn::{Seat, Turn};
use std::sync::Wait;

/// What stands of all that was decided for a line. A `count` is how often the manager's disks had failed as it halted.
#[derive(Clone, Copy, Debug, PartialEq, Eq)]
pub enum Settlement {
    /// It is stable, and the manager hadn't halted when the line asked last.
    Stable,
    /// It isn't, and the manager hasn't halted: a flush may make it so.
    Waits,
    /// It isn't, and never will be, since the manager has halted.
    Unacknowledged { count: u64 },
    /// It is, and the manager had halted when the line asked last; of a line that asked nothing, it has halted.
    Stopped { count: u64 },
}

/// Looks at a line once, by what it asked last. `by` is the seat's number.
pub fn settle_line<O: Opened, W: Wait>(
    rt: &W,
    turn: &Turn<Ledger<O>>,
    seat: &mut Seat<Ledger<O>>,
    by: u16,
    client: u16,
    line: u16,
    last: Option<AskId>,
) -> Settlement
    requires { IsReady (turn_id turn.now) by seat.old }
    ensures ready { IsReady (turn_id turn.now) by seat.new }
    ensures room { room_of seat.new ≡ room_of seat.old }
    ensures goes_on { BeginsWith (seen_of seat.new) (seen_of seat.old) }
    ensures mine { mine_of seat.new ≡ mine_of seat.old }
    ensures follow { AllFollow (Follows O.coherent O.opening O.bytes O.script) [] (seen_of seat.new) }
    ensures told { IsLineSettlement O.opening (seen_of seat.new) client line last result }
{
    let (ledger, held) = turn.take(rt, seat);
    ledger.all_follow();
    let settlement = settlement_of(&ledger, client, line, last);
    turn.give_back(seat, ledger, held);
    settlement
}

fn settlement_of<O: Opened>(
    ledger: &Ledger<O>,
    client: u16,
    line: u16,
    last: Option<AskId>,
) -> Settlement
    ensures { IsLineSettlement O.opening ledger.now.story client line last result }
{
    let halt = ledger.halt(Node::Manager);
    if !is_stable(ledger, client, line) {
        return match halt {
            Some(count) => Settlement::Unacknowledged { count },
            None => Settlement::Waits,
        };
    }
    if !had_stopped(ledger, last) {
        return Settlement::Stable;
    }
    match halt {
        Some(count) => Settlement::Stopped { count },
        None => unreachable!(),
    }
}

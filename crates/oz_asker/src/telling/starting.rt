//! Whether a line may start.

ghost use Rattle.std.specs.Prelude.{◌≡◌, ◌↔◌, [], IsTrue};
ghost use Rattle.oz_buffer.specs.Buffer.{AllFollow, Follows};
ghost use Rattle.oz_core.specs.Lines.{AfterIsTold, HasStarted};
ghost use Rattle.oz_turn.specs.Seat.{IsReady, mine_of, room_of, seen_of};
ghost use Rattle.oz_turn.specs.Told.{BeginsWith};
ghost use Rattle.oz_turn.specs.Turn.{turn_id};

use oz_buffer::{Ledger, Opened};
use oz_script::Line;
use oz_turn::{Seat, Turn};
use std::sync::Wait;

/// Whether those lines were told that have to be before this one. `by` is the seat's number.
pub fn has_started<O: Opened, W: Wait>(
    rt: &W,
    turn: &Turn<Ledger<O>>,
    seat: &mut Seat<Ledger<O>>,
    by: u16,
    line: &Line,
) -> bool
    requires { IsReady (turn_id turn.now) by seat.old }
    ensures ready { IsReady (turn_id turn.now) by seat.new }
    ensures room { room_of seat.new ≡ room_of seat.old }
    ensures goes_on { BeginsWith (seen_of seat.new) (seen_of seat.old) }
    ensures mine { mine_of seat.new ≡ mine_of seat.old }
    ensures follow { AllFollow (Follows O.coherent O.opening O.bytes O.script) [] (seen_of seat.new) }
    ensures started { IsTrue result ↔ HasStarted (seen_of seat.new) line.now }
{
    let (ledger, held) = turn.take(rt, seat);
    ledger.all_follow();
    let started = starts(&ledger, line);
    turn.give_back(seat, ledger, held);
    started
}

fn starts<O: Opened>(ledger: &Ledger<O>, line: &Line) -> bool
    ensures { IsTrue result ↔ HasStarted ledger.now.story line.now }
{
    let first = line.number <= 1;
    (first || ledger.is_told(line.client, line.number - 1)) && after_is_told(ledger, line.after)
}

fn after_is_told<O: Opened>(ledger: &Ledger<O>, after: Option<(u16, u16)>) -> bool
    ensures { IsTrue result ↔ AfterIsTold ledger.now.story after }
{
    match after {
        Some((client, line)) => ledger.is_told(client, line),
        None => true,
    }
}

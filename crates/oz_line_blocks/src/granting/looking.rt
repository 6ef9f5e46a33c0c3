//! What the asker's seat sees while the storage container manager is locked.

ghost use Rattle.std.specs.Prelude.{◌≡◌, ◌≤◌, ◌↔◌, length, take, IsTrue};
ghost use Rattle.oz_core.specs.Seats.{scm_seat};
ghost use Rattle.oz_asker.specs.telling.Still.{StandsStill};
ghost use Rattle.oz_turn.specs.Seat.{IsReady, seen_of};
ghost use Rattle.oz_turn.specs.Told.{own_entries};
ghost use Rattle.oz_turn.specs.Turn.{turn_id};
ghost use Rattle.oz_line_blocks.specs.Seats.{MayTake, SawStory};

use oz_asker::{Still, stands_still, story_length};
use oz_buffer::{Ledger, Opened};
use oz_scm_events::ScmCell;
use oz_turn::{Ring, Seat, Told, Turn};
use oz_world::Disk;
use std::sync::Wait;

/// Whether a seat has stood still. `by` is the number of the seat that looks.
pub(crate) fn has_stood_still<O: Opened, W: Wait>(
    rt: &W,
    turn: &Turn<Ledger<O>>,
    seat: &mut Seat<Ledger<O>>,
    by: u16,
    still: Still,
) -> bool
    requires { IsReady (turn_id turn.now) by seat.old }
    ensures looked { SawStory O.Opened (turn_id turn.now) by seat.old seat.new }
    ensures stood { IsTrue result ↔ StandsStill (seen_of seat.new) still }
{
    let (ledger, held) = turn.take(rt, seat);
    ledger.all_follow();
    let stood = stands_still(ledger.entries(), still);
    turn.give_back(seat, ledger, held);
    stood
}

/// How long the story is, in which the storage container manager's events are all that it gave.
pub(crate) fn length_at_rest<D: Disk, O: Opened, R: Ring, W: Wait>(
    rt: &W,
    turn: &Turn<Ledger<O>>,
    cell: &mut ScmCell<D, Ledger<O>, O, R>,
    seat: &mut Seat<Ledger<O>>,
    by: u16,
) -> u64
    requires seat { MayTake R.turn (turn_id turn.now) by seat.old }
    requires shown { own_entries (λ event. event.seat) scm_seat (seen_of seat.old) ≡ cell.old.mine }
    ensures mine { cell.new.mine ≡ cell.old.mine }
    ensures within { result ≤ length (seen_of seat.new) }
    ensures all { own_entries (λ event. event.seat) scm_seat (take result (seen_of seat.new)) ≡ cell.new.mine }
    ensures looked { SawStory O.Opened R.turn by seat.old seat.new }
{
    let length = story_length(rt, turn, seat, by);
    cell.show(rt, turn, seat);
    length
}

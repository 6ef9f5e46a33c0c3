//! The turn ends.

ghost use Rattle.std.specs.Prelude.{◌≡◌, ◌≤◌, ◌↔◌, length, true, vec_len};
ghost use Rattle.oz_core.specs.Seats.{first_worker_seat};
ghost use Rattle.oz_script.specs.declared.lines.script.TheConstants.{MOST_CLIENTS};
ghost use Rattle.oz_script.specs.lines.Numbered.{IsNumbered};
ghost use Rattle.oz_running.specs.Left.{IsLeft};
ghost use Rattle.oz_running.specs.Run.{IsRun, IsWorkedOff};
ghost use Rattle.oz_turn.specs.Turn.{seats_of, turn_id};

use crate::counting::each_is_told_as_many;
use crate::leaving::Left;
use crate::ran::Ran;
use oz_buffer::{Ledger, Opened};
use oz_flusher::{Mounted, the_whole_story_is_kept};
use oz_headline::its_seat_alone_tells;
use oz_locks::Loaded;
use oz_script::Script;
use oz_turn::{Ring, Turn, ready_seats_may_close};
use oz_world::Disk;

/// Whether each client was told all its lines, and nothing is left to be flushed where the manager hasn't halted.
fn is_worked_off<O: Opened>(script: &Script, ledger: &Ledger<O>, stopped: bool) -> bool
    requires { length script.now.clients ≤ MOST_CLIENTS }
    ensures { (result ≡ true) ↔ IsWorkedOff stopped script.now ledger.now.story }
{
    if !stopped && ledger.has_buffered() {
        return false;
    }
    each_is_told_as_many(script, ledger)
}

/// What a run leaves whose nodes and seats are all back. It takes no memory.
pub(crate) fn ended<D: Disk, O: Opened, L: Loaded, M: Mounted, R: Ring>(
    turn: Turn<Ledger<O>>,
    script: &Script,
    left: Left<D, Ledger<O>>,
) -> Ran<D>
    requires script { script.now ≡ O.script }
    requires numbered { IsNumbered O.script }
    requires turn { turn_id turn ≡ R.turn }
    requires count { vec_len left.seats ≡ seats_of turn }
    requires many { first_worker_seat ≤ vec_len left.seats }
    requires left { IsLeft D.told D.clock D.image D.faults O.coherent O.opening O.bytes O.script O.faults R.turn O.bodies
        M.disk L.rows left.journal.stopped left.journal.disk left.scm left.nodes.items left.seats.items }
    ensures { IsRun D.told D.clock D.image D.faults O.coherent O.opening O.bytes O.bodies O.script O.faults M.disk L.rows
        (seats_of turn) result }
{
    ready_seats_may_close::<Ledger<O>>();
    the_whole_story_is_kept::<D, O, M>();
    its_seat_alone_tells::<D, O>();
    let Left {
        journal,
        scm,
        nodes,
        seats,
    } = left;
    let ledger = turn.close(seats);
    let is_done = is_worked_off(script, &ledger, journal.stopped());
    let story = ledger.into_story();
    Ran {
        story,
        journal,
        scm,
        nodes,
        is_done,
    }
}

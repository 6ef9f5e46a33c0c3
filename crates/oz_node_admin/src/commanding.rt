//! What a line's command to have a datanode run, or not, comes to.

ghost use Rattle.std.specs.Prelude.{◌≡◌, ◌+◌, ◌≤◌, ◌<◌, IfOk, Ok, OnErr, OnOk, not, slice_index, slice_set};
ghost use Rattle.oz_script.specs.declared.lines.script.TheConstants.{MOST_CLIENTS as MOST};
ghost use Rattle.oz_node_admin.specs.Commands.{ComesTo, HasBeen, last_after, own_after, run_done};
ghost use Rattle.oz_node_admin.specs.Seats.{MayChange, MayCommand, MayTake, OnlyLooked, ScmWentOn, StillStands, WasLeft};
ghost use Rattle.oz_node_events.specs.Led.{HasItDone};
ghost use Rattle.oz_node_events.specs.NodeSeat.{StandsFor};
ghost use Rattle.oz_replicas.specs.Stays.{IsIdle};
ghost use Rattle.oz_scm_events.specs.Tracked.{IsTracked};
ghost use Rattle.oz_turn.specs.Seat.{seen_of};
ghost use Rattle.oz_turn.specs.Told.{BeginsWith};
ghost use Rattle.oz_turn.specs.Turn.{turn_id};

use crate::changing::see_to;
use crate::fault::AdminFault;
use oz_buffer::{Ledger, Opened};
use oz_datanode::Datanode;
use oz_fields::OutOfMemory;
use oz_node_events::{
    NodeSeat, a_line_has_it_run_or_not, it_stands_where_it_saw_more, its_seat_alone_tells,
};
use oz_scm_events::{ScmCell, a_datanode_alone_tells_that_it_runs, the_scm_alone_tells};
use oz_script::Line;
use oz_turn::{Ring, Seat, Turn};
use oz_world::Disk;
use std::alloc::Global;
use std::sync::Wait;

/// Has the datanode beside which this seat is kept run, or not, and has it taken for up or down.
pub(crate) fn command<D: Disk, S: Disk, O: Opened, R: Ring, W: Wait>(
    rt: &W,
    alloc: Global,
    turn: &Turn<Ledger<O>>,
    scm: &mut ScmCell<S, Ledger<O>, O, R>,
    node: &mut Datanode<D>,
    kept: &mut NodeSeat<Ledger<O>, O, R>,
    seat: &mut Seat<Ledger<O>>,
    line: &Line,
    runs: bool,
) -> Result<(), AdminFault>
    requires seat { MayTake R.turn (turn_id turn.now) seat.old }
    requires idle { IsIdle node.old }
    requires stood { StandsFor D.told D.clock D.image D.faults O.coherent O.opening O.bytes O.script O.faults kept.old node.old }
    requires may { MayCommand O.Opened (seen_of seat.old) kept.old.dn (run_done runs) line.now }
    ensures comes_to { ComesTo (record { node = node.old; kept = kept.old }) (record { node = node.new; kept = kept.new })
        scm.old scm.new D.faults O.coherent O.script runs line.now (seen_of seat.old) (seen_of seat.new) result }
    ensures shelf { node.new.shelf ≡ node.old.shelf }
    ensures stays { StillStands D.Disk O.Opened kept.old kept.new node.new }
    ensures scm { ScmWentOn scm.old scm.new }
    ensures looked { OnlyLooked R.turn seat.old seat.new }
{
    its_seat_alone_tells::<D, O>();
    it_stands_where_it_saw_more::<D, O>();
    kept.is_kept();
    if node.halted() {
        kept.show(rt, turn, seat);
        return Err(AdminFault::Halted {
            count: node.count(),
        });
    }
    if node.running() != runs && kept.last(line.client) >= line.number {
        kept.is_led();
        return Err(AdminFault::Repeated);
    }
    scm.ready(rt, alloc, turn)?;
    match carry_out(rt, alloc, turn, scm, node, kept, seat, line, runs) {
        Ok(_changed) => Ok(()),
        Err(_memory) => Err(AdminFault::OutOfMemory),
    }
}

/// The same, with room for the event of the storage container manager. Where nothing happens the room is given back.
fn carry_out<D: Disk, S: Disk, O: Opened, R: Ring, W: Wait>(
    rt: &W,
    alloc: Global,
    turn: &Turn<Ledger<O>>,
    scm: &mut ScmCell<S, Ledger<O>, O, R>,
    node: &mut Datanode<D>,
    kept: &mut NodeSeat<Ledger<O>, O, R>,
    seat: &mut Seat<Ledger<O>>,
    line: &Line,
    runs: bool,
) -> Result<bool, OutOfMemory>
    requires seat { MayTake R.turn (turn_id turn.now) seat.old }
    requires able { MayChange D.Disk O.Opened kept.old node.old }
    requires idle { IsIdle node.old }
    requires scm_room { 1 ≤ scm.old.room }
    requires client { line.now.client ≤ MOST }
    requires behind { node.old.stopped ≡ runs → slice_index kept.old.last line.now.client < line.now.number }
    requires line { O.coherent → HasItDone O.script (seen_of seat.old) kept.old.dn (run_done runs) line.now }
    ensures node { OnOk result (node.new ≡ record node.old { stopped = not runs }) }
    ensures its { OnOk result (kept.new.mine ≡ own_after kept.old.dn runs node.old.stopped kept.old.mine) }
    ensures last { OnOk result (kept.new.last ≡ last_after runs node.old.stopped line.now kept.old.last) }
    ensures of_the_scm { IfOk result (λ r. IsTracked {E = Unit {0}} kept.old.dn runs scm.old.mine scm.new.mine (Ok r)) }
    ensures scm { OnOk result (scm.new.scm ≡ record scm.old.scm { up = slice_set scm.old.scm.up kept.old.dn runs }) }
    ensures has_been { OnOk result (HasBeen O.coherent kept.old.dn runs (seen_of seat.old) (seen_of seat.new)) }
    ensures left { OnErr result (WasLeft kept.old kept.new node.old node.new) }
    ensures scm_left { OnErr result ((scm.new.scm ≡ scm.old.scm) × (scm.new.mine ≡ scm.old.mine)) }
    ensures scm_room { scm.new.room + 1 ≡ scm.old.room }
    ensures scm_goes_on { BeginsWith scm.new.seen scm.old.seen }
    ensures stays { StillStands D.Disk O.Opened kept.old kept.new node.new }
    ensures looked { OnlyLooked R.turn seat.old seat.new }
{
    a_line_has_it_run_or_not::<D, O>();
    it_stands_where_it_saw_more::<D, O>();
    a_datanode_alone_tells_that_it_runs::<O>();
    the_scm_alone_tells::<O>();
    match see_to(rt, alloc, turn, node, kept, seat, line, runs) {
        Ok(()) => Ok(kept.track(rt, turn, scm, seat, runs)),
        Err(error) => {
            scm.unready(rt, turn);
            Err(error)
        }
    }
}

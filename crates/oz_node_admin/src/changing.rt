//! Having a datanode run or not, and telling so.

ghost use Rattle.std.specs.Prelude.{◌≡◌, ◌≤◌, ◌<◌, OnErr, OnOk, not, slice_index};
ghost use Rattle.oz_script.specs.declared.lines.script.TheConstants.{MOST_CLIENTS as MOST};
ghost use Rattle.oz_node_admin.specs.Commands.{last_after, own_after, run_done};
ghost use Rattle.oz_node_admin.specs.Seats.{MayChange, MayTake, OnlyLooked, StillStands, WasLeft};
ghost use Rattle.oz_node_events.specs.Led.{HasItDone};
ghost use Rattle.oz_replicas.specs.Stays.{IsIdle};
ghost use Rattle.oz_turn.specs.Seat.{seen_of};
ghost use Rattle.oz_turn.specs.Turn.{turn_id};

use oz_buffer::{Ledger, Opened};
use oz_datanode::Datanode;
use oz_fields::OutOfMemory;
use oz_node_events::{NodeCommand, NodeSeat, it_stands_where_it_saw_more};
use oz_script::Line;
use oz_turn::{Ring, Seat, Turn};
use oz_world::Disk;
use std::alloc::Global;
use std::sync::Wait;

/// Has a datanode run, or not, for a line, and appends the Start or the Stop where it didn't yet. Another seat sees all of it.
///
/// Errors: where there is no memory, or the line was told its answer before, nothing happens.
pub(crate) fn see_to<D: Disk, O: Opened, R: Ring, W: Wait>(
    rt: &W,
    alloc: Global,
    turn: &Turn<Ledger<O>>,
    node: &mut Datanode<D>,
    kept: &mut NodeSeat<Ledger<O>, O, R>,
    seat: &mut Seat<Ledger<O>>,
    line: &Line,
    runs: bool,
) -> Result<(), OutOfMemory>
    requires seat { MayTake R.turn (turn_id turn.now) seat.old }
    requires able { MayChange D.Disk O.Opened kept.old node.old }
    requires idle { IsIdle node.old }
    requires client { line.now.client ≤ MOST }
    requires behind { node.old.stopped ≡ runs → slice_index kept.old.last line.now.client < line.now.number }
    requires line { O.coherent → HasItDone O.script (seen_of seat.old) kept.old.dn (run_done runs) line.now }
    ensures node { OnOk result (node.new ≡ record node.old { stopped = not runs }) }
    ensures its { OnOk result (kept.new.mine ≡ own_after kept.old.dn runs node.old.stopped kept.old.mine) }
    ensures last { OnOk result (kept.new.last ≡ last_after runs node.old.stopped line.now kept.old.last) }
    ensures left { OnErr result (WasLeft kept.old kept.new node.old node.new) }
    ensures stays { StillStands D.Disk O.Opened kept.old kept.new node.new }
    ensures looked { OnlyLooked R.turn seat.old seat.new }
    ensures seen { seen_of seat.new ≡ kept.new.seen }
{
    it_stands_where_it_saw_more::<D, O>();
    if node.running() != runs {
        return change(rt, alloc, turn, node, kept, seat, line, runs);
    }
    kept.show(rt, turn, seat);
    Ok(())
}

/// The same of a datanode that doesn't do so yet.
fn change<D: Disk, O: Opened, R: Ring, W: Wait>(
    rt: &W,
    alloc: Global,
    turn: &Turn<Ledger<O>>,
    node: &mut Datanode<D>,
    kept: &mut NodeSeat<Ledger<O>, O, R>,
    seat: &mut Seat<Ledger<O>>,
    line: &Line,
    runs: bool,
) -> Result<(), OutOfMemory>
    requires seat { MayTake R.turn (turn_id turn.now) seat.old }
    requires able { MayChange D.Disk O.Opened kept.old node.old }
    requires idle { IsIdle node.old }
    requires other { node.old.stopped ≡ runs }
    requires client { line.now.client ≤ MOST }
    requires behind { slice_index kept.old.last line.now.client < line.now.number }
    requires line { O.coherent → HasItDone O.script (seen_of seat.old) kept.old.dn (run_done runs) line.now }
    ensures node { OnOk result (node.new ≡ record node.old { stopped = not runs }) }
    ensures its { OnOk result (kept.new.mine ≡ own_after kept.old.dn runs node.old.stopped kept.old.mine) }
    ensures last { OnOk result (kept.new.last ≡ last_after runs node.old.stopped line.now kept.old.last) }
    ensures left { OnErr result (WasLeft kept.old kept.new node.old node.new) }
    ensures stays { StillStands D.Disk O.Opened kept.old kept.new node.new }
    ensures looked { OnlyLooked R.turn seat.old seat.new }
    ensures seen { seen_of seat.new ≡ kept.new.seen }
{
    match kept.do_for(rt, alloc, turn, seat, node, line, run_done(runs)) {
        Ok(()) => Ok(()),
        Err(_refusal) => Err(OutOfMemory),
    }
}

fn run_done(runs: bool) -> NodeCommand
    ensures { result ≡ run_done runs }
{
    if runs {
        NodeCommand::Start
    } else {
        NodeCommand::Stop
    }
}

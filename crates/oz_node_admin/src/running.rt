//! Stopping and starting a datanode.

ghost use Rattle.std.specs.Prelude.{true, false};
ghost use Rattle.oz_node_admin.specs.Commands.{ComesTo};
ghost use Rattle.oz_node_admin.specs.Seats.{MayCommand, MayTake, OnlyLooked, ScmWentOn, StillStands};
ghost use Rattle.oz_node_events.specs.declared.command.NodeCommand.TheVariants.{Start, Stop};
ghost use Rattle.oz_node_events.specs.NodeSeat.{StandsFor};
ghost use Rattle.oz_turn.specs.Seat.{seen_of};
ghost use Rattle.oz_turn.specs.Turn.{turn_id};

use crate::commanding::command;
use crate::fault::AdminFault;
use oz_buffer::{Ledger, Opened};
use oz_node_events::NodeSeat;
use oz_replicas::NodeCell;
use oz_scm_events::ScmCell;
use oz_script::Line;
use oz_turn::{Ring, Seat, Turn};
use oz_world::Disk;
use std::alloc::Global;
use std::sync::Wait;

/// Stops the datanode of a cell for a line: it keeps what it holds. The line's worker holds the lock of the storage container
/// manager and the cell's. The datanode's seat tells the Stop, and the storage container manager's tells the Down; where a line
/// had stopped the datanode before, or it was taken for down, that isn't told again. The worker's seat has seen then that it
/// neither runs nor is up. Room for both events is made before anything is done.
///
/// The line is one of the script, with this command, and has started.
///
/// Errors: `Halted` exactly where a disk of the datanode had failed; `Repeated` where the datanode is to be stopped and this
/// line, or a later one of its client, had something done to it before; `OutOfMemory`, also where the line was told its answer
/// before, which no worker does. Then nothing happens.
pub fn stop_at<D: Disk, S: Disk, O: Opened, R: Ring, W: Wait>(
    rt: &W,
    alloc: Global,
    turn: &Turn<Ledger<O>>,
    scm: &mut ScmCell<S, Ledger<O>, O, R>,
    cell: &mut NodeCell<D, NodeSeat<Ledger<O>, O, R>>,
    seat: &mut Seat<Ledger<O>>,
    line: &Line,
) -> Result<(), AdminFault>
    requires seat { MayTake R.turn (turn_id turn.now) seat.old }
    requires may { MayCommand O.Opened (seen_of seat.old) cell.old.kept.dn Stop line.now }
    ensures comes_to { ComesTo cell.old cell.new scm.old scm.new D.faults O.coherent O.script false line.now (seen_of seat.old)
        (seen_of seat.new) result }
    ensures stood { StandsFor D.told D.clock D.image D.faults O.coherent O.opening O.bytes O.script O.faults cell.old.kept cell.old.node }
    ensures stays { StillStands D.Disk O.Opened cell.old.kept cell.new.kept cell.new.node }
    ensures scm { ScmWentOn scm.old scm.new }
    ensures looked { OnlyLooked R.turn seat.old seat.new }
{
    command(
        rt,
        alloc,
        turn,
        scm,
        &mut cell.node,
        &mut cell.kept,
        seat,
        line,
        false,
    )
}

/// Starts the datanode of a cell for a line, with what it held. As `stop_at`, with a Start and an Up: the worker's seat has seen
/// then that it runs and is up.
///
/// It isn't told here which containers aren't open: what it holds of them stays open for it.
pub fn start_at<D: Disk, S: Disk, O: Opened, R: Ring, W: Wait>(
    rt: &W,
    alloc: Global,
    turn: &Turn<Ledger<O>>,
    scm: &mut ScmCell<S, Ledger<O>, O, R>,
    cell: &mut NodeCell<D, NodeSeat<Ledger<O>, O, R>>,
    seat: &mut Seat<Ledger<O>>,
    line: &Line,
) -> Result<(), AdminFault>
    requires seat { MayTake R.turn (turn_id turn.now) seat.old }
    requires may { MayCommand O.Opened (seen_of seat.old) cell.old.kept.dn Start line.now }
    ensures comes_to { ComesTo cell.old cell.new scm.old scm.new D.faults O.coherent O.script true line.now (seen_of seat.old)
        (seen_of seat.new) result }
    ensures stood { StandsFor D.told D.clock D.image D.faults O.coherent O.opening O.bytes O.script O.faults cell.old.kept cell.old.node }
    ensures stays { StillStands D.Disk O.Opened cell.old.kept cell.new.kept cell.new.node }
    ensures scm { ScmWentOn scm.old scm.new }
    ensures looked { OnlyLooked R.turn seat.old seat.new }
{
    command(
        rt,
        alloc,
        turn,
        scm,
        &mut cell.node,
        &mut cell.kept,
        seat,
        line,
        true,
    )
}

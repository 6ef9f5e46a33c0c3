//! Having something done to a datanode under its locks.

ghost use Rattle.std.specs.Prelude.{◌≡◌, ◌<◌};
ghost use Rattle.oz_node_admin.specs.Came.{CameOf};
ghost use Rattle.oz_node_admin.specs.Seats.{MayCommand, MayTake, OnlyLooked};
ghost use Rattle.oz_turn.specs.Seat.{seen_of};
ghost use Rattle.oz_turn.specs.Turn.{turn_id};

use crate::fault::AdminFault;
use crate::running::{start_at, stop_at};
use crate::wiped::wipe_at;
use oz_buffer::{Ledger, Opened};
use oz_node_events::{NodeCommand, NodeSeat};
use oz_replicas::{NodeCell, Nodes};
use oz_scm_events::ScmCell;
use oz_script::Line;
use oz_turn::{Ring, Seat, Turn};
use oz_world::Disk;
use std::alloc::Global;
use std::sync::{Mutex, Wait};

/// Has a line's command done to the datanode of this number, under the lock of the storage container manager and then the
/// datanode's. Both are let go again. The worker's seat has seen then that it was done.
///
/// Errors: `Halted` where a disk of the datanode has failed, before or now, and the seat has seen the Halt; `Repeated` where
/// the line, or a later one of its client, had something done to it before, and the datanode isn't as commanded;
/// `OutOfMemory`. Where a disk hadn't failed nothing happens then.
pub fn have_done<D: Disk, O: Opened, R: Ring, W: Wait>(
    rt: &W,
    alloc: Global,
    turn: &Turn<Ledger<O>>,
    scm: &Mutex<ScmCell<D, Ledger<O>, O, R>>,
    nodes: &Nodes<D, NodeSeat<Ledger<O>, O, R>>,
    seat: &mut Seat<Ledger<O>>,
    line: &Line,
    dn: u8,
    done: NodeCommand,
) -> Result<(), AdminFault>
    requires seat { MayTake R.turn (turn_id turn.now) seat.old }
    requires there { dn < nodes.now }
    requires may { MayCommand O.Opened (seen_of seat.old) dn done line.now }
    ensures came { CameOf O.coherent O.opening O.bytes O.script dn done line.now (seen_of seat.old) (seen_of seat.new) result }
    ensures looked { OnlyLooked R.turn seat.old seat.new }
{
    let mut manager = scm.lock(rt);
    let mut cell = nodes.lock(rt, dn);
    done_locked(
        rt,
        alloc,
        turn,
        &mut manager,
        &mut cell,
        seat,
        line,
        dn,
        done,
    )
}

/// The same, while both locks are held.
fn done_locked<D: Disk, O: Opened, R: Ring, W: Wait>(
    rt: &W,
    alloc: Global,
    turn: &Turn<Ledger<O>>,
    scm: &mut ScmCell<D, Ledger<O>, O, R>,
    cell: &mut NodeCell<D, NodeSeat<Ledger<O>, O, R>>,
    seat: &mut Seat<Ledger<O>>,
    line: &Line,
    dn: u8,
    done: NodeCommand,
) -> Result<(), AdminFault>
    requires seat { MayTake R.turn (turn_id turn.now) seat.old }
    requires its { cell.old.node.id ≡ dn }
    requires may { MayCommand O.Opened (seen_of seat.old) dn done line.now }
    ensures came { CameOf O.coherent O.opening O.bytes O.script dn done line.now (seen_of seat.old) (seen_of seat.new) result }
    ensures looked { OnlyLooked R.turn seat.old seat.new }
{
    cell.kept.is_kept();
    match done {
        NodeCommand::Stop => stop_at(rt, alloc, turn, scm, cell, seat, line),
        NodeCommand::Start => start_at(rt, alloc, turn, scm, cell, seat, line),
        NodeCommand::Wipe => wipe_at(rt, alloc, turn, scm, cell, seat, line),
    }
}

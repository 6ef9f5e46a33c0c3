//! Taking datanodes for down whose disks have failed.

ghost use Rattle.std.specs.Prelude.{◌≡◌, ◌≢◌, ◌≤◌, ◌<◌, None, false, OnOk};
ghost use Rattle.oz_core.specs.declared.event.Node.TheVariants.{Datanode};
ghost use Rattle.oz_core.specs.Manager.{halt_of};
ghost use Rattle.oz_node_admin.specs.Commands.{HasBeen};
ghost use Rattle.oz_node_admin.specs.Halts.{AreDown, is_left_up};
ghost use Rattle.oz_node_admin.specs.Seats.{MayTake, OnlyLooked};
ghost use Rattle.oz_node_events.specs.NodeSeat.{IsKept};
ghost use Rattle.oz_turn.specs.Seat.{IsReady, number_of, seen_of};
ghost use Rattle.oz_turn.specs.Told.{BeginsWith};
ghost use Rattle.oz_turn.specs.Turn.{turn_id};

use oz_buffer::{Ledger, Opened};
use oz_core::Node;
use oz_fields::OutOfMemory;
use oz_node_events::{NodeSeat, it_stands_where_it_saw_more, its_seat_alone_tells};
use oz_replicas::{NodeCell, Nodes};
use oz_scm_events::{ScmCell, a_datanode_alone_tells_that_it_runs, the_scm_alone_tells};
use oz_turn::{Ring, Seat, Turn};
use oz_world::Disk;
use std::alloc::Global;
use std::sync::{Mutex, Wait};

/// Takes each datanode that has halted by now for down: under the lock of the storage container manager and then the
/// datanode's. Where it was taken for down before, that isn't told again, and neither lock is taken. `count` is how many
/// datanodes there are.
///
/// Errors: where there is no memory some of them may still be taken for up.
pub fn take_down_halted<D: Disk, O: Opened, R: Ring, W: Wait>(
    rt: &W,
    alloc: Global,
    turn: &Turn<Ledger<O>>,
    scm: &Mutex<ScmCell<D, Ledger<O>, O, R>>,
    nodes: &Nodes<D, NodeSeat<Ledger<O>, O, R>>,
    seat: &mut Seat<Ledger<O>>,
    count: u8,
) -> Result<(), OutOfMemory>
    requires seat { MayTake R.turn (turn_id turn.now) seat.old }
    requires there { count ≤ nodes.now }
    ensures down { OnOk result (AreDown O.coherent count (seen_of seat.old) (seen_of seat.new)) }
    ensures looked { OnlyLooked R.turn seat.old seat.new }
{
    for dn in 0..count {
        take_down_where_halted(rt, alloc, turn, scm, nodes, seat, dn)?;
    }
    Ok(())
}

/// The same of one datanode.
fn take_down_where_halted<D: Disk, O: Opened, R: Ring, W: Wait>(
    rt: &W,
    alloc: Global,
    turn: &Turn<Ledger<O>>,
    scm: &Mutex<ScmCell<D, Ledger<O>, O, R>>,
    nodes: &Nodes<D, NodeSeat<Ledger<O>, O, R>>,
    seat: &mut Seat<Ledger<O>>,
    dn: u8,
) -> Result<(), OutOfMemory>
    requires seat { MayTake R.turn (turn_id turn.now) seat.old }
    requires there { dn < nodes.now }
    ensures down { OnOk result (halt_of (Datanode dn) (seen_of seat.old) ≢ None
        → HasBeen O.coherent dn false (seen_of seat.old) (seen_of seat.new)) }
    ensures looked { OnlyLooked R.turn seat.old seat.new }
{
    if !is_left_up(rt, turn, seat, dn) {
        return Ok(());
    }
    let mut manager = scm.lock(rt);
    let mut cell = nodes.lock(rt, dn);
    take_down_locked(rt, alloc, turn, &mut manager, &mut cell, seat, dn)
}

/// Whether a datanode has halted by now, and is still taken for up. Only the turn is taken.
fn is_left_up<O: Opened, W: Wait>(
    rt: &W,
    turn: &Turn<Ledger<O>>,
    seat: &mut Seat<Ledger<O>>,
    dn: u8,
) -> bool
    requires { IsReady (turn_id turn.now) (number_of seat.old) seat.old }
    ensures left { result ≡ is_left_up dn (seen_of seat.new) }
    ensures looked { OnlyLooked (turn_id turn.now) seat.old seat.new }
{
    let (ledger, held) = turn.take(rt, seat);
    let halted = ledger.halt(Node::Datanode(dn)).is_some();
    let up = ledger.is_up(dn);
    turn.give_back(seat, ledger, held);
    halted && up
}

/// Takes a datanode that has halted for down, while both locks are held.
fn take_down_locked<D: Disk, O: Opened, R: Ring, W: Wait>(
    rt: &W,
    alloc: Global,
    turn: &Turn<Ledger<O>>,
    scm: &mut ScmCell<D, Ledger<O>, O, R>,
    cell: &mut NodeCell<D, NodeSeat<Ledger<O>, O, R>>,
    seat: &mut Seat<Ledger<O>>,
    dn: u8,
) -> Result<(), OutOfMemory>
    requires seat { MayTake R.turn (turn_id turn.now) seat.old }
    requires its { cell.old.node.id ≡ dn }
    requires halted { halt_of (Datanode dn) (seen_of seat.old) ≢ None }
    ensures down { OnOk result (HasBeen O.coherent dn false (seen_of seat.old) (seen_of seat.new)) }
    ensures looked { OnlyLooked R.turn seat.old seat.new }
{
    it_stands_where_it_saw_more::<D, O>();
    tell_down(rt, alloc, turn, scm, &mut cell.kept, seat)
}

/// Has the Down of a datanode that has halted told, unless it is taken for down already. Its seat sees the Halt first.
fn tell_down<D: Disk, O: Opened, R: Ring, W: Wait>(
    rt: &W,
    alloc: Global,
    turn: &Turn<Ledger<O>>,
    scm: &mut ScmCell<D, Ledger<O>, O, R>,
    kept: &mut NodeSeat<Ledger<O>, O, R>,
    seat: &mut Seat<Ledger<O>>,
) -> Result<(), OutOfMemory>
    requires seat { MayTake R.turn (turn_id turn.now) seat.old }
    requires halted { halt_of (Datanode kept.old.dn) (seen_of seat.old) ≢ None }
    ensures down { OnOk result (HasBeen O.coherent kept.old.dn false (seen_of seat.old) (seen_of seat.new)) }

    // The datanode's seat has seen more, and gave no event.
    ensures number { kept.new.dn ≡ kept.old.dn }
    ensures its { kept.new.mine ≡ kept.old.mine }
    ensures goes_on { BeginsWith kept.new.seen kept.old.seen }
    ensures kept { IsKept O.coherent O.opening O.bytes O.script kept.new }
    ensures kept_before { IsKept O.coherent O.opening O.bytes O.script kept.old }
    ensures looked { OnlyLooked R.turn seat.old seat.new }
{
    its_seat_alone_tells::<D, O>();
    a_datanode_alone_tells_that_it_runs::<O>();
    the_scm_alone_tells::<O>();
    kept.show(rt, turn, seat);
    scm.ready(rt, alloc, turn)?;
    kept.track(rt, turn, scm, seat, false);
    Ok(())
}

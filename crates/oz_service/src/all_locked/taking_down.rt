//! Taking datanodes for down whose disks have failed, under all locks.

ghost use Rattle.std.specs.Prelude.{◌≡◌, Bool, false, [], ◌∷◌, map, Ok, OnErr, OnOk};
ghost use Rattle.std.specs.Sync.Mutex.{mutex_guard_value};
ghost use Rattle.oz_core.specs.Nodes.{is_running};
ghost use Rattle.oz_node_admin.specs.Seats.{MayTake, OnlyLooked};
ghost use Rattle.oz_node_events.specs.NodeSeat.{IsKept};
ghost use Rattle.oz_replicas.specs.Cells.{AreInOrder};
ghost use Rattle.oz_scm_events.specs.Tracked.{IsTracked};
ghost use Rattle.oz_service.specs.TakenDown.{HasSeenMore, HaltedAreDown, OnlyTookDown, ToldDowns, left_up};
ghost use Rattle.oz_turn.specs.Told.{BeginsWith};
ghost use Rattle.oz_turn.specs.Turn.{turn_id};

use oz_buffer::{Ledger, Opened};
use oz_fields::OutOfMemory;
use oz_node_events::{NodeSeat, it_stands_where_it_saw_more};
use oz_replicas::{NodeCell, NodeGuard};
use oz_scm_events::ScmCell;
use oz_turn::{Ring, Seat, Turn};
use oz_world::Disk;
use std::alloc::Global;
use std::sync::Wait;

/// Takes each of these datanodes for down that has halted and is up.
///
/// Errors: where there is no memory some of them are still up.
pub(crate) fn take_down_nodes<D: Disk, O: Opened, R: Ring, W: Wait>(
    rt: &W,
    alloc: Global,
    turn: &Turn<Ledger<O>>,
    scm: &mut ScmCell<D, Ledger<O>, O, R>,
    nodes: &mut Vec<NodeGuard<'_, D, NodeSeat<Ledger<O>, O, R>>>,
    seat: &mut Seat<Ledger<O>>,
) -> Result<(), OutOfMemory>
    requires seat { MayTake R.turn (turn_id turn.now) seat.old }
    requires order { AreInOrder (map mutex_guard_value nodes.old.items) }
    ensures down { OnOk result (HaltedAreDown (record { scm = scm.new; nodes = map mutex_guard_value nodes.new.items })) }
    ensures only { OnlyTookDown (record { scm = scm.old; nodes = map mutex_guard_value nodes.old.items })
        (record { scm = scm.new; nodes = map mutex_guard_value nodes.new.items }) }
    ensures looked { OnlyLooked R.turn seat.old seat.new }
{
    for dn in 0..nodes.len() {
        take_down_node(rt, alloc, turn, scm, &mut nodes[dn], seat)?;
    }
    Ok(())
}

/// The same of one datanode.
fn take_down_node<D: Disk, O: Opened, R: Ring, W: Wait>(
    rt: &W,
    alloc: Global,
    turn: &Turn<Ledger<O>>,
    scm: &mut ScmCell<D, Ledger<O>, O, R>,
    cell: &mut NodeCell<D, NodeSeat<Ledger<O>, O, R>>,
    seat: &mut Seat<Ledger<O>>,
) -> Result<(), OutOfMemory>
    requires seat { MayTake R.turn (turn_id turn.now) seat.old }
    ensures told { OnOk result (ToldDowns (left_up scm.old.mine (cell.old ∷ [])) scm.old scm.new) }
    ensures lacks { OnErr result (ToldDowns [] scm.old scm.new) }
    ensures same { HasSeenMore cell.old cell.new }
    ensures looked { OnlyLooked R.turn seat.old seat.new }
{
    it_stands_where_it_saw_more::<D, O>();
    let halted = cell.node.halted();
    if !halted {
        return Ok(());
    }
    tell_down(rt, alloc, turn, scm, &mut cell.kept, seat)
}

/// Has the Down of a datanode that has halted told, unless it is taken for down already.
fn tell_down<D: Disk, O: Opened, R: Ring, W: Wait>(
    rt: &W,
    alloc: Global,
    turn: &Turn<Ledger<O>>,
    scm: &mut ScmCell<D, Ledger<O>, O, R>,
    kept: &mut NodeSeat<Ledger<O>, O, R>,
    seat: &mut Seat<Ledger<O>>,
) -> Result<(), OutOfMemory>
    requires seat { MayTake R.turn (turn_id turn.now) seat.old }
    requires still { is_running kept.old.dn kept.old.mine ≡ false }
    ensures told { OnOk result ((changed : Bool) × IsTracked {E = Unit {0}} kept.old.dn false scm.old.mine scm.new.mine (Ok changed)) }
    ensures lacks { OnErr result (scm.new.mine ≡ scm.old.mine) }
    ensures scm { scm.new.scm ≡ record scm.old.scm { up = scm.new.scm.up } }
    ensures scm_room { scm.new.room ≡ scm.old.room }
    ensures scm_goes_on { BeginsWith scm.new.seen scm.old.seen }

    // The datanode's seat has seen more, and nothing else is different.
    ensures seen { kept.new ≡ record kept.old { seen = kept.new.seen } }
    ensures goes_on { BeginsWith kept.new.seen kept.old.seen }
    ensures kept { IsKept O.coherent O.opening O.bytes O.script kept.new }
    ensures kept_before { IsKept O.coherent O.opening O.bytes O.script kept.old }
    ensures looked { OnlyLooked R.turn seat.old seat.new }
{
    kept.show(rt, turn, seat);
    scm.ready(rt, alloc, turn)?;
    kept.track(rt, turn, scm, seat, false);
    Ok(())
}

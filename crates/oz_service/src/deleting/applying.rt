//! A datanode applies a transaction of the log of deleted blocks under its lock.

ghost use Rattle.std.specs.Prelude.{◌≡◌, ◌≤◌, ◌<◌, [], length};
ghost use Rattle.oz_buffer.specs.Buffer.{AllFollow, Follows};
ghost use Rattle.oz_dellog.specs.declared.txn.TheConstants.{MOST_LOCALS as MOST};
ghost use Rattle.oz_kept.specs.reopened.Left.{NumbersAreApart};
ghost use Rattle.oz_node_admin.specs.Seats.{OnlyLooked};
ghost use Rattle.oz_node_events.specs.Deleting.{MayApply, as_done};
ghost use Rattle.oz_service.specs.Deleting.{AppliedSo};
ghost use Rattle.oz_turn.specs.Seat.{IsReady, number_of, seen_of};

use crate::deleting::lent::Lent;
use oz_buffer::{Ledger, Opened};
use oz_dellog::Txn;
use oz_node_events::{ChangeRefusal, NodeSeat, a_line_has_it_run_or_not, its_seat_alone_tells};
use oz_replicas::NodeCell;
use oz_scm_events::a_datanode_alone_tells_that_it_runs;
use oz_turn::{Ring, Seat};
use oz_world::Disk;
use std::sync::Wait;

/// Has the datanode of this number apply a transaction.
pub(crate) fn apply_at<D: Disk, O: Opened, R: Ring, W: Wait>(
    lent: &Lent<'_, D, O, R, W>,
    seat: &mut Seat<Ledger<O>>,
    dn: u8,
    txn: &Txn,
) -> Result<u32, ChangeRefusal>
    requires ready { IsReady R.turn (number_of seat.old) seat.old }
    requires there { dn < lent.now.nodes.now }
    requires number { 1 ≤ txn.now.number }
    requires least { 1 ≤ length txn.now.locals }
    requires most { length txn.now.locals ≤ MOST }
    requires apart { O.coherent → NumbersAreApart O.opening }
    requires may { O.coherent → MayApply O.opening (seen_of seat.old) dn txn.now }
    ensures applied { AppliedSo O.coherent dn txn.now (seen_of seat.old) (seen_of seat.new) (as_done result) }
    ensures follow { AllFollow (Follows O.coherent O.opening O.bytes O.script) [] (seen_of seat.new) }
    ensures looked { OnlyLooked R.turn seat.old seat.new }
{
    let mut cell = lent.nodes.lock(lent.rt, dn);
    apply_locked(lent, &mut cell, seat, dn, txn)
}

/// The same, while its lock is held.
fn apply_locked<D: Disk, O: Opened, R: Ring, W: Wait>(
    lent: &Lent<'_, D, O, R, W>,
    cell: &mut NodeCell<D, NodeSeat<Ledger<O>, O, R>>,
    seat: &mut Seat<Ledger<O>>,
    dn: u8,
    txn: &Txn,
) -> Result<u32, ChangeRefusal>
    requires ready { IsReady R.turn (number_of seat.old) seat.old }
    requires its { cell.old.node.id ≡ dn }
    requires number { 1 ≤ txn.now.number }
    requires least { 1 ≤ length txn.now.locals }
    requires most { length txn.now.locals ≤ MOST }
    requires apart { O.coherent → NumbersAreApart O.opening }
    requires may { O.coherent → MayApply O.opening (seen_of seat.old) dn txn.now }
    ensures applied { AppliedSo O.coherent dn txn.now (seen_of seat.old) (seen_of seat.new) (as_done result) }
    ensures follow { AllFollow (Follows O.coherent O.opening O.bytes O.script) [] (seen_of seat.new) }
    ensures looked { OnlyLooked R.turn seat.old seat.new }
{
    its_seat_alone_tells::<D, O>();
    a_line_has_it_run_or_not::<D, O>();
    a_datanode_alone_tells_that_it_runs::<O>();
    let (rt, alloc, turn) = (lent.rt, lent.alloc, lent.turn);
    cell.kept.delete(rt, alloc, turn, seat, &mut cell.node, txn)
}

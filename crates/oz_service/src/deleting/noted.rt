//! The storage container manager notes under its lock what a datanode has applied.

ghost use Rattle.std.specs.Prelude.{◌≡◌, [], true};
ghost use Rattle.oz_buffer.specs.Buffer.{AllFollow, Follows};
ghost use Rattle.oz_core.specs.Law.{applies};
ghost use Rattle.oz_core.specs.Stories.{has_event};
ghost use Rattle.oz_node_admin.specs.Seats.{OnlyLooked};
ghost use Rattle.oz_service.specs.Deleting.{WasNoted};
ghost use Rattle.oz_turn.specs.Seat.{IsReady, number_of, seen_of};

use crate::deleting::lent::Lent;
use oz_buffer::{Ledger, Opened};
use oz_scm_events::{AckFault, ScmCell};
use oz_turn::{Ring, Seat};
use oz_world::Disk;
use std::sync::Wait;

/// What the storage container manager answered of a transaction that a datanode has applied.
#[derive(Clone, Copy, Debug, PartialEq, Eq)]
pub struct Noted {
    /// Whether the datanode's acknowledgement was noted, and is told, or why not: `NotDue` where it was noted before.
    pub acknowledged: Result<(), AckFault>,
    /// Whether the transaction was retired, and that is told, or why not: `NotDue` where fewer than three acknowledged it.
    pub retired: Result<(), AckFault>,
}

/// Has the storage container manager note that the datanode acknowledges the transaction of this number, and retire it where three
/// have.
pub(crate) fn note_at<D: Disk, O: Opened, R: Ring, W: Wait>(
    lent: &Lent<'_, D, O, R, W>,
    seat: &mut Seat<Ledger<O>>,
    dn: u8,
    txn: u64,
) -> Noted
    requires ready { IsReady R.turn (number_of seat.old) seat.old }
    requires applied { O.coherent → has_event (applies dn txn) (seen_of seat.old) ≡ true }
    ensures noted { WasNoted O.opening dn txn (seen_of seat.old) (seen_of seat.new) result }
    ensures follow { AllFollow (Follows O.coherent O.opening O.bytes O.script) [] (seen_of seat.new) }
    ensures looked { OnlyLooked R.turn seat.old seat.new }
{
    let mut manager = lent.scm.lock(lent.rt);
    note_locked(lent, &mut manager, seat, dn, txn)
}

/// The same, while its lock is held.
fn note_locked<D: Disk, O: Opened, R: Ring, W: Wait>(
    lent: &Lent<'_, D, O, R, W>,
    scm: &mut ScmCell<D, Ledger<O>, O, R>,
    seat: &mut Seat<Ledger<O>>,
    dn: u8,
    txn: u64,
) -> Noted
    requires ready { IsReady R.turn (number_of seat.old) seat.old }
    requires applied { O.coherent → has_event (applies dn txn) (seen_of seat.old) ≡ true }
    ensures noted { WasNoted O.opening dn txn (seen_of seat.old) (seen_of seat.new) result }
    ensures follow { AllFollow (Follows O.coherent O.opening O.bytes O.script) [] (seen_of seat.new) }
    ensures looked { OnlyLooked R.turn seat.old seat.new }
{
    let (rt, alloc, turn) = (lent.rt, lent.alloc, lent.turn);
    scm.is_kept();
    let acknowledged = scm.ack(rt, alloc, turn, seat, txn, dn);
    scm.is_kept();
    let retired = scm.retire(rt, alloc, turn, seat, txn);
    Noted {
        acknowledged,
        retired,
    }
}

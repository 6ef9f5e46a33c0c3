//! Sending transactions of the log of deleted blocks to datanodes: a datanode applies one under its lock, and the storage container
//! manager notes that under its own.

ghost use Rattle.std.specs.Prelude.{◌≡◌, ◌≤◌, ◌<◌, [], length};
ghost use Rattle.oz_buffer.specs.Buffer.{AllFollow, Follows};
ghost use Rattle.oz_dellog.specs.declared.txn.TheConstants.{MOST_LOCALS as MOST};
ghost use Rattle.oz_kept.specs.reopened.Left.{NumbersAreApart};
ghost use Rattle.oz_node_admin.specs.Seats.{OnlyLooked};
ghost use Rattle.oz_node_events.specs.Deleting.{MayApply};
ghost use Rattle.oz_service.specs.Deleting.{SentSo};
ghost use Rattle.oz_turn.specs.Seat.{IsReady, number_of, seen_of};

mod applying;
mod due;
mod lent;
mod noted;
mod sending;

use crate::deleting::applying::apply_at;
pub use crate::deleting::lent::Lent;
pub use crate::deleting::noted::Noted;
use crate::deleting::noted::note_at;
pub(crate) use crate::deleting::sending::send_due;
use oz_buffer::{Ledger, Opened};
use oz_dellog::Txn;
use oz_node_events::ChangeRefusal;
use oz_turn::{Ring, Seat};
use oz_world::Disk;
use std::sync::Wait;

/// Has the datanode of this number apply a transaction, which is logged and of whose container it is a member, under its lock. Once
/// that is let go, has the storage container manager note the datanode's acknowledgement under its own, and retire the transaction
/// where three have acknowledged it. The seat of who sends it has seen what was told of it then.
///
/// Errors: as of a change that the datanode refused; then nothing was told but its Halt where a disk of it failed now, and the
/// storage container manager wasn't asked. What that one refuses stands in the answer; the datanode has applied the transaction
/// then, and it may be sent again.
pub fn send_one<D: Disk, O: Opened, R: Ring, W: Wait>(
    lent: &Lent<'_, D, O, R, W>,
    seat: &mut Seat<Ledger<O>>,
    dn: u8,
    txn: &Txn,
) -> Result<Noted, ChangeRefusal>
    requires ready { IsReady R.turn (number_of seat.old) seat.old }
    requires there { dn < lent.now.nodes.now }
    requires number { 1 ≤ txn.now.number }
    requires least { 1 ≤ length txn.now.locals }
    requires most { length txn.now.locals ≤ MOST }
    requires apart { O.coherent → NumbersAreApart O.opening }
    requires may { O.coherent → MayApply O.opening (seen_of seat.old) dn txn.now }
    ensures sent { SentSo O.coherent O.opening dn txn.now (seen_of seat.old) (seen_of seat.new) result }
    ensures follow { AllFollow (Follows O.coherent O.opening O.bytes O.script) [] (seen_of seat.new) }
    ensures looked { OnlyLooked R.turn seat.old seat.new }
{
    match apply_at(lent, seat, dn, txn) {
        Ok(_count) => Ok(note_at(lent, seat, dn, txn.number)),
        Err(refusal) => Err(refusal),
    }
}

//! Sending what is due of the log of deleted blocks, one transaction after another.

ghost use Rattle.std.specs.Prelude.{◌≡◌, ◌⊎◌, ◌≤◌, ◌<◌, [], false, length, All, Err, IfErr, IfOk, Ok, OnErr};
ghost use Rattle.oz_buffer.specs.Buffer.{AllFollow, Follows};
ghost use Rattle.oz_core.specs.declared.event.Node.TheVariants.{Scm};
ghost use Rattle.oz_core.specs.Manager.{halt_of};
ghost use Rattle.oz_core.specs.Seats.{scm_seat};
ghost use Rattle.oz_dellog.specs.declared.txn.TheConstants.{MOST_LOCALS as MOST};
ghost use Rattle.oz_kept.specs.reopened.Left.{NumbersAreApart};
ghost use Rattle.oz_node_admin.specs.Seats.{OnlyLooked};
ghost use Rattle.oz_node_events.specs.Deleting.{MayApply};
ghost use Rattle.oz_service.specs.Sending.{IsSendFault, IsSound, MayBeSent, NoneIsToSend, NothingIsDue, WasSendFault, as_sent};
ghost use Rattle.oz_turn.specs.Seat.{IsReady, number_of, seen_of};
ghost use Rattle.oz_turn.specs.Told.{own_entries};

use crate::deleting::due::{Due, dues_of};
use crate::deleting::lent::Lent;
use crate::deleting::noted::Noted;
use crate::deleting::send_one;
use crate::pass::PassFault;
use oz_buffer::{Ledger, Opened};
use oz_core::Node;
use oz_dellog::Txn;
use oz_node_admin::take_down_halted;
use oz_node_events::ChangeRefusal;
use oz_scm_events::{AckFault, ScmCell, the_scm_alone_tells};
use oz_turn::{Ring, Seat};
use oz_world::Disk;
use std::sync::Wait;

/// Sends each transaction that isn't retired to those members of its container that are up and haven't acknowledged it, in the order
/// of the numbers, and has those retired that all members have acknowledged. Datanodes that have halted are taken for down then.
/// What is logged while it runs waits for the next call. Answers whether anything was due. `count` is how many datanodes there are.
///
/// Errors: the storage container manager has halted, or want of memory.
pub(crate) fn send_due<D: Disk, O: Opened, R: Ring, W: Wait>(
    lent: &Lent<'_, D, O, R, W>,
    seat: &mut Seat<Ledger<O>>,
    count: u8,
) -> Result<bool, PassFault>
    requires ready { IsReady R.turn (number_of seat.old) seat.old }
    requires all { lent.now.nodes.now ≡ count }
    requires opened { count ≡ length O.opening.nodes }
    requires apart { O.coherent → NumbersAreApart O.opening }
    ensures idle { O.coherent → result ≡ Ok false → NoneIsToSend O.opening (seen_of seat.old) (seen_of seat.new) }
    ensures fault { IfErr result (WasSendFault (seen_of seat.old) (seen_of seat.new)) }
    ensures follow { AllFollow (Follows O.coherent O.opening O.bytes O.script) [] (seen_of seat.new) }
    ensures looked { OnlyLooked R.turn seat.old seat.new }
{
    let dues = dues_at(lent, seat, count)?;
    if dues.is_empty() {
        return Ok(false);
    }
    let sent = send_all(lent, seat, dues.as_slice());
    let taken = take_down(lent, seat, count);
    sent?;
    taken?;
    Ok(true)
}

/// What is due of the log, under the lock of the storage container manager.
fn dues_at<D: Disk, O: Opened, R: Ring, W: Wait>(
    lent: &Lent<'_, D, O, R, W>,
    seat: &mut Seat<Ledger<O>>,
    count: u8,
) -> Result<Vec<Due>, PassFault>
    requires ready { IsReady R.turn (number_of seat.old) seat.old }
    requires opened { count ≡ length O.opening.nodes }
    ensures sound { IfOk result (λ dues. All (IsSound count) dues.items) }
    ensures may { O.coherent → IfOk result (λ dues. All (MayBeSent O.opening (seen_of seat.new)) dues.items) }
    ensures none { O.coherent → IfOk result (λ dues. dues.items ≡ [] → NothingIsDue O.opening (seen_of seat.new)) }
    ensures fault { IfErr result (IsSendFault (seen_of seat.new)) }
    ensures follow { AllFollow (Follows O.coherent O.opening O.bytes O.script) [] (seen_of seat.new) }
    ensures looked { OnlyLooked R.turn seat.old seat.new }
{
    let mut manager = lent.scm.lock(lent.rt);
    dues_locked(lent, &mut manager, seat, count)
}

/// The same, while its lock is held.
fn dues_locked<D: Disk, O: Opened, R: Ring, W: Wait>(
    lent: &Lent<'_, D, O, R, W>,
    scm: &mut ScmCell<D, Ledger<O>, O, R>,
    seat: &mut Seat<Ledger<O>>,
    count: u8,
) -> Result<Vec<Due>, PassFault>
    requires ready { IsReady R.turn (number_of seat.old) seat.old }
    requires opened { count ≡ length O.opening.nodes }
    ensures sound { IfOk result (λ dues. All (IsSound count) dues.items) }
    ensures may { O.coherent → IfOk result (λ dues. All (MayBeSent O.opening (seen_of seat.new)) dues.items) }
    ensures none { O.coherent → IfOk result (λ dues. dues.items ≡ [] → NothingIsDue O.opening (seen_of seat.new)) }
    ensures fault { IfErr result (IsSendFault (seen_of seat.new)) }
    ensures follow { AllFollow (Follows O.coherent O.opening O.bytes O.script) [] (seen_of seat.new) }
    ensures looked { OnlyLooked R.turn seat.old seat.new }
{
    the_scm_alone_tells::<O>();
    let halt = be_shown(lent, scm, seat);
    if let Some(faults) = halt {
        return Err(PassFault::ScmStopped { count: faults });
    }
    scm.is_kept();
    let Ok(dues) = dues_of(lent.alloc, scm, count) else {
        return Err(PassFault::OutOfMemory);
    };
    Ok(dues)
}

/// In one hold of the turn this seat and that of the storage container manager see all that happened until now. Answers how often
/// that one's disk has failed, None where it hasn't halted.
fn be_shown<D: Disk, O: Opened, R: Ring, W: Wait>(
    lent: &Lent<'_, D, O, R, W>,
    scm: &mut ScmCell<D, Ledger<O>, O, R>,
    seat: &mut Seat<Ledger<O>>,
) -> Option<u64>
    requires ready { IsReady R.turn (number_of seat.old) seat.old }
    ensures halt { result ≡ halt_of Scm (seen_of seat.new) }
    ensures shown { own_entries (λ event. event.seat) scm_seat (seen_of seat.new) ≡ scm.new.mine }
    ensures follow { AllFollow (Follows O.coherent O.opening O.bytes O.script) [] (seen_of seat.new) }
    ensures looked { OnlyLooked R.turn seat.old seat.new }
{
    let (ledger, held) = lent.turn.take(lent.rt, seat);
    ledger.all_follow();
    let halt = ledger.halt(Node::Scm);
    scm.be_shown(lent.turn, seat);
    lent.turn.give_back(seat, ledger, held);
    halt
}

/// Sends each of these.
fn send_all<D: Disk, O: Opened, R: Ring, W: Wait>(
    lent: &Lent<'_, D, O, R, W>,
    seat: &mut Seat<Ledger<O>>,
    dues: &[Due],
) -> Result<(), PassFault>
    requires ready { IsReady R.turn (number_of seat.old) seat.old }
    requires sound { All (IsSound lent.now.nodes.now) dues.now }
    requires apart { O.coherent → NumbersAreApart O.opening }
    requires may { O.coherent → All (MayBeSent O.opening (seen_of seat.old)) dues.now }
    ensures fault { IfErr result (IsSendFault (seen_of seat.new)) }
    ensures looked { OnlyLooked R.turn seat.old seat.new }
{
    for due in dues {
        send_or_retire(lent, seat, due)?;
    }
    Ok(())
}

/// Sends a transaction to its receivers; where they are none, has it retired.
fn send_or_retire<D: Disk, O: Opened, R: Ring, W: Wait>(
    lent: &Lent<'_, D, O, R, W>,
    seat: &mut Seat<Ledger<O>>,
    due: &Due,
) -> Result<(), PassFault>
    requires ready { IsReady R.turn (number_of seat.old) seat.old }
    requires sound { IsSound lent.now.nodes.now due.now }
    requires apart { O.coherent → NumbersAreApart O.opening }
    requires may { O.coherent → MayBeSent O.opening (seen_of seat.old) due.now }
    ensures fault { IfErr result (IsSendFault (seen_of seat.new)) }
    ensures looked { OnlyLooked R.turn seat.old seat.new }
{
    if due.receivers.is_empty() {
        return retire_at(lent, seat, due.txn.number);
    }
    send_each(lent, seat, due)
}

/// Sends a transaction to its receivers.
fn send_each<D: Disk, O: Opened, R: Ring, W: Wait>(
    lent: &Lent<'_, D, O, R, W>,
    seat: &mut Seat<Ledger<O>>,
    due: &Due,
) -> Result<(), PassFault>
    requires ready { IsReady R.turn (number_of seat.old) seat.old }
    requires sound { IsSound lent.now.nodes.now due.now }
    requires apart { O.coherent → NumbersAreApart O.opening }
    requires may { O.coherent → MayBeSent O.opening (seen_of seat.old) due.now }
    ensures fault { IfErr result (IsSendFault (seen_of seat.new)) }
    ensures looked { OnlyLooked R.turn seat.old seat.new }
{
    for dn in due.receivers.items() {
        send_to(lent, seat, *dn, &due.txn)?;
    }
    Ok(())
}

/// Sends a transaction to a datanode. One that a line has stopped, or that has halted, is passed over.
fn send_to<D: Disk, O: Opened, R: Ring, W: Wait>(
    lent: &Lent<'_, D, O, R, W>,
    seat: &mut Seat<Ledger<O>>,
    dn: u8,
    txn: &Txn,
) -> Result<(), PassFault>
    requires ready { IsReady R.turn (number_of seat.old) seat.old }
    requires there { dn < lent.now.nodes.now }
    requires number { 1 ≤ txn.now.number }
    requires least { 1 ≤ length txn.now.locals }
    requires most { length txn.now.locals ≤ MOST }
    requires apart { O.coherent → NumbersAreApart O.opening }
    requires may { O.coherent → MayApply O.opening (seen_of seat.old) dn txn.now }
    ensures fault { IfErr result (IsSendFault (seen_of seat.new)) }
    ensures looked { OnlyLooked R.turn seat.old seat.new }
{
    the_scm_alone_tells::<O>();
    match send_one(lent, seat, dn, txn) {
        Ok(noted) => noted_fault(noted),
        Err(ChangeRefusal::OutOfMemory) => Err(PassFault::OutOfMemory),
        Err(ChangeRefusal::Stopped) => Ok(()),
        Err(ChangeRefusal::Halted { .. }) => Ok(()),
        Err(ChangeRefusal::Failed { .. }) => Ok(()),
    }
}

/// Whether no more is to be sent behind what the storage container manager answered.
fn noted_fault(noted: Noted) -> Result<(), PassFault>
    ensures { IfErr result (λ fault. (as_sent noted.acknowledged ≡ Err fault) ⊎ (as_sent noted.retired ≡ Err fault)) }
{
    as_sent(noted.acknowledged)?;
    as_sent(noted.retired)
}

/// The same of one answer.
fn as_sent(answer: Result<(), AckFault>) -> Result<(), PassFault>
    ensures { result ≡ as_sent answer }
{
    match answer {
        Ok(done) => Ok(done),
        Err(AckFault::Stopped { count }) => Err(PassFault::ScmStopped { count }),
        Err(AckFault::NotDue) => Ok(()),
        Err(AckFault::OutOfMemory) => Err(PassFault::OutOfMemory),
    }
}

/// Has a transaction retired, where three datanodes have acknowledged it, under the lock of the storage container manager.
fn retire_at<D: Disk, O: Opened, R: Ring, W: Wait>(
    lent: &Lent<'_, D, O, R, W>,
    seat: &mut Seat<Ledger<O>>,
    number: u64,
) -> Result<(), PassFault>
    requires ready { IsReady R.turn (number_of seat.old) seat.old }
    ensures fault { IfErr result (IsSendFault (seen_of seat.new)) }
    ensures looked { OnlyLooked R.turn seat.old seat.new }
{
    let mut manager = lent.scm.lock(lent.rt);
    retire_locked(lent, &mut manager, seat, number)
}

/// The same, while its lock is held.
fn retire_locked<D: Disk, O: Opened, R: Ring, W: Wait>(
    lent: &Lent<'_, D, O, R, W>,
    scm: &mut ScmCell<D, Ledger<O>, O, R>,
    seat: &mut Seat<Ledger<O>>,
    number: u64,
) -> Result<(), PassFault>
    requires ready { IsReady R.turn (number_of seat.old) seat.old }
    ensures fault { IfErr result (IsSendFault (seen_of seat.new)) }
    ensures looked { OnlyLooked R.turn seat.old seat.new }
{
    the_scm_alone_tells::<O>();
    let (rt, alloc, turn) = (lent.rt, lent.alloc, lent.turn);
    let answer = scm.retire(rt, alloc, turn, seat, number);
    as_sent(answer)
}

/// Takes datanodes for down that have halted by now.
///
/// Errors: where there is no memory some of them are still up.
fn take_down<D: Disk, O: Opened, R: Ring, W: Wait>(
    lent: &Lent<'_, D, O, R, W>,
    seat: &mut Seat<Ledger<O>>,
    count: u8,
) -> Result<(), PassFault>
    requires ready { IsReady R.turn (number_of seat.old) seat.old }
    requires there { count ≤ lent.now.nodes.now }
    ensures fault { IfErr result (IsSendFault (seen_of seat.new)) }
    ensures follow { AllFollow (Follows O.coherent O.opening O.bytes O.script) [] (seen_of seat.new) }
    ensures looked { OnlyLooked R.turn seat.old seat.new }
{
    let (rt, alloc, turn) = (lent.rt, lent.alloc, lent.turn);
    let taken = take_down_halted(rt, alloc, turn, lent.scm, lent.nodes, seat, count);
    look(lent, seat);
    if taken.is_err() {
        return Err(PassFault::OutOfMemory);
    }
    Ok(())
}

/// The seat sees all that happened until now.
fn look<D: Disk, O: Opened, R: Ring, W: Wait>(
    lent: &Lent<'_, D, O, R, W>,
    seat: &mut Seat<Ledger<O>>,
)
    requires ready { IsReady R.turn (number_of seat.old) seat.old }
    ensures follow { AllFollow (Follows O.coherent O.opening O.bytes O.script) [] (seen_of seat.new) }
    ensures looked { OnlyLooked R.turn seat.old seat.new }
{
    let (ledger, held) = lent.turn.take(lent.rt, seat);
    ledger.all_follow();
    lent.turn.give_back(seat, ledger, held);
}

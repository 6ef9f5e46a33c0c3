//! Acknowledgements of deletions, and retirements.

ghost use Rattle.std.specs.Prelude.{◌≡◌, [], true, false, Err, IfErr, OnOk, Result as AnyResult, ℕ};
ghost use Rattle.oz_buffer.specs.Buffer.{AllFollow, Follows};
ghost use Rattle.oz_core.specs.declared.event.EventKind.TheVariants.{AckDel};
ghost use Rattle.oz_core.specs.Law.{applies};
ghost use Rattle.oz_core.specs.Seats.{scm_seat};
ghost use Rattle.oz_core.specs.Stories.{has_event};
ghost use Rattle.oz_scm.specs.declared.grants.entry.Entry.TheVariants.{Acked};
ghost use Rattle.oz_scm.specs.grants.Made.{may_ack};
ghost use Rattle.oz_scm.specs.Noting.{Notes};
ghost use Rattle.oz_scm_events.specs.declared.acking.AckFault.TheVariants.{NotDue, OutOfMemory as NoMemory, Stopped};
ghost use Rattle.oz_scm_events.specs.Noted.{IsNoteRefusal, noted_as, own_noted, told_of_note};
ghost use Rattle.oz_turn.specs.Seat.{IsReady, mine_of, number_of, room_of, seen_of};
ghost use Rattle.oz_turn.specs.Told.{own_entries, BeginsWith};
ghost use Rattle.oz_turn.specs.Turn.{turn_id};
ghost use Rattle.oz_world.specs.Disk.{seen};

use crate::cell::ScmCell;
use crate::noting::{reserve, tell};
use oz_buffer::{Ledger, Opened, OutOfMemory};
use oz_core::{EventKind, Node};
use oz_turn::{Ring, Seat, Turn};
use oz_world::Disk;
use std::alloc::Global;
use std::sync::Wait;

/// Why nothing is noted: no acknowledgement, no retirement, no transaction.
#[derive(Clone, Copy, Debug, PartialEq, Eq)]
pub enum AckFault {
    /// The disk failed, in this call or an earlier one: how often it has failed so far.
    Stopped { count: u64 },
    /// By the log it isn't due: the datanode owes no acknowledgement of the transaction, or fewer than three datanodes
    /// acknowledged the one that is to be retired, or the one that is to be logged has another number than the next, a
    /// container that wasn't made, no id or more than 1,024.
    NotDue,
    OutOfMemory,
}

impl From<OutOfMemory> for AckFault {
    ghost from_gives = { λ _ fault. fault ≡ NoMemory };

    fn from(_: OutOfMemory) -> AckFault {
        AckFault::OutOfMemory
    }
}

impl<D: Disk, O: Opened, R: Ring> ScmCell<D, Ledger<O>, O, R> {
    /// Notes that a datanode acknowledged a transaction, if it owes that, and appends an AckDel, once it is stable. Where the
    /// disk fails it appends a Halt with the disk's count of faults, and answers Stopped with that count, now and ever after.
    /// Every other error leaves its disk and its events as they were.
    ///
    /// `seat` is that of who asks. The caller answers for it that the datanode applied the transaction: that seat has seen it.
    pub fn ack<W: Wait>(
        &mut self,
        rt: &W,
        alloc: Global,
        turn: &Turn<Ledger<O>>,
        seat: &mut Seat<Ledger<O>>,
        txn: u64,
        dn: u8,
    ) -> Result<(), AckFault>
        requires turn { turn_id turn.now ≡ R.turn }
        requires ready { IsReady R.turn (number_of seat.old) seat.old }
        requires applied { O.coherent → has_event (applies dn txn) (seen_of seat.old) ≡ true }

        // What it notes is due, and stable, and stands in the story.
        ensures due { OnOk result (may_ack self.old.scm.made txn dn ≡ true) }
        ensures notes { (answer : AnyResult (Unit {0}) ℕ) → result ≡ noted_as answer → self.old.scm.stopped ≡ false →
            Notes (Acked txn dn) self.old.scm self.new.scm
            (seen (D.told self.old.scm.disk) (D.clock self.old.scm.disk) (D.image self.old.scm.disk)
            (D.faults self.old.scm.disk))
            (seen (D.told self.new.scm.disk) (D.clock self.new.scm.disk) (D.image self.new.scm.disk)
            (D.faults self.new.scm.disk))
            answer }
        ensures halted { self.old.scm.stopped ≡ true → (self.new.scm ≡ self.old.scm)
            × (result ≡ Err (Stopped (D.faults self.old.scm.disk))) }
        ensures own { self.new.mine ≡ own_noted self.old.scm.stopped (AckDel dn txn) self.old.mine result }
        ensures refused { IfErr result (IsNoteRefusal self.new.mine (may_ack self.old.scm.made txn dn)) }
        ensures not_due { result ≡ Err NotDue → self.new.scm ≡ self.old.scm }
        ensures no_memory { result ≡ Err NoMemory → self.new.scm ≡ self.old.scm }
        ensures goes_on { BeginsWith self.new.seen self.old.seen }

        // The seat has seen it then.
        ensures shown { own_entries (λ event. event.seat) scm_seat (seen_of seat.new) ≡ self.new.mine }
        ensures follow { AllFollow (Follows O.coherent O.opening O.bytes O.script) [] (seen_of seat.new) }
        ensures ready { IsReady R.turn (number_of seat.old) seat.new }
        ensures begins { BeginsWith (seen_of seat.new) (seen_of seat.old) }
        ensures mine { mine_of seat.new ≡ mine_of seat.old }
        ensures room { room_of seat.new ≡ room_of seat.old }
    {
        let answer = self.acked(rt, alloc, turn, seat, txn, dn);
        self.show(rt, turn, seat);
        answer
    }

    /// The same, without the last look.
    fn acked<W: Wait>(
        &mut self,
        rt: &W,
        alloc: Global,
        turn: &Turn<Ledger<O>>,
        seat: &mut Seat<Ledger<O>>,
        txn: u64,
        dn: u8,
    ) -> Result<(), AckFault>
        requires turn { turn_id turn.now ≡ R.turn }
        requires ready { IsReady R.turn (number_of seat.old) seat.old }
        requires applied { O.coherent → has_event (applies dn txn) (seen_of seat.old) ≡ true }
        ensures due { OnOk result (may_ack self.old.scm.made txn dn ≡ true) }
        ensures notes { (answer : AnyResult (Unit {0}) ℕ) → result ≡ noted_as answer → self.old.scm.stopped ≡ false →
            Notes (Acked txn dn) self.old.scm self.new.scm
            (seen (D.told self.old.scm.disk) (D.clock self.old.scm.disk) (D.image self.old.scm.disk)
            (D.faults self.old.scm.disk))
            (seen (D.told self.new.scm.disk) (D.clock self.new.scm.disk) (D.image self.new.scm.disk)
            (D.faults self.new.scm.disk))
            answer }
        ensures halted { self.old.scm.stopped ≡ true → (self.new.scm ≡ self.old.scm)
            × (result ≡ Err (Stopped (D.faults self.old.scm.disk))) }
        ensures own { self.new.mine ≡ own_noted self.old.scm.stopped (AckDel dn txn) self.old.mine result }
        ensures refused { IfErr result (IsNoteRefusal self.new.mine (may_ack self.old.scm.made txn dn)) }
        ensures not_due { result ≡ Err NotDue → self.new.scm ≡ self.old.scm }
        ensures no_memory { result ≡ Err NoMemory → self.new.scm ≡ self.old.scm }
        ensures goes_on { BeginsWith self.new.seen self.old.seen }
        ensures ready { IsReady R.turn (number_of seat.old) seat.new }
        ensures begins { BeginsWith (seen_of seat.new) (seen_of seat.old) }
        ensures mine { mine_of seat.new ≡ mine_of seat.old }
        ensures room { room_of seat.new ≡ room_of seat.old }
    {
        if self.scm.stopped() {
            let count = self.scm.faults();
            return Err(AckFault::Stopped { count });
        }
        if !self.scm.may_ack(txn, dn) {
            return Err(AckFault::NotDue);
        }
        reserve(rt, alloc, turn, &mut self.seat)?;
        let noted = self.scm.ack(txn, dn);
        let answer = seat_answer(noted);
        let told = told_of_note(EventKind::AckDel { dn, txn }, &answer);
        tell(rt, turn, &mut self.seat, seat, told);
        answer
    }
}

/// What the seat answers where the storage container manager answers so.
pub(crate) fn seat_answer(answer: Result<(), u64>) -> Result<(), AckFault>
    ensures { result ≡ noted_as answer }
{
    match answer {
        Ok(done) => Ok(done),
        Err(count) => Err(AckFault::Stopped { count }),
    }
}

/// What is told of a call that is to note this.
pub(crate) fn told_of_note(kind: EventKind, answer: &Result<(), AckFault>) -> Option<EventKind>
    ensures { result ≡ told_of_note kind answer.now }
{
    match answer {
        Ok(_) => Some(kind),
        Err(AckFault::Stopped { count }) => Some(EventKind::Halt {
            node: Node::Scm,
            count: *count,
        }),
        Err(AckFault::NotDue | AckFault::OutOfMemory) => None,
    }
}

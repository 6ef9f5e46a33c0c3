//! The log of deleted blocks gets a transaction.

ghost use Rattle.std.specs.Prelude.{◌≡◌, [], All, true, false, Err, IfErr, IfOk, OnOk, Result as AnyResult, ℕ};
ghost use Rattle.oz_buffer.specs.Buffer.{AllFollow, Follows};
ghost use Rattle.oz_core.specs.declared.event.EventKind.TheVariants.{Log};
ghost use Rattle.oz_core.specs.Law.{IsPurged};
ghost use Rattle.oz_core.specs.Seats.{scm_seat};
ghost use Rattle.oz_scm.specs.declared.grants.entry.Entry.TheVariants.{Logged};
ghost use Rattle.oz_scm.specs.grants.Made.{may_log};
ghost use Rattle.oz_scm.specs.Logging.{noted};
ghost use Rattle.oz_scm.specs.Noting.{Notes};
ghost use Rattle.oz_scm_events.specs.declared.acking.AckFault.TheVariants.{NotDue, OutOfMemory as NoMemory, Stopped};
ghost use Rattle.oz_scm_events.specs.Noted.{IsNoteRefusal, noted_as, own_noted};
ghost use Rattle.oz_scm_events.specs.Logged.{log_event};
ghost use Rattle.oz_turn.specs.Seat.{IsReady, mine_of, number_of, room_of, seen_of};
ghost use Rattle.oz_turn.specs.Told.{own_entries, BeginsWith};
ghost use Rattle.oz_turn.specs.Turn.{turn_id};
ghost use Rattle.oz_world.specs.Disk.{seen};

use crate::acking::{AckFault, seat_answer, told_of_note};
use crate::cell::ScmCell;
use crate::noting::{release, reserve, tell};
use oz_buffer::{Ledger, Opened, OutOfMemory};
use oz_core::EventKind;
use oz_dellog::Txn;
use oz_fields::List;
use oz_scm::ScmStop;
use oz_turn::{Ring, Seat, Turn};
use oz_world::Disk;
use std::alloc::Global;
use std::sync::Wait;

impl<D: Disk, O: Opened, R: Ring> ScmCell<D, Ledger<O>, O, R> {
    /// Logs a transaction, if it may be logged next, and appends a Log, once it is stable. It may be where it has the next number
    /// (`last_txn`), a container that was made, and from one id to 1,024. Where the disk fails it appends a Halt with the
    /// disk's count of faults, and answers Stopped with that count, now and ever after. Every other error leaves its disk and
    /// its events as they were.
    ///
    /// `seat` is that of who asks. The caller answers for it that each of the blocks was purged: that seat has seen it.
    pub fn log_txn<W: Wait>(
        &mut self,
        rt: &W,
        alloc: Global,
        turn: &Turn<Ledger<O>>,
        seat: &mut Seat<Ledger<O>>,
        txn: &Txn,
    ) -> Result<(), AckFault>
        requires turn { turn_id turn.now ≡ R.turn }
        requires ready { IsReady R.turn (number_of seat.old) seat.old }
        requires purged { O.coherent → All (λ local. IsPurged (seen_of seat.old)
            (record { container = txn.now.container; local = local })) txn.now.locals }

        // What it logs may be logged, and is stable, and stands in the story.
        ensures due { OnOk result (may_log self.old.scm.made txn.now ≡ true) }
        ensures notes { (answer : AnyResult (Unit {0}) ℕ) → result ≡ noted_as answer → self.old.scm.stopped ≡ false →
            Notes (Logged txn.now) self.old.scm self.new.scm
            (seen (D.told self.old.scm.disk) (D.clock self.old.scm.disk) (D.image self.old.scm.disk)
            (D.faults self.old.scm.disk))
            (seen (D.told self.new.scm.disk) (D.clock self.new.scm.disk) (D.image self.new.scm.disk)
            (D.faults self.new.scm.disk))
            answer }
        ensures halted { self.old.scm.stopped ≡ true → (self.new.scm ≡ self.old.scm)
            × (result ≡ Err (Stopped (D.faults self.old.scm.disk))) }
        ensures own { self.new.mine ≡ own_noted self.old.scm.stopped (log_event txn.now) self.old.mine result }
        ensures refused { IfErr result (IsNoteRefusal self.new.mine (may_log self.old.scm.made txn.now)) }
        ensures not_due { result ≡ Err NotDue → self.new.scm ≡ self.old.scm }
        ensures no_memory { result ≡ Err NoMemory → self.new.scm ≡ self.old.scm }
        ensures goes_on { BeginsWith self.new.seen self.old.seen }

        // The seat has seen it then.
        ensures shown { own_entries (λ event. event.seat) scm_seat (seen_of seat.new) ≡ self.new.mine }
        ensures follow { AllFollow (Follows O.coherent O.opening O.bytes O.script) [] (seen_of seat.new) }
        ensures ready { IsReady R.turn (number_of seat.old) seat.new }
        ensures begins { BeginsWith (seen_of seat.new) (seen_of seat.old) }
        ensures mine { mine_of seat.new ≡ mine_of seat.old }
        ensures room { room_of seat.new ≡ room_of seat.old }
    {
        let answer = self.logged(rt, alloc, turn, seat, txn);
        self.show(rt, turn, seat);
        answer
    }

    /// The same, without the last look.
    fn logged<W: Wait>(
        &mut self,
        rt: &W,
        alloc: Global,
        turn: &Turn<Ledger<O>>,
        seat: &mut Seat<Ledger<O>>,
        txn: &Txn,
    ) -> Result<(), AckFault>
        requires turn { turn_id turn.now ≡ R.turn }
        requires ready { IsReady R.turn (number_of seat.old) seat.old }
        requires purged { O.coherent → All (λ local. IsPurged (seen_of seat.old)
            (record { container = txn.now.container; local = local })) txn.now.locals }
        ensures due { OnOk result (may_log self.old.scm.made txn.now ≡ true) }
        ensures notes { (answer : AnyResult (Unit {0}) ℕ) → result ≡ noted_as answer → self.old.scm.stopped ≡ false →
            Notes (Logged txn.now) self.old.scm self.new.scm
            (seen (D.told self.old.scm.disk) (D.clock self.old.scm.disk) (D.image self.old.scm.disk)
            (D.faults self.old.scm.disk))
            (seen (D.told self.new.scm.disk) (D.clock self.new.scm.disk) (D.image self.new.scm.disk)
            (D.faults self.new.scm.disk))
            answer }
        ensures halted { self.old.scm.stopped ≡ true → (self.new.scm ≡ self.old.scm)
            × (result ≡ Err (Stopped (D.faults self.old.scm.disk))) }
        ensures own { self.new.mine ≡ own_noted self.old.scm.stopped (log_event txn.now) self.old.mine result }
        ensures refused { IfErr result (IsNoteRefusal self.new.mine (may_log self.old.scm.made txn.now)) }
        ensures not_due { result ≡ Err NotDue → self.new.scm ≡ self.old.scm }
        ensures no_memory { result ≡ Err NoMemory → self.new.scm ≡ self.old.scm }
        ensures goes_on { BeginsWith self.new.seen self.old.seen }
        ensures ready { IsReady R.turn (number_of seat.old) seat.new }
        ensures begins { BeginsWith (seen_of seat.new) (seen_of seat.old) }
        ensures mine { mine_of seat.new ≡ mine_of seat.old }
        ensures room { room_of seat.new ≡ room_of seat.old }
    {
        if self.scm.stopped() {
            let count = self.scm.faults();
            return Err(AckFault::Stopped { count });
        }
        if !self.scm.may_log(txn) {
            return Err(AckFault::NotDue);
        }
        let kind = log_event(alloc, txn)?;
        reserve(rt, alloc, turn, &mut self.seat)?;
        let logged = self.scm.log_txn(alloc, txn);
        let Some(noted) = noted(logged) else {
            release(rt, turn, &mut self.seat);
            return Err(AckFault::OutOfMemory);
        };
        let answer = seat_answer(noted);
        let told = told_of_note(kind, &answer);
        tell(rt, turn, &mut self.seat, seat, told);
        answer
    }
}

/// The event that says that a transaction was logged.
fn log_event(alloc: Global, txn: &Txn) -> Result<EventKind, OutOfMemory>
    ensures { IfOk result (λ kind. kind ≡ log_event txn.now) }
{
    let locals = Vec::from_slice(alloc, txn.locals.items())?;
    Ok(EventKind::Log {
        txn: txn.number,
        container: txn.container,
        locals: List::of(locals),
    })
}

/// What is answered of an entry that was to be added, None where there was no memory for it.
fn noted(answer: Result<(), ScmStop>) -> Option<Result<(), u64>>
    ensures { result ≡ noted answer }
{
    match answer {
        Ok(done) => Some(Ok(done)),
        Err(ScmStop::Stopped { count }) => Some(Err(count)),
        Err(ScmStop::OutOfMemory) => None,
    }
}

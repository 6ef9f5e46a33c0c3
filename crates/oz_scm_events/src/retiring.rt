//! Retirements of deletions that three datanodes acknowledged.

ghost use Rattle.std.specs.Prelude.{◌≡◌, ◌≤◌, [], true, false, length, Err, IfErr, OnOk, Result as AnyResult, ℕ};
ghost use Rattle.oz_buffer.specs.Buffer.{AllFollow, Follows};
ghost use Rattle.oz_core.specs.declared.event.EventKind.TheVariants.{Retire};
ghost use Rattle.oz_core.specs.Scm.{acknowledgers};
ghost use Rattle.oz_core.specs.Seats.{scm_seat};
ghost use Rattle.oz_dellog.specs.Log.{is_done};
ghost use Rattle.oz_scm.specs.declared.grants.entry.Entry.TheVariants.{Retired};
ghost use Rattle.oz_scm.specs.grants.Made.{log_of};
ghost use Rattle.oz_scm.specs.Noting.{Notes};
ghost use Rattle.oz_scm_events.specs.declared.acking.AckFault.TheVariants.{NotDue, OutOfMemory as NoMemory, Stopped};
ghost use Rattle.oz_scm_events.specs.Noted.{IsNoteRefusal, noted_as, own_noted};
ghost use Rattle.oz_turn.specs.Seat.{IsReady, mine_of, number_of, room_of, seen_of};
ghost use Rattle.oz_turn.specs.Told.{own_entries, BeginsWith};
ghost use Rattle.oz_turn.specs.Turn.{turn_id};
ghost use Rattle.oz_world.specs.Disk.{seen};

use crate::acking::{AckFault, seat_answer, told_of_note};
use crate::cell::ScmCell;
use crate::noting::{reserve, tell};
use oz_buffer::{Ledger, Opened};
use oz_core::EventKind;
use oz_turn::{Ring, Seat, Turn};
use oz_world::Disk;
use std::alloc::Global;
use std::sync::Wait;

impl<D: Disk, O: Opened, R: Ring> ScmCell<D, Ledger<O>, O, R> {
    /// Retires a transaction, if three datanodes acknowledged it, and appends a Retire, once that is stable. Where the disk
    /// fails it appends a Halt with the disk's count of faults, and answers Stopped with that count, now and ever after.
    /// Every other error leaves its disk and its events as they were. `seat` is that of who asks.
    pub fn retire<W: Wait>(
        &mut self,
        rt: &W,
        alloc: Global,
        turn: &Turn<Ledger<O>>,
        seat: &mut Seat<Ledger<O>>,
        txn: u64,
    ) -> Result<(), AckFault>
        requires turn { turn_id turn.now ≡ R.turn }
        requires ready { IsReady R.turn (number_of seat.old) seat.old }

        // What it notes is due, and stable, and stands in the story.
        ensures due { OnOk result (is_done (log_of self.old.scm.made) txn ≡ true) }
        ensures by_three { OnOk result (3 ≤ length (acknowledgers O.opening self.old.mine txn)) }
        ensures notes { (answer : AnyResult (Unit {0}) ℕ) → result ≡ noted_as answer → self.old.scm.stopped ≡ false →
            Notes (Retired txn) self.old.scm self.new.scm
            (seen (D.told self.old.scm.disk) (D.clock self.old.scm.disk) (D.image self.old.scm.disk)
            (D.faults self.old.scm.disk))
            (seen (D.told self.new.scm.disk) (D.clock self.new.scm.disk) (D.image self.new.scm.disk)
            (D.faults self.new.scm.disk))
            answer }
        ensures halted { self.old.scm.stopped ≡ true → (self.new.scm ≡ self.old.scm)
            × (result ≡ Err (Stopped (D.faults self.old.scm.disk))) }
        ensures own { self.new.mine ≡ own_noted self.old.scm.stopped (Retire txn) self.old.mine result }
        ensures refused { IfErr result (IsNoteRefusal self.new.mine (is_done (log_of self.old.scm.made) txn)) }
        ensures not_due { result ≡ Err NotDue → self.new.scm ≡ self.old.scm }
        ensures no_memory { result ≡ Err NoMemory → self.new.scm ≡ self.old.scm }
        ensures goes_on { BeginsWith self.new.seen self.old.seen }

        // The seat has seen it then.
        ensures shown { own_entries (λ event. event.seat) scm_seat (seen_of seat.new) ≡ self.new.mine }
        ensures follow { AllFollow (Follows O.coherent O.opening O.bytes O.script) [] (seen_of seat.new) }
        ensures ready { IsReady R.turn (number_of seat.old) seat.new }
        ensures begins { BeginsWith (seen_of seat.new) (seen_of seat.old) }
        ensures mine { mine_of seat.new ≡ mine_of seat.old }
        ensures room { room_of seat.new ≡ room_of seat.old }
    {
        let answer = self.retired(rt, alloc, turn, seat, txn);
        self.show(rt, turn, seat);
        answer
    }

    /// The same, without the last look.
    fn retired<W: Wait>(
        &mut self,
        rt: &W,
        alloc: Global,
        turn: &Turn<Ledger<O>>,
        seat: &mut Seat<Ledger<O>>,
        txn: u64,
    ) -> Result<(), AckFault>
        requires turn { turn_id turn.now ≡ R.turn }
        requires ready { IsReady R.turn (number_of seat.old) seat.old }
        ensures due { OnOk result (is_done (log_of self.old.scm.made) txn ≡ true) }
        ensures by_three { OnOk result (3 ≤ length (acknowledgers O.opening self.old.mine txn)) }
        ensures notes { (answer : AnyResult (Unit {0}) ℕ) → result ≡ noted_as answer → self.old.scm.stopped ≡ false →
            Notes (Retired txn) self.old.scm self.new.scm
            (seen (D.told self.old.scm.disk) (D.clock self.old.scm.disk) (D.image self.old.scm.disk)
            (D.faults self.old.scm.disk))
            (seen (D.told self.new.scm.disk) (D.clock self.new.scm.disk) (D.image self.new.scm.disk)
            (D.faults self.new.scm.disk))
            answer }
        ensures halted { self.old.scm.stopped ≡ true → (self.new.scm ≡ self.old.scm)
            × (result ≡ Err (Stopped (D.faults self.old.scm.disk))) }
        ensures own { self.new.mine ≡ own_noted self.old.scm.stopped (Retire txn) self.old.mine result }
        ensures refused { IfErr result (IsNoteRefusal self.new.mine (is_done (log_of self.old.scm.made) txn)) }
        ensures not_due { result ≡ Err NotDue → self.new.scm ≡ self.old.scm }
        ensures no_memory { result ≡ Err NoMemory → self.new.scm ≡ self.old.scm }
        ensures goes_on { BeginsWith self.new.seen self.old.seen }
        ensures ready { IsReady R.turn (number_of seat.old) seat.new }
        ensures begins { BeginsWith (seen_of seat.new) (seen_of seat.old) }
        ensures mine { mine_of seat.new ≡ mine_of seat.old }
        ensures room { room_of seat.new ≡ room_of seat.old }
    {
        if self.scm.stopped() {
            let count = self.scm.faults();
            return Err(AckFault::Stopped { count });
        }
        if !self.scm.may_retire(txn) {
            return Err(AckFault::NotDue);
        }
        reserve(rt, alloc, turn, &mut self.seat)?;
        let noted = self.scm.retire(txn);
        let answer = seat_answer(noted);
        let told = told_of_note(EventKind::Retire { txn }, &answer);
        tell(rt, turn, &mut self.seat, seat, told);
        answer
    }
}

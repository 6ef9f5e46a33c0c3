//! The flusher with its seat.

ghost use Rattle.std.specs.Prelude.{◌≡◌, ◌≤◌, ◌<◌, [], true, false, Ok, None, Some, is_err};
ghost use Rattle.std.specs.Prelude.{IsErr, IsSome, IfSome, IfOk, IfErr};
ghost use Rattle.oz_core.specs.declared.event.Node.TheVariants.{Manager};
ghost use Rattle.oz_core.specs.Manager.{halt_of};
ghost use Rattle.oz_flusher.specs.Stops.{StopsHold};
ghost use Rattle.oz_flusher.specs.flushing.Flush.{FlushTells};
ghost use Rattle.oz_flusher.specs.flushing.Kept.{IsKept};
ghost use Rattle.oz_journal.specs.Grammar.{IsJournal};
ghost use Rattle.oz_core.specs.Seats.{flusher_seat};
ghost use Rattle.oz_turn.specs.Seat.{IsNewSeat, IsReady, mine_of, seen_of};
ghost use Rattle.oz_turn.specs.Told.{BeginsWith};
ghost use Rattle.oz_turn.specs.Turn.{turn_id};
ghost use Rattle.oz_world.specs.Disk.{seen, TellsAsBefore};
ghost use Rattle.oz_world.specs.Faults.{Rose};
ghost use Rattle.oz_world.specs.Moments.{Elapses};

use crate::flushing::halting::halted_count;
use crate::flushing::mounted::Mounted;
use crate::{Flushed, Flusher};
use oz_buffer::{Ledger, Opened};
use oz_core::Event;
use oz_journal::Journal;
use oz_turn::{Ring, Seat, Told, Turn};
use oz_world::{Disk, Failed, Gate};
use std::marker::{Model, PhantomData};
use std::sync::Wait;

/// The flusher of a run, and its seat. What became of the disk and of the story is kept by the type, so that it can be
/// said of a value that comes out of a lock.
#[derive(Drop)]
pub struct Flushing<D: Disk, T: Told<Entry = Event>, O: Opened, M: Mounted, R: Ring> {
    flusher: Flusher<D>,
    halted: Option<u64>,
    seat: Seat<T>,
    of: PhantomData<(O, M, R)>,
}

impl<D: Disk, T: Told<Entry = Event>, O: Opened, M: Mounted, R: Ring> Model
    for Flushing<D, T, O, M, R> {
    ghost use Rattle.std.specs.Prelude.{◌≡◌};
    ghost use Rattle.oz_core.specs.declared.event.Node.TheVariants.{Manager};
    ghost use Rattle.oz_core.specs.Manager.{halt_of};
    ghost use Rattle.oz_core.specs.Seats.{flusher_seat};
    ghost use Rattle.oz_flusher.specs.flushing.Kept.{FlushingView, IsKept};
    ghost use Rattle.oz_turn.specs.Seat.{IsReady, mine_of, seen_of};
    ghost use Rattle.oz_world.specs.Disk.{seen};

    ghost Value = { FlushingView D };

    ghost view = { λ f. record {
      disk = f.flusher.disk;
      stopped = f.flusher.stopped;
      seen = seen_of f.seat;
      mine = mine_of f.seat;
    } };

    ghost invariant = { λ f. IsReady R.turn flusher_seat f.seat × (f.halted ≡ halt_of Manager (mine_of f.seat))
        × IsKept O.coherent O.opening O.bodies M.disk f.flusher.stopped (seen_of f.seat) (mine_of f.seat)
        (seen (D.told f.flusher.disk) (D.clock f.flusher.disk) (D.image f.flusher.disk) (D.faults f.flusher.disk)) };
}

impl<D: Disk, T: Told<Entry = Event>, O: Opened, M: Mounted, R: Ring> Flushing<D, T, O, M, R> {
    /// A flusher of what was loaded, that has flushed nothing yet. It takes no memory.
    pub fn make(flusher: Flusher<D>, seat: Seat<T>) -> Flushing<D, T, O, M, R>
        requires running { flusher.stopped ≡ false }
        requires seat { IsNewSeat R.turn flusher_seat seat }
        requires faults { D.faults flusher.disk ≡ M.disk.faults }
        requires telling { TellsAsBefore M.disk.told (D.told flusher.disk) }
        requires time { Elapses M.disk.clock (D.clock flusher.disk) M.disk.image (D.image flusher.disk) }
        requires journal { O.coherent → IfSome (D.told flusher.disk) (λ bytes. IsJournal bytes O.bodies) }
        requires stops { O.coherent → IsSome (D.told flusher.disk) →
            StopsHold O.bodies [] M.disk.clock (D.clock flusher.disk) (D.image flusher.disk) }
        ensures { result ≡ record { disk = flusher.disk; stopped = false; seen = []; mine = [] } }
    {
        Flushing {
            flusher,
            halted: None,
            seat,
            of: PhantomData,
        }
    }

    /// What holds of every one. It does nothing when it runs.
    pub fn is_kept(&self)
        ensures { IsKept O.coherent O.opening O.bodies M.disk self.now.stopped self.now.seen self.now.mine
            (seen (D.told self.now.disk) (D.clock self.now.disk) (D.image self.now.disk) (D.faults self.now.disk)) }
    {
        let _halted = self.halted;
    }

    /// The journal and the seat. It takes no memory.
    pub fn into_parts(self) -> (Journal<D>, Seat<T>)
        ensures journal { result.0 ≡ record { disk = self.disk; stopped = self.stopped } }
        ensures ready { IsReady R.turn flusher_seat result.1 }
        ensures events { (seen_of result.1 ≡ self.seen) × (mine_of result.1 ≡ self.mine) }
        ensures kept { IsKept O.coherent O.opening O.bodies M.disk result.0.stopped (seen_of result.1)
            (mine_of result.1)
            (seen (D.told result.0.disk) (D.clock result.0.disk) (D.image result.0.disk) (D.faults result.0.disk)) }
    {
        let Flushing {
            flusher,
            halted: _,
            seat,
            of: _,
        } = self;
        (flusher.into_journal(), seat)
    }
}

impl<D: Disk, O: Opened, M: Mounted, R: Ring> Flushing<D, Ledger<O>, O, M, R> {
    /// Flushes what was decided and isn't flushed. An error is the count of faults with which the manager halted, now
    /// or before; where it was before, nothing is done. It takes no memory.
    pub fn flush<W: Wait, G: Gate>(
        &mut self,
        rt: &W,
        turn: &Turn<Ledger<O>>,
        gate: &G,
    ) -> Result<Option<Flushed>, u64>
        requires { turn_id turn.now ≡ R.turn }
        ensures running { self.old.stopped ≡ false →
            FlushTells O.opening self.old.seen self.old.mine self.new.seen self.new.mine
            (seen (D.told self.old.disk) (D.clock self.old.disk) (D.image self.old.disk) (D.faults self.old.disk))
            (seen (D.told self.new.disk) (D.clock self.new.disk) (D.image self.new.disk) (D.faults self.new.disk))
            result }
        ensures halted { self.old.stopped ≡ true → (self.new ≡ self.old) × IsErr result }
        ensures err { IfErr result (λ count. (count ≡ D.faults self.new.disk) × Rose M.disk.faults count
            × (halt_of Manager self.new.mine ≡ Some count)) }
        ensures moment { IfOk result (λ flushed. IfSome flushed (λ this. M.disk.clock < this.moment)) }
        ensures none { result ≡ Ok None → self.new.disk ≡ self.old.disk }
        ensures stopped { self.new.stopped ≡ is_err result }
        ensures goes_on { BeginsWith self.new.seen self.old.seen }
    {
        if let Some(count) = self.halted {
            return Err(count);
        }
        let ended = self.flusher.flush_once(rt, turn, &mut self.seat, gate);
        self.seat.knows_own();
        match ended {
            Ok(flushed) => Ok(flushed),
            Err(Failed) => {
                let count = halted_count(rt, turn, &mut self.seat);
                self.halted = Some(count);
                Err(count)
            }
        }
    }
}

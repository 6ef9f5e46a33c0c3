//! The flusher.

ghost use Rattle.std.specs.Prelude.{◌≡◌, ◌≢◌, ℕ, [], None, is_err, OnOk, IsSome};
ghost use Rattle.oz_core.specs.Seats.{flusher_seat};
ghost use Rattle.oz_flusher.specs.Flushes.{FlushEnds};
ghost use Rattle.oz_flusher.specs.Quiet.{IsIdle};
ghost use Rattle.oz_flusher.specs.Stops.{StopsHold};
ghost use Rattle.oz_turn.specs.Seat.{mine_of, room_of, seen_of, IsReady};
ghost use Rattle.oz_turn.specs.Turn.{turn_id};
ghost use Rattle.oz_world.specs.Disk.{seen};

use crate::flushed::Flushed;
use crate::swapping::{FLUSHER_SEAT, note, swap};
use oz_buffer::{Ledger, Opened, Ready};
use oz_core::{EventKind, Node};
use oz_journal::Journal;
use oz_turn::{Seat, Turn};
use oz_world::{Disk, Failed, Gate, Point};
use std::marker::Model;
use std::sync::Wait;

/// The manager's journal, and the memory for the batches that are being written. Contracts see the journal.
#[derive(Drop)]
pub struct Flusher<D: Disk> {
    journal: Journal<D>,
    ready: Ready,
}

impl<D: Disk> Model for Flusher<D> {
    ghost use Rattle.std.specs.Prelude.{◌≡◌, []};
    ghost use Rattle.oz_journal.specs.Journal.{State};

    ghost Value = { State D };

    ghost view = { λ flusher. flusher.journal };

    ghost invariant = { λ flusher. flusher.ready.bytes ≡ [] };
}

impl<D: Disk> Flusher<D> {
    pub fn new(journal: Journal<D>, ready: Ready) -> Flusher<D>
        requires { ready.bytes ≡ [] }
        ensures { result ≡ journal }
    {
        Flusher { journal, ready }
    }

    pub fn into_journal(self) -> Journal<D>
        ensures { result ≡ self }
    {
        let Flusher { journal, ready: _ } = self;
        journal
    }

    /// Whether a write of it has failed. From then on it writes nothing.
    pub fn stopped(&self) -> bool
        ensures { result ≡ self.now.stopped }
    {
        self.journal.stopped()
    }

    /// Takes what was decided since the last flush, writes it as one body, and says in the story that it is stable, or that
    /// the manager halts. It holds the turn to take it and again to say so, and not while it writes. It takes no memory.
    pub fn flush_once<O: Opened, W: Wait, G: Gate>(
        &mut self,
        rt: &W,
        turn: &Turn<Ledger<O>>,
        seat: &mut Seat<Ledger<O>>,
        gate: &G,
    ) -> Result<Option<Flushed>, Failed>
        requires idle { IsIdle (turn_id turn.now) O.coherent O.opening O.bodies (D.told self.old.disk)
            (D.clock self.old.disk) self.old.stopped seat.old }
        ensures ends { FlushEnds O.opening (seen_of seat.old) (mine_of seat.old) (seen_of seat.new) (mine_of seat.new)
            (seen (D.told self.old.disk) (D.clock self.old.disk) (D.image self.old.disk) (D.faults self.old.disk))
            (seen (D.told self.new.disk) (D.clock self.new.disk) (D.image self.new.disk) (D.faults self.new.disk))
            result }
        ensures none { result ≡ Ok None → self.new ≡ self.old }
        ensures stopped { self.new.stopped ≡ is_err result }
        ensures seat { IsReady (turn_id turn.now) flusher_seat seat.new }
        ensures room { room_of seat.new ≡ room_of seat.old }

        // After Ok it may be called again.
        ensures idle { OnOk result (IsIdle (turn_id turn.now) O.coherent O.opening O.bodies (D.told self.new.disk)
            (D.clock self.new.disk) self.new.stopped seat.new) }

        // What a stop at any moment leaves.
        ensures stops { O.coherent → IsSome (D.told self.old.disk) → (first : ℕ) →
            StopsHold O.bodies (seen_of seat.old) first (D.clock self.old.disk) (D.image self.old.disk) →
            StopsHold O.bodies (seen_of seat.new) first (D.clock self.new.disk) (D.image self.new.disk) }
    {
        let Some(index) = swap(rt, turn, seat, &mut self.ready) else {
            return Ok(None);
        };
        gate.pass(rt, Point::ManagerWrite, FLUSHER_SEAT);
        let Ok(moment) = self.ready.append_to(&mut self.journal, index) else {
            let count = self.journal.faults();
            let node = Node::Manager;
            note(rt, turn, seat, EventKind::Halt { node, count });
            return Err(Failed);
        };
        note(rt, turn, seat, EventKind::Flushed { index, moment });
        Ok(Some(Flushed { index, moment }))
    }
}

//! Tracking a datanode with room that was made before.

ghost use Rattle.std.specs.Prelude.{◌≡◌, ◌+◌, ◌<◌, ◌≤◌, [], length, slice_set, Ok, OnErr, OnOk};
ghost use Rattle.oz_buffer.specs.Buffer.{AllFollow, Follows};
ghost use Rattle.oz_core.specs.Nodes.{is_running};
ghost use Rattle.oz_core.specs.Seats.{datanode_seat, scm_seat};
ghost use Rattle.oz_scm_events.specs.Tracked.{IsTracked};
ghost use Rattle.oz_turn.specs.Seat.{IsReady, mine_of, room_of, seen_of};
ghost use Rattle.oz_turn.specs.Told.{own_entries, BeginsWith};
ghost use Rattle.oz_turn.specs.Turn.{turn_id};

use crate::cell::ScmCell;
use crate::noting::{release, reserve, tell};
use crate::tracking::up_event;
use oz_buffer::{Ledger, Opened, OutOfMemory};
use oz_turn::{Ring, Seat, Turn};
use oz_world::Disk;
use std::alloc::Global;
use std::sync::Wait;

impl<D: Disk, O: Opened, R: Ring> ScmCell<D, Ledger<O>, O, R> {
    /// Makes room for one event more. Where there is no memory nothing changes but that the seat may have seen more.
    pub fn ready<W: Wait>(
        &mut self,
        rt: &W,
        alloc: Global,
        turn: &Turn<Ledger<O>>,
    ) -> Result<(), OutOfMemory>
        requires { turn_id turn.now ≡ R.turn }
        ensures same { (self.new.scm ≡ self.old.scm) × (self.new.mine ≡ self.old.mine) }
        ensures room { OnOk result (self.new.room ≡ self.old.room + 1) }
        ensures lacks { OnErr result (self.new.room ≡ self.old.room) }
        ensures goes_on { BeginsWith self.new.seen self.old.seen }
    {
        reserve(rt, alloc, turn, &mut self.seat)
    }

    /// Gives back the room for one event, which doesn't come.
    pub fn unready<W: Wait>(&mut self, rt: &W, turn: &Turn<Ledger<O>>)
        requires turn { turn_id turn.now ≡ R.turn }
        requires room { 1 ≤ self.old.room }
        ensures same { (self.new.scm ≡ self.old.scm) × (self.new.mine ≡ self.old.mine) }
        ensures room { self.new.room + 1 ≡ self.old.room }
        ensures goes_on { BeginsWith self.new.seen self.old.seen }
    {
        release(rt, turn, &mut self.seat);
    }

    /// As `track`, with room for the event that was made before; it takes no memory. Where no event comes of it the room is
    /// given back.
    pub fn track_ready<W: Wait>(
        &mut self,
        rt: &W,
        turn: &Turn<Ledger<O>>,
        seat: &mut Seat<Ledger<O>>,
        dn: u8,
        up: bool,
    ) -> bool
        requires turn { turn_id turn.now ≡ R.turn }
        requires there { dn < length O.opening.nodes }
        requires ready { IsReady R.turn (datanode_seat dn) seat.old }
        requires runs { is_running dn (mine_of seat.old) ≡ up }
        requires made { 1 ≤ self.old.room }
        ensures own { IsTracked {E = Unit {0}} dn up self.old.mine self.new.mine (Ok result) }
        ensures scm { self.new.scm ≡ record self.old.scm { up = slice_set self.old.scm.up dn up } }
        ensures left { self.new.room + 1 ≡ self.old.room }
        ensures goes_on { BeginsWith self.new.seen self.old.seen }
        ensures shown { own_entries (λ event. event.seat) scm_seat (seen_of seat.new) ≡ self.new.mine }
        ensures its_own { own_entries (λ event. event.seat) (datanode_seat dn) (seen_of seat.new) ≡ mine_of seat.new }
        ensures follow { AllFollow (Follows O.coherent O.opening O.bytes O.script) [] (seen_of seat.new) }
        ensures ready { IsReady R.turn (datanode_seat dn) seat.new }
        ensures begins { BeginsWith (seen_of seat.new) (seen_of seat.old) }
        ensures mine { mine_of seat.new ≡ mine_of seat.old }
        ensures room { room_of seat.new ≡ room_of seat.old }
    {
        let answer = self.tracked_ready(rt, turn, seat, dn, up);
        self.show(rt, turn, seat);
        seat.knows_own();
        answer
    }

    /// The same, without the last look.
    fn tracked_ready<W: Wait>(
        &mut self,
        rt: &W,
        turn: &Turn<Ledger<O>>,
        seat: &mut Seat<Ledger<O>>,
        dn: u8,
        up: bool,
    ) -> bool
        requires turn { turn_id turn.now ≡ R.turn }
        requires there { dn < length O.opening.nodes }
        requires ready { IsReady R.turn (datanode_seat dn) seat.old }
        requires runs { is_running dn (mine_of seat.old) ≡ up }
        requires made { 1 ≤ self.old.room }
        ensures own { IsTracked {E = Unit {0}} dn up self.old.mine self.new.mine (Ok result) }
        ensures scm { self.new.scm ≡ record self.old.scm { up = slice_set self.old.scm.up dn up } }
        ensures left { self.new.room + 1 ≡ self.old.room }
        ensures goes_on { BeginsWith self.new.seen self.old.seen }
        ensures ready { IsReady R.turn (datanode_seat dn) seat.new }
        ensures begins { BeginsWith (seen_of seat.new) (seen_of seat.old) }
        ensures mine { mine_of seat.new ≡ mine_of seat.old }
        ensures room { room_of seat.new ≡ room_of seat.old }
    {
        if self.scm.is_up(dn) == up {
            release(rt, turn, &mut self.seat);
            return false;
        }
        tell(rt, turn, &mut self.seat, seat, Some(up_event(dn, up)));
        self.scm.set_up(dn, up);
        true
    }
}

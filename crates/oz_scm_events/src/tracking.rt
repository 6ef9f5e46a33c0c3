//! Which datanodes the storage container manager takes for up.

ghost use Rattle.std.specs.Prelude.{◌≡◌, ◌<◌, [], length, slice_set, OnErr, OnOk};
ghost use Rattle.oz_buffer.specs.Buffer.{AllFollow, Follows};
ghost use Rattle.oz_core.specs.Nodes.{is_running};
ghost use Rattle.oz_core.specs.Seats.{datanode_seat, scm_seat};
ghost use Rattle.oz_scm_events.specs.Tracked.{IsTracked, up_event};
ghost use Rattle.oz_turn.specs.Seat.{IsReady, mine_of, room_of, seen_of};
ghost use Rattle.oz_turn.specs.Told.{own_entries, BeginsWith};
ghost use Rattle.oz_turn.specs.Turn.{turn_id};

use crate::cell::ScmCell;
use crate::noting::{reserve, tell};
use oz_buffer::{Ledger, Opened, OutOfMemory};
use oz_core::EventKind;
use oz_turn::{Ring, Seat, Turn};
use oz_world::Disk;
use std::alloc::Global;
use std::sync::Wait;

impl<D: Disk, O: Opened, R: Ring> ScmCell<D, Ledger<O>, O, R> {
    /// Takes a datanode for up, which runs, or for down, which doesn't run; and answers whether it was taken for the
    /// other before. Then it appends an Up or a Down, and where it wasn't nothing. Without memory nothing changes.
    ///
    /// `seat` is the datanode's, whose own events tell whether it runs. Who calls holds the datanode's lock.
    pub fn track<W: Wait>(
        &mut self,
        rt: &W,
        alloc: Global,
        turn: &Turn<Ledger<O>>,
        seat: &mut Seat<Ledger<O>>,
        dn: u8,
        up: bool,
    ) -> Result<bool, OutOfMemory>
        requires turn { turn_id turn.now ≡ R.turn }
        requires there { dn < length O.opening.nodes }
        requires ready { IsReady R.turn (datanode_seat dn) seat.old }
        requires runs { is_running dn (mine_of seat.old) ≡ up }
        ensures own { IsTracked dn up self.old.mine self.new.mine result }
        ensures scm { OnOk result (self.new.scm ≡ record self.old.scm { up = slice_set self.old.scm.up dn up }) }
        ensures same { OnErr result (self.new.scm ≡ self.old.scm) }
        ensures goes_on { BeginsWith self.new.seen self.old.seen }
        ensures shown { own_entries (λ event. event.seat) scm_seat (seen_of seat.new) ≡ self.new.mine }
        ensures follow { AllFollow (Follows O.coherent O.opening O.bytes O.script) [] (seen_of seat.new) }
        ensures ready { IsReady R.turn (datanode_seat dn) seat.new }
        ensures begins { BeginsWith (seen_of seat.new) (seen_of seat.old) }
        ensures mine { mine_of seat.new ≡ mine_of seat.old }
        ensures room { room_of seat.new ≡ room_of seat.old }
    {
        let answer = self.tracked(rt, alloc, turn, seat, dn, up);
        self.show(rt, turn, seat);
        answer
    }

    /// The same, without the last look.
    fn tracked<W: Wait>(
        &mut self,
        rt: &W,
        alloc: Global,
        turn: &Turn<Ledger<O>>,
        seat: &mut Seat<Ledger<O>>,
        dn: u8,
        up: bool,
    ) -> Result<bool, OutOfMemory>
        requires turn { turn_id turn.now ≡ R.turn }
        requires there { dn < length O.opening.nodes }
        requires ready { IsReady R.turn (datanode_seat dn) seat.old }
        requires runs { is_running dn (mine_of seat.old) ≡ up }
        ensures own { IsTracked dn up self.old.mine self.new.mine result }
        ensures scm { OnOk result (self.new.scm ≡ record self.old.scm { up = slice_set self.old.scm.up dn up }) }
        ensures same { OnErr result (self.new.scm ≡ self.old.scm) }
        ensures goes_on { BeginsWith self.new.seen self.old.seen }
        ensures ready { IsReady R.turn (datanode_seat dn) seat.new }
        ensures begins { BeginsWith (seen_of seat.new) (seen_of seat.old) }
        ensures mine { mine_of seat.new ≡ mine_of seat.old }
        ensures room { room_of seat.new ≡ room_of seat.old }
    {
        if self.scm.is_up(dn) == up {
            return Ok(false);
        }
        reserve(rt, alloc, turn, &mut self.seat)?;
        tell(rt, turn, &mut self.seat, seat, Some(up_event(dn, up)));
        self.scm.set_up(dn, up);
        Ok(true)
    }
}

pub(crate) fn up_event(dn: u8, up: bool) -> EventKind
    ensures { result ≡ up_event dn up }
{
    if up {
        EventKind::Up { dn }
    } else {
        EventKind::Down { dn }
    }
}

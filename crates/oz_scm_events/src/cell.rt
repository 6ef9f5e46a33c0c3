//! The storage container manager with its seat.

ghost use Rattle.std.specs.Prelude.{◌≡◌, ◌<◌, ◌≤◌, [], length, map, replicate, true, false, IfOk, IfSome, IsSome, None, ℕ};
ghost use Rattle.std.specs.FinMap.{get};
ghost use Rattle.std.specs.List.{range_with_len};
ghost use Rattle.oz_buffer.specs.Buffer.{AllFollow, Follows};
ghost use Rattle.oz_core.specs.declared.event.Node.TheVariants.{Scm as ScmNode};
ghost use Rattle.oz_core.specs.Scm.{containers, is_up, members};
ghost use Rattle.oz_core.specs.Seats.{scm_seat};
ghost use Rattle.oz_scm.specs.declared.grants.container.Container.{Container as AnyContainer};
ghost use Rattle.oz_scm.specs.grants.Counts.{AreCounts};
ghost use Rattle.oz_scm.specs.grants.Log.{AreCounted};
ghost use Rattle.oz_scm.specs.grants.Made.{log_of, state_at};
ghost use Rattle.oz_scm_events.specs.Kept.{AreContainers, IsKept, IsLogOf};
ghost use Rattle.oz_scm_events.specs.Left.{Leaves};
ghost use Rattle.oz_scm_events.specs.Stepped.{state_told};
ghost use Rattle.oz_turn.specs.Seat.{IsNewSeat, IsReady, IsSameSeat, mine_of, number_of, room_of, seen_of, share_of, taken_of, turn_of};
ghost use Rattle.oz_turn.specs.Told.{own_entries, BeginsWith};
ghost use Rattle.oz_turn.specs.Turn.{turn_id};
ghost use Rattle.oz_world.specs.Disk.{seen};

use crate::laws::the_scm_alone_tells;
use crate::noting::show;
use oz_buffer::{Ledger, Opened, OutOfMemory};
use oz_container::State;
use oz_core::Event;
use oz_scm::{Container, Scm};
use oz_turn::{Ring, Seat, Told, Turn};
use oz_world::Disk;
use std::alloc::Global;
use std::marker::{Model, PhantomData};
use std::sync::Wait;

/// The storage container manager of a run, and its seat. That it stands for what its own events make of the opening is
/// kept by the type, so that it can be said of a value that comes out of a lock.
#[derive(Drop)]
pub struct ScmCell<D: Disk, T: Told<Entry = Event>, O: Opened, R: Ring> {
    pub(crate) scm: Scm<D>,
    pub(crate) seat: Seat<T>,
    of: PhantomData<(O, R)>,
}

impl<D: Disk, T: Told<Entry = Event>, O: Opened, R: Ring> Model for ScmCell<D, T, O, R> {
    ghost use Rattle.oz_core.specs.declared.event.Node.TheVariants.{Scm as ScmNode};
    ghost use Rattle.oz_core.specs.Seats.{scm_seat};
    ghost use Rattle.std.specs.Prelude.{◌≡◌, true};
    ghost use Rattle.oz_scm.specs.Codes.{coded_scm};
    ghost use Rattle.oz_scm_events.specs.Kept.{ScmView, IsKept};
    ghost use Rattle.oz_scm_events.specs.Left.{ScmHalted};
    ghost use Rattle.oz_world.specs.Disk.{seen};
    ghost use Rattle.oz_turn.specs.Seat.{IsReady, mine_of, room_of, seen_of};
    ghost use Rattle.std.specs.Coded.{codes};

    ghost Value = { ScmView D };

    ghost coded = { Prim.hlevel (codes, coded_scm D.code) };

    ghost view = { λ cell. record {
      scm = cell.scm;
      seen = seen_of cell.seat;
      mine = mine_of cell.seat;
      room = room_of cell.seat;
    } };

    ghost invariant = { λ cell. IsReady R.turn scm_seat cell.seat
        × IsKept O.opening (O.faults ScmNode) cell.scm (D.faults cell.scm.disk) (seen_of cell.seat) (mine_of cell.seat)
        × (O.coherent → cell.scm.stopped ≡ true → ScmHalted
        (seen (D.told cell.scm.disk) (D.clock cell.scm.disk) (D.image cell.scm.disk) (D.faults cell.scm.disk))
        O.opening (seen_of cell.seat)) };
}

impl<D: Disk, T: Told<Entry = Event>, O: Opened, R: Ring> ScmCell<D, T, O, R> {
    /// One that was loaded, and stands for the opening. It takes no memory.
    pub fn make(scm: Scm<D>, seat: Seat<T>) -> ScmCell<D, T, O, R>
        requires running { scm.stopped ≡ false }
        requires nodes { scm.made.nodes ≡ length O.opening.nodes }
        requires next { scm.made.next_id ≡ O.opening.next_id }
        requires containers { AreContainers scm.made.containers O.opening.containers }
        requires up { scm.up ≡ replicate (length O.opening.nodes) true }
        requires log { IsLogOf O.opening [] (log_of scm.made) }
        requires faults { O.faults ScmNode ≤ D.faults scm.disk }
        requires seat { IsNewSeat R.turn scm_seat seat }
        ensures { result ≡ record { scm = scm; seen = []; mine = []; room = 0 } }
    {
        ScmCell {
            scm,
            seat,
            of: PhantomData,
        }
    }

    /// What holds of every one. It does nothing when it runs.
    pub fn is_kept(&self)
        ensures { IsKept O.opening (O.faults ScmNode) self.now.scm (D.faults self.now.scm.disk) self.now.seen self.now.mine }
    {
        let _count = self.scm.faults();
    }

    /// What a stop leaves of its disk. It does nothing when it runs.
    pub fn is_left(&self)
        ensures { Leaves O.coherent O.opening self.now.scm
            (seen (D.told self.now.scm.disk) (D.clock self.now.scm.disk) (D.image self.now.scm.disk)
            (D.faults self.now.scm.disk))
            self.now.seen self.now.mine }
    {
        let _stopped = self.scm.stopped();
    }

    /// The state that a container is in, None where it wasn't made.
    pub fn state(&self, container: u64) -> Option<State>
        ensures made { result ≡ state_at self.now.scm.made.containers container }
        ensures told { result ≡ state_told O.opening self.now.mine container }
    {
        self.scm.state(container)
    }

    /// Each transaction that isn't retired has from one id to 1,024. It does nothing when it runs.
    pub fn are_counted(&self)
        ensures { AreCounted self.now.scm.made }
    {
        self.scm.are_counted();
    }

    /// Whether it takes a datanode for up.
    pub fn is_up(&self, dn: u8) -> bool
        requires { dn < length O.opening.nodes }
        ensures { result ≡ is_up dn self.now.mine }
    {
        self.scm.is_up(dn)
    }

    /// The datanodes that have a container's replicas, None where it wasn't made, by what this seat has told.
    pub fn members_told(&self, container: u64) -> Option<[u8; 3]>
        ensures made { IfSome result (λ dns. members O.opening self.now.mine container ≡ dns) }
        ensures none { result ≡ None → get (containers O.opening self.now.mine) container ≡ None }
    {
        self.scm.members(container)
    }

    /// How many containers there are in each state, in the order of the states; None where one of the counts passes a
    /// `u32`.
    pub fn counts(&self) -> Option<[u32; 6]>
        ensures { AreCounts self.now.scm.made.containers result }
    {
        self.scm.counts()
    }

    /// The containers that were made with their numbers, in their order.
    pub fn containers(&self, alloc: Global) -> Result<Vec<(u64, Container)>, OutOfMemory>
        ensures numbers { IfOk result (λ all. map (λ (one : ℕ × AnyContainer). one.0) all.items
            ≡ range_with_len 1 (length self.now.scm.made.containers)) }
        ensures containers { IfOk result (λ all. map (λ (one : ℕ × AnyContainer). one.1) all.items
            ≡ self.now.scm.made.containers) }
    {
        self.scm.containers(alloc)
    }

    /// The storage container manager and the seat. It takes no memory.
    pub fn into_parts(self) -> (Scm<D>, Seat<T>)
        ensures scm { result.0 ≡ self.scm }
        ensures ready { IsReady R.turn scm_seat result.1 }
        ensures events { (seen_of result.1 ≡ self.seen) × (mine_of result.1 ≡ self.mine) }
        ensures kept { IsKept O.opening (O.faults ScmNode) result.0 (D.faults result.0.disk) (seen_of result.1) (mine_of result.1) }
        ensures left { Leaves O.coherent O.opening result.0
            (seen (D.told result.0.disk) (D.clock result.0.disk) (D.image result.0.disk) (D.faults result.0.disk))
            (seen_of result.1) (mine_of result.1) }
    {
        self.is_left();
        let ScmCell { scm, seat, of: _ } = self;
        (scm, seat)
    }
}

impl<D: Disk, O: Opened, R: Ring> ScmCell<D, Ledger<O>, O, R> {
    /// Lets another seat see all that happened until now. Until the lock is given back no event of this one follows: so
    /// who looks whether a stripe has a block left passes over none of its Grants.
    pub fn show<W: Wait>(&mut self, rt: &W, turn: &Turn<Ledger<O>>, seat: &mut Seat<Ledger<O>>)
        requires turn { turn_id turn.now ≡ R.turn }
        requires ready { IsReady R.turn (number_of seat.old) seat.old }

        // It is as it was, but for what it has seen.
        ensures same { (self.new.scm ≡ self.old.scm) × (self.new.mine ≡ self.old.mine) }
        ensures same_room { self.new.room ≡ self.old.room }
        ensures goes_on { BeginsWith self.new.seen self.old.seen }

        // In what the other seat has seen then, the events of this one are all that it gave.
        ensures shown { own_entries (λ event. event.seat) scm_seat (seen_of seat.new) ≡ self.new.mine }
        ensures follow { AllFollow (Follows O.coherent O.opening O.bytes O.script) [] (seen_of seat.new) }
        ensures ready { IsReady R.turn (number_of seat.old) seat.new }
        ensures begins { BeginsWith (seen_of seat.new) (seen_of seat.old) }
        ensures mine { mine_of seat.new ≡ mine_of seat.old }
        ensures room { room_of seat.new ≡ room_of seat.old }
    {
        show(rt, turn, &mut self.seat, seat);
    }

    /// Sees all that happened until now, while another seat holds the turn. What that seat has seen then has the events of
    /// this one, all that it gave. It waits for nothing, and takes no memory.
    pub fn be_shown(&mut self, turn: &Turn<Ledger<O>>, holder: &mut Seat<Ledger<O>>)
        requires turn { turn_id turn.now ≡ R.turn }
        requires holder { turn_of holder.old ≡ R.turn }
        requires held { IsSome (taken_of holder.old) }
        ensures same { (self.new.scm ≡ self.old.scm) × (self.new.mine ≡ self.old.mine) }
        ensures same_room { self.new.room ≡ self.old.room }
        ensures goes_on { BeginsWith self.new.seen self.old.seen }
        ensures seen { self.new.seen ≡ seen_of holder.new }
        ensures shown { own_entries (λ event. event.seat) scm_seat (seen_of holder.new) ≡ self.new.mine }

        // The holder is as it was.
        ensures holder { IsSameSeat holder.old holder.new }
        ensures share { share_of holder.new ≡ share_of holder.old }
        ensures taken { taken_of holder.new ≡ taken_of holder.old }
    {
        turn.show(holder, &mut self.seat);
    }

    /// The datanodes that have a container's replicas, None where it wasn't made. Another seat sees all that happened until now.
    pub fn members<W: Wait>(
        &mut self,
        rt: &W,
        turn: &Turn<Ledger<O>>,
        seat: &mut Seat<Ledger<O>>,
        container: u64,
    ) -> Option<[u8; 3]>
        requires turn { turn_id turn.now ≡ R.turn }
        requires ready { IsReady R.turn (number_of seat.old) seat.old }
        ensures made { O.coherent → IfSome result (λ dns. members O.opening (seen_of seat.new) container ≡ dns) }
        ensures none { O.coherent → result ≡ None → get (containers O.opening (seen_of seat.new)) container ≡ None }

        // As of `show`.
        ensures same { (self.new.scm ≡ self.old.scm) × (self.new.mine ≡ self.old.mine) }
        ensures same_room { self.new.room ≡ self.old.room }
        ensures goes_on { BeginsWith self.new.seen self.old.seen }
        ensures shown { own_entries (λ event. event.seat) scm_seat (seen_of seat.new) ≡ self.new.mine }
        ensures follow { AllFollow (Follows O.coherent O.opening O.bytes O.script) [] (seen_of seat.new) }
        ensures ready { IsReady R.turn (number_of seat.old) seat.new }
        ensures begins { BeginsWith (seen_of seat.new) (seen_of seat.old) }
        ensures mine { mine_of seat.new ≡ mine_of seat.old }
        ensures room { room_of seat.new ≡ room_of seat.old }
    {
        the_scm_alone_tells::<O>();
        self.show(rt, turn, seat);
        self.is_kept();
        self.scm.members(container)
    }
}

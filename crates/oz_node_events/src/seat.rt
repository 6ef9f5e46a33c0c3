//! The seat of a datanode, which is kept beside it.

ghost use Rattle.std.specs.Prelude.{◌≡◌, ◌+◌, ◌<◌, ◌≤◌, ◌++◌, ◌∷◌, [], List, length, slice_index, slice_set, true, false, None, IsSome, Ok, Err, OnOk, OnErr};
ghost use Rattle.oz_buffer.specs.Buffer.{AllFollow, Follows, IsNote};
ghost use Rattle.oz_core.specs.declared.event.Event.{Event as AnyEvent};
ghost use Rattle.oz_core.specs.Asks.{is_told};
ghost use Rattle.oz_core.specs.Nodes.{is_running};
ghost use Rattle.oz_core.specs.Seats.{datanode_seat};
ghost use Rattle.oz_script.specs.declared.lines.script.TheConstants.{MOST_CLIENTS as MOST};
ghost use Rattle.oz_nodes.specs.declared.nodes.TheConstants.{MOST_NODES};
ghost use Rattle.oz_datanode.specs.Datanode.{is_halted};
ghost use Rattle.oz_node_events.specs.declared.command.DoneRefusal.TheVariants.{Told as WasTold};
ghost use Rattle.oz_node_events.specs.Doing.{IsToldSo, IsWanted, LeftSo, last_done, told_of};
ghost use Rattle.oz_node_events.specs.Led.{HasItDone, HaveLed, IsUncommanded, no_lines};
ghost use Rattle.oz_node_events.specs.NodeSeat.{IsAppended, IsKept, IsUntold, NumbersAreOld, PutsUntold, StandsFor, events_of, is_bad};
ghost use Rattle.oz_repl.specs.views.Away.{StaysAway};
ghost use Rattle.oz_replicas.specs.Stays.{IsIdle};
ghost use Rattle.oz_node_events.specs.Beside.{ShareAPlace};
ghost use Rattle.oz_scm_events.specs.Tracked.{IsTracked};
ghost use Rattle.oz_turn.specs.Seat.{IsNewSeat, IsReady, IsSameSeat, mine_of, room_of, seen_of, share_of, taken_of, turn_of};
ghost use Rattle.oz_turn.specs.Told.{BeginsWith};
ghost use Rattle.oz_turn.specs.Turn.{turn_id};

use crate::appending::{FIRST_DATANODE_SEAT, Wanted, append, reserve, show};
use crate::command::{DoneRefusal, NodeCommand};
use crate::doing::do_held;
use oz_buffer::{Ledger, Opened};
use oz_core::{Event, EventKind};
use oz_datanode::Datanode;
use oz_fields::OutOfMemory;
use oz_replicas::Kept;
use oz_requests::AskId;
use oz_scm_events::ScmCell;
use oz_script::{Line, MOST_CLIENTS};
use oz_turn::{Ring, Seat, Told, Turn};
use oz_world::Disk;
use std::alloc::Global;
use std::marker::{Model, PhantomData};
use std::sync::Wait;

/// How many notes a seat is made ready for.
const NOTES: u32 = 2;

/// How many clients there are, with 0, which is none.
const CLIENTS: usize = MOST_CLIENTS + 1;

/// The seat of a datanode. It stands for the datanode that is what the story makes of it. With it is kept of each client the
/// last line that had something done to the datanode, so that no line has it done twice. Where the opening is coherent the datanode
/// stays away from what it deleted: behind a Delete it puts no block that the transaction names.
#[derive(Drop)]
pub struct NodeSeat<T: Told<Entry = Event>, O: Opened, R: Ring> {
    dn: u8,
    room: u32,
    seat: Seat<T>,
    last: [u16; CLIENTS],
    of: PhantomData<(O, R)>,
}

impl<T: Told<Entry = Event>, O: Opened, R: Ring> Model for NodeSeat<T, O, R> {
    ghost use Rattle.std.specs.Prelude.{◌≡◌};
    ghost use Rattle.oz_core.specs.Seats.{datanode_seat};
    ghost use Rattle.oz_node_events.specs.Led.{HaveLed};
    ghost use Rattle.oz_node_events.specs.NodeSeat.{IsKept, SeatView};
    ghost use Rattle.oz_repl.specs.views.Away.{StaysAway};
    ghost use Rattle.oz_turn.specs.Seat.{IsReady, mine_of, room_of, seen_of};

    ghost Value = { SeatView };

    ghost view = { λ s. record { dn = s.dn; seen = seen_of s.seat; mine = mine_of s.seat; room = s.room; last = s.last } };

    ghost invariant = { λ s. IsReady R.turn (datanode_seat s.dn) s.seat × (room_of s.seat ≡ s.room)
        × IsKept O.coherent O.opening O.bytes O.script
        (record { dn = s.dn; seen = seen_of s.seat; mine = mine_of s.seat; room = s.room; last = s.last })
        × (O.coherent → HaveLed O.script s.dn s.last (seen_of s.seat) (mine_of s.seat))
        × (O.coherent → StaysAway O.opening s.dn (seen_of s.seat)) };
}

impl<D: Disk, T: Told<Entry = Event>, O: Opened, R: Ring> Kept<D> for NodeSeat<T, O, R> {
    ghost use Rattle.oz_node_events.specs.NodeSeat.{StandsFor};
    ghost use Rattle.oz_node_events.specs.laws.Standing.{stands_still};

    ghost stands = { λ kept node.
        StandsFor D.told D.clock D.image D.faults O.coherent O.opening O.bytes O.script O.faults kept node };

    ghost room = { λ kept. kept.room };

    ghost stays = { λ kept old new same stood.
        stands_still D.told D.clock D.image D.faults O.coherent O.opening O.bytes O.script O.faults kept old new same stood };
}

impl<T: Told<Entry = Event>, O: Opened, R: Ring> NodeSeat<T, O, R> {
    /// The seat of this datanode before it gave an event. It takes no memory.
    pub fn make(dn: u8, seat: Seat<T>) -> NodeSeat<T, O, R>
        requires few { dn < MOST_NODES }
        requires there { dn < length O.opening.nodes }
        requires numbered { O.coherent → NumbersAreOld O.opening }
        requires seat { IsNewSeat R.turn (datanode_seat dn) seat }
        ensures { result ≡ record { dn = dn; seen = []; mine = []; room = 0; last = no_lines } }
    {
        NodeSeat {
            dn,
            room: 0,
            seat,
            last: [0; CLIENTS],
            of: PhantomData,
        }
    }

    /// The number of the datanode.
    pub(crate) fn dn(&self) -> u8
        ensures { result ≡ self.now.dn }
    {
        self.dn
    }

    /// What holds of every one. It does nothing when it runs.
    pub fn is_kept(&self)
        ensures { IsKept O.coherent O.opening O.bytes O.script self.now }
    {
        let _dn = self.dn;
    }

    /// Which lines had something done to the datanode, where the opening is coherent. It does nothing when it runs.
    pub fn is_led(&self)
        ensures { O.coherent → HaveLed O.script self.now.dn self.now.last self.now.seen self.now.mine }
    {
        let _dn = self.dn;
    }

    /// That the datanode put nothing behind a Delete that took it away, by what the seat has seen, where the opening is coherent. It
    /// does nothing when it runs.
    pub fn stays_away(&self)
        ensures { O.coherent → StaysAway O.opening self.now.dn self.now.seen }
    {
        let _dn = self.dn;
    }

    /// The last line of a client that had something done to the datanode, or 0. Clients are numbered from 1.
    pub fn last(&self, client: u16) -> u16
        requires { client ≤ MOST }
        ensures { result ≡ slice_index self.now.last client }
    {
        self.last[usize::from(client)]
    }

    /// The seat itself. It takes no memory.
    pub fn into_seat(self) -> Seat<T>
        ensures ready { IsReady R.turn (datanode_seat self.dn) result }
        ensures events { (seen_of result ≡ self.seen) × (mine_of result ≡ self.mine) }
        ensures kept { IsKept O.coherent O.opening O.bytes O.script self }
    {
        let NodeSeat {
            dn: _,
            room: _,
            seat,
            last: _,
            of: _,
        } = self;
        seat
    }
}

impl<O: Opened, R: Ring> NodeSeat<Ledger<O>, O, R> {
    /// Has room for two notes, so that noting takes no memory, and another seat sees all that the datanode's has seen. Where notes are
    /// for an ask, its line wasn't told then: so a Put for it may be noted, as long as the seat has seen no more.
    ///
    /// Errors: `OutOfMemory`, where nothing changes but that the seats may have seen more. Where the ask's line is told the answer is
    /// the same. That never comes, since a line is told behind its writes and its reads; the law lets it be told before.
    pub fn ready<W: Wait>(
        &mut self,
        rt: &W,
        alloc: Global,
        turn: &Turn<Ledger<O>>,
        other: &mut Seat<Ledger<O>>,
        id: Option<AskId>,
    ) -> Result<(), OutOfMemory>
        requires turn { turn_id turn.now ≡ R.turn }
        requires other_turn { turn_of other.old ≡ R.turn }
        requires other_free { taken_of other.old ≡ None }
        ensures number { self.new.dn ≡ self.old.dn }
        ensures room { OnOk result (2 ≤ self.new.room) }
        ensures lacks { OnErr result (self.new.room ≡ self.old.room) }
        ensures untold { OnOk result (IsUntold id self.new.seen) }
        ensures goes_on { BeginsWith self.new.seen self.old.seen }
        ensures mine { self.new.mine ≡ self.old.mine }
        ensures last { self.new.last ≡ self.old.last }
        ensures kept { IsKept O.coherent O.opening O.bytes O.script self.new }
        ensures kept_before { IsKept O.coherent O.opening O.bytes O.script self.old }
        ensures other { IsSameSeat other.old other.new }
        ensures other_free { taken_of other.new ≡ None }
        ensures other_begins { BeginsWith (seen_of other.new) (seen_of other.old) }
        ensures other_seen { seen_of other.new ≡ self.new.seen }
        ensures other_mine { mine_of other.new ≡ mine_of other.old }
        ensures other_room { room_of other.new ≡ room_of other.old }
    {
        let by = FIRST_DATANODE_SEAT + u16::from(self.dn);
        let events = NOTES.saturating_sub(self.room);
        let wanted = Wanted { by, events, id };
        reserve(rt, alloc, turn, &mut self.seat, other, wanted)?;
        self.room += events;
        Ok(())
    }

    /// Appends an event of the datanode, after the change that it names is stable and while the datanode's lock is held. Another
    /// seat sees it, and all that the datanode's has seen. Where it is a Put, its line wasn't told by what the datanode's seat has
    /// seen. It takes no memory.
    pub fn note<W: Wait>(
        &mut self,
        rt: &W,
        turn: &Turn<Ledger<O>>,
        other: &mut Seat<Ledger<O>>,
        kind: EventKind,
    )
        requires turn { turn_id turn.now ≡ R.turn }
        requires other_turn { turn_of other.old ≡ R.turn }
        requires other_free { taken_of other.old ≡ None }
        requires room { 1 ≤ self.old.room }
        requires kind { IsNote kind }
        requires no_bad { O.coherent → is_bad kind ≡ false }
        requires uncommanded { IsUncommanded kind }
        requires untold { PutsUntold kind self.old.seen }
        requires follows { (story : List AnyEvent) → BeginsWith story self.old.seen → BeginsWith story (seen_of other.old)
            → AllFollow (Follows O.coherent O.opening O.bytes O.script) [] story
            → events_of self.old.dn story ≡ self.old.mine
            → Follows O.coherent O.opening O.bytes O.script story (record { seat = datanode_seat self.old.dn; kind = kind }) }
        ensures number { self.new.dn ≡ self.old.dn }
        ensures room { self.new.room + 1 ≡ self.old.room }
        ensures told { IsAppended (record { seat = datanode_seat self.old.dn; kind = kind }) self.old.seen (seen_of other.old)
            self.new.seen }
        ensures mine { self.new.mine ≡ self.old.mine ++ record { seat = datanode_seat self.old.dn; kind = kind } ∷ [] }
        ensures last { self.new.last ≡ self.old.last }
        ensures kept { IsKept O.coherent O.opening O.bytes O.script self.new }
        ensures kept_before { IsKept O.coherent O.opening O.bytes O.script self.old }
        ensures other { IsSameSeat other.old other.new }
        ensures other_free { taken_of other.new ≡ None }
        ensures other_seen { seen_of other.new ≡ self.new.seen }
        ensures other_mine { mine_of other.new ≡ mine_of other.old }
        ensures other_room { room_of other.new ≡ room_of other.old }
    {
        let by = FIRST_DATANODE_SEAT + u16::from(self.dn);
        append(rt, turn, &mut self.seat, other, by, kind);
        show(rt, turn, &mut self.seat, other, by);
        self.room -= 1;
    }

    /// Has something done to the datanode for a line that isn't told, and appends its event, or the Halt where a disk fails now: all
    /// in one hold of the turn, in which room for the event is made first. A wipe calls the disks in it. The line is kept as the
    /// last of its client. It has started by what another seat has seen, and none of its client that isn't before it had anything
    /// done: so the script leads to what is done. The other seat sees all of it. Who calls holds the datanode's lock.
    ///
    /// Errors: `Halted` where a disk failed as the datanode was wiped, and nothing is said of what it holds then; `Told` where the
    /// line was told its answer before, and `OutOfMemory`: nothing happens.
    pub fn do_for<D: Disk, W: Wait>(
        &mut self,
        rt: &W,
        alloc: Global,
        turn: &Turn<Ledger<O>>,
        other: &mut Seat<Ledger<O>>,
        node: &mut Datanode<D>,
        line: &Line,
        done: NodeCommand,
    ) -> Result<(), DoneRefusal>
        requires turn { turn_id turn.now ≡ R.turn }
        requires other_turn { turn_of other.old ≡ R.turn }
        requires other_free { taken_of other.old ≡ None }
        requires stood { StandsFor D.told D.clock D.image D.faults O.coherent O.opening O.bytes O.script O.faults self.old node.old }
        requires unhalted { is_halted node.old ≡ false }
        requires idle { IsIdle node.old }
        requires wanted { IsWanted done node.old.stopped }
        requires client { line.now.client ≤ MOST }
        requires behind { slice_index self.old.last line.now.client < line.now.number }
        requires line { O.coherent → HasItDone O.script (seen_of other.old) self.old.dn done line.now }
        ensures number { self.new.dn ≡ self.old.dn }
        ensures room { self.new.room ≡ self.old.room }
        ensures node { LeftSo D.told D.clock D.image D.faults O.coherent done node.old node.new result }
        ensures idle { IsIdle node.new }
        ensures told { IsToldSo self.old.dn done self.old.seen (seen_of other.old) self.new.seen result }
        ensures mine { self.new.mine ≡ self.old.mine ++ told_of self.old.dn done result }
        ensures last { self.new.last ≡ last_done line.now self.old.last result }
        ensures goes_on { BeginsWith self.new.seen self.old.seen }
        ensures refused { result ≡ Err WasTold → is_told line.now.client line.now.number self.new.seen ≡ true }
        ensures kept { IsKept O.coherent O.opening O.bytes O.script self.new }
        ensures stands { StandsFor D.told D.clock D.image D.faults O.coherent O.opening O.bytes O.script O.faults self.new node.new }
        ensures other { IsSameSeat other.old other.new }
        ensures other_free { taken_of other.new ≡ None }
        ensures other_begins { BeginsWith (seen_of other.new) (seen_of other.old) }
        ensures other_seen { seen_of other.new ≡ self.new.seen }
        ensures other_mine { mine_of other.new ≡ mine_of other.old }
        ensures other_room { room_of other.new ≡ room_of other.old }
    {
        self.is_kept();
        let dn = self.dn;
        let by = FIRST_DATANODE_SEAT + u16::from(dn);
        let seat = &mut self.seat;
        let came = do_held(rt, alloc, turn, seat, other, node, dn, line, done);
        show(rt, turn, seat, other, by);
        keep_line(&mut self.last, line, came);
        came
    }

    /// Has the storage container manager, which has room for one event, take the datanode for up, which runs, or for down, which
    /// doesn't run; and answers whether it was taken for the other before. Where it wasn't nothing is appended. Another seat sees
    /// all that the datanode's has seen. It takes no memory. Who calls holds both locks.
    pub fn track<D: Disk, W: Wait>(
        &mut self,
        rt: &W,
        turn: &Turn<Ledger<O>>,
        scm: &mut ScmCell<D, Ledger<O>, O, R>,
        other: &mut Seat<Ledger<O>>,
        up: bool,
    ) -> bool
        requires turn { turn_id turn.now ≡ R.turn }
        requires other_turn { turn_of other.old ≡ R.turn }
        requires other_free { taken_of other.old ≡ None }
        requires runs { is_running self.old.dn self.old.mine ≡ up }
        requires made { 1 ≤ scm.old.room }
        ensures number { self.new.dn ≡ self.old.dn }
        ensures room { self.new.room ≡ self.old.room }
        ensures mine { self.new.mine ≡ self.old.mine }
        ensures last { self.new.last ≡ self.old.last }
        ensures goes_on { BeginsWith self.new.seen self.old.seen }
        ensures kept { IsKept O.coherent O.opening O.bytes O.script self.new }
        ensures kept_before { IsKept O.coherent O.opening O.bytes O.script self.old }

        // What the storage container manager told.
        ensures own { IsTracked {E = Unit {0}} self.old.dn up scm.old.mine scm.new.mine (Ok result) }
        ensures scm { scm.new.scm ≡ record scm.old.scm { up = slice_set scm.old.scm.up self.old.dn up } }
        ensures left { scm.new.room + 1 ≡ scm.old.room }
        ensures scm_goes_on { BeginsWith scm.new.seen scm.old.seen }

        // At a place of the story that the other seat has seen then, both have given what they have given now.
        ensures shared { ShareAPlace (AllFollow (Follows O.coherent O.opening O.bytes O.script) []) self.old.dn self.old.seen
            self.new.mine scm.new.mine (seen_of other.new) }
        ensures other { IsSameSeat other.old other.new }
        ensures other_free { taken_of other.new ≡ None }
        ensures other_begins { BeginsWith (seen_of other.new) (seen_of other.old) }
        ensures other_seen { seen_of other.new ≡ self.new.seen }
        ensures other_mine { mine_of other.new ≡ mine_of other.old }
        ensures other_room { room_of other.new ≡ room_of other.old }
    {
        let changed = scm.track_ready(rt, turn, &mut self.seat, self.dn, up);
        self.show(rt, turn, other);
        changed
    }

    /// Another seat sees all that the datanode's has seen by then, and the answer is how many events that is. It takes no memory.
    pub fn show<W: Wait>(
        &mut self,
        rt: &W,
        turn: &Turn<Ledger<O>>,
        other: &mut Seat<Ledger<O>>,
    ) -> u64
        requires turn { turn_id turn.now ≡ R.turn }
        requires other_turn { turn_of other.old ≡ R.turn }
        requires other_free { taken_of other.old ≡ None }
        ensures number { self.new.dn ≡ self.old.dn }
        ensures room { self.new.room ≡ self.old.room }
        ensures mine { self.new.mine ≡ self.old.mine }
        ensures last { self.new.last ≡ self.old.last }
        ensures goes_on { BeginsWith self.new.seen self.old.seen }
        ensures kept { IsKept O.coherent O.opening O.bytes O.script self.new }
        ensures kept_before { IsKept O.coherent O.opening O.bytes O.script self.old }
        ensures other { IsSameSeat other.old other.new }
        ensures other_free { taken_of other.new ≡ None }
        ensures other_begins { BeginsWith (seen_of other.new) (seen_of other.old) }
        ensures other_seen { seen_of other.new ≡ self.new.seen }
        ensures other_mine { mine_of other.new ≡ mine_of other.old }
        ensures other_room { room_of other.new ≡ room_of other.old }
        ensures length { result ≡ length self.new.seen }
    {
        let number = FIRST_DATANODE_SEAT + u16::from(self.dn);
        show(rt, turn, &mut self.seat, other, number)
    }

    /// Sees all that happened until now, while another seat holds the turn. What that seat has seen then has the events of the
    /// datanode's, all that it gave. It waits for nothing, and takes no memory.
    pub fn be_shown(&mut self, turn: &Turn<Ledger<O>>, holder: &mut Seat<Ledger<O>>)
        requires turn { turn_id turn.now ≡ R.turn }
        requires holder { turn_of holder.old ≡ R.turn }
        requires held { IsSome (taken_of holder.old) }
        requires follow { AllFollow (Follows O.coherent O.opening O.bytes O.script) [] (seen_of holder.old) }

        // Of all that it keeps nothing else changes.
        ensures seen { self.new ≡ record self.old { seen = seen_of holder.new } }
        ensures goes_on { BeginsWith self.new.seen self.old.seen }
        ensures kept { IsKept O.coherent O.opening O.bytes O.script self.new }
        ensures kept_before { IsKept O.coherent O.opening O.bytes O.script self.old }

        // The holder is as it was.
        ensures holder { IsSameSeat holder.old holder.new }
        ensures share { share_of holder.new ≡ share_of holder.old }
        ensures taken { taken_of holder.new ≡ taken_of holder.old }
    {
        turn.show(holder, &mut self.seat);
    }
}

/// Keeps a line that had something done as the last of its client.
fn keep_line(last: &mut [u16; CLIENTS], line: &Line, came: Result<(), DoneRefusal>)
    requires { line.now.client ≤ MOST }
    ensures { last.new ≡ last_done line.now last.old came }
{
    if came.is_ok() {
        last[usize::from(line.client)] = line.number;
    }
}

//! A noter whose notes become events of the story.

ghost use Rattle.std.specs.Prelude.{◌≡◌, None};
ghost use Rattle.oz_node_events.specs.Noting.{IsNoting};
ghost use Rattle.oz_turn.specs.Seat.{IsReady, mine_of, number_of, room_of, seen_of, taken_of, turn_of};
ghost use Rattle.oz_turn.specs.Turn.{turn_id};

use crate::events::kind_of;
use crate::full::{a_filled_datanode_is_full, a_journal_keeps_slots_apart};
use crate::seat::NodeSeat;
use oz_buffer::{Ledger, Opened};
use oz_core::Event;
use oz_fields::{Block, OutOfMemory};
use oz_replicas::{Note, Noter};
use oz_requests::AskId;
use oz_turn::{Ring, Seat, Told, Turn};
use oz_world::Disk;
use std::alloc::Global;
use std::marker::{Model, PhantomData};
use std::sync::Wait;

/// Tells in the story what comes of a block at its datanodes, for one ask of a line. The seat of who works for the line sees
/// each event that is told so.
#[derive(Drop)]
pub struct Noting<'a, D: Disk, T: Told<Entry = Event>, O: Opened, R: Ring, W: Wait> {
    rt: &'a W,
    alloc: Global,
    turn: &'a Turn<T>,
    seat: &'a mut Seat<T>,
    id: AskId,
    first: u64,
    block: Block,
    members: [u8; 3],
    bytes: &'a [u8],
    of: PhantomData<(D, O, R)>,
}

impl<'a, D: Disk, T: Told<Entry = Event>, O: Opened, R: Ring, W: Wait> Model
    for Noting<'a, D, T, O, R, W> {
    ghost use Rattle.std.specs.Prelude.{◌≡◌, None};
    ghost use Rattle.oz_node_events.specs.Noting.{IsNoting, NotingView};
    ghost use Rattle.oz_turn.specs.Seat.{mine_of, number_of, room_of, seen_of, taken_of, turn_of};
    ghost use Rattle.oz_turn.specs.Turn.{turn_id};

    ghost Value = { NotingView };

    ghost view = { λ n. record {
      reference = n.seat.ghost_name;
      by = number_of n.seat.now;
      seen = seen_of n.seat.now;
      mine = mine_of n.seat.now;
      room = room_of n.seat.now;
      id = n.id;
      first = n.first;
      subject = record { block = n.block; members = n.members; bytes = n.bytes.now };
    } };

    ghost invariant = { λ n. (turn_id n.turn.now ≡ R.turn) × (turn_of n.seat.now ≡ R.turn) × (taken_of n.seat.now ≡ None)
        × IsNoting O.coherent O.opening O.bytes O.script n.id n.first
        (record { block = n.block; members = n.members; bytes = n.bytes.now }) (seen_of n.seat.now) };
}

impl<'a, D: Disk, T: Told<Entry = Event>, O: Opened, R: Ring, W: Wait> Noting<'a, D, T, O, R, W> {
    /// Notes of this block, of the datanodes that are asked for it, and of the bytes that are put, which begin at `first` in the
    /// line's data. Where nothing is put there are no bytes. It takes no memory.
    pub fn new(
        rt: &'a W,
        alloc: Global,
        turn: &'a Turn<T>,
        seat: &'a mut Seat<T>,
        id: AskId,
        first: u64,
        block: Block,
        members: [u8; 3],
        bytes: &'a [u8],
    ) -> Noting<'a, D, T, O, R, W>
        requires of_turn { turn_id turn.now ≡ R.turn }
        requires of_seat { turn_of seat.old ≡ R.turn }
        requires free { taken_of seat.old ≡ None }
        requires knows { IsNoting O.coherent O.opening O.bytes O.script id first
            (record { block = block; members = members; bytes = bytes.now }) (seen_of seat.old) }
        ensures { result ≡ record {
          reference = seat.entry.ghost_name;
          by = number_of seat.old;
          seen = seen_of seat.old;
          mine = mine_of seat.old;
          room = room_of seat.old;
          id = id;
          first = first;
          subject = record { block = block; members = members; bytes = bytes.now };
        } }
    {
        Noting {
            rt,
            alloc,
            turn,
            seat,
            id,
            first,
            block,
            members,
            bytes,
            of: PhantomData,
        }
    }

    /// The seat, which has seen all that was noted.
    pub fn into_seat(self) -> &'a mut Seat<T>
        ensures same_reference { result.ghost_name ≡ self.entry.reference }
        ensures ready { IsReady R.turn self.entry.by result.now }
        ensures events { (seen_of result.now ≡ self.entry.seen) × (mine_of result.now ≡ self.entry.mine) }
        ensures room { room_of result.now ≡ self.entry.room }
    {
        let Noting {
            rt: _,
            alloc: _,
            turn: _,
            seat,
            id: _,
            first: _,
            block: _,
            members: _,
            bytes: _,
            of: _,
        } = self;
        seat
    }
}

impl<'a, D: Disk, O: Opened, R: Ring, W: Wait> Noter<D, NodeSeat<Ledger<O>, O, R>>
    for Noting<'a, D, Ledger<O>, O, R, W> {
    ghost use Rattle.oz_node_events.specs.Noting.{HasSeen, IsNotedBy, MayPut};
    ghost use Rattle.oz_node_events.specs.laws.Told.{noted_joined};

    ghost subject = { λ noter. noter.subject };

    ghost noted = { IsNotedBy };

    ghost knows = { HasSeen };

    ghost may_put = { MayPut };

    ghost joins = { noted_joined };

    fn ready(&mut self, kept: &mut NodeSeat<Ledger<O>, O, R>) -> Result<(), OutOfMemory> {
        kept.ready(self.rt, self.alloc, self.turn, self.seat, Some(self.id))
    }

    fn note(&mut self, kept: &mut NodeSeat<Ledger<O>, O, R>, note: Note) {
        a_filled_datanode_is_full::<D>();
        a_journal_keeps_slots_apart::<D>();
        kept.is_kept();
        let kind = kind_of(self.id, self.first, note);
        kept.note(self.rt, self.turn, self.seat, kind);
    }
}

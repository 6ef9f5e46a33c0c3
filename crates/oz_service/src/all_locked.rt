//! The lock of the storage container manager and those of all datanodes, held at once.

ghost use Rattle.std.specs.Prelude.{◌≡◌, [], length, not, IfOk, OnOk};
ghost use Rattle.oz_buffer.specs.Buffer.{AllFollow, Follows};
ghost use Rattle.oz_core.specs.Asks.{is_told};
ghost use Rattle.oz_node_admin.specs.Seats.{MayTake, OnlyLooked};
ghost use Rattle.oz_replicas.specs.Cells.{AreInOrder};
ghost use Rattle.oz_service.specs.AllLocked.{KnowOneStory, all_shown, all_still};
ghost use Rattle.oz_service.specs.TakenDown.{HaltedAreDown, OnlyTookDown};
ghost use Rattle.oz_turn.specs.Seat.{seen_of};
ghost use Rattle.oz_turn.specs.Turn.{turn_id};

mod showing;
mod standing;
mod taking_down;
mod viewing;

use crate::all_locked::showing::show_nodes;
use crate::all_locked::standing::{add_nodes, of_flusher};
use crate::all_locked::taking_down::take_down_nodes;
pub use crate::all_locked::viewing::what_is_seen_tells_what_comes_next;
use oz_asker::Still;
use oz_buffer::{Ledger, Opened};
use oz_core::Event;
use oz_fields::OutOfMemory;
use oz_node_events::NodeSeat;
use oz_replicas::{NodeGuard, Nodes};
use oz_scm_events::ScmCell;
use oz_turn::{Ring, Seat, Told, Turn};
use oz_world::Disk;
use std::alloc::Global;
use std::marker::Model;
use std::sync::{Mutex, MutexGuard, Wait};

/// The storage container manager of a run and all its datanodes, whose locks are held until this is let go. The datanode in each
/// place has the number of the place, and there are as many as the run has opened.
#[derive(Drop)]
pub struct AllLocked<'a, D: Disk, O: Opened, R: Ring>
where
    Ledger<O>: Told<Entry = Event>,
{
    pub(crate) scm: MutexGuard<'a, ScmCell<D, Ledger<O>, O, R>>,
    pub(crate) nodes: Vec<NodeGuard<'a, D, NodeSeat<Ledger<O>, O, R>>>,
}

impl<'a, D: Disk, O: Opened, R: Ring> Model for AllLocked<'a, D, O, R>
where
    Ledger<O>: Told<Entry = Event>,
{
    ghost use Rattle.std.specs.Prelude.{◌≡◌, length, map};
    ghost use Rattle.std.specs.Coded.{codes};
    ghost use Rattle.std.specs.Sync.Mutex.{mutex_guard_value};
    ghost use Rattle.oz_replicas.specs.Cells.{AreInOrder};
    ghost use Rattle.oz_scm.specs.Codes.{coded_scm};
    ghost use Rattle.oz_service.specs.AllLocked.{AllView};

    ghost Value = { AllView D };

    ghost coded = { Prim.hlevel (codes, coded_scm D.code) };

    ghost view = { λ all. record { scm = mutex_guard_value all.scm; nodes = map mutex_guard_value all.nodes.items } };

    ghost invariant = { λ all. (length all.nodes.items ≡ length O.opening.nodes)
        × AreInOrder (map mutex_guard_value all.nodes.items) };
}

const SCM_SEAT: u16 = 3;

/// What was seen as all seats were shown one story.
#[derive(Clone, Copy, Debug, PartialEq, Eq)]
pub struct Shown {
    /// How many events it has.
    pub place: u64,
    /// Whether the line isn't told its answer there.
    pub untold: bool,
}

/// Waits for the lock of the storage container manager, and then for that of each datanode, from 0 on. Room for all is made
/// before the first. `count` is how many datanodes there are.
///
/// Errors: where there is no memory nothing is locked.
pub fn lock_all<'a, D: Disk, O: Opened, R: Ring, W: Wait>(
    rt: &W,
    alloc: Global,
    scm: &'a Mutex<ScmCell<D, Ledger<O>, O, R>>,
    nodes: &'a Nodes<D, NodeSeat<Ledger<O>, O, R>>,
    count: u8,
) -> Result<AllLocked<'a, D, O, R>, OutOfMemory>
    requires all { nodes.now ≡ count }
    requires opened { count ≡ length O.opening.nodes }
    ensures { IfOk result (λ all. length all.nodes ≡ count) }
{
    let mut cells = Vec::with_capacity(alloc, usize::from(count))?;
    let manager = scm.lock(rt);
    for dn in 0..count {
        cells.push_reserved(nodes.lock(rt, dn));
    }
    Ok(AllLocked {
        scm: manager,
        nodes: cells,
    })
}

impl<'a, D: Disk, O: Opened, R: Ring> AllLocked<'a, D, O, R> {
    /// What holds of them at every moment. It does nothing when it runs.
    pub fn is_kept(&self)
        ensures count { length self.now.nodes ≡ length O.opening.nodes }
        ensures order { AreInOrder self.now.nodes }
    {
        let _count = self.nodes.len();
    }

    /// In one hold of the turn by another seat, all seats see all that happened until now: so all know one story. Tells how many
    /// events it has, and whether a line is told its answer there. Nothing else is different then. It takes no memory.
    pub fn show<W: Wait>(
        &mut self,
        rt: &W,
        turn: &Turn<Ledger<O>>,
        seat: &mut Seat<Ledger<O>>,
        client: u16,
        line: u16,
    ) -> Shown
        requires { MayTake R.turn (turn_id turn.now) seat.old }
        ensures place { result.place ≡ length (seen_of seat.new) }
        ensures untold { result.untold ≡ not (is_told client line (seen_of seat.new)) }
        ensures same { self.new ≡ all_shown (seen_of seat.new) self.old }
        ensures know { KnowOneStory D.Disk O.Opened (seen_of seat.new) self.new }
        ensures follow { AllFollow (Follows O.coherent O.opening O.bytes O.script) [] (seen_of seat.new) }
        ensures looked { OnlyLooked R.turn seat.old seat.new }
    {
        let (ledger, held) = turn.take(rt, seat);
        ledger.all_follow();
        let shown = Shown {
            place: ledger.entries().len() as u64,
            untold: !ledger.is_told(client, line),
        };
        self.scm.be_shown(turn, seat);
        show_nodes(turn, &mut self.nodes, seat);
        turn.give_back(seat, ledger, held);
        shown
    }

    /// Takes each datanode for down that has halted and is up, in the order of their numbers, by a Down of the storage container
    /// manager's seat. The seats see more, and another one too.
    ///
    /// Errors: where there is no memory some of them are still up.
    pub fn take_down<W: Wait>(
        &mut self,
        rt: &W,
        alloc: Global,
        turn: &Turn<Ledger<O>>,
        seat: &mut Seat<Ledger<O>>,
    ) -> Result<(), OutOfMemory>
        requires { MayTake R.turn (turn_id turn.now) seat.old }
        ensures down { OnOk result (HaltedAreDown self.new) }
        ensures only { OnlyTookDown self.old self.new }
        ensures looked { OnlyLooked R.turn seat.old seat.new }
    {
        take_down_nodes(rt, alloc, turn, &mut self.scm, &mut self.nodes, seat)
    }

    /// What has to stay as it is, for a line to be told what was seen at a place: behind it neither the storage container manager
    /// nor a datanode gives an event, which holds as long as this isn't let go. Where a place is named for the flusher, that it
    /// gives none behind that.
    pub fn stills(
        &self,
        alloc: Global,
        flusher: Option<u64>,
        place: u64,
    ) -> Result<Vec<Still>, OutOfMemory>
        ensures { IfOk result (λ stills. stills.items ≡ all_still flusher place self.now) }
    {
        let mut stills = of_flusher(alloc, flusher)?;
        stills.push(Still::Seat {
            seat: SCM_SEAT,
            place,
        })?;
        add_nodes(&mut stills, &self.nodes, place)?;
        Ok(stills)
    }
}

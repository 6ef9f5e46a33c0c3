//! The servers of a run.

ghost use Rattle.std.specs.Prelude.{◌≡◌, ◌≤◌, ◌+◌, length, IfErr};
ghost use Rattle.oz_core.specs.declared.event.Node.TheVariants.{Scm as ScmNode};
ghost use Rattle.oz_core.specs.Seats.{datanode_seat, scm_seat};
ghost use Rattle.oz_node_events.specs.NodeSeat.{IsKept as SeatIsKept, NumbersAreOld, StandsFor};
ghost use Rattle.oz_nodes.specs.declared.nodes.TheConstants.{FEWEST_NODES, MOST_NODES};
ghost use Rattle.oz_om.specs.Seated.{ArePlaced};
ghost use Rattle.oz_scm_events.specs.Kept.{IsKept as ScmIsKept};
ghost use Rattle.oz_at_work.specs.servers.Begun.{NodesStand, ScmStands};
ghost use Rattle.oz_at_work.specs.servers.Served.{AreServed};
ghost use Rattle.oz_turn.specs.Seat.{IsNewSeat, IsReady, mine_of, seen_of};

use crate::servers::lists::EmptyLists;
use crate::servers::parting::part_below;
use crate::servers::seating::{seat_below, unseat_below};
use oz_buffer::Opened;
use oz_core::Event;
use oz_datanode::Datanode;
use oz_fields::OutOfMemory;
use oz_node_events::NodeSeat;
use oz_om::{Loaded, Manager};
use oz_replicas::Nodes;
use oz_scm_events::{Scm, ScmCell};
use oz_turn::{Ring, Seat, Told};
use oz_world::Disk;
use std::alloc::Global;
use std::marker::PhantomData;
use std::sync::{Mutex, Wait};

/// The servers of a run, which all workers share: the manager, the storage container manager behind its lock, and the datanodes
/// behind theirs. There are as many datanodes as the run has opened.
#[derive(Drop)]
pub struct Servers<D: Disk, T: Told<Entry = Event>, O: Opened, L: Loaded, R: Ring> {
    pub manager: Manager<T, O, L, R>,
    pub scm: Mutex<ScmCell<D, T, O, R>>,
    pub nodes: Nodes<D, NodeSeat<T, O, R>>,
    lists: Mutex<EmptyLists<D, T, O>>,
    node_count: u8,
    ghost counted: { node_count ≡ nodes },
    ghost count: { nodes ≡ length O.opening.nodes },
    ghost least: { FEWEST_NODES ≤ nodes },
    ghost most: { nodes ≤ MOST_NODES },
}

/// What servers leave: the manager, and the storage container manager and the datanodes with their seats, each datanode and each
/// of their seats in the place of its number.
#[derive(Drop)]
pub struct Parts<D: Disk, T: Told<Entry = Event>, O: Opened, L: Loaded, R: Ring> {
    pub manager: Manager<T, O, L, R>,
    pub scm: Scm<D>,
    pub seat_of_scm: Seat<T>,
    pub nodes: Vec<Datanode<D>>,
    pub seats_of_nodes: Vec<Seat<T>>,
}

impl<D: Disk, T: Told<Entry = Event>, O: Opened, L: Loaded, R: Ring> Servers<D, T, O, L, R> {
    /// Those that were loaded, and stand for the opening, with new seats. Where there is no memory the storage container manager
    /// and the datanodes come back.
    pub fn make(
        alloc: Global,
        manager: Manager<T, O, L, R>,
        scm: Scm<D>,
        mut nodes: Vec<Datanode<D>>,
        seat_of_scm: Seat<T>,
        mut seats_of_nodes: Vec<Seat<T>>,
    ) -> Result<Servers<D, T, O, L, R>, (Scm<D>, Vec<Datanode<D>>, OutOfMemory)>
        requires scm { ScmStands O.opening (O.faults ScmNode) scm (D.faults scm.disk) }
        requires nodes { NodesStand (StandsFor D.told D.clock D.image D.faults O.coherent O.opening O.bytes O.script O.faults)
            O.opening nodes.items }
        requires numbered { O.coherent → NumbersAreOld O.opening }
        requires seat_of_scm { IsNewSeat R.turn scm_seat seat_of_scm }
        requires seat_count { length seats_of_nodes.items ≡ length nodes.items }
        requires seats_of_nodes { ArePlaced (λ dn s. IsNewSeat R.turn (datanode_seat dn) s) seats_of_nodes.items }
        ensures scm { IfErr result (λ refused. refused.0 ≡ scm) }
        ensures nodes { IfErr result (λ refused. refused.1.items ≡ nodes.items) }
    {
        let count = nodes.len() as u8;
        let Ok(mut cells) = Vec::with_capacity(alloc, nodes.len()) else {
            return Err((scm, nodes, OutOfMemory));
        };
        seat_below::<D, T, O, R>(&mut nodes, &mut seats_of_nodes, &mut cells, count);
        match Nodes::make(alloc, cells) {
            Ok(locked) => Ok(Servers {
                manager,
                scm: Mutex::new(ScmCell::make(scm, seat_of_scm)),
                nodes: locked,
                lists: Mutex::new(EmptyLists {
                    nodes,
                    seats: seats_of_nodes,
                    of: PhantomData,
                }),
                node_count: count,
            }),
            Err((mut cells, error)) => {
                unseat_below(&mut cells, &mut nodes, count);
                cells.destroy_empty();
                Err((scm, nodes, error))
            }
        }
    }

    /// How many datanodes there are: as many as the run has opened.
    pub fn node_count(&self) -> u8
        ensures there { result ≡ self.now.nodes }
        ensures opened { result ≡ length O.opening.nodes }
        ensures least { FEWEST_NODES ≤ result }
        ensures most { result ≤ MOST_NODES }
    {
        self.node_count
    }

    /// What they leave. It takes no memory.
    pub fn into_parts<W: Wait>(self, rt: &W) -> Parts<D, T, O, L, R>
        ensures scm_ready { IsReady R.turn scm_seat result.seat_of_scm }
        ensures scm_kept { ScmIsKept O.opening (O.faults ScmNode) result.scm (D.faults result.scm.disk)
            (seen_of result.seat_of_scm) (mine_of result.seat_of_scm) }
        ensures count { length result.nodes.items ≡ length O.opening.nodes }
        ensures nodes { AreServed R.turn (SeatIsKept O.coherent O.opening O.bytes O.script)
            (StandsFor D.told D.clock D.image D.faults O.coherent O.opening O.bytes O.script O.faults)
            result.nodes.items result.seats_of_nodes.items }
    {
        let Servers {
            manager,
            scm,
            nodes: mut locked,
            lists,
            node_count: _,
        } = self;
        let EmptyLists {
            mut nodes,
            seats: mut seats_of_nodes,
            of: _,
        } = lists.into_inner();
        part_below(rt, &mut locked, &mut nodes, &mut seats_of_nodes);
        locked.destroy_empty();
        let (scm, seat_of_scm) = scm.into_inner().into_parts();
        Parts {
            manager,
            scm,
            seat_of_scm,
            nodes,
            seats_of_nodes,
        }
    }
}

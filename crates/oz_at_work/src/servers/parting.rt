//! The datanodes leave, with their seats.

ghost use Rattle.std.specs.Prelude.{◌≡◌, ◌≤◌, [], length, vec_capacity};
ghost use Rattle.oz_node_events.specs.NodeSeat.{IsKept as SeatIsKept, StandsFor};
ghost use Rattle.oz_at_work.specs.servers.Served.{AreServed, IsServed};

use oz_buffer::Opened;
use oz_core::Event;
use oz_datanode::Datanode;
use oz_node_events::NodeSeat;
use oz_replicas::{NodeCell, Nodes};
use oz_turn::{Ring, Seat, Told};
use oz_world::Disk;
use std::sync::Wait;

/// The datanodes and their seats, in order, in lists that have room for them. It takes no memory.
pub(crate) fn part_below<D: Disk, T: Told<Entry = Event>, O: Opened, R: Ring, W: Wait>(
    rt: &W,
    locked: &mut Nodes<D, NodeSeat<T, O, R>>,
    nodes: &mut Vec<Datanode<D>>,
    seats: &mut Vec<Seat<T>>,
)
    requires no_nodes { nodes.old.items ≡ [] }
    requires no_seats { seats.old.items ≡ [] }
    requires node_room { locked.old ≤ vec_capacity nodes.old }
    requires seat_room { locked.old ≤ vec_capacity seats.old }
    ensures count { length nodes.new.items ≡ locked.old }
    ensures none_left { locked.new ≡ 0 }
    ensures served { AreServed R.turn (SeatIsKept O.coherent O.opening O.bytes O.script)
        (StandsFor D.told D.clock D.image D.faults O.coherent O.opening O.bytes O.script O.faults) nodes.new.items seats.new.items }
    ensures node_room { vec_capacity nodes.new ≡ vec_capacity nodes.old }
    ensures seat_room { vec_capacity seats.new ≡ vec_capacity seats.old }
{
    let Some(cell) = locked.pop() else {
        return;
    };
    part_below(rt, locked, nodes, seats);
    let (node, seat) = numbered(rt, cell, nodes.len());
    nodes.push_reserved(node);
    seats.push_reserved(seat);
}

/// The datanode that has this number, as the one at each place does, and its seat.
fn numbered<D: Disk, T: Told<Entry = Event>, O: Opened, R: Ring, W: Wait>(
    rt: &W,
    cell: NodeCell<D, NodeSeat<T, O, R>>,
    number: usize,
) -> (Datanode<D>, Seat<T>)
    ensures { IsServed R.turn (SeatIsKept O.coherent O.opening O.bytes O.script)
        (StandsFor D.told D.clock D.image D.faults O.coherent O.opening O.bytes O.script O.faults) number result.0 result.1 }
{
    let (node, kept) = cell.into_parts();
    if usize::from(node.id()) == number {
        return (node, kept.into_seat());
    }
    for _ in rt.forever() {}
    unreachable!()
}

//! Each datanode gets its seat.

ghost use Rattle.std.specs.Prelude.{◌≡◌, ◌≤◌, [], length, vec_capacity};
ghost use Rattle.oz_core.specs.Seats.{datanode_seat};
ghost use Rattle.oz_node_events.specs.NodeSeat.{NumbersAreOld, StandsFor};
ghost use Rattle.oz_nodes.specs.declared.nodes.TheConstants.{MOST_NODES};
ghost use Rattle.oz_om.specs.Seated.{ArePlaced};
ghost use Rattle.oz_replicas.specs.Cells.{AreInOrder, IsAtRest};
ghost use Rattle.oz_at_work.specs.servers.Begun.{new_seat, nodes_of};
ghost use Rattle.oz_turn.specs.Seat.{IsNewSeat};

use oz_buffer::Opened;
use oz_core::Event;
use oz_datanode::Datanode;
use oz_node_events::NodeSeat;
use oz_replicas::NodeCell;
use oz_turn::{Ring, Seat, Told};
use oz_world::Disk;

/// So many datanodes with their seats, in order, in a list that has room for them. It takes no memory.
pub(crate) fn seat_below<D: Disk, T: Told<Entry = Event>, O: Opened, R: Ring>(
    nodes: &mut Vec<Datanode<D>>,
    seats: &mut Vec<Seat<T>>,
    cells: &mut Vec<NodeCell<D, NodeSeat<T, O, R>>>,
    count: u8,
)
    requires count { length nodes.old.items ≡ count }
    requires seat_count { length seats.old.items ≡ count }
    requires opened { count ≤ length O.opening.nodes }
    requires most { count ≤ MOST_NODES }
    requires numbered { O.coherent → NumbersAreOld O.opening }
    requires nodes { ArePlaced (λ dn node. IsAtRest
        (StandsFor D.told D.clock D.image D.faults O.coherent O.opening O.bytes O.script O.faults) node (new_seat dn))
        nodes.old.items }
    requires seats { ArePlaced (λ dn s. IsNewSeat R.turn (datanode_seat dn) s) seats.old.items }
    requires none { cells.old.items ≡ [] }
    requires room { count ≤ vec_capacity cells.old }
    ensures nodes { nodes_of cells.new.items ≡ nodes.old.items }
    ensures order { AreInOrder cells.new.items }
    ensures no_nodes { nodes.new.items ≡ [] }
    ensures no_seats { seats.new.items ≡ [] }
    ensures node_room { vec_capacity nodes.new ≡ vec_capacity nodes.old }
    ensures seat_room { vec_capacity seats.new ≡ vec_capacity seats.old }
    ensures room { vec_capacity cells.new ≡ vec_capacity cells.old }
    ensures count { length cells.new.items ≡ count }
{
    if count == 0 {
        return;
    }
    let Some(node) = nodes.pop() else {
        unreachable!()
    };
    let Some(seat) = seats.pop() else {
        unreachable!()
    };
    let cell = NodeCell::new(node, NodeSeat::make(count - 1, seat));
    seat_below(nodes, seats, cells, count - 1);
    cells.push_reserved(cell);
}

/// So many datanodes without their seats, in order, in a list that has room for them. It takes no memory.
pub(crate) fn unseat_below<D: Disk, T: Told<Entry = Event>, O: Opened, R: Ring>(
    cells: &mut Vec<NodeCell<D, NodeSeat<T, O, R>>>,
    nodes: &mut Vec<Datanode<D>>,
    count: u8,
)
    requires count { length cells.old.items ≡ count }
    requires none { nodes.old.items ≡ [] }
    requires room { count ≤ vec_capacity nodes.old }
    ensures nodes { nodes.new.items ≡ nodes_of cells.old.items }
    ensures none_left { cells.new.items ≡ [] }
    ensures room { vec_capacity nodes.new ≡ vec_capacity nodes.old }
    ensures count { length nodes.new.items ≡ count }
{
    if count == 0 {
        return;
    }
    let Some(cell) = cells.pop() else {
        unreachable!()
    };
    let (node, _seat) = cell.into_parts();
    unseat_below(cells, nodes, count - 1);
    nodes.push_reserved(node);
}

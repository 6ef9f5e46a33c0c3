//! Showing the seats of all datanodes one story.

ghost use Rattle.std.specs.Prelude.{◌≡◌, ℕ, [], Some, map, slice_get, IsSome};
ghost use Rattle.std.specs.Sync.Mutex.{mutex_guard_value};
ghost use Rattle.oz_buffer.specs.Buffer.{AllFollow, Follows};
ghost use Rattle.oz_node_events.specs.NodeSeat.{IsKept, SeatView, StandsFor};
ghost use Rattle.oz_replicas.specs.Cells.{AreInOrder, CellView};
ghost use Rattle.oz_service.specs.AllLocked.{IsShown, node_shown};
ghost use Rattle.oz_turn.specs.Seat.{IsSameSeat, seen_of, share_of, taken_of, turn_of};
ghost use Rattle.oz_turn.specs.Turn.{turn_id};

use oz_buffer::{Ledger, Opened};
use oz_node_events::{NodeSeat, it_stands_where_it_saw_more};
use oz_replicas::{NodeCell, NodeGuard};
use oz_turn::{Ring, Seat, Turn};
use oz_world::Disk;

/// The seat of each datanode sees all that the holder of the turn has seen.
pub(crate) fn show_nodes<D: Disk, O: Opened, R: Ring>(
    turn: &Turn<Ledger<O>>,
    nodes: &mut Vec<NodeGuard<'_, D, NodeSeat<Ledger<O>, O, R>>>,
    holder: &mut Seat<Ledger<O>>,
)
    requires turn { turn_id turn.now ≡ R.turn }
    requires holder { turn_of holder.old ≡ R.turn }
    requires held { IsSome (taken_of holder.old) }
    requires follow { AllFollow (Follows O.coherent O.opening O.bytes O.script) [] (seen_of holder.old) }
    requires order { AreInOrder (map mutex_guard_value nodes.old.items) }
    ensures same { map mutex_guard_value nodes.new.items
        ≡ map (node_shown (seen_of holder.old)) (map mutex_guard_value nodes.old.items) }
    ensures shown { (dn : ℕ) (cell : CellView D SeatView) → slice_get (map mutex_guard_value nodes.new.items) dn ≡ Some cell
        → IsShown D.Disk O.Opened (seen_of holder.old) dn cell }

    // The holder is as it was.
    ensures holder { IsSameSeat holder.old holder.new }
    ensures share { share_of holder.new ≡ share_of holder.old }
    ensures taken { taken_of holder.new ≡ taken_of holder.old }
{
    for dn in 0..nodes.len() {
        show_node(turn, &mut nodes[dn], holder);
    }
}

/// The seat of one datanode sees it.
fn show_node<D: Disk, O: Opened, R: Ring>(
    turn: &Turn<Ledger<O>>,
    cell: &mut NodeCell<D, NodeSeat<Ledger<O>, O, R>>,
    holder: &mut Seat<Ledger<O>>,
)
    requires turn { turn_id turn.now ≡ R.turn }
    requires holder { turn_of holder.old ≡ R.turn }
    requires held { IsSome (taken_of holder.old) }
    requires follow { AllFollow (Follows O.coherent O.opening O.bytes O.script) [] (seen_of holder.old) }
    ensures same { cell.new ≡ node_shown (seen_of holder.old) cell.old }
    ensures kept { IsKept O.coherent O.opening O.bytes O.script cell.new.kept }
    ensures stands { StandsFor D.told D.clock D.image D.faults O.coherent O.opening O.bytes O.script O.faults cell.new.kept
        cell.new.node }

    // The holder is as it was.
    ensures holder { IsSameSeat holder.old holder.new }
    ensures share { share_of holder.new ≡ share_of holder.old }
    ensures taken { taken_of holder.new ≡ taken_of holder.old }
{
    it_stands_where_it_saw_more::<D, O>();
    cell.kept.be_shown(turn, holder);
}

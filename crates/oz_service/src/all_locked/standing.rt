//! What has to stay as it is until a line is told, by the seats.

ghost use Rattle.std.specs.Prelude.{◌≡◌, ◌++◌, map, IfOk, OnOk};
ghost use Rattle.std.specs.Sync.Mutex.{mutex_guard_value};
ghost use Rattle.oz_service.specs.AllLocked.{flusher_still, node_still};

use oz_asker::Still;
use oz_buffer::{Ledger, Opened};
use oz_fields::OutOfMemory;
use oz_node_events::NodeSeat;
use oz_replicas::NodeGuard;
use oz_turn::Ring;
use oz_world::Disk;
use std::alloc::Global;

const FLUSHER_SEAT: u16 = 0;

const FIRST_DATANODE_SEAT: u16 = 4;

/// That the flusher's seat gives no event behind a place, where one is named.
pub(crate) fn of_flusher(alloc: Global, flusher: Option<u64>) -> Result<Vec<Still>, OutOfMemory>
    ensures { IfOk result (λ stills. stills.items ≡ flusher_still flusher) }
{
    let mut stills = Vec::new(alloc);
    if let Some(place) = flusher {
        stills.push(Still::Seat {
            seat: FLUSHER_SEAT,
            place,
        })?;
    }
    Ok(stills)
}

/// Adds that the seat of each datanode gives no event behind a place. Where there is no memory some are added.
pub(crate) fn add_nodes<D: Disk, O: Opened, R: Ring>(
    stills: &mut Vec<Still>,
    nodes: &[NodeGuard<'_, D, NodeSeat<Ledger<O>, O, R>>],
    place: u64,
) -> Result<(), OutOfMemory>
    ensures { OnOk result (stills.new.items
        ≡ stills.old.items ++ map (λ guard. node_still place (mutex_guard_value guard)) nodes.now) }
{
    for guard in nodes {
        let seat = FIRST_DATANODE_SEAT + u16::from(guard.node.id());
        stills.push(Still::Seat { seat, place })?;
    }
    Ok(())
}

//! Whether the manager's journal may go on, and whether a node may halt.

ghost use Rattle.std.specs.Prelude.{◌↔◌, ◌<◌, IsTrue, IfSome};
ghost use Rattle.oz_core.specs.Law.{SwapIsEnabled, FlushedIsEnabled, HaltIsEnabled};

use crate::manager::{durable_index, flushed_moment, halt_of, last_index, swapped_index};
use crate::seats::{FLUSHER_SEAT, is_node_seat};
use oz_core::{Event, Node, Opening};

/// Whether the flusher may take what was decided up to this index.
pub fn swap_is_enabled(opening: &Opening, story: &[Event], seat: u16, index: u64) -> bool
    ensures { IsTrue result ↔ SwapIsEnabled opening.now story.now seat index }
{
    let swapped = swapped_index(opening, story);
    seat == FLUSHER_SEAT
        && halt_of(Node::Manager, story).is_none()
        && swapped == durable_index(opening, story)
        && index == last_index(opening, story)
        && swapped < index
}

fn is_later(earlier: Option<u64>, moment: u64) -> bool
    ensures { IsTrue result ↔ IfSome earlier (λ earlier. earlier < moment) }
{
    match earlier {
        None => true,
        Some(earlier) => earlier < moment,
    }
}

/// Whether what was taken may be stable, from this moment of the disk's clock on.
pub fn flushed_is_enabled(
    opening: &Opening,
    story: &[Event],
    seat: u16,
    index: u64,
    moment: u64,
) -> bool
    ensures { IsTrue result ↔ FlushedIsEnabled opening.now story.now seat index moment }
{
    seat == FLUSHER_SEAT
        && halt_of(Node::Manager, story).is_none()
        && index == swapped_index(opening, story)
        && durable_index(opening, story) < index
        && is_later(flushed_moment(story), moment)
}

/// Whether the node may halt, its disks having failed so often.
pub fn halt_is_enabled(
    opening: &Opening,
    story: &[Event],
    seat: u16,
    node: Node,
    count: u64,
) -> bool
    ensures { IsTrue result ↔ HaltIsEnabled opening.now story.now seat node count }
{
    is_node_seat(opening, node, seat) && halt_of(node, story).is_none() && count >= 1
}

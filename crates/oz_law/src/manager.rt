//! What a story makes of the manager: its indexes, and which node halted.

ghost use Rattle.std.specs.Prelude.{◌≡◌};
ghost use Rattle.oz_core.specs.Manager.{decided_index, taken_index, stable_index, stable_moment, is_node, halt_count};
ghost use Rattle.oz_core.specs.Manager.{last_index, swapped_index, durable_index, flushed_moment, halt_of};

use oz_core::{Event, EventKind, Node, Opening};

fn decided_index(kind: &EventKind) -> Option<u64>
    ensures { result ≡ decided_index kind.now }
{
    match kind {
        EventKind::Decide { index, .. } => Some(*index),
        _ => None,
    }
}

fn taken_index(kind: &EventKind) -> Option<u64>
    ensures { result ≡ taken_index kind.now }
{
    match kind {
        EventKind::Swap { index } => Some(*index),
        _ => None,
    }
}

fn stable_index(kind: &EventKind) -> Option<u64>
    ensures { result ≡ stable_index kind.now }
{
    match kind {
        EventKind::Flushed { index, .. } => Some(*index),
        _ => None,
    }
}

fn stable_moment(kind: &EventKind) -> Option<u64>
    ensures { result ≡ stable_moment kind.now }
{
    match kind {
        EventKind::Flushed { moment, .. } => Some(*moment),
        _ => None,
    }
}

/// The last index that was decided.
pub fn last_index(opening: &Opening, story: &[Event]) -> u64
    ensures { result ≡ last_index opening.now story.now }
{
    let mut last = opening.last_index;
    for event in story {
        last = decided_index(&event.kind).unwrap_or(last);
    }
    last
}

/// The last index that was taken to be made stable.
pub fn swapped_index(opening: &Opening, story: &[Event]) -> u64
    ensures { result ≡ swapped_index opening.now story.now }
{
    let mut last = opening.last_index;
    for event in story {
        last = taken_index(&event.kind).unwrap_or(last);
    }
    last
}

/// The last index that is stable.
pub fn durable_index(opening: &Opening, story: &[Event]) -> u64
    ensures { result ≡ durable_index opening.now story.now }
{
    let mut last = opening.last_index;
    for event in story {
        last = stable_index(&event.kind).unwrap_or(last);
    }
    last
}

/// The moment of the last Flushed.
pub fn flushed_moment(story: &[Event]) -> Option<u64>
    ensures { result ≡ flushed_moment story.now }
{
    let mut last = None;
    for event in story {
        last = stable_moment(&event.kind).or(last);
    }
    last
}

fn is_node(node: Node, other: Node) -> bool
    ensures { result ≡ is_node node other }
{
    match (node, other) {
        (Node::Manager, Node::Manager) | (Node::Scm, Node::Scm) => true,
        (Node::Datanode(number), Node::Datanode(other)) => number == other,
        _ => false,
    }
}

fn halt_count(node: Node, kind: &EventKind) -> Option<Option<u64>>
    ensures { result ≡ halt_count node kind.now }
{
    match kind {
        EventKind::Halt { node: other, count } if is_node(node, *other) => Some(Some(*count)),
        _ => None,
    }
}

/// How often the node's disks had failed as it halted, None where it didn't.
pub fn halt_of(node: Node, story: &[Event]) -> Option<u64>
    ensures { result ≡ halt_of node story.now }
{
    let mut halt = None;
    for event in story {
        halt = halt_count(node, &event.kind).unwrap_or(halt);
    }
    halt
}

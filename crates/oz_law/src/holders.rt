//! What a story makes of blocks on datanodes: who is a member of a container, and who holds what.

ghost use Rattle.std.specs.Prelude.{◌≡◌, ◌↔◌, ◌%◌, IsTrue, Contains, option_copied};
ghost use Rattle.std.specs.FinMap.{get};
ghost use Rattle.oz_core.specs.Nodes.{has_piece, was_held, held_after, holds, is_open, closes_at_opening, was_closed};
ghost use Rattle.oz_core.specs.Nodes.{closed_after, is_closed};
ghost use Rattle.oz_core.specs.Scm.{containers, members, logs};
ghost use Rattle.oz_law.specs.Words.{pipeline_in, pipeline_after};

use crate::log::{deletes, is_block};
use oz_container::State;
use oz_core::{Event, EventKind, NodeOpening, Opening};
use oz_fields::Block;

fn pipeline_after(number: u64, before: Option<u8>, kind: &EventKind) -> Option<u8>
    ensures { result ≡ pipeline_after number before kind.now }
{
    match kind {
        EventKind::Grant {
            container,
            pipeline,
            ..
        } if *container == number => Some(before.unwrap_or(*pipeline)),
        _ => before,
    }
}

/// The pipeline that the container was made on, None where it wasn't made.
pub fn pipeline_of(opening: &Opening, story: &[Event], number: u64) -> Option<u8>
    ensures { result ≡ pipeline_in (get (containers opening.now story.now) number) }
{
    let mut pipeline = opening
        .containers
        .get(number)
        .map(|container| container.pipeline);
    for event in story {
        pipeline = pipeline_after(number, pipeline, &event.kind);
    }
    pipeline
}

fn modulo(number: usize, count: usize) -> usize
    ensures { result ≡ number % count }
{
    if count == 0 { number } else { number % count }
}

/// Whether the datanode has a replica of the container.
pub fn is_member(opening: &Opening, story: &[Event], number: u64, dn: u8) -> bool
    ensures { IsTrue result ↔ Contains (members opening.now story.now number) dn }
{
    let count = opening.nodes.len();
    match pipeline_of(opening, story, number) {
        None => false,
        Some(pipeline) => {
            let first = usize::from(pipeline);
            let all = [
                modulo(first, count),
                modulo(first + 1, count),
                modulo(first + 2, count),
            ];
            all.contains(&usize::from(dn))
        }
    }
}

fn has_piece(block: Block, node: &NodeOpening) -> bool
    ensures { result ≡ has_piece block node.now }
{
    node.held.iter().any(|piece| is_block(block, piece.block))
}

/// Whether the datanode's disks had the block.
pub fn was_held(opening: &Opening, dn: usize, block: Block) -> bool
    ensures { result ≡ was_held opening.now dn block }
{
    match opening.nodes.items().get(dn) {
        None => false,
        Some(node) => has_piece(block, node),
    }
}

fn held_after(
    opening: &Opening,
    story: &[Event],
    dn: usize,
    block: Block,
    kind: &EventKind,
) -> Option<bool>
    ensures { result ≡ held_after (logs opening.now story.now) dn block kind.now }
{
    match kind {
        EventKind::Put {
            dn: other,
            block: put,
            ..
        } if usize::from(*other) == dn && is_block(block, *put) => Some(true),
        EventKind::Copy {
            target,
            block: copied,
            ..
        } if usize::from(*target) == dn && is_block(block, *copied) => Some(true),
        EventKind::Delete {
            dn: other,
            txn,
            locals,
        } if usize::from(*other) == dn && deletes(opening, story, *txn, locals.items(), block) =>
            Some(false),
        EventKind::Wipe { dn: other } if usize::from(*other) == dn => Some(false),
        _ => None,
    }
}

/// Whether the datanode holds the block.
pub fn holds(opening: &Opening, story: &[Event], dn: usize, block: Block) -> bool
    ensures { result ≡ holds opening.now story.now dn block }
{
    let mut held = was_held(opening, dn, block);
    for event in story {
        held = held_after(opening, story, dn, block, &event.kind).unwrap_or(held);
    }
    held
}

fn is_open(state: State) -> bool
    ensures { result ≡ is_open state }
{
    match state {
        State::Open => true,
        _ => false,
    }
}

fn closes_at_opening(container: u64, node: &NodeOpening) -> bool
    ensures { result ≡ closes_at_opening container node.now }
{
    node.replicas.iter().any(|replica| replica.container == container && !is_open(replica.state))
}

fn was_closed(opening: &Opening, dn: usize, container: u64) -> bool
    ensures { result ≡ was_closed opening.now dn container }
{
    match opening.nodes.items().get(dn) {
        None => false,
        Some(node) => closes_at_opening(container, node),
    }
}

fn closed_after(dn: usize, number: u64, kind: &EventKind) -> Option<bool>
    ensures { result ≡ closed_after dn number kind.now }
{
    match kind {
        EventKind::CloseCommand {
            dn: other,
            container,
        } if usize::from(*other) == dn && *container == number => Some(true),
        EventKind::Wipe { dn: other } if usize::from(*other) == dn => Some(false),
        _ => None,
    }
}

/// Whether the datanode's replica of the container is closed.
pub fn is_closed(opening: &Opening, story: &[Event], dn: usize, container: u64) -> bool
    ensures { result ≡ is_closed opening.now story.now dn container }
{
    let mut closed = was_closed(opening, dn, container);
    for event in story {
        closed = closed_after(dn, container, &event.kind).unwrap_or(closed);
    }
    closed
}

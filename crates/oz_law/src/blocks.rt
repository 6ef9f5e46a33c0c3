//! Whether blocks may be found bad, or copied.

ghost use Rattle.std.specs.Prelude.{◌≡◌, ◌↔◌, IsTrue};
ghost use Rattle.std.specs.List.{list_any};
ghost use Rattle.oz_model.specs.Reach.{blocks_of};
ghost use Rattle.oz_core.specs.Asks.{is_id, is_own};
ghost use Rattle.oz_core.specs.Law.{IsNamed, IsNamedOrOwn, BadIsEnabled, may_be_copied, comes_to_copies, was_copied};
ghost use Rattle.oz_core.specs.Law.{puts_or_copies, CopyIsEnabled};
ghost use Rattle.oz_core.specs.Manager.{named_by};
ghost use Rattle.oz_core.specs.Nodes.{is_block};
ghost use Rattle.oz_core.specs.Stories.{has_event};
ghost use Rattle.oz_law.specs.Words.{names};

use crate::holders::{holds, is_member, was_held};
use crate::log::{is_block, is_logged};
use crate::nodes::is_running;
use crate::seats::is_datanode_seat;
use oz_container::State;
use oz_core::{Event, EventKind, Opening, SERVICE_CLIENT};
use oz_fields::{Block, Piece};
use oz_requests::{AskId, Reply};

pub fn is_id(id: AskId, other: AskId) -> bool
    ensures { result ≡ is_id id other }
{
    other.client == id.client && other.line == id.line && other.step == id.step
}

fn is_own(id: AskId) -> bool
    ensures { result ≡ is_own id }
{
    id.client != SERVICE_CLIENT && id.step == 0
}

fn is_in_piece(pieces: &[Piece], block: Block) -> bool
    ensures { result ≡ list_any (λ piece. is_block block piece.block) pieces.now }
{
    pieces.iter().any(|piece| is_block(block, piece.block))
}

fn has_piece(pieces: &[Piece], block: Block) -> bool
    ensures { result ≡ list_any (is_block block) (blocks_of pieces.now) }
{
    is_in_piece(pieces, block)
}

pub fn is_named_by(block: Block, reply: &Reply) -> bool
    ensures { result ≡ list_any (is_block block) (named_by reply.now) }
{
    match reply {
        Reply::Granted(granted, _) => is_block(block, *granted),
        Reply::Pieces(pieces) => has_piece(pieces.items(), block),
        _ => false,
    }
}

fn names(id: AskId, block: Block, kind: &EventKind) -> bool
    ensures { result ≡ names id block kind.now }
{
    match kind {
        EventKind::Decide {
            id: other,
            reply,
            ..
        } => is_id(id, *other) && is_named_by(block, reply),
        _ => false,
    }
}

fn has_named(id: AskId, block: Block, story: &[Event]) -> bool
    ensures { result ≡ has_event (names id block) story.now }
{
    story.iter().any(|event| names(id, block, &event.kind))
}

fn is_named(story: &[Event], id: AskId, block: Block) -> bool
    ensures { IsTrue result ↔ IsNamed story.now id block }
{
    has_named(id, block, story)
}

/// A Decide of this id named the block, or the id is a line's own.
pub fn is_named_or_own(story: &[Event], id: AskId, block: Block) -> bool
    ensures { IsTrue result ↔ IsNamedOrOwn story.now id block }
{
    is_named(story, id, block) || is_own(id)
}

/// Whether the datanode may find bad bytes of the block, for this ask.
pub fn bad_is_enabled(
    opening: &Opening,
    story: &[Event],
    seat: u16,
    dn: u8,
    block: Block,
    id: AskId,
) -> bool
    ensures { IsTrue result ↔ BadIsEnabled opening.now story.now seat dn block id }
{
    is_datanode_seat(opening, dn, seat)
        && holds(opening, story, usize::from(dn), block)
        && is_named_or_own(story, id, block)
}

fn may_be_copied(state: State) -> bool
    ensures { result ≡ may_be_copied state }
{
    match state {
        State::QuasiClosed | State::Closed => true,
        _ => false,
    }
}

fn comes_to_copies(number: u64, kind: &EventKind) -> bool
    ensures { result ≡ comes_to_copies number kind.now }
{
    match kind {
        EventKind::Closed { container, state } => *container == number && may_be_copied(*state),
        _ => false,
    }
}

fn came_to_copies(number: u64, story: &[Event]) -> bool
    ensures { result ≡ has_event (comes_to_copies number) story.now }
{
    story
        .iter()
        .any(|event| comes_to_copies(number, &event.kind))
}

fn was_copied(opening: &Opening, number: u64) -> bool
    ensures { result ≡ was_copied opening.now number }
{
    match opening.containers.get(number) {
        None => false,
        Some(container) => may_be_copied(container.state),
    }
}

fn puts_or_copies(dn: u8, block: Block, kind: &EventKind) -> bool
    ensures { result ≡ puts_or_copies dn block kind.now }
{
    match kind {
        EventKind::Put {
            dn: other,
            block: put,
            ..
        } => *other == dn && is_block(block, *put),
        EventKind::Copy {
            target,
            block: copied,
            ..
        } => *target == dn && is_block(block, *copied),
        _ => false,
    }
}

fn has_put_or_copied(dn: u8, block: Block, story: &[Event]) -> bool
    ensures { result ≡ has_event (puts_or_copies dn block) story.now }
{
    story
        .iter()
        .any(|event| puts_or_copies(dn, block, &event.kind))
}

/// Whether the block may be copied from one datanode to the other.
pub fn copy_is_enabled(
    opening: &Opening,
    story: &[Event],
    seat: u16,
    source: u8,
    target: u8,
    block: Block,
) -> bool
    ensures { IsTrue result ↔ CopyIsEnabled opening.now story.now seat source target block }
{
    let had = has_put_or_copied(source, block, story)
        || was_held(opening, usize::from(source), block);
    let closed = came_to_copies(block.container, story) || was_copied(opening, block.container);
    is_datanode_seat(opening, target, seat)
        && is_running(target, story)
        && !holds(opening, story, usize::from(target), block)
        && is_member(opening, story, block.container, source)
        && is_member(opening, story, block.container, target)
        && had
        && closed
        && !is_logged(opening, story, block)
}

//! Where a block was granted, and whether a datanode may put it.

ghost use Rattle.std.specs.Prelude.{◌≡◌, ◌↔◌, ◌*◌, ◌<◌, ◌≤◌, ◌&&◌, not, length, take, IsTrue, MatchOption, List};
ghost use Rattle.oz_core.specs.declared.event.Event.{Event as AnyEvent};
ghost use Rattle.oz_core.specs.Asks.{asks, is_asked};
ghost use Rattle.oz_core.specs.Contents.{wrote, written_for, WasGranted};
ghost use Rattle.oz_core.specs.Law.{PutIsEnabled};
ghost use Rattle.oz_core.specs.Stories.{has_event};
ghost use Rattle.oz_node_law.specs.Words.{grants_block, grants, gives, IsPieceAt, MayTake};

use oz_core::{Event, EventKind, Opening};
use oz_fields::{Block, LONGEST_PIECE};
use oz_law::{
    holds, is_block, is_closed, is_datanode_seat, is_id, is_member, is_of_line, is_running,
};
use oz_requests::{AskId, Reply};

fn asks(id: AskId, kind: &EventKind) -> bool
    ensures { result ≡ asks id kind.now }
{
    match kind {
        EventKind::Ask { id: other, .. } => is_id(id, *other),
        _ => false,
    }
}

fn is_asked(id: AskId, story: &[Event]) -> bool
    ensures { result ≡ is_asked id story.now }
{
    story.iter().any(|event| asks(id, &event.kind))
}

fn grants_block(block: Block, reply: &Reply) -> bool
    ensures { result ≡ grants_block block reply.now }
{
    match reply {
        Reply::Granted(granted, _) => is_block(block, *granted),
        _ => false,
    }
}

fn grants(id: AskId, block: Block, kind: &EventKind) -> bool
    ensures { result ≡ grants id block kind.now }
{
    match kind {
        EventKind::Decide {
            id: other,
            reply,
            ..
        } => is_id(id, *other) && grants_block(block, reply),
        _ => false,
    }
}

fn has_granted(id: AskId, block: Block, story: &[Event]) -> bool
    ensures { result ≡ has_event (grants id block) story.now }
{
    story.iter().any(|event| grants(id, block, &event.kind))
}

fn gives(id: AskId, block: Block, kind: &EventKind, behind: &[Event]) -> bool
    ensures { result ≡ gives id block kind.now behind.now }
{
    asks(id, kind) && !is_asked(id, behind) && has_granted(id, block, behind)
}

/// The place of the ask to which the block was granted, None where it wasn't.
pub fn granted_place(story: &[Event], id: AskId, block: Block) -> Option<usize>
    ensures { MatchOption result
        ((before : List AnyEvent) → ¬ WasGranted story.now id block before)
        (λ place. (place ≤ length story.now) × WasGranted story.now id block (take place story.now)) }
{
    for (place, event) in story.iter().enumerate() {
        if gives(id, block, &event.kind, &story[place + 1..]) {
            return Some(place);
        }
    }
    None
}

fn wrote(client: u16, line: u16, kind: &EventKind) -> Option<Block>
    ensures { result ≡ wrote client line kind.now }
{
    match kind {
        EventKind::Wrote { block, id } if is_of_line(client, line, *id) => Some(*block),
        _ => None,
    }
}

/// How many blocks were written for the line.
fn written(client: u16, line: u16, story: &[Event]) -> usize
    ensures { result ≡ length (written_for client line story.now) }
{
    story
        .iter()
        .filter_map(|event| wrote(client, line, &event.kind))
        .count()
}

/// Whether the piece of this number begins there in a line's data.
fn is_first(first: u64, number: usize) -> bool
    ensures { IsTrue result ↔ (first ≡ LONGEST_PIECE * number) }
{
    let longest = u64::from(LONGEST_PIECE);
    first % longest == 0 && first / longest == number as u64
}

fn is_piece_at(story: &[Event], id: AskId, block: Block, first: u64) -> bool
    ensures { IsTrue result ↔ IsPieceAt story.now id block first }
{
    match granted_place(story, id, block) {
        None => false,
        Some(place) => is_first(first, written(id.client, id.line, &story[..place])),
    }
}

/// As many bytes as a piece may have.
fn is_length(count: u32) -> bool
    ensures { IsTrue result ↔ (1 ≤ count) × (count ≤ LONGEST_PIECE) }
{
    count >= 1 && count <= LONGEST_PIECE
}

fn is_piece(story: &[Event], id: AskId, block: Block, first: u64, count: u32) -> bool
    ensures { IsTrue result
        ↔ ((1 ≤ count) × (count ≤ LONGEST_PIECE)) × IsPieceAt story.now id block first }
{
    is_length(count) && is_piece_at(story, id, block, first)
}

/// A member that runs, has its replica open, and lacks the block.
fn may_take(opening: &Opening, story: &[Event], seat: u16, dn: u8, block: Block) -> bool
    ensures { IsTrue result ↔ MayTake opening.now story.now seat dn block }
{
    is_datanode_seat(opening, dn, seat)
        && is_running(dn, story)
        && is_member(opening, story, block.container, dn)
        && !is_closed(opening, story, usize::from(dn), block.container)
        && !holds(opening, story, usize::from(dn), block)
}

/// Whether the datanode may put the block for this ask: so many bytes, from there on in the line's data.
pub fn put_is_enabled(
    opening: &Opening,
    story: &[Event],
    seat: u16,
    dn: u8,
    block: Block,
    id: AskId,
    first: u64,
    count: u32,
) -> bool
    ensures { IsTrue result ↔ PutIsEnabled opening.now story.now seat dn block id first count }
{
    may_take(opening, story, seat, dn, block) && is_piece(story, id, block, first, count)
}

//! How long a block is, and how many slots it takes.

ghost use Rattle.std.specs.Prelude.{◌≡◌, Some, None, if◌then◌else◌};
ghost use Rattle.std.specs.List.{flat_map};
ghost use Rattle.oz_core.specs.Nodes.{is_block, length_in, put_length, length_of, slots_for, slots_of};
ghost use Rattle.oz_core.specs.Stories.{all_told, first_in};

use oz_core::{Event, EventKind, NodeOpening, Opening, SLOT_BYTES};
use oz_fields::{Block, Piece};
use oz_law::is_block;

fn piece_length(block: Block, piece: Piece) -> Option<u32>
    ensures { result ≡ (if is_block block piece.block then Some piece.length else None) }
{
    if is_block(block, piece.block) {
        Some(piece.length)
    } else {
        None
    }
}

/// The length of the block as the datanode's disks had it.
fn length_in(block: Block, node: &NodeOpening) -> Option<u32>
    ensures { result ≡ first_in (length_in block node.now) }
{
    let mut length = None;
    for piece in node.held.items() {
        length = length.or(piece_length(block, *piece));
    }
    length
}

/// The same, of the first datanode that had it.
fn had_length(opening: &Opening, block: Block) -> Option<u32>
    ensures { result ≡ first_in (flat_map (length_in block) opening.now.nodes) }
{
    let mut length = None;
    for node in opening.nodes.items() {
        length = length.or(length_in(block, node));
    }
    length
}

fn put_length(block: Block, kind: &EventKind) -> Option<u32>
    ensures { result ≡ put_length block kind.now }
{
    match kind {
        EventKind::Put {
            block: put,
            length,
            ..
        } if is_block(block, *put) => Some(*length),
        _ => None,
    }
}

/// The length of the block as it was first put.
fn came_length(story: &[Event], block: Block) -> Option<u32>
    ensures { result ≡ first_in (all_told (put_length block) story.now) }
{
    let mut length = None;
    for event in story {
        length = length.or(put_length(block, &event.kind));
    }
    length
}

fn length_of(opening: &Opening, story: &[Event], block: Block) -> Option<u32>
    ensures { result ≡ length_of opening.now story.now block }
{
    had_length(opening, block).or(came_length(story, block))
}

fn slots_for(count: u32) -> u64
    ensures { result ≡ slots_for count }
{
    (u64::from(count) + (SLOT_BYTES - 1)) / SLOT_BYTES
}

/// How many slots the block takes.
pub fn slots_of(opening: &Opening, story: &[Event], block: Block) -> u64
    ensures { result ≡ slots_of opening.now story.now block }
{
    match length_of(opening, story, block) {
        None => 0,
        Some(count) => slots_for(count),
    }
}

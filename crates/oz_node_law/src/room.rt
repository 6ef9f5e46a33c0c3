//! How many slots of a datanode are taken by the blocks that it holds.

ghost use Rattle.std.specs.Prelude.{◌≡◌, ◌↔◌, ◌+◌, ◌<◌, ◌≤◌, false, IsTrue, MatchOption, ◌++◌};
ghost use Rattle.std.specs.List.{list_any};
ghost use Rattle.std.specs.Option.{option_map_or};
ghost use Rattle.oz_model.specs.Reach.{blocks_of};
ghost use Rattle.oz_core.specs.Law.{IsUse};
ghost use Rattle.oz_core.specs.Nodes.{is_block};
ghost use Rattle.oz_core.specs.Stories.{all_told};
ghost use Rattle.oz_node_law.specs.Words.{given, had_or_given, fresh, held_slots, taken_slots, AreSlots};

use crate::lengths::slots_of;
use oz_core::{Event, EventKind, MOST_OTHER_SLOTS, Opening, SLOT_BYTES};
use oz_fields::{Block, Piece};
use oz_law::{holds, is_block};

/// The block that the datanode was given.
pub fn given(dn: usize, kind: &EventKind) -> Option<Block>
    ensures { result ≡ given dn kind.now }
{
    match kind {
        EventKind::Put {
            dn: other,
            block,
            ..
        } if usize::from(*other) == dn => Some(*block),
        EventKind::Copy { target, block, .. } if usize::from(*target) == dn => Some(*block),
        _ => None,
    }
}

fn gives(dn: usize, block: Block, kind: &EventKind) -> bool
    ensures { result ≡ option_map_or (is_block block) (given dn kind.now) false }
{
    match given(dn, kind) {
        None => false,
        Some(other) => is_block(block, other),
    }
}

fn came(dn: usize, block: Block, story: &[Event]) -> bool
    ensures { result ≡ list_any (λ event. option_map_or (is_block block) (given dn event.kind) false) story.now }
{
    story.iter().any(|event| gives(dn, block, &event.kind))
}

/// The datanode was given the block.
fn was_given(dn: usize, block: Block, story: &[Event]) -> bool
    ensures { result ≡ list_any (is_block block) (all_told (given dn) story.now) }
{
    came(dn, block, story)
}

fn is_of_pieces(block: Block, pieces: &[Piece]) -> bool
    ensures { result ≡ list_any (λ piece. is_block block piece.block) pieces.now }
{
    pieces.iter().any(|piece| is_block(block, piece.block))
}

fn is_in_pieces(block: Block, pieces: &[Piece]) -> bool
    ensures { result ≡ list_any (is_block block) (blocks_of pieces.now) }
{
    is_of_pieces(block, pieces)
}

/// The slots of the block, where the datanode holds it.
fn held_slots(opening: &Opening, story: &[Event], dn: usize, block: Block) -> u64
    ensures { result ≡ held_slots opening.now story.now dn block }
{
    if holds(opening, story, dn, block) {
        slots_of(opening, story, block)
    } else {
        0
    }
}

/// The slots of what the event gave the datanode, where nothing behind gives it that again.
fn given_slots(
    opening: &Opening,
    story: &[Event],
    dn: usize,
    kind: &EventKind,
    behind: &[Event],
) -> u64
    ensures { result ≡ option_map_or
        (fresh (held_slots opening.now story.now dn) (all_told (given dn) behind.now)) (given dn kind.now) 0 }
{
    match given(dn, kind) {
        Some(block) if !was_given(dn, block, behind) => held_slots(opening, story, dn, block),
        _ => 0,
    }
}

/// What is left of so many slots but for those of blocks that the datanode was given.
fn left_by_events(opening: &Opening, story: &[Event], dn: usize, all: u64) -> Option<u64>
    ensures { MatchOption result
        (all < taken_slots opening.now story.now dn (all_told (given dn) story.now))
        (λ left. left + taken_slots opening.now story.now dn (all_told (given dn) story.now) ≡ all) }
{
    let mut left = all;
    for (place, event) in story.iter().enumerate() {
        let slots = given_slots(opening, story, dn, &event.kind, &story[place + 1..]);
        if left < slots {
            return None;
        }
        left -= slots;
    }
    Some(left)
}

/// The slots of a piece's block, where neither a piece behind nor an event has it again.
fn piece_slots(opening: &Opening, story: &[Event], dn: usize, block: Block, behind: &[Piece]) -> u64
    ensures { result ≡ fresh (held_slots opening.now story.now dn)
        (blocks_of behind.now ++ all_told (given dn) story.now) block }
{
    if is_in_pieces(block, behind) || was_given(dn, block, story) {
        0
    } else {
        held_slots(opening, story, dn, block)
    }
}

/// What is left of so many slots but for those of these pieces, which the disks had, and of what was given.
fn left_by_pieces(
    opening: &Opening,
    story: &[Event],
    dn: usize,
    pieces: &[Piece],
    all: u64,
) -> Option<u64>
    ensures { MatchOption result
        (all < taken_slots opening.now story.now dn (blocks_of pieces.now ++ all_told (given dn) story.now))
        (λ left. left
        + taken_slots opening.now story.now dn (blocks_of pieces.now ++ all_told (given dn) story.now) ≡ all) }
{
    let mut left = all;
    for (place, piece) in pieces.iter().enumerate() {
        let slots = piece_slots(opening, story, dn, piece.block, &pieces[place + 1..]);
        if left < slots {
            return None;
        }
        left -= slots;
    }
    left_by_events(opening, story, dn, left)
}

/// What is left of so many slots but for those that the datanode's blocks take.
fn left_of(opening: &Opening, story: &[Event], dn: usize, all: u64) -> Option<u64>
    ensures { MatchOption result
        (all < taken_slots opening.now story.now dn (had_or_given opening.now story.now dn))
        (λ left. left + taken_slots opening.now story.now dn (had_or_given opening.now story.now dn) ≡ all) }
{
    match opening.nodes.items().get(dn) {
        None => left_by_events(opening, story, dn, all),
        Some(node) => left_by_pieces(opening, story, dn, node.held.items(), all),
    }
}

fn are_few(slots: u64) -> bool
    ensures { IsTrue result ↔ (slots ≤ MOST_OTHER_SLOTS) }
{
    slots <= MOST_OTHER_SLOTS
}

/// Whether so many slots are those of the datanode's blocks, and few others.
fn are_slots(opening: &Opening, story: &[Event], dn: usize, all: u64) -> bool
    ensures { IsTrue result ↔ AreSlots opening.now story.now dn all }
{
    match left_of(opening, story, dn, all) {
        None => false,
        Some(left) => are_few(left),
    }
}

/// Whether so many bytes of the datanode's slots may be used.
pub fn is_use(opening: &Opening, story: &[Event], dn: usize, used: u64) -> bool
    ensures { IsTrue result ↔ IsUse opening.now story.now dn used }
{
    used % SLOT_BYTES == 0 && are_slots(opening, story, dn, used / SLOT_BYTES)
}

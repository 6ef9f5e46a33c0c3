//! Which blocks a story used.

ghost use Rattle.std.specs.Prelude.{◌≡◌, ◌↔◌, ◌==◌, All, Contains, IfOk, IsTrue, false};
ghost use Rattle.std.specs.List.{list_any};
ghost use Rattle.std.specs.Option.{option_map_or};
ghost use Rattle.oz_core.specs.Manager.{granted_block, block_of_reply, IsUsed, kept_block, WasUsed};
ghost use Rattle.oz_core.specs.Nodes.{is_block};
ghost use Rattle.oz_core.specs.Scm.{is_logged_at_opening, names_block};
ghost use Rattle.oz_core.specs.Stories.{all_told};
ghost use Rattle.oz_replay.specs.Words.{granted_in, IsAmong};

use oz_core::{Event, EventKind, Opening};
use oz_dellog::Txn;
use oz_fields::{Block, OutOfMemory};
use oz_model::reach;
use oz_requests::Reply;
use std::alloc::Global;

fn is_block(block: Block, other: Block) -> bool
    ensures { result ≡ is_block block other }
{
    other.container == block.container && other.local == block.local
}

fn any_block(blocks: &[Block], block: Block) -> bool
    ensures { result ≡ list_any (is_block block) blocks.now }
{
    blocks.iter().any(|other| is_block(block, *other))
}

/// Whether the block is one of these.
pub fn has_block(blocks: &[Block], block: Block) -> bool
    ensures { IsTrue result ↔ Contains blocks.now block }
{
    any_block(blocks, block)
}

fn has_local(locals: &[u64], of: u64) -> bool
    ensures { result ≡ list_any (λ local. local == of) locals.now }
{
    locals.iter().any(|local| *local == of)
}

fn names_block(block: Block, txn: &Txn) -> bool
    ensures { result ≡ names_block block txn.now }
{
    txn.container == block.container && has_local(txn.locals.items(), block.local)
}

fn any_unretired(opening: &Opening, block: Block) -> bool
    ensures { result ≡ list_any (λ unretired. names_block block unretired.txn) opening.now.unretired }
{
    opening
        .unretired
        .iter()
        .any(|unretired| names_block(block, &unretired.txn))
}

fn was_logged(opening: &Opening, block: Block) -> bool
    ensures { result ≡ is_logged_at_opening opening.now block }
{
    any_unretired(opening, block)
}

fn grants(block: Block, reply: &Reply) -> bool
    ensures { result ≡ option_map_or (is_block block) (block_of_reply reply.now) false }
{
    match reply {
        Reply::Granted(granted, _) => is_block(block, *granted),
        _ => false,
    }
}

fn granted_block(block: Block, kind: &EventKind) -> bool
    ensures { result ≡ option_map_or (is_block block) (granted_block kind.now) false }
{
    match kind {
        EventKind::Decide { reply, .. } => grants(block, reply),
        _ => false,
    }
}

fn kept_block(most: u64, block: Block, kind: &EventKind) -> bool
    ensures { result ≡ option_map_or (is_block block) (kept_block most kind.now) false }
{
    match kind {
        EventKind::Decide { index, reply, .. } if *index <= most => grants(block, reply),
        _ => false,
    }
}

fn granted_in(most: Option<u64>, block: Block, kind: &EventKind) -> bool
    ensures { result ≡ option_map_or (is_block block) (granted_in most kind.now) false }
{
    match most {
        None => granted_block(block, kind),
        Some(most) => kept_block(most, block, kind),
    }
}

fn any_granted(most: Option<u64>, story: &[Event], block: Block) -> bool
    ensures { result ≡ list_any (λ event. option_map_or (is_block block) (granted_in most event.kind) false) story.now }
{
    story
        .iter()
        .any(|event| granted_in(most, block, &event.kind))
}

fn was_granted(most: Option<u64>, story: &[Event], block: Block) -> bool
    ensures { IsTrue result ↔ Contains (all_told (granted_in most) story.now) block }
{
    any_granted(most, story, block)
}

/// One of these, or of those that the opening is to delete or a Decide granted that counts.
fn is_among(
    had: &[Block],
    opening: &Opening,
    most: Option<u64>,
    story: &[Event],
    block: Block,
) -> bool
    ensures { IsTrue result ↔ IsAmong had.now opening.now (all_told (granted_in most) story.now) block }
{
    has_block(had, block)
        || has_block(opening.left.items(), block)
        || was_logged(opening, block)
        || was_granted(most, story, block)
}

fn are_among(
    had: &[Block],
    opening: &Opening,
    most: Option<u64>,
    story: &[Event],
    blocks: &[Block],
) -> bool
    ensures { IsTrue result
        ↔ All (IsAmong had.now opening.now (all_told (granted_in most) story.now)) blocks.now }
{
    blocks
        .iter()
        .all(|block| is_among(had, opening, most, story, *block))
}

/// Whether the block was used: the opening has it, or a Decide granted it.
pub fn is_used(
    alloc: Global,
    opening: &Opening,
    story: &[Event],
    block: Block,
) -> Result<bool, OutOfMemory>
    ensures { IfOk result (λ is. IsTrue is ↔ IsUsed opening.now story.now block) }
{
    let had = reach(alloc, &opening.namespace)?;
    Ok(is_among(&had, opening, None, story, block))
}

/// Whether each of these was, where Decides up to an index alone count.
pub fn are_used_up_to(
    alloc: Global,
    opening: &Opening,
    most: u64,
    story: &[Event],
    blocks: &[Block],
) -> Result<bool, OutOfMemory>
    ensures { IfOk result (λ are. IsTrue are
        ↔ All (WasUsed opening.now (all_told (kept_block most) story.now)) blocks.now) }
{
    let had = reach(alloc, &opening.namespace)?;
    Ok(are_among(&had, opening, Some(most), story, blocks))
}

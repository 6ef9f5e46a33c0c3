//! Whether ids that were granted are used. The local id of a block is a `u128` here: a story may grant ids past a `u64`,
//! though no legal one does.

ghost use Rattle.std.specs.Prelude.{◌≡◌, ◌↔◌, ◌==◌, ◌+◌, ◌<◌, ℕ, Contains, IsTrue, false};
ghost use Rattle.std.specs.List.{list_any};
ghost use Rattle.std.specs.Option.{option_map_or};
ghost use Rattle.oz_core.specs.Manager.{granted_block, block_of_reply, IsUsed};
ghost use Rattle.oz_core.specs.Nodes.{is_block};
ghost use Rattle.oz_core.specs.Scm.{is_logged_at_opening, names_block};
ghost use Rattle.oz_core.specs.Stories.{all_told};
ghost use Rattle.oz_replay.specs.Words.{IsAmong};
ghost use Rattle.oz_scm_law.specs.Words.{block_at, AreReached};

use oz_core::{Event, EventKind, Opening};
use oz_dellog::Txn;
use oz_fields::Block;
use oz_requests::Reply;

fn is_it(container: u64, local: u128, block: Block) -> bool
    ensures { result ≡ is_block (block_at container local) block }
{
    block.container == container && u128::from(block.local) == local
}

fn any_block(blocks: &[Block], container: u64, local: u128) -> bool
    ensures { result ≡ list_any (is_block (block_at container local)) blocks.now }
{
    blocks.iter().any(|block| is_it(container, local, *block))
}

fn has_block(blocks: &[Block], container: u64, local: u128) -> bool
    ensures { IsTrue result ↔ Contains blocks.now (block_at container local) }
{
    any_block(blocks, container, local)
}

fn has_local(locals: &[u64], of: u128) -> bool
    ensures { result ≡ list_any (λ local. local == of) locals.now }
{
    locals.iter().any(|local| u128::from(*local) == of)
}

fn names_block(container: u64, local: u128, txn: &Txn) -> bool
    ensures { result ≡ names_block (block_at container local) txn.now }
{
    txn.container == container && has_local(txn.locals.items(), local)
}

fn any_unretired(opening: &Opening, container: u64, local: u128) -> bool
    ensures { result
        ≡ list_any (λ unretired. names_block (block_at container local) unretired.txn) opening.now.unretired }
{
    opening
        .unretired
        .iter()
        .any(|unretired| names_block(container, local, &unretired.txn))
}

fn was_logged(opening: &Opening, container: u64, local: u128) -> bool
    ensures { result ≡ is_logged_at_opening opening.now (block_at container local) }
{
    any_unretired(opening, container, local)
}

fn grants(container: u64, local: u128, reply: &Reply) -> bool
    ensures { result ≡ option_map_or (is_block (block_at container local)) (block_of_reply reply.now) false }
{
    match reply {
        Reply::Granted(block, _) => is_it(container, local, *block),
        _ => false,
    }
}

fn granted_block(container: u64, local: u128, kind: &EventKind) -> bool
    ensures { result ≡ option_map_or (is_block (block_at container local)) (granted_block kind.now) false }
{
    match kind {
        EventKind::Decide { reply, .. } => grants(container, local, reply),
        _ => false,
    }
}

fn any_granted(story: &[Event], container: u64, local: u128) -> bool
    ensures { result
        ≡ list_any (λ event. option_map_or (is_block (block_at container local)) (granted_block event.kind) false)
        story.now }
{
    story
        .iter()
        .any(|event| granted_block(container, local, &event.kind))
}

fn was_granted(story: &[Event], container: u64, local: u128) -> bool
    ensures { IsTrue result ↔ Contains (all_told granted_block story.now) (block_at container local) }
{
    any_granted(story, container, local)
}

/// One of these, or of those that the opening is to delete or a Decide granted.
fn is_among(
    reached: &[Block],
    opening: &Opening,
    story: &[Event],
    container: u64,
    local: u128,
) -> bool
    ensures { IsTrue result
        ↔ IsAmong reached.now opening.now (all_told granted_block story.now) (block_at container local) }
{
    has_block(reached, container, local)
        || has_block(opening.left.items(), container, local)
        || was_logged(opening, container, local)
        || was_granted(story, container, local)
}

/// Whether the block was used, where these are what the opening's namespace reaches.
fn is_used(
    reached: &[Block],
    opening: &Opening,
    story: &[Event],
    container: u64,
    local: u128,
) -> bool
    requires { AreReached opening.now reached.now }
    ensures { IsTrue result ↔ IsUsed opening.now story.now (block_at container local) }
{
    is_among(reached, opening, story, container, local)
}

/// Whether so many ids from there on are used.
pub(crate) fn are_used(
    reached: &[Block],
    opening: &Opening,
    story: &[Event],
    container: u64,
    first: u64,
    count: u32,
) -> bool
    requires { AreReached opening.now reached.now }
    ensures { IsTrue result
        ↔ ((place : ℕ) → place < count → IsUsed opening.now story.now (block_at container (first + place))) }
{
    for place in 0..count {
        let local = u128::from(first) + u128::from(place);
        if !is_used(reached, opening, story, container, local) {
            return false;
        }
    }
    true
}

//! The blocks that a stripe may grant.

ghost use Rattle.std.specs.Prelude.{◌≡◌, ◌+◌, ◌≤◌, ◌↔◌, ◌++◌, not, filter, length, vec_capacity, All, IsTrue, IfSome, MatchOption};
ghost use Rattle.oz_core.specs.Grants.{IsExcluded};
ghost use Rattle.oz_core.specs.Nodes.{is_block};
ghost use Rattle.oz_core.specs.declared.event.Event.{Event as AnyEvent};
ghost use Rattle.oz_fields.specs.declared.block.TheConstants.{GREATEST_BLOCK_NUMBER};
ghost use Rattle.oz_locks.specs.Pool.{GrantFits, IsFirstAllowed, blocks_granted, blocks_in, blocks_of_grant, without};
ghost use Rattle.oz_locks.specs.declared.pool.FreeBlock.{FreeBlock as AnyBlock};

use oz_core::{Event, EventKind};
use oz_fields::Block;
use oz_requests::Exclude;

/// A block that a stripe was granted and hasn't granted on, and the pipeline that it is on.
#[derive(Clone, Copy)]
pub struct FreeBlock {
    pub block: Block,
    pub pipeline: u8,
}

/// How many blocks the Grants to a stripe have among events, unless they are more than there is memory for.
pub(crate) fn count_granted(events: &[Event], stripe: u8) -> Option<usize>
    ensures { IfSome result (λ blocks. blocks ≡ length (blocks_granted stripe events.now)) }
{
    let mut blocks: usize = 0;
    for event in events {
        blocks = blocks.checked_add(count_in(&event.kind, stripe))?;
    }
    Some(blocks)
}

fn count_in(kind: &EventKind, of_stripe: u8) -> usize
    ensures { result ≡ length (blocks_in of_stripe kind.now) }
{
    match kind {
        EventKind::Grant { stripe, count, .. } if *stripe == of_stripe => *count as usize,
        _ => 0,
    }
}

/// Puts the blocks of the Grants to a stripe among events behind a pool, which has room for them. Of a Grant that goes
/// beyond the greatest local id it is known only how many it has.
pub(crate) fn add_granted(pool: &mut Vec<FreeBlock>, events: &[Event], stripe: u8)
    requires room { length pool.old.items + length (blocks_granted stripe events.now) ≤ vec_capacity pool.old }
    ensures { All (λ (event : AnyEvent). GrantFits event.kind) events.now
        → pool.new.items ≡ pool.old.items ++ blocks_granted stripe events.now }
{
    for event in events {
        add_those_in(pool, &event.kind, stripe);
    }
}

fn add_those_in(pool: &mut Vec<FreeBlock>, kind: &EventKind, of_stripe: u8)
    requires room { length pool.old.items + length (blocks_in of_stripe kind.now) ≤ vec_capacity pool.old }
    ensures items { GrantFits kind.now → pool.new.items ≡ pool.old.items ++ blocks_in of_stripe kind.now }
    ensures length { length pool.new.items ≡ length pool.old.items + length (blocks_in of_stripe kind.now) }
    ensures capacity { vec_capacity pool.old ≤ vec_capacity pool.new }
{
    if let EventKind::Grant {
        stripe,
        container,
        pipeline,
        first,
        count,
    } = kind
    {
        if *stripe == of_stripe {
            add_blocks(pool, *container, *pipeline, *first, *count);
        }
    }
}

/// Puts the blocks of a Grant behind a pool, which has room for them.
fn add_blocks(pool: &mut Vec<FreeBlock>, container: u64, pipeline: u8, first: u64, count: u32)
    requires room { length pool.old.items + count ≤ vec_capacity pool.old }
    ensures items { first + count ≤ GREATEST_BLOCK_NUMBER
        → pool.new.items ≡ pool.old.items ++ blocks_of_grant container pipeline first count }
    ensures length { length pool.new.items ≡ length pool.old.items + count }
    ensures capacity { vec_capacity pool.old ≤ vec_capacity pool.new }
{
    for place in 0..u64::from(count) {
        let local = first.saturating_add(place);
        let block = Block { container, local };
        pool.push_reserved(FreeBlock { block, pipeline });
    }
}

/// Takes the block that was granted out of a pool.
pub(crate) fn withdraw(pool: &mut Vec<FreeBlock>, granted: Option<Block>)
    ensures { pool.new.items ≡ without granted pool.old.items }
{
    if let Some(block) = granted {
        remove_block(pool, block);
    }
}

fn remove_block(pool: &mut Vec<FreeBlock>, block: Block)
    ensures { pool.new.items ≡ filter (λ (free : AnyBlock). not (is_block block free.block)) pool.old.items }
{
    pool.retain(|free| !is_block(block, free.block));
}

fn is_block(block: Block, other: Block) -> bool
    ensures { result ≡ is_block block other }
{
    other.container == block.container && other.local == block.local
}

/// The first block of a pool that isn't excluded.
pub(crate) fn first_allowed(pool: &[FreeBlock], exclude: &Exclude) -> Option<FreeBlock>
    ensures { MatchOption result
        (All (λ free. IsExcluded exclude.now free.block free.pipeline) pool.now)
        (λ free. IsFirstAllowed exclude.now pool.now free) }
{
    for free in pool {
        if !is_excluded(exclude, free.block, free.pipeline) {
            return Some(*free);
        }
    }
    None
}

fn is_excluded(exclude: &Exclude, block: Block, pipeline: u8) -> bool
    ensures { IsTrue result ↔ IsExcluded exclude.now block pipeline }
{
    exclude.containers.items().contains(&block.container)
        || exclude.pipelines.items().contains(&pipeline)
}

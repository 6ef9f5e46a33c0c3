//! Whether blocks may be asked to be deleted.

ghost use Rattle.std.specs.Prelude.{◌↔◌, All, Contains, IfOk, IsTrue};
ghost use Rattle.oz_core.specs.Law.{PurgeAskIsEnabled};
ghost use Rattle.oz_core.specs.Manager.{IsUsedAndKept, kept_namespace};
ghost use Rattle.oz_core.specs.Seats.{IsStripeSeat};
ghost use Rattle.oz_model.specs.Reach.{IsReached};
ghost use Rattle.oz_legal.specs.manager_law.Words.{IsNoneOf};

use crate::manager_law::pinned::are_free;
use crate::manager_law::seats::is_stripe_seat;
use oz_core::{Event, Node, Opening};
use oz_fields::{Block, OutOfMemory};
use oz_law::{durable_index, halt_of};
use oz_model::reach;
use oz_replay::{are_used_up_to, has_block, kept_up_to};
use std::alloc::Global;

fn is_away(reached: &[Block], block: Block) -> bool
    ensures { IsTrue result ↔ (Contains reached.now block → ⊥) }
{
    !has_block(reached, block)
}

fn is_none_of(reached: &[Block], block: Block) -> bool
    ensures { IsTrue result ↔ IsNoneOf reached.now block }
{
    is_away(reached, block)
}

fn are_none_of(reached: &[Block], blocks: &[Block]) -> bool
    ensures { IsTrue result ↔ All (IsNoneOf reached.now) blocks.now }
{
    blocks.iter().all(|block| is_none_of(reached, *block))
}

/// Nothing reaches one of these that a stop would leave.
fn are_unreached(
    alloc: Global,
    opening: &Opening,
    story: &[Event],
    blocks: &[Block],
) -> Result<bool, OutOfMemory>
    ensures { IfOk result (λ are. IsTrue are
        ↔ All (λ block. IsReached (kept_namespace opening.now story.now) block → ⊥) blocks.now) }
{
    let kept = kept_up_to(alloc, opening, durable_index(opening, story), story)?;
    let reached = reach(alloc, &kept)?;
    Ok(are_none_of(&reached, blocks))
}

/// Each of these was used, and that is stable.
fn are_used_and_kept(
    alloc: Global,
    opening: &Opening,
    story: &[Event],
    blocks: &[Block],
) -> Result<bool, OutOfMemory>
    ensures { IfOk result (λ are. IsTrue are ↔ All (IsUsedAndKept opening.now story.now) blocks.now) }
{
    are_used_up_to(alloc, opening, durable_index(opening, story), story, blocks)
}

/// Whether these blocks may be asked to be deleted.
pub fn purge_ask_is_enabled(
    alloc: Global,
    opening: &Opening,
    story: &[Event],
    seat: u16,
    blocks: &[Block],
) -> Result<bool, OutOfMemory>
    ensures { IfOk result (λ is. IsTrue is ↔ PurgeAskIsEnabled opening.now story.now seat blocks.now) }
{
    let used = are_used_and_kept(alloc, opening, story, blocks)?;
    let unreached = are_unreached(alloc, opening, story, blocks)?;
    Ok(
        is_stripe_seat(seat)
            && halt_of(Node::Manager, story).is_none()
            && blocks.len() >= 1
            && used
            && unreached
            && are_free(story, blocks),
    )
}

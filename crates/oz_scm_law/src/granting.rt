//! Whether ids may be granted to a stripe.

ghost use Rattle.std.specs.Prelude.{◌≡◌, ◌↔◌, IfOk, IsTrue};
ghost use Rattle.oz_core.specs.Law.{GrantIsEnabled};
ghost use Rattle.oz_core.specs.Scm.{greatest_container};
ghost use Rattle.oz_scm_law.specs.Words.{AreReached};

use crate::ids::{are_next, greatest_container, may_hold};
use crate::needed::is_needed;
use crate::pipelines::is_there_and_up;
use oz_core::{Event, Node, Opening};
use oz_fields::{Block, OutOfMemory};
use oz_law::{SCM_SEAT, halt_of};
use oz_model::reach;
use std::alloc::Global;

/// The same where the greatest container and what the opening's namespace reaches are known.
fn may_grant(
    greatest: u64,
    reached: &[Block],
    opening: &Opening,
    story: &[Event],
    seat: u16,
    stripe: u8,
    container: u64,
    pipeline: u8,
    first: u64,
    count: u32,
) -> bool
    requires greatest { greatest ≡ greatest_container opening.now story.now }
    requires reached { AreReached opening.now reached.now }
    ensures { IsTrue result
        ↔ GrantIsEnabled opening.now story.now seat stripe container pipeline first count }
{
    seat == SCM_SEAT
        && halt_of(Node::Scm, story).is_none()
        && are_next(opening, story, first, count)
        && is_there_and_up(opening, story, pipeline)
        && may_hold(opening, story, container, pipeline, greatest)
        && is_needed(reached, opening, story, stripe, container, pipeline)
}

/// Whether the stripe may be granted `count` ids from `first` on, in this container, which is on this pipeline.
pub fn grant_is_enabled(
    alloc: Global,
    opening: &Opening,
    story: &[Event],
    seat: u16,
    stripe: u8,
    container: u64,
    pipeline: u8,
    first: u64,
    count: u32,
) -> Result<bool, OutOfMemory>
    ensures { IfOk result (λ is. IsTrue is
        ↔ GrantIsEnabled opening.now story.now seat stripe container pipeline first count) }
{
    let greatest = greatest_container(alloc, opening, story)?;
    let reached = reach(alloc, &opening.namespace)?;
    Ok(may_grant(
        greatest, &reached, opening, story, seat, stripe, container, pipeline, first, count,
    ))
}

//! Whether a block may be granted to an ask.

ghost use Rattle.std.specs.Prelude.{◌≡◌, ◌↔◌, IfOk, IsTrue};
ghost use Rattle.oz_core.specs.Grants.{IsExcluded};
ghost use Rattle.oz_core.specs.Law.{MayBeGranted};
ghost use Rattle.oz_core.specs.Scm.{IsOfGrant};
ghost use Rattle.oz_core.specs.Stories.{has_event};
ghost use Rattle.oz_legal.specs.manager_law.Words.{grants_it};

use oz_core::{Event, EventKind, Opening};
use oz_fields::{Block, OutOfMemory};
use oz_replay::is_used;
use oz_requests::Exclude;
use std::alloc::Global;

fn grants_it(stripe: u8, block: Block, pipeline: u8, kind: &EventKind) -> bool
    ensures { result ≡ grants_it stripe block pipeline kind.now }
{
    match kind {
        EventKind::Grant {
            stripe: to,
            container,
            pipeline: on,
            first,
            count,
        } => {
            *to == stripe
                && *container == block.container
                && *on == pipeline
                && *first <= block.local
                && block.local - *first < u64::from(*count)
        }
        _ => false,
    }
}

fn has_grant(story: &[Event], stripe: u8, block: Block, pipeline: u8) -> bool
    ensures { result ≡ has_event (grants_it stripe block pipeline) story.now }
{
    story
        .iter()
        .any(|event| grants_it(stripe, block, pipeline, &event.kind))
}

fn is_of_grant(story: &[Event], stripe: u8, block: Block, pipeline: u8) -> bool
    ensures { IsTrue result ↔ IsOfGrant story.now stripe block pipeline }
{
    has_grant(story, stripe, block, pipeline)
}

fn is_excluded(exclude: &Exclude, block: Block, pipeline: u8) -> bool
    ensures { IsTrue result ↔ IsExcluded exclude.now block pipeline }
{
    exclude.containers.items().contains(&block.container)
        || exclude.pipelines.items().contains(&pipeline)
}

/// Whether an ask of this stripe may be granted the block.
pub(crate) fn may_be_granted(
    alloc: Global,
    opening: &Opening,
    story: &[Event],
    stripe: u8,
    exclude: &Exclude,
    block: Block,
    pipeline: u8,
) -> Result<bool, OutOfMemory>
    ensures { IfOk result (λ is. IsTrue is ↔ MayBeGranted opening.now story.now stripe exclude.now block pipeline) }
{
    let used = is_used(alloc, opening, story, block)?;
    Ok(
        is_of_grant(story, stripe, block, pipeline)
            && !used
            && !is_excluded(exclude, block, pipeline),
    )
}

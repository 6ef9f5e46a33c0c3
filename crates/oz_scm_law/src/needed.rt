//! Whether an ask needs more ids.

ghost use Rattle.std.specs.Prelude.{◌≡◌, ◌↔◌, All, Contains, IsTrue};
ghost use Rattle.std.specs.List.{Any};
ghost use Rattle.oz_core.specs.Grants.{IsSpent};
ghost use Rattle.oz_core.specs.Law.{IsNeeded};
ghost use Rattle.oz_names.specs.Names.{stripe_of};
ghost use Rattle.oz_scm_law.specs.Words.{AreReached, AreSpent, Excludes, IsSpentIn, NeedsMore, NeedsMoreIn, NeedsMoreTo};

use crate::used::are_used;
use oz_core::{Event, EventKind, Opening};
use oz_fields::Block;
use oz_names::stripe_of;
use oz_requests::{Exclude, Request};

fn excludes(exclude: &Exclude, container: u64, pipeline: u8) -> bool
    ensures { IsTrue result ↔ Excludes exclude.now container pipeline }
{
    exclude.containers.items().contains(&container) || exclude.pipelines.items().contains(&pipeline)
}

/// Each of so many ids from there on is used, or excluded.
fn are_spent(
    reached: &[Block],
    opening: &Opening,
    story: &[Event],
    exclude: &Exclude,
    container: u64,
    pipeline: u8,
    first: u64,
    count: u32,
) -> bool
    requires { AreReached opening.now reached.now }
    ensures { IsTrue result ↔ AreSpent opening.now story.now exclude.now container pipeline first count }
{
    excludes(exclude, container, pipeline)
        || are_used(reached, opening, story, container, first, count)
}

fn is_spent_in(
    reached: &[Block],
    opening: &Opening,
    story: &[Event],
    stripe: u8,
    exclude: &Exclude,
    kind: &EventKind,
) -> bool
    requires { AreReached opening.now reached.now }
    ensures { IsTrue result ↔ IsSpentIn opening.now story.now stripe exclude.now kind.now }
{
    match kind {
        EventKind::Grant {
            stripe: to,
            container,
            pipeline,
            first,
            count,
        } => {
            *to != stripe
                || are_spent(
                    reached, opening, story, exclude, *container, *pipeline, *first, *count,
                )
        }
        _ => true,
    }
}

fn all_spent(
    reached: &[Block],
    opening: &Opening,
    story: &[Event],
    stripe: u8,
    exclude: &Exclude,
) -> bool
    requires { AreReached opening.now reached.now }
    ensures { IsTrue result
        ↔ All (λ event. IsSpentIn opening.now story.now stripe exclude.now event.kind) story.now }
{
    for event in story {
        if !is_spent_in(reached, opening, story, stripe, exclude, &event.kind) {
            return false;
        }
    }
    true
}

fn is_spent(
    reached: &[Block],
    opening: &Opening,
    story: &[Event],
    stripe: u8,
    exclude: &Exclude,
) -> bool
    requires { AreReached opening.now reached.now }
    ensures { IsTrue result ↔ IsSpent opening.now story.now stripe exclude.now }
{
    all_spent(reached, opening, story, stripe, exclude)
}

/// The ask with this exclusion needs ids in the container.
fn needs_more_to(
    reached: &[Block],
    opening: &Opening,
    story: &[Event],
    stripe: u8,
    container: u64,
    pipeline: u8,
    exclude: &Exclude,
) -> bool
    requires { AreReached opening.now reached.now }
    ensures { IsTrue result ↔ NeedsMoreTo opening.now story.now stripe container pipeline exclude.now }
{
    !excludes(exclude, container, pipeline) && is_spent(reached, opening, story, stripe, exclude)
}

fn needs_more_in(
    reached: &[Block],
    opening: &Opening,
    story: &[Event],
    stripe: u8,
    container: u64,
    pipeline: u8,
    request: &Request,
) -> bool
    requires { AreReached opening.now reached.now }
    ensures { IsTrue result ↔ NeedsMoreIn opening.now story.now stripe container pipeline request.now }
{
    match request {
        Request::AllocateBlock {
            volume,
            exclude,
            ..
        } => {
            stripe_of(volume.bytes()) == stripe
                && needs_more_to(
                    reached, opening, story, stripe, container, pipeline, exclude,
                )
        }
        _ => false,
    }
}

fn needs_more(
    reached: &[Block],
    opening: &Opening,
    story: &[Event],
    stripe: u8,
    container: u64,
    pipeline: u8,
    kind: &EventKind,
) -> bool
    requires { AreReached opening.now reached.now }
    ensures { IsTrue result ↔ NeedsMore opening.now story.now stripe container pipeline kind.now }
{
    match kind {
        EventKind::Ask { request, .. } => {
            needs_more_in(
                reached, opening, story, stripe, container, pipeline, request,
            )
        }
        _ => false,
    }
}

fn any_needs(
    reached: &[Block],
    opening: &Opening,
    story: &[Event],
    stripe: u8,
    container: u64,
    pipeline: u8,
) -> bool
    requires { AreReached opening.now reached.now }
    ensures { IsTrue result
        ↔ Any (λ event. NeedsMore opening.now story.now stripe container pipeline event.kind) story.now }
{
    for event in story {
        if needs_more(
            reached,
            opening,
            story,
            stripe,
            container,
            pipeline,
            &event.kind,
        ) {
            return true;
        }
    }
    false
}

/// Whether an ask of the stripe needs more ids, in this container and on this pipeline.
pub(crate) fn is_needed(
    reached: &[Block],
    opening: &Opening,
    story: &[Event],
    stripe: u8,
    container: u64,
    pipeline: u8,
) -> bool
    requires { AreReached opening.now reached.now }
    ensures { IsTrue result ↔ IsNeeded opening.now story.now stripe container pipeline }
{
    any_needs(reached, opening, story, stripe, container, pipeline)
}

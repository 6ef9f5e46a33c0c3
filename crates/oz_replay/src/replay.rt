//! The namespace of a story, made from the opening's by each Decide at its place.

ghost use Rattle.std.specs.Prelude.{◌≡◌, [], IfOk};
ghost use Rattle.oz_core.specs.Manager.{kept_up_to, namespace_from, namespace_of, namespace_step};
ghost use Rattle.oz_replay.specs.Words.{is_counted};

use crate::asked::pending;
use crate::leaving::namespace_after;
use oz_core::{Event, EventKind, Opening};
use oz_fields::{OutOfMemory, TryClone};
use oz_namespace::Namespace;
use std::alloc::Global;

/// Decides of this index count: those up to a most, or all.
fn is_counted(most: Option<u64>, index: u64) -> bool
    ensures { result ≡ is_counted most index }
{
    match most {
        None => true,
        Some(most) => index <= most,
    }
}

fn namespace_step(
    alloc: Global,
    most: Option<u64>,
    before: &[Event],
    namespace: Namespace,
    kind: &EventKind,
) -> Result<Namespace, OutOfMemory>
    ensures { IfOk result (λ it. it ≡ namespace_step (is_counted most) before.now namespace kind.now) }
{
    match kind {
        EventKind::Decide {
            id,
            index,
            reply,
            ..
        } if is_counted(most, *index) => {
            namespace_after(alloc, pending(*id, before), namespace, reply)
        }
        _ => Ok(namespace),
    }
}

fn replayed(
    alloc: Global,
    most: Option<u64>,
    opening: &Opening,
    story: &[Event],
) -> Result<Namespace, OutOfMemory>
    ensures { IfOk result (λ it. it ≡ namespace_from (is_counted most) [] opening.now.namespace story.now) }
{
    let mut namespace = opening.namespace.try_clone(alloc)?;
    for (i, event) in story.iter().enumerate() {
        namespace = namespace_step(alloc, most, &story[..i], namespace, &event.kind)?;
    }
    Ok(namespace)
}

/// The namespace after all Decides. Where a stripe would draw the number 2^64 it answers that memory ran out, as where it
/// does.
pub fn namespace_of(
    alloc: Global,
    opening: &Opening,
    story: &[Event],
) -> Result<Namespace, OutOfMemory>
    ensures { IfOk result (λ it. it ≡ namespace_of opening.now story.now) }
{
    replayed(alloc, None, opening, story)
}

/// The same after those up to an index.
pub fn kept_up_to(
    alloc: Global,
    opening: &Opening,
    most: u64,
    story: &[Event],
) -> Result<Namespace, OutOfMemory>
    ensures { IfOk result (λ it. it ≡ kept_up_to opening.now most story.now) }
{
    replayed(alloc, Some(most), opening, story)
}

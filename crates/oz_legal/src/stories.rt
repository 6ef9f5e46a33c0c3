//! Where a story first breaks the law.

ghost use Rattle.std.specs.Prelude.{IfOk, MatchOption};
ghost use Rattle.oz_core.specs.Law.{IsLegal};
ghost use Rattle.oz_legal.specs.Faults.{IsFirstFault};

use crate::enabling::enabled;
use oz_core::{Event, Opening};
use oz_fields::OutOfMemory;
use std::alloc::Global;

/// The place, from 0, of the first event that may not follow those before it; none where the story is legal.
pub fn legal(
    alloc: Global,
    opening: &Opening,
    story: &[Event],
) -> Result<Option<usize>, OutOfMemory>
    ensures { IfOk result (λ place. MatchOption place
        (IsLegal opening.now story.now) (λ place. IsFirstFault opening.now story.now place)) }
{
    for place in 0..story.len() {
        if !enabled(alloc, opening, &story[..place], &story[place])? {
            return Ok(Some(place));
        }
    }
    Ok(None)
}

//! What a story makes of a container: its state, the ids that were granted in it, and its members.

ghost use Rattle.std.specs.Prelude.{◌≡◌, ◌%◌, [], MatchOption};
ghost use Rattle.std.specs.FinMap.{get};
ghost use Rattle.oz_core.specs.Scm.{containers, members};
ghost use Rattle.oz_scm_law.specs.Words.{state_in, state_after};

use oz_container::State;
use oz_core::{Event, EventKind, Opening};
use oz_law::pipeline_of;

fn state_after(number: u64, before: Option<State>, kind: &EventKind) -> Option<State>
    ensures { result ≡ state_after number before kind.now }
{
    match kind {
        EventKind::Grant { container, .. } if *container == number => {
            Some(before.unwrap_or(State::Open))
        }
        EventKind::Closed { container, state } if *container == number => before.and(Some(*state)),
        _ => before,
    }
}

/// The state that the container is in, None where it wasn't made.
pub(crate) fn state_of(opening: &Opening, story: &[Event], number: u64) -> Option<State>
    ensures { result ≡ state_in (get (containers opening.now story.now) number) }
{
    let mut state = opening
        .containers
        .get(number)
        .map(|container| container.state);
    for event in story {
        state = state_after(number, state, &event.kind);
    }
    state
}

pub(crate) fn modulo(number: usize, count: usize) -> usize
    ensures { result ≡ number % count }
{
    if count == 0 { number } else { number % count }
}

/// The datanodes that have a replica of the container, None where it wasn't made.
pub(crate) fn members(opening: &Opening, story: &[Event], number: u64) -> Option<[usize; 3]>
    ensures { MatchOption result
        (members opening.now story.now number ≡ [])
        (λ all. members opening.now story.now number ≡ all) }
{
    let count = opening.nodes.len();
    match pipeline_of(opening, story, number) {
        None => None,
        Some(pipeline) => {
            let first = usize::from(pipeline);
            Some([
                modulo(first, count),
                modulo(first + 1, count),
                modulo(first + 2, count),
            ])
        }
    }
}

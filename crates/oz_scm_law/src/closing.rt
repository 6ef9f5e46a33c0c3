//! Whether a container may come to a state.

ghost use Rattle.std.specs.Prelude.{◌≡◌, ◌≢◌, ◌↔◌, ◌≤◌, All, IsTrue, length};
ghost use Rattle.oz_core.specs.Law.{ClosedIsEnabled};
ghost use Rattle.oz_core.specs.Seats.{scm_seat};
ghost use Rattle.oz_scm_law.specs.Words.{step_between, ComesTo, MayStep, MayStepAt};

use crate::containers::state_of;
use crate::steps::allows_step;
use oz_container::{Event as Step, State};
use oz_core::{Event, Node, Opening};
use oz_law::{SCM_SEAT, halt_of};

/// The step that leads from the one state to the other.
fn step_between(from: State, to: State) -> Option<Step>
    ensures { result ≡ step_between from to }
{
    match (from, to) {
        (State::Open, State::Closing) => Some(Step::Finalize),
        (State::Closing, State::QuasiClosed) => Some(Step::QuasiClose),
        (State::Closing, State::Closed) => Some(Step::Close),
        (State::QuasiClosed, State::Closed) => Some(Step::ForceClose),
        (State::Closed, State::Deleting) => Some(Step::Delete),
        (State::Deleting, State::Deleted) => Some(Step::Cleanup),
        _ => None,
    }
}

fn are_of_others(events: &[Event]) -> bool
    ensures { IsTrue result ↔ All (λ event. event.seat ≢ scm_seat) events.now }
{
    events.iter().all(|event| event.seat != SCM_SEAT)
}

fn may_step_at(opening: &Opening, story: &[Event], number: u64, by: Step, place: usize) -> bool
    requires { place ≤ length story.now }
    ensures { IsTrue result ↔ MayStepAt opening.now story.now number by place }
{
    are_of_others(&story[place..]) && allows_step(opening, &story[..place], number, by)
}

/// What the step wants held at a place behind which the manager of containers did nothing more.
fn may_step(opening: &Opening, story: &[Event], number: u64, by: Step) -> bool
    ensures { IsTrue result ↔ MayStep opening.now story.now number by }
{
    for place in 0..=story.len() {
        if may_step_at(opening, story, number, by, place) {
            return true;
        }
    }
    false
}

fn comes_to(opening: &Opening, story: &[Event], number: u64, from: State, to: State) -> bool
    ensures { IsTrue result ↔ ComesTo opening.now story.now number from to }
{
    match step_between(from, to) {
        None => false,
        Some(by) => may_step(opening, story, number, by),
    }
}

/// Whether the container may come to the state.
pub fn closed_is_enabled(
    opening: &Opening,
    story: &[Event],
    seat: u16,
    number: u64,
    state: State,
) -> bool
    ensures { IsTrue result ↔ ClosedIsEnabled opening.now story.now seat number state }
{
    match state_of(opening, story, number) {
        None => false,
        Some(from) => {
            seat == SCM_SEAT
                && halt_of(Node::Scm, story).is_none()
                && comes_to(opening, story, number, from, state)
        }
    }
}

//! What happens to containers: a call `STATE EVENT` gives the state that follows, or that none does.

use crate::calls::{calls_of, judge_call};
use crate::told::{Stuck, Told};
use case_files::{Judged, Statement};
use oz_container::{Event, State, event};
use std::alloc::{AllocError, Global};

fn state_of(word: &str) -> Option<State> {
    match word {
        "open" => Some(State::Open),
        "closing" => Some(State::Closing),
        "quasi_closed" => Some(State::QuasiClosed),
        "closed" => Some(State::Closed),
        "deleting" => Some(State::Deleting),
        "deleted" => Some(State::Deleted),
        _ => None,
    }
}

fn event_of(word: &str) -> Option<Event> {
    match word {
        "finalize" => Some(Event::Finalize),
        "quasi_close" => Some(Event::QuasiClose),
        "close" => Some(Event::Close),
        "force_close" => Some(Event::ForceClose),
        "delete" => Some(Event::Delete),
        "cleanup" => Some(Event::Cleanup),
        _ => None,
    }
}

/// Writes what a call comes to.
fn make(call: &Statement, came: &mut String) -> Result<(), Stuck> {
    match (state_of(call.word(0)), event_of(call.word(1))) {
        (Some(state), Some(step)) => {
            write!(came, "{:?}", event(state, step))?;
            Ok(())
        }
        _ => Err(Stuck::Unread),
    }
}

/// Judges a case of containers.
pub fn judge_containers(alloc: Global, case: &[Statement]) -> Result<Judged, AllocError> {
    let mut told = Told::new(alloc);
    for call in &calls_of(&mut told, case)? {
        let mut came = String::new(alloc);
        let made = make(call, &mut came);
        judge_call(&mut told, call, made, came.as_str())?;
    }
    Ok(told.judged())
}

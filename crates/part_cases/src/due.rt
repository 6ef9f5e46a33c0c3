//! What is due of a view of a container, in the plainest way.

use oz_container::{Event, State};
use oz_repl::{CopyOrder, View};
use std::alloc::{AllocError, Global};

/// The copies that are due of the local ids 1 and 2, by these and by their targets.
pub fn plain_copies(alloc: Global, view: &View) -> Result<Vec<CopyOrder>, AllocError> {
    let mut orders = Vec::new(alloc);
    if !matches!(view.state, State::QuasiClosed | State::Closed) {
        return Ok(orders);
    }
    for local in [1, 2] {
        for to in [0, 1, 2] {
            if let Some(order) = plain_copy(view, local, to) {
                orders.push(order)?;
            }
        }
    }
    Ok(orders)
}

/// The copy of a block to the member at a place, if it is due.
fn plain_copy(view: &View, local: u64, to: usize) -> Option<CopyOrder> {
    let is_due = is_up(view, to)
        && !holds(view, local, to)
        && !view.logged.items().contains(&local);
    let from = [0, 1, 2]
        .into_iter()
        .find(|place| is_up(view, *place) && holds(view, local, *place));
    match (is_due, from) {
        (true, Some(from)) => Some(CopyOrder {
            source: member(view, from),
            target: member(view, to),
            local,
        }),
        _ => None,
    }
}

fn is_up(view: &View, place: usize) -> bool {
    view.up.get(place) == Some(&true)
}

fn is_closed(view: &View, place: usize) -> bool {
    view.closed.get(place) == Some(&true)
}

fn holds(view: &View, local: u64, place: usize) -> bool {
    match view.held.get(place) {
        Some(held) => held.items().contains(&local),
        None => false,
    }
}

fn member(view: &View, place: usize) -> u8 {
    view.members.get(place).copied().unwrap_or(0)
}

/// The event that comes next, if any may.
pub fn plain_event(view: &View) -> Option<Event> {
    match view.state {
        State::Open => Some(Event::Finalize),
        State::Closing if agree(view) => Some(Event::Close),
        State::Closing if may_be_quasi_closed(view) => Some(Event::QuasiClose),
        State::QuasiClosed if agree(view) => Some(Event::ForceClose),
        State::Closed if are_up_and_empty(view) => Some(Event::Delete),
        State::Deleting => Some(Event::Cleanup),
        State::Closing | State::QuasiClosed | State::Closed | State::Deleted => None,
    }
}

/// All are up and closed, and of what isn't being deleted each holds all or none.
fn agree(view: &View) -> bool {
    [0, 1, 2]
        .into_iter()
        .all(|place| is_up(view, place) && is_closed(view, place))
        && [1, 2].into_iter().all(|local| view.logged.items().contains(&local)
            || are_alike(view, local))
}

fn are_alike(view: &View, local: u64) -> bool {
    holds(view, local, 0) == holds(view, local, 1) && holds(view, local, 1) == holds(view, local, 2)
}

/// One is up at least, and those that are up have closed.
fn may_be_quasi_closed(view: &View) -> bool {
    [0, 1, 2].into_iter().any(|place| is_up(view, place))
        && [0, 1, 2]
            .into_iter()
            .all(|place| !is_up(view, place) || is_closed(view, place))
}

fn are_up_and_empty(view: &View) -> bool {
    [0, 1, 2].into_iter().all(|place| is_up(view, place))
        && view.held.iter().all(|held| held.items().is_empty())
}

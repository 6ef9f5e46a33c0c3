//! The event that comes next.

ghost use Rattle.std.specs.Prelude.{◌≡◌, ◌↔◌, ◌<◌, true, All, Contains, IsTrue, slice_get};
ghost use Rattle.std.specs.List.Sorted.{IsStrictlyIncreasing};
ghost use Rattle.oz_container.specs.declared.state.Event.{Event as AnyEvent};
ghost use Rattle.oz_repl.specs.repl.View.{Agree, AgreeInPart, AreEmpty, AreRising, HoldsWithin, IsNext, UpAreClosed};

use super::holders::has;
use super::view::View;
use oz_container::{Event, State};
use oz_fields::List;

/// The event that may happen next to a container, None where none may.
pub fn step(view: &View) -> Option<Event>
    requires { AreRising view.now }
    ensures { (event : AnyEvent) → (result ≡ Some event) ↔ IsNext view.now event }
{
    match view.state {
        State::Open => Some(Event::Finalize),
        State::Closing => closing_step(view),
        State::QuasiClosed => agree(view).then_some(Event::ForceClose),
        State::Closed => are_empty(view).then_some(Event::Delete),
        State::Deleting => Some(Event::Cleanup),
        State::Deleted => None,
    }
}

fn closing_step(view: &View) -> Option<Event>
    requires rising { AreRising view.now }
    requires closing { view.now.state ≡ State.Closing }
    ensures { (event : AnyEvent) → (result ≡ Some event) ↔ IsNext view.now event }
{
    if agree(view) {
        Some(Event::Close)
    } else if agree_in_part(view) {
        Some(Event::QuasiClose)
    } else {
        None
    }
}

/// Whether members that don't all agree do so as far as they are up.
fn agree_in_part(view: &View) -> bool
    requires { Agree view.now → ⊥ }
    ensures { IsTrue result ↔ AgreeInPart view.now }
{
    is_any(&view.up) && are_closed_or_down(view)
}

fn agree(view: &View) -> bool
    requires { AreRising view.now }
    ensures { IsTrue result ↔ Agree view.now }
{
    are_all(&view.up) && are_all(&view.closed) && hold_alike(&view.held, view.logged.items())
}

fn are_all(flags: &[bool]) -> bool
    ensures { IsTrue result ↔ All (λ flag. flag ≡ true) flags.now }
{
    flags.iter().all(|flag| *flag)
}

fn is_any(flags: &[bool]) -> bool
    ensures { IsTrue result ↔ Contains flags.now true }
{
    flags.iter().any(|flag| *flag)
}

fn are_closed_or_down(view: &View) -> bool
    ensures { IsTrue result ↔ UpAreClosed view.now.up view.now.closed }
{
    is_closed_or_down(view, 0) && is_closed_or_down(view, 1) && is_closed_or_down(view, 2)
}

fn is_closed_or_down(view: &View, place: usize) -> bool
    requires { place < 3 }
    ensures { IsTrue result ↔ (slice_get view.now.up place ≡ Some true → slice_get view.now.closed place ≡ Some true) }
{
    view.closed[place] || !view.up[place]
}

/// Whether all of them hold the same, but for what is being deleted.
fn hold_alike(all: &[List<u64>], logged: &[u64]) -> bool
    requires all { All IsStrictlyIncreasing all.now }
    requires logged { IsStrictlyIncreasing logged.now }
    ensures { IsTrue result ↔ All (λ held. All (λ other. HoldsWithin logged.now held other) all.now) all.now }
{
    for held in all {
        if !is_in_all(held.items(), all, logged) {
            return false;
        }
    }
    true
}

fn is_in_all(held: &[u64], all: &[List<u64>], logged: &[u64]) -> bool
    requires all { All IsStrictlyIncreasing all.now }
    requires logged { IsStrictlyIncreasing logged.now }
    ensures { IsTrue result ↔ All (λ other. HoldsWithin logged.now held.now other) all.now }
{
    for other in all {
        if !is_within(held, other.items(), logged) {
            return false;
        }
    }
    true
}

fn is_within(held: &[u64], other: &[u64], logged: &[u64]) -> bool
    requires other { IsStrictlyIncreasing other.now }
    requires logged { IsStrictlyIncreasing logged.now }
    ensures { IsTrue result ↔ HoldsWithin logged.now held.now other.now }
{
    for local in held {
        if !has(logged, *local) && !has(other, *local) {
            return false;
        }
    }
    true
}

fn are_empty(view: &View) -> bool
    ensures { IsTrue result ↔ AreEmpty view.now }
{
    are_all(&view.up) && view.held.iter().all(|held| held.is_empty())
}

//! The ids of a grant, and where they may go.

ghost use Rattle.std.specs.Prelude.{◌≡◌, ◌↔◌, ◌+◌, ◌^◌, ◌≤◌, ◌<◌, IfOk, IsTrue, fold, max};
ghost use Rattle.std.specs.FinMap.{get};
ghost use Rattle.oz_core.specs.Law.{MayHold};
ghost use Rattle.oz_core.specs.Scm.{containers, greatest_container, id_after, next_id};
ghost use Rattle.oz_fields.specs.declared.block.TheConstants.{GREATEST_BLOCK_NUMBER};
ghost use Rattle.oz_scm_law.specs.Words.{granted_to, granted_after, greatest_after, AreNext};

use crate::containers::state_of;
use oz_container::State;
use oz_core::{Event, EventKind, GRANTED_IDS, MOST_GRANTED, Opening};
use oz_fields::{GREATEST_BLOCK_NUMBER, OutOfMemory};
use oz_law::pipeline_of;
use std::alloc::Global;

fn id_after(kind: &EventKind) -> Option<u128>
    ensures { result ≡ id_after kind.now }
{
    match kind {
        EventKind::Grant { first, count, .. } => Some(u128::from(*first) + u128::from(*count)),
        _ => None,
    }
}

/// The id of the next block that is granted.
fn next_id(opening: &Opening, story: &[Event]) -> u128
    ensures { result ≡ next_id opening.now story.now }
{
    let mut next = u128::from(opening.next_id);
    for event in story {
        next = id_after(&event.kind).unwrap_or(next);
    }
    next
}

fn are_within(first: u64, count: u32) -> bool
    ensures { IsTrue result ↔ (first + count ≤ GREATEST_BLOCK_NUMBER) }
{
    u128::from(first) + u128::from(count) <= u128::from(GREATEST_BLOCK_NUMBER)
}

/// As many ids from there on as a grant has, and the next.
pub(crate) fn are_next(opening: &Opening, story: &[Event], first: u64, count: u32) -> bool
    ensures { IsTrue result ↔ AreNext opening.now story.now first count }
{
    u128::from(first) == next_id(opening, story) && count == GRANTED_IDS && are_within(first, count)
}

fn granted_after(number: u64, before: u128, kind: &EventKind) -> u128
    requires { before < 2 ^ 127 }
    ensures now { result ≡ granted_after number before kind.now }
    ensures few { result < before + 2 ^ 32 }
{
    match kind {
        EventKind::Grant {
            container,
            count,
            ..
        } if *container == number => before + u128::from(*count),
        _ => before,
    }
}

fn was_granted(opening: &Opening, number: u64) -> u64
    ensures { result ≡ granted_to (get opening.now.containers number) }
{
    match opening.containers.get(number) {
        None => 0,
        Some(container) => container.granted,
    }
}

/// How many ids were granted in the container.
fn granted_of(opening: &Opening, story: &[Event], number: u64) -> u128
    ensures { result ≡ granted_to (get (containers opening.now story.now) number) }
{
    let mut granted = u128::from(was_granted(opening, number));
    for event in story {
        granted = granted_after(number, granted, &event.kind);
    }
    granted
}

fn greatest_of(numbers: &[u64]) -> u64
    ensures { result ≡ fold max 0 numbers.now }
{
    let mut greatest = 0;
    for number in numbers {
        greatest = greatest.max(*number);
    }
    greatest
}

fn greatest_after(before: u64, kind: &EventKind) -> u64
    ensures { result ≡ greatest_after before kind.now }
{
    match kind {
        EventKind::Grant { container, .. } => before.max(*container),
        _ => before,
    }
}

/// The greatest number of a container, 0 for none.
pub(crate) fn greatest_container(
    alloc: Global,
    opening: &Opening,
    story: &[Event],
) -> Result<u64, OutOfMemory>
    ensures { IfOk result (λ greatest. greatest ≡ greatest_container opening.now story.now) }
{
    let numbers = opening.containers.numbers(alloc)?;
    let mut greatest = greatest_of(numbers.items());
    for event in story {
        greatest = greatest_after(greatest, &event.kind);
    }
    Ok(greatest)
}

/// An open container of the pipeline with few ids granted, or the number behind the greatest.
pub(crate) fn may_hold(
    opening: &Opening,
    story: &[Event],
    number: u64,
    pipeline: u8,
    greatest: u64,
) -> bool
    requires { greatest ≡ greatest_container opening.now story.now }
    ensures { IsTrue result
        ↔ MayHold opening.now story.now number pipeline (get (containers opening.now story.now) number) }
{
    match pipeline_of(opening, story, number) {
        None => number.checked_sub(1) == Some(greatest),
        Some(on) => {
            state_of(opening, story, number) == Some(State::Open)
                && on == pipeline
                && granted_of(opening, story, number) <= u128::from(MOST_GRANTED)
        }
    }
}

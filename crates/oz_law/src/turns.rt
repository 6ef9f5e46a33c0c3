//! Whether a line may be told.

ghost use Rattle.std.specs.Prelude.{◌↔◌, IsTrue};
ghost use Rattle.oz_core.specs.Law.{IsInTime, ToldIsEnabled};

use crate::asks::{is_told, line_index};
use crate::manager::{durable_index, halt_of};
use crate::seats::is_line_seat;
use oz_core::{Event, Node, Opening};
use oz_requests::Answer;

fn is_in_time(opening: &Opening, story: &[Event], client: u16, line: u16, answer: &Answer) -> bool
    ensures { IsTrue result ↔ IsInTime opening.now story.now client line answer.now }
{
    let is_stable = line_index(client, line, story) <= durable_index(opening, story);
    match answer {
        Answer::Unacknowledged => is_stable || halt_of(Node::Manager, story).is_some(),
        Answer::OutOfMemory => true,
        _ => is_stable,
    }
}

/// Whether the line may be told this answer.
pub fn told_is_enabled(
    opening: &Opening,
    story: &[Event],
    seat: u16,
    client: u16,
    line: u16,
    answer: &Answer,
) -> bool
    ensures { IsTrue result ↔ ToldIsEnabled opening.now story.now seat client line answer.now }
{
    is_line_seat(seat)
        && !is_told(client, line, story)
        && is_in_time(opening, story, client, line, answer)
}

//! What a story makes of lines: what they asked, what was decided, and whether they were told.

ghost use Rattle.std.specs.Prelude.{◌≡◌, is_some};
ghost use Rattle.oz_core.specs.Asks.{is_of_line, line_index_after, line_index, answer_to, is_told};

use oz_core::{Event, EventKind};
use oz_requests::AskId;

pub fn is_of_line(client: u16, line: u16, id: AskId) -> bool
    ensures { result ≡ is_of_line client line id }
{
    id.client == client && id.line == line
}

fn tells(client: u16, line: u16, kind: &EventKind) -> bool
    ensures { result ≡ is_some (answer_to client line kind.now) }
{
    match kind {
        EventKind::Told {
            client: other,
            line: number,
            ..
        } => *other == client && *number == line,
        _ => false,
    }
}

/// Whether the line was told.
pub fn is_told(client: u16, line: u16, story: &[Event]) -> bool
    ensures { result ≡ is_told client line story.now }
{
    story.iter().any(|event| tells(client, line, &event.kind))
}

fn line_index_after(client: u16, line: u16, before: u64, kind: &EventKind) -> u64
    ensures { result ≡ line_index_after client line before kind.now }
{
    match kind {
        EventKind::Decide { id, index, .. } if is_of_line(client, line, *id) => before.max(*index),
        _ => before,
    }
}

/// The greatest index of the line's Decides, 0 for none.
pub fn line_index(client: u16, line: u16, story: &[Event]) -> u64
    ensures { result ≡ line_index client line story.now }
{
    let mut greatest = 0;
    for event in story {
        greatest = line_index_after(client, line, greatest, &event.kind);
    }
    greatest
}

//! The story of a run as lines of words.

use case_files::words_in;
use oz_core::Event;
use oz_world::OutOfMemory;
use std::alloc::Global;

/// Adds the line of an event: the number of its seat, the event's kind and its fields, in words alone.
fn add_event(alloc: Global, lines: &mut String, event: &Event) -> Result<(), OutOfMemory> {
    let said = format!(in alloc; "{} {:?}", event.seat, event.kind)?;
    lines.push_str(words_in(alloc, said.as_str())?.as_str())?;
    lines.push('\n')
}

/// The lines of all events.
pub fn history(alloc: Global, story: &[Event]) -> Result<String, OutOfMemory> {
    let mut lines = String::new(alloc);
    for event in story {
        add_event(alloc, &mut lines, event)?;
    }
    Ok(lines)
}

/// The lines of the events that these seats gave.
pub fn history_of(alloc: Global, story: &[Event], seats: &[u64]) -> Result<String, OutOfMemory> {
    let mut lines = String::new(alloc);
    for event in story {
        if seats.contains(&u64::from(event.seat)) {
            add_event(alloc, &mut lines, event)?;
        }
    }
    Ok(lines)
}

//! Whole texts: stories and openings.

use crate::events::kind;
use crate::openings::{add, nothing};
use crate::unread::{Unread, cannot_read};
use crate::words::Words;
use oz_core::{Event, EventKind, Opening};
use oz_fields::OutOfMemory;
use std::alloc::Global;

fn push(story: &mut Vec<Event>, seat: u16, kind: EventKind) -> Result<(), OutOfMemory> {
    story.push(Event { seat, kind })?;
    Ok(())
}

fn push_event(
    alloc: Global,
    words: &mut Words<'_>,
    story: &mut Vec<Event>,
) -> Result<(), OutOfMemory> {
    let seat = words.u16();
    push(story, seat, kind(alloc, words)?)
}

/// The line was read as a whole.
fn all_read(alloc: Global, words: &Words<'_>, line: &str) -> Result<(), Unread> {
    if words.are_read() {
        Ok(())
    } else {
        Err(cannot_read(alloc, line))
    }
}

/// Adds the event that a line says.
fn read_event(alloc: Global, line: &str, story: &mut Vec<Event>) -> Result<(), Unread> {
    let mut words = Words::new(line, ' ');
    push_event(alloc, &mut words, story)?;
    all_read(alloc, &words, line)
}

/// The story of these lines. Blanks round a line, and lines of blanks, are nothing.
pub fn story_of(alloc: Global, text: &str) -> Result<Vec<Event>, Unread> {
    let mut story = Vec::new(alloc);
    for line in text.lines() {
        let line = line.trim();
        if !line.is_empty() {
            read_event(alloc, line, &mut story)?;
        }
    }
    Ok(story)
}

/// Adds the thing that a line says.
fn read_thing(alloc: Global, line: &str, opening: &mut Opening) -> Result<(), Unread> {
    let mut words = Words::new(line, ' ');
    add(alloc, &mut words, opening)?;
    all_read(alloc, &words, line)
}

/// The opening of these lines. Blanks round a line, and lines of blanks, are nothing.
pub fn opening_of(alloc: Global, text: &str) -> Result<Opening, Unread> {
    let mut opening = nothing(alloc);
    for line in text.lines() {
        let line = line.trim();
        if !line.is_empty() {
            read_thing(alloc, line, &mut opening)?;
        }
    }
    Ok(opening)
}
